//! Edits of a map: what an edit is, when it is accepted, the log of accepted edits, and the map
//! after them.
//!
//! Three edits, the one after the first, and all after it:
//!
//! ```text
//! edits | 0 0 land, 1 0 land, 0 0 blocked | 1
//! 3 edits, at 1: 1 0 land, from 1 on: 1 0 land 0 0 blocked
//! ```
#![tactic(auto)]

pub mod edit;
pub mod laws;
pub mod list;
pub mod verdict;

pub use edit::{CellChange, Edit};
pub use list::{EditList, apply};
pub use verdict::{EditRefusal, check};

/// The most changes that an edit may have.
pub const MAX_CHANGES: usize = 64;

/// The most edits that a log accepts.
pub const MAX_EDITS: u32 = 1_048_576;
