//! The board: the accepted edits of a map, its published versions, and whether it is halting, in
//! one list of entries. Each call that adds an entry is a step of a legal history.
//!
//! For example, a cell is blocked, a version is published, and then the board halts. Written as a
//! test case:
//!
//! ```text
//! board | @@@ | 3 | submit 0 0 0 0\nbegin 0\npublish 0\nhalt 0\n
//! room 3, 1 accepted, version 1, halting: 0 edits 0 0 blocked, 0 publishes 1, 0 halts
//! ```
#![tactic(auto)]

pub mod board;
pub mod entry;
pub mod error;
mod kept_entry;
pub mod laws;

pub use board::{Board, Job, Look};
use edit_log::MAX_EDITS;
pub use entry::Entry;
pub use error::{PublishError, SubmitError};

/// The most entries that a board may have: an edit and a publication for each accepted edit, and
/// one halt.
pub const MAX_ENTRIES: u32 = 2 * MAX_EDITS + 1;
