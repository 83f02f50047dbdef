//! A board that threads share by turns.
//!
//! Each thread has a [`Pass`]. Its calls answer what the board answers at a history that goes on from all that the pass
//! has seen, and the pass has then seen that history too, with the entry of its own that the call added.
//!
//! A second pass publishes before it has met the first pass's edit; then it sees it:
//!
//! ```text
//! met pass | @@@ | 0 0 blocked
//! B Ok(()), A Ok(1), B Err(Moved { count: 1 }), sees 1 accepted, Ok(())
//! ```
#![tactic(auto)]

pub mod pass;
pub mod shared;
mod sharing;
pub mod state;

pub use pass::Pass;
pub use shared::{Moved, Note, ShareRefused, SharedBoard};
