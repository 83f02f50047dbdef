//! Replays: the events of several passes as a text, one event a line, and what they print when they are run on a board
//! one after the other. Each pass holds a version of the map and has at most one version that it builds row by row.
//!
//! An edit that changes nothing is refused:
//!
//! ```text
//! replay | ... | submit 0 0 0 0 0 0 1
//! 0 repeated\n
//! ```
#![tactic(auto)]

mod answers;
mod error;
mod event;
mod events;
mod kept_event;
mod pass;
mod reading;
mod reply;
mod running;

pub use error::EventsError;
pub use event::Event;
pub use events::Events;
pub use reading::read_events;
pub use running::run_events;

/// How many passes a replay has; they are numbered from 0.
pub const PASSES: u32 = 64;

/// The greatest length of an events file, in bytes.
pub const MAX_EVENTS_BYTES: usize = 16_777_216;
