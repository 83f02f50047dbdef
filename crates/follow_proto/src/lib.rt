//! The bytes by which a follower gets the accepted edits of a leader: asks and messages, each with one encoding.
//!
//! An ask is five bytes: its kind, and how many edits the follower has. A message is sent after the length of its frame
//! in four bytes. Every number has its highest byte first. Nothing here allocates memory.
//!
//! The message with a map of three cells, which a follower gets before it asks:
//!
//! ```text
//! feed led | ... | 02 00 00 00 00 00 | - | 64x1 | - | 256 | -
//! Ok(Quiet); left -; sent 00 00 00 0C 31 00 00 00 03 00 00 00 01 01 01 01
//! ```
#![tactic(auto)]

mod asks;
mod edits;
pub mod kinds;
pub mod laws;
mod messages;
mod writing;

pub use asks::{Ask, read_ask, write_ask};
pub use edits::{EditsHead, edit_bytes, edits_head, edits_head_at};
pub use messages::{ahead, no_memory, start_head, terrain_byte};

/// The most edits that one message has.
pub const MAX_SENT: u32 = 1024;

/// How many bytes an ask has.
pub const ASK_SIZE: usize = 5;

/// The most bytes that an edit has in a message: the number of its changes, and 64 changes.
pub const EDIT_ROOM: usize = 321;

/// The most bytes that the frame of a message has: those of the largest map.
pub const MAX_FRAME: u32 = 1_048_585;
