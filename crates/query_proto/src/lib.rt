//! The frames by which a client and the server talk: requests and replies as bytes, each with one encoding.
//!
//! A request is sent after its length in two bytes, a reply after its length in four. Every number has its highest byte
//! first. Nothing here allocates memory.
//!
//! A request to free a cell, and its bytes:
//!
//! ```text
//! request frame | one | 02 00 01 00 00 01
//! Change 1 0 Land sent as 00 06 02 00 01 00 00 01
//! ```
#![tactic(auto)]

mod changes;
mod kinds;
pub mod laws;
pub mod malformed;
pub mod protocols;
mod reading;
pub mod replies;
pub mod requests;
mod writing;

pub use malformed::Malformed;
pub use protocols::{Proto, frame_limit};
pub use replies::{QueryWhy, Reply, decode_reply, reply_head};
pub use requests::{Request, decode_request, encode_request, fits};

/// The most bytes that the frame of a request has: those of 64 changes.
pub const MAX_REQUEST: usize = 322;

/// The most room that a request needs as it is sent, its length before its frame.
pub const REQUEST_ROOM: usize = 324;

/// The most moves that a path has: one fewer than a map may have passable cells.
pub const MAX_MOVES: u32 = 32_767;

/// The most bytes that the frame of a reply has: those of a path with the most moves.
pub const MAX_REPLY: usize = 32_780;

/// The most room that the length and the head of a reply's frame need.
pub const HEAD_ROOM: usize = 64;
