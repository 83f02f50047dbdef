//! The commands of two nodes: `lead` serves a board and feeds its edits to others, and `follow` takes them over a link and
//! holds a session on the board that they make.
//!
//! A follower of no rounds gets the map, and holds a session, which says bye:
//!
//! ```text
//! run | follow 4001 0 | leader 00 00 00 0C 31 00 00 00 03 00 00 00 01 01 01 01 | input 00 01 05
//! 0 following 0\n | sent 00 00 00 01 8A | link 4001 nothing sent
//! ```
#![tactic(auto)]

mod following;
mod leading;

pub use following::follow;
pub use leading::lead;
