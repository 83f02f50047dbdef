//! A leader's side of a feed: the map before any edit, and then a message for each ask of a follower.
//!
//! A feed looks at a shared board by a pass of its own and enters nothing there. It takes memory for the accepted edits
//! that its follower does not know yet, and for nothing else.
//!
//! A follower that says it has two edits, of one, is told how many there are:
//!
//! ```text
//! feed led | ... | 02 00 00 00 00 00 | 21 00 00 00 02 | 64x1 | - | 256 | -
//! Ok(Quiet); left -; sent 00 00 00 0C 31 00 00 00 03 00 00 00 01 01 01 01 00 00 00 05 33 00 00 00 01
//! ```
#![tactic(auto)]

mod asking;
mod backlog;
mod feeding;
pub mod laws;
mod parcel;
mod sending;

pub use feeding::{FeedEnded, FeedFault, MAX_ASKS, feed_link};
