//! A second node: a follower takes the accepted edits of a leader over a link, and publishes versions of their prefixes.
//!
//! A follower gets a map and one edit, and publishes the version after it:
//!
//! ```text
//! feed followed | 00 00 00 0C 31 00 00 00 03 00 00 00 01 01 01 01 00 00 00 0F 32 00 00 00 00 00 00 00 01 01 00 \
//! 00 00 00 00 | 64x1 | - | 256 | -
//! Ok(()); left -; sent 21 00 00 00 00; board Some((1, 1)), fault None, torn false
//! ```
#![tactic(auto)]

mod building;
mod edits;
pub mod faults;
pub mod follower;
mod hearing;
pub mod laws;
pub mod links;
mod reading;
mod starts;

pub use faults::FollowFault;
pub use follower::Follower;
pub use links::{LinkFault, follow_link};
