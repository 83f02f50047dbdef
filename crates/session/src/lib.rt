//! Sessions: a client's requests over a link, answered at a board.
//!
//! A session uses a board through a desk: the board itself if one thread uses it, or a seat at a board that threads
//! share. Contracts state the answers of a desk in terms of the history that its pass has seen, to which others may add
//! at any call.
//!
//! Two frames that are not requests, a build with nothing new, and a bye:
//!
//! ```text
//! talk | .@. | 00 01 C8 00 02 03 00 00 01 05 | - | - | 256 | -
//! Ok(Bye); left -; sent 00 00 00 04 8B C8 00 01 00 00 00 04 8B 03 00 02 00 00 00 01 8A
//! ```
#![tactic(auto)]

pub mod answers;
pub mod boards;
pub mod builder;
mod building;
mod crews;
pub mod desk;
pub mod doors;
mod frames;
pub mod laws;
pub mod lone;
pub mod means;
pub mod seated;
mod sending;
pub mod sessions;
mod telling;
pub mod trades;

pub use answers::{Answered, PathAt, answer};
pub use boards::{MAX_DOORS, ServeRefused, Served, serve_board, serve_trades};
pub use builder::{BuildTotals, build_loop};
pub use desk::Desk;
pub use doors::{DoorEnded, door_loop};
pub use lone::Lone;
pub use means::Means;
pub use seated::Seated;
pub use sessions::{Ended, MAX_REQUESTS, SessionFault, serve_link};
pub use trades::Trade;
