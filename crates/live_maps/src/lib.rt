//! Live maps: a database answers while cells of its map are blocked for a time, as by a door that closes.
//!
//! The map is baked with every door open. From then on cells are only blocked, by a bit a cell that the caller keeps,
//! and freed again. Each path of the live map is a path of the baked one, so a path that the database tells is a best
//! path now wherever it is free, and what the database says a path costs is never more than it costs now.
//! (Bono, Gerevini, Harabor and Stuckey 2019: path planning with the heuristics of a path database)
//!
//! `examples/doors.c` closes a door of a map, and asks for paths round it.
#![tactic(auto)]

mod answers;
pub mod bits;
pub mod laws;
mod live_image;

pub use answers::{LiveFault, LiveNext, LivePath};
pub use live_image::LiveImage;
