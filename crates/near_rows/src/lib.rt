//! Near rows: best paths with fewer runs, since round a cell the compass move needs none.
//!
//! The compass move from a cell to another is the one whose steps have the signs of the differences. Round each cell
//! there is a square in which it begins a best path to each cell of the component. The first sets to the cells in that
//! square are widened to all moves before they are packed, and so a row has fewer runs; a look-up asks the square first,
//! and the row where the goal is outside. (Strasser, Harabor and Botea 2014: any optimal first move may be kept.)
//!
//! No square is left round a cell beside a blocked corner:
//!
//! ```text
//! radius | .@/.. | rows | 0 0
//! 0
//! ```
#![tactic(auto)]

mod both;
mod building;
mod compass;
mod crew;
mod gathering;
mod lanes;
pub mod laws;
mod near_version;
mod near_walk;
mod nearby;
mod plain;
mod vectors;
mod widening;

use moves::MAX_SIDE;
pub use near_version::NearVersion;
pub use near_walk::{NearWalk, measure};

/// The greatest near radius: no two cells of a map are farther apart by columns or by rows.
pub const MAX_RADIUS: u32 = MAX_SIDE - 1;
