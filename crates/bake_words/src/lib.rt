//! Images that are baked into words of the caller's, by the calling thread alone.
//!
//! The map is a grid, which `read_map` of map_read reads from a text and [`grid_of_cells`] makes of bytes. [`bake`]
//! builds its first version, row by row of sixteen near sources at a time, and writes the image of that into a room.
//! (Botea 2011; Strasser, Harabor and Botea 2014)
//!
//! `examples/path.c` bakes an image by this library and walks a path of it.
#![tactic(auto)]

mod alone;
mod baking;
mod cells;
mod fault;

pub use baking::bake;
pub use cells::grid_of_cells;
pub use fault::{BakeFault, CellsFault};
