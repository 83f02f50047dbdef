//! First sets from sixteen near sources at once, one in each lane of a vector.
//!
//! A component is numbered: a cell's place is its index in the list of cells. [`Near`] has the places
//! beside each place, made from the cells alone. [`Tiles`] takes sources that are near one another,
//! guesses their keys and sets, and lets each place look at its neighbours until all meet their
//! equations: a key is the least that a neighbour's key and one step make, and a set has the moves of
//! the neighbours from which a step attains the key. Nothing is believed but these equations. Where all
//! places meet them, keys are those of best paths and sets are the first sets, in whatever order they
//! were found ([`laws`]). (Botea 2011; Strasser, Harabor and Botea 2014.)
//!
//! The first sets from the upper left cell round a blocked one, depth first, as bits from N in the lowest:
//!
//! ```text
//! tile | dfs | .../.@./... | 0 0
//! FF 04 04 04 14 10 10 10
//! ```
#![tactic(auto)]

mod classes;
mod draft;
mod edges;
mod inside;
mod kernels;
mod lane_words;
pub mod laws;
mod near;
mod order;
mod packing;
mod places;
mod reference;
mod solve;
mod sweeps;
mod tiles;

pub use lane_words::LaneWords;
pub use near::Near;
pub use packing::pack_lanes;
pub use tiles::{LANES, Tiles};
