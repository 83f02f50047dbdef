//! The image of a map, baked in parts by threads that the caller has.
//!
//! A [`Bake`] is made once of a map and an order, and only read from then on, so that any number of threads may share
//! it. Each of them writes the rows of some [`Sources`] of one component into memory of its own caller: a part, whose
//! words are told one by one, with an example, where contracts define it (`specs/Parts.antt`). One call puts the
//! image together from all parts, however the sources were cut. This library starts no thread. (Botea 2011; Strasser,
//! Harabor and Botea 2014)
//!
//! `examples/parts.cpp` bakes an image in parts, by as many threads as there are processors.
#![tactic(auto)]

mod bake;
mod bench;
mod component;
mod fault;
mod homes;
mod join;
pub mod laws;
mod part_rows;
mod plain;
mod room;
mod sources;

pub use bake::Bake;
pub use fault::{JoinFault, PartFault};
pub use sources::Sources;
