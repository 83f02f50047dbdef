//! Versions: a map after some edits, with the database from which its paths are read.
//!
//! For each component the database keeps the cells in an order, and the first moves from each cell
//! to all of them, packed into runs. A path is read by look-ups alone, one for each move. (Botea
//! 2011; Strasser, Harabor and Botea 2014)
//!
//! The version of a map with one component of three cells, before any edit:
//!
//! ```text
//! version | ... | rows | 0
//! 0 edits, order Rows, 3 cells, 1 components (1 listed), 4 runs, labels 0 0 0
//! ```
#![tactic(auto)]

pub mod laws;
pub mod query;
pub mod version;

pub use query::{End, QueryRefusal, judge};
pub use version::{Next, Totals, Version};
