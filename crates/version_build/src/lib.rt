//! Builds versions: the database of a map, with what a former version has of it taken over.
//!
//! A component's database depends on its cells alone, and so one that has the same cells in the former version is
//! shared with it. The rows of all others are built, but for those that follow from the rows of the component that a
//! cell was blocked in or freed beside. (Botea 2011; Strasser, Harabor and Botea 2014)
//!
//! A cell of a component of two is blocked: the next version builds one row and keeps the component of the other two:
//!
//! ```text
//! replay | ..@.. | submit 0 0 0 0\nbegin 0\nrow 0\npublish 0\n
//! 0 accepted 1\n0 job 1 rows 1\n0 row left 0\n0 published 1 built 1 kept 2\n
//! ```
#![tactic(auto)]

mod bases;
mod builder;
mod building;
mod edited;
mod parts;
mod planning;
mod plans;

pub use builder::Builder;
pub use building::{FEW_CELLS, build};
pub use planning::plan;
pub use plans::{BuildReport, Plan};
