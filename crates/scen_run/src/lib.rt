//! Scenarios on a version: the result of each line of a scenario file, in as many threads as there are processors, and
//! the report on them. Beside them maps that are made by a formula, and the queries by which such a map is measured.
//! (MovingAI scenario format page)
//!
//! The report on a list without scenarios:
//!
//! ```text
//! scenarios | .@. | version 1\n
//! scenarios 0 match 0 differs 0 unreachable 0 refused 0 scaled 0\n
//! ```
#![tactic(auto)]

pub mod laws;
pub mod made;
pub mod queries;
pub mod reports;
pub mod results;

pub use made::{Made, made_map};
pub use queries::{QueryTotals, measure_queries};
pub use reports::report;
pub use results::{LineResult, run_lines};
