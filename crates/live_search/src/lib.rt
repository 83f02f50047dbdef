//! Best paths of a live map, by a search that a database leads.
//!
//! Where the path that the database tells is not free, a search over the live map finds one. What the database says a
//! path costs is its lower bound, and it ends at the first cell from which the told path is free. All its memory is a
//! room of words that the caller lends, which may hold anything when it begins; it may be stopped and goes on.
//! (Hart, Nilsson and Raphael 1968; Bono, Gerevini, Harabor and Stuckey 2019)
//!
//! `examples/doors.c` closes a door of a map, and asks for paths round it.
#![tactic(auto)]

mod ending;
mod expanding;
mod noting;
mod queue;
mod searching;
mod seeking;
mod words;

pub use searching::{LiveSearch, SearchFault, go_on, search, search_words};

/// The key that stands where no path was found. Each best path has a smaller one.
pub const NEVER: u32 = 1_583_360_661;
