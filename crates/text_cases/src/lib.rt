//! The cases of costs, moves, texts of maps and of scenarios, and frames.
//!
//! A line of a case, and the line that it has to print:
//!
//! ```text
//! cost length | 0 0
//! 0 0.000000
//! ```
#![tactic(auto)]

mod costs;
mod frames;
mod grids;
mod masks;
mod texts;

use case_kit::{Fields, Refusal};
use std::alloc::Global;

/// The line of output for a line of input of one of the kinds here; `None` for any other kind.
pub fn answer(alloc: Global, kind: &str, input: &str) -> Result<Option<String>, Refusal> {
    let fields = Fields::of(input);
    match kind {
        "cost order" => costs::order(alloc, fields).map(Some),
        "cost length" => costs::length(alloc, fields).map(Some),
        "cost near" => costs::near(alloc, fields).map(Some),
        "legal moves" => grids::legal_moves(alloc, fields).map(Some),
        "map made" => grids::made(alloc).map(Some),
        "move masks" => masks::compared_over(alloc, input).map(Some),
        "map text" => texts::map(alloc, input).map(Some),
        "scen text" => texts::scenarios(alloc, input).map(Some),
        "request frame" => frames::request(alloc, fields).map(Some),
        "reply frame" => frames::reply(alloc, fields).map(Some),
        _ => Ok(None),
    }
}
