//! Cases of versions and walks, of edits, boards and replays, of scenarios, and of passes at one board.
//!
//! A line of a case, and the line that it has to print:
//!
//! ```text
//! next | ... | rows | 1 0 | 0 0
//! go W
//! ```
#![tactic(auto)]

mod boards;
mod case;
mod edits;
mod made;
mod queries;
mod shared;

use case::Case;
use case_kit::{Fields, Refusal};
use made::Bodies;
use std::alloc::Global;
use std::sync::Wait;
use std::thread::Threads;

/// The line of output for a line of input of one of the kinds here; `None` for any other kind.
pub fn answer<R: Threads + Wait + Sync>(
    rt: &R,
    alloc: Global,
    kind: &str,
    input: &str,
) -> Result<Option<String>, Refusal> {
    let fields = Fields::of(input);
    let mut case = Case { rt, alloc, fields };
    let said = match kind {
        "version" => case.version_said(),
        "next" => case.next_said(),
        "walk" => case.walk_said(),
        "radius" => case.radius_said(),
        "scenarios" => case.scenarios_said(),
        "walks" => case.made_said(Bodies::Walks),
        "near" => case.made_said(Bodies::Near),
        "edited" => case.made_said(Bodies::Edited),
        "check" => case.check_said(),
        "edits" => case.edits_said(),
        "events" => case.events_said(),
        "replay" => case.replay_said(),
        "board" => case.board_said(),
        "met pass" => case.met_said(),
        "passes" => case.passes_said(),
        _ => return Ok(None),
    };
    Ok(Some(said?))
}
