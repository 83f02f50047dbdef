//! The cases of whole runs: what the words of a command line do over files, links and a house in memory, what they ask
//! for, and what a person is told.
//!
//! A line of a case, and the line that it has to print:
//!
//! ```text
//! run | check M --order dfs | rows .@/@.
//! 0 size 2 2\ncells 2\ncomponents 2\nruns 2\n
//! ```
#![tactic(auto)]

mod commands;
mod ended;
mod house;
mod runs;
mod settings;

use case_kit::Refusal;
use std::alloc::Global;
use std::sync::Wait;
use std::thread::Threads;

/// The line of output for a line of input of one of the kinds here; `None` for any other kind.
///
/// - `run | WORDS | SETTING | ..`: a whole run. The exit status and what was put on the output, and then what else there
///   is to tell of the files, the input and the house.
/// - `pieces | WORDS | SETTING | ..`: the exit status of such a run, and how many pieces of a build passed the gate.
/// - `command | WORDS`: what the words ask for.
/// - `advice | STATUS | WORDS`: what a person is told on standard error of a run that ended so.
///
/// Words stand between blanks; in a word `\s` is a blank, and `''` is the empty word.
pub fn answer<R: Threads + Wait + Sync>(
    rt: &R,
    alloc: Global,
    kind: &str,
    input: &str,
) -> Result<Option<String>, Refusal> {
    match kind {
        "run" => runs::run_said(rt, alloc, input).map(Some),
        "pieces" => runs::pieces_said(rt, alloc, input).map(Some),
        "command" => commands::command_said(alloc, input).map(Some),
        "advice" => commands::advice_said(alloc, input).map(Some),
        _ => Ok(None),
    }
}
