//! What is said of the answer to a query.

ghost use Rattle.std.specs.Prelude.{◌≡◌, ◌++◌, OnOk, string_bytes};
ghost use Rattle.versions.specs.Answers.{IsAnswer};
ghost use Rattle.walker.specs.Walks.{HasFewAhead};
ghost use Rattle.path_replay.specs.Inside.{AddsNames, SaysAnswer};

use moves::{Cell, MAX_PASSABLE};
use root_cost::Cost;
use std::alloc::AllocError;
use std::fmt::Write;
use versions::Version;
use walker::{Walk, measure};

/// Adds the answer of a version to a query.
pub(crate) fn push_answer(
    text: &mut String,
    version: &Version,
    start: Cell,
    goal: Cell,
) -> Result<(), AllocError>
    ensures { OnOk result (SaysAnswer version.now start goal (string_bytes text.old) (string_bytes text.new)) }
{
    // That the version is one is known from its map.
    version.grid();
    match measure(version, start, goal) {
        Err(why) => write!(text, "{why}"),
        Ok(None) => text.push_str("unreachable"),
        Ok(Some(Cost { straight, diagonal })) => {
            write!(text, "cost {straight} {diagonal} moves")?;
            let mut walk = Walk::start(version, start, goal).unwrap().unwrap();
            push_names(text, &mut walk)
        }
    }
}

/// Adds the names of the moves that are ahead of a walk, a space before each.
fn push_names(text: &mut String, walk: &mut Walk) -> Result<(), AllocError>
    requires { HasFewAhead walk.old }
    ensures { OnOk result (AddsNames walk.old (string_bytes text.old) (string_bytes text.new)) }
{
    for _ in 0..MAX_PASSABLE {
        match walk.step() {
            Some(by) => write!(text, " {by}")?,
            None => return Ok(()),
        }
    }
    Ok(())
}
