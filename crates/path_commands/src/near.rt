//! `near MAP` and `nearpath MAP SX SY GX GY`: a map's database with near rows, whose paths follow the compass wherever
//! it is right.

ghost use Rattle.std.specs.Prelude.{◌≡◌, ◌≤◌, IfErr, IfOk, string_bytes};
ghost use Rattle.near_rows.specs.NearWalks.{HasFewAhead};
ghost use Rattle.path_commands.specs.NearQueries.{AppendsNear, AppendsSizes, TellsNear, TellsNearAhead, TellsNearAnswer};
ghost use Rattle.path_commands.specs.Runs.{IsPathCause};

use crate::check::{answer_check, push_number};
use crate::path::{head_text, unreachable_text};
use crate::status::Status;
use moves::{Cell, MAX_PASSABLE};
use near_rows::{NearVersion, NearWalk, measure};
use root_cost::{Cost, MAX_STEPS};
use std::alloc::{AllocError, Global};
use std::fmt::Write;

/// Returns what `check` prints, then the number of runs of all near rows and the greatest near radius, a line each.
pub fn answer_near(alloc: Global, near: &NearVersion) -> Result<String, AllocError>
    ensures { IfOk result (λ text. TellsNear near.now.version (string_bytes text)) }
{
    let mut text = answer_check(alloc, near.version())?;
    push_near(&mut text, near)?;
    Ok(text)
}

/// Writes the number of the runs of all near rows, and the greatest near radius, a line each.
fn push_near(text: &mut String, near: &NearVersion) -> Result<(), AllocError>
    ensures { IfOk result (λ _.
        AppendsSizes near.now (string_bytes text.old) (string_bytes text.new)) }
{
    push_number(text, "near ", near.runs())?;
    push_number(text, "widest ", u64::from(near.widest()))?;
    Ok(())
}

/// Returns the text of the near walk between two cells, or of no path.
pub fn answer_near_path(
    alloc: Global,
    near: &NearVersion,
    start: Cell,
    goal: Cell,
) -> Result<String, Status>
    ensures done { IfOk result (λ text.
        TellsNearAnswer near.entry.now.version start goal (string_bytes text)) }
    ensures refused { IfErr result (IsPathCause near.entry.now.version start goal) }
{
    // From here on, it is known to be the near version of a version.
    near.version();
    match NearWalk::start(near, start, goal)? {
        None => Ok(unreachable_text(alloc)?),
        Some(mut walk) => {
            // A path exists, so it has a cost.
            let cost = measure(near, start, goal)?.unwrap();
            Ok(near_path_text(alloc, cost, &mut walk)?)
        }
    }
}

/// Returns the cost, the length and the remaining moves of a walk, a line each. The walk is at its goal afterwards.
fn near_path_text(alloc: Global, cost: Cost, walk: &mut NearWalk) -> Result<String, AllocError>
    requires straight { cost.straight ≤ MAX_STEPS }
    requires diagonal { cost.diagonal ≤ MAX_STEPS }
    requires few { HasFewAhead walk.old }
    ensures { IfOk result (λ text. TellsNearAhead walk.old cost (string_bytes text)) }
{
    let mut text = head_text(alloc, cost)?;
    push_near_moves(&mut text, walk)?;
    text.push_str("\n")?;
    Ok(text)
}

/// Writes the names of the remaining moves of a walk, each after a space.
fn push_near_moves(text: &mut String, walk: &mut NearWalk) -> Result<(), AllocError>
    requires { HasFewAhead walk.old }
    ensures { IfOk result (λ _.
        AppendsNear walk.old (string_bytes text.old) (string_bytes text.new)) }
{
    for _ in 0..MAX_PASSABLE {
        match walk.step() {
            Some(by) => write!(text, " {by}")?,
            None => return Ok(()),
        }
    }
    Ok(())
}
