//! The results of the lines of a scenario file.

ghost use Rattle.std.specs.Prelude.{◌^◌, ◌<◌, IfOk, IfSome};
ghost use Rattle.versions.specs.Databases.{IsVersion};
ghost use Rattle.scen_run.specs.Reports.{AreShort};
ghost use Rattle.scen_run.specs.Results.{AreLineResults, HaveLengths, IsLineResult};

use rayon::prelude::*;
use root_cost::Cost;
use scen_read::ScenLine;
use std::alloc::{AllocError, Global};
use std::thread::Threads;
use versions::{QueryRefusal, Version};
use walker::measure;

/// What a version says of one line of a scenario file.
#[derive(Clone, Copy, Debug, PartialEq, Eq)]
pub enum LineResult {
    /// The cost of the walk is within a hundredth of the stated length.
    Match {
        /// The cost of the walk.
        cost: Cost,
    },
    /// The cost of the walk is farther from the stated length.
    Differs {
        /// The cost of the walk.
        cost: Cost,
    },
    /// No path exists.
    Unreachable,
    /// An end of the query is outside or blocked.
    Refused(QueryRefusal),
    /// The line is for a map of other sides.
    Scaled,
}

/// The results of the lines, in their order. The lines are shared among threads, and the list is that of one thread.
/// The name of the map and the bucket are not compared.
///
/// Each stated length is below 10^16 billionths, as it is in lines that were read. Each cost of a result has a length,
/// so that the results can be reported.
///
/// # Errors
///
/// `AllocError` where memory runs out.
pub fn run_lines<R: Threads + Sync>(
    rt: &R,
    alloc: Global,
    version: &Version,
    lines: &[ScenLine],
) -> Result<Vec<LineResult>, AllocError>
    requires { HaveLengths lines.now }
    ensures results { IfOk result
        (λ results. AreLineResults version.now lines.now results.items) }
    ensures short { IfOk result (λ results. AreShort results.items) }
{
    // That walks are short is known from the map.
    let _ = version.grid();
    lines
        .par_iter()
        .map(
            |line: &ScenLine| -> LineResult
                requires { line.now.nano < 10 ^ 16 }
                ensures { IsLineResult version.entry.now line.now result }
            { result_of(version, line) },
        )
        .collect(rt, alloc)
}

/// The result of one line.
fn result_of(version: &Version, line: &ScenLine) -> LineResult
    requires { line.now.nano < 10 ^ 16 }
    ensures { IsLineResult version.now line.now result }
{
    let grid = version.grid();
    if line.width != grid.width() || line.height != grid.height() {
        return LineResult::Scaled;
    }
    match measure(version, line.start, line.goal) {
        Err(why) => LineResult::Refused(why),
        Ok(None) => LineResult::Unreachable,
        Ok(Some(cost)) if cost.near(line.nano) => LineResult::Match { cost },
        Ok(Some(cost)) => LineResult::Differs { cost },
    }
}
