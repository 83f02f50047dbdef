//! `scen MAP SCEN`: the results of a file of scenarios on a map.
ghost use Rattle.std.specs.Prelude.{IfErr, IfOk, string_bytes};
ghost use Rattle.scen_run.specs.Reports.{AreShort};
ghost use Rattle.scen_run.specs.Results.{HaveLengths};
ghost use Rattle.path_commands.specs.Queries.{TellsResults};
ghost use Rattle.path_commands.specs.Runs.{HoldsScenarios, IsScenFileCause, file_over};

use crate::file::read_file;
use crate::means::Means;
use crate::remarks::scenario_remarks;
use crate::status::Status;
use crate::watch::Watch;
use scen_read::{MAX_SCEN_BYTES, ScenError, ScenLine, read_scen};
use scen_run::{LineResult, report, run_lines};
use std::alloc::{AllocError, Global};
use std::thread::Threads;
use versions::Version;
use wire::{Bell, Files};

/// Returns the scenarios in the file of that name.
pub fn read_scenarios<F: Files>(
    alloc: Global,
    files: &mut F,
    name: &str,
) -> Result<Vec<ScenLine>, Status>
    ensures scenarios { IfOk result (λ lines. HoldsScenarios
        (file_over (F.at files.old) (F.at files.new) name.now) lines.items) }
    ensures lengths { IfOk result (λ lines. HaveLengths lines.items) }
    ensures refused { IfErr result
        (IsScenFileCause (file_over (F.at files.old) (F.at files.new) name.now)) }
{
    let bytes = read_file(alloc, files, name, MAX_SCEN_BYTES)?;
    match read_scen(alloc, bytes.as_slice()) {
        Ok(lines) => Ok(lines),
        Err(ScenError::Fault(fault)) => Err(Status::Scen(fault)),
        Err(ScenError::NoMemory) => Err(Status::NoMemory),
    }
}

/// Returns the report on the scenarios. Threads share the lines. The gate is told which stated
/// lengths differ from those found.
pub fn answer_scen<B: Bell, G: Watch, R: Threads + Sync>(
    means: &Means<R, B, G>,
    version: &Version,
    scenarios: &[ScenLine],
) -> Result<String, AllocError>
    requires { HaveLengths scenarios.now }
    ensures { IfOk result (λ text.
        TellsResults version.now scenarios.now (string_bytes text)) }
{
    let results = run_lines(means.rt, means.alloc, version, scenarios)?;
    remark(means, version, scenarios, results.as_slice());
    report(means.alloc, results.as_slice())
}

/// Tells the gate of the results, if memory allows.
fn remark<B: Bell, G: Watch, R>(
    means: &Means<R, B, G>,
    version: &Version,
    scenarios: &[ScenLine],
    results: &[LineResult],
)
    requires { AreShort results.now }
{
    if let Ok(lines) = scenario_remarks(means.alloc, version.grid(), scenarios, results) {
        means.gate.remark(lines);
    }
}
