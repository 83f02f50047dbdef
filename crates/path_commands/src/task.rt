//! What to do with the first version of a map, once all files are read.
ghost use Rattle.std.specs.Prelude.{IfErr, IfOk};
ghost use Rattle.path_commands.specs.Requests.{aim_of};
ghost use Rattle.path_commands.specs.Runs.{GivesNoTask, GivesTask, MayBeDone, file_over};

use crate::replay::read_event_file;
use crate::request::MapAim;
use crate::scen::read_scenarios;
use crate::status::Status;
use moves::Cell;
use path_replay::Events;
use scen_read::ScenLine;
use std::alloc::Global;
use wire::Files;

/// What to do with the first version of a map.
#[derive(Drop)]
pub enum Task {
    /// Prints a path between two cells.
    Path {
        /// The cell that the path begins with.
        start: Cell,
        /// The cell that the path ends with.
        goal: Cell,
    },
    /// Prints the size.
    Check,
    /// Prints the size, and that of the near rows.
    Near,
    /// Prints a path between two cells, by compass moves wherever they are right.
    NearPath {
        /// The cell that the path begins with.
        start: Cell,
        /// The cell that the path ends with.
        goal: Cell,
    },
    /// Prints the results of scenarios.
    Scen(Vec<ScenLine>),
    /// Prints the size, and the results of the queries of a seed.
    Made {
        /// The seed.
        seed: u32,
    },
    /// Prints the lines of events.
    Replay(Events),
    /// Writes the database file.
    Export,
}

/// Returns what to do, with the contents of the second file if there is one.
pub fn task_for<F: Files>(alloc: Global, files: &mut F, aim: MapAim) -> Result<Task, Status>
    ensures task { IfOk result
        (GivesTask (file_over (F.at files.old) (F.at files.new)) (aim_of aim.entry)) }
    ensures may { IfOk result MayBeDone }
    ensures refused { IfErr result
        (GivesNoTask (file_over (F.at files.old) (F.at files.new)) (aim_of aim.entry)) }
{
    match aim {
        MapAim::Path { start, goal } => Ok(Task::Path { start, goal }),
        MapAim::Check => Ok(Task::Check),
        MapAim::Near => Ok(Task::Near),
        MapAim::NearPath { start, goal } => Ok(Task::NearPath { start, goal }),
        MapAim::Scen(scenarios) => Ok(Task::Scen(read_scenarios(alloc, files, scenarios)?)),
        MapAim::Made(seed) => Ok(Task::Made { seed }),
        MapAim::Replay(events) => Ok(Task::Replay(read_event_file(alloc, files, events)?)),
        MapAim::Export => Ok(Task::Export),
    }
}
