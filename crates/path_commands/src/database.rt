//! The first version of a map, from which its paths are read, its near version, and the board that begins with it.
ghost use Rattle.std.specs.Prelude.{◌≡◌, ◌≤◌, IfErr, IfOk};
ghost use Rattle.moves.specs.Maps.{IsSearchable};
ghost use Rattle.near_rows.specs.NearVersions.{IsNearVersion};
ghost use Rattle.path_core.specs.Boards.{new_board};
ghost use Rattle.path_core.specs.declared.TheConstants.{MAX_ENTRIES};
ghost use Rattle.path_commands.specs.Runs.{IsFirstVersion, IsMapFileCause, file_over};
ghost use Rattle.path_commands.specs.Talks.{IsFirstBoard};
ghost use Rattle.path_commands.specs.Words.{AreWorkers};

use crate::map_file::read_grid;
use crate::means::Means;
use crate::request::BuildOptions;
use crate::status::Status;
use crate::watch::Watch;
use moves::Grid;
use near_rows::NearVersion;
use path_core::Board;
use std::alloc::{AllocError, Global};
use std::sync::Arc;
use std::thread::Threads;
use version_build::{build, plan};
use versions::Version;
use wire::{Bell, Files};

/// Returns the version of a map before any edit, built as the options say. The number of threads does not change it.
pub fn first_version<R: Threads + Sync, B: Bell, G: Watch>(
    means: &Means<R, B, G>,
    grid: Grid,
    options: BuildOptions,
) -> Result<Version, AllocError>
    requires small { IsSearchable grid }
    requires workers { AreWorkers options.workers }
    ensures { IfOk result (IsFirstVersion grid options.order) }
{
    let plan = plan(means.alloc, None, grid, 0, options.order)?;
    means.gate.begin(plan.rows());
    let built = build(means.rt, means.alloc, plan, options.workers, means.gate);
    means.gate.end();
    let (version, _) = built?;
    Ok(version)
}

/// Returns the near version of the first version, both built together as the options say. The number of threads does
/// not change them.
pub fn first_near<R: Threads + Sync, B: Bell, G: Watch>(
    means: &Means<R, B, G>,
    grid: Grid,
    options: BuildOptions,
) -> Result<NearVersion, AllocError>
    requires small { IsSearchable grid }
    requires workers { AreWorkers options.workers }
    ensures first { IfOk result (λ near. IsFirstVersion grid options.order near.version) }
    ensures near { IfOk result (λ near. IsNearVersion near) }
{
    means.gate.begin(grid.passable_count());
    let near = NearVersion::build(
        means.rt,
        means.alloc,
        grid,
        options.order,
        options.workers,
        means.gate,
    );
    means.gate.end();
    near
}

/// Returns the board that begins with the map in the file of that name, with this room.
pub fn first_board<R: Threads + Sync, F: Files, B: Bell, G: Watch>(
    means: &Means<R, B, G>,
    files: &mut F,
    name: &str,
    room: u32,
    options: BuildOptions,
) -> Result<Board, Status>
    requires room { room ≤ MAX_ENTRIES }
    requires workers { AreWorkers options.workers }
    ensures board { IfOk result (IsFirstBoard
        (file_over (F.at files.old) (F.at files.new) name.now) options.order room) }
    ensures refused { IfErr result
        (IsMapFileCause (file_over (F.at files.old) (F.at files.new) name.now)) }
{
    let grid = read_grid(means.alloc, files, name)?;
    let version = first_version(means, grid, options)?;
    Ok(board_with(means.alloc, version, room)?)
}

/// Returns a board with no entries, whose first version this is, with this room.
fn board_with(alloc: Global, version: Version, room: u32) -> Result<Board, AllocError>
    requires unedited { version.prefix ≡ 0 }
    requires room { room ≤ MAX_ENTRIES }
    ensures { IfOk result (λ board. board ≡ new_board version.map version room) }
{
    let grid = version.grid().copy()?;
    Board::start_with(alloc, grid, Arc::new(alloc, version)?, room)
}
