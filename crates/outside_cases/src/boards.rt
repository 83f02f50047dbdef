//! Boards of the maps that lines name.

ghost use Rattle.std.specs.Prelude.{◌≡◌, [], IfOk};
ghost use Rattle.moves.specs.Maps.{IsSearchable};

use build_pool::FreeGate;
use cell_order::OrderKind;
use moves::Grid;
use path_core::Board;
use std::alloc::{AllocError, Global};
use std::sync::Arc;
use std::thread::Threads;
use version_build::{build, plan};
use versions::Version;

/// The board of a map, with no entries.
pub(crate) fn board_of<R: Threads + Sync>(
    rt: &R,
    alloc: Global,
    grid: Grid,
) -> Result<Board, AllocError>
    requires { IsSearchable grid }
    ensures none { IfOk result (λ board. board.history ≡ []) }
    ensures start { IfOk result (λ board. board.start ≡ grid) }
{
    let version = version_of(rt, alloc, grid.copy()?)?;
    Board::start(alloc, grid, Arc::new(alloc, version)?)
}

/// The first version of a map.
pub(crate) fn version_of<R: Threads + Sync>(
    rt: &R,
    alloc: Global,
    grid: Grid,
) -> Result<Version, AllocError>
    requires { IsSearchable grid }
    ensures map { IfOk result (λ version. version.map ≡ grid) }
    ensures prefix { IfOk result (λ version. version.prefix ≡ 0) }
{
    let plan = plan(alloc, None, grid, 0, OrderKind::Rows)?;
    let (version, _) = build(rt, alloc, plan, 1, &FreeGate)?;
    Ok(version)
}
