//! The move that is kept for a place in the row of a cell.

ghost use Rattle.std.specs.Prelude.{◌≡◌, ◌*◌, ◌<◌, ◌≤◌, Contains, IfOk, OnOk, length};
ghost use Rattle.moves.specs.Maps.{IsSearchable};
ghost use Rattle.moves.specs.FirstSetLists.{cell_of};
ghost use Rattle.row_store.specs.Comps.{IsPlaceOf};
ghost use Rattle.build_pool.specs.Places.{AreSources, AreWithNear};
ghost use Rattle.walk_rows.specs.Walks.{AreWordsFrom, CanBeWalked, IsKeptOver, IsReady};

use crate::bench::Workbench;
use lane_rows::Near;
use moves::{Cell, Grid, Move};
use run_pack::find_word_move;
use std::alloc::AllocError;

/// The move that is kept for the goal in the row of a cell: the row is at hand, or it is built, with those of cells that
/// may come after it or alone.
pub(crate) fn next_move(
    grid: &Grid,
    cells: &[Cell],
    near: &Near,
    bench: &mut Workbench,
    at: Cell,
    to: usize,
) -> Result<Move, AllocError>
    requires searchable { IsSearchable grid.now }
    requires cells { CanBeWalked grid.now cells.now }
    requires table { AreWithNear cells.now near.now }
    requires ready { IsReady cells.now bench.old }
    requires room { grid.now.width * grid.now.height ≤ bench.old.plain.room }
    requires at { Contains cells.now at }
    requires to { to < length cells.now }
    ensures ready { OnOk result (IsReady cells.now bench.new) }
    ensures room { OnOk result (bench.new.plain.room ≡ bench.old.plain.room) }
    ensures kept { IfOk result (IsKeptOver cells.now at (cell_of cells.now to)) }
{
    if let Some(lane) = bench.lane_of(cells, at) {
        return Ok(move_in(cells, at, bench.words(lane), to));
    }
    let place = place_of(cells, at);
    bench.solve(cells, near, place)?;
    if let Some(lane) = bench.lane_of(cells, at) {
        return Ok(move_in(cells, at, bench.words(lane), to));
    }
    bench.build_alone(grid, cells, place)?;
    Ok(move_in(cells, at, bench.row(), to))
}

/// The place of one of the cells.
pub(crate) fn place_of(cells: &[Cell], cell: Cell) -> usize
    requires { Contains cells.now cell }
    ensures { IsPlaceOf cells.now cell result }
{
    cells.iter().position(|other| *other == cell).unwrap()
}

/// The move that the words of the row of a cell keep for a place.
fn move_in(cells: &[Cell], at: Cell, words: &[u32], to: usize) -> Move
    requires sources { AreSources cells.now }
    requires words { AreWordsFrom cells.now at words.now }
    requires to { to < length cells.now }
    ensures { IsKeptOver cells.now at (cell_of cells.now to) result }
{
    // The cells are here for the contract alone, and so is the one where the walk stands.
    let _ = cells;
    let _ = at;
    let number = find_word_move(words, to as u32);
    Move::of(number).unwrap_or_default()
}
