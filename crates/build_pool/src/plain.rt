//! Rows by a plain search from one source after the other.

ghost use Rattle.std.specs.Prelude.{◌≡◌, ◌+◌, ◌*◌, ◌<◌, ◌≤◌, length, OnOk};
ghost use Rattle.build_pool.specs.Places.{AreSources, IsBoardOf};
ghost use Rattle.build_pool.specs.Pieces.{AreDone, ArePartly, AreWhole};

use crate::board::board_of;
use crate::rows::{has_blank, is_blank};
use crate::searching::PlainSearch;
use moves::{Cell, Grid};
use row_store::RowPool;
use std::alloc::{AllocError, Global};

/// Builds the rows that are blank. Where there are none it takes no memory.
///
/// # Errors
///
/// `AllocError` where memory runs out. Some of the rows may be built then.
pub fn put_rest(alloc: Global, cells: &[Cell], rows: &mut RowPool) -> Result<(), AllocError>
    requires sources { AreSources cells.now }
    requires inside { length rows.old ≤ length cells.now }
    requires part { ArePartly cells.now rows.old }
    ensures whole { OnOk result (AreWhole cells.now (length rows.old) rows.new) }
{
    if !has_blank(rows) {
        return Ok(());
    }
    let board = board_of(alloc, cells)?;
    put_blank(alloc, &board, cells, rows)?;
    Ok(())
}

/// Builds the rows that are blank over a grid of just these cells.
fn put_blank(
    alloc: Global,
    board: &Grid,
    cells: &[Cell],
    rows: &mut RowPool,
) -> Result<(), AllocError>
    requires board { IsBoardOf board.now cells.now }
    requires inside { length rows.old ≤ length cells.now }
    requires part { ArePartly cells.now rows.old }
    ensures whole { OnOk result (AreWhole cells.now (length rows.old) rows.new) }
{
    let mut plain = PlainSearch::over(alloc, board, cells.len())?;
    for place in 0..rows.len() {
        put_plain(board, cells, place, &mut plain, rows)?;
    }
    Ok(())
}

/// Builds the row at a place where it is blank.
fn put_plain(
    board: &Grid,
    cells: &[Cell],
    place: usize,
    plain: &mut PlainSearch,
    rows: &mut RowPool,
) -> Result<(), AllocError>
    requires board { IsBoardOf board.now cells.now }
    requires place { place < length rows.old }
    requires inside { length rows.old ≤ length cells.now }
    requires done { AreDone cells.now place rows.old }
    requires room { board.now.width * board.now.height ≤ plain.old.room }
    ensures whole { OnOk result (length rows.new ≡ length rows.old) }
    ensures done { OnOk result (AreDone cells.now (place + 1) rows.new) }
    ensures room { plain.new.room ≡ plain.old.room }
{
    if !is_blank(rows, place) {
        return Ok(());
    }
    plain.find(board, cells, place)?;
    rows.put_sets(place, plain.sets())?;
    Ok(())
}
