//! What is kept of the tiles of a component while they are built.

ghost use Rattle.std.specs.Prelude.{◌≡◌, ℕ, ◌<◌, List, length, slice_index, IfOk, OnOk};
ghost use Rattle.moves.specs.declared.Cell.{Cell};
ghost use Rattle.lane_rows.specs.Completed.{AreCompleted};
ghost use Rattle.lane_rows.specs.Tiles.{IsSolved};
ghost use Rattle.build_pool.specs.Places.{AreSources, AreWithNear};
ghost use Rattle.build_pool.specs.Pieces.{ArePackedOver, ArePartly, AreSome};

use crate::rows::put_row;
use lane_rows::{LANES, Near, Tiles};
use moves::Cell;
use row_store::RowPool;
use std::alloc::{AllocError, Global};

/// What a worker keeps of the tiles of a component: the rows alone, or what else is read from the same searches. What
/// several workers keep is merged in the end.
pub trait Harvest: Sized + Send + Drop {
    /// Of each of the cells it has what is to be kept, or nothing.
    ghost gathered: { List Cell → Self → Type 0 };

    /// Nothing of any of the cells.
    ///
    /// # Errors
    ///
    /// `AllocError` where memory runs out.
    fn begin(alloc: Global, cells: &[Cell]) -> Result<Self, AllocError>
        requires { AreSources cells.now }
        ensures { IfOk result (gathered cells.now) };

    /// Keeps what the solved tile has of the sources in the lanes that were taken. The tile's sets are completed by it.
    ///
    /// # Errors
    ///
    /// `AllocError` where memory runs out. What was kept is of no use then.
    fn gather(
        &mut self,
        cells: &[Cell],
        near: &Near,
        tiles: &mut Tiles,
        taken: [bool; LANES],
    ) -> Result<(), AllocError>
        requires table { AreWithNear cells.now near.now }
        requires solved { IsSolved near.now tiles.old }
        requires sources { (lane : ℕ) → lane < 16
            → slice_index tiles.old.sources lane < length near.now }
        requires part { gathered cells.now self.old }
        ensures count { tiles.new.count ≡ tiles.old.count }
        ensures sources { tiles.new.sources ≡ tiles.old.sources }
        ensures completed { AreCompleted tiles.old tiles.new }
        ensures part { OnOk result (gathered cells.now self.new) };

    /// Takes over what another worker has kept of the same cells.
    ///
    /// # Errors
    ///
    /// `AllocError` where memory runs out. What was kept is of no use then.
    fn take_over(&mut self, cells: &[Cell], other: Self) -> Result<(), AllocError>
        requires own { gathered cells.now self.old }
        requires other { gathered cells.now other }
        ensures { OnOk result (gathered cells.now self.new) };
}

impl Harvest for RowPool {
    ghost gathered = { AreSome };

    fn begin(alloc: Global, cells: &[Cell]) -> Result<RowPool, AllocError> {
        RowPool::blank(alloc, cells.len())
    }

    fn gather(
        &mut self,
        cells: &[Cell],
        _near: &Near,
        tiles: &mut Tiles,
        taken: [bool; LANES],
    ) -> Result<(), AllocError> {
        tiles.pack()?;
        put_lanes(tiles, taken, cells, self)
    }

    fn take_over(&mut self, _cells: &[Cell], other: RowPool) -> Result<(), AllocError> {
        self.merge(other)
    }
}

/// Puts the packed rows of the lanes that were taken.
fn put_lanes(
    tiles: &Tiles,
    taken: [bool; LANES],
    cells: &[Cell],
    rows: &mut RowPool,
) -> Result<(), AllocError>
    requires packed { ArePackedOver cells.now tiles.now }
    requires part { ArePartly cells.now rows.old }
    ensures whole { OnOk result (length rows.new ≡ length rows.old) }
    ensures part { OnOk result (ArePartly cells.now rows.new) }
{
    for lane in 0..LANES {
        if taken[lane] {
            put_row(
                rows,
                cells,
                usize::from(tiles.source(lane)),
                tiles.words(lane),
            )?;
        }
    }
    Ok(())
}
