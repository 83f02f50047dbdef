//! Builds the near rows of a component.
//!
//! They are gathered tile by tile. What is left where a tile isn't solved is built by a plain search.

ghost use Rattle.std.specs.Prelude.{◌≡◌, ◌≢◌, ℕ, ◌<◌, [], length, IfOk, OnOk};
ghost use Rattle.moves.specs.FirstSetLists.{cell_of, AreFirstSets};
ghost use Rattle.row_store.specs.Rows.{row_at};
ghost use Rattle.near_rows.specs.Building.{ArePartly, IsGround};
ghost use Rattle.near_rows.specs.NearRows.{AreNear, IsNearAt};

use crate::gathering::NearTiles;
use crate::nearby::NearRows;
use crate::plain::put_rest;
use crate::widening::{radius_of, widen};
use build_pool::gather_alone;
use lane_rows::Near;
use moves::{Cell, Grid};
use std::alloc::{AllocError, Global};

/// What is near in a component of the grid.
///
/// # Errors
///
/// `AllocError` where memory runs out.
pub(crate) fn near_rows_of(
    alloc: Global,
    grid: &Grid,
    cells: &[Cell],
) -> Result<NearRows, AllocError>
    requires { IsGround grid.now cells.now }
    ensures { IfOk result (λ near. AreNear grid.now cells.now near) }
{
    // That the map lies inside the limits is known from its width.
    let _ = grid.width();
    let beside = Near::of(alloc, cells)?;
    let tiles: NearTiles = gather_alone(alloc, cells, &beside)?;
    let mut near = tiles.into_near();
    put_rest(alloc, grid, cells, &mut near)?;
    near.shrink();
    Ok(near)
}

/// Finds the radius of the source at a place by the first sets from it, and puts the row of the widened sets.
pub(crate) fn put_source(
    grid: &Grid,
    cells: &[Cell],
    place: usize,
    sets: &mut [u8],
    near: &mut NearRows,
) -> Result<(), AllocError>
    requires ground { IsGround grid.now cells.now }
    requires place { place < length cells.now }
    requires first { AreFirstSets grid.now (cell_of cells.now place) cells.now sets.old }
    requires empty { row_at near.old.rows place ≡ [] }
    requires part { ArePartly grid.now cells.now near.old }
    ensures here { OnOk result (IsNearAt grid.now cells.now near.new place) }
    ensures part { OnOk result (ArePartly grid.now cells.now near.new) }
    ensures others { OnOk result ((other : ℕ) → other ≢ place
        → IsNearAt grid.now cells.now near.old other → IsNearAt grid.now cells.now near.new other) }
    ensures sets { length sets.new ≡ length sets.old }
{
    // The grid is here for the contract alone.
    let _ = grid;
    let source = cells[place];
    let radius = radius_of(source, cells, sets);
    widen(source, radius, cells, sets);
    near.put(place, radius, sets)?;
    Ok(())
}
