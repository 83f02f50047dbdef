//! Near rows by a plain search from one source after the other.

ghost use Rattle.std.specs.Prelude.{◌≡◌, ◌+◌, ◌*◌, ◌<◌, ◌≤◌, length, OnOk, IsTrue, ◌↔◌};
ghost use Rattle.near_rows.specs.Building.{AreDone, ArePartly, HasBlank, IsGround};
ghost use Rattle.near_rows.specs.NearRows.{AreNear};

use crate::building::put_source;
use crate::nearby::NearRows;
use build_pool::PlainSearch;
use moves::{Cell, Grid};
use std::alloc::{AllocError, Global};

/// Builds the rows that are blank. Where there are none it takes no memory.
pub(crate) fn put_rest(
    alloc: Global,
    grid: &Grid,
    cells: &[Cell],
    near: &mut NearRows,
) -> Result<(), AllocError>
    requires ground { IsGround grid.now cells.now }
    requires part { ArePartly grid.now cells.now near.old }
    ensures { OnOk result (AreNear grid.now cells.now near.new) }
{
    if has_blank(near, cells.len()) {
        put_blank(alloc, grid, cells, near)?;
    }
    Ok(())
}

/// Whether some of so many rows is blank.
fn has_blank(near: &NearRows, count: usize) -> bool
    requires { count ≡ length near.now.rows }
    ensures { IsTrue result ↔ HasBlank near.now.rows }
{
    for place in 0..count {
        if near.is_blank(place) {
            return true;
        }
    }
    false
}

/// Builds the rows that are blank by searches over the whole grid.
fn put_blank(
    alloc: Global,
    grid: &Grid,
    cells: &[Cell],
    near: &mut NearRows,
) -> Result<(), AllocError>
    requires ground { IsGround grid.now cells.now }
    requires part { ArePartly grid.now cells.now near.old }
    ensures { OnOk result (AreNear grid.now cells.now near.new) }
{
    let mut plain = PlainSearch::over(alloc, grid, cells.len())?;
    let mut wide = vec![in alloc; 0u8; cells.len()]?;
    for place in 0..cells.len() {
        put_plain(grid, cells, place, &mut plain, wide.as_mut_slice(), near)?;
    }
    Ok(())
}

/// Builds the row at a place where it is blank. `wide` is room for its widened sets.
fn put_plain(
    grid: &Grid,
    cells: &[Cell],
    place: usize,
    plain: &mut PlainSearch,
    wide: &mut [u8],
    near: &mut NearRows,
) -> Result<(), AllocError>
    requires ground { IsGround grid.now cells.now }
    requires place { place < length cells.now }
    requires done { AreDone grid.now cells.now place near.old }
    requires room { grid.now.width * grid.now.height ≤ plain.old.room }
    requires wide { length wide.old ≡ length cells.now }
    ensures done { OnOk result (AreDone grid.now cells.now (place + 1) near.new) }
    ensures room { plain.new.room ≡ plain.old.room }
{
    if !near.is_blank(place) {
        return Ok(());
    }
    plain.find(grid, cells, place)?;
    wide.copy_from_slice(plain.sets());
    put_source(grid, cells, place, wide, near)?;
    Ok(())
}
