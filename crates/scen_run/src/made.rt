//! Maps that are made from two sides and a seed, by a formula.

ghost use Rattle.std.specs.Prelude.{◌≡◌, ◌*◌, ◌<◌, ◌≤◌, IfOk};
ghost use Rattle.moves.specs.Maps.{IsWithinLimits, cell_at};
ghost use Rattle.scen_run.specs.Made.{IsMade, formula_map, is_blocked_at};

use moves::{Cell, Grid, MAX_PASSABLE, MAX_SIDE};
use std::alloc::{AllocError, Global};

/// What the formula's numbers are divided by.
const MODULUS: u64 = 11;

/// What is made of two sides and a seed.
#[derive(Drop)]
pub enum Made {
    /// The map.
    Map(Grid),
    /// The map has more than [`MAX_PASSABLE`] passable cells.
    TooMany {
        /// The column of the first cell too many, row by row.
        x: u16,
        /// Its row.
        y: u16,
    },
}

/// The map of these sides in which the cell in column x and row y is blocked exactly where
/// 7x² + 13y² + 5xy + seed · (x + 2y + 1) leaves 9 or 10 when it is divided by 11. The other cells are land.
///
/// Each side is from 1 to 4,096, and the map has at most 1,048,576 cells.
///
/// # Errors
///
/// `AllocError` where memory runs out.
pub fn made_map(alloc: Global, width: u32, height: u32, seed: u32) -> Result<Made, AllocError>
    requires { IsWithinLimits width height }
    ensures { IfOk result (IsMade (formula_map width height seed)) }
{
    let places = width * height;
    let mut cells = Vec::with_capacity(alloc, places as usize)?;
    let mut free = 0;
    for place in 0..places {
        let cell = cell_at(width, place);
        let passable = !is_blocked(cell, seed);
        if passable && free == MAX_PASSABLE {
            return Ok(Made::TooMany {
                x: cell.x,
                y: cell.y,
            });
        }
        free += u32::from(passable);
        cells.push(passable)?;
    }
    Ok(Made::Map(Grid::of_cells(alloc, width, height, cells)?))
}

/// The cell at a place of a list that goes row by row.
pub(crate) fn cell_at(width: u32, place: u32) -> Cell
    requires some { 0 < width }
    requires columns { width ≤ MAX_SIDE }
    requires rows { place < width * MAX_SIDE }
    ensures { result ≡ cell_at width place }
{
    Cell {
        x: (place % width) as u16,
        y: (place / width) as u16,
    }
}

/// Whether the formula blocks the cell.
fn is_blocked(cell: Cell, seed: u32) -> bool
    ensures { result ≡ is_blocked_at seed cell.x cell.y }
{
    let (x, y) = (u64::from(cell.x), u64::from(cell.y));
    let mixed = 7 * x * x + 13 * y * y + 5 * x * y + u64::from(seed) * (x + 2 * y + 1);
    let rest = mixed % MODULUS;
    rest == 9 || rest == 10
}
