//! A grid whose passable cells are just those of a component.

ghost use Rattle.std.specs.Prelude.{◌≡◌, ◌*◌, ◌<◌, ◌≤◌, All, length, IfOk};
ghost use Rattle.moves.specs.Maps.{IsWithinLimits, IsSearchable, map_with};
ghost use Rattle.moves.specs.ComponentLaws.{HasJust};
ghost use Rattle.build_pool.specs.Places.{IsInSides, LieOnMap};

use moves::{Cell, Grid, MAX_PASSABLE, place};
use std::alloc::{AllocError, Global};

/// The columns and the rows of a grid.
#[derive(Clone, Copy)]
struct Sides {
    width: u32,
    height: u32,
}

/// A grid whose passable cells are just these.
pub(crate) fn board_of(alloc: Global, cells: &[Cell]) -> Result<Grid, AllocError>
    requires some { 0 < length cells.now }
    requires few { length cells.now ≤ MAX_PASSABLE }
    requires on_map { LieOnMap cells.now }
    ensures just { IfOk result (λ board. HasJust board cells.now) }
    ensures searchable { IfOk result (λ board. IsSearchable board) }
{
    let Sides { width, height } = sides_of(cells);
    let free = marks_of(alloc, width, height, cells)?;
    Grid::of_cells(alloc, width, height, free)
}

/// The least sides of a grid that has the cells.
fn sides_of(cells: &[Cell]) -> Sides
    requires some { 0 < length cells.now }
    requires on_map { LieOnMap cells.now }
    ensures limits { IsWithinLimits result.width result.height }
    ensures all { All (IsInSides result.width result.height) cells.now }
{
    let mut sides = Sides {
        width: 0,
        height: 0,
    };
    for cell in cells {
        sides = Sides {
            width: sides.width.max(u32::from(cell.x) + 1),
            height: sides.height.max(u32::from(cell.y) + 1),
        };
    }
    sides
}

/// Whether each cell of a grid of these sides is one of the cells, row by row.
fn marks_of(alloc: Global, width: u32, height: u32, cells: &[Cell]) -> Result<Vec<bool>, AllocError>
    requires few { length cells.now ≤ MAX_PASSABLE }
    requires limits { IsWithinLimits width height }
    requires inside { All (IsInSides width height) cells.now }
    ensures whole { IfOk result (λ marks. length marks.items ≡ width * height) }
    ensures just { IfOk result (λ marks. HasJust (map_with width height marks.items) cells.now) }
    ensures few { IfOk result (λ marks. IsSearchable (map_with width height marks.items)) }
{
    let mut marks = vec![in alloc; false; (width * height) as usize]?;
    for cell in cells {
        marks[place(width, *cell)] = true;
    }
    Ok(marks)
}
