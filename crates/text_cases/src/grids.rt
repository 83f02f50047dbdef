//! Maps: how they are made, and the legal moves of their cells.

ghost use Rattle.moves.specs.Maps.{IsInside};

use crate::masks::{kept_mask, legal_mask};
use case_kit::{Fields, Refusal};
use moves::{Cell, Grid, Terrain};
use std::alloc::{AllocError, Global};
use std::fmt::Write;

/// `MAP | X Y`: the legal moves of the cell as bits, the highest first, asked for one by one and as the map keeps them,
/// and as a list with the cells that they lead to.
pub fn legal_moves(alloc: Global, mut fields: Fields<'_>) -> Result<String, Refusal> {
    let grid = fields.grid(alloc)?;
    let cell = fields.cell()?;
    if !grid.inside(cell) {
        return Ok(String::from_str(alloc, "outside")?);
    }
    Ok(moves_said(alloc, &grid, cell)?)
}

/// What a map says of the moves of a cell.
fn moves_said(alloc: Global, grid: &Grid, cell: Cell) -> Result<String, AllocError>
    requires { IsInside grid.now cell }
{
    let legal = legal_mask(grid, cell);
    let kept = kept_mask(grid, cell);
    let mut said = format!(in alloc; "legal {legal:08b}, kept {kept:08b},")?;
    for (by, to) in grid.neighbours(cell).iter() {
        let Cell { x, y } = *to;
        write!(said, " {by} to {x} {y}")?;
    }
    Ok(said)
}

/// Maps of three columns and two rows, each as its rows and the number of its passable cells: one that is drawn, its
/// copy, the same by its list of cells, and a blocked one; and one with water that is drawn, its copy, and the same by
/// its list of cells.
pub fn made(alloc: Global) -> Result<String, Refusal> {
    let mut said = String::new(alloc);
    push_dry(&mut said, alloc)?;
    push_wet(&mut said, alloc)?;
    Ok(said)
}

/// Adds the maps without water.
fn push_dry(said: &mut String, alloc: Global) -> Result<(), AllocError> {
    let drawn = Grid::of_rows(alloc, 3, 2, "..@/.T.")?;
    push_grid(said, "drawn", &drawn)?;
    push_grid(said, ", copied", &drawn.copy()?)?;
    let cells = vec![in alloc; true, true, false, true, false, true]?;
    push_grid(said, ", listed", &Grid::of_cells(alloc, 3, 2, cells)?)?;
    push_grid(said, ", blocked", &Grid::blocked(alloc, 3, 2)?)
}

/// Adds the maps with water.
fn push_wet(said: &mut String, alloc: Global) -> Result<(), AllocError> {
    let drawn = Grid::of_rows(alloc, 3, 2, "W.@/.TW")?;
    push_grid(said, ", with water drawn", &drawn)?;
    push_grid(said, ", copied", &drawn.copy()?)?;
    let (blocked, land, water) = (Terrain::Blocked, Terrain::Land, Terrain::Water);
    let cells = vec![in alloc; water, land, blocked, land, blocked, water]?;
    push_grid(said, ", listed", &Grid::of_terrain(alloc, 3, 2, cells)?)
}

/// Adds the rows of a map, and how many of its cells are passable.
fn push_grid(said: &mut String, name: &str, grid: &Grid) -> Result<(), AllocError> {
    said.push_str(name)?;
    for y in 0..grid.height() as u16 {
        said.push(' ')?;
        push_row(said, grid, y)?;
    }
    let count = grid.passable_count();
    write!(said, " {count}")
}

/// Adds a row of a map.
fn push_row(said: &mut String, grid: &Grid, y: u16) -> Result<(), AllocError> {
    for x in 0..grid.width() as u16 {
        said.push(match grid.terrain(Cell { x, y }) {
            Terrain::Blocked => '@',
            Terrain::Land => '.',
            Terrain::Water => 'W',
        })?;
    }
    Ok(())
}
