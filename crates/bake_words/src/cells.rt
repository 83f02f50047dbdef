//! Maps that are given as bytes, one a cell.

ghost use Rattle.std.specs.Prelude.{◌≡◌, ◌*◌, ◌≤◌, ◌↔◌, [], ◌∷◌, ◌++◌, IfErr, IfOk, IsTrue, OnOk, length};
ghost use Rattle.moves.specs.Maps.{IsSearchable, IsWithinLimits};
ghost use Rattle.bake_words.specs.Cells.{AreCells, HasCells, IsByteFaultOf, IsCellsFaultOf, terrain_of_byte};

use crate::fault::CellsFault;
use moves::{Grid, MAX_CELLS, MAX_PASSABLE, MAX_SIDE, Terrain};
use std::alloc::{AllocError, Global};

/// The map of these sides with these cells, row by row: 0 is blocked, 1 is land and 2 is water.
///
/// # Errors
///
/// Why the bytes are no cells of a map, or that memory runs out.
pub fn grid_of_cells(
    alloc: Global,
    width: u32,
    height: u32,
    cells: &[u8],
) -> Result<Grid, CellsFault>
    ensures grid { IfOk result (HasCells width height cells.now) }
    ensures limit { IfOk result (λ grid. IsSearchable grid) }
    ensures fault { IfErr result (IsCellsFaultOf width height cells.now) }
{
    if !are_sides(width, height) {
        return Err(CellsFault::Sides);
    }
    if cells.len() != (width * height) as usize {
        return Err(CellsFault::Count);
    }
    let terrain = terrain_of(alloc, cells)?;
    let grid = Grid::of_terrain(alloc, width, height, terrain)?;
    if grid.passable_count() > MAX_PASSABLE {
        return Err(CellsFault::TooManyCells);
    }
    Ok(grid)
}

/// Whether a map may have these sides.
fn are_sides(width: u32, height: u32) -> bool
    ensures { IsTrue result ↔ IsWithinLimits width height }
{
    0 < width
        && 0 < height
        && width <= MAX_SIDE
        && height <= MAX_SIDE
        && width * height <= MAX_CELLS
}

/// What stands at each cell.
///
/// # Errors
///
/// The first byte that stands for no cell, or that memory runs out.
fn terrain_of(alloc: Global, cells: &[u8]) -> Result<Vec<Terrain>, CellsFault>
    requires { length cells.now ≤ MAX_CELLS }
    ensures cells { IfOk result (λ terrain. AreCells cells.now terrain.items) }
    ensures fault { IfErr result (IsByteFaultOf cells.now) }
{
    let mut terrain = Vec::with_capacity(alloc, cells.len())?;
    for place in 0..cells.len() {
        match terrain_of_byte(cells[place]) {
            Some(found) => push(&mut terrain, found)?,
            None => return Err(CellsFault::BadByte {
                place: place as u32,
            }),
        }
    }
    Ok(terrain)
}

/// Puts one more.
fn push(terrain: &mut Vec<Terrain>, found: Terrain) -> Result<(), AllocError>
    ensures { OnOk result (terrain.new.items ≡ terrain.old.items ++ found ∷ []) }
{
    terrain.push(found)?;
    Ok(())
}

/// What a byte stands for.
fn terrain_of_byte(byte: u8) -> Option<Terrain>
    ensures { result ≡ terrain_of_byte byte }
{
    match byte {
        0 => Some(Terrain::Blocked),
        1 => Some(Terrain::Land),
        2 => Some(Terrain::Water),
        _ => None,
    }
}
