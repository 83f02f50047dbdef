//! The legal moves of a cell as bits, by each of the ways to ask for them.

ghost use Rattle.moves.specs.Maps.{IsInside, IsSearchable};

use case_kit::{Comparison, Family, Refusal, compared};
use moves::{Cell, Grid, Move, Terrain, place};
use std::alloc::Global;

/// The legal moves of a cell, asked for one by one.
pub fn legal_mask(grid: &Grid, cell: Cell) -> u8
    requires { IsInside grid.now cell }
{
    let mut mask = 0u8;
    for by in Move::ALL {
        if grid.legal(cell, by) {
            mask |= 1 << by.number();
        }
    }
    mask
}

/// The legal moves of a cell, as the map keeps them.
pub fn kept_mask(grid: &Grid, cell: Cell) -> u8 {
    let place = place(grid.width(), cell);
    grid.move_masks().get(place).copied().unwrap_or(0)
}

/// The moves to the neighbours of a cell, without those whose target is not where the move leads.
fn neighbour_mask(grid: &Grid, cell: Cell) -> u8
    requires { IsInside grid.now cell }
{
    let mut mask = 0u8;
    for (by, to) in grid.neighbours(cell).iter() {
        if grid.step(cell, *by) == Some(*to) {
            mask |= 1 << by.number();
        }
    }
    mask
}

/// `FAMILY`: in how many cells of made maps the moves that are kept, those that are legal, those that lead to
/// neighbours and those of a map that was set cell by cell are not all the same.
pub fn compared_over(alloc: Global, family: &str) -> Result<String, Refusal> {
    compared(alloc, &Family::of(alloc, family)?, &Masks)
}

/// The moves that a map keeps beside those that it finds, and beside those of a map that was set cell by cell.
struct Masks;

impl Comparison for Masks {
    fn differences(&self, alloc: Global, grid: &Grid, _seed: u32) -> Result<u32, Refusal> {
        let mut set = Grid::blocked(alloc, grid.width(), grid.height())?;
        for y in 0..grid.height() as u16 {
            set_row(&mut set, grid, y);
        }
        let mut differences: u32 = 0;
        for y in 0..grid.height() as u16 {
            differences = differences.saturating_add(differences_in(grid, &set, y));
        }
        Ok(differences)
    }
}

/// Sets each cell of a row, first to water and then to what the other map has there.
fn set_row(set: &mut Grid, grid: &Grid, y: u16) {
    for x in 0..grid.width() as u16 {
        let cell = Cell { x, y };
        if set.inside(cell) {
            set.set_terrain(cell, Terrain::Water);
            set.set_terrain(cell, grid.terrain(cell));
        }
    }
}

/// In how many cells of a row the moves differ.
fn differences_in(grid: &Grid, set: &Grid, y: u16) -> u32 {
    let mut differences: u32 = 0;
    for x in 0..grid.width() as u16 {
        let same = are_same(grid, set, Cell { x, y });
        differences = differences.saturating_add(u32::from(!same));
    }
    differences
}

/// Whether the moves of a cell are the same, however they are asked for.
fn are_same(grid: &Grid, set: &Grid, cell: Cell) -> bool {
    let kept = kept_mask(grid, cell);
    grid.inside(cell)
        && kept == kept_mask(set, cell)
        && kept == legal_mask(grid, cell)
        && kept == neighbour_mask(grid, cell)
}
