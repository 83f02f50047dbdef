//! Least costs by a search, and the first moves that follow from them.

ghost use Rattle.std.specs.Prelude.{◌<◌, IfOk};
ghost use Rattle.moves.specs.Maps.{IsInside, IsPassable, IsSearchable};
ghost use Rattle.grid_search.specs.Searches.{HasSearched};

use case_kit::{Fields, Refusal};
use first_sets::FirstSets;
use grid_search::Search;
use moves::{Cell, Grid, Move, place};
use std::alloc::{AllocError, Global};
use std::fmt::Write;

/// `cost | MAP | X Y | X Y`: the least cost from the first cell to the second, its key, the number of cells reached
/// from the first, and the moves that begin a best path.
pub fn cost(alloc: Global, mut fields: Fields<'_>) -> Result<String, Refusal> {
    let grid = fields.grid(alloc)?;
    let (source, goal) = (fields.cell()?, fields.cell()?);
    if !grid.passable(source) || !grid.inside(goal) {
        return Err(Refusal::OutOfForm);
    }
    Ok(cost_text(alloc, &grid, source, goal)?)
}

/// What a search from `source` finds at `goal`.
fn cost_text(alloc: Global, grid: &Grid, source: Cell, goal: Cell) -> Result<String, AllocError>
    requires source { IsPassable grid.now source }
    requires goal { IsInside grid.now goal }
    requires few { IsSearchable grid.now }
{
    let mut search = Search::new(alloc, (grid.width() * grid.height()) as usize)?;
    search.from_source(grid, source);
    let mut text = match search.cost(goal) {
        Some(cost) => format!(in alloc; "{} straight {} diagonal", cost.straight, cost.diagonal)?,
        None => String::from_str(alloc, "no path")?,
    };
    let key = search.keys().get(place(grid.width(), goal)).copied();
    let reached = search.settled().len();
    write!(text, ", key {}, {reached} reached,", key.unwrap_or(0))?;
    write_moves(alloc, &mut text, grid, &search, source, goal)?;
    Ok(text)
}

/// Writes the moves that begin a best path, each after a blank.
fn write_moves(
    alloc: Global,
    text: &mut String,
    grid: &Grid,
    search: &Search,
    source: Cell,
    goal: Cell,
) -> Result<(), AllocError>
    requires source { IsPassable grid.now source }
    requires goal { IsInside grid.now goal }
    requires searched { HasSearched grid.now source search.now }
{
    let mut sets = FirstSets::new(alloc, (grid.width() * grid.height()) as usize)?;
    sets.fill(grid, search, source);
    let first = sets.set_of(goal);
    if first.mask() == 0 {
        text.push_str(" none")?;
    }
    for by in Move::ALL {
        if first.has(by) {
            write!(text, " {by}")?;
        }
    }
    Ok(())
}
