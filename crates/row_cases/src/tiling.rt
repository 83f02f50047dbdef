//! Tiles, which find the rows of sixteen sources at once, compared with one search a row.

ghost use Rattle.std.specs.Prelude.{◌≡◌, ◌*◌, ◌<◌, ◌≤◌, length};
ghost use Rattle.build_pool.specs.Places.{AreComponent, AreWithNear, CanBeBuilt};
ghost use Rattle.moves.specs.Components.{IsComponent};
ghost use Rattle.moves.specs.Maps.{IsSearchable};
ghost use Rattle.moves.specs.declared.TheConstants.{MAX_PASSABLE};

use crate::packing::unpacked;
use crate::shapes::{component_of, first_component, in_order};
use build_pool::{gather_alone, one_row};
use case_kit::{Comparison, Fields, Refusal, hex_of};
use cell_order::OrderKind;
use first_sets::FirstSets;
use grid_search::Search;
use lane_rows::{LANES, Near, Tiles};
use moves::{Cell, Grid};
use row_store::RowPool;
use std::alloc::{AllocError, Global};

/// How often a tile goes over its places at most.
const SWEEPS: u32 = 64;

/// `tile | ORDER | MAP | X Y`: the first sets from a cell of the map's first component to all of its cells.
pub fn tile(alloc: Global, mut fields: Fields<'_>) -> Result<String, Refusal> {
    let (kind, grid) = (fields.order()?, fields.grid(alloc)?);
    let source = fields.cell()?;
    let cells = component_of(alloc, &grid)?;
    let (cells, near) = in_order(alloc, kind, &cells)?;
    match cells.iter().position(|cell| *cell == source) {
        Some(place) if place < near.len() => Ok(tile_text(alloc, &near, place as u16)?),
        _ => Err(Refusal::OutOfForm),
    }
}

/// The first sets from a place to all places.
fn tile_text(alloc: Global, near: &Near, place: u16) -> Result<String, AllocError>
    requires { place < length near.now }
{
    let mut tiles = Tiles::new(alloc, near.len())?;
    tiles.set_sources([place; LANES]);
    if !tiles.run(near, SWEEPS) {
        return String::from_str(alloc, "not solved");
    }
    let mut row = vec![in alloc; 0; near.len()]?;
    tiles.sets_of(0, row.as_mut_slice());
    hex_of(alloc, &row)
}

/// Compares the rows of a map's first component that tiles find with those that searches find.
pub struct TilesAndSearches;

impl Comparison for TilesAndSearches {
    fn differences(&self, alloc: Global, grid: &Grid, seed: u32) -> Result<u32, Refusal> {
        let kind = [OrderKind::Rows, OrderKind::Dfs][(seed % 2) as usize];
        match first_component(alloc, grid)? {
            Some(cells) => Ok(tiles_differ(alloc, grid, kind, &cells)?),
            None => Ok(0),
        }
    }
}

/// The number of rows in which tiles and searches differ on a component of the map.
fn tiles_differ(
    alloc: Global,
    grid: &Grid,
    kind: OrderKind,
    cells: &[Cell],
) -> Result<u32, AllocError>
    requires searchable { IsSearchable grid.now }
    requires component { IsComponent grid.now cells.now }
    requires cells { CanBeBuilt cells.now }
{
    let (order, near) = in_order(alloc, kind, cells)?;
    let rows: RowPool = gather_alone(alloc, &order, &near)?;
    searches_differ(alloc, grid, &order, &rows)
}

/// The number of these rows that differ from those that a search from each cell finds.
fn searches_differ(
    alloc: Global,
    grid: &Grid,
    cells: &[Cell],
    rows: &RowPool,
) -> Result<u32, AllocError>
    requires searchable { IsSearchable grid.now }
    requires component { AreComponent grid.now cells.now }
    requires few { length cells.now ≤ MAX_PASSABLE }
    requires rows { length rows.now ≡ length cells.now }
{
    let room = (grid.width() * grid.height()) as usize;
    let mut search = Search::new(alloc, room)?;
    let mut sets = FirstSets::new(alloc, room)?;
    let mut differences: u32 = 0;
    for place in 0..cells.len() as u32 {
        let wanted = one_row(alloc, cells, place, &mut search, &mut sets, grid)?;
        if unpacked(alloc, rows.row(place as usize))? != wanted {
            differences = differences.saturating_add(1);
        }
    }
    Ok(differences)
}
