//! The maps that a line names.

ghost use Rattle.std.specs.Prelude.{IfOk, IsTrue};
ghost use Rattle.moves.specs.Maps.{IsSearchable, IsWithinLimits};

use crate::fields::numbers_in;
use crate::random::Random;
use crate::refusal::Refusal;
use map_read::{MAX_MAP_BYTES, MapError, read_map};
use moves::{Grid, MAX_CELLS, MAX_PASSABLE, MAX_SIDE, Terrain};
use std::alloc::Global;

/// The map that a text names, which may be searched:
///
/// - drawn row by row with `/` between the rows, as `..@/...`;
/// - `made W H PERCENT SEED`: PERCENT in a hundred cells are land, roughly; the seed decides which;
/// - `mixed W H LAND WATER SEED`: LAND in a hundred cells are land and WATER are water, roughly;
/// - `first W H COUNT`: the first COUNT cells are land, row by row.
pub fn grid_of(alloc: Global, text: &str) -> Result<Grid, Refusal>
    ensures { IfOk result IsSearchable }
{
    let Some((kind, numbers)) = text.split_once(' ') else {
        return drawn(alloc, text);
    };
    match (kind, numbers_in(alloc, numbers)?.as_slice()) {
        ("made", [width, height, percent, seed]) => {
            mixed(alloc, [*width, *height], [*percent, 0], *seed)
        }
        ("mixed", [width, height, land, water, seed]) => {
            mixed(alloc, [*width, *height], [*land, *water], *seed)
        }
        ("first", [width, height, count]) => first(alloc, [*width, *height], *count),
        _ => Err(Refusal::OutOfForm),
    }
}

/// The map with those rows, read from its text.
fn drawn(alloc: Global, rows: &str) -> Result<Grid, Refusal>
    ensures { IfOk result IsSearchable }
{
    let height = rows.split('/').count();
    let width = rows.find('/').unwrap_or(rows.len());
    let mut text = format!(in alloc; "type octile\nheight {height}\nwidth {width}\nmap\n")?;
    for row in rows.split('/') {
        text.push_str(row)?;
        text.push('\n')?;
    }
    if text.len() > MAX_MAP_BYTES as usize {
        return Err(Refusal::OutOfForm);
    }
    match read_map(alloc, text.as_bytes()) {
        Ok(grid) => Ok(grid),
        Err(MapError::Fault(_)) => Err(Refusal::OutOfForm),
        Err(MapError::NoMemory) => Err(Refusal::NoMemory),
    }
}

/// The map with those sides whose cells are land or water with those chances in a hundred.
fn mixed(alloc: Global, sides: [u32; 2], chances: [u32; 2], seed: u32) -> Result<Grid, Refusal>
    ensures { IfOk result IsSearchable }
{
    let ([width, height], [land, water]) = (sides, chances);
    if !are_sides(width, height) {
        return Err(Refusal::OutOfForm);
    }
    let mut cells = vec![in alloc; Terrain::Blocked; (width * height) as usize]?;
    let mut random = Random::of(seed);
    for cell in cells.iter_mut() {
        *cell = random.terrain(land, water);
    }
    searchable(Grid::of_terrain(alloc, width, height, cells)?)
}

/// The map with those sides whose first cells are land.
fn first(alloc: Global, sides: [u32; 2], count: u32) -> Result<Grid, Refusal>
    ensures { IfOk result IsSearchable }
{
    let [width, height] = sides;
    if !are_sides(width, height) {
        return Err(Refusal::OutOfForm);
    }
    let mut cells = vec![in alloc; false; (width * height) as usize]?;
    for cell in cells.iter_mut().take(count as usize) {
        *cell = true;
    }
    searchable(Grid::of_cells(alloc, width, height, cells)?)
}

/// Whether a map may have these sides.
fn are_sides(width: u32, height: u32) -> bool
    ensures { IsTrue result → IsWithinLimits width height }
{
    (1..=MAX_SIDE).contains(&width)
        && (1..=MAX_SIDE).contains(&height)
        && width * height <= MAX_CELLS
}

/// The map, where it has no more passable cells than a search has room for.
fn searchable(grid: Grid) -> Result<Grid, Refusal>
    ensures { IfOk result IsSearchable }
{
    if grid.passable_count() > MAX_PASSABLE {
        return Err(Refusal::OutOfForm);
    }
    Ok(grid)
}
