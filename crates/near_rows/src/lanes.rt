//! The near radii of sixteen sources at once, one in each lane of a vector, and their widened sets.

ghost use Rattle.std.specs.Prelude.{◌≡◌, ℕ, ◌+◌, ◌^◌, ◌<◌, ◌≤◌, ◌↔◌, length, slice_index};
ghost use Rattle.moves.specs.declared.Move.{Move};
ghost use Rattle.moves.specs.Maps.{Map};
ghost use Rattle.moves.specs.MoveSets.{Has};
ghost use Rattle.moves.specs.FirstSetLists.{cell_of, AreFirstSets};
ghost use Rattle.lane_rows.specs.Packed.{sets_in};
ghost use Rattle.near_rows.specs.Compass.{IsCompass, IsInSquare};
ghost use Rattle.near_rows.specs.NearRows.{AreWidened, IsNearRadius};
ghost use Rattle.near_rows.specs.Building.{IsNearer, IsWidenedSet};
ghost use Rattle.near_rows.specs.Lanes.{source_in};

use crate::MAX_RADIUS;
use crate::vectors::{
    by_order, everywhere, filled, greater, less_by, lesser, long, shared, where_empty,
};
use lane_rows::{LANES, Tiles};
use moves::Cell;
use std::simd::prelude::*;

/// The moves that go east, west, and neither.
const EAST: u16 = 0b0000_1110;

const WEST: u16 = 0b1110_0000;

const UPRIGHT: u16 = 0b0001_0001;

/// The moves that go north, south, and neither.
const NORTH: u16 = 0b1000_0011;

const SOUTH: u16 = 0b0011_1000;

const LEVEL: u16 = 0b0100_0100;

/// Where the sources of a tile lie: their columns, and their rows.
#[derive(Clone, Copy)]
pub(crate) struct Sources {
    pub columns: u16x16,
    pub rows: u16x16,
}

/// The sources of a tile among these cells.
pub(crate) fn sources_of(tiles: &Tiles, cells: &[Cell]) -> Sources
    requires { (lane : ℕ) → lane < 16
        → slice_index tiles.now.sources lane < length cells.now }
    ensures { (lane : ℕ) → lane < 16
        → source_in result.columns result.rows lane
        ≡ cell_of cells.now (slice_index tiles.now.sources lane) }
{
    let mut columns = [0; LANES];
    let mut rows = [0; LANES];
    for lane in 0..LANES {
        let cell = cells[usize::from(tiles.source(lane))];
        columns[lane] = cell.x;
        rows[lane] = cell.y;
    }
    Sources {
        columns: u16x16::from_array(columns),
        rows: u16x16::from_array(rows),
    }
}

/// The differences of two numbers, in each lane.
#[inline(always)]
fn apart(a: u16x16, b: u16x16) -> u16x16
    ensures { (lane limit : ℕ) → lane < 16
        → (slice_index result lane ≤ limit)
        ↔ ((slice_index a lane ≤ slice_index b lane + limit)
        × (slice_index b lane ≤ slice_index a lane + limit)) }
{
    less_by(greater(a, b), lesser(a, b))
}

/// The radii of the least squares round the sources that have the cell.
#[inline(always)]
fn distances(sources: Sources, cell: Cell) -> u16x16
    ensures square { (lane radius : ℕ) → lane < 16
        → (slice_index result lane ≤ radius)
        ↔ IsInSquare (source_in sources.columns sources.rows lane) radius cell }
    ensures few { (lane : ℕ) → lane < 16 → slice_index result lane < 2 ^ 16 }
{
    greater(
        apart(sources.columns, everywhere(cell.x)),
        apart(sources.rows, everywhere(cell.y)),
    )
}

/// The compass moves from the sources to the cell, each alone in its set; none where the two are one.
#[inline(always)]
fn compass_sets(sources: Sources, cell: Cell) -> u16x16
    ensures { (lane : ℕ) (move : Move) → lane < 16
        → Has (slice_index result lane) move
        ↔ IsCompass (source_in sources.columns sources.rows lane) move cell }
{
    shared(
        by_order(sources.columns, everywhere(cell.x), EAST, UPRIGHT, WEST),
        by_order(sources.rows, everywhere(cell.y), SOUTH, LEVEL, NORTH),
    )
}

/// The radii, each made less than the distance of the cell where the compass move is not in the set. Where source and
/// cell are one, the distance less one wraps round to a number that is no radius.
#[inline(always)]
fn nearer(radii: u16x16, sources: Sources, cell: Cell, sets: u8x16) -> u16x16
    ensures nearer { (lane : ℕ) → lane < 16
        → IsNearer (slice_index radii lane + 1) (source_in sources.columns sources.rows lane) cell
        (slice_index sets lane) (slice_index result lane + 1) }
    ensures bytes { (lane : ℕ) → lane < 16 → slice_index sets lane < 256 }
{
    let right = shared(long(sets), compass_sets(sources, cell));
    let before = less_by(distances(sources, cell), everywhere(1));
    lesser(radii, where_empty(right, before, u16::MAX))
}

/// The near radii of the sources by the first sets from each, in one pass: one less than the distance of the nearest cell
/// whose set has not the compass move.
pub(crate) fn radii_of(sources: Sources, cells: &[Cell], sets: &[u8x16]) -> u16x16
    requires { length sets.now ≡ length cells.now }
    ensures radius { (lane : ℕ) (map : Map) → lane < 16
        → AreFirstSets map (source_in sources.columns sources.rows lane) cells.now (sets_in sets.now lane)
        → IsNearRadius map cells.now (source_in sources.columns sources.rows lane) (slice_index result lane) }
    ensures bytes { (lane place : ℕ) → lane < 16 → slice_index (sets_in sets.now lane) place < 256 }
{
    let mut radii = u16x16::splat(MAX_RADIUS as u16);
    for (place, cell) in cells.iter().enumerate() {
        radii = nearer(radii, sources, *cell, sets[place]);
    }
    radii
}

/// The sets, or all moves in the lanes in whose square the cell lies.
#[inline(always)]
fn widened(sources: Sources, radii: u16x16, cell: Cell, sets: u8x16) -> u8x16
    ensures { (lane : ℕ) → lane < 16
        → IsWidenedSet (source_in sources.columns sources.rows lane) (slice_index radii lane) cell
        (slice_index sets lane) (slice_index result lane) }
{
    filled(sets, distances(sources, cell), radii)
}

/// Writes the widened sets of the sources, each in the square of its radius.
pub(crate) fn widen_all(
    sources: Sources,
    radii: u16x16,
    cells: &[Cell],
    sets: &[u8x16],
    wide: &mut [u8x16],
)
    requires sets { length sets.now ≡ length cells.now }
    requires wide { length wide.old ≡ length cells.now }
    ensures widened { (lane : ℕ) (map : Map) → lane < 16
        → AreFirstSets map (source_in sources.columns sources.rows lane) cells.now (sets_in sets.now lane)
        → AreWidened map (source_in sources.columns sources.rows lane) (slice_index radii lane) cells.now (sets_in wide.new lane) }
    ensures whole { length wide.new ≡ length wide.old }
{
    for (place, cell) in cells.iter().enumerate() {
        wide[place] = widened(sources, radii, *cell, sets[place]);
    }
}
