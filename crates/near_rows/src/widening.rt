//! The near radius of a cell by the first sets from it, and the sets widened in its square.

ghost use Rattle.std.specs.Prelude.{◌≡◌, ℕ, length, All, IsTrue, IsFalse};
ghost use Rattle.moves.specs.Maps.{Map};
ghost use Rattle.moves.specs.FirstSetLists.{AreFirstSets};
ghost use Rattle.moves.specs.Rectangles.{IsOnMap};
ghost use Rattle.near_rows.specs.Building.{IsAstray, IsNearer, IsRight, IsWidenedSet};
ghost use Rattle.near_rows.specs.NearRows.{AreWidened, IsNearRadius};

use crate::compass::{compass, distance};
use moves::{Cell, MAX_SIDE, MoveSet};

/// The set of all eight moves.
const EVERY_MOVE: u8 = u8::MAX;

/// The near radius of a source, by the first sets from it: one less than the distance of the nearest cell whose set has
/// not the compass move.
pub(crate) fn radius_of(source: Cell, cells: &[Cell], sets: &[u8]) -> u16
    requires sets { length sets.now ≡ length cells.now }
    requires source { IsOnMap source }
    requires cells { All IsOnMap cells.now }
    ensures { (map : Map) → AreFirstSets map source cells.now sets.now
        → IsNearRadius map cells.now source result }
{
    let mut least = MAX_SIDE as u16;
    for (place, cell) in cells.iter().enumerate() {
        least = nearer(least, source, *cell, sets[place]);
    }
    least - 1
}

/// A distance, or that of a cell which is nearer and to which the compass move is not in the set.
#[inline]
fn nearer(least: u16, source: Cell, cell: Cell, set: u8) -> u16
    ensures { IsNearer least source cell set result }
{
    let away = distance(source, cell);
    if least <= away {
        return least;
    }
    if is_astray(source, cell, set) {
        return away;
    }
    least
}

/// Whether the compass move between two cells is not in the set.
#[inline]
fn is_astray(from: Cell, to: Cell, set: u8) -> bool
    ensures astray { IsTrue result → IsAstray from to set }
    ensures right { IsFalse result → IsRight from to set }
{
    match compass(from, to) {
        Some(by) => !MoveSet::of_mask(set).has(by),
        None => false,
    }
}

/// Widens the first sets of a source: all moves to the cells in the square of that radius.
pub(crate) fn widen(source: Cell, radius: u16, cells: &[Cell], sets: &mut [u8])
    requires sets { length sets.old ≡ length cells.now }
    ensures widened { (map : Map) → AreFirstSets map source cells.now sets.old
        → AreWidened map source radius cells.now sets.new }
    ensures whole { length sets.new ≡ length sets.old }
{
    for (place, cell) in cells.iter().enumerate() {
        sets[place] = widened(source, radius, *cell, sets[place]);
    }
}

/// The set to a cell, or that of all moves where the cell lies in the square.
#[inline]
fn widened(source: Cell, radius: u16, cell: Cell, set: u8) -> u8
    ensures { IsWidenedSet source radius cell set result }
{
    if distance(source, cell) <= radius {
        return EVERY_MOVE;
    }
    set
}
