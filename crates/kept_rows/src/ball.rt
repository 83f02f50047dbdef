//! The ball: cells round the gaps to which first sets and costs are compared.

ghost use Rattle.std.specs.Prelude.{◌<◌, ◌≤◌, IsTrue, IsFalse, OnOk, length};
ghost use Rattle.moves.specs.declared.Move.{Move};
ghost use Rattle.kept_sources.specs.Balls.{IsBeside};
ghost use Rattle.lane_rows.specs.Tables.{end_of};
ghost use Rattle.kept_rows.specs.Targets.{AreMarked, ArePlaces, IsAmong, IsGrown, IsRound, IsRoundGaps, StaysIn};
ghost use Rattle.kept_rows.specs.Pairs.{IsSearched};

use crate::side::Side;
use crate::targets::Targets;
use crate::verdict::with_bit;
use moves::Cell;
use std::alloc::AllocError;

/// How many cells a ball may have: each has a bit.
pub(crate) const MAX_BALL: usize = 64;

/// Adds the cells of the first lanes to the ball.
///
/// # Errors
///
/// `AllocError` where memory runs out.
pub(crate) fn grow(ball: &mut Vec<u16>, targets: Targets) -> Result<(), AllocError>
    requires { targets.count < 16 }
    ensures { OnOk result (IsGrown ball.old.items targets.sources targets.count ball.new.items) }
{
    for lane in 0..targets.count {
        ball.push(targets.sources[lane])?;
    }
    Ok(())
}

/// Whether all cells of the shorter list that are beside one of a gap are in the ball.
pub(crate) fn is_round(whole: &[Cell], part: &[Cell], gaps: &[usize], ball: &[u16]) -> bool
    ensures { IsTrue result → IsRoundGaps whole.now part.now gaps.now ball.now }
{
    for gap in gaps.iter() {
        if *gap >= whole.len() || !is_round_one(part, whole[*gap], ball) {
            return false;
        }
    }
    true
}

/// Whether all cells beside one are in the ball.
fn is_round_one(cells: &[Cell], hole: Cell, ball: &[u16]) -> bool
    ensures { IsTrue result → IsRound cells.now hole ball.now }
{
    for (place, cell) in cells.iter().enumerate() {
        if is_beside(hole, *cell) && !is_among(ball, ball.len(), place) {
            return false;
        }
    }
    true
}

/// Whether the other cell may be one of the eight round a cell.
pub(crate) fn is_beside(cell: Cell, other: Cell) -> bool
    ensures { IsFalse result → IsBeside cell other → ⊥ }
{
    u32::from(other.x) <= u32::from(cell.x) + 1
        && u32::from(cell.x) <= u32::from(other.x) + 1
        && u32::from(other.y) <= u32::from(cell.y) + 1
        && u32::from(cell.y) <= u32::from(other.y) + 1
}

/// Whether a place is one of so many first places.
pub(crate) fn is_among(places: &[u16], count: usize, place: usize) -> bool
    requires { count ≤ length places.now }
    ensures yes { IsTrue result → IsAmong places.now count place }
    ensures other { IsFalse result → IsAmong places.now count place → ⊥ }
{
    for index in 0..count {
        if usize::from(places[index]) == place {
            return true;
        }
    }
    false
}

/// The bits of those cells of the ball from which a move leads out of it.
pub(crate) fn marks_of(part: &Side, ball: &[u16]) -> u64
    requires searched { IsSearched part.now }
    requires places { ArePlaces part.now.cells ball.now }
    ensures { AreMarked part.now.near ball.now result }
{
    let mut marks = 0u64;
    for index in 0..ball.len() {
        let place = usize::from(ball[index]);
        marks = with_bit(marks, index, is_at_border(part, ball, place));
    }
    marks
}

/// Whether some move leads out of the ball from a place.
fn is_at_border(part: &Side, ball: &[u16], place: usize) -> bool
    requires searched { IsSearched part.now }
    requires place { place < length part.now.cells }
    ensures { IsFalse result → StaysIn part.now.near ball.now place }
{
    leads_out(part.edges(place), part.cells().len(), ball)
}

/// Whether some of the moves leads to a place that is none of the ball, among so many places.
fn leads_out(edges: [u16; 8], count: usize, ball: &[u16]) -> bool
    ensures { IsFalse result → (move : Move) → end_of edges move < count
        → IsAmong ball.now (length ball.now) (end_of edges move) }
{
    for number in 0..8 {
        let to = usize::from(edges[number]);
        if to < count && !is_among(ball, ball.len(), to) {
            return true;
        }
    }
    false
}
