//! The state of a search, word by word (`specs/State.antt`).

ghost use Rattle.std.specs.Prelude.{◌≡◌, ℕ, ◌+◌, ◌*◌, ◌/◌, ◌%◌, ◌<◌};
ghost use Rattle.path_image.specs.Images.{cell_word};
ghost use Rattle.path_image.specs.Reading.{cell_of_word};
ghost use Rattle.live_search.specs.State.{Closes, HasState, IsSameState, Knows, Lists, Lowers, PutsLink, cell_in, cost_in, from_in, known_in, link_cell_in, link_in, listed_in, mark_in, told_in};

use crate::NEVER;
use moves::Cell;

/// The mark of a place of which nothing is known.
pub(crate) const UNKNOWN: u32 = 0;

/// The mark of a place that is known, and not closed.
pub(crate) const OPEN: u32 = 1;

/// The mark of a place whose moves were all looked at.
pub(crate) const CLOSED: u32 = 2;

/// A cell as a word.
#[inline(always)]
pub(crate) fn word_of(cell: Cell) -> u32
    ensures word { result ≡ cell_word cell }
    ensures column { result % 65536 ≡ cell.x }
    ensures row { result / 65536 ≡ cell.y }
{
    u32::from(cell.y) * 65_536 + u32::from(cell.x)
}

/// The cell of a word.
#[inline(always)]
pub(crate) fn cell_of(word: u32) -> Cell
    ensures { result ≡ cell_of_word word }
{
    Cell {
        x: (word % 65_536) as u16,
        y: (word / 65_536) as u16,
    }
}

/// Where the seven words of a place begin.
#[inline(always)]
fn node(size: u32, place: u32) -> usize
    ensures { result ≡ size + 7 * place }
{
    size as usize + 7 * place as usize
}

/// The mark of a place.
#[inline(always)]
pub(crate) fn mark_at(state: &[u32], size: u32, place: u32) -> u32
    requires room { HasState state.now size }
    requires place { place < size }
    ensures { result ≡ mark_in state.now place }
{
    state[place as usize]
}

/// The key of the cheapest path to a place that was found.
#[inline(always)]
pub(crate) fn cost_at(state: &[u32], size: u32, place: u32) -> u32
    requires room { HasState state.now size }
    requires place { place < size }
    ensures { result ≡ cost_in state.now size place }
{
    state[node(size, place)]
}

/// What is told from a place.
#[inline(always)]
pub(crate) fn told_at(state: &[u32], size: u32, place: u32) -> u32
    requires room { HasState state.now size }
    requires place { place < size }
    ensures { result ≡ told_in state.now size place }
{
    state[node(size, place) + 1]
}

/// The place before a place, and the move from there.
#[inline(always)]
pub(crate) fn from_at(state: &[u32], size: u32, place: u32) -> u32
    requires room { HasState state.now size }
    requires place { place < size }
    ensures { result ≡ from_in state.now size place }
{
    state[node(size, place) + 2]
}

/// The cell of a place, as a word.
#[inline(always)]
pub(crate) fn cell_at(state: &[u32], size: u32, place: u32) -> u32
    requires room { HasState state.now size }
    requires place { place < size }
    ensures { result ≡ cell_in state.now size place }
{
    state[node(size, place) + 3]
}

/// The place that became known at that turn.
#[inline(always)]
pub(crate) fn listed_at(state: &[u32], size: u32, index: u32) -> u32
    requires room { HasState state.now size }
    requires index { index < size }
    ensures { result ≡ listed_in state.now size index }
{
    state[node(size, index) + 4]
}

/// A step of a path that is told.
#[inline(always)]
pub(crate) fn link_at(state: &[u32], size: u32, index: u32) -> u32
    requires room { HasState state.now size }
    requires index { index < size }
    ensures { result ≡ link_in state.now size index }
{
    state[node(size, index) + 5]
}

/// The cell where that step begins.
#[inline(always)]
pub(crate) fn link_cell_at(state: &[u32], size: u32, index: u32) -> u32
    requires room { HasState state.now size }
    requires index { index < size }
    ensures { result ≡ link_cell_in state.now size index }
{
    state[node(size, index) + 6]
}

/// How many places are known.
#[inline(always)]
pub(crate) fn known_at(state: &[u32], size: u32) -> u32
    requires room { HasState state.now size }
    ensures { result ≡ known_in state.now size }
{
    state[8 * size as usize]
}

/// Makes a place known.
#[inline(always)]
pub(crate) fn know(state: &mut [u32], size: u32, place: u32, told: u32, cell: u32)
    requires room { HasState state.old size }
    requires place { place < size }
    ensures room { HasState state.new size }
    ensures knows { Knows size state.old state.new place told cell }
{
    let node = node(size, place);
    state[place as usize] = OPEN;
    state[node] = NEVER;
    state[node + 1] = told;
    state[node + 3] = cell;
}

/// Lists a place as known, as long as there is room.
#[inline(always)]
pub(crate) fn list(state: &mut [u32], size: u32, place: u32)
    requires room { HasState state.old size }
    ensures room { HasState state.new size }
    ensures lists { Lists size state.old state.new place }
{
    let known = state[8 * size as usize];
    if known < size {
        state[node(size, known) + 4] = place;
        state[8 * size as usize] = known + 1;
    }
}

/// Puts a step of a path that is told, and the cell where it begins.
#[inline(always)]
pub(crate) fn put_link(state: &mut [u32], size: u32, index: u32, link: u32, cell: u32)
    requires room { HasState state.old size }
    requires index { index < size }
    ensures room { HasState state.new size }
    ensures puts { PutsLink size state.old state.new index link cell }
{
    let node = node(size, index);
    state[node + 5] = link;
    state[node + 6] = cell;
}

/// Keeps a cheaper path to a place that is known, which is open again.
#[inline(always)]
pub(crate) fn lower(state: &mut [u32], size: u32, place: u32, cost: u32, from: u32)
    requires room { HasState state.old size }
    requires place { place < size }
    ensures room { HasState state.new size }
    ensures lowers { Lowers size state.old state.new place cost from }
{
    let node = node(size, place);
    state[place as usize] = OPEN;
    state[node] = cost;
    state[node + 2] = from;
}

/// Closes a place.
#[inline(always)]
pub(crate) fn close(state: &mut [u32], size: u32, place: u32)
    requires room { HasState state.old size }
    requires place { place < size }
    ensures room { HasState state.new size }
    ensures closes { Closes size state.old state.new place }
{
    state[place as usize] = CLOSED;
}

/// Makes each place unknown.
pub(crate) fn clear(state: &mut [u32], size: u32)
    requires room { HasState state.old size }
    ensures room { HasState state.new size }
    ensures none { (place : ℕ) → place < size → mark_in state.new place ≡ 0 }
    ensures listed { known_in state.new size ≡ 0 }
{
    for place in 0..size as usize {
        state[place] = UNKNOWN;
    }
    state[8 * size as usize] = 0;
}
