//! A place whose moves are looked at.

ghost use Rattle.std.specs.Prelude.{◌≡◌, ◌<◌, ◌≤◌, ◌↔◌, IsTrue, length};
ghost use Rattle.path_image.specs.Reading.{IsCellIn};
ghost use Rattle.live_search.specs.Sound.{IsSought};
ghost use Rattle.live_search.specs.State.{HasState};
ghost use Rattle.moves.specs.Moves.{number_of};
ghost use Rattle.live_search.specs.Steps.{Expands, HasCorners, IsPlaceBehind, IsRound, LooksAlong, NotesStep, Reaches};

use crate::noting::note;
use crate::queue::push;
use crate::seeking::Seek;
use crate::words::{UNKNOWN, cell_at, cell_of, close, cost_at, lower, mark_at, told_at};
use live_maps::LiveImage;
use moves::{Cell, Move};
use root_cost::step_key;

/// What stands where a move leads to no cell that may be entered.
const NOWHERE: u32 = u32::MAX;

/// A step that is looked at.
#[derive(Clone, Copy)]
struct Leg {
    /// The place where it begins.
    place: u32,
    /// The cell there.
    cell: Cell,
    /// The key of a path to there.
    cost: u32,
    /// The move.
    by: Move,
    /// The place that it leads to.
    to: u32,
}

/// A move of a place that is looked at.
#[derive(Clone, Copy)]
struct Look {
    /// The place.
    place: u32,
    /// The cell there.
    cell: Cell,
    /// The key of a path to there.
    cost: u32,
    /// The number of the move.
    number: u8,
}

/// Looks at the moves of a place, and closes it; `false` where the words are no version's image.
pub(crate) fn expand(
    live: &LiveImage,
    seek: Seek,
    state: &mut [u32],
    queue: &mut [u32],
    place: u32,
) -> bool
    requires sought { IsSought live.now seek }
    requires room { HasState state.old seek.size }
    requires place { place < seek.size }
    ensures room { HasState state.new seek.size }
    ensures expands { Expands live.now seek state.old state.new place result }
{
    let cell = cell_of(cell_at(state, seek.size, place));
    if !live.image().has(cell) {
        return false;
    }
    let cost = cost_at(state, seek.size, place);
    let near = look_round(live, seek, cell);
    for number in 0..8u8 {
        let look = Look {
            place,
            cell,
            cost,
            number,
        };
        if !look_along(live, seek, state, queue, &near, look) {
            return false;
        }
    }
    if cost_at(state, seek.size, place) == cost {
        close(state, seek.size, place);
    }
    true
}

/// Looks at a move of a place, if it is legal; `false` where the words are no version's image.
fn look_along(
    live: &LiveImage,
    seek: Seek,
    state: &mut [u32],
    queue: &mut [u32],
    near: &[u32],
    look: Look,
) -> bool
    requires sought { IsSought live.now seek }
    requires room { HasState state.old seek.size }
    requires cell { IsCellIn live.now.words look.cell }
    requires place { look.place < seek.size }
    requires near { length near.now ≡ 8 }
    requires number { look.number < 8 }
    ensures room { HasState state.new seek.size }
    ensures looks { LooksAlong live.now seek state.old state.new near.now look result }
{
    let to = near[usize::from(look.number)];
    if to >= seek.size {
        return true;
    }
    if !has_corners(near, seek.size, look.number) {
        return true;
    }
    let leg = Leg {
        place: look.place,
        cell: look.cell,
        cost: look.cost,
        by: move_of(look.number),
        to,
    };
    reach(live, seek, state, queue, leg)
}

/// The move with that number.
#[inline(always)]
fn move_of(number: u8) -> Move
    requires { number < 8 }
    ensures { number_of result ≡ number }
{
    match Move::of(number) {
        Some(by) => by,
        None => Move::N,
    }
}

/// The places of the eight cells around, in the order of the moves, of those that are in the component and have no bit.
fn look_round(live: &LiveImage, seek: Seek, cell: Cell) -> [u32; 8]
    requires sought { IsSought live.now seek }
    requires cell { IsCellIn live.now.words cell }
    ensures { IsRound live.now seek cell result }
{
    let mut near = [NOWHERE; 8];
    for number in 0..8u8 {
        let by = move_of(number);
        near[usize::from(number)] = place_behind(live, seek, cell, by);
    }
    near
}

/// The place of the cell that a move leads to, if that is in the component and has no bit.
#[inline(always)]
fn place_behind(live: &LiveImage, seek: Seek, cell: Cell, by: Move) -> u32
    requires sought { IsSought live.now seek }
    requires cell { IsCellIn live.now.words cell }
    ensures { IsPlaceBehind live.now seek cell by result }
{
    let image = live.image();
    match image.behind(cell, by) {
        None => NOWHERE,
        Some(to) => match image.home(to) {
            None => NOWHERE,
            Some(home) => {
                if home.label != seek.goal.label {
                    return NOWHERE;
                }
                if live.is_marked(to) {
                    return NOWHERE;
                }
                home.place
            }
        },
    }
}

/// Whether both cells beside a move are free, if it is diagonal.
#[inline(always)]
fn has_corners(near: &[u32], size: u32, number: u8) -> bool
    requires near { length near.now ≡ 8 }
    requires number { number < 8 }
    ensures { IsTrue result ↔ HasCorners near.now size number }
{
    number % 2 == 0
        || (near[usize::from((number + 1) % 8)] < size
            && near[usize::from((number + 7) % 8)] < size)
}

/// Looks at a step: keeps it where it makes the cheapest path to where it leads; `false` where the words are no version's
/// image.
fn reach(live: &LiveImage, seek: Seek, state: &mut [u32], queue: &mut [u32], leg: Leg) -> bool
    requires sought { IsSought live.now seek }
    requires room { HasState state.old seek.size }
    requires cell { IsCellIn live.now.words leg.cell }
    requires place { leg.place < seek.size }
    requires to { leg.to < seek.size }
    ensures room { HasState state.new seek.size }
    ensures reaches { Reaches live.now seek state.old state.new leg result }
{
    if !is_noted(live, seek, state, leg) {
        return false;
    }
    let cost = leg.cost.wrapping_add(step_key(leg.by.is_diagonal()));
    if cost < cost_at(state, seek.size, leg.to) {
        let from = leg.place * 8 + u32::from(leg.by.number());
        lower(state, seek.size, leg.to, cost, from);
        push(
            queue,
            cost.wrapping_add(told_at(state, seek.size, leg.to) / 2),
            leg.to,
        );
    }
    true
}

/// Makes the place that a step leads to known, if it is not; `false` where the words are no version's image.
#[inline(always)]
fn is_noted(live: &LiveImage, seek: Seek, state: &mut [u32], leg: Leg) -> bool
    requires sought { IsSought live.now seek }
    requires room { HasState state.old seek.size }
    requires cell { IsCellIn live.now.words leg.cell }
    requires place { leg.place < seek.size }
    requires to { leg.to < seek.size }
    ensures room { HasState state.new seek.size }
    ensures notes { NotesStep live.now seek state.old state.new leg result }
{
    if mark_at(state, seek.size, leg.to) != UNKNOWN {
        return true;
    }
    match live.image().behind(leg.cell, leg.by) {
        None => false,
        Some(to) => note(live, seek, state, to, leg.to),
    }
}
