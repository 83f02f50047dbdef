//! How a search ends: with nothing open that may lie on a cheaper path, and with the moves of the one that was found.

ghost use Rattle.std.specs.Prelude.{◌≡◌, ◌<◌, ◌≤◌, ℕ, IfNone, IfSome, IsTrue, ◌↔◌, slice_set};
ghost use Rattle.moves.specs.declared.TheConstants.{MAX_PASSABLE};
ghost use Rattle.live_search.specs.Sound.{IsSought};
ghost use Rattle.live_search.specs.State.{HasState};
ghost use Rattle.live_search.specs.Ends.{Finishes, IsChainLength, IsOpenBelow, NoneIsListedOpen, NoneIsOpen, PutsChain, PutsRest};

use crate::NEVER;
use crate::seeking::Seek;
use crate::words::{
    CLOSED, UNKNOWN, cell_at, cell_of, cost_at, from_at, known_at, listed_at, mark_at, told_at,
};
use live_maps::LiveImage;
use path_image::{Home, ImageWalk, Step};

/// More steps than the longest way back from any place has: so many straight ones have the key that no path has.
const MANY: u32 = 47_321;

/// A place that was reached, is open or the goal, and may lie on a path of a smaller key; `None` where there is none.
pub(crate) fn open_below(seek: Seek, state: &[u32], key: u64) -> Option<u32>
    requires { HasState state.now seek.size }
    ensures within { IfSome result (λ place. place < seek.size) }
    ensures below { IfSome result (IsOpenBelow seek state.now key) }
    ensures none { IfNone result (NoneIsOpen seek state.now key) }
{
    let known = known_at(state, seek.size);
    if known < seek.size {
        open_in_list(seek, state, key, known)
    } else {
        open_anywhere(seek, state, key)
    }
}

/// Such a place among those that are listed.
fn open_in_list(seek: Seek, state: &[u32], key: u64, known: u32) -> Option<u32>
    requires room { HasState state.now seek.size }
    requires known { known < seek.size }
    ensures within { IfSome result (λ place. place < seek.size) }
    ensures below { IfSome result (IsOpenBelow seek state.now key) }
    ensures none { IfNone result (NoneIsListedOpen seek state.now key known) }
{
    for index in 0..known {
        let place = listed_at(state, seek.size, index);
        if place < seek.size {
            if is_open_below(seek, state, place, key) {
                return Some(place);
            }
        }
    }
    None
}

/// Such a place among all.
fn open_anywhere(seek: Seek, state: &[u32], key: u64) -> Option<u32>
    requires { HasState state.now seek.size }
    ensures within { IfSome result (λ place. place < seek.size) }
    ensures below { IfSome result (IsOpenBelow seek state.now key) }
    ensures none { IfNone result
        ((place : ℕ) → place < seek.size → IsOpenBelow seek state.now key place → ⊥) }
{
    for place in 0..seek.size {
        if is_open_below(seek, state, place, key) {
            return Some(place);
        }
    }
    None
}

/// Whether a place was reached, is open or the goal, and may lie on a path of a smaller key.
#[inline(always)]
pub(crate) fn is_open_below(seek: Seek, state: &[u32], place: u32, key: u64) -> bool
    requires room { HasState state.now seek.size }
    requires place { place < seek.size }
    ensures { IsTrue result ↔ IsOpenBelow seek state.now key place }
{
    let mark = mark_at(state, seek.size, place);
    if mark == UNKNOWN {
        return false;
    }
    if mark == CLOSED && place != seek.goal.place {
        return false;
    }
    let cost = cost_at(state, seek.size, place);
    if cost >= NEVER {
        return false;
    }
    u64::from(cost) + u64::from(told_at(state, seek.size, place) / 2) < key
}

/// How many steps lead from the start to a place.
fn chain_length(seek: Seek, state: &[u32], place: u32) -> Option<u32>
    requires room { HasState state.now seek.size }
    requires place { place < seek.size }
    ensures limit { IfSome result (λ length. length < MANY) }
    ensures chain { IsChainLength seek state.now place result }
{
    let mut at = place;
    for length in 0..MANY {
        if at == seek.first {
            return Some(length);
        }
        at = from_at(state, seek.size, at) / 8;
        if at >= seek.size {
            return None;
        }
    }
    None
}

/// Puts the moves that lead from the start to a place into the front of a room, as far as it reaches.
fn put_chain(seek: Seek, state: &[u32], place: u32, length: u32, room: &mut [u8])
    requires state { HasState state.now seek.size }
    requires place { place < seek.size }
    ensures { PutsChain seek state.now place length room.old room.new }
{
    let mut at = place;
    let mut left = length;
    while left > 0 {
        left -= 1;
        let from = from_at(state, seek.size, at);
        put(room, left as usize, (from % 8) as u8);
        at = from / 8;
        if at >= seek.size {
            return;
        }
    }
}

/// Puts the moves that are ahead of a walk behind so many others, as far as the room reaches, and says how many there are
/// in all; `None` where the walk gets lost.
fn put_rest(walk: &mut ImageWalk, size: u32, before: u32, room: &mut [u8]) -> Option<u32>
    requires size { size ≤ MAX_PASSABLE }
    requires before { before < MANY }
    ensures { PutsRest walk.old size before room.old room.new result }
{
    let mut count = before;
    for _ in 0..size {
        match walk.step() {
            Step::Arrived => return Some(count),
            Step::Go(by) => {
                put(room, count as usize, by.number());
                count += 1;
            }
            Step::Lost => return None,
        }
    }
    None
}

/// Puts the moves of the path by a place into a room, as far as it reaches: those that lead to it, and those that the
/// database tells from there. Says how many there are; `None` where the words are no version's image.
pub(crate) fn finish(
    live: &LiveImage,
    seek: Seek,
    state: &[u32],
    place: u32,
    room: &mut [u8],
) -> Option<u32>
    requires sought { IsSought live.now seek }
    requires state { HasState state.now seek.size }
    requires place { place < seek.size }
    ensures { Finishes live.now seek state.now place room.old room.new result }
{
    let cell = cell_of(cell_at(state, seek.size, place));
    if !live.image().has(cell) {
        return None;
    }
    let before = chain_length(seek, state, place)?;
    put_chain(seek, state, place, before, room);
    let from = Home {
        label: seek.goal.label,
        place,
    };
    let mut walk = live.image().walk(cell, from, seek.goal);
    put_rest(&mut walk, seek.size, before, room)
}

/// Puts a number at a place of a room, if the room reaches so far.
#[inline(always)]
fn put(room: &mut [u8], place: usize, number: u8)
    ensures { room.new ≡ slice_set room.old place number }
{
    if place < room.len() {
        room[place] = number;
    }
}
