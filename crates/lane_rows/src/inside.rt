//! Places inside a class: their equations follow from those of the reference.

ghost use Rattle.std.specs.Prelude.{◌≡◌, ℕ, ◌+◌, ◌-◌, ◌%◌, ◌^◌, ◌<◌, ◌≤◌, ◌≢◌, ◌⊎◌, min, All, IsTrue, length, slice_index};
ghost use Rattle.moves.specs.declared.Move.{Move};
ghost use Rattle.lane_rows.specs.Tables.{edges_of, end_of, IsMutual};
ghost use Rattle.lane_rows.specs.Visits.{IsFull};
ghost use Rattle.lane_rows.specs.Equations.{far, lane_of, offered};
ghost use Rattle.lane_rows.specs.Classes.{class_in, AreByClass, AreWithin, IsWithin};

use crate::kernels::{FAR, greater, has_beyond, has_empty, has_full, raised};
use crate::tiles::LANES;
use root_cost::{DIAGONAL_KEY, STRAIGHT_KEY};
use std::simd::prelude::*;

/// Writes the keys and the sets of all places: the reference's costs, and what their classes say. The last row is no
/// place's, and far. `false` where some key of a place is far or beyond.
pub(crate) fn expand(
    costs: &[u32],
    codes: &[u32],
    offsets: &[u32x16],
    class_sets: &[u8x16],
    keys: &mut [u32x16],
    sets: &mut [u8x16],
) -> bool
    requires costs { length costs.now ≡ length keys.old }
    requires codes { length codes.now ≡ length keys.old }
    requires sets { length sets.old ≡ length keys.old }
    requires some { 0 < length keys.old }
    ensures rows { (lane : ℕ) → lane < 16
        → AreByClass (length keys.old - 1) (slice_index costs.now) (class_in codes.now)
        (lane_of offsets.now lane) (lane_of class_sets.now lane)
        (lane_of keys.new lane) (lane_of sets.new lane) }
    ensures last { (lane : ℕ) → lane < 16 → lane_of keys.new lane (length keys.old - 1) ≡ far }
    ensures range { IsTrue result → (lane place : ℕ) → lane < 16 → place < length keys.old - 1
        → lane_of keys.new lane place < far }
{
    let last = keys.len() - 1;
    let mut highest = u32x16::splat(0);
    for place in 0..last {
        let class = codes[place] >> 16;
        let key = raised(offsets_of(offsets, class), costs[place]);
        highest = greater(highest, key);
        keys[place] = key;
        sets[place] = moves_of(class_sets, class);
    }
    keys[last] = u32x16::splat(FAR);
    !has_beyond(highest, FAR)
}

/// The offsets of a class; none where there is no such class.
#[inline(always)]
pub(crate) fn offsets_of(offsets: &[u32x16], class: u32) -> u32x16
    ensures { (lane : ℕ) → lane < 16 → slice_index result lane ≡ lane_of offsets.now lane class }
{
    if (class as usize) < offsets.len() {
        offsets[class as usize]
    } else {
        u32x16::splat(0)
    }
}

/// The sets of a class; empty ones where there is no such class.
#[inline(always)]
pub(crate) fn moves_of(sets: &[u8x16], class: u32) -> u8x16
    ensures { (lane : ℕ) → lane < 16 → slice_index result lane ≡ lane_of sets.now lane class }
{
    if (class as usize) < sets.len() {
        sets[class as usize]
    } else {
        u8x16::splat(0)
    }
}

/// The lesser of two costs.
#[inline(always)]
fn lesser(a: u32, b: u32) -> u32
    ensures { result ≡ min a b }
{
    a.min(b)
}

/// The cost, one step further. It wraps round at 2^32.
#[inline(always)]
fn one_further(cost: u32, step: u32) -> u32
    ensures { result ≡ (cost + step) % 2 ^ 32 }
{
    cost.wrapping_add(step)
}

/// The least of four costs.
#[inline(always)]
fn least_of(costs: &[u32], a: u16, b: u16, c: u16, d: u16) -> u32
    requires first { (a < length costs.now) × (b < length costs.now) }
    requires second { (c < length costs.now) × (d < length costs.now) }
    ensures { result ≡ min (min (slice_index costs.now a) (slice_index costs.now b))
        (min (slice_index costs.now c) (slice_index costs.now d)) }
{
    lesser(
        lesser(costs[usize::from(a)], costs[usize::from(b)]),
        lesser(costs[usize::from(c)], costs[usize::from(d)]),
    )
}

/// The least cost that the moves offer.
#[inline(always)]
fn lowest(costs: &[u32], edges: &[u16; 8]) -> u32
    requires within { All (λ to. to < length costs.now) edges.now }
    requires range { (place : ℕ) → slice_index costs.now place ≤ far }
    ensures at_most { (move : Move) → result ≤ offered edges.now (slice_index costs.now) move }
    ensures attained { (move : Move)
        × (result ≡ offered edges.now (slice_index costs.now) move) }
{
    let [n, ne, e, se, s, sw, w, nw] = *edges;
    lesser(
        one_further(least_of(costs, n, e, s, w), STRAIGHT_KEY),
        one_further(least_of(costs, ne, se, sw, nw), DIAGONAL_KEY),
    )
}

/// Whether a move leads to a place with this code, or nowhere. Branches would be hard to foresee here.
#[inline(always)]
fn is_alike(codes: &[u32], to: u16, code: u32, none: usize) -> bool
    requires { to < length codes.now }
    ensures { IsTrue result → (to ≡ none) ⊎ (slice_index codes.now to ≡ code) }
{
    (codes[usize::from(to)] == code) | (usize::from(to) == none)
}

/// Whether two moves lead to places with this code, or nowhere.
#[inline(always)]
fn are_both(codes: &[u32], a: u16, b: u16, code: u32, none: usize) -> bool
    requires first { a < length codes.now }
    requires second { b < length codes.now }
    ensures first { IsTrue result → (a ≡ none) ⊎ (slice_index codes.now a ≡ code) }
    ensures second { IsTrue result → (b ≡ none) ⊎ (slice_index codes.now b ≡ code) }
{
    is_alike(codes, a, code, none) & is_alike(codes, b, code, none)
}

/// Whether all neighbours of a place have its code.
#[inline(always)]
fn are_alike(codes: &[u32], edges: &[u16; 8], code: u32, none: usize) -> bool
    requires within { All (λ to. to < length codes.now) edges.now }
    ensures { IsTrue result → (move : Move) → (end_of edges.now move ≡ none)
        ⊎ (slice_index codes.now (end_of edges.now move) ≡ code) }
{
    let [n, ne, e, se, s, sw, w, nw] = *edges;
    are_both(codes, n, ne, code, none)
        && are_both(codes, e, se, code, none)
        && are_both(codes, s, sw, code, none)
        && are_both(codes, w, nw, code, none)
}

/// 0 where the place is inside its class and its sets are neither empty nor full, and 1 elsewhere.
#[inline(always)]
fn wait_of(
    costs: &[u32],
    codes: &[u32],
    sets: &[u8x16],
    edges: &[u16; 8],
    place: usize,
    none: usize,
) -> u8
    requires within { All (λ to. to < length costs.now) edges.now }
    requires alike { All (λ to. to < length codes.now) edges.now }
    requires codes { length codes.now ≡ length costs.now }
    requires sets { length sets.now ≡ length costs.now }
    requires place { place < length costs.now }
    requires range { (at : ℕ) → slice_index costs.now at ≤ far }
    ensures { result ≡ 0
        → IsWithin edges.now none costs.now codes.now sets.now place }
{
    if are_alike(codes, edges, codes[place], none)
        && lowest(costs, edges) == costs[place]
        && has_some(sets_at(sets, place))
    {
        0
    } else {
        1
    }
}

/// Lets all places wait but those inside their classes, and says how many wait.
pub(crate) fn mark_borders(
    near: &[[u16; 8]],
    costs: &[u32],
    codes: &[u32],
    sets: &[u8x16],
    waits: &mut [u8],
) -> usize
    requires near { IsMutual near.now }
    requires costs { length costs.now ≡ length near.now + 1 }
    requires codes { length codes.now ≡ length near.now + 1 }
    requires sets { length sets.now ≡ length near.now + 1 }
    requires waits { length waits.old ≡ length near.now + 1 }
    requires range { (place : ℕ) → slice_index costs.now place ≤ far }
    ensures { AreWithin near.now costs.now codes.now sets.now waits.new (length near.now) }
{
    let none = near.len();
    let mut count: usize = 0;
    for (place, edges) in near.iter().enumerate() {
        let wait = wait_of(costs, codes, sets, edges, place, none);
        waits[place] = wait;
        count = count.wrapping_add(usize::from(wait));
    }
    count
}

/// The sets in each lane at a place.
#[inline(always)]
fn sets_at(sets: &[u8x16], place: usize) -> u8x16
    requires { place < length sets.now }
    ensures { (lane : ℕ) → slice_index result lane ≡ lane_of sets.now lane place }
{
    sets[place]
}

/// Whether no lane's set is empty or full.
#[inline(always)]
fn has_some(set: u8x16) -> bool
    ensures some { IsTrue result → (lane : ℕ) → lane < 16 → slice_index set lane ≢ 0 }
    ensures not_all { IsTrue result → (lane : ℕ) → lane < 16 → IsFull (slice_index set lane) → ⊥ }
    ensures byte { (lane : ℕ) → lane < 16 → slice_index set lane < 256 }
{
    !has_empty(set) && !has_full(set)
}

/// Lets the sources wait.
pub(crate) fn wake(waits: &mut [u8], sources: [u32; 16])
    requires { (lane : ℕ) → lane < 16 → slice_index sources lane < length waits.old }
    ensures still { (other : ℕ) → slice_index waits.new other ≡ 0
        → slice_index waits.old other ≡ 0 }
    ensures marked { (lane : ℕ) → lane < 16
        → slice_index waits.new (slice_index sources lane) ≡ 0 → ⊥ }
{
    for lane in 0..LANES {
        waits[sources[lane] as usize] = 1;
    }
}

/// Whether no cost is beyond that of a place that is not reached, and the last one is just that.
pub(crate) fn are_costs(costs: &[u32]) -> bool
    requires { 0 < length costs.now }
    ensures small { IsTrue result → (place : ℕ) → slice_index costs.now place ≤ far }
    ensures last { IsTrue result → slice_index costs.now (length costs.now - 1) ≡ far }
{
    costs[costs.len() - 1] == FAR && costs.iter().all(|cost| *cost <= FAR)
}
