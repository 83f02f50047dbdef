//! Visits to places, in any order: what holds of the places that do not wait holds after each of them.

ghost use Rattle.std.specs.Prelude.{◌≡◌, ℕ, ◌+◌, ◌<◌, ◌⊎◌, All, IsTrue, IsFalse, IfSome, length, slice_index};
ghost use Rattle.moves.specs.declared.Move.{Move};
ghost use Rattle.lane_rows.specs.Tables.{edges_of, end_of, IsMutual};
ghost use Rattle.lane_rows.specs.Equations.{lane_of, AreInRange};
ghost use Rattle.lane_rows.specs.Visits.{HasRows, IsFull, IsSwept, IsVisit, lane_in, lanes_at};

use crate::kernels::{has_full, key_at, keys_differ, set_at, sets_differ};
use std::simd::prelude::*;

/// Whether the neighbours of a place have to look again: its key has changed, or its set has and was not full.
#[inline(always)]
fn must_tell(old_key: u32x16, key: u32x16, old_set: u8x16, set: u8x16) -> bool
    ensures keys { IsFalse result → (lane : ℕ) → lane < 16
        → slice_index old_key lane ≡ slice_index key lane }
    ensures sets { IsFalse result → (lane : ℕ) → lane < 16
        → (slice_index old_set lane ≡ slice_index set lane) ⊎ IsFull (slice_index old_set lane) }
{
    keys_differ(old_key, key) || sets_differ(old_set, set)
}

/// Lets all neighbours wait.
#[inline(always)]
fn mark(waits: &mut [u8], edges: &[u16; 8])
    requires { All (λ to. to < length waits.old) edges.now }
    ensures still { (other : ℕ) → slice_index waits.new other ≡ 0
        → slice_index waits.old other ≡ 0 }
    ensures marked { (move : Move) → slice_index waits.new (end_of edges.now move) ≡ 0 → ⊥ }
{
    for to in edges {
        waits[usize::from(*to)] = 1;
    }
}

/// Lets all neighbours wait, where they have to.
#[inline(always)]
fn mark_if(tell: bool, waits: &mut [u8], edges: &[u16; 8])
    requires { All (λ to. to < length waits.old) edges.now }
    ensures still { (other : ℕ) → slice_index waits.new other ≡ 0
        → slice_index waits.old other ≡ 0 }
    ensures marked { IsTrue tell → (move : Move)
        → slice_index waits.new (end_of edges.now move) ≡ 0 → ⊥ }
{
    if tell {
        mark(waits, edges);
    }
}

/// Makes the key and the set of one place meet their equations, in each lane.
#[inline(always)]
fn visit(
    edges: &[u16; 8],
    sources: u32x16,
    place: u16,
    keys: &mut [u32x16],
    sets: &mut [u8x16],
    waits: &mut [u8],
)
    requires within { All (λ to. to < length keys.old) edges.now }
    requires place { place < length keys.old }
    requires sets { length sets.old ≡ length keys.old }
    requires waits { length waits.old ≡ length keys.old }
    requires range { AreInRange keys.old }
    ensures range { AreInRange keys.new }
    ensures visit { (lane : ℕ) → lane < 16
        → IsVisit edges.now (slice_index sources lane) place
        (lane_in (lanes_at keys.old sets.old waits.old) lane)
        (lane_in (lanes_at keys.new sets.new waits.new) lane) }
{
    let at = usize::from(place);
    let key = key_at(keys, edges, sources, place);
    let set = set_at(keys, sets, edges, sources, key);
    let tell = must_tell(keys[at], key, sets[at], set);
    keys[at] = key;
    sets[at] = set;
    mark_if(tell, waits, edges);
    waits[at] = u8::from(has_full(set));
}

/// The neighbours of a place, where it is one.
#[inline(always)]
fn edges_at(near: &[[u16; 8]], place: u16) -> Option<&[u16; 8]>
    ensures { IfSome result (λ edges. (place < length near.now)
        × (edges.now ≡ edges_of near.now place)) }
{
    near.get(usize::from(place))
}

/// Lowers the keys of these places, one after the other.
pub(crate) fn lower(near: &[[u16; 8]], sources: u32x16, order: &[u16], keys: &mut [u32x16])
    requires near { IsMutual near.now }
    requires rows { length keys.old ≡ length near.now + 1 }
    requires range { AreInRange keys.old }
    ensures range { AreInRange keys.new }
    ensures last { (lane : ℕ) → lane < 16
        → lane_of keys.new lane (length near.now) ≡ lane_of keys.old lane (length near.now) }
{
    for place in order {
        if let Some(edges) = edges_at(near, *place) {
            keys[usize::from(*place)] = key_at(keys, edges, sources, *place);
        }
    }
}

/// Visits a place, where it is one and waits, and says whether it did.
#[inline(always)]
fn visit_waiting(
    near: &[[u16; 8]],
    sources: u32x16,
    place: u16,
    keys: &mut [u32x16],
    sets: &mut [u8x16],
    waits: &mut [u8],
) -> bool
    requires near { IsMutual near.now }
    requires rows { HasRows near.now (lanes_at keys.old sets.old waits.old) }
    requires range { AreInRange keys.old }
    ensures { IsSwept near.now sources (lanes_at keys.old sets.old waits.old)
        (lanes_at keys.new sets.new waits.new) }
{
    if let Some(edges) = edges_at(near, place)
        && waits[usize::from(place)] != 0
    {
        visit(edges, sources, place, keys, sets, waits);
        return true;
    }
    false
}

/// Visits those of these places that wait, one after the other, and says how many did.
pub(crate) fn sweep(
    near: &[[u16; 8]],
    sources: u32x16,
    order: &[u16],
    keys: &mut [u32x16],
    sets: &mut [u8x16],
    waits: &mut [u8],
) -> usize
    requires near { IsMutual near.now }
    requires rows { HasRows near.now (lanes_at keys.old sets.old waits.old) }
    requires range { AreInRange keys.old }
    ensures { IsSwept near.now sources (lanes_at keys.old sets.old waits.old)
        (lanes_at keys.new sets.new waits.new) }
{
    let mut visited: usize = 0;
    for place in order {
        let did_wait = visit_waiting(near, sources, *place, keys, sets, waits);
        visited = visited.wrapping_add(usize::from(did_wait));
    }
    visited
}

/// Lowers the keys of these places, the last first.
pub(crate) fn lower_back(near: &[[u16; 8]], sources: u32x16, order: &[u16], keys: &mut [u32x16])
    requires near { IsMutual near.now }
    requires rows { length keys.old ≡ length near.now + 1 }
    requires range { AreInRange keys.old }
    ensures range { AreInRange keys.new }
    ensures last { (lane : ℕ) → lane < 16
        → lane_of keys.new lane (length near.now) ≡ lane_of keys.old lane (length near.now) }
{
    for place in order.iter().rev() {
        if let Some(edges) = edges_at(near, *place) {
            keys[usize::from(*place)] = key_at(keys, edges, sources, *place);
        }
    }
}

/// Visits those of these places that wait, the last first, and says how many did.
pub(crate) fn sweep_back(
    near: &[[u16; 8]],
    sources: u32x16,
    order: &[u16],
    keys: &mut [u32x16],
    sets: &mut [u8x16],
    waits: &mut [u8],
) -> usize
    requires near { IsMutual near.now }
    requires rows { HasRows near.now (lanes_at keys.old sets.old waits.old) }
    requires range { AreInRange keys.old }
    ensures { IsSwept near.now sources (lanes_at keys.old sets.old waits.old)
        (lanes_at keys.new sets.new waits.new) }
{
    let mut visited: usize = 0;
    for place in order.iter().rev() {
        let did_wait = visit_waiting(near, sources, *place, keys, sets, waits);
        visited = visited.wrapping_add(usize::from(did_wait));
    }
    visited
}
