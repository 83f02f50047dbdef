//! The equations of one place, in each lane: the least key that its neighbours offer, and the moves that they bring.

ghost use Rattle.std.specs.Prelude.{◌≡◌, ℕ, ◌+◌, ◌-◌, ◌%◌, ◌^◌, ◌<◌, ◌≤◌, ◌⊎◌, ◌↔◌, ◌==◌, if◌then◌else◌, min, All, IsFalse, length, slice_index};
ghost use Rattle.moves.specs.declared.Move.{Move};
ghost use Rattle.moves.specs.MoveSets.{Has, IsEmpty};
ghost use Rattle.lane_rows.specs.Visits.{IsFull};
ghost use Rattle.lane_rows.specs.Equations.{far, lane_of, offered, AreInRange, IsBrought, IsStart, MeetsKey, MeetsSet};

use moves::{Move, MoveSet};
use root_cost::{DIAGONAL_KEY, STRAIGHT_KEY};
use std::simd::prelude::*;

/// A key that no path has.
pub(crate) const FAR: u32 = 1 << 31;

/// The set of all eight moves.
pub(crate) const FULL: u8 = 255;

/// The lesser of two keys, in each lane.
#[inline(always)]
pub(crate) fn lesser(a: u32x16, b: u32x16) -> u32x16
    ensures lanes { length result ≡ 16 }
    ensures least { (lane : ℕ) → lane < 16
        → slice_index result lane ≡ min (slice_index a lane) (slice_index b lane) }
{
    a.simd_min(b)
}

/// The greater of two keys, in each lane.
#[inline(always)]
pub(crate) fn greater(a: u32x16, b: u32x16) -> u32x16
    ensures first { (lane : ℕ) → lane < 16 → slice_index a lane ≤ slice_index result lane }
    ensures second { (lane : ℕ) → lane < 16 → slice_index b lane ≤ slice_index result lane }
{
    a.simd_max(b)
}

/// The keys, one step further. They wrap round at 2^32.
#[inline(always)]
pub(crate) fn raised(a: u32x16, step: u32) -> u32x16
    ensures lanes { length result ≡ 16 }
    ensures sum { (lane : ℕ) → lane < 16
        → slice_index result lane ≡ (slice_index a lane + step) % 2 ^ 32 }
{
    a + u32x16::splat(step)
}

/// The keys, one step back. They wrap round at 0.
#[inline(always)]
pub(crate) fn lowered(a: u32x16, step: u32) -> u32x16
    ensures lanes { length result ≡ 16 }
    ensures rest { (lane : ℕ) → lane < 16
        → slice_index result lane ≡ (slice_index a lane + (2 ^ 32 - step)) % 2 ^ 32 }
{
    a - u32x16::splat(step)
}

/// 255 in each lane where the two are equal, and 0 elsewhere.
#[inline(always)]
pub(crate) fn equal_lanes(a: u32x16, b: u32x16) -> u8x16
    ensures lanes { length result ≡ 16 }
    ensures equal { (lane : ℕ) → lane < 16
        → slice_index result lane ≡ (if slice_index a lane == slice_index b lane then 255 else 0) }
{
    a.simd_eq(b)
        .select(u32x16::splat(255), u32x16::splat(0))
        .cast::<u8>()
}

/// 0 in the lane of which the place is the source, and far elsewhere.
#[inline(always)]
pub(crate) fn cap(sources: u32x16, place: u32) -> u32x16
    ensures lanes { length result ≡ 16 }
    ensures cap { (lane : ℕ) → lane < 16
        → slice_index result lane ≡ (if slice_index sources lane == place then 0 else far) }
{
    sources
        .simd_eq(u32x16::splat(place))
        .select(u32x16::splat(0), u32x16::splat(FAR))
}

/// Whether a set in some lane is full.
#[inline(always)]
pub(crate) fn has_full(set: u8x16) -> bool
    ensures { IsFalse result → (lane : ℕ) → lane < 16 → IsFull (slice_index set lane) → ⊥ }
{
    set.simd_eq(u8x16::splat(FULL)).any()
}

/// Whether a set in some lane is empty.
#[inline(always)]
pub(crate) fn has_empty(set: u8x16) -> bool
    ensures { IsFalse result → (lane : ℕ) → lane < 16 → slice_index set lane ≡ 0 → ⊥ }
{
    set.simd_eq(u8x16::splat(0)).any()
}

/// Whether two rows of keys differ.
#[inline(always)]
pub(crate) fn keys_differ(old: u32x16, new: u32x16) -> bool
    ensures { IsFalse result → (lane : ℕ) → lane < 16
        → slice_index old lane ≡ slice_index new lane }
{
    old.simd_ne(new).any()
}

/// Whether two rows of sets differ where the first is not full.
#[inline(always)]
pub(crate) fn sets_differ(old: u8x16, new: u8x16) -> bool
    ensures { IsFalse result → (lane : ℕ) → lane < 16
        → (slice_index old lane ≡ slice_index new lane) ⊎ IsFull (slice_index old lane) }
{
    (old.simd_ne(new) & old.simd_ne(u8x16::splat(FULL))).any()
}

/// What stands in each lane at a place.
#[inline(always)]
pub(crate) fn row(keys: &[u32x16], place: u16) -> u32x16
    requires { place < length keys.now }
    ensures { (lane : ℕ) → slice_index result lane ≡ lane_of keys.now lane place }
{
    keys[usize::from(place)]
}

/// The least keys of four places.
#[inline(always)]
fn least_of(keys: &[u32x16], a: u16, b: u16, c: u16, d: u16) -> u32x16
    requires first { (a < length keys.now) × (b < length keys.now) }
    requires second { (c < length keys.now) × (d < length keys.now) }
    ensures { (lane : ℕ) → lane < 16
        → slice_index result lane ≡ min (min (lane_of keys.now lane a) (lane_of keys.now lane b))
        (min (lane_of keys.now lane c) (lane_of keys.now lane d)) }
{
    lesser(
        lesser(row(keys, a), row(keys, b)),
        lesser(row(keys, c), row(keys, d)),
    )
}

/// The least keys that the moves offer.
#[inline(always)]
fn lowest(keys: &[u32x16], edges: &[u16; 8]) -> u32x16
    requires within { All (λ to. to < length keys.now) edges.now }
    requires range { AreInRange keys.now }
    ensures at_most { (lane : ℕ) (move : Move) → lane < 16
        → slice_index result lane ≤ offered edges.now (lane_of keys.now lane) move }
    ensures attained { (lane : ℕ) → lane < 16
        → (move : Move)
        × (slice_index result lane ≡ offered edges.now (lane_of keys.now lane) move) }
{
    let [n, ne, e, se, s, sw, w, nw] = *edges;
    lesser(
        raised(least_of(keys, n, e, s, w), STRAIGHT_KEY),
        raised(least_of(keys, ne, se, sw, nw), DIAGONAL_KEY),
    )
}

/// The keys of a place by those of its neighbours.
#[inline(always)]
pub(crate) fn key_at(keys: &[u32x16], edges: &[u16; 8], sources: u32x16, place: u16) -> u32x16
    requires within { All (λ to. to < length keys.now) edges.now }
    requires range { AreInRange keys.now }
    ensures meets { (lane : ℕ) → lane < 16
        → MeetsKey edges.now (slice_index sources lane) (lane_of keys.now lane) place
        (slice_index result lane) }
    ensures range { (lane : ℕ) → lane < 16 → slice_index result lane ≤ far }
{
    lesser(lowest(keys, edges), cap(sources, u32::from(place)))
}

/// The sets in each lane at a place.
#[inline(always)]
pub(crate) fn set_row(sets: &[u8x16], place: u16) -> u8x16
    requires { place < length sets.now }
    ensures { (lane : ℕ) → slice_index result lane ≡ lane_of sets.now lane place }
{
    sets[usize::from(place)]
}

/// The moves that are in either set, in each lane.
#[inline(always)]
pub(crate) fn joined(a: u8x16, b: u8x16) -> u8x16
    ensures { (lane : ℕ) (first : Move) → lane < 16
        → Has (slice_index result lane) first
        ↔ (Has (slice_index a lane) first ⊎ Has (slice_index b lane) first) }
{
    a | b
}

/// The moves that are in both sets, in each lane.
#[inline(always)]
pub(crate) fn shared(a: u8x16, b: u8x16) -> u8x16
    ensures { (lane : ℕ) (first : Move) → lane < 16
        → Has (slice_index result lane) first
        ↔ (Has (slice_index a lane) first × Has (slice_index b lane) first) }
{
    a & b
}

/// The sets of a place, in the lanes where a step from it attains the key.
#[inline(always)]
fn brought(keys: &[u32x16], sets: &[u8x16], place: u16, key: u32x16, step: u32) -> u8x16
    requires keys { place < length keys.now }
    requires sets { place < length sets.now }
    requires range { AreInRange keys.now }
    requires step { step ≤ 65536 }
    ensures { (lane : ℕ) (first : Move) → lane < 16
        → Has (slice_index result lane) first
        ↔ ((slice_index key lane ≡ lane_of keys.now lane place + step)
        × Has (lane_of sets.now lane place) first) }
{
    shared(
        equal_lanes(row(keys, place), lowered(key, step)),
        set_row(sets, place),
    )
}

/// The moves that are brought from the neighbours from which a step attains the key.
#[inline(always)]
fn union(keys: &[u32x16], sets: &[u8x16], edges: &[u16; 8], key: u32x16) -> u8x16
    requires within { All (λ to. to < length keys.now) edges.now }
    requires same { length sets.now ≡ length keys.now }
    requires range { AreInRange keys.now }
    ensures { (lane : ℕ) (first : Move) → lane < 16
        → Has (slice_index result lane) first
        ↔ IsBrought edges.now (lane_of keys.now lane) (lane_of sets.now lane) (slice_index key
        lane) first }
{
    let [n, ne, e, se, s, sw, w, nw] = *edges;
    let north = joined(
        brought(keys, sets, n, key, STRAIGHT_KEY),
        brought(keys, sets, ne, key, DIAGONAL_KEY),
    );
    let east = joined(
        brought(keys, sets, e, key, STRAIGHT_KEY),
        brought(keys, sets, se, key, DIAGONAL_KEY),
    );
    let south = joined(
        brought(keys, sets, s, key, STRAIGHT_KEY),
        brought(keys, sets, sw, key, DIAGONAL_KEY),
    );
    let west = joined(
        brought(keys, sets, w, key, STRAIGHT_KEY),
        brought(keys, sets, nw, key, DIAGONAL_KEY),
    );
    joined(joined(north, east), joined(south, west))
}

/// The move alone, in the lanes whose source is this place.
#[inline(always)]
fn first_from(sources: u32x16, place: u16, first: Move) -> u8x16
    ensures { (lane : ℕ) (move : Move) → lane < 16
        → Has (slice_index result lane) move
        ↔ ((slice_index sources lane ≡ place) × (move ≡ first)) }
{
    shared(
        equal_lanes(sources, u32x16::splat(u32::from(place))),
        u8x16::splat(MoveSet::NONE.with(first).mask()),
    )
}

/// The moves that lead to a place from the sources themselves.
pub(crate) fn first_moves(edges: &[u16; 8], sources: u32x16) -> u8x16
    ensures { (lane : ℕ) (first : Move) → lane < 16
        → Has (slice_index result lane) first ↔ IsStart edges.now (slice_index sources lane) first }
{
    let [n, ne, e, se, s, sw, w, nw] = *edges;
    joined(
        joined(
            joined(
                first_from(sources, n, Move::S),
                first_from(sources, e, Move::W),
            ),
            joined(
                first_from(sources, s, Move::N),
                first_from(sources, w, Move::E),
            ),
        ),
        joined(
            joined(
                first_from(sources, ne, Move::SW),
                first_from(sources, se, Move::NW),
            ),
            joined(
                first_from(sources, sw, Move::NE),
                first_from(sources, nw, Move::SE),
            ),
        ),
    )
}

/// The sets with, where one is empty, the moves that lead here from the sources themselves.
#[inline(always)]
fn with_first(union: u8x16, edges: &[u16; 8], sources: u32x16) -> u8x16
    ensures within { (lane : ℕ) (first : Move) → lane < 16 → Has (slice_index result lane) first
        → Has (slice_index union lane) first ⊎ IsStart edges.now (slice_index sources lane) first }
    ensures kept { (lane : ℕ) (first : Move) → lane < 16 → Has (slice_index union lane) first
        → Has (slice_index result lane) first }
    ensures started { (lane : ℕ) (first : Move) → lane < 16 → IsEmpty (slice_index union lane)
        → IsStart edges.now (slice_index sources lane) first → Has (slice_index result lane) first }
{
    if has_empty(union) {
        joined(union, first_moves(edges, sources))
    } else {
        union
    }
}

/// The sets of a place by those of its neighbours.
#[inline(always)]
pub(crate) fn set_at(
    keys: &[u32x16],
    sets: &[u8x16],
    edges: &[u16; 8],
    sources: u32x16,
    key: u32x16,
) -> u8x16
    requires within { All (λ to. to < length keys.now) edges.now }
    requires same { length sets.now ≡ length keys.now }
    requires range { AreInRange keys.now }
    ensures { (lane : ℕ) → lane < 16
        → MeetsSet edges.now (slice_index sources lane) (lane_of keys.now lane) (lane_of sets.now
        lane) (slice_index key lane) (slice_index result lane) }
{
    with_first(union(keys, sets, edges, key), edges, sources)
}

/// Whether the key in some lane is at a limit or beyond.
#[inline(always)]
pub(crate) fn has_beyond(keys: u32x16, limit: u32) -> bool
    ensures { IsFalse result → (lane : ℕ) → lane < 16 → slice_index keys lane < limit }
{
    keys.simd_ge(u32x16::splat(limit)).any()
}
