//! The first sets from a place to the sources of all lanes, by keys alone.

ghost use Rattle.std.specs.Prelude.{◌≡◌, ℕ, ◌+◌, ◌%◌, ◌^◌, ◌<◌, ◌≤◌, ◌⊎◌, ◌↔◌, ◌==◌, if◌then◌else◌, length, slice_index};
ghost use Rattle.moves.specs.declared.Move.{Move};
ghost use Rattle.moves.specs.MoveSets.{Has};
ghost use Rattle.lane_rows.specs.Tables.{end_of};
ghost use Rattle.lane_rows.specs.Equations.{lane_of, offered, AreInRange};

use lane_rows::LANES;
use moves::{Move, MoveSet};
use root_cost::{DIAGONAL_KEY, STRAIGHT_KEY};
use std::simd::prelude::*;

/// What stands in each lane at a place.
#[inline(always)]
fn row(keys: &[u32x16], place: usize) -> u32x16
    requires { place < length keys.now }
    ensures { (lane : ℕ) → slice_index result lane ≡ lane_of keys.now lane place }
{
    keys[place]
}

/// The keys, one step further. They wrap round at 2^32.
#[inline(always)]
fn raised(keys: u32x16, step: u32) -> u32x16
    ensures { (lane : ℕ) → lane < 16
        → slice_index result lane ≡ (slice_index keys lane + step) % 2 ^ 32 }
{
    keys + u32x16::splat(step)
}

/// 255 in each lane where the two are equal, and 0 elsewhere.
#[inline(always)]
fn equal_lanes(a: u32x16, b: u32x16) -> u8x16
    ensures { (lane : ℕ) → lane < 16
        → slice_index result lane ≡ (if slice_index a lane == slice_index b lane then 255 else 0) }
{
    a.simd_eq(b)
        .select(u32x16::splat(255), u32x16::splat(0))
        .cast::<u8>()
}

/// The moves that are in either set, in each lane.
#[inline(always)]
fn joined(a: u8x16, b: u8x16) -> u8x16
    ensures { (lane : ℕ) (move : Move) → lane < 16
        → Has (slice_index result lane) move
        ↔ (Has (slice_index a lane) move ⊎ Has (slice_index b lane) move) }
{
    a | b
}

/// The moves that are in both sets, in each lane.
#[inline(always)]
fn shared(a: u8x16, b: u8x16) -> u8x16
    ensures { (lane : ℕ) (move : Move) → lane < 16
        → Has (slice_index result lane) move
        ↔ (Has (slice_index a lane) move × Has (slice_index b lane) move) }
{
    a & b
}

/// The move alone, in the lanes where it leads to a place whose key and the step make this key.
#[inline(always)]
fn leading(keys: &[u32x16], here: u32x16, by: Move, to: u16, step: u32) -> u8x16
    requires range { AreInRange keys.now }
    requires step { step ≤ 65536 }
    ensures { (lane : ℕ) (move : Move) → lane < 16
        → Has (slice_index result lane) move
        ↔ ((move ≡ by) × (to < length keys.now)
        × (slice_index here lane ≡ lane_of keys.now lane to + step)) }
{
    let to = usize::from(to);
    if to >= keys.len() {
        return u8x16::splat(0);
    }
    shared(
        equal_lanes(here, raised(row(keys, to), step)),
        u8x16::splat(MoveSet::NONE.with(by).mask()),
    )
}

/// The moves from a place, in each lane, that lead to a place whose key and the step make the key of this one. `edges`
/// says where each move leads, by its number; a number behind the last place stands for nowhere.
#[inline(always)]
pub(crate) fn first_sets(keys: &[u32x16], edges: &[u16; 8], place: usize) -> u8x16
    requires place { place < length keys.now }
    requires range { AreInRange keys.now }
    ensures { (lane : ℕ) (move : Move) → lane < 16
        → Has (slice_index result lane) move
        ↔ ((end_of edges.now move < length keys.now)
        × (lane_of keys.now lane place ≡ offered edges.now (lane_of keys.now lane) move)) }
{
    let here = row(keys, place);
    let [n, ne, e, se, s, sw, w, nw] = *edges;
    let north = joined(
        leading(keys, here, Move::N, n, STRAIGHT_KEY),
        leading(keys, here, Move::NE, ne, DIAGONAL_KEY),
    );
    let east = joined(
        leading(keys, here, Move::E, e, STRAIGHT_KEY),
        leading(keys, here, Move::SE, se, DIAGONAL_KEY),
    );
    let south = joined(
        leading(keys, here, Move::S, s, STRAIGHT_KEY),
        leading(keys, here, Move::SW, sw, DIAGONAL_KEY),
    );
    let west = joined(
        leading(keys, here, Move::W, w, STRAIGHT_KEY),
        leading(keys, here, Move::NW, nw, DIAGONAL_KEY),
    );
    joined(joined(north, east), joined(south, west))
}

/// The sets of all lanes, one by one.
pub(crate) fn bytes_in(sets: u8x16) -> [u8; LANES]
    ensures same { (lane : ℕ) → slice_index result lane ≡ slice_index sets lane }
    ensures bytes { (lane : ℕ) → slice_index result lane < 256 }
{
    sets.to_array()
}
