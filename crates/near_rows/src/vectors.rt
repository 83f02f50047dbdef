//! Steps on the numbers and the sets in the lanes of vectors.

ghost use Rattle.std.specs.Prelude.{◌≡◌, ℕ, ◌+◌, ◌-◌, ◌%◌, ◌^◌, ◌<◌, ◌≤◌, ◌↔◌, ◌==◌, if◌then◌else◌, max, min, length, slice_index};
ghost use Rattle.moves.specs.declared.Move.{Move};
ghost use Rattle.moves.specs.MoveSets.{Has};

use std::simd::prelude::*;

/// The same number in each lane.
#[inline(always)]
pub(crate) fn everywhere(number: u16) -> u16x16
    ensures { (lane : ℕ) → lane < 16 → slice_index result lane ≡ number }
{
    u16x16::splat(number)
}

/// The greater of two numbers, in each lane.
#[inline(always)]
pub(crate) fn greater(a: u16x16, b: u16x16) -> u16x16
    ensures { (lane : ℕ) → lane < 16
        → slice_index result lane ≡ max (slice_index a lane) (slice_index b lane) }
{
    a.simd_max(b)
}

/// The lesser of two numbers, in each lane.
#[inline(always)]
pub(crate) fn lesser(a: u16x16, b: u16x16) -> u16x16
    ensures { (lane : ℕ) → lane < 16
        → slice_index result lane ≡ min (slice_index a lane) (slice_index b lane) }
{
    a.simd_min(b)
}

/// The first number less the other, in each lane. It wraps round at 0.
#[inline(always)]
pub(crate) fn less_by(a: u16x16, b: u16x16) -> u16x16
    ensures { (lane : ℕ) → lane < 16
        → slice_index result lane ≡ (slice_index a lane + (2 ^ 16 - slice_index b lane)) % 2 ^ 16 }
{
    a - b
}

/// One of three numbers in each lane, as the one there is less than the other, the same, or more.
#[inline(always)]
pub(crate) fn by_order(a: u16x16, b: u16x16, less: u16, same: u16, more: u16) -> u16x16
    ensures less { (lane : ℕ) → lane < 16 → slice_index a lane < slice_index b lane
        → slice_index result lane ≡ less }
    ensures same { (lane : ℕ) → lane < 16 → slice_index a lane ≡ slice_index b lane
        → slice_index result lane ≡ same }
    ensures more { (lane : ℕ) → lane < 16 → slice_index b lane < slice_index a lane
        → slice_index result lane ≡ more }
{
    let others = a
        .simd_eq(b)
        .select(u16x16::splat(same), u16x16::splat(more));
    a.simd_lt(b).select(u16x16::splat(less), others)
}

/// The moves that are in both sets, in each lane.
#[inline(always)]
pub(crate) fn shared(a: u16x16, b: u16x16) -> u16x16
    ensures both { (lane : ℕ) (move : Move) → lane < 16
        → Has (slice_index result lane) move
        ↔ (Has (slice_index a lane) move × Has (slice_index b lane) move) }
    ensures most { (lane : ℕ) → lane < 16 → slice_index result lane ≤ slice_index a lane }
{
    a & b
}

/// The sets as numbers of 16 bits.
#[inline(always)]
pub(crate) fn long(sets: u8x16) -> u16x16
    ensures same { result ≡ sets }
    ensures bytes { (lane : ℕ) → lane < 16 → slice_index sets lane < 256 }
{
    sets.cast::<u16>()
}

/// The numbers in the lanes whose set is empty, and another one elsewhere.
#[inline(always)]
pub(crate) fn where_empty(sets: u16x16, numbers: u16x16, other: u16) -> u16x16
    ensures { (lane : ℕ) → lane < 16
        → slice_index result lane ≡ (if slice_index sets lane == 0 then slice_index numbers lane else other) }
{
    sets.simd_eq(u16x16::splat(0))
        .select(numbers, u16x16::splat(other))
}

/// All moves in the lanes where a number is at most its limit, and the sets elsewhere.
#[inline(always)]
pub(crate) fn filled(sets: u8x16, numbers: u16x16, limits: u16x16) -> u8x16
    ensures inside { (lane : ℕ) → lane < 16 → slice_index numbers lane ≤ slice_index limits lane
        → slice_index result lane ≡ 255 }
    ensures outside { (lane : ℕ) → lane < 16 → slice_index limits lane < slice_index numbers lane
        → slice_index result lane ≡ slice_index sets lane }
{
    let sets = long(sets);
    numbers
        .simd_le(limits)
        .select(u16x16::splat(255), sets)
        .cast::<u8>()
}
