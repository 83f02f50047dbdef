//! The moves that are as good as the walks.

ghost use Rattle.std.specs.Prelude.{◌≡◌, ℕ, ◌-◌, ◌<◌, ◌≤◌, ◌↔◌, IfSome, IfNone, IsTrue, IsFalse, length, slice_index};
ghost use Rattle.run_pack.specs.Sets.{Has};
ghost use Rattle.row_check.specs.Following.{step_numbered};
ghost use Rattle.row_check.specs.Offers.{AreSets, CanAllOffer, CanOffer, HasLess, IsFirstOfferedLess, IsOfferedLess, IsSetOf};

use root_cost::{DIAGONAL_KEY, STRAIGHT_KEY};
use std::simd::prelude::*;

/// Finds for each place the set of the moves that offer just its key, and takes all moves at the target; the first
/// place where a move offers less, if there is one.
pub(crate) fn find_sets(
    near: &[[u16; 8]],
    keys: &[u32],
    sets: &mut [u8],
    target: usize,
) -> Option<usize>
    requires keys { CanAllOffer near.now keys.now }
    requires sets { length sets.old ≡ length near.now }
    requires target { target < length near.now }
    ensures sets { IfNone result (AreSets near.now target keys.now sets.new) }
    ensures less { IfSome result (IsFirstOfferedLess near.now keys.now) }
    ensures size { length sets.new ≡ length sets.old }
{
    for place in 0..near.len() {
        match find_set(&near[place], keys, keys[place]) {
            Some(set) => sets[place] = set,
            None => return Some(place),
        }
    }
    sets[target] = u8::MAX;
    None
}

/// The set of the moves that offer just that key; `None` where a move offers less.
#[inline(always)]
fn find_set(edges: &[u16; 8], keys: &[u32], key: u32) -> Option<u8>
    requires { CanOffer edges.now keys.now }
    ensures set { IfSome result (IsSetOf edges.now keys.now key) }
    ensures byte { IfSome result (λ set. set < 256) }
    ensures less { IfNone result (IsOfferedLess edges.now keys.now key) }
{
    let there = keys_there(edges, keys);
    let wanted = keys_wanted(key);
    if has_less(there, wanted) {
        return None;
    }
    Some(equal_lanes(there, wanted))
}

/// The keys where the eight moves lead, by their numbers.
#[inline(always)]
fn keys_there(edges: &[u16; 8], keys: &[u32]) -> u32x8
    requires { CanOffer edges.now keys.now }
    ensures lanes { length result ≡ 8 }
    ensures keys { (number : ℕ) → number < 8
        → slice_index result number ≡ slice_index keys.now (slice_index edges.now number) }
{
    u32x8::from_array([
        keys[usize::from(edges[0])],
        keys[usize::from(edges[1])],
        keys[usize::from(edges[2])],
        keys[usize::from(edges[3])],
        keys[usize::from(edges[4])],
        keys[usize::from(edges[5])],
        keys[usize::from(edges[6])],
        keys[usize::from(edges[7])],
    ])
}

/// What is left of a key behind the steps of the eight moves, by their numbers; 0 where a step is more.
#[inline(always)]
fn keys_wanted(key: u32) -> u32x8
    ensures lanes { length result ≡ 8 }
    ensures rest { (number : ℕ) → number < 8
        → slice_index result number ≡ key - step_numbered number }
{
    let steps = u32x8::from_array([
        STRAIGHT_KEY,
        DIAGONAL_KEY,
        STRAIGHT_KEY,
        DIAGONAL_KEY,
        STRAIGHT_KEY,
        DIAGONAL_KEY,
        STRAIGHT_KEY,
        DIAGONAL_KEY,
    ]);
    u32x8::splat(key).simd_max(steps) - steps
}

/// Whether some number of the first is less than the one at its place in the second.
#[inline(always)]
fn has_less(there: u32x8, wanted: u32x8) -> bool
    requires lanes { (length there ≡ 8) × (length wanted ≡ 8) }
    ensures some { IsTrue result → HasLess there wanted }
    ensures none { IsFalse result → (number : ℕ) → number < 8
        → slice_index wanted number ≤ slice_index there number }
{
    there.simd_lt(wanted).any()
}

/// The set of the places at which the two have one number.
#[inline(always)]
fn equal_lanes(there: u32x8, wanted: u32x8) -> u8
    requires lanes { (length there ≡ 8) × (length wanted ≡ 8) }
    ensures { (number : ℕ) → number < 8
        → Has result number ↔ (slice_index there number ≡ slice_index wanted number) }
{
    there.simd_eq(wanted).to_bitmask() as u8
}
