//! The keys and sets of sixteen searches: guesses, and then visits until all meet their equations.

ghost use Rattle.std.specs.Prelude.{◌≡◌, ℕ, ◌+◌, ◌<◌, IsTrue, length, slice_index};
ghost use Rattle.lane_rows.specs.Tables.{IsMutual};
ghost use Rattle.lane_rows.specs.Equations.{far, lane_of, AreInRange};
ghost use Rattle.lane_rows.specs.Visits.{AreSettled, AreSolved, HasRows, IsSwept, lane_in, lanes_at};

use crate::classes::{Classes, Scene, guess};
use crate::inside::{are_costs, expand, mark_borders, wake};
use crate::kernels::{FAR, FULL, greater, has_beyond};
use crate::sweeps::{lower, lower_back, sweep, sweep_back};
use root_cost::GREATEST_KEY;
use std::simd::prelude::*;

/// How many of the nearest places at least come before the others. It is more where the sources reach over more.
pub(crate) const NEAREST: usize = 120;

/// How often their keys are lowered, forth and back, before all others.
const ROUNDS: u32 = 3;

/// How often at most some places are gone over, forth and back, until few of them wait.
const SETTLING: u32 = 6;

/// Few of some places are fewer than one in so many.
const FEW: usize = 4;

/// How many times as many places as before are settled next.
const GROWTH: usize = 4;

/// How often at most there are more places to settle: enough for all, even from one on.
const GROWINGS: u32 = 8;

/// The order in which places are visited, how many of them come first, and how often at most all are visited.
#[derive(Clone, Copy, Drop)]
pub(crate) struct Plan<'a> {
    order: &'a [u16],
    nearest: usize,
    sweeps: u32,
}

impl<'a> Plan<'a> {
    /// A plan for sources that reach over so many places.
    pub(crate) fn new(order: &'a [u16], reach: usize, sweeps: u32) -> Plan<'a> {
        Plan {
            order,
            nearest: NEAREST.max(reach),
            sweeps,
        }
    }

    /// The first so many places, or all.
    fn first(self, count: usize) -> &'a [u16] {
        &self.order[..self.order.len().min(count)]
    }
}

/// Finds the keys and sets; `true` only where all places meet their equations.
pub(crate) fn solve(
    near: &[[u16; 8]],
    sources: u32x16,
    plan: Plan,
    keys: &mut [u32x16],
    sets: &mut [u8x16],
    waits: &mut [u8],
) -> bool
    requires near { IsMutual near.now }
    requires rows { HasRows near.now (lanes_at keys.old sets.old waits.old) }
    ensures { IsTrue result → (lane : ℕ) → lane < 16
        → AreSolved near.now (slice_index sources lane) (lane_of keys.new lane) (lane_of sets.new
        lane) }
{
    keys.fill(u32x16::splat(FAR));
    sets.fill(u8x16::splat(FULL));
    waits.fill(1);
    find_keys(near, sources, plan, keys);
    find_sets(near, sources, plan, keys, sets, waits);
    repair(near, sources, plan, keys, sets, waits);
    none_waits(&waits[..near.len()]) && are_all_below(&keys[..near.len()], GREATEST_KEY)
}

/// Finds the keys and sets by classes of places; `true` only where all places meet their equations.
pub(crate) fn solve_by_classes(
    scene: &Scene,
    classes: &mut Classes,
    codes: &mut [u32],
    keys: &mut [u32x16],
    sets: &mut [u8x16],
    waits: &mut [u8],
) -> bool
    requires near { IsMutual scene.now.near.now }
    requires rows { HasRows scene.now.near.now (lanes_at keys.old sets.old waits.old) }
    requires costs { length scene.now.costs.now ≡ length scene.now.near.now + 1 }
    requires codes { length codes.old ≡ length scene.now.near.now + 1 }
    requires sources { (lane : ℕ) → lane < 16
        → slice_index scene.now.sources lane < length scene.now.near.now + 1 }
    ensures { IsTrue result → (lane : ℕ) → lane < 16
        → AreSolved scene.now.near.now (slice_index scene.now.sources lane) (lane_of keys.new lane)
        (lane_of sets.new lane) }
{
    keys.fill(u32x16::splat(FAR));
    sets.fill(u8x16::splat(FULL));
    waits.fill(1);
    settle_nearest(scene, keys, sets, waits);
    guess(scene, classes, codes, keys, sets, waits);
    if !take_classes(scene, classes, codes, keys, sets, waits) {
        return false;
    }
    let (near, sources) = (scene.near, u32x16::from_array(scene.sources));
    let plan = Plan {
        order: scene.sorted,
        nearest: 0,
        sweeps: scene.sweeps,
    };
    sweep(near, sources, plan.order, keys, sets, waits);
    repair(near, sources, plan, keys, sets, waits);
    if !none_waits(&waits[..near.len()]) {
        return false;
    }
    are_all_below(&keys[..near.len()], GREATEST_KEY)
}

/// Settles the keys and the sets of the nearest places among themselves.
fn settle_nearest(scene: &Scene, keys: &mut [u32x16], sets: &mut [u8x16], waits: &mut [u8])
    requires near { IsMutual scene.now.near.now }
    requires rows { HasRows scene.now.near.now (lanes_at keys.old sets.old waits.old) }
    requires range { AreInRange keys.old }
{
    let (near, nearest) = (scene.near, scene.nearest);
    let sources = u32x16::from_array(scene.sources);
    let plan = Plan::new(nearest, nearest.len(), scene.sweeps);
    find_keys(near, sources, plan, keys);
    settle(near, sources, nearest, keys, sets, waits);
}

/// Writes the keys and sets that the classes say, and lets all places wait but those inside their classes, which are
/// settled. `false` where there were too many classes, or the reference's costs or the keys are beyond all that a path has.
fn take_classes(
    scene: &Scene,
    classes: &mut Classes,
    codes: &[u32],
    keys: &mut [u32x16],
    sets: &mut [u8x16],
    waits: &mut [u8],
) -> bool
    requires near { IsMutual scene.now.near.now }
    requires rows { HasRows scene.now.near.now (lanes_at keys.old sets.old waits.old) }
    requires costs { length scene.now.costs.now ≡ length scene.now.near.now + 1 }
    requires codes { length codes.now ≡ length scene.now.near.now + 1 }
    requires sources { (lane : ℕ) → lane < 16
        → slice_index scene.now.sources lane < length scene.now.near.now + 1 }
    ensures range { IsTrue result → AreInRange keys.new }
    ensures last { (lane : ℕ) → lane < 16
        → lane_of keys.new lane (length scene.now.near.now) ≡ far }
    ensures settled { IsTrue result → (lane : ℕ) → lane < 16
        → AreSettled scene.now.near.now (slice_index scene.now.sources lane)
        (lane_in (lanes_at keys.new sets.new waits.new) lane) }
{
    let is_in_range = expand(
        scene.costs,
        codes,
        classes.offsets(),
        classes.sets(),
        keys,
        sets,
    );
    if !is_in_range || classes.is_full() || !are_costs(scene.costs) {
        classes.judge(scene.near.len(), scene.near.len());
        return false;
    }
    let borders = mark_borders(scene.near, scene.costs, codes, sets, waits);
    wake(waits, scene.sources);
    classes.judge(borders, scene.near.len());
    true
}

/// Lowers the keys of the nearest places forth and back, and then all keys along the order.
fn find_keys(near: &[[u16; 8]], sources: u32x16, plan: Plan, keys: &mut [u32x16])
    requires near { IsMutual near.now }
    requires rows { length keys.old ≡ length near.now + 1 }
    requires range { AreInRange keys.old }
    ensures range { AreInRange keys.new }
    ensures last { (lane : ℕ) → lane < 16
        → lane_of keys.new lane (length near.now) ≡ lane_of keys.old lane (length near.now) }
{
    let nearest = plan.first(plan.nearest);
    for _ in 0..ROUNDS {
        lower(near, sources, nearest, keys);
        lower_back(near, sources, nearest, keys);
    }
    lower(near, sources, plan.order, keys);
}

/// Settles the nearest places, then ever more of them, and visits all along the order.
fn find_sets(
    near: &[[u16; 8]],
    sources: u32x16,
    plan: Plan,
    keys: &mut [u32x16],
    sets: &mut [u8x16],
    waits: &mut [u8],
)
    requires near { IsMutual near.now }
    requires rows { HasRows near.now (lanes_at keys.old sets.old waits.old) }
    requires range { AreInRange keys.old }
    ensures { IsSwept near.now sources (lanes_at keys.old sets.old waits.old)
        (lanes_at keys.new sets.new waits.new) }
{
    let mut count = plan.nearest;
    for _ in 0..GROWINGS {
        if count > plan.order.len() / 2 {
            break;
        }
        settle(near, sources, plan.first(count), keys, sets, waits);
        count = count.saturating_mul(GROWTH);
    }
    sweep(near, sources, plan.order, keys, sets, waits);
}

/// Visits these places forth and back until few of them wait.
fn settle(
    near: &[[u16; 8]],
    sources: u32x16,
    places: &[u16],
    keys: &mut [u32x16],
    sets: &mut [u8x16],
    waits: &mut [u8],
)
    requires near { IsMutual near.now }
    requires rows { HasRows near.now (lanes_at keys.old sets.old waits.old) }
    requires range { AreInRange keys.old }
    ensures { IsSwept near.now sources (lanes_at keys.old sets.old waits.old)
        (lanes_at keys.new sets.new waits.new) }
{
    for _ in 0..SETTLING {
        let forth = sweep(near, sources, places, keys, sets, waits);
        let back = sweep_back(near, sources, places, keys, sets, waits);
        if forth.wrapping_add(back) < places.len() / FEW {
            return;
        }
    }
}

/// Visits what waits, back and forth, until nothing does or it has been tried so often.
fn repair(
    near: &[[u16; 8]],
    sources: u32x16,
    plan: Plan,
    keys: &mut [u32x16],
    sets: &mut [u8x16],
    waits: &mut [u8],
)
    requires near { IsMutual near.now }
    requires rows { HasRows near.now (lanes_at keys.old sets.old waits.old) }
    requires range { AreInRange keys.old }
    ensures { IsSwept near.now sources (lanes_at keys.old sets.old waits.old)
        (lanes_at keys.new sets.new waits.new) }
{
    for _ in 0..plan.sweeps {
        if none_waits(&waits[..near.len()]) {
            return;
        }
        sweep_back(near, sources, plan.order, keys, sets, waits);
        sweep(near, sources, plan.order, keys, sets, waits);
    }
}

/// Whether no place waits.
fn none_waits(waits: &[u8]) -> bool
    ensures { IsTrue result → (place : ℕ) → slice_index waits.now place ≡ 0 }
{
    waits.iter().all(|wait| *wait == 0)
}

/// Whether all keys are below a limit.
fn are_all_below(keys: &[u32x16], limit: u32) -> bool
    ensures { IsTrue result → (lane place : ℕ) → lane < 16 → place < length keys.now
        → lane_of keys.now lane place < limit }
{
    let mut highest = u32x16::splat(0);
    for row in keys {
        highest = greater(highest, *row);
    }
    !has_beyond(highest, limit)
}
