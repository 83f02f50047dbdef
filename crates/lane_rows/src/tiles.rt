//! Tiles: searches from sixteen sources that are near one another, one in each lane of a vector.
//!
//! A tile takes the nearest wanted places of a component as its sources, finds keys and sets by guesses, and lets each
//! place look at its neighbours until all meet their equations. What the equations say is then exact, whatever was guessed.

ghost use Rattle.std.specs.Prelude.{◌≡◌, ◌≢◌, ℕ, ◌<◌, ◌≤◌, false, true, IfOk, OnOk, IsTrue, length, slice_index, slice_index_or, slice_set, take};
ghost use Rattle.moves.specs.declared.TheConstants.{MAX_PASSABLE};
ghost use Rattle.lane_rows.specs.Rows.{HasFirstSets, HasMoves};
ghost use Rattle.lane_rows.specs.Equations.{lane_of};
ghost use Rattle.lane_rows.specs.Tiles.{AreTaken, IsRowOf, IsSolved};
ghost use Rattle.lane_rows.specs.Packed.{HavePackedRows, words_in};
ghost use Rattle.lane_rows.specs.Completed.{AreCompleted};

use crate::Near;
use crate::classes::FEWEST_PLACES;
use crate::draft::{Draft, Task};
use crate::kernels::{FAR, FULL};
use crate::lane_words::LaneWords;
use crate::order::{Levels, search, search_for};
use crate::packing::pack_lanes;
use crate::reference::least_lane;
use crate::solve::{NEAREST, Plan, solve};
use root_cost::STRAIGHT_KEY;
use std::alloc::{AllocError, Global};
use std::marker::Model;
use std::simd::prelude::*;

/// A lane of the tile before is the reference if its source is at most this far from the first source.
const FARTHEST: u32 = 6 * STRAIGHT_KEY;

/// How many sources a tile has.
pub const LANES: usize = 16;

/// A worker's memory for one tile after the other: 108 bytes a cell, taken once.
#[derive(Drop)]
pub struct Tiles {
    sources: [u16; 16],
    keys: Vec<u32x16>,
    sets: Vec<u8x16>,
    waits: Vec<u8>,
    met: Vec<bool>,
    levels: Levels,
    order: Vec<u16>,
    reach: usize,
    words: LaneWords,
    count: usize,
    draft: Draft,
    /// Whether the sources lie as near to one another as `choose` takes them.
    is_chosen: bool,
    /// Whether the keys are those of a tile that was solved.
    is_solved: bool,
}

impl Model for Tiles {
    ghost use Rattle.lane_rows.specs.Tiles.{HasRoom, Tile};

    ghost Value = { Tile };

    ghost view = { λ t.
        record { count = t.count; sources = t.sources; keys = t.keys.items; sets = t.sets.items; words = t.words } };

    ghost invariant = { λ t.
        HasRoom t.count t.sources t.keys.items t.sets.items t.waits.items t.met.items t.draft };
}

impl Tiles {
    /// Takes all memory for tiles of that many cells.
    ///
    /// # Errors
    ///
    /// `AllocError` where memory runs out.
    pub fn new(alloc: Global, count: usize) -> Result<Tiles, AllocError>
        requires { count ≤ MAX_PASSABLE }
        ensures { IfOk result (λ tiles. tiles.count ≡ count) }
    {
        Ok(Tiles {
            sources: [0; 16],
            keys: vec![in alloc; u32x16::splat(0); count + 1]?,
            sets: vec![in alloc; u8x16::splat(0); count + 1]?,
            waits: vec![in alloc; 0; count + 1]?,
            met: vec![in alloc; false; count + 1]?,
            levels: Levels::new(alloc, count)?,
            order: Vec::with_capacity(alloc, count)?,
            reach: 0,
            words: LaneWords::new(alloc)?,
            count,
            draft: Draft::new(alloc, count)?,
            is_chosen: false,
            is_solved: false,
        })
    }

    /// Takes the wanted places that are nearest to one of them as sources, at most sixteen and none that is far away, and
    /// says how many there are. Where there are fewer than sixteen, the other lanes have the first source too.
    pub fn choose(&mut self, near: &Near, first: u16, wanted: &mut [bool]) -> usize
        requires near { length near.now ≡ self.old.count }
        requires places { length wanted.old ≡ self.old.count }
        requires inside { first < self.old.count }
        requires first { slice_index_or wanted.old first false ≡ true }
        ensures count { self.new.count ≡ self.old.count }
        ensures some { (0 < result) × (result ≤ 16) }
        ensures sources { (lane : ℕ) → lane < 16
            → slice_index self.new.sources lane < self.new.count }
        ensures taken { AreTaken wanted.old wanted.new (take result self.new.sources) }
    {
        search_for(
            near.table(),
            first,
            wanted,
            self.met.as_mut_slice(),
            &mut self.levels,
            &mut self.order,
        );
        let (sources, count) = take_nearest(first, &self.order, wanted);
        self.reach = reach_of(&self.order, sources[count - 1]);
        self.sources = sources;
        self.is_chosen = true;
        count
    }

    /// Takes these places as sources, wherever they lie. A tile whose sources lie far apart takes more time.
    pub fn set_sources(&mut self, sources: [u16; LANES])
        requires inside { (lane : ℕ) → lane < 16 → slice_index sources lane < self.old.count }
        ensures count { self.new.count ≡ self.old.count }
        ensures sources { self.new.sources ≡ sources }
    {
        self.reach = 0;
        self.sources = sources;
        self.is_chosen = false;
    }

    /// The source of a lane.
    pub fn source(&self, lane: usize) -> u16
        requires { lane < 16 }
        ensures { result ≡ slice_index self.now.sources lane }
    {
        self.sources[lane]
    }

    /// Finds keys and sets for the chosen sources; `true` only where all places meet their equations. Where they do not
    /// after so many sweeps back and forth, the rows have to be found in another way.
    pub fn run(&mut self, near: &Near, sweeps: u32) -> bool
        requires near { length near.now ≡ self.old.count }
        ensures count { self.new.count ≡ self.old.count }
        ensures sources { self.new.sources ≡ self.old.sources }
        ensures solved { IsTrue result → IsSolved near.now self.new }
    {
        let is_solved = self.run_by_classes(near, sweeps) || self.run_without(near, sweeps);
        self.is_solved = is_solved;
        is_solved
    }

    /// `run`, without classes of places. It takes fewer steps for sources that stand in a row, each beside the next.
    pub fn run_row(&mut self, near: &Near, sweeps: u32) -> bool
        requires near { length near.now ≡ self.old.count }
        ensures count { self.new.count ≡ self.old.count }
        ensures sources { self.new.sources ≡ self.old.sources }
        ensures solved { IsTrue result → IsSolved near.now self.new }
    {
        let is_solved = self.run_without(near, sweeps);
        self.is_solved = is_solved;
        is_solved
    }

    /// `run`, by classes of places. `false` where the tile has to be solved without them.
    fn run_by_classes(&mut self, near: &Near, sweeps: u32) -> bool
        requires near { length near.now ≡ self.old.count }
        ensures count { self.new.count ≡ self.old.count }
        ensures sources { self.new.sources ≡ self.old.sources }
        ensures solved { IsTrue result → IsSolved near.now self.new }
    {
        if !self.is_chosen || self.count < FEWEST_PLACES || !self.draft.is_wanted() {
            return false;
        }
        self.refer(near);
        let nearest = self
            .order
            .len()
            .min(NEAREST.max(self.reach.wrapping_add(1)));
        let task = Task {
            near: near.table(),
            sources: words_of(self.sources),
            nearest: &self.order.as_slice()[..nearest],
            sweeps,
        };
        self.draft.solve(
            &task,
            self.keys.as_mut_slice(),
            self.sets.as_mut_slice(),
            self.waits.as_mut_slice(),
        )
    }

    /// Finds the costs of the reference, and the order of places by them: the keys of that lane of the tile before whose
    /// source lies nearest, or a search where none is near.
    fn refer(&mut self, near: &Near)
        requires near { length near.now ≡ self.old.count }
        ensures count { self.new.count ≡ self.old.count }
        ensures sources { self.new.sources ≡ self.old.sources }
    {
        let first = self.sources[0];
        let (lane, key) = least_lane(&self.keys, first);
        if self.is_solved && key <= FARTHEST {
            self.draft.copy(&self.keys, lane);
        } else {
            self.draft.search(
                near.table(),
                first,
                self.met.as_mut_slice(),
                &mut self.levels,
            );
        }
    }

    /// `run`, without classes.
    fn run_without(&mut self, near: &Near, sweeps: u32) -> bool
        requires near { length near.now ≡ self.old.count }
        ensures count { self.new.count ≡ self.old.count }
        ensures sources { self.new.sources ≡ self.old.sources }
        ensures solved { IsTrue result → IsSolved near.now self.new }
    {
        search(
            near.table(),
            &self.sources,
            self.met.as_mut_slice(),
            &mut self.levels,
            &mut self.order,
        );
        let plan = Plan::new(self.order.as_slice(), self.reach, sweeps);
        solve(
            near.table(),
            lanes_of(self.sources),
            plan,
            self.keys.as_mut_slice(),
            self.sets.as_mut_slice(),
            self.waits.as_mut_slice(),
        )
    }

    /// Writes the sets of one lane by places, with all moves at the source.
    pub fn sets_of(&self, lane: usize, row: &mut [u8])
        requires lane { lane < 16 }
        requires row { length row.old ≡ self.now.count }
        requires source { slice_index self.now.sources lane < self.now.count }
        ensures first { HasFirstSets self.now lane row.new }
        ensures some { HasMoves self.now row.new }
    {
        self.write_row(lane, row);
    }

    /// Gives each lane's source all moves in that lane, as a path without moves has any first move.
    pub fn complete(&mut self)
        requires { (lane : ℕ) → lane < 16 → slice_index self.old.sources lane < self.old.count }
        ensures count { self.new.count ≡ self.old.count }
        ensures sources { self.new.sources ≡ self.old.sources }
        ensures completed { AreCompleted self.old self.new }
    {
        fill_own(self.sets.as_mut_slice(), self.sources);
    }

    /// The sets of all lanes by places, as they stand.
    pub fn sets(&self) -> &[u8x16]
        ensures { result.now ≡ take self.now.count self.now.sets }
    {
        &self.sets[..self.count]
    }

    /// The keys of all lanes by places, as they stand.
    pub fn keys(&self) -> &[u32x16]
        ensures keys { result.now ≡ take self.now.count self.now.keys }
        ensures len { length result.now ≡ self.now.count }
    {
        &self.keys[..self.count]
    }

    /// Packs the rows of all lanes, each with all moves at its source. The sets are completed by it.
    ///
    /// # Errors
    ///
    /// `AllocError` where memory runs out. Only the words are of no use then, and the tile may be packed again.
    pub fn pack(&mut self) -> Result<(), AllocError>
        requires some { 0 < self.old.count }
        requires sources { (lane : ℕ) → lane < 16
            → slice_index self.old.sources lane < self.old.count }
        ensures count { self.new.count ≡ self.old.count }
        ensures sources { self.new.sources ≡ self.old.sources }
        ensures rows { OnOk result (HavePackedRows self.old self.new.words) }
        ensures completed { AreCompleted self.old self.new }
    {
        fill_own(self.sets.as_mut_slice(), self.sources);
        pack_lanes(&self.sets[..self.count], &mut self.words)?;
        Ok(())
    }

    /// The words of the packed row of a lane, one a run.
    pub fn words(&self, lane: usize) -> &[u32]
        requires { lane < 16 }
        ensures { result.now ≡ words_in self.now.words lane }
    {
        self.words.of(lane)
    }

    /// Writes the sets of one lane as they stand, with all moves at the source.
    fn write_row(&self, lane: usize, row: &mut [u8])
        requires lane { lane < 16 }
        requires row { length row.old ≡ self.now.count }
        requires source { slice_index self.now.sources lane < self.now.count }
        ensures row { IsRowOf self.now lane row.new }
        ensures bytes { (place : ℕ) → slice_index row.new place < 256 }
    {
        gather(&self.sets, lane, row);
        row[usize::from(self.sources[lane])] = FULL;
    }
}

/// The sources as keys, to be compared with places.
fn lanes_of(sources: [u16; 16]) -> u32x16
    ensures { (lane : ℕ) → lane < 16 → slice_index result lane ≡ slice_index sources lane }
{
    u32x16::from_array(words_of(sources))
}

/// The sources as words.
fn words_of(sources: [u16; 16]) -> [u32; 16]
    ensures { (lane : ℕ) → lane < 16 → slice_index result lane ≡ slice_index sources lane }
{
    let mut lanes = [0; 16];
    for lane in 0..LANES {
        lanes[lane] = u32::from(sources[lane]);
    }
    lanes
}

/// How many places of an order come before the last source that was taken.
fn reach_of(order: &[u16], last: u16) -> usize {
    order.iter().position(|place| *place == last).unwrap_or(0)
}

/// The first wanted places of an order, at most sixteen, after one that comes before them all.
fn take_nearest(first: u16, order: &[u16], wanted: &mut [bool]) -> ([u16; 16], usize)
    requires inside { first < length wanted.old }
    requires first { slice_index_or wanted.old first false ≡ true }
    ensures some { (0 < result.1) × (result.1 ≤ 16) }
    ensures sources { (lane : ℕ) → lane < 16 → slice_index result.0 lane < length wanted.old }
    ensures taken { AreTaken wanted.old wanted.new (take result.1 result.0) }
{
    let mut sources = [first; 16];
    let mut count = 1;
    give_up(wanted, first);
    for place in order {
        if count == LANES {
            break;
        }
        if is_wanted(wanted, *place) {
            give_up(wanted, *place);
            sources[count] = *place;
            count += 1;
        }
    }
    (sources, count)
}

/// Whether it is a place that is wanted.
fn is_wanted(wanted: &[bool], place: u16) -> bool
    ensures { IsTrue result → (place < length wanted.now)
        × (slice_index_or wanted.now place false ≡ true) }
{
    usize::from(place) < wanted.len() && wanted[usize::from(place)]
}

/// The place is no longer wanted.
fn give_up(wanted: &mut [bool], place: u16)
    requires { place < length wanted.old }
    ensures { wanted.new ≡ slice_set wanted.old place false }
{
    wanted[usize::from(place)] = false;
}

/// Gives each lane's source all moves in that lane: a path without moves has any first move.
fn fill_own(sets: &mut [u8x16], sources: [u16; 16])
    requires { (lane : ℕ) → lane < 16 → slice_index sources lane < length sets.old }
    ensures own { (lane : ℕ) → lane < 16
        → lane_of sets.new lane (slice_index sources lane) ≡ 255 }
    ensures others { (lane place : ℕ) → lane < 16 → place ≢ slice_index sources lane
        → lane_of sets.new lane place ≡ lane_of sets.old lane place }
{
    for lane in 0..LANES {
        let at = usize::from(sources[lane]);
        sets[at] = with_all(sets[at], lane);
    }
}

/// The sets with all moves in one lane.
fn with_all(set: u8x16, lane: usize) -> u8x16
    requires { lane < 16 }
    ensures own { slice_index result lane ≡ 255 }
    ensures others { (other : ℕ) → other ≢ lane → slice_index result other ≡ slice_index set other }
{
    let mut moves = set.to_array();
    moves[lane] = FULL;
    u8x16::from_array(moves)
}

/// Copies the sets of one lane.
fn gather(sets: &[u8x16], lane: usize, row: &mut [u8])
    requires lane { lane < 16 }
    requires room { length row.old < length sets.now }
    ensures { (place : ℕ) → place < length row.new
        → slice_index row.new place ≡ lane_of sets.now lane place }
{
    for place in 0..row.len() {
        row[place] = sets[place].as_array()[lane];
    }
}
