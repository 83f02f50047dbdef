//! Two lists of cells of which the one has some cells more, with a tile over each from the same cells.

ghost use Rattle.std.specs.Prelude.{◌≡◌, ℕ, ◌<◌, ◌≤◌, List, IfOk, IfSome, IsTrue, length, slice_index};
ghost use Rattle.kept_rows.specs.Gaps.{IsPart};
ghost use Rattle.kept_rows.specs.Targets.{AreGapLanes, AreMoved};
ghost use Rattle.kept_rows.specs.Pairs.{CanBePair, IsPair, IsSearched};
ghost use Rattle.kept_rows.specs.Staying.{AreFirstSetsOfAll, AreLastSets, AreSetsToGapsOfAll};

use crate::gap::{MAX_GAPS, place_past};
use crate::side::Side;
use crate::targets::SHARED_LANES;
use lane_rows::LANES;
use moves::MAX_PASSABLE;
use std::alloc::{AllocError, Global};

/// A tile over either list, from the same cells. In the last lane the longer list has the cell of the first gap.
#[derive(Drop)]
pub(crate) struct Pair<'a> {
    pub whole: Side<'a>,
    pub part: Side<'a>,
    /// The places of the longer list's cells that the shorter one has not.
    pub gaps: &'a [usize],
}

impl<'a> Pair<'a> {
    /// Solves both tiles from these places of the shorter list, and says whether that was done.
    pub(crate) fn search(&mut self, sources: [u16; LANES]) -> bool
        requires can { CanBePair self.old.whole self.old.part self.old.gaps.now }
        requires inside { (lane : ℕ) → lane < 16
            → slice_index sources lane < length self.old.part.cells }
        ensures can { CanBePair self.new.whole self.new.part self.new.gaps.now }
        ensures gaps { self.new.gaps.now ≡ self.old.gaps.now }
        ensures whole { self.new.whole.cells ≡ self.old.whole.cells }
        ensures part { self.new.part.cells ≡ self.old.part.cells }
        ensures sources { self.new.part.tile.sources ≡ sources }
        ensures searched { IsTrue result → IsPair self.new.whole self.new.part self.new.gaps.now }
    {
        let places = moved(sources, self.gaps);
        let whole = self.whole.search(places);
        let part = self.part.search(sources);
        whole && part
    }
}

/// The sources over the longer list: the same cells, and in the last lane that of the first gap.
pub(crate) fn moved(sources: [u16; LANES], gaps: &[usize]) -> [u16; LANES]
    requires inside { (lane : ℕ) → lane < 16 → slice_index sources lane < MAX_PASSABLE }
    requires some { 0 < length gaps.now }
    requires few { length gaps.now ≤ MAX_GAPS }
    requires first { slice_index gaps.now 0 < 65536 }
    ensures { AreMoved gaps.now sources result }
{
    let mut places = [gaps[0] as u16; LANES];
    for lane in 0..SHARED_LANES {
        places[lane] = place_past(gaps, usize::from(sources[lane])) as u16;
    }
    places
}

/// The first sets from all places of the shorter list to the cells of all lanes, over the longer one.
///
/// # Errors
///
/// `AllocError` where memory runs out.
pub(crate) fn sets_of(alloc: Global, pair: &Pair) -> Result<Vec<[u8; LANES]>, AllocError>
    requires searched { IsPair pair.now.whole pair.now.part pair.now.gaps.now }
    ensures { IfOk result (λ sets. AreFirstSetsOfAll pair.now.whole.cells pair.now.part.cells
        pair.now.gaps.now pair.now.part.tile.sources sets.items) }
{
    let count = pair.part.cells().len();
    let mut sets = Vec::with_capacity(alloc, count)?;
    for place in 0..count {
        sets.push(pair.whole.first_sets(place_past(pair.gaps, place)))?;
    }
    Ok(sets)
}

/// The first sets from all places of the shorter list to the cells of all gaps, over the longer one, each by the number
/// of its gap. Of one gap the last lane of the first pair tells, whose sources and sets these are; for more a tile is
/// solved over the longer list, and it is `None` where it is not.
///
/// # Errors
///
/// `AllocError` where memory runs out.
pub(crate) fn sets_to_gaps(
    alloc: Global,
    pair: &mut Pair,
    sources: [u16; LANES],
    sets: &[[u8; LANES]],
) -> Result<Option<Vec<[u8; LANES]>>, AllocError>
    requires can { CanBePair pair.old.whole pair.old.part pair.old.gaps.now }
    requires known { AreFirstSetsOfAll pair.old.whole.cells pair.old.part.cells pair.old.gaps.now
        sources sets.now }
    ensures { IfOk result (λ found. IfSome found (λ own. AreSetsToGapsOfAll pair.old.whole.cells
        pair.old.part.cells pair.old.gaps.now sources own.items)) }
{
    // The sources are here for the contract alone.
    let _ = sources;
    if pair.gaps.len() == 1 {
        return Ok(Some(last_sets(alloc, sets)?));
    }
    let lanes = gap_lanes(pair.gaps);
    if !pair.whole.search(lanes) {
        return Ok(None);
    }
    Ok(Some(sets_of_lanes(alloc, pair)?))
}

/// The set of the last lane, in all lanes.
fn last_sets(alloc: Global, sets: &[[u8; LANES]]) -> Result<Vec<[u8; LANES]>, AllocError>
    ensures { IfOk result (λ own. AreLastSets sets.now own.items) }
{
    let mut own = Vec::with_capacity(alloc, sets.len())?;
    for lanes in sets.iter() {
        own.push([lanes[SHARED_LANES]; LANES])?;
    }
    Ok(own)
}

/// The cells of all gaps, one in each lane, and that of the first in the others.
fn gap_lanes(gaps: &[usize]) -> [u16; LANES]
    requires some { 0 < length gaps.now }
    requires inside { (number : ℕ) → number < length gaps.now
        → slice_index gaps.now number < 65536 }
    ensures same { (lane : ℕ) → lane < 16 → lane < length gaps.now
        → slice_index result lane ≡ slice_index gaps.now lane }
    ensures others { (lane : ℕ) → lane < 16 → length gaps.now ≤ lane
        → slice_index result lane ≡ slice_index gaps.now 0 }
{
    let mut lanes = [gaps[0] as u16; LANES];
    for lane in 0..LANES {
        if lane < gaps.len() {
            lanes[lane] = gaps[lane] as u16;
        }
    }
    lanes
}

/// The first sets from all places of the shorter list to the cells of all lanes of the tile over the longer one.
fn sets_of_lanes(alloc: Global, pair: &Pair) -> Result<Vec<[u8; LANES]>, AllocError>
    requires cells { IsPart pair.now.whole.cells pair.now.part.cells pair.now.gaps.now }
    requires searched { IsSearched pair.now.whole }
    requires lanes { AreGapLanes pair.now.whole.cells pair.now.gaps.now
        pair.now.whole.tile.sources }
    ensures { IfOk result (λ own. (sources : List ℕ) → AreSetsToGapsOfAll pair.now.whole.cells
        pair.now.part.cells pair.now.gaps.now sources own.items) }
{
    let count = pair.part.cells().len();
    let mut own = Vec::with_capacity(alloc, count)?;
    for place in 0..count {
        own.push(pair.whole.first_sets(place_past(pair.gaps, place)))?;
    }
    Ok(own)
}
