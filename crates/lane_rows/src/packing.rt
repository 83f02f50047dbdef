//! Packing from the lanes: the rows of all sixteen sources at once, in one pass over the places. A lane's run reaches as
//! far as its sets have a common move, and keeps the least of them. (Strasser, Harabor and Botea 2014)

ghost use Rattle.std.specs.Prelude.{◌≡◌, ◌≢◌, ℕ, ◌<◌, ◌≤◌, length, slice_index, OnOk};
ghost use Rattle.run_pack.specs.Sets.{IsShared, IsLeastIn};
ghost use Rattle.run_pack.specs.Runs.{run_of_word};
ghost use Rattle.lane_rows.specs.Packed.{ArePackedLanes, AreCut, sets_in};

use crate::LANES;
use crate::kernels::{FULL, has_empty};
use crate::lane_words::LaneWords;
use run_pack::{MAX_PLACES, least_word};
use std::alloc::AllocError;
use std::simd::prelude::*;

/// Packs the sets of each lane into a row of words, in the place of all words that were there.
///
/// # Errors
///
/// `AllocError` where memory runs out. The words of each lane are then those of its first runs, or one fewer; the sets are
/// as before.
pub fn pack_lanes(sets: &[u8x16], words: &mut LaneWords) -> Result<(), AllocError>
    requires some { 0 < length sets.now }
    requires few { length sets.now ≤ MAX_PLACES }
    ensures packed { OnOk result (ArePackedLanes sets.now words.new) }
    ensures bytes { OnOk result ((lane place : ℕ) → lane < 16
        → slice_index (sets_in sets.now lane) place < 256) }
{
    words.clear();
    let mut starts = [0; LANES];
    let mut common = u8x16::splat(FULL);
    for (place, set) in sets.iter().enumerate() {
        let kept = met(common, *set);
        if has_empty(kept) {
            cut(words, &mut starts, common, kept, place as u32)?;
            common = renewed(kept, *set);
        } else {
            common = kept;
        }
    }
    cut(
        words,
        &mut starts,
        common,
        u8x16::splat(0),
        sets.len() as u32,
    )?;
    Ok(())
}

/// The moves that are in both sets, in each lane.
#[inline(always)]
fn met(a: u8x16, b: u8x16) -> u8x16
    ensures shared { (lane : ℕ) → lane < 16
        → IsShared (slice_index result lane) (slice_index a lane) (slice_index b lane) }
    ensures byte { (lane : ℕ) → lane < 16 → slice_index b lane < 256 }
{
    a & b
}

/// What is kept, and the new set in the lanes where nothing is.
#[inline(always)]
fn renewed(kept: u8x16, set: u8x16) -> u8x16
    ensures kept { (lane : ℕ) → lane < 16 → slice_index kept lane ≢ 0
        → slice_index result lane ≡ slice_index kept lane }
    ensures new { (lane : ℕ) → lane < 16 → slice_index kept lane ≡ 0
        → slice_index result lane ≡ slice_index set lane }
{
    kept.simd_eq(u8x16::splat(0)).select(set, kept)
}

/// Ends the runs of the lanes in which nothing is kept. The next ones start at the place.
///
/// # Errors
///
/// `AllocError` where memory runs out.
fn cut(
    words: &mut LaneWords,
    starts: &mut [u32; 16],
    common: u8x16,
    kept: u8x16,
    place: u32,
) -> Result<(), AllocError>
    requires lists { length words.old ≡ 16 }
    requires starts { (lane : ℕ) → lane < 16 → slice_index starts.old lane < MAX_PLACES }
    ensures { OnOk result (
        AreCut words.old words.new starts.old starts.new common kept place) }
{
    let (common, kept) = (common.to_array(), kept.to_array());
    for lane in 0..LANES {
        if kept[lane] == 0 {
            words.push(lane, run_word(starts[lane], common[lane]))?;
            starts[lane] = place;
        }
    }
    Ok(())
}

/// The word of a run that starts at a place and keeps the least of these moves, or 0 where there is none.
#[inline(always)]
fn run_word(start: u32, moves: u8) -> u32
    requires { start < MAX_PLACES }
    ensures start { 0 < moves → (run_of_word result).start ≡ start }
    ensures least { 0 < moves → IsLeastIn moves (run_of_word result).mv }
{
    if moves == 0 {
        return 0;
    }
    least_word(start, moves)
}
