//! What is known of each cell of the shorter list, and how a pair of tiles tells more of it.

ghost use Rattle.std.specs.Prelude.{◌≡◌, ℕ, ◌-◌, ◌+◌, ◌<◌, ◌≤◌, ◌⊎◌, IsBitSet, IsTrue, IsFalse, IfSome, length, slice_index, slice_index_or};
ghost use Rattle.kept_rows.specs.Verdicts.{AreJudged, Holds, IsOpen, IsStage};
ghost use Rattle.kept_rows.specs.declared.verdict.Verdict.TheVariants.{Kept, Lost};

use crate::ball::MAX_BALL;
use crate::gap::place_past;
use crate::pair::Pair;
use lane_rows::LANES;

/// What is known of a cell.
#[derive(Clone, Copy, Debug, PartialEq, Eq)]
pub(crate) enum Verdict {
    /// A first set to some cell of the ball has changed.
    Lost,
    /// The first sets to all cells of the ball stay, and the costs to those whose bits are set.
    Open(u64),
    /// The first sets to all cells stay.
    Kept,
}

/// How a ball has grown: how many cells it had before the last pair of tiles, the bits of those cells of it now from
/// which a move leads out of it, and whether all cells beside those of the gaps are in it.
#[derive(Clone, Copy, Debug)]
pub(crate) struct Stage {
    pub former: usize,
    pub marks: u64,
    pub is_round: bool,
}

/// Tells more of all cells, by a pair of tiles from the last cells of the ball.
pub(crate) fn judge_all(pair: &Pair, ball: &[u16], stage: Stage, verdicts: &mut Vec<Verdict>)
    requires stage { IsStage pair.now.whole pair.now.part pair.now.gaps.now ball.now
        stage.former stage.marks stage.is_round }
    requires judged { AreJudged pair.now.whole.cells pair.now.part.cells ball.now
        stage.former verdicts.old.items }
    ensures { AreJudged pair.now.whole.cells pair.now.part.cells ball.now
        (length ball.now) verdicts.new.items }
{
    for place in 0..verdicts.len() {
        let verdict = verdict_at(verdicts, place);
        verdicts[place] = judge(pair, ball, stage, place, verdict);
    }
}

/// The verdict of a place.
pub(crate) fn verdict_at(verdicts: &[Verdict], place: usize) -> Verdict
    requires { place < length verdicts.now }
    ensures { result ≡ slice_index_or verdicts.now place Lost }
{
    verdicts[place]
}

/// Whether the first sets of a cell stay.
pub(crate) fn is_kept(verdict: Verdict) -> bool
    ensures { IsTrue result → verdict ≡ Kept }
{
    matches!(verdict, Verdict::Kept)
}

/// Whether the first sets of some cell stay.
pub(crate) fn has_kept(verdicts: &[Verdict]) -> bool {
    for verdict in verdicts.iter() {
        if is_kept(*verdict) {
            return true;
        }
    }
    false
}

/// Tells more of a cell.
fn judge(pair: &Pair, ball: &[u16], stage: Stage, place: usize, verdict: Verdict) -> Verdict
    requires stage { IsStage pair.now.whole pair.now.part pair.now.gaps.now ball.now
        stage.former stage.marks stage.is_round }
    requires place { place < length pair.now.part.cells }
    requires holds { Holds pair.now.whole.cells pair.now.part.cells ball.now
        stage.former place verdict }
    ensures { Holds pair.now.whole.cells pair.now.part.cells ball.now
        (length ball.now) place result }
{
    match verdict {
        Verdict::Lost => Verdict::Lost,
        Verdict::Open(costs) => decide(pair, ball, stage, place, costs),
        Verdict::Kept => Verdict::Kept,
    }
}

/// Tells more of a cell of which nothing is decided.
fn decide(pair: &Pair, ball: &[u16], stage: Stage, place: usize, costs: u64) -> Verdict
    requires stage { IsStage pair.now.whole pair.now.part pair.now.gaps.now ball.now
        stage.former stage.marks stage.is_round }
    requires place { place < length pair.now.part.cells }
    requires open { IsOpen pair.now.whole.cells pair.now.part.cells ball.now
        stage.former place costs }
    ensures { Holds pair.now.whole.cells pair.now.part.cells ball.now
        (length ball.now) place result }
{
    let Some(costs) = compare(pair, ball, stage, place, costs) else {
        return Verdict::Lost;
    };
    if stage.is_round && has_all(costs, stage.marks) {
        Verdict::Kept
    } else {
        Verdict::Open(costs)
    }
}

/// Compares first sets and costs from a cell to the last cells of the ball: the bits of all cells of the ball to which
/// costs stay, or `None` where a first set differs.
fn compare(pair: &Pair, ball: &[u16], stage: Stage, place: usize, costs: u64) -> Option<u64>
    requires stage { IsStage pair.now.whole pair.now.part pair.now.gaps.now ball.now
        stage.former stage.marks stage.is_round }
    requires place { place < length pair.now.part.cells }
    requires open { IsOpen pair.now.whole.cells pair.now.part.cells ball.now
        stage.former place costs }
    ensures { IfSome result (IsOpen pair.now.whole.cells pair.now.part.cells ball.now
        (length ball.now) place) }
{
    let count = ball.len() - stage.former;
    let there = place_past(pair.gaps, place);
    let sets = pair.whole.first_sets(there);
    if differ(sets, pair.part.first_sets(place), count) {
        return None;
    }
    let keys = pair.whole.keys(there);
    Some(with_equal(costs, stage.former, keys, pair.part.keys(place), count))
}

/// Whether two sets differ in one of the first lanes.
fn differ(a: [u8; LANES], b: [u8; LANES], count: usize) -> bool
    requires { count ≤ 16 }
    ensures { IsFalse result → (lane : ℕ) → lane < count → slice_index a lane ≡ slice_index b lane }
{
    for lane in 0..count {
        if a[lane] != b[lane] {
            return true;
        }
    }
    false
}

/// The bits, and those of the first lanes in which two keys are equal, from one bit on.
fn with_equal(bits: u64, from: usize, a: [u32; LANES], b: [u32; LANES], count: usize) -> u64
    requires lanes { count ≤ 16 }
    requires few { from + count ≤ MAX_BALL }
    ensures { (index : ℕ) → IsBitSet result index → IsBitSet bits index ⊎ ((from ≤ index)
        × (index < from + count) × (slice_index a (index - from) ≡ slice_index b (index - from))) }
{
    let mut all = bits;
    for lane in 0..count {
        all = with_bit(all, from + lane, a[lane] == b[lane]);
    }
    all
}

/// The bits, and one more where it is to be set.
#[tactic(auto, using(crate::proofs::Bits::bit_there, crate::proofs::Bits::bit_still, crate::proofs::Bits::bit_from))]
pub(crate) fn with_bit(bits: u64, index: usize, set: bool) -> u64
    requires { index < MAX_BALL }
    ensures only { (other : ℕ) → IsBitSet result other
        → IsBitSet bits other ⊎ ((other ≡ index) × IsTrue set) }
    ensures still { (other : ℕ) → IsBitSet bits other → IsBitSet result other }
    ensures there { IsTrue set → IsBitSet result index }
{
    if set { bits | 1 << index } else { bits }
}

/// Whether all bits of a mask are set.
#[tactic(auto, using(crate::proofs::Bits::all_of_mask))]
fn has_all(bits: u64, mask: u64) -> bool
    ensures { IsTrue result → (index : ℕ) → IsBitSet mask index → IsBitSet bits index }
{
    bits & mask == mask
}

/// How many cells nothing is decided of.
pub(crate) fn count_open(verdicts: &[Verdict]) -> usize {
    let mut count = 0usize;
    for verdict in verdicts.iter() {
        if matches!(verdict, Verdict::Open(_)) {
            count += 1;
        }
    }
    count
}

/// For each bit of the marks the number of undecided cells whose costs do not stay there.
pub(crate) fn fails_of(verdicts: &[Verdict], marks: u64) -> [u32; MAX_BALL] {
    let mut fails = [0u32; MAX_BALL];
    for verdict in verdicts.iter() {
        add_fails(&mut fails, missing(*verdict, marks));
    }
    fails
}

/// The bits that an undecided cell lacks.
fn missing(verdict: Verdict, marks: u64) -> u64 {
    match verdict {
        Verdict::Open(costs) => marks & !costs,
        Verdict::Lost | Verdict::Kept => 0,
    }
}

/// Makes each number one greater where its bit is set.
fn add_fails(fails: &mut [u32; MAX_BALL], bits: u64) {
    if bits == 0 {
        return;
    }
    for index in 0..MAX_BALL {
        if bits >> index & 1 == 1 {
            fails[index] = fails[index].wrapping_add(1);
        }
    }
}

/// How many cells of a side nothing is decided of.
pub(crate) fn count_open_in(verdicts: &[Verdict], side: &[bool]) -> usize {
    let mut count = 0usize;
    for (verdict, is_in) in verdicts.iter().zip(side) {
        if *is_in && matches!(verdict, Verdict::Open(_)) {
            count = count.saturating_add(1);
        }
    }
    count
}
