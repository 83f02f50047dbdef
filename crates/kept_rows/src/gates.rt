//! What gates tell: whether the first sets of a source stay beyond them.

ghost use Rattle.std.specs.Prelude.{◌≡◌, ℕ, ◌+◌, ◌<◌, ◌≤◌, ◌↔◌, All, IfSome, IsTrue, OnOk, length, slice_index};
ghost use Rattle.moves.specs.declared.Move.{Move};
ghost use Rattle.moves.specs.MoveSets.{Has};
ghost use Rattle.lane_rows.specs.Tables.{end_of};
ghost use Rattle.kept_rows.specs.Targets.{IsAmong};
ghost use Rattle.kept_rows.specs.Pairs.{IsPair};
ghost use Rattle.kept_rows.specs.Surveys.{CanSearch, HasSameLists};
ghost use Rattle.kept_rows.specs.Staying.{AllStay};
ghost use Rattle.kept_rows.specs.Gates.{AgreesAtGates, AreClasses, AreGates, IsByLeast, IsClassKept, IsLeftByLanes, IsLow, IsRepeated, IsRepeatedClass, KeepsJudged, LeadOnlyBack, LeadsBack};

use crate::ball::is_among;
use crate::classes::{Class, MOST_TO_GATE, are_repeated, classes_of, gate_keys, repeats_key};
use crate::cuts::Cut;
use crate::gap::{MAX_GAPS, place_before, place_past};
use crate::pair::Pair;
use crate::side::Side;
use crate::targets::SHARED_LANES;
use crate::verdict::Verdict;
use lane_rows::LANES;
use moves::MAX_PASSABLE;
use std::alloc::{AllocError, Global};

/// What leads from a place to the gates: the keys of the ways, and the first sets.
#[derive(Clone, Copy, Debug)]
struct Ways {
    keys: [u32; LANES],
    sets: [u8; LANES],
}

/// Solves a pair of tiles from the gates of a cut, and marks all undecided cells of which they tell that their first
/// sets stay.
///
/// # Errors
///
/// `AllocError` where memory runs out.
pub(crate) fn ask_gates(
    alloc: Global,
    pair: &mut Pair,
    cut: &Cut,
    verdicts: &mut Vec<Verdict>,
) -> Result<(), AllocError>
    requires can { CanSearch pair.old }
    requires size { length verdicts.old.items ≡ length pair.old.part.cells }
    ensures still { HasSameLists pair.old pair.new }
    ensures judged { OnOk result (KeepsJudged pair.old.whole.cells pair.old.part.cells
        verdicts.old.items verdicts.new.items) }
{
    if !cut.is_of(pair.part.cells().len()) || !pair.search(cut.gates) {
        return Ok(());
    }
    keep_beyond(alloc, pair, cut, verdicts)
}

/// Marks the cells that stay, once the tiles are solved.
fn keep_beyond(
    alloc: Global,
    pair: &Pair,
    cut: &Cut,
    verdicts: &mut Vec<Verdict>,
) -> Result<(), AllocError>
    requires both { IsPair pair.now.whole pair.now.part pair.now.gaps.now }
    requires gates { pair.now.part.tile.sources ≡ cut.now.gates }
    requires side { length cut.now.side.items ≡ length pair.now.part.cells }
    requires size { length verdicts.old.items ≡ length pair.now.part.cells }
    ensures { OnOk result (KeepsJudged pair.now.whole.cells pair.now.part.cells
        verdicts.old.items verdicts.new.items) }
{
    if !is_left_by_gates(&pair.whole, pair.gaps, cut) {
        return Ok(());
    }
    if let Some(classes) = classes_of(alloc, pair, cut)? {
        keep_by_gates(pair, cut, &classes, verdicts);
    }
    Ok(())
}

/// Marks the cells that stay, by gates and classes.
fn keep_by_gates(pair: &Pair, cut: &Cut, classes: &[Class], verdicts: &mut Vec<Verdict>)
    requires are_gates { AreGates pair.now.whole pair.now.part pair.now.gaps.now cut.now.side.items }
    requires gates { pair.now.part.tile.sources ≡ cut.now.gates }
    requires side { length cut.now.side.items ≡ length pair.now.part.cells }
    requires classes { AreClasses pair.now.whole pair.now.part pair.now.gaps.now cut.now.side.items
        classes.now }
    requires size { length verdicts.old.items ≡ length pair.now.part.cells }
    ensures { KeepsJudged pair.now.whole.cells pair.now.part.cells
        verdicts.old.items verdicts.new.items }
{
    if !are_repeated(classes, cut.count) {
        return;
    }
    for place in 0..verdicts.len() {
        keep_if_stays(pair, cut, classes, place, verdicts);
    }
}

/// Marks a cell if it is undecided and stays, by gates and classes.
fn keep_if_stays(
    pair: &Pair,
    cut: &Cut,
    classes: &[Class],
    place: usize,
    verdicts: &mut Vec<Verdict>,
)
    requires are_gates { AreGates pair.now.whole pair.now.part pair.now.gaps.now cut.now.side.items }
    requires gates { pair.now.part.tile.sources ≡ cut.now.gates }
    requires side { length cut.now.side.items ≡ length pair.now.part.cells }
    requires classes { AreClasses pair.now.whole pair.now.part pair.now.gaps.now cut.now.side.items
        classes.now }
    requires repeated { All (IsRepeatedClass cut.now.count) classes.now }
    requires size { length verdicts.old.items ≡ length pair.now.part.cells }
    requires place { place < length pair.now.part.cells }
    ensures size { length verdicts.new.items ≡ length verdicts.old.items }
    ensures judged { KeepsJudged pair.now.whole.cells pair.now.part.cells
        verdicts.old.items verdicts.new.items }
{
    if is_open(verdicts, place) && stays_by_gates(pair, cut, classes, place) {
        verdicts[place] = Verdict::Kept;
    }
}

/// Whether nothing is decided of a place.
fn is_open(verdicts: &[Verdict], place: usize) -> bool
    requires { place < length verdicts.now }
{
    matches!(verdicts[place], Verdict::Open(_))
}

/// Whether gates and classes tell that all first sets from a place of the shorter list stay.
fn stays_by_gates(pair: &Pair, cut: &Cut, classes: &[Class], place: usize) -> bool
    requires are_gates { AreGates pair.now.whole pair.now.part pair.now.gaps.now cut.now.side.items }
    requires gates { pair.now.part.tile.sources ≡ cut.now.gates }
    requires side { length cut.now.side.items ≡ length pair.now.part.cells }
    requires classes { AreClasses pair.now.whole pair.now.part pair.now.gaps.now cut.now.side.items
        classes.now }
    requires repeated { All (IsRepeatedClass cut.now.count) classes.now }
    requires place { place < length pair.now.part.cells }
    ensures { IsTrue result
        → AllStay pair.now.whole.cells pair.now.part.cells place }
{
    if !cut.side[place] || is_among(&cut.gates, SHARED_LANES, place) {
        return false;
    }
    match ways_to_gates(pair, place) {
        Some(ways) => are_kept(&ways, classes, cut.count),
        None => false,
    }
}

/// What leads from a place to the gates, where that is the same over both lists and no way is too long.
fn ways_to_gates(pair: &Pair, place: usize) -> Option<Ways>
    requires both { IsPair pair.now.whole pair.now.part pair.now.gaps.now }
    requires place { place < length pair.now.part.cells }
    requires apart { IsAmong pair.now.part.tile.sources 15 place → ⊥ }
    ensures { IfSome result (λ ways. AgreesAtGates pair.now.whole pair.now.part pair.now.gaps.now place
        ways.keys ways.sets) }
{
    let there = place_past(pair.gaps, place);
    let Some(keys) = gate_keys(&pair.whole, there) else {
        return None;
    };
    let sets = pair.whole.first_sets(there);
    if are_equal_keys(keys, pair.part.keys(place))
        && are_equal_sets(sets, pair.part.first_sets(place))
    {
        Some(Ways { keys, sets })
    } else {
        None
    }
}

/// Whether the keys of the gates are the same.
fn are_equal_keys(a: [u32; LANES], b: [u32; LANES]) -> bool
    ensures { IsTrue result → (lane : ℕ) → lane < 15 → slice_index a lane ≡ slice_index b lane }
{
    for lane in 0..SHARED_LANES {
        if a[lane] != b[lane] {
            return false;
        }
    }
    true
}

/// Whether the sets of the gates are the same.
fn are_equal_sets(a: [u8; LANES], b: [u8; LANES]) -> bool
    ensures { IsTrue result → (lane : ℕ) → lane < 15 → slice_index a lane ≡ slice_index b lane }
{
    for lane in 0..SHARED_LANES {
        if a[lane] != b[lane] {
            return false;
        }
    }
    true
}

/// Whether the first sets to the places of each class stay.
fn are_kept(ways: &Ways, classes: &[Class], count: usize) -> bool
    requires keys { (lane : ℕ) → lane < 15 → slice_index ways.now.keys lane ≤ MOST_TO_GATE }
    requires low { All IsLow classes.now }
    requires repeated { All (IsRepeatedClass count) classes.now }
    ensures { IsTrue result → All (IsClassKept ways.now.keys ways.now.sets) classes.now }
{
    if !repeats_key(ways.keys, count) || !repeats_set(ways.sets, count) {
        return false;
    }
    for class in classes.iter() {
        if !is_kept(ways, class, count) {
            return false;
        }
    }
    true
}

/// Whether the sets behind so many lanes are that of the last of these.
fn repeats_set(sets: [u8; LANES], count: usize) -> bool
    ensures { IsTrue result → IsRepeated count sets }
{
    if count == 0 || count > SHARED_LANES {
        return false;
    }
    for lane in count..SHARED_LANES {
        if sets[lane] != sets[count - 1] {
            return false;
        }
    }
    true
}

/// Whether the first sets to the places of a class stay.
#[inline(always)]
fn is_kept(ways: &Ways, class: &Class, count: usize) -> bool
    requires keys { (lane : ℕ) → lane < 15 → slice_index ways.now.keys lane ≤ MOST_TO_GATE }
    requires low { IsLow class.now }
    requires keys_repeated { IsRepeated count ways.now.keys }
    requires sets_repeated { IsRepeated count ways.now.sets }
    requires repeated { IsRepeatedClass count class.now }
    ensures { IsTrue result → IsClassKept ways.now.keys ways.now.sets class.now }
{
    by_least(ways, class.whole, count) == by_least(ways, class.part, count)
}

/// The first moves to a place, where the ways to it from the gates have these keys: those to the gates by which it
/// costs the least to go.
#[inline(always)]
fn by_least(ways: &Ways, onward: [u32; LANES], count: usize) -> u8
    requires there { (lane : ℕ) → lane < 15 → slice_index ways.now.keys lane ≤ MOST_TO_GATE }
    requires onward { (lane : ℕ) → lane < 15 → slice_index onward lane ≤ MOST_TO_GATE }
    requires keys_repeated { IsRepeated count ways.now.keys }
    requires sets_repeated { IsRepeated count ways.now.sets }
    requires onward_repeated { IsRepeated count onward }
    ensures { (move : Move) → Has result move
        ↔ IsByLeast ways.now.keys onward ways.now.sets move }
{
    let mut least = ways.keys[0] + onward[0];
    let mut set = ways.sets[0];
    for lane in 1..count {
        let sum = ways.keys[lane] + onward[lane];
        if sum < least {
            least = sum;
            set = ways.sets[lane];
        } else if sum == least {
            set |= ways.sets[lane];
        }
    }
    set
}

/// Whether over the longer list the side is left by the gates alone.
fn is_left_by_gates(whole: &Side, gaps: &[usize], cut: &Cut) -> bool
    requires size { length whole.now.near ≡ length cut.now.side.items + length gaps.now }
    requires few_gaps { length gaps.now ≤ MAX_GAPS }
    requires few { length cut.now.side.items ≤ MAX_PASSABLE }
    ensures { IsTrue result → IsLeftByLanes whole.now.near gaps.now (length cut.now.side.items)
        cut.now.side.items cut.now.gates }
{
    for place in 0..cut.side.len() {
        if !is_kept_in(whole, gaps, cut, place) {
            return false;
        }
    }
    true
}

/// Whether a place is not of the side, or its moves over the longer list lead to the side or to gates alone.
fn is_kept_in(whole: &Side, gaps: &[usize], cut: &Cut, place: usize) -> bool
    requires size { length whole.now.near ≡ length cut.now.side.items + length gaps.now }
    requires few_gaps { length gaps.now ≤ MAX_GAPS }
    requires few { length cut.now.side.items ≤ MAX_PASSABLE }
    requires place { place < length cut.now.side.items }
    ensures { IsTrue result → LeadOnlyBack whole.now.near gaps.now (length cut.now.side.items)
        cut.now.side.items cut.now.gates place }
{
    if !cut.side[place] {
        return true;
    }
    lead_back(whole.edges(place_past(gaps, place)), gaps, cut)
}

/// Whether the moves that lead somewhere in the longer list all lead to the side or to gates.
fn lead_back(edges: [u16; 8], gaps: &[usize], cut: &Cut) -> bool
    requires { length gaps.now ≤ MAX_GAPS }
    ensures { IsTrue result → (move : Move) → end_of edges move < length cut.now.side.items + length gaps.now
        → LeadsBack gaps.now (length cut.now.side.items) cut.now.side.items cut.now.gates
        (end_of edges move) }
{
    for number in 0..8 {
        let to = usize::from(edges[number]);
        if to < cut.side.len() + gaps.len() && !is_known(to, gaps, cut) {
            return false;
        }
    }
    true
}

/// Whether a place of the longer list is that of a cell of the side, or of a gate.
fn is_known(there: usize, gaps: &[usize], cut: &Cut) -> bool
    requires { length gaps.now ≤ MAX_GAPS }
    ensures { IsTrue result → LeadsBack gaps.now (length cut.now.side.items) cut.now.side.items
        cut.now.gates there }
{
    let place = place_before(gaps, there);
    if place >= cut.side.len()
        || place > MAX_PASSABLE as usize
        || place_past(gaps, place) != there
    {
        return false;
    }
    cut.side[place] || is_among(&cut.gates, SHARED_LANES, place)
}
