//! Classes of places: the ways from the gates to the places of one class differ by one amount, over both lists of cells.

ghost use Rattle.std.specs.Prelude.{◌≡◌, ℕ, ◌<◌, ◌≤◌, true, All, Contains, IfOk, IfSome, IsTrue, OnOk, length, slice_index};
ghost use Rattle.kept_rows.specs.Pairs.{IsPair, IsSearched};
ghost use Rattle.kept_rows.specs.Gates.{AreClasses, AreGateKeys, AreMore, IsClassed, IsEvenlyMore, IsOfClass, IsRepeated, IsRepeatedClass, IsSameClass};

use crate::ball::is_among;
use crate::cuts::Cut;
use crate::gap::place_past;
use crate::pair::Pair;
use crate::side::Side;
use crate::targets::SHARED_LANES;
use lane_rows::LANES;
use std::alloc::{AllocError, Global};

/// The greatest key of a way between a gate and another place: two of them are at most `GREATEST_KEY`.
pub(crate) const MOST_TO_GATE: u32 = 791_680_330;

/// How many classes are told apart at most.
const MAX_CLASSES: usize = 2048;

/// How many comparisons of a class with a gate each cell is worth: where there are more, a row is as soon built.
const COMPARISONS_A_CELL: usize = 3;

/// The keys of the ways from the gates to the places of a class, over each list, less one amount.
#[derive(Clone, Copy, Debug, PartialEq, Eq)]
pub(crate) struct Class {
    /// The sum of all keys, by which most classes are told apart at once.
    sum: u32,
    pub whole: [u32; LANES],
    pub part: [u32; LANES],
}

/// The classes of all places beyond the gates, but for those that are the same over both lists. `None` where there are
/// too many, or where a way from a gate is too long.
///
/// # Errors
///
/// `AllocError` where memory runs out.
pub(crate) fn classes_of(
    alloc: Global,
    pair: &Pair,
    cut: &Cut,
) -> Result<Option<Vec<Class>>, AllocError>
    requires both { IsPair pair.now.whole pair.now.part pair.now.gaps.now }
    requires gates { pair.now.part.tile.sources ≡ cut.now.gates }
    requires side { length cut.now.side.items ≡ length pair.now.part.cells }
    ensures { IfOk result (λ found. IfSome found (λ classes. AreClasses pair.now.whole
        pair.now.part pair.now.gaps.now cut.now.side.items classes.items)) }
{
    let most = most_classes(cut);
    let mut classes = Vec::with_capacity(alloc, most)?;
    for place in 0..cut.side.len() {
        if !note_class(pair, cut, place, most, &mut classes)? {
            return Ok(None);
        }
    }
    Ok(Some(classes))
}

/// How many classes are worth it to be told apart.
fn most_classes(cut: &Cut) -> usize {
    if cut.count == 0 {
        0
    } else {
        MAX_CLASSES.min(cut.side.len().saturating_mul(COMPARISONS_A_CELL) / cut.count)
    }
}

/// Adds the class of a place, if it is beyond the gates and is not there yet, and says whether that was done.
fn note_class(
    pair: &Pair,
    cut: &Cut,
    place: usize,
    most: usize,
    classes: &mut Vec<Class>,
) -> Result<bool, AllocError>
    requires both { IsPair pair.now.whole pair.now.part pair.now.gaps.now }
    requires gates { pair.now.part.tile.sources ≡ cut.now.gates }
    requires side { length cut.now.side.items ≡ length pair.now.part.cells }
    requires place { place < length pair.now.part.cells }
    ensures more { OnOk result (AreMore classes.old.items classes.new.items) }
    ensures classed { IfOk result (λ done. done ≡ true → IsClassed pair.now.whole pair.now.part
        pair.now.gaps.now cut.now.side.items classes.new.items place) }
{
    if cut.side[place] || is_among(&cut.gates, SHARED_LANES, place) {
        return Ok(true);
    }
    let Some(class) = class_of(pair, place) else {
        return Ok(false);
    };
    if is_same(&class) || has_class(classes, &class) {
        return Ok(true);
    }
    if classes.len() >= most {
        return Ok(false);
    }
    classes.push(class)?;
    Ok(true)
}

/// The class of a place; `None` where a way from a gate is too long.
fn class_of(pair: &Pair, place: usize) -> Option<Class>
    requires both { IsPair pair.now.whole pair.now.part pair.now.gaps.now }
    requires place { place < length pair.now.part.cells }
    ensures { IfSome result (IsOfClass pair.now.whole pair.now.part pair.now.gaps.now place) }
{
    let Some(over_whole) = gate_keys(&pair.whole, place_past(pair.gaps, place)) else {
        return None;
    };
    let Some(over_part) = gate_keys(&pair.part, place) else {
        return None;
    };
    let (whole, part) = (less_least(over_whole), less_least(over_part));
    let sum = sum_of(whole).wrapping_add(sum_of(part));
    Some(Class { sum, whole, part })
}

/// The sum of the keys, as far as it goes.
fn sum_of(keys: [u32; LANES]) -> u32 {
    let mut sum = 0u32;
    for lane in 0..LANES {
        sum = sum.wrapping_mul(31).wrapping_add(keys[lane]);
    }
    sum
}

/// The keys of a place in the lanes of the gates; `None` where one is too great.
pub(crate) fn gate_keys(side: &Side, place: usize) -> Option<[u32; LANES]>
    requires searched { IsSearched side.now }
    requires place { place < length side.now.cells }
    ensures { IfSome result (AreGateKeys side.now place) }
{
    let keys = side.keys(place);
    if are_low(keys) { Some(keys) } else { None }
}

/// Whether no key of a gate is too great.
fn are_low(keys: [u32; LANES]) -> bool
    ensures { IsTrue result → (lane : ℕ) → lane < 15 → slice_index keys lane ≤ MOST_TO_GATE }
{
    for lane in 0..SHARED_LANES {
        if keys[lane] > MOST_TO_GATE {
            return false;
        }
    }
    true
}

/// The keys of the gates, less the least of them.
fn less_least(keys: [u32; LANES]) -> [u32; LANES]
    ensures { IsEvenlyMore keys result }
{
    let least = least_of(keys);
    let mut less = [0; LANES];
    for lane in 0..SHARED_LANES {
        less[lane] = keys[lane] - least;
    }
    less
}

/// The least of the keys of the gates.
fn least_of(keys: [u32; LANES]) -> u32
    ensures { (lane : ℕ) → lane < 15 → result ≤ slice_index keys lane }
{
    let mut least = u32::MAX;
    for lane in 0..SHARED_LANES {
        if keys[lane] < least {
            least = keys[lane];
        }
    }
    least
}

/// Whether the class is the same over both lists.
fn is_same(class: &Class) -> bool
    ensures { IsTrue result → IsSameClass class.now }
{
    for lane in 0..SHARED_LANES {
        if class.whole[lane] != class.part[lane] {
            return false;
        }
    }
    true
}

/// Whether the keys of each class are repeated behind so many lanes.
pub(crate) fn are_repeated(classes: &[Class], count: usize) -> bool
    ensures { IsTrue result → All (IsRepeatedClass count) classes.now }
{
    for class in classes.iter() {
        if !is_repeated(class, count) {
            return false;
        }
    }
    true
}

/// Whether the keys of a class are repeated behind so many lanes.
fn is_repeated(class: &Class, count: usize) -> bool
    ensures { IsTrue result → IsRepeatedClass count class.now }
{
    repeats_key(class.whole, count) && repeats_key(class.part, count)
}

/// Whether the keys behind so many lanes are that of the last of these.
pub(crate) fn repeats_key(keys: [u32; LANES], count: usize) -> bool
    ensures { IsTrue result → IsRepeated count keys }
{
    if count == 0 || count > SHARED_LANES {
        return false;
    }
    for lane in count..SHARED_LANES {
        if keys[lane] != keys[count - 1] {
            return false;
        }
    }
    true
}

/// Whether the class is one of these.
fn has_class(classes: &[Class], class: &Class) -> bool
    ensures { IsTrue result → Contains classes.now class.now }
{
    for one in classes.iter() {
        if one.sum == class.sum && *one == *class {
            return true;
        }
    }
    false
}
