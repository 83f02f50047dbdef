//! How one list of cells follows from another that has some cells more or less.

ghost use Rattle.std.specs.Prelude.{◌≡◌, ℕ, ◌+◌, ◌<◌, ◌≤◌, IsTrue, IfOk, IfSome, length};
ghost use Rattle.moves.specs.FirstSetLists.{cell_of};
ghost use Rattle.kept_rows.specs.Gaps.{past, past_one, AreGaps, IsPart};
ghost use Rattle.kept_rows.specs.Changes.{IsChange};

use moves::{Cell, MAX_PASSABLE};
use std::alloc::{AllocError, Global};

/// How many cells one list may have more: each has a lane of a tile.
pub(crate) const MAX_GAPS: usize = 16;

/// How a list of cells follows from a former one.
#[derive(Drop)]
pub(crate) enum Change {
    /// The cells at these places of the former list are gone.
    Out(Vec<usize>),
    /// The cells at these places are new.
    In(Vec<usize>),
}

/// How the cells follow from the former ones; `None` where they do not by a few cells that are gone, or that are new.
///
/// # Errors
///
/// `AllocError` where memory runs out.
pub(crate) fn change_between(
    alloc: Global,
    former: &[Cell],
    cells: &[Cell],
) -> Result<Option<Change>, AllocError>
    requires former { length former.now ≤ MAX_PASSABLE }
    requires cells { length cells.now ≤ MAX_PASSABLE }
    ensures { IfOk result (λ found. IfSome found (IsChange former.now cells.now)) }
{
    if cells.len() < former.len() {
        match gaps_of(alloc, former, cells)? {
            Some(gaps) => Ok(Some(Change::Out(gaps))),
            None => Ok(None),
        }
    } else {
        match gaps_of(alloc, cells, former)? {
            Some(gaps) => Ok(Some(Change::In(gaps))),
            None => Ok(None),
        }
    }
}

/// The places of the longer list that the shorter one has not, where the two have the same cells else, and some and few
/// are such.
fn gaps_of(alloc: Global, whole: &[Cell], part: &[Cell]) -> Result<Option<Vec<usize>>, AllocError>
    requires { length part.now ≤ MAX_PASSABLE }
    ensures { IfOk result (λ found. IfSome found (λ gaps. IsPart whole.now part.now gaps.items)) }
{
    if whole.len() <= part.len() || whole.len() > part.len() + MAX_GAPS {
        return Ok(None);
    }
    let mut gaps = Vec::with_capacity(alloc, MAX_GAPS)?;
    note_gaps(whole, part, &mut gaps)?;
    if whole.len() == part.len() + gaps.len()
        && are_gaps(part.len(), &gaps)
        && is_part(whole, part, &gaps)
    {
        Ok(Some(gaps))
    } else {
        Ok(None)
    }
}

/// Notes the places of the longer list whose cells are not the next ones of the shorter. Nothing is believed of them.
fn note_gaps(whole: &[Cell], part: &[Cell], gaps: &mut Vec<usize>) -> Result<(), AllocError> {
    for (there, cell) in whole.iter().enumerate() {
        let place = there.saturating_sub(gaps.len());
        if place >= part.len() || part[place] != *cell {
            if gaps.len() >= MAX_GAPS {
                return Ok(());
            }
            gaps.push(there)?;
        }
    }
    Ok(())
}

/// Whether the places rise, and each is at the end of so many and the gaps before it at most.
fn are_gaps(count: usize, gaps: &[usize]) -> bool
    requires count { count ≤ MAX_PASSABLE }
    requires few { length gaps.now ≤ MAX_GAPS }
    ensures { IsTrue result → AreGaps 0 count gaps.now }
{
    let mut least = 0usize;
    let mut end = count;
    for gap in gaps.iter() {
        if *gap < least || *gap > end {
            return false;
        }
        least = *gap + 1;
        end += 1;
    }
    true
}

/// Whether the shorter list has the cells of the longer one but for those at the gaps.
fn is_part(whole: &[Cell], part: &[Cell], gaps: &[usize]) -> bool
    requires size { length whole.now ≡ length part.now + length gaps.now }
    requires few { length part.now ≤ MAX_PASSABLE }
    requires few_gaps { length gaps.now ≤ MAX_GAPS }
    ensures { IsTrue result → (place : ℕ) → place < length part.now
        → cell_of part.now place ≡ cell_of whole.now (past gaps.now place) }
{
    for (place, cell) in part.iter().enumerate() {
        if whole[place_past(gaps, place)] != *cell {
            return false;
        }
    }
    true
}

/// Where a place of the shorter list stands in the longer one.
pub(crate) fn place_past(gaps: &[usize], place: usize) -> usize
    requires place { place ≤ MAX_PASSABLE }
    requires few { length gaps.now ≤ MAX_GAPS }
    ensures past { result ≡ past gaps.now place }
    ensures most { result ≤ place + length gaps.now }
{
    let mut there = place;
    for gap in gaps.iter() {
        there = place_past_one(*gap, there);
    }
    there
}

/// Where a place of a list stands in that with one cell more.
fn place_past_one(gap: usize, place: usize) -> usize
    requires { place < 65536 }
    ensures { result ≡ past_one gap place }
{
    if place < gap { place } else { place + 1 }
}

/// Where a place of the longer list that is at no gap stands in the shorter one.
pub(crate) fn place_before(gaps: &[usize], there: usize) -> usize {
    let mut before = 0usize;
    for gap in gaps.iter() {
        if *gap < there {
            before = before.wrapping_add(1);
        }
    }
    there.saturating_sub(before)
}
