//! New rows from former ones, and from the few sets that were found.

ghost use Rattle.std.specs.Prelude.{◌≡◌, ℕ, ◌+◌, ◌<◌, ◌≤◌, [], ◌++◌, true, All, IfOk, IfSome, OnOk, IsTrue, length, slice_index, slice_index_or};
ghost use Rattle.row_edit.specs.Edits.{TakesEdits};
ghost use Rattle.moves.specs.Maps.{Map};
ghost use Rattle.moves.specs.ComponentLaws.{HasJust};
ghost use Rattle.row_store.specs.Rows.{row_at};
ghost use Rattle.row_store.specs.Comps.{IsComp};
ghost use Rattle.build_pool.specs.Pieces.{AreSome, AreWordsOver};
ghost use Rattle.kept_rows.specs.Staying.{AllStay, AreFirstSetsTo, AreSetsToGaps, AreSetsToGapsOfAll};
ghost use Rattle.kept_rows.specs.RowEdits.{AreHoles, ins, outs};
ghost use Rattle.kept_rows.specs.Verdicts.{AreSurveyed, IsOfLane};

use crate::ball::is_among;
use crate::gap::{MAX_GAPS, place_past};
use crate::pair::moved;
use crate::survey::Survey;
use crate::targets::SHARED_LANES;
use crate::verdict::{is_kept, verdict_at};
use lane_rows::LANES;
use moves::{Cell, MAX_PASSABLE};
use row_edit::{EditRoom, PlaceSet, RowEdit, edit_each};
use row_store::{CompData, RowPool};
use std::alloc::{AllocError, Global};

/// A component, the cells of the new rows, the places of the cells that only the longer of the two lists has, and the
/// first sets from each place of the shorter list to those cells.
#[derive(Drop)]
pub(crate) struct Lists<'a> {
    pub former: &'a CompData,
    pub cells: &'a [Cell],
    pub gaps: &'a [usize],
    pub own_sets: &'a [[u8; LANES]],
}

/// What is known of a place whose first sets stay: the first sets to those of the first pair's lanes, and to the cells
/// of the gaps.
#[derive(Clone, Copy, Debug)]
struct Known {
    sets: [u8; LANES],
    own: [u8; LANES],
}

/// Memory for one row after the other, taken once.
#[derive(Drop)]
struct Desk {
    /// The sets that are known of the former row.
    known: Vec<PlaceSet>,
    /// The places of the gaps, with their sets.
    holes: Vec<PlaceSet>,
    /// The edits that lead to the new row.
    edits: Vec<RowEdit>,
    /// Room for the rows between them.
    room: EditRoom,
    /// The words of the new row.
    row: Vec<u32>,
}

impl Desk {
    /// Memory that grows as it is used.
    fn new(alloc: Global) -> Desk {
        Desk {
            known: Vec::new(alloc),
            holes: Vec::new(alloc),
            edits: Vec::new(alloc),
            room: EditRoom::new(alloc),
            row: Vec::new(alloc),
        }
    }

    /// Makes the row without the holes, over so many places, and says whether what is known decides it.
    fn take_out(&mut self, words: &[u32], count: u32) -> Result<bool, AllocError>
        ensures holes { self.new.holes.items ≡ self.old.holes.items }
        ensures row { IfOk result (λ done. done ≡ true → TakesEdits words.now count
            (outs self.old.holes.items) (self.old.known.items ++ self.old.holes.items) []
            self.new.row.items) }
    {
        self.known.extend_from_slice(&self.holes)?;
        note_outs(&self.holes, &mut self.edits)?;
        self.row.clear();
        edit_each(
            words,
            count,
            &self.edits,
            &self.known,
            &mut self.room,
            &mut self.row,
        )
    }

    /// Makes the row with the holes, over so many places, and says whether what is known decides it.
    fn put_in(&mut self, words: &[u32], count: u32) -> Result<bool, AllocError>
        ensures holes { self.new.holes.items ≡ self.old.holes.items }
        ensures row { IfOk result (λ done. done ≡ true → TakesEdits words.now count
            (ins self.old.holes.items) self.old.known.items [] self.new.row.items) }
    {
        note_ins(&self.holes, &mut self.edits)?;
        self.row.clear();
        edit_each(
            words,
            count,
            &self.edits,
            &self.known,
            &mut self.room,
            &mut self.row,
        )
    }
}

/// Notes the edits that take the holes out, the last hole first.
fn note_outs(holes: &[PlaceSet], edits: &mut Vec<RowEdit>) -> Result<(), AllocError>
    ensures { OnOk result (edits.new.items ≡ outs holes.now) }
{
    edits.clear();
    for index in 0..holes.len() {
        edits.push(RowEdit::Out(holes[holes.len() - 1 - index]))?;
    }
    Ok(())
}

/// Notes the edits that put the holes in.
fn note_ins(holes: &[PlaceSet], edits: &mut Vec<RowEdit>) -> Result<(), AllocError>
    ensures { OnOk result (edits.new.items ≡ ins holes.now) }
{
    edits.clear();
    for hole in holes.iter() {
        edits.push(RowEdit::In(*hole))?;
    }
    Ok(())
}

/// The rows over the shorter list that follow from those of a component with the longer one. All others are blank.
///
/// # Errors
///
/// `AllocError` where memory runs out.
pub(crate) fn rows_of_part(
    alloc: Global,
    lists: &Lists,
    survey: &Survey,
) -> Result<RowPool, AllocError>
    requires surveyed { AreSurveyed lists.now.former.now.cells lists.now.cells.now lists.now.gaps.now
        survey.now.sources survey.now.sets.items survey.now.ball.items survey.now.verdicts.items }
    requires comp { IsComp lists.now.former.now }
    requires own { AreSetsToGapsOfAll lists.now.former.now.cells lists.now.cells.now
        lists.now.gaps.now survey.now.sources lists.now.own_sets.now }
    requires board { (board : Map) × HasJust board lists.now.cells.now }
    ensures { IfOk result (AreSome lists.now.cells.now) }
{
    let count = lists.cells.len();
    let mut rows = RowPool::blank(alloc, count)?;
    let mut desk = Desk::new(alloc);
    for place in 0..count {
        keep_without(lists, survey, place, &mut desk, &mut rows)?;
    }
    Ok(rows)
}

/// The rows over the longer list that follow from those of a component with the shorter one. All others are blank.
///
/// # Errors
///
/// `AllocError` where memory runs out.
pub(crate) fn rows_of_whole(
    alloc: Global,
    lists: &Lists,
    survey: &Survey,
) -> Result<RowPool, AllocError>
    requires surveyed { AreSurveyed lists.now.cells.now lists.now.former.now.cells lists.now.gaps.now
        survey.now.sources survey.now.sets.items survey.now.ball.items survey.now.verdicts.items }
    requires comp { IsComp lists.now.former.now }
    requires own { AreSetsToGapsOfAll lists.now.cells.now lists.now.former.now.cells
        lists.now.gaps.now survey.now.sources lists.now.own_sets.now }
    requires few { length lists.now.cells.now ≤ MAX_PASSABLE }
    requires board { (board : Map) × HasJust board lists.now.cells.now }
    ensures { IfOk result (AreSome lists.now.cells.now) }
{
    let mut rows = RowPool::blank(alloc, lists.cells.len())?;
    let mut desk = Desk::new(alloc);
    let count = lists.former.cells().len();
    for place in 0..count {
        keep_with(lists, survey, place, &mut desk, &mut rows)?;
    }
    Ok(rows)
}

/// Puts the row of a place of the shorter list, where it follows from that of the longer one.
fn keep_without(
    lists: &Lists,
    survey: &Survey,
    place: usize,
    desk: &mut Desk,
    rows: &mut RowPool,
) -> Result<(), AllocError>
    requires surveyed { AreSurveyed lists.now.former.now.cells lists.now.cells.now lists.now.gaps.now
        survey.now.sources survey.now.sets.items survey.now.ball.items survey.now.verdicts.items }
    requires comp { IsComp lists.now.former.now }
    requires own { AreSetsToGapsOfAll lists.now.former.now.cells lists.now.cells.now
        lists.now.gaps.now survey.now.sources lists.now.own_sets.now }
    requires board { (board : Map) × HasJust board lists.now.cells.now }
    requires place { place < length lists.now.cells.now }
    requires part { AreSome lists.now.cells.now rows.old }
    ensures { OnOk result (AreSome lists.now.cells.now rows.new) }
{
    let Some(known) = known_of(lists.former.cells(), lists.cells, lists, survey, place) else {
        return Ok(());
    };
    note_known(
        moved(survey.sources, lists.gaps),
        known.sets,
        &mut desk.known,
    )?;
    note_holes(lists.gaps, known.own, &mut desk.holes)?;
    let there = place_past(lists.gaps, place);
    let words = lists.former.row(there as u32);
    let count = lists.former.cells().len();
    if desk.take_out(words, count as u32)? {
        put_row(rows, lists.cells, place, &desk.row)
    } else {
        Ok(())
    }
}

/// Puts the row of a place of the shorter list over the longer one, where it follows from that over the shorter.
fn keep_with(
    lists: &Lists,
    survey: &Survey,
    place: usize,
    desk: &mut Desk,
    rows: &mut RowPool,
) -> Result<(), AllocError>
    requires surveyed { AreSurveyed lists.now.cells.now lists.now.former.now.cells lists.now.gaps.now
        survey.now.sources survey.now.sets.items survey.now.ball.items survey.now.verdicts.items }
    requires comp { IsComp lists.now.former.now }
    requires own { AreSetsToGapsOfAll lists.now.cells.now lists.now.former.now.cells
        lists.now.gaps.now survey.now.sources lists.now.own_sets.now }
    requires few { length lists.now.cells.now ≤ MAX_PASSABLE }
    requires board { (board : Map) × HasJust board lists.now.cells.now }
    requires place { place < length lists.now.former.now.cells }
    requires part { AreSome lists.now.cells.now rows.old }
    ensures { OnOk result (AreSome lists.now.cells.now rows.new) }
{
    let Some(known) = known_of(lists.cells, lists.former.cells(), lists, survey, place) else {
        return Ok(());
    };
    note_known(survey.sources, known.sets, &mut desk.known)?;
    note_holes(lists.gaps, known.own, &mut desk.holes)?;
    let words = lists.former.row(place as u32);
    let count = lists.former.cells().len();
    if desk.put_in(words, count as u32)? {
        let there = place_past(lists.gaps, place);
        put_row(rows, lists.cells, there, &desk.row)
    } else {
        Ok(())
    }
}

/// What is known of a place of the shorter list, where all first sets from there stay and it is none of the first pair's
/// lanes.
#[tactic(auto, using(crate::proofs::Surveying::kept_stays, crate::proofs::Surveying::kept_known, crate::proofs::Surveying::kept_own))]
fn known_of(
    whole: &[Cell],
    part: &[Cell],
    lists: &Lists,
    survey: &Survey,
    place: usize,
) -> Option<Known>
    requires surveyed { AreSurveyed whole.now part.now lists.now.gaps.now survey.now.sources
        survey.now.sets.items survey.now.ball.items survey.now.verdicts.items }
    requires own { AreSetsToGapsOfAll whole.now part.now lists.now.gaps.now survey.now.sources
        lists.now.own_sets.now }
    requires place { place < length part.now }
    ensures stay { IfSome result (λ known. AllStay whole.now part.now place) }
    ensures sets { IfSome result (λ known. AreFirstSetsTo whole.now part.now lists.now.gaps.now
        place survey.now.sources known.sets) }
    ensures own { IfSome result (λ known. AreSetsToGaps whole.now part.now lists.now.gaps.now place
        known.own) }
{
    // The lists of cells are here for the contract alone.
    let _ = whole;
    let _ = part;
    let sources = survey.sources;
    let verdict = verdict_at(&survey.verdicts, place);
    if !is_kept(verdict) || is_among(&sources, SHARED_LANES, place) {
        return None;
    }
    let sets = sets_at(&survey.sets, place)?;
    let own = sets_at(lists.own_sets, place)?;
    Some(Known { sets, own })
}

/// The sets of a place, where there are some.
fn sets_at(sets: &[[u8; LANES]], place: usize) -> Option<[u8; LANES]>
    ensures { IfSome result (λ found. found ≡ slice_index_or sets.now place []) }
{
    if place < sets.len() {
        Some(sets[place])
    } else {
        None
    }
}

/// The places of the gaps, with their sets.
fn note_holes(
    gaps: &[usize],
    sets: [u8; LANES],
    holes: &mut Vec<PlaceSet>,
) -> Result<(), AllocError>
    requires few { length gaps.now ≤ MAX_GAPS }
    requires small { (number : ℕ) → number < length gaps.now → slice_index gaps.now number < 65536 }
    ensures { OnOk result (AreHoles gaps.now sets holes.new.items) }
{
    holes.clear();
    for number in 0..gaps.len() {
        holes.push(PlaceSet {
            place: gaps[number] as u32,
            set: sets[number],
        })?;
    }
    Ok(())
}

/// The sets of the lanes that both lists have, at their places.
fn note_known(
    sources: [u16; LANES],
    sets: [u8; LANES],
    known: &mut Vec<PlaceSet>,
) -> Result<(), AllocError>
    ensures { OnOk result (All (IsOfLane sources sets) known.new.items) }
{
    known.clear();
    for lane in 0..SHARED_LANES {
        known.push(PlaceSet {
            place: u32::from(sources[lane]),
            set: sets[lane],
        })?;
    }
    Ok(())
}

/// Puts the row that these words keep where its source has no row yet.
fn put_row(
    rows: &mut RowPool,
    cells: &[Cell],
    place: usize,
    words: &[u32],
) -> Result<(), AllocError>
    requires part { AreSome cells.now rows.old }
    requires words { AreWordsOver cells.now place words.now }
    ensures { OnOk result (AreSome cells.now rows.new) }
{
    // The cells are here for the contract alone.
    let _ = cells;
    if place < rows.len() && is_blank(rows, place) {
        rows.put_words(place, words)?;
    }
    Ok(())
}

/// Whether the row at a place is blank.
fn is_blank(rows: &RowPool, place: usize) -> bool
    requires { place < length rows.now }
    ensures { IsTrue result → row_at rows.now place ≡ [] }
{
    rows.row(place).is_empty()
}
