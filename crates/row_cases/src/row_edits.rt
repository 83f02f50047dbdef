//! Rows after edits of their list, made from the row before and compared with the row that is packed from nothing.

ghost use Rattle.std.specs.Prelude.{◌<◌};

use crate::packing::packed;
use case_kit::{Fields, Random, Refusal};
use row_edit::{EditRoom, PlaceSet, RowEdit, edit_each};
use std::alloc::{AllocError, Global};

/// `row edits | LISTS | REACH`: makes LISTS lists of at most 40 sets and edits each one to four times. Counts how often
/// the sets less than REACH places from the first edit decide the row, and how often that row differs from the packed.
pub fn row_edits(alloc: Global, mut fields: Fields<'_>) -> Result<String, Refusal> {
    let (lists, reach) = (fields.number()?, fields.number()?);
    let (mut decided, mut differ) = (0u32, 0u32);
    let mut random = Random::of(2);
    for _ in 0..lists {
        let mut sets = Vec::new(alloc);
        for _ in 0..=random.below(40) {
            sets.push(some_set(&mut random)).map_err(AllocError::from)?;
        }
        let edits = some_edits(alloc, &mut random, &sets)?;
        if let Some(row) = edited_row(alloc, &sets, &edits, reach)? {
            let wanted = packed(alloc, &after_edits(alloc, &sets, &edits)?)?.1;
            decided = decided.saturating_add(1);
            differ = differ.saturating_add(u32::from(row != wanted));
        }
    }
    Ok(format!(in alloc; "{lists} tried, {decided} decided, {differ} differ")?)
}

/// One to four edits of a list.
fn some_edits(alloc: Global, random: &mut Random, sets: &[u8]) -> Result<Vec<RowEdit>, AllocError> {
    let mut edits = Vec::new(alloc);
    for _ in 0..=random.below(4) {
        let list = after_edits(alloc, sets, &edits)?;
        edits.push(some_edit(random, &list))?;
    }
    Ok(edits)
}

/// An edit of a list: takes a place out, though never the last, or puts one in.
fn some_edit(random: &mut Random, sets: &[u8]) -> RowEdit {
    let place = random.below(count(sets).max(1));
    match sets.get(place as usize) {
        Some(set) if sets.len() > 1 && random.below(2) == 0 => {
            RowEdit::Out(PlaceSet { place, set: *set })
        }
        _ => RowEdit::In(PlaceSet {
            place,
            set: some_set(random),
        }),
    }
}

/// A set of up to three moves, so that neighbours often share one.
fn some_set(random: &mut Random) -> u8 {
    random.below(7) as u8 + 1
}

/// The list after the edits.
fn after_edits(alloc: Global, sets: &[u8], edits: &[RowEdit]) -> Result<Vec<u8>, AllocError> {
    let mut list = Vec::from_slice(alloc, sets)?;
    for edit in edits {
        match *edit {
            RowEdit::Out(own) if (own.place as usize) < list.len() => {
                list.remove(own.place as usize);
            }
            RowEdit::In(own) if own.place as usize <= list.len() => {
                list.insert(own.place as usize, own.set)?;
            }
            _ => {}
        }
    }
    Ok(list)
}

/// The words of the row after the edits, or `None` where the sets near the first edit don't decide it.
fn edited_row(
    alloc: Global,
    sets: &[u8],
    edits: &[RowEdit],
    reach: u32,
) -> Result<Option<Vec<u32>>, Refusal> {
    let first = match edits.first() {
        Some(RowEdit::Out(own)) => own.place,
        Some(RowEdit::In(own)) => own.place,
        None => 0,
    };
    let mut known = Vec::new(alloc);
    for (place, set) in (0u32..).zip(sets.iter()) {
        if place.abs_diff(first) < reach {
            known
                .push(PlaceSet { place, set: *set })
                .map_err(AllocError::from)?;
        }
    }
    let (_runs, words) = packed(alloc, sets)?;
    let (mut room, mut row) = (EditRoom::new(alloc), Vec::new(alloc));
    let is_decided = edit_each(&words, count(sets), edits, &known, &mut room, &mut row)?;
    Ok(if is_decided { Some(row) } else { None })
}

/// The number of sets.
fn count(sets: &[u8]) -> u32 {
    u32::try_from(sets.len()).unwrap_or(u32::MAX)
}
