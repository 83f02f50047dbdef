//! Several edits of a row, one after the other.

ghost use Rattle.std.specs.Prelude.{◌≡◌, List, [], IfOk, OnOk, OnErr, IfSome, MatchBool};
ghost use Rattle.row_edit.specs.Edits.{TakesEdits};
ghost use Rattle.row_edit.specs.Rooms.{EditsRow, MovesKnown, KeepsKnown, GoesOn};

use crate::{PlaceSet, put_in, take_out};
use std::alloc::{AllocError, Global};
use std::mem::swap;

/// One edit of a list of sets, in the places of the list that is there by then.
#[derive(Clone, Copy, Debug, PartialEq, Eq)]
pub enum RowEdit {
    /// The place is taken out; it has this set.
    Out(PlaceSet),
    /// A place with this set is put in, before the one that was there or behind the last.
    In(PlaceSet),
}

/// Room for the rows between edits, and for what is known of their lists. It is taken once and used for many rows.
#[derive(Drop)]
pub struct EditRoom {
    words: Vec<u32>,
    next_words: Vec<u32>,
    known: Vec<PlaceSet>,
    next_known: Vec<PlaceSet>,
}

impl EditRoom {
    /// Room that grows as it is used.
    pub fn new(alloc: Global) -> EditRoom {
        EditRoom {
            words: Vec::new(alloc),
            next_words: Vec::new(alloc),
            known: Vec::new(alloc),
            next_known: Vec::new(alloc),
        }
    }

    /// Begins with a row and what is known of its list.
    fn begin(&mut self, words: &[u32], known: &[PlaceSet]) -> Result<(), AllocError>
        ensures words { OnOk result (self.new.words.items ≡ words.now) }
        ensures known { OnOk result (self.new.known.items ≡ known.now) }
    {
        self.words.clear();
        self.words.extend_from_slice(words)?;
        self.known.clear();
        self.known.extend_from_slice(known)
    }

    /// One edit of the row, over so many places: how many there are then, or `None` where the edit is not decided.
    fn edit(&mut self, places: u32, edit: RowEdit) -> Result<Option<u32>, AllocError>
        ensures { IfOk result (λ after. IfSome after (λ more. GoesOn self.old self.new places more edit)) }
    {
        self.next_words.clear();
        let after = edit_row(&self.words, places, edit, &self.known, &mut self.next_words)?;
        self.next_known.clear();
        push_known(&self.known, edit, &mut self.next_known)?;
        swap(&mut self.words, &mut self.next_words);
        swap(&mut self.known, &mut self.next_known);
        Ok(after)
    }
}

/// Appends the words of the row of a list after several edits, one after the other, and says that it did; or leaves
/// all as it is, where what is known does not decide one of them.
///
/// It is as `take_out` and `put_in`. Each edit is told in the places of the list that is there by then, and `known` in
/// those of the first list; what is known of the others follows.
///
/// The only error is want of memory. The row is then as before.
pub fn edit_each(
    words: &[u32],
    places: u32,
    edits: &[RowEdit],
    known: &[PlaceSet],
    room: &mut EditRoom,
    row: &mut Vec<u32>,
) -> Result<bool, AllocError>
    ensures done { IfOk result (λ done. MatchBool done
        (TakesEdits words.now places edits.now known.now row.old.items row.new.items)
        (row.new.items ≡ row.old.items)) }
    ensures refused { OnErr result (row.new.items ≡ row.old.items) }
{
    room.begin(words, known)?;
    let mut left = places;
    for edit in edits {
        match room.edit(left, *edit)? {
            Some(after) => left = after,
            None => return Ok(false),
        }
    }
    row.extend_from_slice(&room.words)?;
    Ok(true)
}

/// Appends the words of the row after one edit: how many places it has, or `None` where the edit is not decided.
fn edit_row(
    words: &[u32],
    places: u32,
    edit: RowEdit,
    known: &[PlaceSet],
    row: &mut Vec<u32>,
) -> Result<Option<u32>, AllocError>
    ensures { IfOk result (λ after. IfSome after (λ more.
        EditsRow words.now places edit known.now row.old.items row.new.items more)) }
{
    match edit {
        RowEdit::Out(out) => {
            let done = take_out(words, places, out, known, row)?;
            Ok(if done {
                Some(places.saturating_sub(1))
            } else {
                None
            })
        }
        RowEdit::In(put) => {
            let done = places < u32::MAX && put_in(words, places, put, known, row)?;
            Ok(if done { Some(places + 1) } else { None })
        }
    }
}

/// What is known of a list after an edit, from what was known of it.
fn push_known(known: &[PlaceSet], edit: RowEdit, next: &mut Vec<PlaceSet>) -> Result<(), AllocError>
    requires { next.old.items ≡ [] }
    ensures { OnOk result (KeepsKnown edit known.now next.new.items) }
{
    push_new(edit, next)?;
    for one in known {
        if let Some(moved) = moved(*one, edit) {
            next.push(moved)?;
        }
    }
    Ok(())
}

/// What an edit itself tells of the list after it.
fn push_new(edit: RowEdit, next: &mut Vec<PlaceSet>) -> Result<(), AllocError>
    requires { next.old.items ≡ [] }
    ensures { OnOk result ((known : List PlaceSet) → KeepsKnown edit known next.new.items) }
{
    match edit {
        RowEdit::Out(_) => Ok(()),
        RowEdit::In(put) => {
            next.push(put)?;
            Ok(())
        }
    }
}

/// A known set after an edit, where its place is still there.
fn moved(one: PlaceSet, edit: RowEdit) -> Option<PlaceSet>
    ensures { IfSome result (MovesKnown edit one) }
{
    match edit {
        RowEdit::Out(out) => earlier(one, out),
        RowEdit::In(put) => later(one, put),
    }
}

/// A known set where a place is taken out: one place earlier behind it.
fn earlier(one: PlaceSet, out: PlaceSet) -> Option<PlaceSet>
    ensures { IfSome result (MovesKnown (RowEdit.Out out) one) }
{
    if one.place < out.place {
        return Some(one);
    }
    if one.place == out.place {
        return None;
    }
    Some(PlaceSet {
        place: one.place - 1,
        set: one.set,
    })
}

/// A known set where a place is put in: one place later from there on.
fn later(one: PlaceSet, put: PlaceSet) -> Option<PlaceSet>
    ensures { IfSome result (MovesKnown (RowEdit.In put) one) }
{
    if one.place < put.place {
        return Some(one);
    }
    let place = one.place.checked_add(1)?;
    Some(PlaceSet {
        place,
        set: one.set,
    })
}
