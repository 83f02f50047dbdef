//! Verdicts on edits, and lists of edits.

use crate::case::Case;
use case_kit::{Refusal, cell_in, terrain_in};
use edit_log::{CellChange, Edit, EditList, check};
use moves::{Cell, Terrain};
use std::alloc::{AllocError, Global};
use std::fmt::Write;

impl<R> Case<'_, R> {
    /// `check | MAP | EDIT | ACCEPTED`: the verdict on an edit, after so many accepted edits.
    pub(crate) fn check_said(&mut self) -> Result<String, Refusal> {
        let grid = self.fields.grid(self.alloc)?;
        let edit = edit_in(self.alloc, self.fields.text()?)?;
        Ok(match check(&grid, self.fields.number()?, &edit) {
            Ok(()) => String::from_str(self.alloc, "accepted")?,
            Err(why) => format!(in self.alloc; "{why}")?,
        })
    }

    /// `edits | EDIT, EDIT | PLACE`: a list of these edits, what stands at a place of it, and from there on.
    pub(crate) fn edits_said(&mut self) -> Result<String, Refusal> {
        let list = list_in(self.alloc, self.fields.text()?)?;
        Ok(list_shown(self.alloc, &list, self.fields.number()?)?)
    }
}

/// The edit of a text, which is a change as `X Y water`, with `blocked`, `land` or `water`, or several of them with
/// ` + ` between any two.
pub(crate) fn edit_in(alloc: Global, text: &str) -> Result<Edit, Refusal> {
    let mut changes = Vec::new(alloc);
    for part in text.split(" + ") {
        changes.push(change_in(part)?).map_err(AllocError::from)?;
    }
    Edit::of(&changes).ok_or(Refusal::OutOfForm)
}

/// The change of `X Y water`.
fn change_in(part: &str) -> Result<CellChange, Refusal> {
    let Some((cell, becomes)) = part.rsplit_once(' ') else {
        return Err(Refusal::OutOfForm);
    };
    let cell = cell_in(cell)?;
    let terrain = terrain_in(becomes)?;
    Ok(CellChange { cell, terrain })
}

/// A list of the edits of a text, with a comma and a blank between any two.
fn list_in(alloc: Global, text: &str) -> Result<EditList, Refusal> {
    let mut list = EditList::new(alloc);
    for part in text.split(", ").filter(|part| *part != "-") {
        let edit = edit_in(alloc, part)?;
        list.reserve_one()?;
        list.push_reserved(&edit);
    }
    Ok(list)
}

/// How many edits a list has, and what stands at a place and from there on.
fn list_shown(alloc: Global, list: &EditList, place: u32) -> Result<String, AllocError> {
    let mut text = String::new(alloc);
    let count = list.len();
    write!(text, "{count} edits, at {place}:")?;
    match list.get(place) {
        Some(edit) => push_changes(&mut text, edit.changes())?,
        None => text.push_str(" none")?,
    }
    write!(text, ", from {place} on:")?;
    if place <= count {
        push_list(&mut text, &list.tail(place)?)?;
    }
    Ok(text)
}

/// Adds the edits of a list.
fn push_list(text: &mut String, list: &EditList) -> Result<(), AllocError> {
    if list.is_empty() {
        return text.push_str(" none");
    }
    for place in 0..list.len() {
        push_changes(text, list.changes_at(place))?;
    }
    Ok(())
}

/// Adds the changes of an edit, with a plus sign between any two.
pub(crate) fn push_changes(text: &mut String, changes: &[CellChange]) -> Result<(), AllocError> {
    for (place, change) in changes.iter().enumerate() {
        if place > 0 {
            text.push_str(" +")?;
        }
        push_change(text, *change)?;
    }
    Ok(())
}

/// Adds a change of a cell.
fn push_change(text: &mut String, change: CellChange) -> Result<(), AllocError> {
    let Cell { x, y } = change.cell;
    write!(text, " {x} {y} ")?;
    text.push_str(match change.terrain {
        Terrain::Blocked => "blocked",
        Terrain::Land => "land",
        Terrain::Water => "water",
    })
}
