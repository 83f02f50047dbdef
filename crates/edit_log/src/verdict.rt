//! Whether an edit is accepted.

ghost use Rattle.std.specs.Prelude.{◌≡◌, ◌≢◌, ◌↔◌, ◌≤◌, All, length, IsTrue, IfErr, OnOk};
ghost use Rattle.moves.specs.Maps.{IsSearchable};
ghost use Rattle.edit_log.specs.declared.TheConstants.{MAX_CHANGES};
ghost use Rattle.edit_log.specs.Edits.{ChangesInside, HasNoRepeats, edited};
ghost use Rattle.edit_log.specs.Verdicts.{IsRefusal, MayBeAccepted};

use crate::MAX_EDITS;
use crate::edit::{CellChange, Edit};
use moves::{Cell, Grid, MAX_PASSABLE};
use std::fmt;

/// Why an edit is refused, as cases tried in order.
#[derive(Clone, Copy, Debug, PartialEq, Eq)]
pub enum EditRefusal {
    /// A cell of the edit is outside the map.
    Outside,
    /// Two changes of the edit name the same cell.
    Repeated,
    /// The map after the whole edit would have more passable cells than a search has room for.
    TooManyCells,
    /// The log already has as many edits as it accepts.
    EditsFull,
}

impl fmt::Display for EditRefusal {
    ghost use Rattle.std.specs.Prelude.{Some};
    ghost use Rattle.edit_log.specs.Verdicts.{refusal_text};

    ghost output = { λ refusal. Some (refusal_text refusal) };

    fn fmt<W: fmt::Write>(&self, f: &mut fmt::Formatter<W>) -> fmt::Result {
        match self {
            EditRefusal::Outside => write!(f, "outside"),
            EditRefusal::Repeated => write!(f, "repeated"),
            EditRefusal::TooManyCells => write!(f, "too many cells"),
            EditRefusal::EditsFull => write!(f, "edits full"),
        }
    }
}

/// Checks whether the edit may be accepted on a map after `accepted` edits. The map is not copied,
/// and its cells are not counted again.
///
/// # Errors
///
/// The first reason to refuse the edit.
pub fn check(grid: &Grid, accepted: u32, edit: &Edit) -> Result<(), EditRefusal>
    ensures accepted { OnOk result (MayBeAccepted grid.now accepted edit.now) }
    ensures refused { IfErr result (IsRefusal grid.now accepted edit.now) }
{
    let changes = edit.changes();
    if !are_inside(changes, grid) {
        return Err(EditRefusal::Outside);
    }
    if !names_each_once(changes) {
        return Err(EditRefusal::Repeated);
    }
    if !leaves_few(changes, grid) {
        return Err(EditRefusal::TooManyCells);
    }
    if accepted >= MAX_EDITS {
        return Err(EditRefusal::EditsFull);
    }
    Ok(())
}

/// Returns whether each changed cell is inside the map.
fn are_inside(changes: &[CellChange], grid: &Grid) -> bool
    ensures { IsTrue result ↔ ChangesInside grid.now changes.now }
{
    changes.iter().all(|change| grid.inside(change.cell))
}

/// Returns whether no two changes name the same cell.
fn names_each_once(changes: &[CellChange]) -> bool
    ensures { IsTrue result ↔ HasNoRepeats changes.now }
{
    for place in 0..changes.len() {
        if !is_new(changes[place].cell, &changes[..place]) {
            return false;
        }
    }
    true
}

/// Returns whether none of these changes names the cell.
fn is_new(cell: Cell, changes: &[CellChange]) -> bool
    ensures { IsTrue result ↔ All (λ change. cell ≢ change.cell) changes.now }
{
    changes.iter().all(|change| change.cell != cell)
}

/// Returns whether a search has room for the passable cells of the map after all these changes, no
/// two of which may name the same cell.
fn leaves_few(changes: &[CellChange], grid: &Grid) -> bool
    requires inside { ChangesInside grid.now changes.now }
    requires once { HasNoRepeats changes.now }
    requires few { length changes.now ≤ MAX_CHANGES }
    ensures { IsTrue result ↔ IsSearchable (edited grid.now changes.now) }
{
    // From here it is known that the map has as many cells as its sides say.
    grid.width();
    let mut lost = 0;
    let mut gained = 0;
    for change in changes {
        lost += u32::from(grid.passable(change.cell));
        gained += u32::from(change.terrain.is_passable());
    }
    grid.passable_count() + gained <= MAX_PASSABLE + lost
}
