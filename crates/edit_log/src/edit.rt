//! One edit of a map.

ghost use Rattle.std.specs.Prelude.{◌≡◌, ◌↔◌, ◌≤◌, [], ◌∷◌, length, All, IfSome, IsSome};
ghost use Rattle.moves.specs.Maps.{IsInside};
ghost use Rattle.edit_log.specs.declared.TheConstants.{MAX_CHANGES};
ghost use Rattle.edit_log.specs.Edits.{ChangesInside, edited};

use crate::MAX_CHANGES;
use moves::{Cell, Grid, Terrain};
use std::marker::Model;

/// One cell, and what it becomes.
#[derive(Clone, Copy, Debug, PartialEq, Eq)]
pub struct CellChange {
    /// The cell.
    pub cell: Cell,
    /// What it becomes.
    pub terrain: Terrain,
}

/// Fills an edit past its changes.
const NO_CHANGE: CellChange = CellChange {
    cell: Cell { x: 0, y: 0 },
    terrain: Terrain::Blocked,
};

/// An edit: 1 to [`MAX_CHANGES`] changes of cells, made together, so that no map is seen with only
/// some of them. Contracts see the list of its changes.
#[derive(Clone, Copy, Debug, PartialEq, Eq)]
pub struct Edit {
    changes: [CellChange; MAX_CHANGES],
    count: u8,
}

impl Model for Edit {
    ghost use Rattle.std.specs.Prelude.{List, length, take};
    ghost use Rattle.edit_log.specs.declared.edit.CellChange.{CellChange};

    ghost Value = { List CellChange };

    ghost use Rattle.edit_log.specs.Padding.{IsPadded, padded, padded_again};

    ghost view = { λ edit. take edit.count edit.changes };

    ghost invariant = { λ edit. IsPadded edit.changes edit.count };

    ghost inverse = { λ changes. record { changes = padded changes; count = length changes } };

    ghost inverse_ok = { λ edit is. padded_again edit is };
}

impl Edit {
    /// Returns the edit of that one change.
    pub fn one(change: CellChange) -> Edit
        ensures { result ≡ change ∷ [] }
    {
        let mut changes = [NO_CHANGE; MAX_CHANGES];
        changes[0] = change;
        Edit { changes, count: 1 }
    }

    /// Returns the edit of these changes in order, or `None` if there are none or more than
    /// [`MAX_CHANGES`].
    pub fn of(changes: &[CellChange]) -> Option<Edit>
        ensures edit { IfSome result (λ edit. edit ≡ changes.now) }
        ensures some { IsSome result ↔ (1 ≤ length changes.now) × (length changes.now ≤ MAX_CHANGES) }
    {
        if changes.is_empty() || changes.len() > MAX_CHANGES {
            return None;
        }
        let mut all = [NO_CHANGE; MAX_CHANGES];
        all[..changes.len()].copy_from_slice(changes);
        Some(Edit {
            changes: all,
            count: changes.len() as u8,
        })
    }

    /// Returns the changes in order.
    pub fn changes(&self) -> &[CellChange]
        ensures changes { result.now ≡ self.now }
        ensures some { 1 ≤ length self.now }
        ensures few { length self.now ≤ MAX_CHANGES }
    {
        &self.changes[..usize::from(self.count)]
    }

    /// Makes the changes. The other cells stay as they are.
    pub fn apply(&self, grid: &mut Grid)
        requires inside { ChangesInside grid.old self.now }
        ensures { grid.new ≡ edited grid.old self.now }
    {
        make(self.changes(), grid);
    }
}

/// Makes the changes, one after another. The other cells stay as they are.
pub(crate) fn make(changes: &[CellChange], grid: &mut Grid)
    requires inside { ChangesInside grid.old changes.now }
    ensures { grid.new ≡ edited grid.old changes.now }
{
    for change in changes {
        grid.set_terrain(change.cell, change.terrain);
    }
}
