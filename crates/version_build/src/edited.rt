//! Labels of a map that has the sides of a former version's.

ghost use Rattle.std.specs.Prelude.{◌≡◌, ◌+◌, IfOk, OnOk, IsTrue, IsFalse, ◌↔◌};
ghost use Rattle.moves.specs.Maps.{IsInside, terrain_of};
ghost use Rattle.moves.specs.Components.{IsComponentList};
ghost use Rattle.components.specs.Edits.{HaveSameSides, AreChanged};
ghost use Rattle.version_build.specs.Edited.{AreChangedBefore};

use components::{Labels, label, relabel};
use moves::{Cell, Grid};
use std::alloc::{AllocError, Global};
use versions::Version;

/// The components of a map. Those of a former version with the same sides that no changed cell touches are not flooded
/// again.
pub(crate) fn labels_of(
    alloc: Global,
    former: Option<&Version>,
    grid: &Grid,
) -> Result<Labels, AllocError>
    ensures { IfOk result (λ labels. IsComponentList grid.now labels) }
{
    match former {
        Some(version) => {
            if have_same_sides(version.grid(), grid) {
                labels_after(alloc, version, grid)
            } else {
                label(alloc, grid)
            }
        }
        None => label(alloc, grid),
    }
}

/// The components of a map with the sides of the former version's.
fn labels_after(alloc: Global, former: &Version, grid: &Grid) -> Result<Labels, AllocError>
    requires { HaveSameSides former.now.map grid.now }
    ensures { IfOk result (λ labels. IsComponentList grid.now labels) }
{
    let old = former.grid();
    let changed = changed_cells(alloc, old, grid)?;
    relabel(alloc, former.labels(), old, grid, &changed)
}

/// Whether both maps have the same sides.
fn have_same_sides(a: &Grid, b: &Grid) -> bool
    ensures { IsTrue result ↔ HaveSameSides a.now b.now }
{
    a.width() == b.width() && a.height() == b.height()
}

/// The cells at which something else stands in the one map than in the other, in row-major order.
fn changed_cells(alloc: Global, old: &Grid, new: &Grid) -> Result<Vec<Cell>, AllocError>
    requires { HaveSameSides old.now new.now }
    ensures { IfOk result (λ changed. AreChanged old.now new.now changed.items) }
{
    let mut changed = Vec::new(alloc);
    for row in 0..old.height() {
        push_changed(old, new, row as u16, &mut changed)?;
    }
    Ok(changed)
}

/// Adds those of a row.
fn push_changed(old: &Grid, new: &Grid, row: u16, changed: &mut Vec<Cell>) -> Result<(), AllocError>
    requires sides { HaveSameSides old.now new.now }
    requires before { AreChangedBefore old.now new.now 0 row changed.old.items }
    ensures { OnOk result (AreChangedBefore old.now new.now 0 (row + 1) changed.new.items) }
{
    for column in 0..old.width() {
        let cell = Cell {
            x: column as u16,
            y: row,
        };
        if differ(old, new, cell) {
            changed.push(cell)?;
        }
    }
    Ok(())
}

/// Whether something else stands at the cell in the one map than in the other.
fn differ(old: &Grid, new: &Grid, cell: Cell) -> bool
    requires { HaveSameSides old.now new.now }
    ensures { IsFalse result → IsInside old.now cell → terrain_of new.now cell ≡ terrain_of old.now cell }
{
    old.terrain(cell) != new.terrain(cell)
}
