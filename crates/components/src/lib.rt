//! The connected components of a map: the cells that paths join.
//!
//! No legal move cuts a corner, so straight moves alone give the same components, and one flood by
//! straight moves finds each. No move leads from land to water or back, so each component is all
//! land or all water. Components are numbered by their least cells in row-major order, land and
//! water together.
//!
//! Two cells that touch at a corner alone are two components, which each cell is labelled with:
//!
//! ```text
//! components | .@/@.
//! 2 components: 0@/@1
//! ```
#![tactic(auto)]

ghost use Rattle.std.specs.Prelude.{◌≡◌, ℕ, ◌+◌, ◌<◌, ◌≤◌, [], length, slice_index_or, IfOk, IfSome, IfNone};
ghost use Rattle.moves.specs.Maps.{place_of};
ghost use Rattle.moves.specs.Components.{IsComponentList};
ghost use Rattle.components.specs.Groups.{IsLabelOf, LabelsAreWherePassable};
ghost use Rattle.components.specs.Edits.{HaveSameSides, AreChanged};

mod edits;
mod flood;
mod groups;
mod regrowth;

use edits::Edit;
use flood::Flood;
use groups::gather;
use moves::{Cell, Grid, MAX_SIDE};
use std::alloc::{AllocError, Global};
use std::marker::Model;

/// The label of a place that is in no component.
const UNLABELLED: u32 = u32::MAX;

/// The components of a map in the order of their least cells, and the number of each cell's component.
#[derive(Drop)]
pub struct Labels {
    width: u32,
    height: u32,
    /// The label of each place, row by row.
    labels: Vec<u32>,
    /// Where the cells of each component begin among the cells, and where those of the last one
    /// end.
    starts: Vec<u32>,
    /// The cells, component by component.
    cells: Vec<Cell>,
}

impl Model for Labels {
    ghost use Rattle.std.specs.Prelude.{◌-◌, List, length};
    ghost use Rattle.moves.specs.declared.Cell.{Cell};
    ghost use Rattle.components.specs.Groups.{components_of, IsWhole};

    ghost Value = { List (List Cell) };

    ghost view = { λ l. components_of l.width l.labels.items (length l.starts.items - 1) };

    ghost invariant = { λ l. IsWhole l.width l.height l.labels.items l.starts.items l.cells.items };
}

/// Returns the components of a map.
///
/// # Errors
///
/// `AllocError` if memory runs out.
pub fn label(alloc: Global, grid: &Grid) -> Result<Labels, AllocError>
    ensures { IfOk result (λ labels. IsComponentList grid.now labels) }
{
    let mut flood = Flood::new(alloc, grid)?;
    let mut starts = flood.scan(alloc, grid)?;
    let (labels, mut cells) = flood.into_parts();
    let width = grid.width();
    gather(width, &labels, &mut starts, &mut cells);
    Ok(Labels {
        width,
        height: grid.height(),
        labels,
        starts,
        cells,
    })
}

/// Returns the components of a map after an edit, from those before it. Components that no changed
/// cell touches keep their cells, and only the others are flooded again. `changed` must have every
/// cell whose terrain differs in the two maps.
///
/// # Errors
///
/// `AllocError` if memory runs out.
pub fn relabel(
    alloc: Global,
    labels: &Labels,
    old: &Grid,
    new: &Grid,
    changed: &[Cell],
) -> Result<Labels, AllocError>
    requires labels { IsComponentList old.now labels.now }
    requires sides { HaveSameSides old.now new.now }
    requires changed { AreChanged old.now new.now changed.now }
    ensures { IfOk result (λ labels. IsComponentList new.now labels) }
{
    let (width, height) = (new.width(), new.height());
    let edit = Edit::of(alloc, labels, old, new, changed)?;
    let mut flood = Flood::new(alloc, new)?;
    let (starts, cells) = flood.regrow(alloc, new, &edit)?;
    let (labels, _found) = flood.into_parts();
    Ok(Labels {
        width,
        height,
        labels,
        starts,
        cells,
    })
}

impl Labels {
    /// Returns the number of components.
    pub fn count(&self) -> u32
        ensures { result ≡ length self.now }
    {
        self.starts.len() as u32 - 1
    }

    /// Returns the number of the component that has the cell, and `None` exactly when none has it:
    /// for a blocked cell or one outside ([`labels_are_where_passable`]).
    pub fn of(&self, cell: Cell) -> Option<u32>
        ensures some { IfSome result (λ label. IsLabelOf self.now cell label) }
        ensures none { IfNone result ((label : ℕ) → IsLabelOf self.now cell label → ⊥) }
        ensures alone { (label : ℕ) → IsLabelOf self.now cell label → result ≡ Some label }
    {
        let (x, y) = (u32::from(cell.x), u32::from(cell.y));
        if x >= self.width || y >= self.height {
            return None;
        }
        let label = self.labels[(y * self.width + x) as usize];
        if label == UNLABELLED {
            None
        } else {
            Some(label)
        }
    }

    /// Returns the cells of a component in row-major order.
    pub fn cells(&self, label: u32) -> &[Cell]
        requires { label < length self.now }
        ensures { result.now ≡ slice_index_or self.now label [] }
    {
        let start = self.starts[label as usize] as usize;
        let end = self.starts[label as usize + 1] as usize;
        &self.cells[start..end]
    }
}

/// The law of labels: in the components of a map, exactly the passable cells have a number. So if
/// the components are a map's, [`Labels::of`] is `None` exactly for a blocked cell or one outside.
pub fn labels_are_where_passable()
    ensures { LabelsAreWherePassable }
{}

/// Returns the next cell in row-major order.
fn after(cell: Cell, width: u32) -> Cell
    requires column { cell.x < width }
    requires width { width ≤ MAX_SIDE }
    requires row { cell.y < MAX_SIDE }
    ensures column { result.x < width }
    ensures place { place_of width result ≡ place_of width cell + 1 }
{
    if u32::from(cell.x) + 1 < width {
        Cell {
            x: cell.x + 1,
            y: cell.y,
        }
    } else {
        Cell {
            x: 0,
            y: cell.y + 1,
        }
    }
}
