//! The components of a map, from nothing and from those before an edit.

use crate::edits::edited;
use case_kit::{Comparison, Fields, Refusal};
use components::{Labels, label, relabel};
use moves::{Cell, Grid};
use std::alloc::{AllocError, Global};
use std::fmt::Write;

/// `components | MAP`: the number of components, and the map with the number of its component in each cell.
pub fn components(alloc: Global, mut fields: Fields<'_>) -> Result<String, Refusal> {
    let grid = fields.grid(alloc)?;
    let labels = label(alloc, &grid)?;
    Ok(labels_text(alloc, &grid, &labels)?)
}

/// The number of components, and the map with their numbers.
fn labels_text(alloc: Global, grid: &Grid, labels: &Labels) -> Result<String, AllocError> {
    let count = labels.count();
    let mut text = format!(in alloc; "{count} components: ")?;
    for y in 0..grid.height() as u16 {
        if y > 0 {
            text.push('/')?;
        }
        for x in 0..grid.width() as u16 {
            match labels.of(Cell { x, y }) {
                Some(number) => write!(text, "{number}")?,
                None => text.push('@')?,
            }
        }
    }
    Ok(text)
}

/// Compares the components that `relabel` makes after an edit with those that `label` makes of the edited map.
pub struct LabelsAfterEdits;

impl Comparison for LabelsAfterEdits {
    fn differences(&self, alloc: Global, grid: &Grid, seed: u32) -> Result<u32, Refusal> {
        let (new, changed) = edited(alloc, grid, seed)?;
        let former = label(alloc, grid)?;
        let found = relabel(alloc, &former, grid, &new, &changed)?;
        let anew = label(alloc, &new)?;
        let is_same = labels_text(alloc, &new, &found)? == labels_text(alloc, &new, &anew)?;
        Ok(u32::from(!is_same))
    }
}
