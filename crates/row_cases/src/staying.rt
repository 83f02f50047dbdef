//! Rows built from those of the component before an edit, compared with rows built from nothing.

ghost use Rattle.build_pool.specs.Places.{CanBeBuilt};

use crate::builds::rows_differ;
use crate::edits::edited;
use crate::shapes::{component_of, first_component, in_order};
use build_pool::{Crew, FreeGate, KnownRows, build_rows, build_rows_knowing};
use case_kit::{Family, Fields, Refusal};
use cell_order::OrderKind;
use kept_rows::rows_after;
use lane_rows::Near;
use moves::{Cell, Grid};
use row_store::{CompData, RowPool};
use std::alloc::{AllocError, Global};
use std::thread::Threads;

/// The component before an edit, whose rows may stay.
#[derive(Drop)]
struct Former<'a> {
    comp: &'a CompData,
}

impl<'a> KnownRows for Former<'a> {
    fn known(
        &self,
        alloc: Global,
        cells: &[Cell],
        near: &Near,
    ) -> Result<Option<RowPool>, AllocError> {
        rows_after(alloc, self.comp, cells, near)
    }
}

/// `rows after edits and anew | FAMILY`: the number of maps, and of rows of their first components that differ when they
/// are built from those before an edit. It is no `Comparison`, as a trait's method can't share `rt` among threads.
pub fn rows_after_edits<R: Threads + Sync>(
    rt: &R,
    alloc: Global,
    family: &str,
) -> Result<String, Refusal> {
    let maps = Family::of(alloc, family)?;
    let (_, count) = family.rsplit_once(' ').unwrap_or(("", family));
    let count: u32 = count.parse().map_err(|_| Refusal::OutOfForm)?;
    let mut differences: u32 = 0;
    for seed in 0..count {
        let more = after_edit(rt, alloc, &maps.map(alloc, seed)?, seed)?;
        differences = differences.saturating_add(more);
    }
    Ok(format!(in alloc; "{count} maps, {differences} differences")?)
}

/// The number of rows that differ after an edit of the map, and after it is undone.
fn after_edit<R: Threads + Sync>(
    rt: &R,
    alloc: Global,
    grid: &Grid,
    seed: u32,
) -> Result<u32, AllocError> {
    let (map, _changed) = edited(alloc, grid, seed)?;
    match (first_component(alloc, grid)?, first_component(alloc, &map)?) {
        (Some(old), Some(new)) => both_ways(rt, alloc, &old, &new),
        _ => Ok(0),
    }
}

/// Builds two components, each from the rows of the other, and counts the rows unlike those built from nothing.
fn both_ways<R: Threads + Sync>(
    rt: &R,
    alloc: Global,
    old: &[Cell],
    new: &[Cell],
) -> Result<u32, AllocError>
    requires old { CanBeBuilt old.now }
    requires new { CanBeBuilt new.now }
{
    let before = build_rows(rt, alloc, OrderKind::Rows, old, 1, &FreeGate)?;
    let anew = build_rows(rt, alloc, OrderKind::Rows, new, 1, &FreeGate)?;
    let after = built_after(rt, alloc, new, &before)?;
    let back = built_after(rt, alloc, old, &anew)?;
    Ok(rows_differ(&after, &anew).saturating_add(rows_differ(&back, &before)))
}

/// Builds the component with these cells from the rows of a former one, by four workers.
fn built_after<R: Threads + Sync>(
    rt: &R,
    alloc: Global,
    cells: &[Cell],
    former: &CompData,
) -> Result<CompData, AllocError>
    requires { CanBeBuilt cells.now }
{
    let crew = Crew {
        rt,
        workers: 4,
        gate: &FreeGate,
    };
    let known = Former { comp: former };
    build_rows_knowing(&crew, alloc, OrderKind::Rows, cells, &known)
}

/// `known rows | MAP | X Y, X Y`: whether most rows of the map's first component stay when these cells are blocked, and
/// when they are freed again.
pub fn known_rows<R: Threads + Sync>(
    rt: &R,
    alloc: Global,
    mut fields: Fields<'_>,
) -> Result<String, Refusal> {
    let grid = fields.grid(alloc)?;
    let mut new = grid.copy()?;
    for cell in fields.cells(alloc)?.iter() {
        if new.inside(*cell) {
            new.set(*cell, false);
        }
    }
    let (old, new) = (component_of(alloc, &grid)?, component_of(alloc, &new)?);
    let blocked = share_known(rt, alloc, &old, &new)?;
    let freed = share_known(rt, alloc, &new, &old)?;
    Ok(format!(in alloc; "blocked: {blocked}, freed: {freed}")?)
}

/// `most` where more than half of the component's rows follow from those of a former one, else `few`.
fn share_known<R: Threads + Sync>(
    rt: &R,
    alloc: Global,
    former: &[Cell],
    cells: &[Cell],
) -> Result<&'static str, AllocError>
    requires former { CanBeBuilt former.now }
    requires cells { CanBeBuilt cells.now }
{
    let former = build_rows(rt, alloc, OrderKind::Rows, former, 1, &FreeGate)?;
    let (cells, near) = in_order(alloc, OrderKind::Rows, cells)?;
    let rows = rows_after(alloc, &former, &cells, &near)?.unwrap_or(RowPool::new(alloc));
    let mut known: usize = 0;
    for place in 0..rows.len() {
        known = known.saturating_add(usize::from(!rows.row(place).is_empty()));
    }
    Ok(if known > cells.len() / 2 {
        "most"
    } else {
        "few"
    })
}
