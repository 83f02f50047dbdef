//! The image of a map, put together from its parts.
//!
//! The words of the image are put one behind the other. Where the rows of a component begin stands before their runs,
//! so the rows are gone over several times.

ghost use Rattle.std.specs.Prelude.{◌≡◌, ◌+◌, ◌*◌, ◌<◌, ◌≤◌, ◌^◌, IfOk, OnErr, OnOk, length, map};
ghost use Rattle.path_image.specs.Images.{cell_word};
ghost use Rattle.bake_parts.specs.Joins.{AreNoParts, AreNoRows, CountsRuns, HasTable, IsNoTable, PassesRows, PassesTable, PutsBorders, PutsRuns, PutsStarts, PutsTable, PutsTables, PutsWords, SizesTables};

use crate::component::{Component, component_in};
use crate::fault::BrokenPart;
use crate::part_rows::PartRows;
use crate::room::put;
use moves::{Cell, MAX_PASSABLE};
use path_image::HALF;

/// How many runs the rows of a component with so many cells have.
///
/// # Errors
///
/// Where the rows are not those that are next, or their words end too early.
pub(crate) fn count_runs(
    rows: &mut PartRows<'_>,
    component: u32,
    size: u32,
) -> Result<u32, BrokenPart>
    requires { size ≤ MAX_PASSABLE }
    ensures runs { IfOk result (CountsRuns component size rows.old) }
    ensures few { IfOk result (λ runs. runs ≤ 32768 * size) }
    ensures passed { OnOk result (PassesRows component size rows.old rows.new) }
    ensures none { OnErr result (AreNoRows component size rows.old) }
{
    let mut runs = 0;
    for place in 0..size {
        let row = rows.next(component, place, size)?;
        runs += row.len() as u32;
    }
    Ok(runs)
}

/// How many words the table of a component has.
///
/// # Errors
///
/// Where the rows are not those that are next, or their words end too early.
pub(crate) fn table_size(
    component: &Component,
    number: u32,
    rows: &mut PartRows<'_>,
) -> Result<u32, BrokenPart>
    ensures size { IfOk result (HasTable number component.now rows.old) }
    ensures few { IfOk result (λ size. size < 2 ^ 31) }
    ensures passed { OnOk result (PassesTable number component.now rows.old rows.new) }
    ensures none { OnErr result (IsNoTable number component.now rows.old) }
{
    let size = component.size();
    let runs = count_runs(rows, number, size)?;
    Ok(2 * size + 2 + runs)
}

/// Puts the table of a component. Says where it ends.
///
/// # Errors
///
/// Where the rows are not those that are next, or their words end too early.
pub(crate) fn put_table(
    component: &Component,
    number: u32,
    rows: &mut PartRows<'_>,
    room: &mut [u32],
    at: usize,
) -> Result<usize, BrokenPart>
    requires { at + 2 ^ 31 < 2 ^ 64 }
    ensures table { IfOk result (PutsTable number component.now rows.old at room.old room.new) }
    ensures few { IfOk result (λ end. end ≤ at + 2 ^ 31) }
    ensures passed { OnOk result (PassesTable number component.now rows.old rows.new) }
    ensures none { OnErr result (IsNoTable number component.now rows.old) }
{
    let size = component.size();
    let at = put(&[size], room, at);
    let at = put_cells(component.cells(), room, at);
    let at = put_borders(rows, number, size, room, at)?;
    let end = put_runs(rows, number, size, room, at)?;
    Ok(end)
}

/// Puts the words of cells. Says where they end.
fn put_cells(cells: &[Cell], room: &mut [u32], at: usize) -> usize
    requires few { length cells.now ≤ MAX_PASSABLE }
    requires at { at + MAX_PASSABLE < 2 ^ 64 }
    ensures { PutsWords at result room.old room.new (map cell_word cells.now) }
{
    let mut end = at;
    for cell in cells {
        end = put(&[cell_word(*cell)], room, end);
    }
    end
}

/// The word of a cell.
fn cell_word(cell: Cell) -> u32
    ensures { result ≡ cell_word cell }
{
    u32::from(cell.y) * HALF + u32::from(cell.x)
}

/// Puts where the rows of a component begin and the last ends. Says where these words end.
fn put_borders(
    from: &PartRows<'_>,
    component: u32,
    size: u32,
    room: &mut [u32],
    at: usize,
) -> Result<usize, BrokenPart>
    requires size { size ≤ MAX_PASSABLE }
    requires at { at + 2 ^ 30 < 2 ^ 64 }
    ensures borders { IfOk result (PutsBorders component size from.now at room.old room.new) }
    ensures end { IfOk result (λ end. end ≡ at + size + 1) }
    ensures none { OnErr result (AreNoRows component size from.now) }
{
    let mut rows = *from;
    let mut border = 0;
    let mut end = at;
    for place in 0..size {
        end = put(&[border], room, end);
        let row = rows.next(component, place, size)?;
        border += row.len() as u32;
    }
    Ok(put(&[border], room, end))
}

/// Puts the runs of the rows of a component. Says where they end.
fn put_runs(
    rows: &mut PartRows<'_>,
    component: u32,
    size: u32,
    room: &mut [u32],
    at: usize,
) -> Result<usize, BrokenPart>
    requires size { size ≤ MAX_PASSABLE }
    requires at { at + 2 ^ 30 < 2 ^ 64 }
    ensures runs { IfOk result (PutsRuns component size rows.old at room.old room.new) }
    ensures few { IfOk result (λ end. end ≤ at + 2 ^ 30) }
    ensures passed { OnOk result (PassesRows component size rows.old rows.new) }
    ensures none { OnErr result (AreNoRows component size rows.old) }
{
    let mut end = at;
    for place in 0..size {
        let row = rows.next(component, place, size)?;
        end = put(row, room, end);
    }
    Ok(end)
}

/// How many words the tables of all components have. The parts have their rows and no more words.
///
/// # Errors
///
/// The first part that isn't the one that is next, or ends too early.
pub(crate) fn tables_size(components: &[Component], parts: &[u32]) -> Result<u64, BrokenPart>
    requires { length components.now ≤ MAX_PASSABLE }
    ensures size { IfOk result (SizesTables components.now parts.now) }
    ensures few { IfOk result (λ size. size ≤ 2 ^ 46) }
    ensures none { OnErr result (AreNoParts components.now parts.now) }
{
    let mut rows = PartRows::of(parts);
    let mut size = 0;
    for number in 0..components.len() {
        let table = table_size(&components[number], number as u32, &mut rows)?;
        size += u64::from(table);
    }
    if rows.is_done() {
        Ok(size)
    } else {
        Err(rows.broken())
    }
}

/// Puts where the tables of all components begin, the first at `start`. Says where these words end.
///
/// # Errors
///
/// The first part that isn't the one that is next, or ends too early.
pub(crate) fn put_starts(
    components: &[Component],
    start: u32,
    parts: &[u32],
    room: &mut [u32],
    at: usize,
) -> Result<usize, BrokenPart>
    requires many { length components.now ≤ MAX_PASSABLE }
    requires at { at < 2 ^ 62 }
    ensures starts { IfOk result (
        PutsStarts components.now start parts.now at room.old room.new) }
    ensures end { IfOk result (λ end. end ≡ at + length components.now) }
    ensures none { OnErr result (AreNoParts components.now parts.now) }
{
    let mut rows = PartRows::of(parts);
    let mut begin = start;
    let mut end = at;
    for number in 0..components.len() {
        end = put(&[begin], room, end);
        let component = component_in(components, number);
        let table = table_size(component, number as u32, &mut rows)?;
        begin = begin.wrapping_add(table);
    }
    Ok(end)
}

/// Puts the tables of all components. Says where they end.
///
/// # Errors
///
/// The first part that isn't the one that is next, or ends too early.
pub(crate) fn put_tables(
    components: &[Component],
    parts: &[u32],
    room: &mut [u32],
    at: usize,
) -> Result<usize, BrokenPart>
    requires many { length components.now ≤ MAX_PASSABLE }
    requires at { at < 2 ^ 62 }
    ensures tables { IfOk result (PutsTables components.now parts.now at room.old room.new) }
    ensures none { OnErr result (AreNoParts components.now parts.now) }
{
    let mut rows = PartRows::of(parts);
    let mut end = at;
    for number in 0..components.len() {
        end = put_table(&components[number], number as u32, &mut rows, room, end)?;
    }
    Ok(end)
}
