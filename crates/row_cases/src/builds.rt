//! Rows of a component, built by workers side by side, and look-ups in them.

ghost use Rattle.std.specs.Prelude.{◌≡◌, ◌<◌, IfOk, length, map};
ghost use Rattle.row_store.specs.Rows.{row_at};

use crate::packing::{unpacked, write_runs};
use crate::shapes::component_of;
use build_pool::{FreeGate, Gate, MAX_WORKERS, build_rows};
use case_kit::{Fields, Refusal};
use cell_order::OrderKind;
use row_store::CompData;
use run_pack::Run;
use run_pack::steps::Steps;
use std::alloc::{AllocError, Global};
use std::fmt::Write;
use std::marker::Brand;
use std::sync::atomic::{AtomicU32, Ordering};
use std::sync::ledger::{Blank, Ledger};
use std::thread::Threads;

/// How long a gate holds a worker, in turns of its loop.
const TURNS: u64 = 1_000_000_000;

/// A gate that holds each worker until all of them have arrived.
#[derive(Drop)]
struct HoldGate {
    workers: u32,
    /// How many have arrived, less those that gave up waiting.
    entered: AtomicU32,
}

impl Gate for HoldGate {
    fn enter(&self, _piece: u32) {
        self.entered.fetch_add(1, Ordering::SeqCst);
        for _ in 0..TURNS {
            if self.entered.load(Ordering::SeqCst) >= self.workers {
                return;
            }
        }
        self.entered.fetch_sub(1, Ordering::SeqCst);
    }
}

/// `rows | ORDER | WORKERS | MAP`: builds the rows of the map's first component. Each worker waits at a gate for the
/// others; prints the rows and how many workers met there.
pub fn rows<R: Threads + Sync>(
    rt: &R,
    alloc: Global,
    mut fields: Fields<'_>,
) -> Result<String, Refusal> {
    let (kind, workers) = (fields.order()?, fields.number()?);
    let cells = component_of(alloc, &fields.grid(alloc)?)?;
    if workers == 0 || workers > MAX_WORKERS {
        return Err(Refusal::OutOfForm);
    }
    let gate = HoldGate {
        workers,
        entered: AtomicU32::new(0),
    };
    let comp = build_rows(rt, alloc, kind, &cells, workers, &gate)?;
    let mut text = rows_text(alloc, &comp)?;
    let entered = gate.entered.load(Ordering::SeqCst);
    write!(text, ", {entered} side by side")?;
    Ok(text)
}

/// The rows of a component separated by `/`, the number of their runs, and the cells in their order.
fn rows_text(alloc: Global, comp: &CompData) -> Result<String, AllocError> {
    let mut text = String::new(alloc);
    for from in 0..comp.cells().len() as u32 {
        if from > 0 {
            text.push('/')?;
        }
        write_runs(&mut text, &unpacked(alloc, comp.row(from))?)?;
    }
    write!(text, ", {} runs, cells", comp.runs())?;
    for cell in comp.cells() {
        write!(text, " {},{}", cell.x, cell.y)?;
    }
    Ok(text)
}

/// `remade | MAP`: the same rows, of the component that is made anew from lists of their runs.
pub fn remade<R: Threads + Sync>(
    rt: &R,
    alloc: Global,
    mut fields: Fields<'_>,
) -> Result<String, Refusal> {
    let cells = component_of(alloc, &fields.grid(alloc)?)?;
    let comp = build_rows(rt, alloc, OrderKind::Rows, &cells, 1, &FreeGate)?;
    let rows = rows_of(alloc, &comp)?;
    let cells = Vec::from_slice(alloc, comp.cells())?;
    let comp = CompData::make(alloc, comp.kind(), cells, rows)?;
    Ok(rows_text(alloc, &comp)?)
}

/// The runs of all rows.
fn rows_of(alloc: Global, comp: &CompData) -> Result<Vec<Vec<Run>>, AllocError>
    ensures { IfOk result (λ rows. map (λ row. row.items) rows.items ≡ comp.now.rows) }
{
    let mut rows = Vec::new(alloc);
    for from in 0..comp.cells().len() as u32 {
        rows.push(runs_of(alloc, comp, from)?)?;
    }
    Ok(rows)
}

/// The runs of a row.
fn runs_of(alloc: Global, comp: &CompData, from: u32) -> Result<Vec<Run>, AllocError>
    requires { from < length comp.now.cells }
    ensures { IfOk result (λ runs. runs.items ≡ row_at comp.now.rows from) }
{
    let mut runs = Vec::new(alloc);
    for place in 0..comp.row_len(from) {
        runs.push(comp.row_run(from, place))?;
    }
    Ok(runs)
}

/// `look up | MAP`: looks up the move from each cell of the map's first component to each other cell, and marks it with
/// a `?` where a look-up from a guess finds a different one.
pub fn look_up<R: Threads + Sync>(
    rt: &R,
    alloc: Global,
    mut fields: Fields<'_>,
) -> Result<String, Refusal> {
    let cells = component_of(alloc, &fields.grid(alloc)?)?;
    let comp = build_rows(rt, alloc, OrderKind::Rows, &cells, 1, &FreeGate)?;
    Ok(looked_up::<Brand>(alloc, &comp, Blank::new(1))?)
}

/// Looks up all moves, counting the steps.
fn looked_up<L: Ledger>(alloc: Global, comp: &CompData, blank: Blank) -> Result<String, AllocError>
    requires name { blank.name ≡ L.name }
    requires parts { blank.parts ≡ L.parts }
    requires some { 0 < blank.parts }
{
    let (mut steps, mut guess) = (Steps::<L>::new(blank), usize::MAX);
    let mut text = String::new(alloc);
    let count = comp.cells().len() as u32;
    for from in 0..count {
        for to in 0..count {
            if from != to {
                let name = comp.first_move(from, to, &mut steps);
                let is_same = comp.first_move_near(from, to, &mut guess) == name;
                write!(text, "{name}{}", if is_same { " " } else { "? " })?;
            }
        }
    }
    write!(text, "from {count} cells")?;
    Ok(text)
}

/// The number of rows in which two components differ, or `u32::MAX` where even their cells differ.
pub fn rows_differ(found: &CompData, wanted: &CompData) -> u32 {
    if found.cells() != wanted.cells() {
        return u32::MAX;
    }
    let mut differences: u32 = 0;
    for from in 0..wanted.cells().len() as u32 {
        if from as usize >= found.cells().len() || found.row(from) != wanted.row(from) {
            differences = differences.saturating_add(1);
        }
    }
    differences
}
