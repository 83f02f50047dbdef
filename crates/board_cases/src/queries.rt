//! What a version tells of itself, where its paths go on, its walks, near radii, and reports on scenarios.

ghost use Rattle.std.specs.Prelude.{◌≡◌, ◌<◌, IfOk, map};
ghost use Rattle.std.specs.Arc.{arc_value};

use crate::case::{Case, all_cells, version_of};
use case_kit::{Refusal, escaped, unescaped};
use cell_order::OrderKind;
use moves::{Cell, MAX_PASSABLE};
use near_rows::NearVersion;
use row_store::CompData;
use run_pack::steps::Steps;
use scen_read::{MAX_SCEN_BYTES, ScenError, read_scen};
use scen_run::{report, run_lines};
use std::alloc::{AllocError, Global};
use std::fmt::Write;
use std::marker::Brand;
use std::sync::Arc;
use std::sync::ledger::{Blank, Ledger};
use std::thread::Threads;
use versions::{Next, QueryRefusal, Version};
use walker::{Walk, measure};

impl<R: Threads + Sync> Case<'_, R> {
    /// `version | MAP | ORDER | EDITS`: what the version of a map after so many edits tells of itself, once it is
    /// assembled anew of its components.
    pub(crate) fn version_said(&mut self) -> Result<String, Refusal> {
        let grid = self.fields.grid(self.alloc)?;
        let kind = self.fields.order()?;
        let prefix = self.fields.number()?;
        let version = version_of(self.rt, self.alloc, grid, prefix, kind)?;
        Ok(version_shown(self.alloc, &assembled(self.alloc, &version)?)?)
    }

    /// `next | MAP | ORDER | X Y | X Y`: where the path goes on from the first cell to the second.
    pub(crate) fn next_said(&mut self) -> Result<String, Refusal> {
        let version = self.version()?;
        let (start, goal) = (self.fields.cell()?, self.fields.cell()?);
        Ok(match next_at(&version, start, goal) {
            Ok(Next::Arrived) => String::from_str(self.alloc, "arrived")?,
            Ok(Next::Unreachable) => String::from_str(self.alloc, "unreachable")?,
            Ok(Next::Go(by)) => format!(in self.alloc; "go {by}")?,
            Err(why) => format!(in self.alloc; "{why}")?,
        })
    }

    /// `walk | MAP | ORDER | X Y | X Y`: the moves of the walk between two cells, where it ends, and what it costs.
    pub(crate) fn walk_said(&mut self) -> Result<String, Refusal> {
        let version = self.version()?;
        let (start, goal) = (self.fields.cell()?, self.fields.cell()?);
        Ok(walk_shown(self.alloc, &version, start, goal)?)
    }

    /// `radius | MAP | ORDER | X Y`: the near radius of a cell.
    pub(crate) fn radius_said(&mut self) -> Result<String, Refusal> {
        let version = self.version()?;
        let near = near_of(self.alloc, version)?;
        Ok(match near.radius(self.fields.cell()?) {
            Some(radius) => format!(in self.alloc; "{radius}")?,
            None => String::from_str(self.alloc, "none")?,
        })
    }

    /// `scenarios | MAP | FILE`: the report on a scenario file, both with escapes.
    pub(crate) fn scenarios_said(&mut self) -> Result<String, Refusal> {
        let grid = self.fields.grid(self.alloc)?;
        let version = version_of(self.rt, self.alloc, grid, 0, OrderKind::Rows)?;
        let file = unescaped(self.alloc, self.fields.rest())?;
        let report = self.report(&version, &file)?;
        Ok(escaped(self.alloc, report.as_bytes())?)
    }

    /// The report on a scenario file.
    fn report(&self, version: &Version, file: &[u8]) -> Result<String, Refusal> {
        if file.len() > MAX_SCEN_BYTES {
            return Err(Refusal::OutOfForm);
        }
        match read_scen(self.alloc, file) {
            Ok(lines) => {
                let results = run_lines(self.rt, self.alloc, version, &lines)?;
                Ok(report(self.alloc, &results)?)
            }
            Err(ScenError::Fault(_)) => Err(Refusal::OutOfForm),
            Err(ScenError::NoMemory) => Err(Refusal::NoMemory),
        }
    }
}

/// The near version of a version.
pub(crate) fn near_of(alloc: Global, version: Version) -> Result<NearVersion, AllocError> {
    NearVersion::make(alloc, Arc::new(alloc, version)?)
}

/// A version of copies of the map and of the components that the other has.
fn assembled(alloc: Global, version: &Version) -> Result<Version, AllocError> {
    let grid = version.grid().copy()?;
    let comps = copies(alloc, version.comps())?;
    Version::assemble(alloc, version.prefix(), grid, version.kind(), comps)
}

/// Copies of components.
fn copies(alloc: Global, comps: &[Arc<CompData>]) -> Result<Vec<Arc<CompData>>, AllocError>
    ensures { IfOk result (λ copies. map arc_value copies.items ≡ map arc_value comps.now) }
{
    let mut copies = Vec::new(alloc);
    for comp in comps {
        copies.push(Arc::try_clone(comp)?)?;
    }
    Ok(copies)
}

/// The number of edits, the order, how many cells, components and runs there are, and the label of each cell, row by
/// row, with `-` for a cell without one.
fn version_shown(alloc: Global, version: &Version) -> Result<String, AllocError> {
    let mut text = String::new(alloc);
    push_totals(&mut text, version)?;
    for cell in &all_cells(alloc, version.grid())? {
        match version.labels().of(*cell) {
            Some(label) => write!(text, " {label}")?,
            None => text.push_str(" -")?,
        }
    }
    Ok(text)
}

/// Adds the number of edits, the order, and how many cells, components and runs there are.
fn push_totals(text: &mut String, version: &Version) -> Result<(), AllocError> {
    let (prefix, kind, totals) = (version.prefix(), version.kind(), version.totals());
    let (cells, comps, listed) = (totals.cells, totals.comps, version.comps().len());
    write!(text, "{prefix} edits, order {kind:?}, {cells} cells, ")?;
    write!(text, "{comps} components ({listed} listed), ")?;
    write!(text, "{} runs, labels", totals.runs)
}

/// Where a path goes on from one cell to another, whatever the look-up takes.
pub(crate) fn next_at(version: &Version, at: Cell, goal: Cell) -> Result<Next, QueryRefusal> {
    next_of::<Brand>(version, at, goal, Blank::new(1))
}

/// The same, with a count of the look-up's steps.
fn next_of<L: Ledger>(
    version: &Version,
    at: Cell,
    goal: Cell,
    blank: Blank,
) -> Result<Next, QueryRefusal>
    requires name { blank.name ≡ L.name }
    requires parts { blank.parts ≡ L.parts }
    requires some { 0 < blank.parts }
{
    let mut steps = Steps::<L>::new(blank);
    version.next(at, goal, &mut steps)
}

/// The walk between two cells of a version in words.
fn walk_shown(
    alloc: Global,
    version: &Version,
    start: Cell,
    goal: Cell,
) -> Result<String, AllocError> {
    let mut text = String::new(alloc);
    match Walk::start(version, start, goal) {
        Ok(Some(mut walk)) => push_moves(&mut text, &mut walk)?,
        Ok(None) => text.push_str("no walk")?,
        Err(why) => write!(text, "{why}")?,
    }
    match measure(version, start, goal) {
        Ok(Some(cost)) => write!(
            text,
            ", {} straight {} diagonal",
            cost.straight, cost.diagonal
        )?,
        Ok(None) => text.push_str(", no cost")?,
        Err(why) => write!(text, ", {why}")?,
    }
    Ok(text)
}

/// Adds the moves of a walk and the cell where it ends.
fn push_moves(text: &mut String, walk: &mut Walk) -> Result<(), AllocError> {
    text.push_str("moves")?;
    for _ in 0..MAX_PASSABLE {
        match walk.step() {
            Some(by) => write!(text, " {by}")?,
            None => break,
        }
    }
    let Cell { x, y } = walk.at();
    write!(text, " to {x} {y}")
}
