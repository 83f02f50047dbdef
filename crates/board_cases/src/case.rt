//! A case under way, the versions that it names, and the cells of maps.

ghost use Rattle.std.specs.Prelude.{◌≡◌, IfOk};
ghost use Rattle.moves.specs.Maps.{IsSearchable};

use build_pool::FreeGate;
use case_kit::{Fields, Refusal};
use cell_order::OrderKind;
use moves::{Cell, Grid};
use std::alloc::{AllocError, Global};
use std::thread::Threads;
use version_build::{build, plan};
use versions::Version;

/// What a case runs with, and the fields of its line that are still to be read.
#[derive(Drop)]
pub(crate) struct Case<'a, R> {
    pub(crate) rt: &'a R,
    pub(crate) alloc: Global,
    pub(crate) fields: Fields<'a>,
}

impl<R: Threads + Sync> Case<'_, R> {
    /// The version of the map and in the order that the next two fields name.
    pub(crate) fn version(&mut self) -> Result<Version, Refusal> {
        let grid = self.fields.grid(self.alloc)?;
        let kind = self.fields.order()?;
        Ok(version_of(self.rt, self.alloc, grid, 0, kind)?)
    }
}

/// The version of a map after so many edits, built by one worker.
pub(crate) fn version_of<R: Threads + Sync>(
    rt: &R,
    alloc: Global,
    grid: Grid,
    prefix: u32,
    kind: OrderKind,
) -> Result<Version, AllocError>
    requires { IsSearchable grid }
    ensures map { IfOk result (λ version. version.map ≡ grid) }
    ensures prefix { IfOk result (λ version. version.prefix ≡ prefix) }
    ensures order { IfOk result (λ version. version.order ≡ kind) }
{
    let plan = plan(alloc, None, grid, prefix, kind)?;
    let (version, _) = build(rt, alloc, plan, 1, &FreeGate)?;
    Ok(version)
}

/// The cells of a map, row by row.
pub(crate) fn all_cells(alloc: Global, grid: &Grid) -> Result<Vec<Cell>, AllocError> {
    let mut cells = Vec::new(alloc);
    for y in 0..grid.height() as u16 {
        for x in 0..grid.width() as u16 {
            cells.push(Cell { x, y })?;
        }
    }
    Ok(cells)
}
