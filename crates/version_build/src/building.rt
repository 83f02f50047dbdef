//! The building of a whole version.

ghost use Rattle.std.specs.Prelude.{◌≡◌, ◌<◌, ◌≤◌, map, IfOk};
ghost use Rattle.std.specs.Arc.{arc_value};
ghost use Rattle.std.specs.Option.{option_map};
ghost use Rattle.build_pool.specs.Places.{CanBeBuilt};
ghost use Rattle.versions.specs.Databases.{IsKeptAs, IsVersion};
ghost use Rattle.version_build.specs.Plans.{ArePrepared, AreComplete, CanAllBeBuilt};

use crate::bases::{Base, Bases};
use crate::plans::{BuildReport, Plan, Prepared};
use build_pool::{Crew, Gate, MAX_WORKERS, build_rows_knowing};
use cell_order::OrderKind;
use components::Labels;
use moves::Cell;
use row_store::CompData;
use std::alloc::{AllocError, Global};
use std::sync::Arc;
use std::thread::Threads;
use versions::Version;

/// Components with fewer cells are built by one worker, and all their rows: to start more, or to find which rows stay,
/// takes longer than to build them.
pub const FEW_CELLS: usize = 256;

/// The version that a plan is for, built by so many workers, from 1 to 64. All workers are on one component after the
/// other, and each piece of a component passes the gate once. It is the same version for any number of workers.
///
/// # Errors
///
/// `AllocError` where memory runs out. The plan is dropped then.
pub fn build<R: Threads + Sync, G: Gate>(
    rt: &R,
    alloc: Global,
    plan: Plan,
    workers: u32,
    gate: &G,
) -> Result<(Version, BuildReport), AllocError>
    requires worker { 0 < workers }
    requires workers { workers ≤ MAX_WORKERS }
    ensures map { IfOk result (λ done. done.0.map ≡ plan.map) }
    ensures prefix { IfOk result (λ done. done.0.prefix ≡ plan.prefix) }
    ensures order { IfOk result (λ done. done.0.order ≡ plan.order) }
    ensures version { IfOk result (λ done. IsVersion done.0) }
    ensures built { IfOk result (λ done. done.1.built ≡ plan.built) }
    ensures kept { IfOk result (λ done. done.1.kept ≡ plan.kept) }
{
    let Plan {
        prefix,
        grid,
        labels,
        prepared,
        bases,
    } = plan;
    // That the map lies inside the limits is known from its width.
    let _ = grid.width();
    let (kind, report) = (prepared.kind, prepared.report);
    let crew = Crew { rt, workers, gate };
    let comps = complete(&crew, alloc, prepared, &labels, &bases)?;
    let version = Version::assemble_labelled(prefix, grid, kind, labels, comps);
    Ok((version, report))
}

/// All components of a map: those that are kept, and the others built one after the other.
fn complete<R: Threads + Sync, G: Gate>(
    crew: &Crew<'_, R, G>,
    alloc: Global,
    prepared: Prepared,
    labels: &Labels,
    bases: &Bases,
) -> Result<Vec<Arc<CompData>>, AllocError>
    requires prepared { ArePrepared prepared.kind labels.now (map (option_map arc_value) prepared.comps.items) }
    requires cells { CanAllBeBuilt labels.now }
    requires worker { 0 < crew.now.workers }
    requires workers { crew.now.workers ≤ MAX_WORKERS }
    ensures { IfOk result (λ comps.
        AreComplete prepared.kind labels.now (map arc_value comps.items)) }
{
    let kind = prepared.kind;
    let mut comps = Vec::with_capacity(alloc, labels.count() as usize)?;
    for known in prepared.comps {
        let label = comps.len();
        let cells = labels.cells(label as u32);
        let comp = match known {
            Some(comp) => comp,
            None => build_comp(crew, alloc, kind, cells, bases.base(label))?,
        };
        comps.push(comp)?;
    }
    Ok(comps)
}

/// The component with these cells, built by the crew, or by one worker where it is small, beside the rows that stay of
/// what it came of.
fn build_comp<R: Threads + Sync, G: Gate>(
    crew: &Crew<'_, R, G>,
    alloc: Global,
    kind: OrderKind,
    cells: &[Cell],
    base: Base,
) -> Result<Arc<CompData>, AllocError>
    requires cells { CanBeBuilt cells.now }
    requires worker { 0 < crew.now.workers }
    requires workers { crew.now.workers ≤ MAX_WORKERS }
    ensures { IfOk result (λ comp. IsKeptAs kind cells.now (arc_value comp)) }
{
    let workers = if cells.len() < FEW_CELLS {
        1
    } else {
        crew.workers
    };
    let crew = Crew {
        rt: crew.rt,
        workers,
        gate: crew.gate,
    };
    let comp = build_rows_knowing(&crew, alloc, kind, cells, &base)?;
    // That the component is whole is known from its cells.
    let _ = comp.cells();
    Ok(Arc::new(alloc, comp)?)
}
