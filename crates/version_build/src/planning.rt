//! Finds what a former version has of the components of a map.

ghost use Rattle.std.specs.Prelude.{◌≡◌, ◌+◌, ◌<◌, map, length, IfOk, IfSome, IfNone, IsTrue, ◌↔◌};
ghost use Rattle.std.specs.Arc.{arc_value};
ghost use Rattle.std.specs.Option.{option_map};
ghost use Rattle.moves.specs.Maps.{IsSearchable, passable_count};
ghost use Rattle.moves.specs.Components.{IsComponentList};
ghost use Rattle.versions.specs.Databases.{IsVersion};
ghost use Rattle.versions.specs.Counts.{AreCounts};
ghost use Rattle.version_build.specs.Plans.{IsAllBuilt, Follows, IsShared, ArePrepared, cells_missing};

use crate::bases::Bases;
use crate::edited::labels_of;
use crate::plans::{BuildReport, Plan, Prepared};
use cell_order::OrderKind;
use components::Labels;
use moves::{Cell, Grid};
use row_store::CompData;
use std::alloc::{AllocError, Global};
use std::sync::Arc;
use versions::Version;

/// The plan for the version of a map. A component is kept exactly where the former version has the same order and a
/// component with the same cells; every other one is to be built.
///
/// Each component is compared with one former component alone, so the time is linear in the number of cells.
///
/// # Errors
///
/// `AllocError` where memory runs out. The map is dropped then.
pub fn plan(
    alloc: Global,
    former: Option<&Version>,
    grid: Grid,
    prefix: u32,
    kind: OrderKind,
) -> Result<Plan, AllocError>
    requires { IsSearchable grid }
    ensures map { IfOk result (λ plan. plan.map ≡ grid) }
    ensures prefix { IfOk result (λ plan. plan.prefix ≡ prefix) }
    ensures order { IfOk result (λ plan. plan.order ≡ kind) }
    ensures first { IfOk result (λ plan. IfNone former.entry (IsAllBuilt grid plan.built plan.kept)) }
    ensures follows { IfOk result (λ plan. IfSome former.entry (λ v.
        Follows v.now grid kind plan.built plan.kept)) }
    ensures sum { IfOk result (λ plan. plan.built + plan.kept ≡ passable_count grid) }
{
    let labels = labels_of(alloc, former, &grid)?;
    let prepared = prepare(alloc, former, kind, &grid, &labels)?;
    let bases = Bases::of(alloc, former, kind, &labels, &prepared.comps)?;
    Ok(Plan {
        prefix,
        grid,
        labels,
        prepared,
        bases,
    })
}

/// What the former version, if there is one and in this order, has of the components of the map.
fn prepare(
    alloc: Global,
    former: Option<&Version>,
    kind: OrderKind,
    grid: &Grid,
    labels: &Labels,
) -> Result<Prepared, AllocError>
    requires { IsComponentList grid.now labels.now }
    ensures order { IfOk result (λ p. p.kind ≡ kind) }
    ensures prepared { IfOk result (λ p.
        ArePrepared p.kind labels.now (map (option_map arc_value) p.comps.items)) }
    ensures missing { IfOk result (λ p. p.report.built ≡
        cells_missing labels.now (map (option_map arc_value) p.comps.items)) }
    ensures first { IfOk result (λ p.
        IfNone former.entry (IsAllBuilt grid.now p.report.built p.report.kept)) }
    ensures follows { IfOk result (λ p. IfSome former.entry (λ v.
        Follows v.now grid.now kind p.report.built p.report.kept)) }
    ensures sum { IfOk result (λ p. p.report.built + p.report.kept ≡ passable_count grid.now) }
{
    match former {
        Some(version) => {
            if version.kind() == kind {
                share(alloc, version, grid, labels)
            } else {
                share_none(alloc, kind, grid, labels)
            }
        }
        None => share_none(alloc, kind, grid, labels),
    }
}

/// Nothing of the components is there.
fn share_none(
    alloc: Global,
    kind: OrderKind,
    grid: &Grid,
    labels: &Labels,
) -> Result<Prepared, AllocError>
    requires { IsComponentList grid.now labels.now }
    ensures order { IfOk result (λ p. p.kind ≡ kind) }
    ensures prepared { IfOk result (λ p.
        ArePrepared p.kind labels.now (map (option_map arc_value) p.comps.items)) }
    ensures missing { IfOk result (λ p. p.report.built ≡
        cells_missing labels.now (map (option_map arc_value) p.comps.items)) }
    ensures built { IfOk result (λ p. p.report.built ≡ passable_count grid.now) }
    ensures kept { IfOk result (λ p. p.report.kept ≡ 0) }
{
    let mut comps = Vec::with_capacity(alloc, labels.count() as usize)?;
    for _ in 0..labels.count() {
        comps.push(None)?;
    }
    // That the map lies inside the limits is known from its width.
    let _ = grid.width();
    let report = BuildReport {
        built: grid.passable_count(),
        kept: 0,
    };
    Ok(Prepared {
        kind,
        comps,
        report,
    })
}

/// Those of the components that the former version has.
fn share(
    alloc: Global,
    former: &Version,
    grid: &Grid,
    labels: &Labels,
) -> Result<Prepared, AllocError>
    requires { IsComponentList grid.now labels.now }
    ensures order { IfOk result (λ p. p.kind ≡ former.now.order) }
    ensures prepared { IfOk result (λ p.
        ArePrepared p.kind labels.now (map (option_map arc_value) p.comps.items)) }
    ensures missing { IfOk result (λ p. p.report.built ≡
        cells_missing labels.now (map (option_map arc_value) p.comps.items)) }
    ensures counts { IfOk result (λ p.
        AreCounts former.now.map grid.now p.report.built p.report.kept) }
    ensures sum { IfOk result (λ p. p.report.built + p.report.kept ≡ passable_count grid.now) }
{
    // That the former version is one, and that the map lies inside the limits, is known from these.
    let (_, _) = (former.grid(), grid.width());
    let known = former.labels();
    let mut comps = Vec::with_capacity(alloc, labels.count() as usize)?;
    let mut kept = 0;
    for label in 0..labels.count() {
        let cells = labels.cells(label);
        let comp = shared_comp(former, known, cells)?;
        if comp.is_some() {
            kept += cells.len() as u32;
        }
        comps.push(comp)?;
    }
    let report = BuildReport {
        built: grid.passable_count() - kept,
        kept,
    };
    Ok(Prepared {
        kind: former.kind(),
        comps,
        report,
    })
}

/// The former version's component with just these cells, if it has one. Only the one that has the first cell can be it.
fn shared_comp(
    former: &Version,
    known: &Labels,
    cells: &[Cell],
) -> Result<Option<Arc<CompData>>, AllocError>
    requires version { IsVersion former.now }
    requires known { IsComponentList former.now.map known.now }
    requires some { 0 < length cells.now }
    ensures { IfOk result (λ comp. IsShared former.now.order known.now cells.now (option_map arc_value comp)) }
{
    let Some(label) = known.of(cells[0]) else {
        return Ok(None);
    };
    if !are_same(known.cells(label), cells) {
        return Ok(None);
    }
    let comp = Arc::try_clone(&former.comps()[label as usize])?;
    Ok(Some(comp))
}

/// Whether two lists of cells are one.
fn are_same(a: &[Cell], b: &[Cell]) -> bool
    ensures { IsTrue result ↔ a.now ≡ b.now }
{
    a == b
}
