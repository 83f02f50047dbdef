//! The database of a map with its near rows, built in one go.

ghost use Rattle.std.specs.Prelude.{◌≡◌, ◌^◌, ◌<◌, ◌≤◌, map, length, slice_index_or, IfOk};
ghost use Rattle.std.specs.Arc.{arc_value};
ghost use Rattle.moves.specs.Maps.{IsSearchable, IsWithinLimits};
ghost use Rattle.moves.specs.Components.{IsComponent, IsComponentList};
ghost use Rattle.build_pool.specs.Places.{CanBeBuilt};
ghost use Rattle.versions.specs.Databases.{IsDatabase, IsKeptAs};
ghost use Rattle.near_rows.specs.NearRows.{AreNear};
ghost use Rattle.near_rows.specs.NearVersions.{AreNearIn};

use crate::crew::Crew;
use crate::gathering::BothRows;
use crate::nearby::NearRows;
use crate::plain::put_rest;
use build_pool::{Gate, gather};
use cell_order::{OrderKind, order_of};
use components::Labels;
use lane_rows::Near;
use moves::{Cell, Grid};
use row_store::CompData;
use std::alloc::AllocError;
use std::sync::Arc;
use std::thread::Threads;

/// The components of a map, and what is near in each.
#[derive(Drop)]
pub(crate) struct Parts {
    pub comps: Vec<Arc<CompData>>,
    pub nearby: Vec<NearRows>,
}

/// The database of a map in an order, and what is near in each of its components.
///
/// # Errors
///
/// `AllocError` where memory runs out.
pub(crate) fn parts_of<R: Threads + Sync, G: Gate>(
    crew: &Crew<R, G>,
    kind: OrderKind,
    grid: &Grid,
    labels: &Labels,
) -> Result<Parts, AllocError>
    requires searchable { IsSearchable grid.now }
    requires listed { IsComponentList grid.now labels.now }
    ensures database { IfOk result (λ parts.
        IsDatabase grid.now kind (map arc_value parts.comps.items)) }
    ensures near { IfOk result (λ parts.
        AreNearIn grid.now (map arc_value parts.comps.items) parts.nearby.items) }
    ensures few { IfOk result (λ parts. length parts.nearby.items < 2 ^ 32) }
{
    // That the map lies inside the limits is known from its width.
    let _ = grid.width();
    let mut comps = Vec::with_capacity(crew.alloc, labels.count() as usize)?;
    let mut nearby = Vec::with_capacity(crew.alloc, labels.count() as usize)?;
    for label in 0..labels.count() {
        let (comp, near) = part_of(crew, kind, grid, labels.cells(label))?;
        comps.push(comp)?;
        nearby.push(near)?;
    }
    Ok(Parts { comps, nearby })
}

/// The component with these cells, and what is near in it.
fn part_of<R: Threads + Sync, G: Gate>(
    crew: &Crew<R, G>,
    kind: OrderKind,
    grid: &Grid,
    cells: &[Cell],
) -> Result<(Arc<CompData>, NearRows), AllocError>
    requires searchable { IsSearchable grid.now }
    requires component { IsComponent grid.now cells.now }
    requires cells { CanBeBuilt cells.now }
    ensures comp { IfOk result (λ part. IsKeptAs kind cells.now (arc_value part.0)) }
    ensures near { IfOk result (λ part. AreNear grid.now (arc_value part.0).cells part.1) }
{
    let order = order_of(crew.alloc, kind, cells)?;
    let beside = Near::of(crew.alloc, &order)?;
    let workers = crew.workers_for(cells.len());
    let both: BothRows = gather(crew.rt, crew.alloc, &order, &beside, workers, crew.gate)?;
    let BothRows { mut rows, near } = both;
    build_pool::put_rest(crew.alloc, &order, &mut rows)?;
    let mut near = near.into_near();
    put_rest(crew.alloc, grid, &order, &mut near)?;
    near.shrink();
    let comp = CompData::of_pool(crew.alloc, kind, order, rows)?;
    Ok((Arc::new(crew.alloc, comp)?, near))
}
