//! The first version of a map, built by the calling thread.

ghost use Rattle.std.specs.Prelude.{◌≡◌, ◌<◌, map, true, false, IfOk, OnOk, length, slice_index_or};
ghost use Rattle.std.specs.Arc.{arc_value};
ghost use Rattle.moves.specs.Maps.{IsSearchable};
ghost use Rattle.cell_order.specs.Orders.{ordered};
ghost use Rattle.row_store.specs.Rows.{AreRows};
ghost use Rattle.build_pool.specs.Places.{AreWithNear, CanBeBuilt};
ghost use Rattle.build_pool.specs.Pieces.{AreSome};
ghost use Rattle.versions.specs.Databases.{IsKeptAs};
ghost use Rattle.version_build.specs.Plans.{AreComplete, CanAllBeBuilt};
ghost use Rattle.bake_words.specs.Baking.{IsFirstVersion};

use build_pool::{Harvest, put_rest};
use cell_order::{OrderKind, order_of};
use components::{Labels, label};
use lane_rows::{LANES, Near, Tiles};
use moves::{Cell, Grid};
use row_store::{CompData, RowPool};
use std::alloc::{AllocError, Global};
use std::sync::Arc;
use versions::Version;

/// How often at most the places of a tile are gone over back and forth before its rows are given up.
const SWEEPS: u32 = 64;

/// The version of a map before all edits.
///
/// # Errors
///
/// `AllocError` where memory runs out.
pub(crate) fn first_version(
    alloc: Global,
    grid: Grid,
    kind: OrderKind,
) -> Result<Version, AllocError>
    requires { IsSearchable grid }
    ensures { IfOk result (IsFirstVersion grid kind) }
{
    // That the map lies inside the limits is known from its width.
    let _ = grid.width();
    let labels = label(alloc, &grid)?;
    let comps = comps_of(alloc, kind, &labels)?;
    Ok(Version::assemble_labelled(0, grid, kind, labels, comps))
}

/// All components of a map, built one after the other.
fn comps_of(
    alloc: Global,
    kind: OrderKind,
    labels: &Labels,
) -> Result<Vec<Arc<CompData>>, AllocError>
    requires { CanAllBeBuilt labels.now }
    ensures { IfOk result (λ comps. AreComplete kind labels.now (map arc_value comps.items)) }
{
    let mut comps = Vec::with_capacity(alloc, labels.count() as usize)?;
    for label in 0..labels.count() {
        comps.push(comp_of(alloc, kind, labels.cells(label))?)?;
    }
    Ok(comps)
}

/// The component with these cells.
fn comp_of(alloc: Global, kind: OrderKind, cells: &[Cell]) -> Result<Arc<CompData>, AllocError>
    requires { CanBeBuilt cells.now }
    ensures { IfOk result (λ comp. IsKeptAs kind cells.now (arc_value comp)) }
{
    let comp = with_rows(alloc, kind, cells)?;
    // That the component is whole is known from its cells.
    let _ = comp.cells();
    Ok(Arc::new(alloc, comp)?)
}

/// The cells in their order, with a row for each.
fn with_rows(alloc: Global, kind: OrderKind, cells: &[Cell]) -> Result<CompData, AllocError>
    requires { CanBeBuilt cells.now }
    ensures kind { IfOk result (λ comp. comp.kind ≡ kind) }
    ensures cells { IfOk result (λ comp. comp.cells ≡ ordered kind cells.now) }
    ensures rows { IfOk result (λ comp. AreRows (ordered kind cells.now) comp.rows) }
{
    let order = order_of(alloc, kind, cells)?;
    let near = Near::of(alloc, &order)?;
    let mut rows = tiled_rows(alloc, &order, &near)?;
    put_rest(alloc, &order, &mut rows)?;
    CompData::of_pool(alloc, kind, order, rows)
}

/// The rows of tiles of near sources, a tile after the other. Of a source whose tile was given up the row is blank.
fn tiled_rows(alloc: Global, cells: &[Cell], near: &Near) -> Result<RowPool, AllocError>
    requires { AreWithNear cells.now near.now }
    ensures { IfOk result (AreSome cells.now) }
{
    let mut rows = RowPool::begin(alloc, cells)?;
    let mut tiles = Tiles::new(alloc, near.len())?;
    let mut wanted = vec![in alloc; true; near.len()]?;
    for first in 0..near.len() {
        if wanted[first] {
            put_tile(
                cells,
                near,
                first as u16,
                &mut tiles,
                wanted.as_mut_slice(),
                &mut rows,
            )?;
        }
    }
    Ok(rows)
}

/// Puts the rows of a tile around a wanted place, if it is solved. They are wanted no more.
fn put_tile(
    cells: &[Cell],
    near: &Near,
    first: u16,
    tiles: &mut Tiles,
    wanted: &mut [bool],
    rows: &mut RowPool,
) -> Result<(), AllocError>
    requires table { AreWithNear cells.now near.now }
    requires first { first < length near.now }
    requires wanted { slice_index_or wanted.old first false ≡ true }
    requires count { tiles.old.count ≡ length near.now }
    requires marks { length wanted.old ≡ length near.now }
    requires part { AreSome cells.now rows.old }
    ensures count { OnOk result (tiles.new.count ≡ length near.now) }
    ensures marks { OnOk result (length wanted.new ≡ length near.now) }
    ensures part { OnOk result (AreSome cells.now rows.new) }
{
    let count = tiles.choose(near, first, wanted);
    if tiles.run(near, SWEEPS) {
        rows.gather(cells, near, tiles, first_lanes(count))?;
    }
    Ok(())
}

/// The first lanes, so many.
fn first_lanes(count: usize) -> [bool; LANES] {
    let mut lanes = [false; LANES];
    for lane in 0..count.min(LANES) {
        lanes[lane] = true;
    }
    lanes
}
