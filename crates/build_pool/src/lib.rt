//! Builds the rows of a component: from each of its cells a search, the first sets to all its cells, and their row.
//!
//! The sources are cut into pieces, one for each worker, that pass a gate; what has passed is built by all workers side
//! by side, whosever it is. Rows depend on the cells alone, so the result is the same for any number of workers.
//! (Botea 2011; Strasser, Harabor and Botea 2014)
//!
//! The rows of three cells side by side, of which the middle one has two runs:
//!
//! ```text
//! rows | rows | 1 | ...
//! 0E/0W 2E/0W, 4 runs, cells 0,0 1,0 2,0, 1 side by side
//! ```
#![tactic(auto)]

ghost use Rattle.std.specs.Prelude.{◌≡◌, ◌*◌, ◌<◌, ◌≤◌, length, IfOk};
ghost use Rattle.moves.specs.Maps.{IsSearchable};
ghost use Rattle.moves.specs.FirstSetLists.{cell_of};
ghost use Rattle.cell_order.specs.Orders.{ordered};
ghost use Rattle.row_store.specs.Rows.{AreRows, IsRowFrom};
ghost use Rattle.build_pool.specs.Places.{AreComponent, AreWithNear, CanBeBuilt};
ghost use Rattle.build_pool.specs.Pieces.{AreSome, CanBuild};

mod board;
mod harvest;
mod known;
mod pending;
mod piece;
mod plain;
mod rows;
mod searching;

use cell_order::{OrderKind, order_of};
use first_sets::FirstSets;
use grid_search::Search;
pub use harvest::Harvest;
pub use known::{KnownRows, NoneKnown};
use lane_rows::Near;
use moves::{Cell, Grid, MAX_PASSABLE};
use pending::Pending;
use piece::{Share, build_share};
pub use plain::put_rest;
use row_store::{CompData, RowPool};
use rows::count_rows;
use run_pack::{Run, pack};
pub use searching::PlainSearch;
use searching::write_sets;
use std::alloc::{AllocError, Global};
use std::thread;
use std::thread::Threads;

/// The most workers that build side by side.
pub const MAX_WORKERS: u32 = 64;

/// What each piece of a build passes before its first row. A test's gate may hold it there.
pub trait Gate: Sync {
    /// The piece with that number begins.
    fn enter(&self, piece: u32);

    /// A worker has just built so many rows more, whosever piece they are of. It is told once a tile, and before all
    /// tiles once of the rows that are known, so that progress can be shown. Nothing is promised of it: rows that are
    /// built in another way than by tiles are not told.
    fn built(&self, _rows: u32) {}
}

/// A gate that holds no piece.
#[derive(Clone, Copy, Debug, Default)]
pub struct FreeGate;

impl Gate for FreeGate {
    fn enter(&self, _piece: u32) {}
}

/// Who builds.
#[derive(Drop)]
pub struct Crew<'a, R, G> {
    /// What starts the threads of the workers.
    pub rt: &'a R,
    /// How many workers there are, from 1 to 64.
    pub workers: u32,
    /// What each piece passes.
    pub gate: &'a G,
}

/// A component with the rows of its cells in the named order, built by so many workers, from 1 to 64. The cells are
/// from 1 to 32,768 cells in row-major order that are connected by straight moves among themselves and lie on one map.
///
/// With n cells, piece i has the sources from place i·n / workers to before (i + 1)·n / workers, rounded down. Each
/// piece passes the gate once, before its rows, whoever builds them.
///
/// # Errors
///
/// `AllocError` where memory runs out.
pub fn build_rows<R: Threads + Sync, G: Gate>(
    rt: &R,
    alloc: Global,
    kind: OrderKind,
    cells: &[Cell],
    workers: u32,
    gate: &G,
) -> Result<CompData, AllocError>
    requires cells { CanBeBuilt cells.now }
    requires worker { 0 < workers }
    requires workers { workers ≤ MAX_WORKERS }
    ensures kind { IfOk result (λ comp. comp.kind ≡ kind) }
    ensures cells { IfOk result (λ comp. comp.cells ≡ ordered kind cells.now) }
    ensures rows { IfOk result (λ comp. AreRows (ordered kind cells.now) comp.rows) }
{
    let crew = Crew { rt, workers, gate };
    build_rows_knowing(&crew, alloc, kind, cells, &NoneKnown)
}

/// `build_rows`, where some rows may be known before. These are taken as they are, and all others are built. The rows
/// are the same whatever is known.
///
/// # Errors
///
/// `AllocError` where memory runs out.
pub fn build_rows_knowing<R: Threads + Sync, G: Gate, K: KnownRows>(
    crew: &Crew<'_, R, G>,
    alloc: Global,
    kind: OrderKind,
    cells: &[Cell],
    known: &K,
) -> Result<CompData, AllocError>
    requires cells { CanBeBuilt cells.now }
    requires worker { 0 < crew.now.workers }
    requires workers { crew.now.workers ≤ MAX_WORKERS }
    ensures kind { IfOk result (λ comp. comp.kind ≡ kind) }
    ensures cells { IfOk result (λ comp. comp.cells ≡ ordered kind cells.now) }
    ensures rows { IfOk result (λ comp. AreRows (ordered kind cells.now) comp.rows) }
{
    let order = order_of(alloc, kind, cells)?;
    let near = Near::of(alloc, &order)?;
    let mut rows = gather_knowing(crew, alloc, &order, &near, known)?;
    put_rest(alloc, &order, &mut rows)?;
    CompData::of_pool(alloc, kind, order, rows)
}

/// The rows that are known, and those of the tiles of the other sources. Where a tile was not solved they are blank.
fn gather_knowing<R: Threads + Sync, G: Gate, K: KnownRows>(
    crew: &Crew<'_, R, G>,
    alloc: Global,
    cells: &[Cell],
    near: &Near,
    known: &K,
) -> Result<RowPool, AllocError>
    requires table { AreWithNear cells.now near.now }
    requires worker { 0 < crew.now.workers }
    requires workers { crew.now.workers ≤ MAX_WORKERS }
    ensures { IfOk result (AreSome cells.now) }
{
    match known.known(alloc, cells, near)? {
        Some(rows) => gather_beside(crew, alloc, cells, near, rows),
        None => gather(crew.rt, alloc, cells, near, crew.workers, crew.gate),
    }
}

/// These rows, and those of the tiles of the sources whose rows are blank among them.
fn gather_beside<R: Threads + Sync, G: Gate>(
    crew: &Crew<'_, R, G>,
    alloc: Global,
    cells: &[Cell],
    near: &Near,
    rows: RowPool,
) -> Result<RowPool, AllocError>
    requires table { AreWithNear cells.now near.now }
    requires worker { 0 < crew.now.workers }
    requires workers { crew.now.workers ≤ MAX_WORKERS }
    requires rows { AreSome cells.now rows }
    ensures { IfOk result (AreSome cells.now) }
{
    crew.gate.built(count_rows(&rows));
    let pending = Pending::beside(alloc, &rows)?;
    let built: RowPool = gather_pending(crew, alloc, cells, near, &pending)?;
    let mut rows = rows;
    rows.take_over(cells, built)?;
    Ok(rows)
}

/// What is kept of the tiles of a component, whose cells stand in some order, by so many workers, from 1 to 64. Pieces
/// are cut and pass the gate as in `build_rows`. Of a cell whose tile was not solved it has nothing.
///
/// # Errors
///
/// `AllocError` where memory runs out.
pub fn gather<R: Threads + Sync, G: Gate, H: Harvest>(
    rt: &R,
    alloc: Global,
    cells: &[Cell],
    near: &Near,
    workers: u32,
    gate: &G,
) -> Result<H, AllocError>
    requires table { AreWithNear cells.now near.now }
    requires worker { 0 < workers }
    requires workers { workers ≤ MAX_WORKERS }
    ensures { IfOk result (H.gathered cells.now) }
{
    let crew = Crew { rt, workers, gate };
    let pending = Pending::new(alloc, cells.len())?;
    gather_pending(&crew, alloc, cells, near, &pending)
}

/// `gather` of the tiles of those sources that are pending once their pieces have passed the gate.
fn gather_pending<R: Threads + Sync, G: Gate, H: Harvest>(
    crew: &Crew<'_, R, G>,
    alloc: Global,
    cells: &[Cell],
    near: &Near,
    pending: &Pending,
) -> Result<H, AllocError>
    requires table { AreWithNear cells.now near.now }
    requires worker { 0 < crew.now.workers }
    requires workers { crew.now.workers ≤ MAX_WORKERS }
    ensures { IfOk result (H.gathered cells.now) }
{
    let workers = crew.workers;
    let gate = crew.gate;
    let shares = thread::map_indices(
        crew.rt,
        alloc,
        workers as usize,
        &|piece: usize| -> Result<H, AllocError>
            requires { CanBuild cells.now near.now workers piece }
            ensures { IfOk result (H.gathered cells.entry.now) }
        {
            let share = Share {
                workers,
                piece: piece as u32,
            };
            build_share(alloc, cells, near, pending, share, gate)
        },
    )?;
    let mut all = H::begin(alloc, cells)?;
    for share in shares {
        all.take_over(cells, share?)?;
    }
    Ok(all)
}

/// `gather` by the calling thread alone, with no gate.
///
/// # Errors
///
/// `AllocError` where memory runs out.
pub fn gather_alone<H: Harvest>(alloc: Global, cells: &[Cell], near: &Near) -> Result<H, AllocError>
    requires table { AreWithNear cells.now near.now }
    ensures { IfOk result (H.gathered cells.now) }
{
    let pending = Pending::new(alloc, cells.len())?;
    let share = Share {
        workers: 1,
        piece: 0,
    };
    build_share(alloc, cells, near, &pending, share, &FreeGate)
}

/// The row of one source: the tight row of its first sets to the cells, which are a whole component of the grid in some
/// order.
///
/// # Errors
///
/// `AllocError` where memory runs out. Whatever the search and the sets then have of another source is of no use, and
/// they may be used again.
pub fn one_row(
    alloc: Global,
    cells: &[Cell],
    place: u32,
    search: &mut Search,
    sets: &mut FirstSets,
    grid: &Grid,
) -> Result<Vec<Run>, AllocError>
    requires component { AreComponent grid.now cells.now }
    requires searchable { IsSearchable grid.now }
    requires few { length cells.now ≤ MAX_PASSABLE }
    requires place { place < length cells.now }
    requires search { grid.now.width * grid.now.height ≤ search.old.room }
    requires sets { grid.now.width * grid.now.height ≤ sets.old.room }
    ensures row { IfOk result (λ row. IsRowFrom grid.now cells.now (cell_of cells.now place) row.items) }
    ensures search { search.new.room ≡ search.old.room }
    ensures sets { sets.new.room ≡ sets.old.room }
{
    let mut bytes = vec![in alloc; 0u8; cells.len()]?;
    write_sets(
        grid,
        cells,
        place as usize,
        search,
        sets,
        bytes.as_mut_slice(),
    );
    pack(alloc, &bytes)
}
