//! The database of a component: its cells in an order, and the first moves from each cell to all of
//! them, packed into runs.
//!
//! A look-up needs no path search: in the row of the source, the run that covers the place of the
//! goal keeps a move that begins a best path. (Botea 2011; Strasser, Harabor and Botea 2014)
//!
//! The first moves from each of three cells in a row to each other cell:
//!
//! ```text
//! look up | ...
//! E E W E W W from 3 cells
//! ```
#![tactic(auto)]

ghost use Rattle.std.specs.Prelude.{◌≡◌, ◌≢◌, ◌+◌, ◌-◌, ◌*◌, ◌^◌, ◌<◌, ◌≤◌, [], map, length, sum_by, slice_index_or, All, AllPairs, Contains, IfOk, IfSome, IfNone};
ghost use Rattle.run_pack.specs.Runs.{no_run, IsLastUpTo, run_of_word};
ghost use Rattle.moves.specs.Rectangles.{IsWithin};
ghost use Rattle.row_store.specs.Rows.{row_at};
ghost use Rattle.row_store.specs.Comps.{IsComp, comp_with, IsPlaceOf, IsMoveOfRow, BeginsBestPath};
ghost use Rattle.row_store.specs.Layout.{ArePlaces};

pub mod laws;
pub mod pool;

use cell_order::OrderKind;
use moves::{Bounds, Cell, MAX_PASSABLE, Move};
pub use pool::RowPool;
use run_pack::steps::Steps;
use run_pack::{Run, find_word, find_word_near, run_of};
use std::alloc::{AllocError, Global};
use std::marker::Model;
use std::sync::ledger::Ledger;

/// Stands for the place of a cell that is in the bounds of a component but not one of its cells.
const NO_PLACE: u16 = u16::MAX;

/// One component: its cells in an order, and a row of first moves from each of them.
#[derive(Drop)]
pub struct CompData {
    kind: OrderKind,
    cells: Vec<Cell>,
    rows: RowPool,
    bounds: Bounds,
    /// For each cell of the bounds, row by row, its place among the cells of the component.
    places: Vec<u16>,
}

impl Model for CompData {
    ghost use Rattle.row_store.specs.Comps.{Comp, IsComp, comp_with};
    ghost use Rattle.row_store.specs.Layout.{ArePlaces};

    ghost Value = { Comp };

    ghost view = { λ c. comp_with c.kind c.cells.items c.rows };

    ghost invariant = { λ c. IsComp (comp_with c.kind c.cells.items c.rows)
        × ArePlaces c.cells.items c.bounds c.places.items };
}

impl CompData {
    /// Makes a component from these rows, one for each cell. The cells are in the order of `kind`.
    ///
    /// # Errors
    ///
    /// `AllocError` if memory runs out. The lists are then dropped.
    pub fn make(
        alloc: Global,
        kind: OrderKind,
        cells: Vec<Cell>,
        rows: Vec<Vec<Run>>,
    ) -> Result<CompData, AllocError>
        requires { IsComp (comp_with kind cells.items (map (λ row. row.items) rows.items)) }
        ensures kind { IfOk result (λ comp. comp.kind ≡ kind) }
        ensures cells { IfOk result (λ comp. comp.cells ≡ cells.items) }
        ensures rows { IfOk result (λ comp. comp.rows ≡ map (λ row. row.items) rows.items) }
    {
        let mut pool = RowPool::new(alloc);
        for row in rows {
            pool.push_row(&row)?;
        }
        CompData::of_pool(alloc, kind, cells, pool)
    }

    /// Like `make`, from rows already in a pool. No row is copied, and memory that the pool does
    /// not use is freed.
    ///
    /// # Errors
    ///
    /// `AllocError` if memory runs out. The lists are then dropped.
    pub fn of_pool(
        alloc: Global,
        kind: OrderKind,
        cells: Vec<Cell>,
        pool: RowPool,
    ) -> Result<CompData, AllocError>
        requires { IsComp (comp_with kind cells.items pool) }
        ensures kind { IfOk result (λ comp. comp.kind ≡ kind) }
        ensures cells { IfOk result (λ comp. comp.cells ≡ cells.items) }
        ensures rows { IfOk result (λ comp. comp.rows ≡ pool) }
    {
        let bounds = Bounds::around(&cells);
        let places = places_of(alloc, &bounds, &cells)?;
        let mut cells = cells;
        cells.shrink_to_fit();
        let mut rows = pool;
        rows.shrink();
        Ok(CompData {
            kind,
            cells,
            rows,
            bounds,
            places,
        })
    }

    /// Returns the place of a cell among the cells, or `None` if it is not one of them.
    pub fn index(&self, cell: Cell) -> Option<u32>
        ensures some { IfSome result (IsPlaceOf self.now.cells cell) }
        ensures none { IfNone result (Contains self.now.cells cell → ⊥) }
    {
        if !self.bounds.has(cell) {
            return None;
        }
        let place = self.places[self.bounds.place(cell)];
        if place == NO_PLACE {
            None
        } else {
            Some(u32::from(place))
        }
    }

    /// Returns the place of one of the cells. If it may not be one, use [`CompData::index`].
    pub fn place_of(&self, cell: Cell) -> u32
        requires { Contains self.now.cells cell }
        ensures { IsPlaceOf self.now.cells cell result }
    {
        u32::from(self.places[self.bounds.place(cell)])
    }

    /// Returns the first move from the cell at `from` to the cell at `to`, read from the row of the
    /// former.
    ///
    /// It takes at most s probes of a row of n runs, where 2^s ≤ 2n + 1.
    pub fn first_move<L: Ledger>(&self, from: u32, to: u32, steps: &mut Steps<L>) -> Move
        requires from { from < length self.now.cells }
        requires to { to < length self.now.cells }
        requires apart { from ≢ to }
        ensures covering { IsMoveOfRow self.now from to result }
        ensures best { BeginsBestPath self.now.cells from to result }
        ensures cost { 2 ^ (steps.new - steps.old) ≤ 2 * length (row_at self.now.rows from) + 1 }
        ensures counted { steps.old ≤ steps.new }
    {
        let number = find_word(self.rows.row(from as usize), to, steps);
        Move::of(number).unwrap_or_default()
    }

    /// Returns the same move, searching run by run from a guess. The guess becomes the number of
    /// the run found. Any guess will do, and the nearer it is, the fewer runs are read: the run
    /// found for one cell is a good guess for the cells beside it.
    pub fn first_move_near(&self, from: u32, to: u32, guess: &mut usize) -> Move
        requires from { from < length self.now.cells }
        requires to { to < length self.now.cells }
        requires apart { from ≢ to }
        ensures covering { IsMoveOfRow self.now from to result }
        ensures best { BeginsBestPath self.now.cells from to result }
        ensures run { IsLastUpTo (row_at self.now.rows from) to guess.new }
    {
        let number = find_word_near(self.rows.row(from as usize), to, guess);
        Move::of(number).unwrap_or_default()
    }

    /// Returns the number of runs in all rows.
    pub fn runs(&self) -> u64
        ensures runs { result ≡ sum_by length self.now.rows }
        ensures limit { result ≤ MAX_PASSABLE * MAX_PASSABLE }
    {
        self.rows.runs()
    }

    /// Returns the cells in their order.
    pub fn cells(&self) -> &[Cell]
        ensures cells { result.now ≡ self.now.cells }
        ensures whole { IsComp self.now }
    {
        &self.cells
    }

    /// Returns how the cells are ordered.
    pub fn kind(&self) -> OrderKind
        ensures { result ≡ self.now.kind }
    {
        self.kind
    }

    /// Returns the number of runs in a row.
    pub fn row_len(&self, from: u32) -> u32
        requires { from < length self.now.cells }
        ensures { result ≡ length (row_at self.now.rows from) }
    {
        self.rows.row(from as usize).len() as u32
    }

    /// Returns the words of a row, one for each run.
    pub fn row(&self, from: u32) -> &[u32]
        requires { from < length self.now.cells }
        ensures row { map run_of_word result.now ≡ row_at self.now.rows from }
    {
        self.rows.row(from as usize)
    }

    /// Returns run number `place` of a row.
    pub fn row_run(&self, from: u32, place: u32) -> Run
        requires row { from < length self.now.cells }
        requires run { place < length (row_at self.now.rows from) }
        ensures { result ≡ slice_index_or (row_at self.now.rows from) place no_run }
    {
        run_of(self.rows.row(from as usize)[place as usize])
    }
}

/// Returns, for each cell of the bounds, its place among the cells, or `NO_PLACE`.
fn places_of(alloc: Global, bounds: &Bounds, cells: &[Cell]) -> Result<Vec<u16>, AllocError>
    requires few { length cells.now ≤ MAX_PASSABLE }
    requires within { All (IsWithin bounds.now) cells.now }
    requires once { AllPairs (λ a b. a ≢ b) cells.now }
    ensures { IfOk result (λ places. ArePlaces cells.now bounds.now places.items) }
{
    let mut places = vec![in alloc; NO_PLACE; bounds.size()]?;
    for (place, cell) in cells.iter().enumerate() {
        places[bounds.place(*cell)] = place as u16;
    }
    Ok(places)
}
