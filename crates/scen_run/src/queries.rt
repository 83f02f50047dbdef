//! The queries by which a made map is measured.

ghost use Rattle.std.specs.Prelude.{◌≡◌, ◌+◌, ◌<◌, ◌^◌, IfOk, length};
ghost use Rattle.moves.specs.Maps.{passable_cells};
ghost use Rattle.scen_run.specs.Inside.{IsWalkCost, IsWithinQueries, IsFewSteps, numbered_in, totals_with};
ghost use Rattle.scen_run.specs.MadeQueries.{AreQueryTotals, goal_of, queries_among, start_of};

use crate::made::cell_at;
use moves::{Cell, Grid};
use root_cost::Cost;
use std::alloc::{AllocError, Global};
use versions::Version;
use walker::measure;

/// How many queries measure a map that has a passable cell.
pub const QUERIES: u32 = 16;

/// How many passable cells farther on each next query starts.
const START_FACTOR: u64 = 7;

/// How many passable cells farther on each next query ends.
const GOAL_FACTOR: u64 = 13;

/// The number of the passable cell where the first query ends.
const GOAL_SHIFT: u64 = 5;

/// What the queries come to.
#[derive(Clone, Copy, Debug, PartialEq, Eq)]
pub struct QueryTotals {
    /// How many queries there are.
    pub queries: u32,
    /// How many of them have no path.
    pub unreachable: u32,
    /// The straight moves of all walks.
    pub straight: u32,
    /// The diagonal moves of all walks.
    pub diagonal: u32,
}

impl QueryTotals {
    /// The totals of no queries.
    const NONE: QueryTotals = QueryTotals {
        queries: 0,
        unreachable: 0,
        straight: 0,
        diagonal: 0,
    };

    /// The totals with one query more, and the cost of its walk if it has one.
    fn with(self, cost: Option<Cost>) -> QueryTotals
        requires within { IsWithinQueries self }
        requires more { self.queries < QUERIES }
        requires few { IsFewSteps cost }
        ensures { result ≡ totals_with self cost }
    {
        let queries = self.queries + 1;
        match cost {
            None => QueryTotals {
                queries,
                unreachable: self.unreachable + 1,
                ..self
            },
            Some(Cost { straight, diagonal }) => QueryTotals {
                queries,
                straight: self.straight + straight,
                diagonal: self.diagonal + diagonal,
                ..self
            },
        }
    }
}

/// Measures the version of a map by its queries. Query number i, from 0 to 15, goes from the passable cell with the
/// number 7i + seed to the one with the number 13i + 5, where the passable cells are counted from 0 row by row and
/// round and round. A map without passable cells has no queries.
///
/// # Errors
///
/// `AllocError` where memory runs out.
pub fn measure_queries(
    alloc: Global,
    version: &Version,
    seed: u32,
) -> Result<QueryTotals, AllocError>
    ensures { IfOk result (AreQueryTotals version.now seed) }
{
    let cells = passable_cells(alloc, version.grid())?;
    let mut totals = QueryTotals::NONE;
    for query in 0..queries_among(&cells) {
        totals = totals.with(walk_cost(version, &cells, seed, query));
    }
    Ok(totals)
}

/// How many queries there are among the cells.
fn queries_among(cells: &[Cell]) -> u32
    ensures { result ≡ queries_among cells.now }
{
    if cells.is_empty() { 0 } else { QUERIES }
}

/// The passable cells, row by row.
fn passable_cells(alloc: Global, grid: &Grid) -> Result<Vec<Cell>, AllocError>
    ensures { IfOk result (λ cells. cells.items ≡ passable_cells grid.now) }
{
    let (width, height) = (grid.width(), grid.height());
    let mut cells = Vec::with_capacity(alloc, grid.passable_count() as usize)?;
    for place in 0..width * height {
        let cell = cell_at(width, place);
        if grid.passable(cell) {
            cells.push(cell)?;
        }
    }
    Ok(cells)
}

/// The cost of the walk that answers a query; `None` exactly where no path exists.
fn walk_cost(version: &Version, cells: &[Cell], seed: u32, query: u32) -> Option<Cost>
    requires cells { cells.now ≡ passable_cells version.now.map }
    requires some { 0 < length cells.now }
    requires query { query < QUERIES }
    ensures cost { IsWalkCost version.now (start_of version.now.map seed query) (goal_of version.now.map query) result }
    ensures few { IsFewSteps result }
{
    let start = numbered(cells, START_FACTOR * u64::from(query) + u64::from(seed));
    let goal = numbered(cells, GOAL_FACTOR * u64::from(query) + GOAL_SHIFT);
    // That the passable cells lie on the map is known from its width.
    let _ = version.grid().width();
    measure(version, start, goal).unwrap()
}

/// The cell with that number, counted round and round.
fn numbered(cells: &[Cell], number: u64) -> Cell
    requires { 0 < length cells.now }
    ensures { result ≡ numbered_in cells.now number }
{
    cells[(number % cells.len() as u64) as usize]
}
