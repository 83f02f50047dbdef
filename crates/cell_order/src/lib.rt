//! Orders of the cells of a component. Its rows are packed in one of them.
//!
//! The cells of two rows of three in the order depth first, behind the runs of their rows:
//!
//! ```text
//! rows | dfs | 1 | .../...
//! 0E 4SE 5S/0W 2E 3SE 4S 5SW/0W 3S 4SW/0NW 2N 4W/0NW 1N 2NE 3E 5W/0N 1NE 3E, 22 runs, cells 0,0 1,0 2,0 2,1 1,1 \
//! 0,1, 1 side by side
//! ```
#![tactic(auto)]

ghost use Rattle.std.specs.Prelude.{◌≡◌, ◌+◌, ◌<◌, ◌≤◌, ◌++◌, All, AllPairs, length, reverse, IfOk, IsPermutation};
ghost use Rattle.moves.specs.Maps.{ComesBefore};
ghost use Rattle.moves.specs.Rectangles.{IsOnMap};
ghost use Rattle.moves.specs.StraightPaths.{IsConnected};
ghost use Rattle.cell_order.specs.Orders.{OrdersArePermutations, VisitsHaveNoBound, cells_beside, kind_of, ordered};

mod unseen;

use moves::{Cell, MAX_PASSABLE, MAX_SIDE};
use std::alloc::{AllocError, Global};
use unseen::Unseen;

/// How the cells of a component are ordered.
#[derive(Clone, Copy, Debug, PartialEq, Eq)]
pub enum OrderKind {
    /// Row by row, each row from left to right.
    Rows,
    /// As a depth-first search from the first cell visits them. It tries the cells to the north,
    /// east, south and west in turn, and skips those already visited.
    Dfs,
}

impl OrderKind {
    /// Returns the order's number: 0 for row by row, 1 for depth first.
    pub fn number(self) -> u8
        ensures { result ≡ kind_of self }
    {
        match self {
            OrderKind::Rows => 0,
            OrderKind::Dfs => 1,
        }
    }
}

/// Returns the cells of a component in the given order. `cells` must hold 1 to 32,768 cells in
/// row-major order, connected to one another by straight moves.
///
/// # Errors
///
/// `AllocError` if memory runs out.
pub fn order_of(alloc: Global, kind: OrderKind, cells: &[Cell]) -> Result<Vec<Cell>, AllocError>
    requires some { 0 < length cells.now }
    requires few { length cells.now ≤ MAX_PASSABLE }
    requires rows { AllPairs ComesBefore cells.now }
    requires limits { All IsOnMap cells.now }
    requires connected { IsConnected cells.now }
    ensures order { IfOk result (λ order. order.items ≡ ordered kind cells.now) }
    ensures same { IfOk result (λ order. IsPermutation order.items cells.now) }
{
    match kind {
        OrderKind::Rows => cells.iter().copied().collect(alloc),
        OrderKind::Dfs => depth_first(alloc, cells),
    }
}

/// The law of depth-first visits: the bound on depth in their definition makes no difference.
pub fn visits_have_no_bound()
    ensures { VisitsHaveNoBound }
{}

/// The law of orders: an order of connected cells contains each of them exactly once.
pub fn orders_are_permutations()
    ensures { OrdersArePermutations }
{}

/// Returns the cells as a depth-first search from the first of them visits them.
fn depth_first(alloc: Global, cells: &[Cell]) -> Result<Vec<Cell>, AllocError>
    requires some { 0 < length cells.now }
    requires few { length cells.now ≤ MAX_PASSABLE }
    requires rows { AllPairs ComesBefore cells.now }
    requires limits { All IsOnMap cells.now }
    requires connected { IsConnected cells.now }
    ensures order { IfOk result (λ order. order.items ≡ ordered (OrderKind.Dfs) cells.now) }
    ensures same { IfOk result (λ order. IsPermutation order.items cells.now) }
{
    let mut unseen = Unseen::of(alloc, cells)?;
    let mut order = Vec::with_capacity(alloc, cells.len())?;
    let mut pending = Vec::with_capacity(alloc, 3 * cells.len() + 1)?;
    pending.push(cells[0])?;
    while let Some(cell) = pending.pop() {
        if unseen.has(cell) {
            unseen.remove(cell);
            order.push(cell)?;
            push_beside(&mut pending, cell)?;
        }
    }
    Ok(order)
}

/// Pushes the cells beside a cell on the stack: north on top, then east, south and west.
fn push_beside(pending: &mut Vec<Cell>, cell: Cell) -> Result<(), AllocError>
    requires column { cell.x < MAX_SIDE }
    requires row { cell.y < MAX_SIDE }
    ensures { IfOk result (λ _.
        pending.new.items ≡ pending.old.items ++ reverse (cells_beside cell)) }
{
    let Cell { x, y } = cell;
    if x > 0 {
        pending.push(Cell { x: x - 1, y })?;
    }
    pending.push(Cell { x, y: y + 1 })?;
    pending.push(Cell { x: x + 1, y })?;
    if y > 0 {
        pending.push(Cell { x, y: y - 1 })?;
    }
    Ok(())
}
