//! Cells whose rows can be built: the first component of a map, and its cells in an order with their neighbours.

ghost use Rattle.std.specs.Prelude.{IfOk, IfSome, IsPermutation};
ghost use Rattle.build_pool.specs.Places.{AreWithNear, CanBeBuilt};
ghost use Rattle.moves.specs.Components.{IsComponent};

use case_kit::Refusal;
use cell_order::{OrderKind, order_of};
use components::label;
use lane_rows::Near;
use moves::{Cell, Grid, MAX_PASSABLE};
use std::alloc::{AllocError, Global};

/// The cells of a map's first component, or `None` where no cell is passable.
pub fn first_component(alloc: Global, grid: &Grid) -> Result<Option<Vec<Cell>>, AllocError>
    ensures built { IfOk result (λ found. IfSome found (λ cells. CanBeBuilt cells.items)) }
    ensures component { IfOk result (λ found. IfSome found (λ cells. IsComponent grid.now cells.items)) }
{
    let labels = label(alloc, grid)?;
    if labels.count() == 0 {
        return Ok(None);
    }
    let first = labels.cells(0);
    if first.len() > MAX_PASSABLE as usize {
        return Ok(None);
    }
    // The limits of the grid are told by its width.
    let _ = grid.width();
    let cells = Vec::from_slice(alloc, first)?;
    Ok(Some(cells))
}

/// The cells of a map's first component, or a refusal where no cell is passable.
pub fn component_of(alloc: Global, grid: &Grid) -> Result<Vec<Cell>, Refusal>
    ensures { IfOk result (λ cells. CanBeBuilt cells.items) }
{
    first_component(alloc, grid)?.ok_or(Refusal::OutOfForm)
}

/// The cells in an order, and the neighbours of each.
pub fn in_order(
    alloc: Global,
    kind: OrderKind,
    cells: &[Cell],
) -> Result<(Vec<Cell>, Near), AllocError>
    requires { CanBeBuilt cells.now }
    ensures same { IfOk result (λ found. IsPermutation found.0.items cells.now) }
    ensures table { IfOk result (λ found. AreWithNear found.0.items found.1) }
{
    let order = order_of(alloc, kind, cells)?;
    let near = Near::of(alloc, &order)?;
    Ok((order, near))
}
