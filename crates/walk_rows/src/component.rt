//! The component in which a walk lies.

ghost use Rattle.std.specs.Prelude.{IfOk, length};
ghost use Rattle.moves.specs.Maps.{IsPassable, IsSearchable};
ghost use Rattle.walk_rows.specs.Walks.{CanBeWalked, IsHome};

use crate::along::Route;
use cell_order::order_of;
use components::label;
use moves::{Cell, Grid};
use std::alloc::{AllocError, Global};

/// The cells of the component that has the goal, in the order of the database.
pub(crate) fn component_of(
    alloc: Global,
    grid: &Grid,
    route: Route,
) -> Result<Vec<Cell>, AllocError>
    requires searchable { IsSearchable grid.now }
    requires goal { IsPassable grid.now route.goal }
    ensures home { IfOk result (λ cells. IsHome grid.now route cells.items) }
    ensures walked { IfOk result (λ cells. CanBeWalked grid.now cells.items) }
{
    // That the map lies inside the limits is known from its width.
    let _ = grid.width();
    let labels = label(alloc, grid)?;
    let number = labels.of(route.goal).unwrap();
    let cells = order_of(alloc, route.order, labels.cells(number))?;
    Ok(cells)
}
