//! A component, as parts need it.

ghost use Rattle.std.specs.Prelude.{◌≡◌, ◌<◌, ◌≤◌, IfOk, length, slice_index_or};
ghost use Rattle.cell_order.specs.Orders.{ordered};
ghost use Rattle.build_pool.specs.Places.{AreWithNear, CanBeBuilt};

use cell_order::{OrderKind, order_of};
use lane_rows::Near;
use moves::{Cell, MAX_PASSABLE};
use std::alloc::{AllocError, Global};
use std::marker::Model;

/// The cells of a component in their order, and the neighbours of each.
#[derive(Drop)]
pub(crate) struct Component {
    cells: Vec<Cell>,
    near: Near,
}

impl Model for Component {
    ghost use Rattle.std.specs.Prelude.{List};
    ghost use Rattle.moves.specs.declared.Cell.{Cell};
    ghost use Rattle.build_pool.specs.Places.{AreWithNear};

    ghost Value = { List Cell };

    ghost view = { λ c. c.cells.items };

    ghost invariant = { λ c. AreWithNear c.cells.items c.near };
}

impl Component {
    /// The component of these cells.
    pub(crate) fn of(
        alloc: Global,
        order: OrderKind,
        cells: &[Cell],
    ) -> Result<Component, AllocError>
        requires { CanBeBuilt cells.now }
        ensures { IfOk result (λ component. component ≡ ordered order cells.now) }
    {
        let cells = order_of(alloc, order, cells)?;
        let near = Near::of(alloc, &cells)?;
        Ok(Component { cells, near })
    }

    /// The cells in their order.
    pub(crate) fn cells(&self) -> &[Cell]
        ensures { result.now ≡ self.now }
    {
        self.cells.as_slice()
    }

    /// How many cells there are, at most 32,768.
    pub(crate) fn size(&self) -> u32
        ensures size { result ≡ length self.now }
        ensures few { result ≤ MAX_PASSABLE }
    {
        self.near.len() as u32
    }

    /// The neighbours of each cell.
    pub(crate) fn near(&self) -> &Near
        ensures { AreWithNear self.now result.now }
    {
        &self.near
    }
}

/// The component with that number.
pub(crate) fn component_in(components: &[Component], number: usize) -> &Component
    requires { number < length components.now }
    ensures { result.now ≡ slice_index_or components.now number result.now }
{
    &components[number]
}
