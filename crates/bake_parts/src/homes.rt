//! The words of the cells of a map.

ghost use Rattle.std.specs.Prelude.{◌≡◌, ℕ, ◌<◌, ◌≤◌, IfOk, length, replicate};
ghost use Rattle.path_image.specs.declared.TheConstants.{BLOCKED};
ghost use Rattle.moves.specs.Maps.{place_of};
ghost use Rattle.moves.specs.FirstSetLists.{cell_of};
ghost use Rattle.bake_parts.specs.Homes.{AreHomes, SetsHomes};
ghost use Rattle.bake_parts.specs.Plans.{AreOrdered};

use crate::component::{Component, component_in};
use cell_order::OrderKind;
use moves::{Grid, MAX_PASSABLE, place};
use path_image::{BLOCKED, HALF};
use std::alloc::{AllocError, Global};

/// The words of all cells of a map, which has these components.
pub(crate) fn homes_of(
    alloc: Global,
    grid: &Grid,
    order: OrderKind,
    components: &[Component],
) -> Result<Vec<u32>, AllocError>
    requires ordered { AreOrdered grid.now order components.now }
    requires many { length components.now ≤ MAX_PASSABLE }
    ensures { IfOk result (λ homes. AreHomes grid.now order homes.items) }
{
    // The order is here for the contract alone.
    let _ = order;
    let (width, height) = (grid.width(), grid.height());
    let mut homes = blocked(alloc, (width * height) as usize)?;
    for number in 0..components.len() {
        let component = component_in(components, number);
        set_homes(width, number as u32, component, homes.as_mut_slice());
    }
    Ok(homes)
}

/// So many words of blocked cells.
fn blocked(alloc: Global, count: usize) -> Result<Vec<u32>, AllocError>
    ensures { IfOk result (λ homes. homes.items ≡ replicate count BLOCKED) }
{
    vec![in alloc; BLOCKED; count]
}

/// Sets the words of the cells of a component.
fn set_homes(width: u32, number: u32, component: &Component, homes: &mut [u32])
    requires number { number < MAX_PASSABLE }
    requires inside { (place : ℕ) → place < length component.now
        → place_of width (cell_of component.now place) < length homes.old }
    ensures size { length homes.new ≡ length homes.old }
    ensures set { SetsHomes width number component.now (length component.now) homes.old homes.new }
{
    let size = component.size();
    for index in 0..size {
        let at = place_at(width, component, index);
        homes[at] = number * HALF + index;
    }
}

/// Where the cell at a place lies on a map of that width, row by row.
fn place_at(width: u32, component: &Component, index: u32) -> usize
    requires { index < length component.now }
    ensures { result ≡ place_of width (cell_of component.now index) }
{
    place(width, component.cells()[index as usize])
}
