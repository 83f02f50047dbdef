//! What is known of a map before its image is baked in parts.

ghost use Rattle.std.specs.Prelude.{◌≡◌, ℕ, ◌+◌, ◌*◌, ◌^◌, ◌<◌, ◌≤◌, ◌↔◌, Err, IfErr, IfNone, IfOk, IfSome, IsTrue, OnErr, OnOk, length, map};
ghost use Rattle.moves.specs.Maps.{IsSearchable, IsWithinLimits};
ghost use Rattle.cell_order.specs.Orders.{ordered};
ghost use Rattle.version_build.specs.Plans.{CanAllBeBuilt};
ghost use Rattle.bake_parts.specs.Faults.{IsPartFaultOf};
ghost use Rattle.bake_parts.specs.Heads.{BeginsImage, BreaksParts, CountsBefore, PutsImage, SizesImage};
ghost use Rattle.bake_parts.specs.Joins.{IsJoinFaultOf, JoinsParts};
ghost use Rattle.bake_parts.specs.declared.fault.JoinFault.TheVariants.{TooSmall};
ghost use Rattle.bake_parts.specs.Plans.{AreNoSources, AreOrdered, ArePlaces, CountsComponents, IsAmong, IsComponentOf, IsMostFor, IsNoComponentOf, WritesPart};

use crate::bench::put_rows;
use crate::component::Component;
use crate::fault::{BrokenPart, JoinFault, PartFault};
use crate::homes::homes_of;
use crate::join::{put_starts, put_tables, tables_size};
use crate::room::put;
use crate::sources::Sources;
use cell_order::OrderKind;
use components::{Labels, label};
use moves::{Cell, Grid, MAX_PASSABLE};
use path_image::{FORM, HEAD, MAGIC_IMAGE, MAGIC_PATH};
use std::alloc::{AllocError, Global};
use std::marker::Model;

/// A map and an order, of whose version before all edits parts are written: for each component its cells in the
/// order, and the neighbours of each. It is only read, so any number of threads may share it.
#[derive(Drop)]
pub struct Bake {
    grid: Grid,
    order: OrderKind,
    components: Vec<Component>,
    /// The words of all cells of the map, row by row, as the image has them.
    homes: Vec<u32>,
}

impl Model for Bake {
    ghost use Rattle.bake_parts.specs.Homes.{AreHomes};
    ghost use Rattle.bake_parts.specs.Plans.{AreOrdered, Planned};

    ghost Value = { Planned };

    ghost view = { λ b. record { on = b.grid; order = b.order } };

    ghost invariant = { λ b. AreOrdered b.grid b.order b.components.items
        × AreHomes b.grid b.order b.homes.items };
}

impl Bake {
    /// The components of the map, each with its cells in the order. It takes 20 bytes a passable cell, and 4 for each
    /// cell of the map.
    ///
    /// # Errors
    ///
    /// `AllocError` where memory runs out.
    pub fn new(alloc: Global, grid: Grid, order: OrderKind) -> Result<Bake, AllocError>
        requires { IsSearchable grid }
        ensures map { IfOk result (λ bake. bake.on ≡ grid) }
        ensures order { IfOk result (λ bake. bake.order ≡ order) }
    {
        // That the map lies inside the limits is known from its width.
        let _ = grid.width();
        let components = components_of(alloc, &grid, order)?;
        let homes = homes_of(alloc, &grid, order, components.as_slice())?;
        Ok(Bake {
            grid,
            order,
            components,
            homes,
        })
    }

    /// How many components the map has.
    pub fn count(&self) -> u32
        ensures { CountsComponents self.now result }
    {
        count_of(self.components.as_slice())
    }

    /// The cells of the component with that number, in their order; `None` where there is none.
    pub fn cells(&self, number: u32) -> Option<&[Cell]>
        ensures some { IfSome result (λ cells. IsComponentOf self.now number cells.now) }
        ensures none { IfNone result (IsNoComponentOf self.now number) }
    {
        let component = self.component(number)?;
        Some(component.cells())
    }

    /// The component with that number; `None` where there is none.
    fn component(&self, number: u32) -> Option<&Component>
        ensures some { IfSome result (λ component. IsComponentOf self.now number component.now) }
        ensures none { IfNone result (IsNoComponentOf self.now number) }
    {
        component_at(self.components.as_slice(), number)
    }

    /// The component that has the sources; `None` where the map has no such sources.
    fn component_of(&self, sources: Sources) -> Option<&Component>
        ensures some { IfSome result (λ component.
            IsComponentOf self.now sources.component component.now) }
        ensures has { IfSome result (λ component. ArePlaces sources (length component.now)) }
        ensures none { IfNone result (AreNoSources self.now sources) }
    {
        let component = self.component(sources.component)?;
        if are_places(sources, component.cells().len()) {
            Some(component)
        } else {
            None
        }
    }

    /// How many words the part of the sources has at most; `None` where the map has no such sources.
    pub fn most_words(&self, sources: Sources) -> Option<u64>
        ensures some { IfSome result (IsMostFor self.now sources) }
        ensures none { IfNone result (AreNoSources self.now sources) }
    {
        let component = self.component_of(sources)?;
        let size = component.cells().len() as u64;
        Some(3 + u64::from(sources.count) * (1 + size))
    }

    /// Writes the part of the sources at the front of a room, and says how many words it has; those behind it stay as
    /// they were. It takes 108 bytes for each cell of the component, once, and gives them back.
    ///
    /// # Errors
    ///
    /// That the map has no such sources; that the room has too few words, and how many are needed; or that memory
    /// runs out. What the room has then is of no use.
    pub fn write_part(
        &self,
        alloc: Global,
        sources: Sources,
        room: &mut [u32],
    ) -> Result<usize, PartFault>
        ensures part { IfOk result (WritesPart self.now sources room.old room.new) }
        ensures fault { IfErr result (IsPartFaultOf self.now sources (length room.old)) }
        ensures size { length room.new ≡ length room.old }
    {
        let Some(component) = self.component_of(sources) else {
            return Err(PartFault::NoSources);
        };
        let needed = put_rows(alloc, &self.grid, component, sources, room)?;
        if needed > room.len() {
            return Err(PartFault::TooSmall { needed });
        }
        Ok(needed)
    }

    /// Puts the image together at the front of a room, from its parts, which lie one behind the other in the order of
    /// the components and of their cells; says how many words it has. The words behind it stay as they were. It takes
    /// no memory.
    ///
    /// The heads of the parts and the numbers of their runs are judged, and that nothing is missing, comes twice or
    /// is left. The runs are not: parts that were written for another map or another order, or were changed since,
    /// may pass.
    ///
    /// # Errors
    ///
    /// The first part that isn't the one that is next, or ends too early; or that the room has too few words, and how
    /// many are needed. In the second case the room stays as it was; in the first what it has is of no use.
    pub fn join(&self, parts: &[u32], room: &mut [u32]) -> Result<usize, JoinFault>
        ensures image { IfOk result (JoinsParts self.now parts.now room.old room.new) }
        ensures fits { IfOk result (λ count. count ≤ length room.old) }
        ensures kept { (needed : ℕ) → result ≡ Err (TooSmall needed) → room.new ≡ room.old }
        ensures fault { IfErr result (IsJoinFaultOf self.now parts.now (length room.old)) }
    {
        let size = self.image_size(parts)?;
        if size as usize > room.len() {
            return Err(JoinFault::TooSmall {
                needed: size as usize,
            });
        }
        self.put_image(size, parts, room)?;
        Ok(size as usize)
    }

    /// How many words the image has.
    ///
    /// # Errors
    ///
    /// The first part that isn't the one that is next, or ends too early.
    fn image_size(&self, parts: &[u32]) -> Result<u32, BrokenPart>
        ensures size { IfOk result (SizesImage self.now parts.now) }
        ensures none { OnErr result (BreaksParts self.now parts.now) }
    {
        let components = self.components.as_slice();
        let tables = tables_size(components, parts)?;
        let size = u64::from(self.tables_at()) + tables;
        // (The image of a version has fewer words than a word can count.)
        if size > u64::from(u32::MAX) {
            return Err(BrokenPart { part: 0 });
        }
        Ok(size as u32)
    }

    /// How many words stand before the tables.
    fn tables_at(&self) -> u32
        ensures size { CountsBefore self.now result }
        ensures few { result < 2 ^ 22 }
    {
        let (width, height) = (self.grid.width(), self.grid.height());
        let count = count_of(self.components.as_slice());
        HEAD as u32 + width * height + count
    }

    /// The first words of the image, which has so many.
    fn head(&self, size: u32) -> [u32; HEAD]
        ensures { BeginsImage self.now size result }
    {
        [
            MAGIC_PATH,
            MAGIC_IMAGE,
            FORM,
            size,
            self.grid.width(),
            self.grid.height(),
            0,
            u32::from(self.order.number()),
            self.grid.passable_count(),
            count_of(self.components.as_slice()),
        ]
    }

    /// Puts the image, which has so many words.
    ///
    /// # Errors
    ///
    /// The first part that isn't the one that is next, or ends too early.
    fn put_image(&self, size: u32, parts: &[u32], room: &mut [u32]) -> Result<(), BrokenPart>
        ensures image { OnOk result (PutsImage self.now parts.now size room.old room.new) }
        ensures none { OnErr result (BreaksParts self.now parts.now) }
    {
        let components = self.components.as_slice();
        let words = self.homes.as_slice();
        let head = self.head(size);
        let homes = put(&head, room, 0);
        let starts = put(words, room, homes);
        let start = self.tables_at();
        let tables = put_starts(components, start, parts, room, starts)?;
        put_tables(components, parts, room, tables)?;
        Ok(())
    }
}

/// Whether they are places of a component with so many cells, one at least.
fn are_places(sources: Sources, size: usize) -> bool
    ensures { IsTrue result ↔ ArePlaces sources size }
{
    let end = u64::from(sources.first) + u64::from(sources.count);
    0 < sources.count && end <= size as u64
}

/// How many components there are.
fn count_of(components: &[Component]) -> u32
    requires { length components.now ≤ MAX_PASSABLE }
    ensures { result ≡ length components.now }
{
    components.len() as u32
}

/// The component with that number; `None` where there is none.
fn component_at(components: &[Component], number: u32) -> Option<&Component>
    ensures some { IfSome result (λ component. IsAmong components.now number component.now) }
    ensures none { IfNone result (length components.now ≤ number) }
{
    let at = number as usize;
    if at < components.len() {
        Some(&components[at])
    } else {
        None
    }
}

/// The components of a map, each with its cells in the order.
fn components_of(alloc: Global, grid: &Grid, order: OrderKind) -> Result<Vec<Component>, AllocError>
    requires searchable { IsSearchable grid.now }
    requires limits { IsWithinLimits grid.now.width grid.now.height }
    requires whole { length grid.now.terrain ≡ grid.now.width * grid.now.height }
    ensures { IfOk result (λ components. AreOrdered grid.now order components.items) }
{
    let labels = label(alloc, grid)?;
    let components = ordered_all(alloc, order, &labels)?;
    Ok(components)
}

/// Components, each with its cells in the order.
fn ordered_all(
    alloc: Global,
    order: OrderKind,
    labels: &Labels,
) -> Result<Vec<Component>, AllocError>
    requires { CanAllBeBuilt labels.now }
    ensures { IfOk result (λ components. components.items ≡ map (ordered order) labels.now) }
{
    let mut components = Vec::with_capacity(alloc, labels.count() as usize)?;
    for number in 0..labels.count() {
        components.push(Component::of(alloc, order, labels.cells(number))?)?;
    }
    Ok(components)
}
