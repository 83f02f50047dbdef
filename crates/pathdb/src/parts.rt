//! Images that are baked in parts, by threads of the caller's, and put together by one call.
//!
//! Nothing is kept between two calls: each makes what it has to know of the map anew from its cells.

ghost use Rattle.std.specs.Prelude.{◌≡◌, ℕ, ◌<◌, IfErr, IfOk, length, slice_index};
ghost use Rattle.moves.specs.Maps.{IsWithinLimits};
ghost use Rattle.pathdb.specs.Calls.{Tells};
ghost use Rattle.pathdb.specs.Parts.{AreJoined, AreSizesTold, HasSize, IsNoPlan, IsPartTold, IsPlanOf, SaysComponents, SaysJoin, SaysPart, sources_of};

use crate::Status;
use crate::baking::{NOTHING, PathdbBaked, of_cells_fault, order_of, with_words};
use bake_parts::{Bake, JoinFault, PartFault, Sources};
use bake_words::grid_of_cells;
use std::alloc::Global;

/// Sources of one component that stand one behind the other in its order.
#[repr(C)]
#[derive(Clone, Copy, Debug, Default, PartialEq, Eq)]
pub struct PathdbSources {
    /// The number of the component.
    pub component: u32,
    /// The place of the first one among the cells of the component.
    pub first: u32,
    /// How many there are, one at least.
    pub count: u32,
}

impl PathdbSources {
    /// The same sources.
    fn sources(self) -> Sources
        ensures { result ≡ sources_of self }
    {
        Sources {
            component: self.component,
            first: self.first,
            count: self.count,
        }
    }
}

/// What is told of more words than a number of C's counts, which no part and no image has.
const TOO_LONG: (Status, PathdbBaked) = (Status::NoMemory, NOTHING);

/// Writes how many cells each component of a map has, and how many components there are.
#[unsafe(no_mangle)]
pub extern "C" fn pathdb_components(
    width: u32,
    height: u32,
    cells: &[u8],
    order: u32,
    sizes: &mut [u32],
    baked: &mut PathdbBaked,
    alloc: Global,
) -> u32
    ensures { Tells result
        (SaysComponents width height cells.now order sizes.old sizes.new baked.new) }
{
    let (status, told) = components(alloc, width, height, cells, order, sizes);
    *baked = told;
    status.number()
}

/// Writes the part of some sources of a map, in the order with that number, at the front of a room of words.
#[unsafe(no_mangle)]
pub extern "C" fn pathdb_part(
    width: u32,
    height: u32,
    cells: &[u8],
    order: u32,
    sources: PathdbSources,
    words: &mut [u32],
    baked: &mut PathdbBaked,
    alloc: Global,
) -> u32
    ensures { Tells result (SaysPart width height cells.now order
        (sources_of sources) words.old words.new baked.new) }
{
    let wanted = sources.sources();
    let (status, told) = part(alloc, width, height, cells, order, wanted, words);
    *baked = told;
    status.number()
}

/// Puts the image of a map together at the front of a room of words, from its parts, which lie one behind the other.
#[unsafe(no_mangle)]
pub extern "C" fn pathdb_join(
    width: u32,
    height: u32,
    cells: &[u8],
    order: u32,
    parts: &[u32],
    words: &mut [u32],
    baked: &mut PathdbBaked,
    alloc: Global,
) -> u32
    ensures { Tells result
        (SaysJoin width height cells.now order parts.now words.old words.new baked.new) }
{
    let (status, told) = join(alloc, width, height, cells, order, parts, words);
    *baked = told;
    status.number()
}

/// `pathdb_components` as a status, and what is told beside it.
fn components(
    alloc: Global,
    width: u32,
    height: u32,
    cells: &[u8],
    order: u32,
    sizes: &mut [u32],
) -> (Status, PathdbBaked)
    ensures { SaysComponents width height cells.now order sizes.old sizes.new result.1 result.0 }
{
    match plan_of(alloc, width, height, cells, order) {
        Ok(bake) => put_components(&bake, sizes),
        Err(told) => told,
    }
}

/// `pathdb_part` as a status, and what is told beside it.
fn part(
    alloc: Global,
    width: u32,
    height: u32,
    cells: &[u8],
    order: u32,
    sources: Sources,
    words: &mut [u32],
) -> (Status, PathdbBaked)
    ensures { SaysPart width height cells.now order sources words.old words.new result.1 result.0 }
{
    match plan_of(alloc, width, height, cells, order) {
        Ok(bake) => put_part(alloc, &bake, sources, words),
        Err(told) => told,
    }
}

/// `pathdb_join` as a status, and what is told beside it.
fn join(
    alloc: Global,
    width: u32,
    height: u32,
    cells: &[u8],
    order: u32,
    parts: &[u32],
    words: &mut [u32],
) -> (Status, PathdbBaked)
    ensures { SaysJoin width height cells.now order parts.now words.old words.new
        result.1 result.0 }
{
    match plan_of(alloc, width, height, cells, order) {
        Ok(bake) => put_image(&bake, parts, words),
        Err(told) => told,
    }
}

/// What is known of a map before its image is baked in the order with that number.
///
/// # Errors
///
/// Why there is no such map or no such order, or that memory runs out.
fn plan_of(
    alloc: Global,
    width: u32,
    height: u32,
    cells: &[u8],
    order: u32,
) -> Result<Bake, (Status, PathdbBaked)>
    ensures plan { IfOk result (λ bake. IsPlanOf width height cells.now order bake) }
    ensures limits { IfOk result (λ bake. IsWithinLimits bake.on.width bake.on.height) }
    ensures none { IfErr result (λ told. IsNoPlan width height cells.now order told.1 told.0) }
{
    let Some(kind) = order_of(order) else {
        return Err((Status::NoOrder, NOTHING));
    };
    match grid_of_cells(alloc, width, height, cells) {
        Ok(grid) => match Bake::new(alloc, grid, kind) {
            Ok(bake) => Ok(bake),
            Err(_) => Err((Status::NoMemory, NOTHING)),
        },
        Err(fault) => Err(of_cells_fault(fault, width, cells)),
    }
}

/// Puts how many cells each component has.
fn put_components(bake: &Bake, sizes: &mut [u32]) -> (Status, PathdbBaked)
    ensures { AreSizesTold sizes.old sizes.new result.1.words bake.now result.0 }
{
    let count = bake.count();
    if count as usize > sizes.len() {
        return (Status::TooSmall, with_words(count));
    }
    put_sizes(bake, count, &mut sizes[..count as usize]);
    (Status::Done, with_words(count))
}

/// Puts how many cells each of the first components has, a place for each.
fn put_sizes(bake: &Bake, count: u32, sizes: &mut [u32])
    requires { length sizes.old ≡ count }
    ensures long { length sizes.new ≡ length sizes.old }
    ensures sizes { (number : ℕ) → number < count
        → HasSize bake.now number (slice_index sizes.new number) }
{
    for number in 0..count {
        sizes[number as usize] = size_of(bake, number);
    }
}

/// How many cells the component with that number has.
fn size_of(bake: &Bake, number: u32) -> u32
    ensures { HasSize bake.now number result }
{
    match bake.cells(number) {
        Some(cells) => cells.len() as u32,
        None => 0,
    }
}

/// Puts the part of the sources.
fn put_part(
    alloc: Global,
    bake: &Bake,
    sources: Sources,
    words: &mut [u32],
) -> (Status, PathdbBaked)
    ensures { IsPartTold sources words.old words.new result.1.words bake.now result.0 }
{
    match bake.write_part(alloc, sources, words) {
        Ok(count) => match u32::try_from(count) {
            Ok(written) => (Status::Done, with_words(written)),
            Err(_) => TOO_LONG,
        },
        Err(PartFault::TooSmall { needed }) => match u32::try_from(needed) {
            Ok(wanted) => (Status::TooSmall, with_words(wanted)),
            Err(_) => TOO_LONG,
        },
        Err(PartFault::NoSources) => (Status::NoSources, NOTHING),
        Err(PartFault::NoMemory) => (Status::NoMemory, NOTHING),
    }
}

/// Puts the image that the parts make.
fn put_image(bake: &Bake, parts: &[u32], words: &mut [u32]) -> (Status, PathdbBaked)
    requires { IsWithinLimits bake.now.on.width bake.now.on.height }
    ensures { AreJoined parts.now words.old words.new result.1 bake.now result.0 }
{
    match bake.join(parts, words) {
        Ok(count) => match u32::try_from(count) {
            Ok(written) => (Status::Done, with_words(written)),
            Err(_) => TOO_LONG,
        },
        Err(JoinFault::TooSmall { needed }) => match u32::try_from(needed) {
            Ok(wanted) => (Status::TooSmall, with_words(wanted)),
            Err(_) => TOO_LONG,
        },
        Err(JoinFault::Broken { part }) => (
            Status::BrokenPart,
            PathdbBaked {
                found: part,
                ..NOTHING
            },
        ),
    }
}
