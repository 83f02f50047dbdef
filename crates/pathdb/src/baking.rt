//! Images that are baked into the caller's words.

ghost use Rattle.std.specs.Prelude.{◌≡◌, ◌+◌, ◌*◌, ◌<◌, IfNone, IfSome, Some};
ghost use Rattle.moves.specs.Maps.{IsSearchable};
ghost use Rattle.cell_order.specs.Orders.{kind_of};
ghost use Rattle.pathdb.specs.Bakes.{IsOutcome, SaysBakeCells, SaysBakeText, cells_fault_of, map_fault_of};
ghost use Rattle.pathdb.specs.Calls.{Tells};

use crate::Status;
use bake_words::{BakeFault, CellsFault, bake, grid_of_cells};
use cell_order::OrderKind;
use map_read::{MAX_MAP_BYTES, MapError, MapFault, read_map};
use moves::Grid;
use std::alloc::Global;

/// What a bake tells beside its status. A number of which the status does not speak is 0.
#[repr(C)]
#[derive(Clone, Copy, Debug, Default, PartialEq, Eq)]
pub struct PathdbBaked {
    /// How many words the image has.
    pub words: u32,
    /// A line of the map's text, from 1.
    pub line: u32,
    /// The column of a cell.
    pub x: u32,
    /// The row of a cell.
    pub y: u32,
    /// The byte of a cell.
    pub byte: u32,
    /// How many cells a row is to have.
    pub expected: u32,
    /// How many cells or rows there are.
    pub found: u32,
}

/// No number.
pub(crate) const NOTHING: PathdbBaked = PathdbBaked {
    words: 0,
    line: 0,
    x: 0,
    y: 0,
    byte: 0,
    expected: 0,
    found: 0,
};

/// Bakes the image of a map that is given as a text into a room of words, in the order with that number.
#[unsafe(no_mangle)]
pub extern "C" fn pathdb_bake_text(
    text: &[u8],
    order: u32,
    words: &mut [u32],
    baked: &mut PathdbBaked,
    alloc: Global,
) -> u32
    ensures { Tells result (SaysBakeText text.now order words.old words.new baked.new) }
{
    let (status, told) = bake_text(alloc, text, order, words);
    *baked = told;
    status.number()
}

/// Bakes the image of a map that is given by its sides and a byte a cell, row by row: 0 is blocked, 1 land and 2 water.
#[unsafe(no_mangle)]
pub extern "C" fn pathdb_bake_cells(
    width: u32,
    height: u32,
    cells: &[u8],
    order: u32,
    words: &mut [u32],
    baked: &mut PathdbBaked,
    alloc: Global,
) -> u32
    ensures { Tells result (SaysBakeCells width height cells.now order words.old words.new baked.new) }
{
    let (status, told) = bake_cells(alloc, width, height, cells, order, words);
    *baked = told;
    status.number()
}

/// `pathdb_bake_text` as a status, and what is told beside it.
fn bake_text(alloc: Global, text: &[u8], order: u32, words: &mut [u32]) -> (Status, PathdbBaked)
    ensures { SaysBakeText text.now order words.old words.new result.1 result.0 }
{
    let Some(kind) = order_of(order) else {
        return (Status::NoOrder, NOTHING);
    };
    if text.len() > MAX_MAP_BYTES {
        return (Status::TextTooLong, NOTHING);
    }
    match read_map(alloc, text) {
        Ok(grid) => bake_grid(alloc, grid, kind, words),
        Err(MapError::Fault(fault)) => of_map_fault(fault),
        Err(MapError::NoMemory) => (Status::NoMemory, NOTHING),
    }
}

/// `pathdb_bake_cells` as a status, and what is told beside it.
fn bake_cells(
    alloc: Global,
    width: u32,
    height: u32,
    cells: &[u8],
    order: u32,
    words: &mut [u32],
) -> (Status, PathdbBaked)
    ensures { SaysBakeCells width height cells.now order words.old words.new result.1 result.0 }
{
    let Some(kind) = order_of(order) else {
        return (Status::NoOrder, NOTHING);
    };
    match grid_of_cells(alloc, width, height, cells) {
        Ok(grid) => bake_grid(alloc, grid, kind, words),
        Err(fault) => of_cells_fault(fault, width, cells),
    }
}

/// Bakes the image of a map.
fn bake_grid(alloc: Global, grid: Grid, kind: OrderKind, words: &mut [u32]) -> (Status, PathdbBaked)
    requires { IsSearchable grid }
    ensures { IsOutcome grid kind words.old words.new result.1.words result.0 }
{
    match bake(alloc, grid, kind, words) {
        Ok(count) => (Status::Done, with_words(count)),
        Err(BakeFault::TooSmall { needed }) => (Status::TooSmall, with_words(needed)),
        Err(BakeFault::NoMemory) => (Status::NoMemory, NOTHING),
    }
}

/// That an image has so many words.
pub(crate) fn with_words(words: u32) -> PathdbBaked
    ensures { result.words ≡ words }
{
    PathdbBaked { words, ..NOTHING }
}

/// What is told of a text that is no map.
fn of_map_fault(fault: MapFault) -> (Status, PathdbBaked)
    ensures { map_fault_of result.0 result.1 ≡ Some fault }
{
    match fault {
        MapFault::Header { line } => (Status::BadHeader, PathdbBaked { line, ..NOTHING }),
        MapFault::Size { line } => (Status::BadSize, PathdbBaked { line, ..NOTHING }),
        MapFault::RowLength {
            line,
            expected,
            found,
        } => (
            Status::BadRow,
            PathdbBaked {
                line,
                expected,
                found,
                ..NOTHING
            },
        ),
        MapFault::BadCell { x, y, byte } => (Status::BadByte, with_byte(x.into(), y.into(), byte)),
        MapFault::MissingRows { found } => (Status::MissingRows, PathdbBaked { found, ..NOTHING }),
        MapFault::Extra { line } => (Status::ExtraLine, PathdbBaked { line, ..NOTHING }),
        MapFault::TooManyCells { x, y } => {
            (Status::TooManyCells, with_byte(x.into(), y.into(), 0))
        }
    }
}

/// A cell and its byte.
fn with_byte(x: u32, y: u32, byte: u8) -> PathdbBaked
    ensures x { result.x ≡ x }
    ensures y { result.y ≡ y }
    ensures byte { result.byte ≡ byte }
{
    PathdbBaked {
        x,
        y,
        byte: u32::from(byte),
        ..NOTHING
    }
}

/// What is told of bytes that are no cells of a map with so many columns.
pub(crate) fn of_cells_fault(fault: CellsFault, width: u32, cells: &[u8]) -> (Status, PathdbBaked)
    ensures { cells_fault_of width result.0 result.1 ≡ Some fault }
{
    match fault {
        CellsFault::Sides => (Status::BadSize, NOTHING),
        CellsFault::Count => (Status::WrongCount, NOTHING),
        CellsFault::BadByte { place } => {
            let byte = cells.get(place as usize).copied().unwrap_or(0);
            let (x, y) = cell_at(place, width);
            (Status::BadByte, with_byte(x, y, byte))
        }
        CellsFault::TooManyCells => (Status::TooManyCells, NOTHING),
        CellsFault::NoMemory => (Status::NoMemory, NOTHING),
    }
}

/// The column and the row at a place.
fn cell_at(place: u32, width: u32) -> (u32, u32)
    ensures { result.1 * width + result.0 ≡ place }
{
    if width == 0 {
        return (place, 0);
    }
    (place % width, place / width)
}

/// The order with that number.
pub(crate) fn order_of(number: u32) -> Option<OrderKind>
    ensures order { IfSome result (λ order. kind_of order ≡ number) }
    ensures none { IfNone result (1 < number) }
{
    match number {
        0 => Some(OrderKind::Rows),
        1 => Some(OrderKind::Dfs),
        _ => None,
    }
}
