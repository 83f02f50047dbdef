//! What a file says before its terrain: the mark, the sides of the map, the number of edits and the order.

ghost use Rattle.std.specs.Prelude.{◌≡◌, ◌<◌, [], IfErr, IfOk, OnOk, IfSome, IfNone, IsTrue, ◌↔◌, ◌≢◌, ◌^◌};
ghost use Rattle.moves.specs.Maps.{IsWithinLimits};
ghost use Rattle.cell_order.specs.Orders.{kind_of};
ghost use Rattle.path_file.specs.Files.{mark, width_bytes, sides_bytes, prefix_bytes, head_bytes, number_bytes};
ghost use Rattle.path_file.specs.Fields.{IsHead, IsSide};
ghost use Rattle.path_file.specs.Faults.{IsFirstDbFault};
ghost use Rattle.path_file.specs.Readings.{Passes, front};

use crate::fault::DbFault;
use crate::reader::Reader;
use cell_order::OrderKind;
use moves::{MAX_CELLS, MAX_SIDE};

/// What each file begins with.
pub(crate) const MARK: [u8; 8] = *b"PATHDB01";

/// What a file says before its terrain.
#[derive(Clone, Copy)]
pub(crate) struct Head {
    pub width: u32,
    pub height: u32,
    /// How many edits the map comes after.
    pub prefix: u32,
    pub order: OrderKind,
}

/// Reads the head.
pub(crate) fn read_head(reader: &mut Reader) -> Result<Head, DbFault>
    requires start { reader.old.at ≡ 0 }
    ensures same { OnOk result (reader.new.bytes ≡ reader.old.bytes) }
    ensures head { IfOk result IsHead }
    ensures front { IfOk result (λ head. front reader.new ≡ head_bytes head) }
    ensures fault { IfErr result (IsFirstDbFault reader.old.bytes) }
{
    read_mark(reader)?;
    let width = read_width(reader)?;
    let height = read_height(reader, width)?;
    let prefix = read_prefix(reader, width, height)?;
    let order = read_order(reader, width, height, prefix)?;
    Ok(Head {
        width,
        height,
        prefix,
        order,
    })
}

/// Reads the mark.
fn read_mark(reader: &mut Reader) -> Result<(), DbFault>
    requires start { reader.old.at ≡ 0 }
    ensures same { OnOk result (reader.new.bytes ≡ reader.old.bytes) }
    ensures front { OnOk result (front reader.new ≡ mark) }
    ensures fault { IfErr result (IsFirstDbFault reader.old.bytes) }
{
    let field = reader.eight()?;
    if !is_mark(&field) {
        return Err(DbFault::Magic);
    }
    Ok(())
}

/// Whether the bytes are the mark.
fn is_mark(field: &[u8]) -> bool
    ensures { IsTrue result ↔ (field.now ≡ mark) }
{
    field == MARK.as_slice()
}

/// Reads the width.
fn read_width(reader: &mut Reader) -> Result<u32, DbFault>
    requires front { front reader.old ≡ mark }
    ensures same { OnOk result (reader.new.bytes ≡ reader.old.bytes) }
    ensures side { IfOk result IsSide }
    ensures front { IfOk result (λ width. front reader.new ≡ width_bytes width) }
    ensures fault { IfErr result (IsFirstDbFault reader.old.bytes) }
{
    let width = reader.number()?;
    if !is_side(width) {
        return Err(DbFault::Size);
    }
    Ok(width)
}

/// Whether a map may have this side.
fn is_side(side: u32) -> bool
    ensures { IsTrue result ↔ IsSide side }
{
    1 <= side && side <= MAX_SIDE
}

/// Reads the height, behind a width.
fn read_height(reader: &mut Reader, width: u32) -> Result<u32, DbFault>
    requires side { IsSide width }
    requires front { front reader.old ≡ width_bytes width }
    ensures same { OnOk result (reader.new.bytes ≡ reader.old.bytes) }
    ensures limits { IfOk result (IsWithinLimits width) }
    ensures front { IfOk result (λ height. front reader.new ≡ sides_bytes width height) }
    ensures fault { IfErr result (IsFirstDbFault reader.old.bytes) }
{
    let height = reader.number()?;
    if !are_sides(width, height) {
        return Err(DbFault::Size);
    }
    Ok(height)
}

/// Whether a map may have these sides.
fn are_sides(width: u32, height: u32) -> bool
    requires { IsSide width }
    ensures { IsTrue result ↔ IsWithinLimits width height }
{
    is_side(height) && width * height <= MAX_CELLS
}

/// Reads the number of edits, behind the sides.
fn read_prefix(reader: &mut Reader, width: u32, height: u32) -> Result<u32, DbFault>
    requires limits { IsWithinLimits width height }
    requires front { front reader.old ≡ sides_bytes width height }
    ensures same { OnOk result (reader.new.bytes ≡ reader.old.bytes) }
    ensures front { IfOk result (λ prefix. front reader.new ≡ prefix_bytes width height prefix) }
    ensures fault { IfErr result (IsFirstDbFault reader.old.bytes) }
{
    reader.number()
}

/// Reads the order, behind the sides and the number of edits.
fn read_order(
    reader: &mut Reader,
    width: u32,
    height: u32,
    prefix: u32,
) -> Result<OrderKind, DbFault>
    requires limits { IsWithinLimits width height }
    requires front { front reader.old ≡ prefix_bytes width height prefix }
    ensures same { OnOk result (reader.new.bytes ≡ reader.old.bytes) }
    ensures front { IfOk result (λ order. front reader.new
        ≡ head_bytes (record { width = width; height = height; prefix = prefix; order = order })) }
    ensures fault { IfErr result (IsFirstDbFault reader.old.bytes) }
{
    let byte = reader.byte()?;
    match order_for(byte) {
        Some(order) => Ok(order),
        None => Err(DbFault::Kind { byte }),
    }
}

/// The order with that number.
fn order_for(byte: u8) -> Option<OrderKind>
    ensures some { IfSome result (λ order. kind_of order ≡ byte) }
    ensures none { IfNone result (1 < byte) }
{
    match byte {
        0 => Some(OrderKind::Rows),
        1 => Some(OrderKind::Dfs),
        _ => None,
    }
}
