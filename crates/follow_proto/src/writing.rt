//! Bytes and numbers, written one after the other to the front of a piece.

ghost use Rattle.std.specs.Prelude.{◌≡◌, ◌+◌, ◌<◌, ◌≤◌, [], ◌∷◌, length};
ghost use Rattle.byteorder.specs.Endian.{big_bytes};
ghost use Rattle.query_proto.specs.Frames.{GrowsFront, change_bytes};

use crate::messages::terrain_byte;
use byteorder::{BigEndian, ByteOrder};
use edit_log::CellChange;

/// Writes a byte at this place, and returns the next place.
pub(crate) fn put_byte(out: &mut [u8], at: usize, byte: u8) -> usize
    requires { at < length out.old }
    ensures grows { GrowsFront (byte ∷ []) at out.old out.new result }
    ensures next { result ≡ at + 1 }
    ensures len { length out.new ≡ length out.old }
{
    out[at] = byte;
    at + 1
}

/// Writes a number in two bytes.
fn put_short(out: &mut [u8], at: usize, number: u16) -> usize
    requires { at + 2 ≤ length out.old }
    ensures grows { GrowsFront (big_bytes 2 number) at out.old out.new result }
    ensures next { result ≡ at + 2 }
    ensures len { length out.new ≡ length out.old }
{
    BigEndian::write_u16(&mut out[at..], number);
    at + 2
}

/// Writes a number in four bytes.
pub(crate) fn put_number(out: &mut [u8], at: usize, number: u32) -> usize
    requires { at + 4 ≤ length out.old }
    ensures grows { GrowsFront (big_bytes 4 number) at out.old out.new result }
    ensures next { result ≡ at + 4 }
    ensures len { length out.new ≡ length out.old }
{
    BigEndian::write_u32(&mut out[at..], number);
    at + 4
}

/// Writes a change in five bytes: its column, its row and the new terrain.
pub(crate) fn put_change(out: &mut [u8], at: usize, change: CellChange) -> usize
    requires { at + 5 ≤ length out.old }
    ensures grows { GrowsFront (change_bytes change) at out.old out.new result }
    ensures next { result ≡ at + 5 }
    ensures len { length out.new ≡ length out.old }
{
    let row = put_short(out, at, change.cell.x);
    let last = put_short(out, row, change.cell.y);
    put_byte(out, last, terrain_byte(change.terrain))
}
