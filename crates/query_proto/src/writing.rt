//! Bytes and numbers, written one after the other to the front of a piece.

ghost use Rattle.std.specs.Prelude.{◌≡◌, ◌+◌, ◌<◌, ◌≤◌, [], ◌∷◌, length};
ghost use Rattle.byteorder.specs.Endian.{big_bytes};
ghost use Rattle.query_proto.specs.Frames.{GrowsFront, StandsAtFront, cell_bytes, flag_byte};

use crate::kinds::SECOND;
use byteorder::{BigEndian, ByteOrder};
use moves::Cell;

/// Writes a byte at this place, and returns the next place.
pub fn put_byte(out: &mut [u8], at: usize, byte: u8) -> usize
    requires { at < length out.old }
    ensures grows { GrowsFront (byte ∷ []) at out.old out.new result }
    ensures next { result ≡ at + 1 }
    ensures len { length out.new ≡ length out.old }
{
    out[at] = byte;
    at + 1
}

/// Writes a kind and the number of the second protocol.
pub fn put_second(out: &mut [u8], kind: u8) -> usize
    requires { 2 ≤ length out.old }
    ensures front { StandsAtFront (kind ∷ SECOND ∷ []) out.old out.new result }
    ensures limit { result ≡ 2 }
    ensures len { length out.new ≡ length out.old }
{
    let at = put_byte(out, 0, kind);
    put_byte(out, at, SECOND)
}

/// Writes a number in two bytes.
pub fn put_short(out: &mut [u8], at: usize, number: u16) -> usize
    requires { at + 2 ≤ length out.old }
    ensures grows { GrowsFront (big_bytes 2 number) at out.old out.new result }
    ensures next { result ≡ at + 2 }
    ensures len { length out.new ≡ length out.old }
{
    BigEndian::write_u16(&mut out[at..], number);
    at + 2
}

/// Writes a number in four bytes.
pub fn put_number(out: &mut [u8], at: usize, number: u32) -> usize
    requires { at + 4 ≤ length out.old }
    ensures grows { GrowsFront (big_bytes 4 number) at out.old out.new result }
    ensures next { result ≡ at + 4 }
    ensures len { length out.new ≡ length out.old }
{
    BigEndian::write_u32(&mut out[at..], number);
    at + 4
}

/// Writes a number in eight bytes.
pub fn put_long(out: &mut [u8], at: usize, number: u64) -> usize
    requires { at + 8 ≤ length out.old }
    ensures grows { GrowsFront (big_bytes 8 number) at out.old out.new result }
    ensures next { result ≡ at + 8 }
    ensures len { length out.new ≡ length out.old }
{
    BigEndian::write_u64(&mut out[at..], number);
    at + 8
}

/// Writes a cell in four bytes.
pub fn put_cell(out: &mut [u8], at: usize, cell: Cell) -> usize
    requires { at + 4 ≤ length out.old }
    ensures grows { GrowsFront (cell_bytes cell) at out.old out.new result }
    ensures next { result ≡ at + 4 }
    ensures len { length out.new ≡ length out.old }
{
    let row = put_short(out, at, cell.x);
    put_short(out, row, cell.y)
}

/// The byte that encodes a truth value.
pub fn byte_of_flag(flag: bool) -> u8
    ensures value { result ≡ flag_byte flag }
    ensures limit { result ≤ 1 }
{
    u8::from(flag)
}
