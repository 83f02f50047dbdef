//! Numbers in the bytes of a frame.

ghost use Rattle.std.specs.Prelude.{◌≡◌, ◌≢◌, ◌+◌, ◌<◌, ◌≤◌, [], ◌++◌, ◌∷◌, drop, length, IfNone, IfSome};
ghost use Rattle.query_proto.specs.Frames.{IsFlagOf, cell_bytes};
ghost use Rattle.byteorder.specs.Endian.{big_bytes};

use crate::kinds::SECOND;
use byteorder::{BigEndian, ByteOrder};
use moves::Cell;

/// Decodes a frame that has only a kind.
pub fn alone<T: Copy>(frame: &[u8], what: T) -> Option<T>
    requires { 0 < length frame.now }
    ensures some { IfSome result (λ found. (found ≡ what) × (length frame.now ≡ 1)) }
    ensures none { IfNone result (length frame.now ≢ 1) }
{
    if frame.len() != 1 {
        return None;
    }
    Some(what)
}

/// Decodes a frame that has only a kind and the number of the second protocol.
pub fn second<T: Copy>(frame: &[u8], what: T) -> Option<T>
    requires { 0 < length frame.now }
    ensures some { IfSome result (λ found. (found ≡ what) × (drop 1 frame.now ≡ SECOND ∷ [])) }
    ensures none { IfNone result (drop 1 frame.now ≢ SECOND ∷ []) }
{
    if frame.len() != 2 {
        return None;
    }
    let byte = byte_at(frame, 1);
    if byte != SECOND {
        return None;
    }
    Some(what)
}

/// The byte at this place.
pub fn byte_at(frame: &[u8], at: usize) -> u8
    requires { at < length frame.now }
    ensures { drop at frame.now ≡ result ∷ drop (at + 1) frame.now }
{
    frame[at]
}

/// The number in the two bytes at this place.
pub fn short_at(frame: &[u8], at: usize) -> u16
    requires { at + 2 ≤ length frame.now }
    ensures { drop at frame.now ≡ big_bytes 2 result ++ drop (at + 2) frame.now }
{
    BigEndian::read_u16(&frame[at..])
}

/// The number in the four bytes at this place.
pub fn number_at(frame: &[u8], at: usize) -> u32
    requires { at + 4 ≤ length frame.now }
    ensures { drop at frame.now ≡ big_bytes 4 result ++ drop (at + 4) frame.now }
{
    BigEndian::read_u32(&frame[at..])
}

/// The number in the eight bytes at this place.
pub fn long_at(frame: &[u8], at: usize) -> u64
    requires { at + 8 ≤ length frame.now }
    ensures { drop at frame.now ≡ big_bytes 8 result ++ drop (at + 8) frame.now }
{
    BigEndian::read_u64(&frame[at..])
}

/// The cell in the four bytes at this place.
pub fn cell_at(frame: &[u8], at: usize) -> Cell
    requires { at + 4 ≤ length frame.now }
    ensures { drop at frame.now ≡ cell_bytes result ++ drop (at + 4) frame.now }
{
    let x = short_at(frame, at);
    let y = short_at(frame, at + 2);
    Cell { x, y }
}

/// The truth value that a byte encodes.
pub fn flag_of(byte: u8) -> Option<bool>
    ensures { IsFlagOf byte result }
{
    match byte {
        0 => Some(false),
        1 => Some(true),
        _ => None,
    }
}
