//! Numbers, cells and terrain in the bytes of a message.

ghost use Rattle.std.specs.Prelude.{◌≡◌, ◌+◌, ◌<◌, ◌≤◌, ◌++◌, ◌∷◌, drop, length, IfNone, IfSome};
ghost use Rattle.byteorder.specs.Endian.{big_bytes};
ghost use Rattle.query_proto.specs.Frames.{IsTerrainOf, cell_bytes, change_bytes};
ghost use Rattle.follow_proto.specs.Feeds.{HasPlace};
ghost use Rattle.follow_node.specs.Reading.{BeginsWithNoChange};

use byteorder::{BigEndian, ByteOrder};
use edit_log::CellChange;
use moves::{Cell, Terrain};

/// The byte at that place.
pub(crate) fn byte_at(bytes: &[u8], at: usize) -> u8
    requires { at < length bytes.now }
    ensures { drop at bytes.now ≡ result ∷ drop (at + 1) bytes.now }
{
    bytes[at]
}

/// The number in the two bytes at that place.
fn short_at(bytes: &[u8], at: usize) -> u16
    requires { at + 2 ≤ length bytes.now }
    ensures { drop at bytes.now ≡ big_bytes 2 result ++ drop (at + 2) bytes.now }
{
    BigEndian::read_u16(&bytes[at..])
}

/// The number in the four bytes at that place.
pub(crate) fn number_at(bytes: &[u8], at: usize) -> u32
    requires { at + 4 ≤ length bytes.now }
    ensures { drop at bytes.now ≡ big_bytes 4 result ++ drop (at + 4) bytes.now }
{
    BigEndian::read_u32(&bytes[at..])
}

/// The cell in the four bytes at that place.
fn cell_at(bytes: &[u8], at: usize) -> Cell
    requires { at + 4 ≤ length bytes.now }
    ensures { drop at bytes.now ≡ cell_bytes result ++ drop (at + 4) bytes.now }
{
    let x = short_at(bytes, at);
    let y = short_at(bytes, at + 2);
    Cell { x, y }
}

/// The terrain with that number.
pub(crate) fn terrain_of(byte: u8) -> Option<Terrain>
    ensures { IsTerrainOf byte result }
{
    match byte {
        0 => Some(Terrain::Blocked),
        1 => Some(Terrain::Land),
        2 => Some(Terrain::Water),
        _ => None,
    }
}

/// The change in the five bytes at that place.
pub(crate) fn change_at(bytes: &[u8], at: usize) -> Option<CellChange>
    requires { at + 5 ≤ length bytes.now }
    ensures some { IfSome result
        (λ change. drop at bytes.now ≡ change_bytes change ++ drop (at + 5) bytes.now) }
    ensures place { IfSome result HasPlace }
    ensures none { IfNone result (BeginsWithNoChange (drop at bytes.now)) }
{
    let cell = cell_at(bytes, at);
    let byte = byte_at(bytes, at + 4);
    let terrain = terrain_of(byte)?;
    Some(CellChange { cell, terrain })
}
