//! An image that is baked into a room of words.

ghost use Rattle.std.specs.Prelude.{◌≡◌, ℕ, ◌+◌, ◌*◌, ◌<◌, IfErr, IfOk, OnErr, length, slice_index};
ghost use Rattle.moves.specs.Maps.{IsSearchable};
ghost use Rattle.path_image.specs.Images.{image_of};
ghost use Rattle.path_image.specs.Writing.{bytes_of};
ghost use Rattle.bake_words.specs.Baking.{BakesInto, IsBakeFaultOf, word_of_bytes};

use crate::alone::first_version;
use crate::fault::BakeFault;
use cell_order::OrderKind;
use moves::Grid;
use path_image::{image_words, write_image};
use std::alloc::{AllocError, Global};
use versions::Version;
use wire::MemSink;

/// Bakes the image of the first version of a map into a room, and says how many words it has; those behind it stay as
/// they were. It takes memory for the database and for the image once more, and gives it back.
///
/// # Errors
///
/// That the room has too few words, and how many are needed, or that memory runs out. The room stays as it was.
pub fn bake(alloc: Global, grid: Grid, kind: OrderKind, room: &mut [u32]) -> Result<u32, BakeFault>
    requires { IsSearchable grid }
    ensures image { IfOk result (BakesInto grid kind room.old room.new) }
    ensures fault { IfErr result (IsBakeFaultOf grid kind room.old) }
    ensures kept { OnErr result (room.new ≡ room.old) }
{
    let version = first_version(alloc, grid, kind)?;
    let size = image_words(&version) as usize;
    if size > room.len() {
        return Err(BakeFault::TooSmall {
            needed: size as u32,
        });
    }
    let sink = image_bytes(alloc, &version)?;
    put_words(sink.bytes(), &mut room[..size]);
    Ok(size as u32)
}

/// The image of a version as bytes.
///
/// # Errors
///
/// `AllocError` where memory runs out.
fn image_bytes(alloc: Global, version: &Version) -> Result<MemSink, AllocError>
    ensures { IfOk result (λ sink. sink.held ≡ bytes_of (image_of version.now)) }
{
    let size = image_words(version) as usize;
    let mut sink = MemSink::new(alloc, 4 * size, Vec::new(alloc))?;
    match write_image(version, &mut sink) {
        Ok(_) => Ok(sink),
        // The sink has room for all, and takes it.
        Err(_) => Err(AllocError),
    }
}

/// Puts words that are given as bytes, four for each, the lowest first.
fn put_words(bytes: &[u8], room: &mut [u32])
    requires { length bytes.now ≡ 4 * length room.old }
    ensures long { length room.new ≡ length room.old }
    ensures words { (place : ℕ) → place < length room.old
        → slice_index room.new place ≡ word_of_bytes bytes.now place }
{
    for place in 0..room.len() {
        room[place] = word_at(bytes, place);
    }
}

/// The word at a place.
#[inline(always)]
fn word_at(bytes: &[u8], place: usize) -> u32
    requires { 4 * place + 3 < length bytes.now }
    ensures { result ≡ word_of_bytes bytes.now place }
{
    let at = 4 * place;
    u32::from(bytes[at])
        + 256 * u32::from(bytes[at + 1])
        + 65_536 * u32::from(bytes[at + 2])
        + 16_777_216 * u32::from(bytes[at + 3])
}
