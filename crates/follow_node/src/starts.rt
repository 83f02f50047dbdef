//! The map in the bytes of a message.

ghost use Rattle.std.specs.Prelude.{◌≡◌, ◌↔◌, IfOk, IsTrue, MatchOption, map};
ghost use Rattle.moves.specs.Maps.{IsWithinLimits};
ghost use Rattle.query_proto.specs.Frames.{terrain_byte};
ghost use Rattle.follow_proto.specs.Feeds.Message.{Start};
ghost use Rattle.follow_node.specs.Reading.{SpellNoTerrain, Spells, SpellsNoStart};

use crate::reading::{number_at, terrain_of};
use follow_proto::kinds::START;
use moves::{Grid, MAX_CELLS, MAX_PASSABLE, MAX_SIDE, Terrain};
use std::alloc::{AllocError, Global};

/// The map that a frame spells, if it spells one that a board may begin with.
///
/// # Errors
///
/// `AllocError` where memory runs out.
pub(crate) fn start_in(alloc: Global, frame: &[u8]) -> Result<Option<Grid>, AllocError>
    ensures { IfOk result (λ found. MatchOption found (SpellsNoStart frame.now)
        (λ grid. Spells frame.now (Start grid))) }
{
    if frame.len() < 9 {
        return Ok(None);
    }
    if frame[0] != START {
        return Ok(None);
    }
    let width = number_at(frame, 1);
    let height = number_at(frame, 5);
    if !are_sides(width, height) {
        return Ok(None);
    }
    if frame.len() - 9 != (width * height) as usize {
        return Ok(None);
    }
    let Some(terrain) = terrain_in(alloc, &frame[9..])? else {
        return Ok(None);
    };
    let grid = Grid::of_terrain(alloc, width, height, terrain)?;
    if grid.passable_count() > MAX_PASSABLE {
        return Ok(None);
    }
    Ok(Some(grid))
}

/// Whether a map may have these sides.
fn are_sides(width: u32, height: u32) -> bool
    ensures { IsTrue result ↔ IsWithinLimits width height }
{
    if width == 0 || width > MAX_SIDE {
        return false;
    }
    if height == 0 || height > MAX_SIDE {
        return false;
    }
    width * height <= MAX_CELLS
}

/// The terrain of cells, a byte each, if each byte is that of one.
///
/// # Errors
///
/// `AllocError` where memory runs out.
fn terrain_in(alloc: Global, bytes: &[u8]) -> Result<Option<Vec<Terrain>>, AllocError>
    ensures { IfOk result (λ found. MatchOption found (SpellNoTerrain bytes.now)
        (λ terrain. bytes.now ≡ map terrain_byte terrain.items)) }
{
    let mut terrain = Vec::with_capacity(alloc, bytes.len())?;
    for byte in bytes {
        match terrain_of(*byte) {
            Some(next) => terrain.push(next)?,
            None => return Ok(None),
        }
    }
    Ok(Some(terrain))
}
