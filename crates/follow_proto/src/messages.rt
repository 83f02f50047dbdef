//! Messages of a leader without edits.

ghost use Rattle.std.specs.Prelude.{◌≡◌, ◌*◌, ◌++◌, length, map};
ghost use Rattle.moves.specs.Maps.{Map, IsWithinLimits};
ghost use Rattle.query_proto.specs.Frames.{terrain_byte};
ghost use Rattle.follow_proto.specs.Feeds.{ahead_bytes, no_memory_bytes, HasHead};

use crate::kinds::{AHEAD, NO_MEMORY, START};
use crate::writing::{put_byte, put_number};
use moves::Terrain;

/// The number of a terrain.
pub fn terrain_byte(terrain: Terrain) -> u8
    ensures { result ≡ terrain_byte terrain }
{
    match terrain {
        Terrain::Blocked => 0,
        Terrain::Land => 1,
        Terrain::Water => 2,
    }
}

/// The message with the map before any edit, up to the terrain of its cells, which must follow in one byte each, row by
/// row.
pub fn start_head(width: u32, height: u32) -> [u8; 13]
    requires { IsWithinLimits width height }
    ensures { HasHead width height result }
{
    let mut head = [0; 13];
    let kind = put_number(&mut head, 0, 9 + width * height);
    let sides = put_byte(&mut head, kind, START);
    let second = put_number(&mut head, sides, width);
    put_number(&mut head, second, height);
    head
}

/// The message that only `accepted` edits were accepted, fewer than the follower has.
pub fn ahead(accepted: u32) -> [u8; 9]
    ensures { result ≡ ahead_bytes accepted }
{
    let mut message = [0; 9];
    let kind = put_number(&mut message, 0, 5);
    let number = put_byte(&mut message, kind, AHEAD);
    put_number(&mut message, number, accepted);
    message
}

/// The message that the leader ran out of memory for the edits.
pub fn no_memory() -> [u8; 5]
    ensures { result ≡ no_memory_bytes }
{
    [0, 0, 0, 1, NO_MEMORY]
}
