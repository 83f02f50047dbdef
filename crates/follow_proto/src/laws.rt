//! Laws of the bytes, which follow from the definitions alone: no code runs.

ghost use Rattle.std.specs.Prelude.{◌≡◌, [], ◌∷◌};
ghost use Rattle.moves.specs.Maps.{map_of};
ghost use Rattle.moves.specs.declared.Terrain.TheVariants.{Blocked, Land};
ghost use Rattle.follow_proto.specs.Feeds.{ahead_bytes, ask_bytes, edits_bytes, no_memory_bytes, start_bytes};
ghost use Rattle.follow_proto.specs.Examples.{first_blocked};

use crate::kinds::{AHEAD, ASK, EDITS, NO_MEMORY, START};
use crate::{ASK_SIZE, EDIT_ROOM, MAX_FRAME, MAX_SENT};

/// The first byte of an ask and of each message.
pub fn kinds_are_these()
    ensures ask { ASK ≡ 33 }
    ensures start { START ≡ 49 }
    ensures edits { EDITS ≡ 50 }
    ensures ahead { AHEAD ≡ 51 }
    ensures no_memory { NO_MEMORY ≡ 52 }
{}

/// How many edits a message may have, and how many bytes an ask, an edit and a frame have at most.
pub fn sizes_are_these()
    ensures sent { MAX_SENT ≡ 1024 }
    ensures ask { ASK_SIZE ≡ 5 }
    ensures edit { EDIT_ROOM ≡ 321 }
    ensures frame { MAX_FRAME ≡ 1048585 }
{}

/// Some messages, byte by byte: the map `...`, and the one edit that blocks its first cell.
pub fn bytes_are_these()
    ensures ask { ask_bytes 2 ≡ 33 ∷ 0 ∷ 0 ∷ 0 ∷ 2 ∷ [] }
    ensures start { start_bytes (map_of 3 1 (Land ∷ Land ∷ Land ∷ []))
        ≡ 0 ∷ 0 ∷ 0 ∷ 12 ∷ 49 ∷ 0 ∷ 0 ∷ 0 ∷ 3 ∷ 0 ∷ 0 ∷ 0 ∷ 1 ∷ 1 ∷ 1 ∷ 1 ∷ [] }
    ensures edits { edits_bytes 0 (first_blocked ∷ [])
        ≡ 0 ∷ 0 ∷ 0 ∷ 15 ∷ 50 ∷ 0 ∷ 0 ∷ 0 ∷ 0 ∷ 0 ∷ 0 ∷ 0 ∷ 1 ∷ 1 ∷ 0 ∷ 0 ∷ 0 ∷ 0 ∷ 0 ∷ [] }
    ensures ahead { ahead_bytes 1 ≡ 0 ∷ 0 ∷ 0 ∷ 5 ∷ 51 ∷ 0 ∷ 0 ∷ 0 ∷ 1 ∷ [] }
    ensures no_memory { no_memory_bytes ≡ 0 ∷ 0 ∷ 0 ∷ 1 ∷ 52 ∷ [] }
{}
