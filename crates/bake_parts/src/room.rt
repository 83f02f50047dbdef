//! Words that are put into a room.

ghost use Rattle.std.specs.Prelude.{◌≡◌, ◌+◌, ◌<◌, ◌^◌, ◌∷◌, length};
ghost use Rattle.bake_parts.specs.Rooms.{GrowsFront};

/// Puts words into a room from a place on, if it has room for all of them. Says where they end, or would.
pub(crate) fn put(words: &[u32], room: &mut [u32], at: usize) -> usize
    requires { at + length words.now < 2 ^ 64 }
    ensures end { result ≡ at + length words.now }
    ensures front { GrowsFront at room.old room.new words.now }
{
    let end = at + words.len();
    if end <= room.len() {
        room[at..end].copy_from_slice(words);
    }
    end
}

/// Puts a row: how many runs it has, and these. Says where it ends.
pub(crate) fn put_counted(words: &[u32], room: &mut [u32], at: usize) -> usize
    requires few { length words.now < 2 ^ 31 }
    requires at { at < 2 ^ 62 }
    ensures end { result ≡ at + 1 + length words.now }
    ensures front { GrowsFront at room.old room.new (length words.now ∷ words.now) }
{
    let begin = put(&[words.len() as u32], room, at);
    put(words, room, begin)
}
