//! Statuses in words.

ghost use Rattle.std.specs.Prelude.{◌≡◌, ◌-◌, ◌∷◌, ◌++◌, ◌<◌, [], length, take};
ghost use Rattle.path_image.specs.Answers.{overwritten};
ghost use Rattle.pathdb.specs.declared.TheConstants.{TEXT_ROOM};
ghost use Rattle.pathdb.specs.Statuses.{Means, NumbersAreApart, WritesMeaning};

use crate::Status;

/// Writes what the number of a status means, in words of ASCII and with a byte 0 at its end, as far as the room
/// reaches; [`TEXT_ROOM`](crate::TEXT_ROOM) bytes are enough for each. The answer is how long the text is, without that
/// byte.
#[unsafe(no_mangle)]
pub extern "C" fn pathdb_status_text(status: u32, room: &mut [u8]) -> usize
    ensures writes { WritesMeaning status room.old room.new result }
    ensures short { result < TEXT_ROOM }
{
    let text = text_of(status);
    put_text(text.as_bytes(), room);
    text.len()
}

/// What the number of a status means.
fn text_of(number: u32) -> &'static str
    ensures text { Means number result.now }
    ensures short { length result.now < TEXT_ROOM }
{
    match Status::of(number) {
        Some(status) => status.text(),
        None => "no status",
    }
}

/// Writes a text and a byte 0 behind it, as far as the room reaches.
fn put_text(text: &[u8], room: &mut [u8])
    ensures { room.new ≡ overwritten room.old (take (length room.old - 1) text.now ++ 0 ∷ []) }
{
    let Some(last) = room.len().checked_sub(1) else {
        return;
    };
    let count = text.len().min(last);
    room[..count].copy_from_slice(&text[..count]);
    room[count] = 0;
}

/// A law, stated in the contract: no two statuses have one number.
pub fn numbers_are_apart()
    ensures { NumbersAreApart }
{}
