//! Bytes in memory that are read from the front.
ghost use Rattle.std.specs.Prelude.{◌≡◌, ◌++◌, min, length, take, drop};
ghost use Rattle.wire.specs.LinkInMemory.{new_input, with_read_of};

use std::marker::Model;

/// Bytes in memory that are read from the front.
#[derive(Drop)]
pub(crate) struct Unread {
    bytes: Vec<u8>,
    taken: usize,
}

impl Model for Unread {
    ghost use Rattle.std.specs.Prelude.{◌≤◌, drop, vec_len};
    ghost use Rattle.wire.specs.LinkInMemory.{InputInMemory};

    ghost Value = { InputInMemory };

    ghost view = { λ input. record {
      whole = input.bytes.items;
      left = drop input.taken input.bytes.items;
    } };

    ghost invariant = { λ input. input.taken ≤ vec_len input.bytes };
}

impl Unread {
    /// Bytes of which none has been read yet.
    pub(crate) fn new(bytes: Vec<u8>) -> Unread
        ensures { result ≡ new_input bytes.items }
    {
        Unread { bytes, taken: 0 }
    }

    /// The bytes that are left.
    pub(crate) fn left(&self) -> &[u8]
        ensures { result.now ≡ self.now.left }
    {
        &self.bytes[self.taken..]
    }

    /// Reads the next bytes into the front of `room`, at most `most`, and says how many.
    pub(crate) fn read(&mut self, room: &mut [u8], most: usize) -> usize
        ensures count { result ≡ min (min (length room.old) (length self.old.left)) most }
        ensures room { room.new ≡ take result self.old.left ++ drop result room.old }
        ensures taken { self.new ≡ with_read_of self.old result }
    {
        let left = &self.bytes[self.taken..];
        let count = room.len().min(left.len()).min(most);
        room[..count].copy_from_slice(&left[..count]);
        self.taken += count;
        count
    }
}
