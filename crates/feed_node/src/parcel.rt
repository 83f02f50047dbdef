//! Bytes that wait until there are enough to be sent at once.

ghost use Rattle.std.specs.Prelude.{◌≡◌, ◌+◌, ◌*◌, ◌≤◌, ◌↔◌, [], ◌++◌, length, IsTrue};
ghost use Rattle.edit_log.specs.declared.TheConstants.{MAX_CHANGES};
ghost use Rattle.follow_proto.specs.Feeds.{edit_bytes};
ghost use Rattle.feed_node.specs.declared.parcel.TheConstants.{PARCEL};

use edit_log::CellChange;
use follow_proto::edit_bytes;
use std::marker::Model;

/// How many bytes are sent at once at most. A message of 1,024 edits of one change has fewer.
pub(crate) const PARCEL: usize = 16_384;

/// The bytes that wait.
#[derive(Drop)]
pub(crate) struct Parcel {
    bytes: [u8; PARCEL],
    have: usize,
}

impl Model for Parcel {
    ghost use Rattle.std.specs.Prelude.{◌≤◌, ℕ, List, take};
    ghost use Rattle.feed_node.specs.declared.parcel.TheConstants.{PARCEL};

    ghost Value = { List ℕ };

    ghost view = { λ parcel. take parcel.have parcel.bytes };

    ghost invariant = { λ parcel. parcel.have ≤ PARCEL };
}

impl Parcel {
    /// No bytes.
    pub(crate) fn new() -> Parcel
        ensures { result ≡ [] }
    {
        Parcel {
            bytes: [0; PARCEL],
            have: 0,
        }
    }

    /// Whether so many bytes more have room.
    pub(crate) fn has_room(&self, count: usize) -> bool
        requires { count ≤ PARCEL }
        ensures { IsTrue result ↔ (length self.now + count ≤ PARCEL) }
    {
        self.have + count <= PARCEL
    }

    /// Adds bytes.
    pub(crate) fn push(&mut self, bytes: &[u8])
        requires { length self.old + length bytes.now ≤ PARCEL }
        ensures { self.new ≡ self.old ++ bytes.now }
    {
        let end = self.have + bytes.len();
        self.bytes[self.have..end].copy_from_slice(bytes);
        self.have = end;
    }

    /// Adds an edit as a message has it.
    pub(crate) fn push_edit(&mut self, changes: &[CellChange])
        requires room { length self.old + (1 + 5 * length changes.now) ≤ PARCEL }
        requires few { length changes.now ≤ MAX_CHANGES }
        ensures { self.new ≡ self.old ++ edit_bytes changes.now }
    {
        self.have += edit_bytes(changes, &mut self.bytes[self.have..]);
    }

    /// The bytes.
    pub(crate) fn as_slice(&self) -> &[u8]
        ensures { result.now ≡ self.now }
    {
        &self.bytes[..self.have]
    }

    /// Forgets the bytes.
    pub(crate) fn clear(&mut self)
        ensures { self.new ≡ [] }
    {
        self.have = 0;
    }
}
