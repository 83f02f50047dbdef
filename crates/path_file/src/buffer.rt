//! Bytes that wait until there are enough to be put at once.

ghost use Rattle.std.specs.Prelude.{◌≡◌, ◌+◌, ◌<◌, ◌≤◌, ◌↔◌, [], ◌∷◌, ◌++◌, length, IsTrue};
ghost use Rattle.path_file.specs.Files.{number_bytes};

use std::marker::Model;

/// How many bytes are put at once, at most.
pub(crate) const BUFFER: usize = 4096;

/// The bytes that wait.
#[derive(Drop)]
pub(crate) struct Buffer {
    bytes: [u8; BUFFER],
    len: usize,
}

impl Model for Buffer {
    ghost use Rattle.std.specs.Prelude.{◌≤◌, ℕ, List, take};
    ghost use Rattle.path_file.specs.declared.buffer.TheConstants.{BUFFER};

    ghost Value = { List ℕ };

    ghost view = { λ b. take b.len b.bytes };

    ghost invariant = { λ b. b.len ≤ BUFFER };
}

impl Buffer {
    /// No bytes.
    pub(crate) fn new() -> Buffer
        ensures { result ≡ [] }
    {
        Buffer {
            bytes: [0; BUFFER],
            len: 0,
        }
    }

    /// Whether a number has room.
    #[inline(always)]
    pub(crate) fn has_room(&self) -> bool
        ensures { IsTrue result ↔ (length self.now + 4 ≤ BUFFER) }
    {
        self.len + 4 <= BUFFER
    }

    /// Adds a byte.
    #[inline(always)]
    pub(crate) fn push(&mut self, byte: u8)
        requires { length self.old < BUFFER }
        ensures { self.new ≡ self.old ++ byte ∷ [] }
    {
        self.bytes[self.len] = byte;
        self.len += 1;
    }

    /// Adds a number, in four bytes.
    #[inline(always)]
    #[tactic(auto, unfolding(crate::specs::Files::number_bytes))]
    pub(crate) fn push_number(&mut self, number: u32)
        requires { length self.old + 4 ≤ BUFFER }
        ensures { self.new ≡ self.old ++ number_bytes number }
    {
        let [first, second, third, fourth] = number.to_be_bytes();
        self.push(first);
        self.push(second);
        self.push(third);
        self.push(fourth);
    }

    /// The bytes.
    pub(crate) fn as_slice(&self) -> &[u8]
        ensures { result.now ≡ self.now }
    {
        &self.bytes[..self.len]
    }

    /// Forgets the bytes.
    pub(crate) fn clear(&mut self)
        ensures { self.new ≡ [] }
    {
        self.len = 0;
    }
}
