//! A link that never fails and keeps nothing of what is sent.
ghost use Rattle.std.specs.Prelude.{◌≡◌, ◌<◌, ◌++◌, Ok, min, length, take, drop, IfOk};
ghost use Rattle.wire.specs.LinkInMemory.{link_untold, with_read_of};

use crate::unread::Unread;
use crate::{Failed, Link};
use std::marker::Model;

/// A link that receives an input and drops what is sent. It tells the rest of its input but no
/// bytes sent, and never fails: both its fault counts are always 0.
#[derive(Drop)]
pub struct SteadyLink {
    input: Unread,
}

impl Model for SteadyLink {
    ghost use Rattle.wire.specs.LinkInMemory.{InputInMemory};

    ghost Value = { InputInMemory };

    ghost view = { λ link. link.input };
}

impl SteadyLink {
    ghost use Rattle.wire.specs.LinkInMemory.{new_input};

    /// A link that receives these bytes.
    pub fn new(input: Vec<u8>) -> SteadyLink
        ensures { result ≡ new_input input.items }
    {
        SteadyLink {
            input: Unread::new(input),
        }
    }

    /// The bytes that have not come in yet.
    pub fn left(&self) -> &[u8]
        ensures { result.now ≡ self.now.left }
    {
        self.input.left()
    }
}

impl Link for SteadyLink {
    ghost at = { link_untold };

    fn recv(&mut self, room: &mut [u8]) -> Result<usize, Failed>
        requires room { 0 < length room.old }
        ensures count { result ≡ Ok (min (length room.old) (length self.old.left)) }
        ensures room { IfOk result (λ count.
            room.new ≡ take count self.old.left ++ drop count room.old) }
        ensures taken { IfOk result (λ count. self.new ≡ with_read_of self.old count) }
    {
        Ok(self.input.read(room, usize::MAX))
    }

    fn send(&mut self, piece: &[u8]) -> Result<usize, Failed>
        ensures all { result ≡ Ok (length piece.now) }
        ensures kept { self.new ≡ self.old }
    {
        Ok(piece.len())
    }
}
