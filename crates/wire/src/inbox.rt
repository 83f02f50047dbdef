//! Bytes that came in over a connection and have not been taken yet.
ghost use Rattle.std.specs.Prelude.{◌≡◌, ◌<◌, ◌++◌, [], length, min, take, drop, IfNone, IfOk, IfSome, IsTrue, OnErr, ◌↔◌};
ghost use Rattle.std.specs.Io.KnownBytes.{Consumes, IsAtEnd, Keeps};

use crate::Failed;
use crate::ticks::read_tick;
use std::io::Read;
use std::marker::Model;

/// The most bytes that one read takes in.
const INBOX_SIZE: usize = 1024;

/// Bytes that came in and have not been taken yet, in order. One read takes in all that is there.
#[derive(Drop)]
pub(crate) struct Inbox {
    room: [u8; INBOX_SIZE],
    from: usize,
    to: usize,
}

impl Model for Inbox {
    ghost use Rattle.std.specs.Prelude.{◌-◌, ◌≤◌, ℕ, List, take, drop};
    ghost use Rattle.wire.specs.declared.inbox.TheConstants.{INBOX_SIZE};

    ghost Value = { List ℕ };

    ghost view = { λ inbox. take (inbox.to - inbox.from) (drop inbox.from inbox.room) };

    ghost invariant = { λ inbox. (inbox.from ≤ inbox.to) × (inbox.to ≤ INBOX_SIZE) };
}

impl Inbox {
    /// No bytes.
    pub(crate) fn new() -> Inbox
        ensures { result ≡ [] }
    {
        Inbox {
            room: [0; INBOX_SIZE],
            from: 0,
            to: 0,
        }
    }

    /// Whether all bytes that came in have been taken.
    pub(crate) fn is_empty(&self) -> bool
        ensures { IsTrue result ↔ (self.now ≡ []) }
    {
        self.from == self.to
    }

    /// Moves the first bytes to the front of `room`, as many as fit, and says how many.
    pub(crate) fn take(&mut self, room: &mut [u8]) -> usize
        ensures count { result ≡ min (length room.old) (length self.old) }
        ensures room { room.new ≡ take result self.old ++ drop result room.old }
        ensures rest { self.new ≡ drop result self.old }
    {
        let left = &self.room[self.from..self.to];
        let count = room.len().min(left.len());
        room[..count].copy_from_slice(&left[..count]);
        self.from += count;
        count
    }

    /// Reads what is there. Returns `None` if nothing comes in while one read waits; at the end it holds no bytes.
    pub(crate) fn read<I: Read>(&mut self, reader: &mut I) -> Result<Option<()>, Failed>
        requires { self.old ≡ [] }
        ensures came { IfOk result (λ read. IfSome read (λ _.
            Consumes (I.remaining reader.old) (I.remaining reader.new) self.new)) }
        ensures end { IfOk result (λ read. IfSome read (λ _.
            self.new ≡ [] → IsAtEnd (I.remaining reader.new))) }
        ensures none { IfOk result (λ read. IfNone read (self.new ≡ [])) }
        ensures kept { IfOk result (λ read.
            IfNone read (Keeps (I.remaining reader.old) (I.remaining reader.new))) }
        ensures failed { OnErr result (self.new ≡ []) }
    {
        self.from = 0;
        self.to = 0;
        match read_tick(reader, self.room.as_mut_slice())? {
            Some(count) => {
                self.to = count;
                Ok(Some(()))
            }
            None => Ok(None),
        }
    }
}
