//! A door in memory, with planned faults.
ghost use Rattle.std.specs.Prelude.{◌≡◌, ◌<◌, ◌≤◌, IfOk};
ghost use Rattle.wire.specs.Knocks.{IfConn};
ghost use Rattle.wire.specs.DoorInMemory.{Knocks, AreNewLinks, IsNewLink, door_told, with_done};

use crate::faults::{count_fault, is_planned};
use crate::{Door, Failed, Knock, MemLink};
use std::alloc::{AllocError, Global};
use std::collections::VecDeque;
use std::marker::Model;

/// A door in memory, for tests. It gives the connections that it was made with, keeps those that
/// are handed back, and is quiet or fails at the planned knocks.
#[derive(Drop)]
pub struct MemDoor {
    waiting: VecDeque<MemLink>,
    ended: Vec<MemLink>,
    lent: usize,
    quiet: Vec<u64>,
    fails: Vec<u64>,
    calls: u64,
    faults: u64,
    closed: bool,
    port: Option<u16>,
}

impl Model for MemDoor {
    ghost use Rattle.std.specs.Prelude.{◌+◌, ◌≤◌, vec_len, vec_capacity};
    ghost use Rattle.std.specs.VecDeque.{deque_len};
    ghost use Rattle.wire.specs.DoorInMemory.{DoorInMemory, AreNewLinks};

    ghost Value = { DoorInMemory };

    ghost view = { λ door. record {
      waiting = door.waiting.items;
      ended = door.ended.items;
      lent = door.lent;
      quiet = door.quiet.items;
      fails = door.fails.items;
      calls = door.calls;
      faults = door.faults;
      closed = door.closed;
      port = door.port;
    } };

    ghost invariant = { λ door. AreNewLinks door.waiting.items
        × (vec_len door.ended + door.lent + deque_len door.waiting ≤ vec_capacity door.ended) };
}

impl MemDoor {
    ghost use Rattle.wire.specs.DoorInMemory.{new_door, at_port};

    /// A door that gives these connections in order and then is closed. `fails` lists the numbers
    /// of the knocks that fail, and `quiet` those of the knocks that find nobody; the first knock
    /// is number 1.
    ///
    /// # Errors
    ///
    /// `AllocError` if memory runs out.
    pub fn new(
        alloc: Global,
        conns: Vec<MemLink>,
        quiet: Vec<u64>,
        fails: Vec<u64>,
    ) -> Result<MemDoor, AllocError>
        requires { AreNewLinks conns.items }
        ensures { IfOk result (λ door. door ≡ new_door conns.items quiet.items fails.items) }
    {
        Ok(MemDoor {
            ended: Vec::with_capacity(alloc, conns.len())?,
            waiting: VecDeque::from(conns),
            lent: 0,
            quiet,
            fails,
            calls: 0,
            faults: 0,
            closed: false,
            port: None,
        })
    }

    /// The connections that were handed back.
    pub fn ended(&self) -> &[MemLink]
        ensures { result.now ≡ self.now.ended }
    {
        &self.ended
    }

    /// Whether a knock has answered `Closed`.
    pub fn is_closed(&self) -> bool
        ensures { result ≡ self.now.closed }
    {
        self.closed
    }

    /// The port at which a house gave it, if one did.
    pub fn port(&self) -> Option<u16>
        ensures { result ≡ self.now.port }
    {
        self.port
    }

    /// How many knocks have failed.
    pub fn fault_count(&self) -> u64
        ensures { result ≡ self.now.faults }
    {
        self.faults
    }

    /// Sets the port at which a house gives it.
    pub(crate) fn open_at(&mut self, port: u16)
        ensures { self.new ≡ at_port self.old port }
    {
        self.port = Some(port);
    }
}

impl Door for MemDoor {
    type Conn = MemLink;

    ghost at = { door_told };

    fn knock(&mut self) -> Result<Knock<MemLink>, Failed>
        ensures answer { Knocks self.old self.new result }
        ensures made { IfConn result IsNewLink }
        ensures later { self.old.faults ≤ self.new.faults }
    {
        self.calls = self.calls.saturating_add(1);
        if is_planned(&self.fails, self.calls) {
            count_fault(&mut self.faults);
            return Err(Failed);
        }
        if is_planned(&self.quiet, self.calls) {
            return Ok(Knock::Quiet);
        }
        match self.waiting.pop_front() {
            Some(conn) => {
                self.lent += 1;
                Ok(Knock::Conn(conn))
            }
            None => {
                self.closed = true;
                Ok(Knock::Closed)
            }
        }
    }

    fn done(&mut self, conn: MemLink)
        requires { 0 < self.old.lent }
        ensures { self.new ≡ with_done self.old conn }
    {
        self.lent -= 1;
        self.ended.push(conn).unwrap();
    }
}
