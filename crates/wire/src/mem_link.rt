//! A link in memory, with planned faults.
ghost use Rattle.std.specs.Prelude.{◌≡◌, ◌<◌, ◌≤◌, ◌++◌, ◌↔◌, [], length, take, drop, IfOk, OnErr, IsErr, IsTrue};
ghost use Rattle.wire.specs.SinkInMemory.{next_count, put_fails, with_piece, with_fault};
ghost use Rattle.wire.specs.LinkInMemory.{link_told, next_given, recv_fails, with_recv, with_read_fault, with_output};

use crate::faults::{count_fault, cut_at, is_planned};
use crate::unread::Unread;
use crate::{Failed, Link, MemSink, Sink};
use std::alloc::{AllocError, Global};
use std::marker::Model;

/// A link in memory, for tests. It allocates its room when it is made, tells its whole talk, and
/// fails at the planned calls and when no room is left for what is sent.
#[derive(Drop)]
pub struct MemLink {
    input: Unread,
    cuts: Vec<usize>,
    fails: Vec<u64>,
    calls: u64,
    faults: u64,
    output: MemSink,
}

impl Model for MemLink {
    ghost use Rattle.wire.specs.LinkInMemory.{LinkInMemory, CutsGiveSome};

    ghost Value = { LinkInMemory };

    ghost view = { λ link. record {
      input = link.input;
      cuts = link.cuts.items;
      fails = link.fails.items;
      calls = link.calls;
      faults = link.faults;
      output = link.output;
    } };

    ghost invariant = { λ link. CutsGiveSome link.cuts.items };
}

impl MemLink {
    ghost use Rattle.wire.specs.LinkInMemory.{CutsGiveSome, new_link};

    /// A link that receives `input` and has room to send `room` bytes. Each recv gives at most the
    /// number of bytes in `cuts`, the first recv the first number; recvs past the end of `cuts` are
    /// not cut. `recv_fails` and `send_fails` list the numbers of the recvs and of the sends that
    /// fail; the first of each is number 1.
    ///
    /// # Errors
    ///
    /// `AllocError` if memory runs out.
    pub fn new(
        alloc: Global,
        input: Vec<u8>,
        cuts: Vec<usize>,
        room: usize,
        recv_fails: Vec<u64>,
        send_fails: Vec<u64>,
    ) -> Result<MemLink, AllocError>
        requires { CutsGiveSome cuts.items }
        ensures { IfOk result (λ link.
            link ≡ new_link input.items cuts.items room recv_fails.items send_fails.items) }
    {
        Ok(MemLink {
            output: MemSink::new(alloc, room, send_fails)?,
            input: Unread::new(input),
            cuts,
            fails: recv_fails,
            calls: 0,
            faults: 0,
        })
    }

    /// The bytes that have not come in yet.
    pub fn left(&self) -> &[u8]
        ensures { result.now ≡ self.now.input.left }
    {
        self.input.left()
    }

    /// All bytes that were sent.
    pub fn sent(&self) -> &[u8]
        ensures { result.now ≡ self.now.output.held }
    {
        self.output.bytes()
    }

    /// How many recvs have failed.
    pub fn read_fault_count(&self) -> u64
        ensures { result ≡ self.now.faults }
    {
        self.faults
    }

    /// How many sends have failed.
    pub fn write_fault_count(&self) -> u64
        ensures { result ≡ self.now.output.faults }
    {
        self.output.fault_count()
    }
}

impl Link for MemLink {
    ghost at = { link_told };

    fn recv(&mut self, room: &mut [u8]) -> Result<usize, Failed>
        requires room { 0 < length room.old }
        ensures fails { IsErr result ↔ IsTrue (recv_fails self.old) }
        ensures count { IfOk result (λ count. count ≡ next_given self.old (length room.old)) }
        ensures room { IfOk result (λ count.
            room.new ≡ take count self.old.input.left ++ drop count room.old) }
        ensures end { IfOk result (λ count. (count ≡ 0) ↔ (self.old.input.left ≡ [])) }
        ensures taken { IfOk result (λ count. self.new ≡ with_recv self.old count) }
        ensures fault { OnErr result (self.new ≡ with_read_fault self.old) }
        ensures unfilled { OnErr result (room.new ≡ room.old) }
        ensures later { self.old.faults ≤ self.new.faults }
    {
        let most = cut_at(&self.cuts, self.calls);
        self.calls = self.calls.saturating_add(1);
        if is_planned(&self.fails, self.calls) {
            count_fault(&mut self.faults);
            return Err(Failed);
        }
        Ok(self.input.read(room, most))
    }

    fn send(&mut self, piece: &[u8]) -> Result<usize, Failed>
        ensures fails { IsErr result ↔ IsTrue (put_fails self.old.output piece.now) }
        ensures count { IfOk result (λ count. count ≡ next_count self.old.output piece.now) }
        ensures taken { IfOk result (λ count. self.new
            ≡ with_output self.old (with_piece self.old.output (take count piece.now))) }
        ensures fault { OnErr result
            (self.new ≡ with_output self.old (with_fault self.old.output)) }
        ensures later { self.old.output.faults ≤ self.new.output.faults }
    {
        self.output.put(piece)
    }
}
