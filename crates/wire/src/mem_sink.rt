//! A sink in memory, with planned faults.
ghost use Rattle.std.specs.Prelude.{◌≡◌, ◌≤◌, [], take, IfOk, OnErr, IsErr, IsTrue, ◌↔◌};

use crate::faults::{count_fault, cut_at, is_planned};
use crate::{Failed, Sink};
use std::alloc::{AllocError, Global};
use std::marker::Model;

/// A sink in memory, for tests. It allocates its room when it is made, tells its bytes, and fails
/// at the planned puts and when no room is left.
#[derive(Drop)]
pub struct MemSink {
    bytes: Vec<u8>,
    room: usize,
    cuts: Vec<usize>,
    fails: Vec<u64>,
    calls: u64,
    faults: u64,
}

impl Model for MemSink {
    ghost use Rattle.std.specs.Prelude.{◌≤◌, vec_len, vec_capacity};
    ghost use Rattle.wire.specs.SinkInMemory.{SinkInMemory};

    ghost Value = { SinkInMemory };

    ghost view = { λ sink. record {
      held = sink.bytes.items;
      room = sink.room;
      cuts = sink.cuts.items;
      fails = sink.fails.items;
      calls = sink.calls;
      faults = sink.faults;
    } };

    ghost invariant = { λ sink.
        (vec_len sink.bytes ≤ sink.room) × (sink.room ≤ vec_capacity sink.bytes) };
}

impl MemSink {
    ghost use Rattle.wire.specs.SinkInMemory.{new_sink};

    /// A sink with room for `room` bytes. `fails` lists the numbers of the puts that fail; the
    /// first put is number 1.
    ///
    /// # Errors
    ///
    /// `AllocError` if memory runs out.
    pub fn new(alloc: Global, room: usize, fails: Vec<u64>) -> Result<MemSink, AllocError>
        ensures { IfOk result (λ sink. sink ≡ new_sink room [] fails.items) }
    {
        MemSink::cut(alloc, room, Vec::new(alloc), fails)
    }

    /// The same with cuts: each put takes at most the number of bytes in `cuts`, the first put the
    /// first number; puts past the end of `cuts` are not cut.
    ///
    /// # Errors
    ///
    /// `AllocError` if memory runs out.
    pub fn cut(
        alloc: Global,
        room: usize,
        cuts: Vec<usize>,
        fails: Vec<u64>,
    ) -> Result<MemSink, AllocError>
        ensures { IfOk result (λ sink. sink ≡ new_sink room cuts.items fails.items) }
    {
        Ok(MemSink {
            bytes: Vec::with_capacity(alloc, room)?,
            room,
            cuts,
            fails,
            calls: 0,
            faults: 0,
        })
    }

    /// All bytes that it was given.
    pub fn bytes(&self) -> &[u8]
        ensures { result.now ≡ self.now.held }
    {
        &self.bytes
    }

    /// How many puts have failed.
    pub fn fault_count(&self) -> u64
        ensures { result ≡ self.now.faults }
    {
        self.faults
    }
}

impl Sink for MemSink {
    ghost use Rattle.std.specs.Prelude.{Some};
    ghost use Rattle.wire.specs.SinkInMemory.{next_count, put_fails, with_piece, with_fault};

    ghost bytes = { λ sink. Some sink.held };

    ghost faults = { λ sink. sink.faults };

    fn put(&mut self, piece: &[u8]) -> Result<usize, Failed>
        ensures fails { IsErr result ↔ IsTrue (put_fails self.old piece.now) }
        ensures count { IfOk result (λ count. count ≡ next_count self.old piece.now) }
        ensures taken { IfOk result (λ count.
            self.new ≡ with_piece self.old (take count piece.now)) }
        ensures fault { OnErr result (self.new ≡ with_fault self.old) }
        ensures later { self.old.faults ≤ self.new.faults }
    {
        let most = cut_at(&self.cuts, self.calls);
        let count = piece.len().min(self.room - self.bytes.len()).min(most);
        self.calls = self.calls.saturating_add(1);
        if is_planned(&self.fails, self.calls) || (count == 0 && !piece.is_empty()) {
            count_fault(&mut self.faults);
            return Err(Failed);
        }
        self.bytes.extend_from_slice(&piece[..count]).unwrap();
        Ok(count)
    }
}
