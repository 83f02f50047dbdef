//! A queue in memory taken once. Used room becomes free again only when the whole queue is emptied.

ghost use Rattle.std.specs.Prelude.{◌≡◌, ℕ, ◌+◌, ◌<◌, ◌≤◌, [], IfOk, IfSome, IfNone, length};
ghost use Rattle.grid_search.specs.Queues.{FirstHasKey, HasNoneLeft, TakesFirst, empty_with, push_to};

use moves::Cell;
use root_cost::NO_KEY;
use std::alloc::{AllocError, Global};
use std::marker::Model;

/// A cell that waits to be settled, and the key that it was reached with.
#[derive(Clone, Copy)]
pub struct Waiting {
    /// The key of the path by which the cell was reached.
    pub key: u32,
    /// The cell that was reached.
    pub cell: Cell,
}

/// Cells that wait to be settled, first come, first served.
#[derive(Drop)]
pub struct Queue {
    waiting: Vec<Waiting>,
    taken: usize,
    end: usize,
}

impl Model for Queue {
    ghost use Rattle.std.specs.Prelude.{◌≤◌, take, vec_len};
    ghost use Rattle.grid_search.specs.Queues.{Pushes};

    ghost Value = { Pushes };

    ghost view = { λ q. record {
      room = vec_len q.waiting;
      pushed = take q.end q.waiting.items;
      taken = q.taken;
    } };

    ghost invariant = { λ q. (q.taken ≤ q.end) × (q.end ≤ vec_len q.waiting) };
}

impl Queue {
    /// Returns an empty queue with room for that many entries.
    pub fn new(alloc: Global, room: usize) -> Result<Queue, AllocError>
        ensures { IfOk result (λ queue. queue ≡ empty_with room) }
    {
        let filler = Waiting {
            key: NO_KEY,
            cell: Cell { x: 0, y: 0 },
        };
        Ok(Queue {
            waiting: vec![in alloc; filler; room]?,
            taken: 0,
            end: 0,
        })
    }

    /// Empties the queue.
    pub fn clear(&mut self)
        ensures { self.new ≡ empty_with self.old.room }
    {
        self.taken = 0;
        self.end = 0;
    }

    /// Adds an entry at the end.
    pub fn push(&mut self, entry: Waiting)
        requires { length self.old.pushed < self.old.room }
        ensures { self.new ≡ push_to self.old entry }
    {
        self.waiting[self.end] = entry;
        self.end += 1;
    }

    /// Returns the key of the first entry, or [`NO_KEY`] if none is left.
    pub fn first_key(&self) -> u32
        ensures first { FirstHasKey self.now result }
        ensures none { HasNoneLeft self.now → result ≡ NO_KEY }
    {
        if self.taken < self.end {
            self.waiting[self.taken].key
        } else {
            NO_KEY
        }
    }

    /// Takes the first entry, or returns `None` if none is left.
    pub fn take(&mut self) -> Option<Waiting>
        ensures some { IfSome result (λ entry. TakesFirst self.old entry self.new) }
        ensures none { IfNone result (HasNoneLeft self.old × (self.new ≡ self.old)) }
    {
        if self.taken == self.end {
            return None;
        }
        let entry = self.waiting[self.taken];
        self.taken += 1;
        Some(entry)
    }
}
