//! The open list: the cells that a search has reached but not yet settled, in two queues.

ghost use Rattle.std.specs.Prelude.{◌≡◌, ◌<◌, IfNone, IfOk, IfSome, length};
ghost use Rattle.grid_search.specs.Queues.{AreFound, IsFirstTaken, IsUsedUp, begun_with, empty_queues, push_to};

use crate::queue::{Queue, Waiting};
use moves::Cell;
use std::alloc::{AllocError, Global};
use std::marker::Model;

/// The cells that wait to be settled: one queue for those reached by a straight step, the other for
/// those reached by a diagonal one. As cells are settled by rising key, each queue is in order by
/// itself.
#[derive(Drop)]
pub struct OpenList {
    straight: Queue,
    diagonal: Queue,
}

impl Model for OpenList {
    ghost use Rattle.grid_search.specs.Queues.{Queues};

    ghost Value = { Queues };

    ghost view = { λ l. record { straight = l.straight; diagonal = l.diagonal } };
}

impl OpenList {
    /// Takes the memory for `reach` entries in each queue.
    pub fn new(alloc: Global, reach: usize) -> Result<OpenList, AllocError>
        ensures { IfOk result (λ list. list ≡ empty_queues reach) }
    {
        Ok(OpenList {
            straight: Queue::new(alloc, reach)?,
            diagonal: Queue::new(alloc, reach)?,
        })
    }

    /// Empties the queues, and adds the source with the key 0.
    pub fn begin(&mut self, source: Cell)
        requires { 0 < self.old.straight.room }
        ensures { self.new ≡ begun_with self.old source }
    {
        self.straight.clear();
        self.diagonal.clear();
        self.straight.push(Waiting {
            key: 0,
            cell: source,
        });
    }

    /// Adds a cell that a straight step reached.
    pub fn push_straight(&mut self, entry: Waiting)
        requires { length self.old.straight.pushed < self.old.straight.room }
        ensures straight { self.new.straight ≡ push_to self.old.straight entry }
        ensures diagonal { self.new.diagonal ≡ self.old.diagonal }
    {
        self.straight.push(entry);
    }

    /// Adds a cell that a diagonal step reached.
    pub fn push_diagonal(&mut self, entry: Waiting)
        requires { length self.old.diagonal.pushed < self.old.diagonal.room }
        ensures straight { self.new.straight ≡ self.old.straight }
        ensures diagonal { self.new.diagonal ≡ push_to self.old.diagonal entry }
    {
        self.diagonal.push(entry);
    }

    /// Takes the first entry of the queue whose first key is lower, or returns `None` if both
    /// queues are empty.
    pub fn take_first(&mut self) -> Option<Waiting>
        requires { AreFound self.old.diagonal.pushed }
        ensures some { IfSome result (λ entry. IsFirstTaken entry self.old self.new) }
        ensures none { IfNone result (IsUsedUp self.old × (self.new ≡ self.old)) }
    {
        if self.straight.first_key() <= self.diagonal.first_key() {
            self.straight.take()
        } else {
            self.diagonal.take()
        }
    }
}
