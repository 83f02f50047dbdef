//! Passes: what each thread uses a shared board with.

ghost use Rattle.std.specs.Prelude.{◌≡◌, ◌≤◌, IsTrue, IsFalse};
ghost use Rattle.std.specs.Arc.{arc_value};
ghost use Rattle.turn_book.specs.Turns.{base_of, seen_of, number_of, IsIdle};
ghost use Rattle.path_board.specs.Holding.{foundation_or, IsHeld};

use crate::state::{BoardState, Copied};
use std::sync::Arc;
use turn_book::{Seat, Sits};
use versions::Version;

/// A pass of a shared board, which one thread has. It holds a version, for queries.
#[derive(Drop)]
pub struct Pass {
    pub(crate) seat: Seat<BoardState>,
    pub(crate) number: u32,
    pub(crate) held: Arc<Version>,
    pub(crate) count: u64,
    ghost idle: { IsIdle seat },
    ghost numbered: { number_of seat ≡ number },
    ghost holds: { IsHeld (foundation_or (base_of seat)) (seen_of seat) count (arc_value held) },
}

impl Sits<BoardState> for Pass {
    ghost seat = { λ pass. pass.seat };

    fn into_seat(self) -> Seat<BoardState> {
        self.seat
    }
}

impl Pass {
    ghost use Rattle.path_core.specs.Histories.{accepted_count};
    ghost use Rattle.path_board.specs.Passes.{held_of, Hands, HoldsVersion, IsUpToDate, KeepsOlder};

    /// The version that it holds: that of its last look which had it at hand, or the board's first one.
    pub fn held(&self) -> &Version
        ensures value { result.now ≡ held_of self.now }
        ensures version { HoldsVersion self.now }
        ensures accepted { (held_of self.now).prefix ≤ accepted_count (seen_of self.now.seat) }
    {
        self.held.grid();
        &self.held
    }

    /// The number that its entries have, from 0 to 65.
    pub fn number(&self) -> u32
        ensures { result ≡ self.now.number }
    {
        self.number
    }

    // Takes what it got of the published version, at so many entries, and gives whether that version is held then.
    pub(crate) fn hold(&mut self, count: u64, copied: Copied) -> bool
        requires { Hands self.old count copied }
        ensures seat { self.new.seat ≡ self.old.seat }
        ensures number { self.new.number ≡ self.old.number }
        ensures held { IsTrue result → IsUpToDate self.new }
        ensures older { IsFalse result → KeepsOlder self.old self.new }
    {
        match copied {
            Copied::Held => {
                self.held.grid();
                self.count = count;
                true
            }
            Copied::Copy(version) => {
                version.grid();
                self.held = version;
                self.count = count;
                true
            }
            Copied::Refused => false,
        }
    }
}
