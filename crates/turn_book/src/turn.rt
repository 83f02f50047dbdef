//! A turn at the lock, with the state in hand.
ghost use Rattle.std.specs.Prelude.{◌≡◌, ◌+◌, ◌++◌, ◌∷◌, [], Some};
ghost use Rattle.std.specs.Borrow.{sem};
ghost use Rattle.turn_book.specs.Turns.{seen_of, number_of, looks_of, base_of, IsIdle, SameSeat, seat_left};

use crate::book::{Book, Seat};
use crate::lock::{COUNT, give_back, pass_on};
use crate::serial::Serial;
use crate::steps::Commit;

/// A turn, which ends by [`Turn::commit`] or [`Turn::end`].
pub struct Turn<'a, S: Serial> {
    pub(crate) book: &'a Book<S>,
    pub(crate) seat: &'a mut Seat<S>,
    pub(crate) state: S,
}

impl<'a, S: Serial> Turn<'a, S> {
    ghost use Rattle.turn_book.specs.Books.{seat_of, state_of, IsTurn};
    ghost use Rattle.turn_book.specs.Lends.{LendsState};

    /// The state.
    pub fn state(&self) -> &S
        ensures { result.now ≡ state_of self.now }
    {
        &self.state
    }

    /// The state, for writing.
    pub fn state_mut(&mut self) -> &mut S
        ensures* writes_back { sem 𝓛 (LendsState S.row S.Entry.row S.Base.row ⟦<S as Serial>⟧ self.entry result) }
        ensures value { result.now ≡ state_of self.old }
    {
        &mut self.state
    }

    /// Adds an entry to the history and ends the turn. The state stands for the list with the entry, which names the
    /// seat.
    pub fn commit(self, entry: S::Entry)
        requires turn { IsTurn self }
        requires own { S.names entry ≡ number_of (seat_of self) }
        requires list { S.list (state_of self) ≡ seen_of (seat_of self) ++ entry ∷ [] }
        requires base { base_of (seat_of self) ≡ Some (S.base (state_of self)) }
        ensures idle { IsIdle (seat_left self.exit) }
        ensures same { SameSeat (seat_of self.entry) (seat_left self.exit) }
        ensures seen { seen_of (seat_left self.exit) ≡ seen_of (seat_of self.entry) ++ entry ∷ [] }
        ensures looks { looks_of (seat_left self.exit) ≡ looks_of (seat_of self.entry) }
    {
        let Turn { book, seat, state } = self;
        let lock = &book.table.shared;
        give_back(lock, seat, state);
        lock.fetch_add::<Commit>(seat, COUNT, 1);
        pass_on(lock, seat);
        drop(entry);
    }

    /// Ends a turn that has added nothing.
    pub fn end(self)
        requires turn { IsTurn self }
        requires list { S.list (state_of self) ≡ seen_of (seat_of self) }
        requires base { base_of (seat_of self) ≡ Some (S.base (state_of self)) }
        ensures idle { IsIdle (seat_left self.exit) }
        ensures same { SameSeat (seat_of self.entry) (seat_left self.exit) }
        ensures seen { seen_of (seat_left self.exit) ≡ seen_of (seat_of self.entry) }
        ensures looks { looks_of (seat_left self.exit) ≡ looks_of (seat_of self.entry) }
    {
        let Turn { book, seat, state } = self;
        give_back(&book.table.shared, seat, state);
        pass_on(&book.table.shared, seat);
    }
}
