//! The end of a book: all seats come together, and the state comes out.
ghost use Rattle.std.specs.Prelude.{◌≡◌, [], length};
ghost use Rattle.turn_book.specs.Books.{AreAllSeats};
ghost use Rattle.turn_book.specs.Gathered.{IsGathered};
ghost use Rattle.turn_book.specs.Histories.{NamesBelow};
ghost use Rattle.turn_book.specs.Turns.{IsSized};

use crate::book::{Book, Seat};
use crate::lock::{Lock, SLOT};
use crate::serial::Serial;
use crate::steps::TakeIn;

/// What has a seat in it, as a layer above keeps it.
pub trait Sits<S: Serial> {
    ghost use Rattle.std.specs.Prelude.{Option};
    ghost use Rattle.atomic_table.specs.declared.shared.Seat.{Seat};
    ghost use Rattle.turn_book.specs.declared.view.View.{View};

    // The seat.
    ghost seat: { Self → Seat (Option S) (View S.Entry S.Base) };

    /// The seat, with the rest let go.
    fn into_seat(self) -> Seat<S>
        ensures { result ≡ seat self };
}

impl<S: Serial> Sits<S> for Seat<S> {
    ghost seat = { λ seat. seat };

    fn into_seat(self) -> Seat<S> {
        self
    }
}

// The last seat, joined with all others.
fn gather<S: Serial, T: Sits<S>>(lock: &Lock<S>, seats: Vec<T>) -> Seat<S>
    requires lock { IsSized lock.now.table_id }
    requires seats { AreAllSeats lock.now.table_id T.seat seats.items }
    ensures { IsGathered S.names lock.now.table_id T.seat seats.items [] result }
{
    let mut rest = seats;
    let mut all = rest.pop().unwrap().into_seat();
    while let Some(next) = rest.pop() {
        lock.join_seat::<TakeIn>(&mut all, next.into_seat());
    }
    rest.destroy_empty();
    all
}

impl<S: Serial> Book<S> {
    ghost use Rattle.turn_book.specs.Books.{id_of, AreAllSeats, GoesOnFromEach, IsBaseOfLast};

    /// Ends the book and gives the state. These are all seats that it has, in the order of their numbers, each alone or
    /// in whatever keeps it.
    pub fn close<T: Sits<S>>(self, seats: Vec<T>) -> S
        requires seats { AreAllSeats (id_of self) T.seat seats.items }
        ensures list { GoesOnFromEach S.names T.seat seats.items (S.list result) }
        ensures named { NamesBelow S.names (length seats.items) (S.list result) }
        ensures base { IsBaseOfLast T.seat seats.items (S.base result) }
    {
        let Book { table } = self;
        let all = gather(&table.shared, seats);
        let mut closed = table.close_with(all);
        let state = closed.take(SLOT);
        closed.free();
        state.unwrap()
    }
}
