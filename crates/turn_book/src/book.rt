//! The lock with its state, and the seats at it.
ghost use Rattle.std.specs.Prelude.{◌≡◌, ◌+◌, ◌≤◌, [], Some, IfOk, IfErr};
ghost use Rattle.turn_book.specs.Turns.{IsSized, GoesOn, book_of, seen_of, looks_of, base_of, IsIdle, SameSeat};

use crate::lock::{SLOTS, TICKET, WORDS, found, take, wait};
use crate::seats::seat_all;
use crate::serial::Serial;
use crate::steps::{Draw, Order};
use crate::turn::Turn;
use crate::view::View;
use atomic_table::Table;
use std::alloc::Global;
use std::sync::Wait;

/// The most seats that a book has.
pub const MAX_SEATS: u32 = 66;

/// A seat at a book, which a thread takes turns with. It has no bytes.
pub type Seat<S> = atomic_table::Seat<Option<S>, View<<S as Serial>::Entry, <S as Serial>::Base>>;

/// A state that threads share by turns.
#[derive(Drop)]
pub struct Book<S: Serial> {
    pub(crate) table: Table<
        Option<S>,
        View<<S as Serial>::Entry, <S as Serial>::Base>,
        (),
        Order,
        Global,
    >,
    ghost sized: { IsSized table.shared.table_id },
}

/// There was no memory. The state comes back.
#[derive(Drop)]
pub struct MakeRefused<S> {
    pub state: S,
}

impl<S: Serial> Book<S> {
    ghost use Rattle.turn_book.specs.Books.{id_of, seat_of, state_of, Borrows, IsTurn, AreNewSeats};

    /// A book with this state, and its seats in the order of their numbers, from 0 on.
    ///
    /// # Errors
    ///
    /// There was no memory. The state comes back.
    pub fn make(
        alloc: Global,
        state: S,
        seats: u32,
    ) -> Result<(Book<S>, Vec<Seat<S>>), MakeRefused<S>>
        requires some { 1 ≤ seats }
        requires few { seats ≤ MAX_SEATS }
        requires empty { S.list state ≡ [] }
        ensures ok { IfOk result (λ r. AreNewSeats (id_of r.0) (Some (S.base state)) seats r.1.items) }
        ensures err { IfErr result (λ refused. refused.state ≡ state) }
    {
        let Ok(room) = Vec::with_capacity(alloc, seats as usize) else {
            return Err(MakeRefused { state });
        };
        let made = Table::vacant(alloc, &[0; WORDS], SLOTS, &());
        let Ok((table, mut first)) = made else {
            return Err(MakeRefused { state });
        };
        found(&table.shared, &mut first, state);
        let all = seat_all(&table.shared, first, seats, room);
        Ok((Book { table }, all))
    }

    /// Waits for a turn. It may wait for ever, where another turn does not end.
    pub fn turn<'a, R: Wait>(&'a self, rt: &R, seat: &'a mut Seat<S>) -> Turn<'a, S>
        requires book { book_of seat.old ≡ id_of self.now }
        requires idle { IsIdle seat.old }
        ensures borrows { Borrows result self.now seat.entry }
        ensures turn { IsTurn result }
        ensures list { GoesOn S.names seat.old (S.list (state_of result)) }
        ensures seen { seen_of (seat_of result) ≡ S.list (state_of result) }
        ensures base { base_of seat.old ≡ Some (S.base (state_of result)) }
        ensures looks { looks_of (seat_of result) ≡ looks_of seat.old + 1 }
        ensures same { SameSeat seat.old (seat_of result) }
    {
        let lock = &self.table.shared;
        let ticket = lock.fetch_add::<Draw>(seat, TICKET, 1);
        wait(lock, rt, seat, ticket);
        let state = take(lock, seat);
        Turn {
            book: self,
            seat,
            state,
        }
    }
}
