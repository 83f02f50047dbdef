//! Snapshots of what a seat has seen, for another seat, and looks without a turn.
ghost use Rattle.std.specs.Prelude.{◌≡◌, ◌+◌, length};
ghost use Rattle.turn_book.specs.Histories.{StartsWith};
ghost use Rattle.turn_book.specs.Turns.{GoesOn, book_of, seen_of, looks_of, IsIdle, SameSeat};

use crate::book::{Book, Seat};
use crate::lock::COUNT;
use crate::serial::Serial;
use crate::steps::{Count, CutNote, Learn, TakeIn};

/// What a seat had seen. Another seat has seen it too, once it met the note.
#[derive(Drop)]
pub struct Note<S: Serial> {
    pub(crate) seat: Seat<S>,
}

impl<S: Serial> Book<S> {
    ghost use Rattle.turn_book.specs.Books.{id_of, seen_by, IsNoteOf};

    /// The length of the history, by one load and with no turn.
    pub fn count(&self, seat: &mut Seat<S>) -> u64
        requires book { book_of seat.old ≡ id_of self.now }
        requires idle { IsIdle seat.old }
        ensures idle { IsIdle seat.new }
        ensures same { SameSeat seat.old seat.new }
        ensures list { GoesOn S.names seat.old (seen_of seat.new) }
        ensures count { result ≡ length (seen_of seat.new) }
        ensures looks { looks_of seat.new ≡ looks_of seat.old + 1 }
    {
        self.table.shared.load::<Count>(seat, COUNT)
    }

    /// A note of what the seat has seen.
    pub fn note(&self, seat: &mut Seat<S>) -> Note<S>
        requires book { book_of seat.old ≡ id_of self.now }
        requires idle { IsIdle seat.old }
        ensures seat { seat.new ≡ seat.old }
        ensures note { IsNoteOf (id_of self.now) result }
        ensures seen { seen_by result ≡ seen_of seat.old }
    {
        Note {
            seat: self.table.shared.split_seat::<CutNote>(seat),
        }
    }

    /// The seat has then seen what the note knows.
    pub fn meet(&self, seat: &mut Seat<S>, note: Note<S>)
        requires book { book_of seat.old ≡ id_of self.now }
        requires idle { IsIdle seat.old }
        requires note { IsNoteOf (id_of self.now) note }
        ensures idle { IsIdle seat.new }
        ensures same { SameSeat seat.old seat.new }
        ensures list { GoesOn S.names seat.old (seen_of seat.new) }
        ensures seen { StartsWith (seen_of seat.new) (seen_by note) }
        ensures looks { looks_of seat.new ≡ looks_of seat.old }
    {
        let Note { seat: other } = note;
        let lock = &self.table.shared;
        lock.join_seat::<TakeIn>(seat, other);
        lock.load::<Learn>(seat, COUNT);
    }
}
