//! The seats of a new book.
ghost use Rattle.std.specs.Prelude.{◌≡◌, ◌≢◌, ◌≤◌, [], Some, None, vec_capacity};
ghost use Rattle.turn_book.specs.Books.{AreNewSeats};
ghost use Rattle.turn_book.specs.Rule.{view_of};
ghost use Rattle.turn_book.specs.Turns.{IsSized, base_of};
ghost use Rattle.turn_book.specs.declared.view.Phase.TheVariants.{Idle};

use crate::book::{MAX_SEATS, Seat};
use crate::lock::Lock;
use crate::serial::Serial;
use crate::steps::CutSeat;

// Cuts the seats off the first one. The last of them knows how many there are.
pub fn seat_all<S: Serial>(
    lock: &Lock<S>,
    first: Seat<S>,
    seats: u32,
    room: Vec<Seat<S>>,
) -> Vec<Seat<S>>
    requires lock { IsSized lock.now.table_id × (first.table_id ≡ lock.now.table_id) }
    requires first { first.me ≡ (view_of (Some 0) Idle [] 0 (base_of first) (Some 1), []) }
    requires based { base_of first ≢ None }
    requires count { (1 ≤ seats) × (seats ≤ MAX_SEATS) }
    requires room { (room.items ≡ []) × (seats ≤ vec_capacity room) }
    ensures all { AreNewSeats lock.now.table_id (base_of first) seats result.items }
{
    let mut all = room;
    let mut last = first;
    for made in 1..seats {
        let next = lock.split_seat::<CutSeat>(&mut last);
        all.push_reserved(last);
        last = next;
    }
    all.push_reserved(last);
    all
}
