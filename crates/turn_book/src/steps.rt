//! The rule of the lock, and the names of its atomic steps. `specs/Rule.antt` and `specs/Steps.antt` say what they are.
ghost use Rattle.turn_book.specs.Rule.{Kept, newcomer};
ghost use Rattle.turn_book.specs.Steps.{opened, founded, drew, served, committed, passed_on};
ghost use Rattle.turn_book.specs.Steps.{counted, learnt, same_view, note_of, hands_on, next_of, met, spent};
ghost use Rattle.turn_book.specs.declared.view.Phase.TheVariants.{Idle};

use crate::serial::Serial;
use crate::view::View;
use atomic_table::{Join, Play, Split, TableRule};

/// The order of a ticket lock.
pub struct Order;

impl<S: Serial> TableRule<Option<S>, View<S::Entry, S::Base>, ()> for Order {
    ghost holds = { λ _. Kept S.list S.base S.names };

    ghost first = { λ _. newcomer Idle };
}

// The first seat takes the empty slot.
pub struct Open;

impl<S: Serial> Play<Option<S>, View<S::Entry, S::Base>> for Open {
    ghost then = { opened };
}

// The first seat leaves the slot with a state.
pub struct Found;

impl<S: Serial> Play<Option<S>, View<S::Entry, S::Base>> for Found {
    ghost then = { founded S.base };
}

// A ticket is drawn.
pub struct Draw;

impl<S: Serial> Play<Option<S>, View<S::Entry, S::Base>> for Draw {
    ghost then = { drew };
}

// The number that is served is loaded.
pub struct Serve;

impl<S: Serial> Play<Option<S>, View<S::Entry, S::Base>> for Serve {
    ghost then = { served S.list S.base S.names };
}

// The history gets one entry.
pub struct Commit;

impl<S: Serial> Play<Option<S>, View<S::Entry, S::Base>> for Commit {
    ghost then = { committed S.list };
}

// The next ticket is served.
pub struct PassOn;

impl<S: Serial> Play<Option<S>, View<S::Entry, S::Base>> for PassOn {
    ghost then = { passed_on };
}

// The length of the history is loaded.
pub struct Count;

impl<S: Serial> Play<Option<S>, View<S::Entry, S::Base>> for Count {
    ghost then = { counted S.names };
}

// What a seat was joined to is told.
pub struct Learn;

impl<S: Serial> Play<Option<S>, View<S::Entry, S::Base>> for Learn {
    ghost then = { learnt S.names };
}

// A note is cut off a seat.
pub struct CutNote;

impl<E, B> Split<View<E, B>> for CutNote {
    ghost left = { same_view };

    ghost right = { note_of };
}

// The next seat is cut off the last one.
pub struct CutSeat;

impl<E, B> Split<View<E, B>> for CutSeat {
    ghost left = { hands_on };

    ghost right = { next_of };
}

// A note or another seat is taken in.
pub struct TakeIn;

impl<E, B> Join<View<E, B>> for TakeIn {
    ghost both = { met };

    ghost spent = { spent };
}
