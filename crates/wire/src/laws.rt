//! Laws of the timeouts of the edge: no code runs.
ghost use Rattle.std.specs.Prelude.{◌≡◌};

use crate::{
    ANSWER_TIME, ASK_TIME, CLOSING_TIME, FRAME_TIME, IDLE_TIME, KNOCK_TIME, PARTING_TIME,
    QUIET_TIME, REPLY_TIME,
};

/// How many seconds a client may be silent between two frames, a follower may be silent between two asks, a frame may
/// take to become whole, a reply may take to be received, a session may stay open after the server was stopped, and a
/// caller waits for an answer; and how many milliseconds a knock waits, with an open connection and without one, and a
/// connection that ends waits.
pub fn waits_are_these()
    ensures idle { IDLE_TIME ≡ 300 }
    ensures ask { ASK_TIME ≡ 30 }
    ensures frame { FRAME_TIME ≡ 10 }
    ensures reply { REPLY_TIME ≡ 30 }
    ensures closing { CLOSING_TIME ≡ 10 }
    ensures answer { ANSWER_TIME ≡ 120 }
    ensures knock { KNOCK_TIME ≡ 50 }
    ensures quiet { QUIET_TIME ≡ 10_000 }
    ensures parting { PARTING_TIME ≡ 100 }
{}
