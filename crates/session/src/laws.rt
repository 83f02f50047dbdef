//! Laws of the limits of sessions and served boards. No code runs.
ghost use Rattle.std.specs.Prelude.{◌≡◌, ◌+◌};
ghost use Rattle.session.specs.Conclusions.{OwnBuildsAreNotOvertaken};
ghost use Rattle.session.specs.Served.{OwnQueriesAreAnswered};

use crate::{MAX_DOORS, MAX_REQUESTS};
use turn_book::MAX_SEATS;

/// The most requests of a session and the most doors of a board. A board has a seat for the pass of each door, one for
/// the builder's, and one to spare.
pub fn limits_are_these()
    ensures requests { MAX_REQUESTS ≡ 1048576 }
    ensures doors { MAX_DOORS ≡ 64 }
    ensures seats { MAX_SEATS ≡ MAX_DOORS + 2 }
{}

/// On a board of its own, no query is answered with `NoMemory`.
pub fn own_queries_are_answered()
    ensures { OwnQueriesAreAnswered }
{}

/// On a board of its own, no build is answered with `Overtaken`.
pub fn own_builds_are_not_overtaken()
    ensures { OwnBuildsAreNotOvertaken }
{}
