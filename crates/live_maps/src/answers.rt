//! What is answered of paths on a live map.

use moves::Move;
use std::error::Error;
use std::fmt;
use versions::QueryRefusal;

/// What look-ups tell of a path on a live map.
#[derive(Clone, Copy, Debug, PartialEq, Eq)]
pub enum LivePath {
    /// The path that the database tells is free, so it is a best path now: so many moves.
    Free {
        /// How many moves it has.
        length: u32,
    },
    /// The path that the database tells is not free. Another may be.
    Stale {
        /// How many moves from its front on are free; the next one is not.
        length: u32,
    },
    /// No path exists, also where every cell is free.
    Unreachable,
}

/// Where a path goes on, as look-ups tell on a live map.
#[derive(Clone, Copy, Debug, PartialEq, Eq)]
pub enum LiveNext {
    /// The goal is reached.
    Arrived,
    /// No path leads to the goal, also where every cell is free.
    Unreachable,
    /// The move that the database tells, which is free.
    Go(Move),
    /// The move that the database tells, which is not free.
    Stale(Move),
}

/// Why no whole path is told.
#[derive(Clone, Copy, Debug, PartialEq, Eq)]
pub enum LiveFault {
    /// One of the two cells may not be asked for.
    Refused(QueryRefusal),
    /// The path is free, and the room has too few places.
    TooSmall {
        /// How many moves the path has.
        needed: u32,
    },
    /// The words are no version's image: the moves that they keep do not lead to the goal.
    Broken,
}

impl fmt::Display for LiveFault {
    ghost use Rattle.std.specs.Prelude.{Some};
    ghost use Rattle.live_maps.specs.Told.{live_fault_text};

    ghost output = { λ fault. Some (live_fault_text fault) };

    fn fmt<W: fmt::Write>(&self, f: &mut fmt::Formatter<W>) -> fmt::Result {
        match self {
            LiveFault::Refused(why) => write!(f, "{why}"),
            LiveFault::TooSmall { needed } => write!(f, "room for too few moves of {needed}"),
            LiveFault::Broken => write!(f, "broken image"),
        }
    }
}

impl Error for LiveFault {}

impl From<QueryRefusal> for LiveFault {
    ghost use Rattle.std.specs.Prelude.{◌≡◌};
    ghost use Rattle.live_maps.specs.declared.answers.LiveFault.TheVariants.{Refused};

    ghost from_gives = { λ refusal fault. fault ≡ Refused refusal };

    fn from(refusal: QueryRefusal) -> LiveFault {
        LiveFault::Refused(refusal)
    }
}
