//! Why a text of events is refused.

use std::alloc::AllocError;
use std::error::Error;
use std::fmt;

/// Why events could not be read.
#[derive(Clone, Copy, Debug, PartialEq, Eq)]
pub enum EventsError {
    /// The first line, from 1, that is neither blank nor an event.
    Line(u32),
    /// Memory ran out.
    NoMemory,
}

impl fmt::Display for EventsError {
    ghost use Rattle.std.specs.Prelude.{Some};
    ghost use Rattle.path_replay.specs.Events.{error_text};

    ghost output = { λ error. Some (error_text error) };

    fn fmt<W: fmt::Write>(&self, f: &mut fmt::Formatter<W>) -> fmt::Result {
        match self {
            EventsError::Line(line) => write!(f, "line {line}"),
            EventsError::NoMemory => write!(f, "out of memory"),
        }
    }
}

impl Error for EventsError {}

impl From<AllocError> for EventsError {
    ghost use Rattle.std.specs.Prelude.{◌≡◌};
    ghost use Rattle.path_replay.specs.declared.error.EventsError.TheVariants.{NoMemory};

    ghost from_gives = { λ _ error. error ≡ NoMemory };

    fn from(_: AllocError) -> EventsError {
        EventsError::NoMemory
    }
}
