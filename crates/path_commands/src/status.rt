//! How the program ends.

ghost use Rattle.std.specs.Prelude.{◌≡◌, IfOk, string_bytes};
ghost use Rattle.path_commands.specs.Statuses.{status_code, status_text};

use crate::request::{Refusal, RequestError};
use map_read::MapFault;
use path_client::ClientFault;
use path_file::{DbError, DbFault};
use scen_read::ScenFault;
use session::SessionFault;
use std::alloc::{AllocError, Global};
use std::fmt;
use std::fmt::Write;
use versions::QueryRefusal;
use walk_rows::WalkError;
use wire::HouseError;

/// How a run ends.
#[derive(Clone, Copy, Debug, Drop, PartialEq, Eq)]
pub enum Status {
    /// The work was done.
    Done,
    /// No command takes the words.
    Usage,
    /// The file is not a map.
    Map(MapFault),
    /// The file is not a list of scenarios.
    Scen(ScenFault),
    /// The start or goal of the path is outside the map or blocked.
    Query(QueryRefusal),
    /// The file could not be read.
    ReadFault,
    /// The output did not take all of the text.
    WriteFault,
    /// There was not enough memory.
    NoMemory,
    /// The file has more bytes than it may have.
    TooLong {
        /// How many bytes it may have.
        limit: u32,
    },
    /// The input of a session ended inside a frame, or a frame was too long.
    Broken(SessionFault),
    /// The file is not a list of events.
    Events {
        /// The first line, from 1, that is neither blank nor an event.
        line: u32,
    },
    /// The server's answer is not valid or ended early.
    BadAnswer,
    /// The file is not a database.
    Db(DbFault),
    /// The leader ran out of memory.
    LeaderMemory,
}

impl Status {
    /// Returns the exit status of the process.
    pub fn code(&self) -> u8
        ensures { result ≡ status_code self.now }
    {
        match self {
            Status::Done => 0,
            Status::Usage => 1,
            Status::Map(_) => 2,
            Status::Scen(_) => 3,
            Status::Query(_) => 4,
            Status::ReadFault => 5,
            Status::WriteFault => 6,
            Status::NoMemory => 7,
            Status::TooLong { .. } => 8,
            Status::Broken(_) => 9,
            Status::BadAnswer => 10,
            Status::Events { .. } => 11,
            Status::Db(_) => 12,
            Status::LeaderMemory => 13,
        }
    }
}

impl From<AllocError> for Status {
    ghost use Rattle.std.specs.Prelude.{◌≡◌};
    ghost use Rattle.path_commands.specs.declared.status.Status.TheVariants.{NoMemory};

    ghost from_gives = { λ _ status. status ≡ NoMemory };

    fn from(_: AllocError) -> Status {
        Status::NoMemory
    }
}

impl From<QueryRefusal> for Status {
    ghost use Rattle.std.specs.Prelude.{◌≡◌};
    ghost use Rattle.path_commands.specs.declared.status.Status.TheVariants.{Query};

    ghost from_gives = { λ refusal status. status ≡ Query refusal };

    fn from(refusal: QueryRefusal) -> Status {
        Status::Query(refusal)
    }
}

impl From<WalkError> for Status {
    ghost use Rattle.std.specs.Prelude.{◌≡◌};
    ghost use Rattle.path_commands.specs.Statuses.{status_of_walk};

    ghost from_gives = { λ error status. status ≡ status_of_walk error };

    fn from(error: WalkError) -> Status {
        match error {
            WalkError::Refused(refusal) => Status::Query(refusal),
            WalkError::NoMemory => Status::NoMemory,
        }
    }
}

impl From<DbError> for Status {
    ghost use Rattle.std.specs.Prelude.{◌≡◌};
    ghost use Rattle.path_commands.specs.Statuses.{status_of_db};

    ghost from_gives = { λ error status. status ≡ status_of_db error };

    fn from(error: DbError) -> Status {
        match error {
            DbError::Fault(fault) => Status::Db(fault),
            DbError::NoMemory => Status::NoMemory,
        }
    }
}

impl From<RequestError> for Status {
    ghost use Rattle.std.specs.Prelude.{◌≡◌};
    ghost use Rattle.path_commands.specs.Statuses.{status_of};

    ghost from_gives = { λ error status. status ≡ status_of error };

    fn from(error: RequestError) -> Status {
        match error {
            RequestError::Usage => Status::Usage,
            RequestError::NoMemory => Status::NoMemory,
        }
    }
}

impl From<Refusal> for Status {
    ghost use Rattle.std.specs.Prelude.{◌≡◌};
    ghost use Rattle.path_commands.specs.Statuses.{status_of};

    ghost from_gives = { λ refusal status. status ≡ status_of refusal.error };

    fn from(refusal: Refusal) -> Status {
        Status::from(refusal.error)
    }
}

impl From<HouseError> for Status {
    ghost use Rattle.std.specs.Prelude.{◌≡◌};
    ghost use Rattle.path_commands.specs.Serving.{status_without_doors};

    ghost from_gives = { λ error status. status ≡ status_without_doors error };

    fn from(error: HouseError) -> Status {
        match error {
            HouseError::Failed => Status::ReadFault,
            HouseError::NoMemory => Status::NoMemory,
        }
    }
}

impl From<SessionFault> for Status {
    ghost use Rattle.std.specs.Prelude.{◌≡◌};
    ghost use Rattle.path_commands.specs.Statuses.{status_for};

    ghost from_gives = { λ fault status. status ≡ status_for fault };

    fn from(fault: SessionFault) -> Status {
        match fault {
            SessionFault::Torn { .. } | SessionFault::TooLong { .. } => Status::Broken(fault),
            SessionFault::ReadFault => Status::ReadFault,
            SessionFault::WriteFault => Status::WriteFault,
        }
    }
}

impl From<ClientFault> for Status {
    ghost use Rattle.std.specs.Prelude.{◌≡◌};
    ghost use Rattle.path_commands.specs.Statuses.{status_heard};

    ghost from_gives = { λ fault status. status ≡ status_heard fault };

    fn from(fault: ClientFault) -> Status {
        match fault {
            ClientFault::Malformed | ClientFault::Closed { .. } | ClientFault::OldServer { .. } =>
                Status::BadAnswer,
            ClientFault::ReadFault => Status::ReadFault,
            ClientFault::WriteFault => Status::WriteFault,
            ClientFault::NoMemory => Status::NoMemory,
        }
    }
}

/// Shows the line of the status, without its line feed; nothing if the work was done, the output
/// failed or a session broke off.
impl fmt::Display for Status {
    ghost use Rattle.std.specs.Prelude.{Some};
    ghost use Rattle.path_commands.specs.Statuses.{status_words};

    ghost output = { λ status. Some (status_words status) };

    fn fmt<W: fmt::Write>(&self, f: &mut fmt::Formatter<W>) -> fmt::Result {
        match self {
            Status::Done | Status::WriteFault | Status::Broken(_) => Ok(()),
            Status::Usage => write!(
                f,
                "usage: path check scen made replay talk serve ask export verify near nearpath lead follow"
            ),
            Status::Map(fault) => write!(f, "map refused: {fault}"),
            Status::Scen(fault) => write!(f, "scenario refused: {fault}"),
            Status::Query(refusal) => write!(f, "{refusal}"),
            Status::ReadFault => write!(f, "read fault"),
            Status::NoMemory => write!(f, "out of memory"),
            Status::TooLong { limit } => write!(f, "file too long: {limit}"),
            Status::Events { line } => write!(f, "events refused: line {line}"),
            Status::BadAnswer => write!(f, "bad answer"),
            Status::Db(fault) => write!(f, "database refused: {fault}"),
            Status::LeaderMemory => write!(f, "leader out of memory"),
        }
    }
}

/// Returns the line of a status.
pub fn status_text(alloc: Global, status: &Status) -> Result<String, AllocError>
    ensures { IfOk result (λ text. string_bytes text ≡ status_text status.now) }
{
    let mut text = String::new(alloc);
    write!(text, "{status}\n")?;
    Ok(text)
}
