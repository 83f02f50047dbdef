//! `replay MAP EVENTS`: what a file of events prints, on a board that begins with a map.
ghost use Rattle.std.specs.Prelude.{◌≡◌, IfErr, IfOk};
ghost use Rattle.path_replay.specs.Events.{HavePasses};
ghost use Rattle.path_commands.specs.Queries.{TellsReplay};
ghost use Rattle.path_commands.specs.Runs.{HoldsEvents, IsEventsFileCause, file_over};

use crate::file::read_file;
use crate::status::Status;
use path_core::Board;
use path_replay::{Events, EventsError, MAX_EVENTS_BYTES, read_events, run_events};
use std::alloc::{AllocError, Global};
use std::sync::Arc;
use text_lines::Text;
use versions::Version;
use wire::Files;

/// Returns the events in the file of that name.
pub fn read_event_file<F: Files>(alloc: Global, files: &mut F, name: &str) -> Result<Events, Status>
    ensures events { IfOk result (λ events. HoldsEvents
        (file_over (F.at files.old) (F.at files.new) name.now) events) }
    ensures passes { IfOk result (λ events. HavePasses events) }
    ensures refused { IfErr result
        (IsEventsFileCause (file_over (F.at files.old) (F.at files.new) name.now)) }
{
    let bytes = read_file(alloc, files, name, MAX_EVENTS_BYTES)?;
    match read_events(alloc, bytes.as_slice()) {
        Ok(events) => Ok(events),
        Err(EventsError::Line(line)) => Err(Status::Events { line }),
        Err(EventsError::NoMemory) => Err(Status::NoMemory),
    }
}

/// Returns the lines that the events print on a board with no entries, whose first version this is.
pub fn answer_replay(alloc: Global, version: Version, events: &Events) -> Result<Text, AllocError>
    requires unedited { version.prefix ≡ 0 }
    requires passes { HavePasses events.now }
    ensures { IfOk result (TellsReplay version events.now) }
{
    let grid = version.grid().copy()?;
    let mut board = Board::start(alloc, grid, Arc::new(alloc, version)?)?;
    let kind = board.kind();
    run_events(alloc, &mut board, kind, events)
}
