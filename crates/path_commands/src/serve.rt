//! `serve MAP PORT DOORS`: sessions at the doors of a port, on a board that begins with a map.

ghost use Rattle.std.specs.Prelude.{◌≡◌, ◌≤◌, ◌⊎◌, [], false, IfErr, IfOk};
ghost use Rattle.wire.specs.Causes.{Rose};
ghost use Rattle.wire.specs.Houses.{HasLentDoors, OnlyDoors};
ghost use Rattle.path_commands.specs.declared.status.Status.{Status};
ghost use Rattle.path_core.specs.declared.TheConstants.{MAX_ENTRIES};
ghost use Rattle.path_commands.specs.Requests.{AreDoors};
ghost use Rattle.path_commands.specs.Runs.{IsMapFileCause, file_over};
ghost use Rattle.path_commands.specs.Asks.{house_over};
ghost use Rattle.path_commands.specs.Serving.{FailsToRead, Serves, ear_over};
ghost use Rattle.path_commands.specs.Talks.{IsFirstBoard};
ghost use Rattle.path_commands.specs.Words.{AreWorkers};

use crate::database::first_board;
use crate::means::Means;
use crate::request::ServeAsked;
use crate::serving::{Opening, put_cause, serve_on};
use crate::status::Status;
use crate::watch::Watch;
use std::sync::Wait;
use std::thread::Threads;
use wire::{Bell, Ear, Files, House, Sink};

/// Serves a board that begins with a map at the doors that are asked for. If there is no such board, prints the line of
/// the cause and does not use the house.
pub fn serve<F: Files, H: House, O: Sink, B: Bell, E: Ear, G: Watch, R: Threads + Wait + Sync>(
    means: &Means<R, B, G>,
    asked: ServeAsked<'_>,
    files: &mut F,
    house: &mut H,
    out: &mut O,
    ear: &mut E,
) -> Status
    requires room { asked.room ≤ MAX_ENTRIES }
    requires doors { AreDoors asked.doors.count }
    requires workers { AreWorkers asked.build.workers }
    requires unasked { (H.at house.old).asked ≡ [] }
    requires unlent { HasLentDoors (H.at house.old).lent 0 }
    requires waiting { (E.at ear.old).over ≡ false }
    ensures ends { Serves
        (file_over (F.at files.old) (F.at files.new) asked.entry.map.now)
        asked.entry.build.order asked.entry.room asked.entry.doors
        (house_over H.Door.at H.Conn.at (H.at house.old) (H.at house.new))
        (ear_over (E.at ear.old) (E.at ear.new)) (O.bytes out.old)
        (O.bytes out.new) result }
    ensures fault { result ≡ Status.ReadFault → FailsToRead
        (file_over (F.at files.old) (F.at files.new) asked.entry.map.now)
        (house_over H.Door.at H.Conn.at (H.at house.old) (H.at house.new)) }
    ensures write { result ≡ Status.WriteFault → Rose (O.faults out.old) (O.faults out.new) }
    ensures only { OnlyDoors (H.at house.old) (H.at house.new) }
{
    match open(means, asked, files) {
        Ok(opening) => serve_on(means, opening, house, out, ear),
        Err(status) => put_cause(means.alloc, out, status),
    }
}

/// Returns the board, and the doors at which it is to be served.
fn open<F: Files, B: Bell, G: Watch, R: Threads + Sync>(
    means: &Means<R, B, G>,
    asked: ServeAsked<'_>,
    files: &mut F,
) -> Result<Opening, Status>
    requires room { asked.room ≤ MAX_ENTRIES }
    requires workers { AreWorkers asked.build.workers }
    ensures board { IfOk result (λ opening. IsFirstBoard
        (file_over (F.at files.old) (F.at files.new) asked.entry.map.now)
        asked.entry.build.order asked.entry.room opening.board) }
    ensures workers { IfOk result (λ opening. opening.workers ≡ asked.entry.build.workers) }
    ensures doors { IfOk result (λ opening. opening.doors ≡ asked.entry.doors) }
    ensures unedited { IfOk result (λ opening. opening.board.history ≡ []) }
    ensures refused { IfErr result (IsMapFileCause
        (file_over (F.at files.old) (F.at files.new) asked.entry.map.now)) }
{
    Ok(Opening {
        board: first_board(means, files, asked.map, asked.room, asked.build)?,
        doors: asked.doors,
        workers: asked.build.workers,
    })
}
