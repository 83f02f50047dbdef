//! A board that is served at the doors of a house, with one builder.

ghost use Rattle.std.specs.Prelude.{◌≡◌, ◌≢◌, ◌<◌, ◌≤◌, ◌∷◌, [], false, IfErr, IfOk, IsTrue, OnOk, string_bytes};
ghost use Rattle.std.specs.Io.KnownBytes.{Appends};
ghost use Rattle.wire.specs.Causes.{Rose};
ghost use Rattle.wire.specs.Houses.{HasLentDoors, OnlyDoors};
ghost use Rattle.session.specs.declared.boards.TheConstants.{MAX_DOORS};
ghost use Rattle.path_commands.specs.declared.status.Status.{Status};
ghost use Rattle.path_commands.specs.Serving.{CanBeServed, FailsToBegin, Puts, PutsCause, PutsClosing, ServesAt, ServesBegun};
ghost use Rattle.path_commands.specs.Serving.{PutsLine, ServeEnds};
ghost use Rattle.path_commands.specs.Asks.{house_over};
ghost use Rattle.path_commands.specs.Serving.{closing_text, ear_over, history_text, serving_text};
ghost use Rattle.path_commands.specs.Words.{AreWorkers};

use crate::check::push_number;
use crate::means::Means;
use crate::status;
use crate::status::Status;
use build_pool::Gate;
use path_core::Board;
use session::serve_board;
use std::alloc::{AllocError, Global};
use std::fmt::Write;
use std::sync::Wait;
use std::thread::Threads;
use wire::{Bell, Door, DoorsAsked, Ear, House, Sink, put_all};

/// A board to serve, and the doors at which that is asked for.
#[derive(Drop)]
pub struct Opening {
    /// The board.
    pub board: Board,
    /// The doors that are asked for.
    pub doors: DoorsAsked,
    /// How many threads build the board's versions.
    pub workers: u32,
}

/// A board to serve, and the doors that a house gave for it.
#[derive(Drop)]
struct Opened<D: Door> {
    board: Board,
    doors: Vec<D>,
    workers: u32,
}

/// Serves a board at doors of the house, in parallel, and builds its versions at the same time. Prints a line before
/// the first knock, and lines on the board's history at the end. The doors are returned by then.
///
/// # Errors
///
/// - `ReadFault` if the house could not open the doors, or a knock at one failed.
/// - `WriteFault` if the output did not take all. Without the first line no door is served.
/// - `NoMemory` if memory ran out.
pub fn serve_on<H: House, O: Sink, B: Bell, E: Ear, G: Gate, R: Threads + Wait + Sync>(
    means: &Means<R, B, G>,
    opening: Opening,
    house: &mut H,
    out: &mut O,
    ear: &mut E,
) -> Status
    requires some { 0 < opening.doors.count }
    requires few { opening.doors.count ≤ MAX_DOORS }
    requires workers { AreWorkers opening.workers }
    requires unedited { opening.board.history ≡ [] }
    requires unasked { (H.at house.old).asked ≡ [] }
    requires unlent { HasLentDoors (H.at house.old).lent 0 }
    requires waiting { (E.at ear.old).over ≡ false }
    ensures ends { ServeEnds
        (house_over H.Door.at H.Conn.at (H.at house.old) (H.at house.new))
        (ear_over (E.at ear.old) (E.at ear.new)) opening.board opening.doors (O.bytes out.old)
        (O.bytes out.new) result }
    ensures fault { result ≡ Status.ReadFault →
        Rose (H.at house.old).door_faults (H.at house.new).door_faults }
    ensures write { result ≡ Status.WriteFault → Rose (O.faults out.old) (O.faults out.new) }
    ensures asked { (H.at house.new).asked ≡ opening.doors ∷ [] }
    ensures only { OnlyDoors (H.at house.old) (H.at house.new) }
{
    match house.doors(means.alloc, opening.doors.port, opening.doors.count) {
        Ok(doors) => {
            let opened = Opened {
                board: opening.board,
                doors,
                workers: opening.workers,
            };
            serve_at(means, opened, opening.doors.port, house, out, ear)
        }
        Err(error) => put_cause(means.alloc, out, Status::from(error)),
    }
}

/// Serves a board at doors that a house gave at that port, and hands them back.
fn serve_at<H: House, O: Sink, B: Bell, E: Ear, G: Gate, R: Threads + Wait + Sync>(
    means: &Means<R, B, G>,
    opened: Opened<H::Door>,
    port: u16,
    house: &mut H,
    out: &mut O,
    ear: &mut E,
) -> Status
    requires { CanBeServed H.Door.at opened.board opened.doors.items
        opened.workers (H.at house.old) (E.at ear.old) }
    ensures ends { ServesAt
        (house_over H.Door.at H.Conn.at (H.at house.old) (H.at house.new))
        (ear_over (E.at ear.old) (E.at ear.new)) opened.board opened.doors.items port
        (O.bytes out.old) (O.bytes out.new) result }
    ensures fault { result ≡ Status.ReadFault →
        Rose (H.at house.old).door_faults (H.at house.new).door_faults }
    ensures write { result ≡ Status.WriteFault → Rose (O.faults out.old) (O.faults out.new) }
    ensures asked { (H.at house.new).asked ≡ (H.at house.old).asked }
    ensures only { OnlyDoors (H.at house.old) (H.at house.new) }
{
    match begin(means.alloc, out, port) {
        Ok(()) => serve_begun(means, opened, house, out, ear),
        Err(ended) => {
            house.shut(opened.doors);
            ended
        }
    }
}

/// Serves the board once the first line has been printed.
fn serve_begun<H: House, O: Sink, B: Bell, E: Ear, G: Gate, R: Threads + Wait + Sync>(
    means: &Means<R, B, G>,
    opened: Opened<H::Door>,
    house: &mut H,
    out: &mut O,
    ear: &mut E,
) -> Status
    requires { CanBeServed H.Door.at opened.board opened.doors.items
        opened.workers (H.at house.old) (E.at ear.old) }
    ensures ends { ServesBegun
        (house_over H.Door.at H.Conn.at (H.at house.old) (H.at house.new))
        (ear_over (E.at ear.old) (E.at ear.new)) opened.board opened.doors.items
        (O.bytes out.old) (O.bytes out.new) result }
    ensures fault { result ≡ Status.ReadFault →
        Rose (H.at house.old).door_faults (H.at house.new).door_faults }
    ensures write { result ≡ Status.WriteFault → Rose (O.faults out.old) (O.faults out.new) }
    ensures asked { (H.at house.new).asked ≡ (H.at house.old).asked }
    ensures only { OnlyDoors (H.at house.old) (H.at house.new) }
{
    match serve_board(
        means.rt,
        means.alloc,
        opened.board,
        opened.doors,
        means.bell,
        ear,
        opened.workers,
        means.gate,
    ) {
        Ok(served) => {
            house.shut(served.doors);
            put_closing(means.alloc, out, &served.board, served.failed)
        }
        Err(refused) => {
            house.shut(refused.doors);
            put_no_memory(out)
        }
    }
}

/// Prints the first line.
///
/// # Errors
///
/// The status of the run without it: `WriteFault`, or `NoMemory`, whose line was printed.
fn begin<O: Sink>(alloc: Global, out: &mut O, port: u16) -> Result<(), Status>
    ensures first { OnOk result (Appends (O.bytes out.old) (O.bytes out.new) (serving_text port)) }
    ensures failed { IfErr result
        (FailsToBegin (O.bytes out.old) (O.bytes out.new) (serving_text port)) }
    ensures no_read { IfErr result (λ ended. ended ≢ Status.ReadFault) }
    ensures write { IfErr result (λ ended. ended ≡ Status.WriteFault →
        Rose (O.faults out.old) (O.faults out.new)) }
    ensures later { O.faults out.old ≤ O.faults out.new }
{
    let Ok(line) = serving_text(alloc, port) else {
        return Err(put_no_memory(out));
    };
    match put_all(out, line.as_bytes()) {
        Ok(()) => Ok(()),
        Err(_) => Err(Status::WriteFault),
    }
}

/// Prints the lines on a board's history, followed by that of a fault if a knock failed.
pub fn put_closing<O: Sink>(alloc: Global, out: &mut O, board: &Board, failed: bool) -> Status
    ensures put { PutsClosing (O.bytes out.old) (O.bytes out.new) board.now.history failed result }
    ensures fault { result ≡ Status.ReadFault → IsTrue failed }
    ensures write { result ≡ Status.WriteFault → Rose (O.faults out.old) (O.faults out.new) }
{
    let Ok(text) = closing_text(alloc, board, failed) else {
        return put_no_memory(out);
    };
    let status = if failed {
        Status::ReadFault
    } else {
        Status::Done
    };
    put(out, text.as_bytes(), status)
}

/// Prints the line of a status, or that of `NoMemory` if memory runs out.
pub fn put_cause<O: Sink>(alloc: Global, out: &mut O, status: Status) -> Status
    requires { status ≢ Status.WriteFault }
    ensures put { PutsCause (O.bytes out.old) (O.bytes out.new) status result }
    ensures fault { result ≡ Status.ReadFault → status ≡ Status.ReadFault }
    ensures write { result ≡ Status.WriteFault → Rose (O.faults out.old) (O.faults out.new) }
{
    match status::status_text(alloc, &status) {
        Ok(line) => put(out, line.as_bytes(), status),
        Err(_) => put_no_memory(out),
    }
}

/// Prints the line of `NoMemory`.
pub fn put_no_memory<O: Sink>(out: &mut O) -> Status
    ensures put { PutsLine (O.bytes out.old) (O.bytes out.new) Status.NoMemory result }
    ensures fault { result ≢ Status.ReadFault }
    ensures write { result ≡ Status.WriteFault → Rose (O.faults out.old) (O.faults out.new) }
    ensures later { O.faults out.old ≤ O.faults out.new }
{
    put(out, b"out of memory\n", Status::NoMemory)
}

/// Prints a text, and returns the given status if all of it was taken.
fn put<O: Sink>(out: &mut O, text: &[u8], status: Status) -> Status
    requires { status ≢ Status.WriteFault }
    ensures put { Puts (O.bytes out.old) (O.bytes out.new) text.now status result }
    ensures fault { result ≡ Status.ReadFault → status ≡ Status.ReadFault }
    ensures write { result ≡ Status.WriteFault → Rose (O.faults out.old) (O.faults out.new) }
    ensures later { O.faults out.old ≤ O.faults out.new }
{
    match put_all(out, text) {
        Ok(()) => status,
        Err(_) => Status::WriteFault,
    }
}

/// Returns the first line.
pub fn serving_text(alloc: Global, port: u16) -> Result<String, AllocError>
    ensures { IfOk result (λ text. string_bytes text ≡ serving_text port) }
{
    let mut text = String::new(alloc);
    write!(text, "serving {port}\n")?;
    Ok(text)
}

/// Returns the lines on a board's history, followed by that of a fault if a knock failed.
fn closing_text(alloc: Global, board: &Board, failed: bool) -> Result<String, AllocError>
    ensures { IfOk result (λ text. string_bytes text ≡ closing_text board.now.history failed) }
{
    let mut text = history_text(alloc, board)?;
    if failed {
        text.push_str("read fault\n")?;
    }
    Ok(text)
}

/// Writes the numbers of accepted edits and published versions, and the last version, a line each.
fn history_text(alloc: Global, board: &Board) -> Result<String, AllocError>
    ensures { IfOk result (λ text. string_bytes text ≡ history_text board.now.history) }
{
    let version = board.look().prefix;
    let mut text = String::new(alloc);
    push_number(&mut text, "accepted ", u64::from(board.accepted()))?;
    push_number(&mut text, "published ", u64::from(board.published()))?;
    push_number(&mut text, "version ", u64::from(version))?;
    Ok(text)
}
