//! `lead MAP PORT DOORS FEED`: sessions at the doors of a port, on a board that begins with a map, and feeds of its edits
//! at a door of another port.

ghost use Rattle.std.specs.Prelude.{◌≡◌, ◌≢◌, ◌≤◌, ◌<◌, ◌+◌, ◌++◌, ◌∷◌, [], false, true, IfErr, IfOk, IsErrOf, OnOk, length, string_bytes, vec_capacity};
ghost use Rattle.std.specs.Arc.{arc_value};
ghost use Rattle.std.specs.Io.KnownBytes.{Appends};
ghost use Rattle.wire.specs.Causes.{Rose};
ghost use Rattle.wire.specs.Houses.{HasLentDoors, OnlyDoors, rose_once, with_doors_back, with_doors_lent};
ghost use Rattle.path_core.specs.declared.TheConstants.{MAX_ENTRIES};
ghost use Rattle.path_commands.specs.declared.status.Status.{Status};
ghost use Rattle.path_commands.specs.Requests.{AreDoors};
ghost use Rattle.path_commands.specs.Runs.{IsMapFileCause, file_over};
ghost use Rattle.path_commands.specs.Asks.{house_over};
ghost use Rattle.path_commands.specs.Serving.{FailsToBegin, FailsToRead, ear_over};
ghost use Rattle.path_commands.specs.Talks.{IsFirstBoard};
ghost use Rattle.path_commands.specs.Words.{AreWorkers};
ghost use Rattle.node_commands.specs.Leadings.{AreBothOpened, CanBeLed, IsRefused, LeadEnds, Leads, LeadsAt, LeadsBegun};
ghost use Rattle.node_commands.specs.Leadings.{feed_asked, leading_text};

use build_pool::Gate;
use lead_node::lead_board;
use path_commands::serving::{put_cause, put_closing, put_no_memory, serving_text};
use path_commands::{LeadAsked, Means, Status, Watch, first_board};
use path_core::Board;
use std::alloc::{AllocError, Global};
use std::fmt::Write;
use std::sync::{Arc, Wait};
use std::thread::Threads;
use versions::Version;
use wire::{Bell, Door, DoorsAsked, Ear, Files, House, HouseError, Sink, put_all};

/// A board to lead, its first version, and the doors at which that is asked for.
#[derive(Drop)]
struct Leading {
    board: Board,
    start: Arc<Version>,
    doors: DoorsAsked,
    feed: u16,
    workers: u32,
}

/// The doors that a house gave for sessions, the one for the feed, and an empty list with memory for one.
#[derive(Drop)]
struct Opened<D: Door> {
    doors: Vec<D>,
    feed: D,
    spare: Vec<D>,
}

/// Serves the board that begins with the map in a file at doors of the house, and feeds its edits at one more door.
/// Prints two lines before the first knock, and lines on the board's history at the end. All doors are returned by
/// then. If there is no such board, prints the line of the cause and does not use the house.
///
/// # Errors
///
/// - `ReadFault` if the file could not be read, the house could not open the doors, or a knock at one failed.
/// - `WriteFault` if the output did not take all. Without the first lines no door is served.
/// - `Map` or `TooLong` if the file has no map.
/// - `NoMemory` if memory ran out.
pub fn lead<F: Files, H: House, O: Sink, B: Bell, E: Ear, G: Watch, R: Threads + Wait + Sync>(
    means: &Means<R, B, G>,
    asked: LeadAsked<'_>,
    files: &mut F,
    house: &mut H,
    out: &mut O,
    ear: &mut E,
) -> Status
    requires room { asked.room ≤ MAX_ENTRIES }
    requires doors { AreDoors asked.doors.count }
    requires feed { asked.feed ≢ asked.doors.port }
    requires workers { AreWorkers asked.build.workers }
    requires unasked { (H.at house.old).asked ≡ [] }
    requires unlent { HasLentDoors (H.at house.old).lent 0 }
    requires waiting { (E.at ear.old).over ≡ false }
    ensures ends { Leads asked.entry
        (file_over (F.at files.old) (F.at files.new) asked.entry.map.now)
        (house_over H.Door.at H.Conn.at (H.at house.old) (H.at house.new))
        (ear_over (E.at ear.old) (E.at ear.new)) (O.bytes out.old)
        (O.bytes out.new) result }
    ensures fault { result ≡ Status.ReadFault → FailsToRead
        (file_over (F.at files.old) (F.at files.new) asked.entry.map.now)
        (house_over H.Door.at H.Conn.at (H.at house.old) (H.at house.new)) }
    ensures write { result ≡ Status.WriteFault → Rose (O.faults out.old) (O.faults out.new) }
    ensures only { OnlyDoors (H.at house.old) (H.at house.new) }
{
    match leading_of(means, files, asked) {
        Ok(leading) => lead_on(means, leading, house, out, ear),
        Err(cause) => put_cause(means.alloc, out, cause),
    }
}

/// Returns the board that begins with the map in the file, and its first version.
///
/// # Errors
///
/// The reason why there is none.
fn leading_of<F: Files, B: Bell, G: Watch, R: Threads + Sync>(
    means: &Means<R, B, G>,
    files: &mut F,
    asked: LeadAsked<'_>,
) -> Result<Leading, Status>
    requires room { asked.room ≤ MAX_ENTRIES }
    requires workers { AreWorkers asked.build.workers }
    ensures board { IfOk result (λ leading. IsFirstBoard
        (file_over (F.at files.old) (F.at files.new) asked.entry.map.now)
        asked.entry.build.order asked.entry.room leading.board) }
    ensures start { IfOk result (λ leading. (arc_value leading.start).map ≡ leading.board.start) }
    ensures unedited { IfOk result (λ leading. leading.board.history ≡ []) }
    ensures doors { IfOk result (λ leading. leading.doors ≡ asked.entry.doors) }
    ensures feed { IfOk result (λ leading. leading.feed ≡ asked.entry.feed) }
    ensures workers { IfOk result (λ leading. leading.workers ≡ asked.entry.build.workers) }
    ensures refused { IfErr result (IsMapFileCause
        (file_over (F.at files.old) (F.at files.new) asked.entry.map.now)) }
{
    let board = first_board(means, files, asked.map, asked.room, asked.build)?;
    Ok(Leading {
        start: board.copy_version()?,
        board,
        doors: asked.doors,
        feed: asked.feed,
        workers: asked.build.workers,
    })
}

/// Leads a board at doors of the house.
fn lead_on<H: House, O: Sink, B: Bell, E: Ear, G: Gate, R: Threads + Wait + Sync>(
    means: &Means<R, B, G>,
    leading: Leading,
    house: &mut H,
    out: &mut O,
    ear: &mut E,
) -> Status
    requires start { (arc_value leading.start).map ≡ leading.board.start }
    requires unedited { leading.board.history ≡ [] }
    requires doors { AreDoors leading.doors.count }
    requires feed { leading.feed ≢ leading.doors.port }
    requires workers { AreWorkers leading.workers }
    requires unasked { (H.at house.old).asked ≡ [] }
    requires unlent { HasLentDoors (H.at house.old).lent 0 }
    requires waiting { (E.at ear.old).over ≡ false }
    ensures ends { LeadEnds
        (house_over H.Door.at H.Conn.at (H.at house.old) (H.at house.new))
        (ear_over (E.at ear.old) (E.at ear.new)) leading.board leading.doors leading.feed
        (O.bytes out.old) (O.bytes out.new) result }
    ensures fault { result ≡ Status.ReadFault →
        Rose (H.at house.old).door_faults (H.at house.new).door_faults }
    ensures write { result ≡ Status.WriteFault → Rose (O.faults out.old) (O.faults out.new) }
    ensures only { OnlyDoors (H.at house.old) (H.at house.new) }
{
    match open(means.alloc, leading.doors, leading.feed, house) {
        Ok(opened) => lead_at(means, leading, opened, house, out, ear),
        Err(error) => put_cause(means.alloc, out, Status::from(error)),
    }
}

/// Returns the doors and the one for the feed. If that one is refused, the doors are handed back.
///
/// # Errors
///
/// The errors of `House::doors`.
fn open<H: House>(
    alloc: Global,
    asked: DoorsAsked,
    feed: u16,
    house: &mut H,
) -> Result<Opened<H::Door>, HouseError>
    requires feed { feed ≢ asked.port }
    requires unasked { (H.at house.old).asked ≡ [] }
    requires unlent { HasLentDoors (H.at house.old).lent 0 }
    ensures opened { IfOk result (λ opened. AreBothOpened
        (house_over H.Door.at H.Conn.at (H.at house.old) (H.at house.new)) asked feed opened.doors.items opened.feed) }
    ensures spare { IfOk result (λ opened. opened.spare.items ≡ []) }
    ensures room { IfOk result (λ opened. 0 < vec_capacity opened.spare) }
    ensures given { OnOk result (H.at house.new ≡ with_doors_lent
        (with_doors_lent (H.at house.old) asked.port asked.count) feed 1) }
    ensures refused { IfErr result (λ _. IsRefused
        (house_over H.Door.at H.Conn.at (H.at house.old) (H.at house.new)) asked feed) }
    ensures cause { IsErrOf result HouseError.Failed
        → Rose (H.at house.old).door_faults (H.at house.new).door_faults }
    ensures only { OnlyDoors (H.at house.old) (H.at house.new) }
{
    let doors = house.doors(alloc, asked.port, asked.count)?;
    match house.doors(alloc, feed, 1) {
        Ok(mut spare) => {
            let Some(feed) = spare.pop() else {
                unreachable!()
            };
            Ok(Opened { doors, feed, spare })
        }
        Err(error) => {
            house.shut(doors);
            Err(error)
        }
    }
}

/// Leads a board at doors that a house gave, and hands them back.
fn lead_at<H: House, O: Sink, B: Bell, E: Ear, G: Gate, R: Threads + Wait + Sync>(
    means: &Means<R, B, G>,
    leading: Leading,
    opened: Opened<H::Door>,
    house: &mut H,
    out: &mut O,
    ear: &mut E,
) -> Status
    requires can { CanBeLed H.Door.at leading.board (arc_value leading.start).map
        opened.doors.items opened.feed leading.workers (H.at house.old) (E.at ear.old) }
    requires spare { opened.spare.items ≡ [] }
    requires room { 0 < vec_capacity opened.spare }
    ensures ends { LeadsAt
        (house_over H.Door.at H.Conn.at (H.at house.old) (H.at house.new))
        (ear_over (E.at ear.old) (E.at ear.new)) leading.board opened.doors.items opened.feed
        leading.doors.port leading.feed (O.bytes out.old) (O.bytes out.new) result }
    ensures fault { result ≡ Status.ReadFault →
        Rose (H.at house.old).door_faults (H.at house.new).door_faults }
    ensures write { result ≡ Status.WriteFault → Rose (O.faults out.old) (O.faults out.new) }
    ensures asked { (H.at house.new).asked ≡ (H.at house.old).asked }
    ensures only { OnlyDoors (H.at house.old) (H.at house.new) }
{
    match begin(means.alloc, out, leading.doors.port, leading.feed) {
        Ok(()) => lead_begun(means, leading, opened, house, out, ear),
        Err(ended) => {
            hand_back(house, opened);
            ended
        }
    }
}

/// Leads the board once the first lines have been printed.
fn lead_begun<H: House, O: Sink, B: Bell, E: Ear, G: Gate, R: Threads + Wait + Sync>(
    means: &Means<R, B, G>,
    leading: Leading,
    opened: Opened<H::Door>,
    house: &mut H,
    out: &mut O,
    ear: &mut E,
) -> Status
    requires can { CanBeLed H.Door.at leading.board (arc_value leading.start).map
        opened.doors.items opened.feed leading.workers (H.at house.old) (E.at ear.old) }
    requires spare { opened.spare.items ≡ [] }
    requires room { 0 < vec_capacity opened.spare }
    ensures ends { LeadsBegun
        (house_over H.Door.at H.Conn.at (H.at house.old) (H.at house.new))
        (ear_over (E.at ear.old) (E.at ear.new)) leading.board opened.doors.items opened.feed
        (O.bytes out.old) (O.bytes out.new) result }
    ensures fault { result ≡ Status.ReadFault →
        Rose (H.at house.old).door_faults (H.at house.new).door_faults }
    ensures write { result ≡ Status.WriteFault → Rose (O.faults out.old) (O.faults out.new) }
    ensures asked { (H.at house.new).asked ≡ (H.at house.old).asked }
    ensures only { OnlyDoors (H.at house.old) (H.at house.new) }
{
    let Opened { doors, feed, spare } = opened;
    match lead_board(
        means.rt,
        means.alloc,
        leading.board,
        &leading.start,
        doors,
        feed,
        means.bell,
        ear,
        leading.workers,
        means.gate,
    ) {
        Ok(led) => {
            hand_back(
                house,
                Opened {
                    doors: led.doors,
                    feed: led.feed,
                    spare,
                },
            );
            put_closing(means.alloc, out, &led.board, led.failed)
        }
        Err(refused) => {
            hand_back(
                house,
                Opened {
                    doors: refused.doors,
                    feed: refused.feed,
                    spare,
                },
            );
            put_no_memory(out)
        }
    }
}

/// Hands the doors back, then that of the feed.
fn hand_back<H: House>(house: &mut H, opened: Opened<H::Door>)
    requires lent { HasLentDoors (H.at house.old).lent (length opened.doors.items + 1) }
    requires spare { opened.spare.items ≡ [] }
    requires room { 0 < vec_capacity opened.spare }
    ensures back { (H.at house.new).lent
        ≡ with_doors_back (H.at house.old).lent (opened.doors.items ++ opened.feed ∷ []) }
    ensures rose { rose_once (λ door. (H.Door.at door).faults) (opened.doors.items ++ opened.feed ∷ []) ≡ true
        → Rose (H.at house.old).door_faults (H.at house.new).door_faults }
    ensures asked { (H.at house.new).asked ≡ (H.at house.old).asked }
    ensures only { OnlyDoors (H.at house.old) (H.at house.new) }
{
    let Opened {
        doors,
        feed,
        mut spare,
    } = opened;
    spare.push_reserved(feed);
    house.shut(doors);
    house.shut(spare);
}

/// Prints the first lines.
///
/// # Errors
///
/// The status of the run without them: `WriteFault`, or `NoMemory`, whose line was printed.
fn begin<O: Sink>(alloc: Global, out: &mut O, port: u16, feed: u16) -> Result<(), Status>
    ensures first { OnOk result
        (Appends (O.bytes out.old) (O.bytes out.new) (leading_text port feed)) }
    ensures failed { IfErr result
        (FailsToBegin (O.bytes out.old) (O.bytes out.new) (leading_text port feed)) }
    ensures no_read { IfErr result (λ ended. ended ≢ Status.ReadFault) }
    ensures write { IfErr result (λ ended. ended ≡ Status.WriteFault →
        Rose (O.faults out.old) (O.faults out.new)) }
    ensures later { O.faults out.old ≤ O.faults out.new }
{
    let Ok(lines) = leading_text(alloc, port, feed) else {
        return Err(put_no_memory(out));
    };
    match put_all(out, lines.as_bytes()) {
        Ok(()) => Ok(()),
        Err(_) => Err(Status::WriteFault),
    }
}

/// Returns the first lines.
fn leading_text(alloc: Global, port: u16, feed: u16) -> Result<String, AllocError>
    ensures { IfOk result (λ text. string_bytes text ≡ leading_text port feed) }
{
    let mut text = serving_text(alloc, port)?;
    write!(text, "feeding {feed}\n")?;
    Ok(text)
}
