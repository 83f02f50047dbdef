//! Events of several passes at a board, as text and as they are run.

ghost use Rattle.std.specs.Prelude.{◌≤◌, IfOk};
ghost use Rattle.moves.specs.Maps.{IsSearchable};
ghost use Rattle.path_core.specs.declared.TheConstants.{MAX_ENTRIES};
ghost use Rattle.path_replay.specs.Events.{HavePasses};
ghost use Rattle.path_replay.specs.Replays.{MayBeReplayed};

use crate::case::{Case, version_of};
use crate::edits::push_changes;
use case_kit::{Refusal, escaped, unescaped};
use cell_order::OrderKind;
use moves::Grid;
use path_core::{Board, Entry, MAX_ENTRIES};
use path_replay::{Events, EventsError, MAX_EVENTS_BYTES, read_events, run_events};
use std::alloc::{AllocError, Global};
use std::fmt::Write;
use std::sync::Arc;
use std::thread::Threads;
use text_lines::Text;

/// The order of the versions here.
const KIND: OrderKind = OrderKind::Rows;

impl<R: Threads + Sync> Case<'_, R> {
    /// `events | TEXT`: how many events a text with escapes has, or the first line that is none.
    pub(crate) fn events_said(&mut self) -> Result<String, Refusal> {
        match events_in(self.alloc, self.fields.rest()) {
            Ok(events) => Ok(format!(in self.alloc; "{} events", events.len())?),
            Err(EventsError::Line(line)) => Ok(format!(in self.alloc; "refused at line {line}")?),
            Err(EventsError::NoMemory) => Err(Refusal::NoMemory),
        }
    }

    /// `replay | MAP | EVENTS`: what the events of a text with escapes print, with escapes.
    pub(crate) fn replay_said(&mut self) -> Result<String, Refusal> {
        let grid = self.fields.grid(self.alloc)?;
        let board = board_on(self.rt, self.alloc, grid, 0)?;
        let (_, text) = replayed(self.alloc, board, self.fields.rest())?;
        Ok(escaped(self.alloc, text.bytes())?)
    }

    /// `board | MAP | ROOM | EVENTS`: how a board stands that took memory for so many entries, after events were run on
    /// it.
    pub(crate) fn board_said(&mut self) -> Result<String, Refusal> {
        let grid = self.fields.grid(self.alloc)?;
        let room = self.fields.number()?.min(MAX_ENTRIES);
        let board = board_on(self.rt, self.alloc, grid, room)?;
        let (board, _) = replayed(self.alloc, board, self.fields.rest())?;
        Ok(board_shown(self.alloc, &board)?)
    }
}

/// The events of a text with escapes; one that is too long is refused at line 0.
fn events_in(alloc: Global, text: &str) -> Result<Events, EventsError>
    ensures { IfOk result HavePasses }
{
    let text = unescaped(alloc, text)?;
    if text.len() > MAX_EVENTS_BYTES {
        return Err(EventsError::Line(0));
    }
    read_events(alloc, &text)
}

/// A board on a map with room for so many entries.
pub(crate) fn board_on<R: Threads + Sync>(
    rt: &R,
    alloc: Global,
    grid: Grid,
    room: u32,
) -> Result<Board, AllocError>
    requires searchable { IsSearchable grid }
    requires room { room ≤ MAX_ENTRIES }
    ensures { IfOk result (λ board. MayBeReplayed board KIND) }
{
    let version = version_of(rt, alloc, grid.copy()?, 0, KIND)?;
    Board::start_with(alloc, grid, Arc::new(alloc, version)?, room)
}

/// The board after the events of a text with escapes, and what they print.
fn replayed(alloc: Global, board: Board, events: &str) -> Result<(Board, Text), Refusal>
    requires { MayBeReplayed board KIND }
{
    let mut board = board;
    match events_in(alloc, events) {
        Ok(events) => {
            let text = run_events(alloc, &mut board, KIND, &events)?;
            Ok((board, text))
        }
        Err(EventsError::Line(_)) => Err(Refusal::OutOfForm),
        Err(EventsError::NoMemory) => Err(Refusal::NoMemory),
    }
}

/// How a board stands: its room, how many edits are accepted and how many the published version comes after, whether it
/// halts, and its entries.
fn board_shown(alloc: Global, board: &Board) -> Result<String, AllocError> {
    let (room, accepted) = (board.room(), board.accepted());
    let prefix = board.copy_version()?.prefix();
    let not = if board.look().halting { "" } else { "not " };
    let mut text = String::new(alloc);
    write!(text, "room {room}, {accepted} accepted, version {prefix}, ")?;
    write!(text, "{not}halting:")?;
    push_entries(&mut text, board)?;
    Ok(text)
}

/// Adds the entries of a board, with a comma between any two.
fn push_entries(text: &mut String, board: &Board) -> Result<(), AllocError> {
    for place in 0..board.entries() {
        if place > 0 {
            text.push(',')?;
        }
        if let Some(entry) = board.entry(place) {
            push_entry(text, entry)?;
        }
    }
    Ok(())
}

/// Adds an entry: its pass and what that did.
fn push_entry(text: &mut String, entry: Entry) -> Result<(), AllocError> {
    match entry {
        Entry::Accept { pass, edit } => {
            write!(text, " {pass} edits")?;
            push_changes(text, edit.changes())
        }
        Entry::Publish { pass, prefix } => write!(text, " {pass} publishes {prefix}"),
        Entry::Halt { pass } => write!(text, " {pass} halts"),
    }
}
