//! `talk MAP`: a session over the input, on a board that begins with a map.
ghost use Rattle.std.specs.Prelude.{◌≤◌, IfErr};
ghost use Rattle.path_core.specs.declared.TheConstants.{MAX_ENTRIES};
ghost use Rattle.session.specs.Conversations.{HasCause};
ghost use Rattle.path_commands.specs.Runs.{file_over};
ghost use Rattle.path_commands.specs.Talks.{HoldsSession, HoldsTalk, TalkEnds, input_over};
ghost use Rattle.path_commands.specs.Words.{AreWorkers};

use crate::database::first_board;
use crate::means::Means;
use crate::request::TalkAsked;
use crate::status::Status;
use crate::watch::Watch;
use build_pool::Gate;
use path_core::Board;
use session::{Ended, Lone, SessionFault, serve_link};
use std::sync::Wait;
use std::thread::Threads;
use wire::{Bell, Files, Link};

/// Holds a session over the input, on a board that begins with a map, and returns how it ended.
/// Nothing is read or sent if there is no such board.
pub fn talk<F: Files, L: Link, B: Bell, G: Watch, R: Threads + Wait + Sync>(
    means: &Means<R, B, G>,
    asked: TalkAsked<'_>,
    files: &mut F,
    input: &mut L,
) -> Status
    requires room { asked.room ≤ MAX_ENTRIES }
    requires workers { AreWorkers asked.build.workers }
    ensures { TalkEnds
        (file_over (F.at files.old) (F.at files.new) asked.entry.map.now)
        asked.entry.build.order asked.entry.room
        (input_over (L.at input.old) (L.at input.new)) result }
{
    match first_board(means, files, asked.map, asked.room, asked.build) {
        Ok(board) => hold(means, board, asked.build.workers, input),
        Err(status) => status,
    }
}

/// Holds a session over the input, as the only pass of a board, and returns how it ended.
pub fn hold<L: Link, B: Bell, G: Gate, R: Threads + Wait + Sync>(
    means: &Means<R, B, G>,
    board: Board,
    workers: u32,
    input: &mut L,
) -> Status
    requires { AreWorkers workers }
    ensures { HoldsSession board
        (input_over (L.at input.old) (L.at input.new)) result }
{
    match converse(means, board, workers, input) {
        Ok(_) => Status::Done,
        Err(fault) => Status::from(fault),
    }
}

/// Holds a session over the input, as the only pass of a board.
///
/// # Errors
///
/// The errors of `serve_link`.
fn converse<L: Link, B: Bell, G: Gate, R: Threads + Wait + Sync>(
    means: &Means<R, B, G>,
    board: Board,
    workers: u32,
    input: &mut L,
) -> Result<Ended, SessionFault>
    requires { AreWorkers workers }
    ensures talk { HoldsTalk board
        (input_over (L.at input.old) (L.at input.new)) result }
    ensures cause { IfErr result (HasCause (L.at input.old) (L.at input.new)) }
{
    let mut desk = Lone { board, pass: 0 };
    let ended = serve_link(means.rt, means.alloc, &mut desk, input, workers, means.gate);
    // From here on, the history is known to be legal.
    let _entries = desk.board.entries();
    ended
}
