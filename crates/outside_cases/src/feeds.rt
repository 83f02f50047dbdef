//! A leader's feed over a link in memory, and a follower of the bytes of one.

ghost use Rattle.std.specs.Prelude.{◌≡◌, [], IfOk};
ghost use Rattle.moves.specs.Maps.{IsSearchable};
ghost use Rattle.path_board.specs.SharedBoards.{board_id, IsNewPass};

use crate::boards::{board_of, version_of};
use crate::links::link_in;
use crate::said::talk_said;
use crate::talks::request_in;
use case_kit::{Fields, Refusal};
use cell_order::OrderKind;
use edit_log::Edit;
use feed_node::{FeedEnded, FeedFault, feed_link};
use follow_node::{Follower, follow_link};
use moves::Grid;
use path_board::{Pass, SharedBoard};
use path_core::Board;
use query_proto::Request;
use std::alloc::{AllocError, Global};
use std::sync::Wait;
use std::thread::Threads;
use wire::MemLink;

/// `feed led | MAP | FRAME | LINK`: how a feed ends over the link of a leader that has accepted the edit of this frame;
/// what is left there then, and what was sent.
pub(crate) fn led<R: Threads + Wait + Sync>(
    rt: &R,
    alloc: Global,
    fields: &mut Fields<'_>,
) -> Result<String, Refusal> {
    let grid = fields.grid(alloc)?;
    let Request::Change(edit) = request_in(alloc, fields)? else {
        return Err(Refusal::OutOfForm);
    };
    let mut link = link_in(alloc, fields)?;
    let ended = lead(rt, alloc, grid, edit, &mut link)?;
    let ended = format!(in alloc; "{ended:?}")?;
    Ok(talk_said(alloc, ended.as_str(), &link)?)
}

/// How the feed of a leader ends that has accepted one edit.
fn lead<R: Threads + Wait + Sync>(
    rt: &R,
    alloc: Global,
    grid: Grid,
    edit: Edit,
    link: &mut MemLink,
) -> Result<Result<FeedEnded, FeedFault>, Refusal>
    requires { IsSearchable grid }
{
    let start = version_of(rt, alloc, grid.copy()?)?;
    let (board, mut pass) = share(alloc, board_of(rt, alloc, grid)?)?;
    match board.submit(rt, &mut pass, edit) {
        Ok(_) => Ok(feed_link(rt, alloc, &board, &mut pass, &start, link)),
        Err(_) => Err(Refusal::OutOfForm),
    }
}

/// A board that has one pass.
fn share(alloc: Global, board: Board) -> Result<(SharedBoard, Pass), AllocError>
    requires { board.history ≡ [] }
    ensures pass { IfOk result (λ shared. IsNewPass (board_id shared.0) board 1 0 shared.1) }
{
    match SharedBoard::share(alloc, board, 1) {
        Ok((board, mut passes)) => {
            let pass = passes.pop().unwrap();
            Ok((board, pass))
        }
        Err(_) => Err(AllocError),
    }
}

/// `feed followed | LINK`: how a follower ends that takes the map and one message over the link; what is left there
/// then, and what was sent; how many edits its board has accepted and how many its version comes after, if there is a
/// board; why it follows no further; and whether a message was begun.
pub(crate) fn followed(alloc: Global, fields: &mut Fields<'_>) -> Result<String, Refusal> {
    let mut link = link_in(alloc, fields)?;
    let mut follower = Follower::new(alloc, OrderKind::Rows);
    let ended = follow_link(&mut follower, &mut link, 1);
    let ended = format!(in alloc; "{ended:?}")?;
    let said = talk_said(alloc, ended.as_str(), &link)?;
    let board = follower
        .board()
        .map(|board| (board.accepted(), board.version().prefix()));
    let (fault, torn) = (follower.fault(), follower.torn());
    Ok(format!(in alloc; "{said}; board {board:?}, fault {fault:?}, torn {torn}")?)
}
