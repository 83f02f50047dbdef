//! A board that is served at its doors while a builder builds.

ghost use Rattle.std.specs.Prelude.{◌≡◌, ◌<◌, ◌≤◌, ◌+◌, [], false, true, All, IfErr, IfOk, OnErr, OnOk, length, vec_capacity};
ghost use Rattle.build_pool.specs.declared.TheConstants.{MAX_WORKERS};
ghost use Rattle.path_core.specs.Histories.{IsLegal};
ghost use Rattle.path_core.specs.Passes.{pass_of};
ghost use Rattle.path_board.specs.Foundations.{foundation_of};
ghost use Rattle.path_board.specs.Passes.{IsPassOf};
ghost use Rattle.path_board.specs.SharedBoards.{board_id};
ghost use Rattle.session.specs.declared.boards.TheConstants.{MAX_DOORS};
ghost use Rattle.session.specs.Seats.{place_of};
ghost use Rattle.session.specs.ServedBoards.{AreServed, AreServedBy, FailedSo, FitsBoard, IsBuiltBy, IsParted};
ghost use Rattle.session.specs.Trades.{FitsAt, IsHeldBy, feeds_at};

use crate::builder::BuildTotals;
use crate::crews::{Site, Worker, any_failed, dismiss, hire, seated, serve_beside};
use crate::means::Means;
use crate::trades::Trade;
use build_pool::Gate;
use path_board::{Pass, ShareRefused, SharedBoard};
use path_core::Board;
use std::alloc::Global;
use std::sync::Wait;
use std::thread::Threads;
use wire::{Bell, Door, Ear};

/// The most doors at which a board is served.
pub const MAX_DOORS: u32 = 64;

/// A board that was served, and what served it.
#[derive(Drop)]
pub struct Served<D: Door> {
    /// The board.
    pub board: Board,
    /// The doors in their order, each as its loop left it.
    pub doors: Vec<D>,
    /// How often the builder's builds were answered in each way.
    pub builds: BuildTotals,
    /// Whether a knock failed at some door.
    pub failed: bool,
}

/// Memory ran out. The doors are returned.
#[derive(Drop)]
pub struct ServeRefused<D: Door> {
    /// The doors, as they were.
    pub doors: Vec<D>,
}

/// What is returned before the board is closed.
#[derive(Drop)]
struct Parted<D: Door> {
    doors: Vec<D>,
    passes: Vec<Pass>,
    builds: BuildTotals,
    failed: bool,
}

/// Serves a board at its doors, in parallel, each by a pass of its own, and builds at each ring of the ear by one more
/// pass. It ends when the loops at all doors have ended: the bell is shut then, and the builder ends. Memory is taken
/// before the first knock, except for edits, builds and halts.
///
/// The contract does not say that the passes look at the current board and not at an older state of it: review and
/// cases show that. What each loop does at its pass is proved (`door_loop`, `build_loop`).
///
/// # Errors
///
/// Memory ran out. The doors are returned, nothing was heard at the ear, and the board is dropped.
pub fn serve_board<D: Door, B: Bell, E: Ear, R: Threads + Wait + Sync, G: Gate>(
    rt: &R,
    alloc: Global,
    board: Board,
    doors: Vec<D>,
    bell: &B,
    ear: &mut E,
    workers: u32,
    gate: &G,
) -> Result<Served<D>, ServeRefused<D>>
    requires worker { 0 < workers }
    requires workers { workers ≤ MAX_WORKERS }
    requires some { 0 < length doors.items }
    requires few { length doors.items ≤ MAX_DOORS }
    requires open { All (λ door. (D.at door).closed ≡ false) doors.items }
    requires none { board.history ≡ [] }
    requires waiting { (E.at ear.old).over ≡ false }
    ensures base { IfOk result (λ served. foundation_of served.board ≡ foundation_of board) }
    ensures legal { IfOk result (λ served. IsLegal served.board.start served.board.history) }
    ensures named { IfOk result (λ served. All (λ entry. pass_of entry < length doors.items + 1)
        served.board.history) }
    ensures served { IfOk result (λ served. AreServed D.at board
        doors.items served.doors.items served.board.history) }
    ensures built { IfOk result (λ served. IsBuiltBy board (length doors.items) served.builds
        (E.at ear.old).rung (E.at ear.new).rung served.board.history) }
    ensures failed { IfOk result (λ served. FailedSo D.at served.failed
        doors.items served.doors.items served.board.history) }
    ensures over { OnOk result ((E.at ear.new).over ≡ true) }
    ensures refused { IfErr result (λ refused. refused.doors.items ≡ doors.items) }
    ensures unheard { OnErr result (ear.new ≡ ear.old) }
{
    let means = Means::new(rt, alloc, workers, gate);
    serve_trades(&means, &Trade::Sessions, board, doors, bell, ear)
}

/// Serves a board in the same way, but by `trade` the talks at the door of one pass may be feeds, and there may be one
/// more door.
///
/// # Errors
///
/// The errors of `serve_board`.
pub fn serve_trades<D: Door, B: Bell, E: Ear, R: Threads + Wait + Sync, G: Gate>(
    means: &Means<'_, R, G>,
    trade: &Trade<'_>,
    board: Board,
    doors: Vec<D>,
    bell: &B,
    ear: &mut E,
) -> Result<Served<D>, ServeRefused<D>>
    requires fits { FitsBoard (FitsAt trade.now) board }
    requires some { 0 < length doors.items }
    requires few { length doors.items ≤ MAX_DOORS + 1 }
    requires open { All (λ door. (D.at door).closed ≡ false) doors.items }
    requires none { board.history ≡ [] }
    requires waiting { (E.at ear.old).over ≡ false }
    ensures base { IfOk result (λ served. foundation_of served.board ≡ foundation_of board) }
    ensures legal { IfOk result (λ served. IsLegal served.board.start served.board.history) }
    ensures named { IfOk result (λ served. All (λ entry. pass_of entry < length doors.items + 1)
        served.board.history) }
    ensures served { IfOk result (λ served. AreServedBy D.at
        (IsHeldBy trade.now) (feeds_at trade.now) board
        doors.items served.doors.items served.board.history) }
    ensures built { IfOk result (λ served. IsBuiltBy board (length doors.items) served.builds
        (E.at ear.old).rung (E.at ear.new).rung served.board.history) }
    ensures failed { IfOk result (λ served. FailedSo D.at served.failed
        doors.items served.doors.items served.board.history) }
    ensures over { OnOk result ((E.at ear.new).over ≡ true) }
    ensures refused { IfErr result (λ refused. refused.doors.items ≡ doors.items) }
    ensures unheard { OnErr result (ear.new ≡ ear.old) }
{
    // From here on, the first version is known to come after no edits.
    board.version();
    let Ok(room) = Vec::with_capacity(means.alloc, doors.len()) else {
        return Err(ServeRefused { doors });
    };
    let count = doors.len() as u32;
    let Ok((shared, passes)) = SharedBoard::share(means.alloc, board, count + 1) else {
        return Err(ServeRefused { doors });
    };
    let site = Site {
        board: &shared,
        bell,
        trade,
    };
    let parted = serve_shared(means, &site, ear, doors, passes, room);
    let board = shared.close(parted.passes);
    Ok(Served {
        board,
        doors: parted.doors,
        builds: parted.builds,
        failed: parted.failed,
    })
}

/// Serves a shared board by all of its passes, of which the last is the builder's.
fn serve_shared<'a, D: Door, B: Bell, E: Ear, R: Threads + Wait + Sync, G: Gate>(
    means: &Means<'_, R, G>,
    site: &Site<'a, '_, '_, B>,
    ear: &mut E,
    doors: Vec<D>,
    passes: Vec<Pass>,
    room: Vec<Worker<'a, D, B>>,
) -> Parted<D>
    requires fits { All (λ pass. FitsAt site.now.trade.now (place_of pass)) passes.items }
    requires open { All (λ door. (D.at door).closed ≡ false) doors.items }
    requires long { length passes.items ≡ length doors.items + 1 }
    requires of_board { All (IsPassOf (board_id site.now.board.now)) passes.items }
    requires none { room.items ≡ [] }
    requires room { length doors.items ≤ vec_capacity room }
    requires waiting { (E.at ear.old).over ≡ false }
    ensures parted { IsParted D.at
        (IsHeldBy site.now.trade.now)
        (feeds_at site.now.trade.now) doors.items passes.items result.doors.items result.passes.items
        result.builds result.failed (E.at ear.old).rung (E.at ear.new).rung }
    ensures over { (E.at ear.new).over ≡ true }
{
    let mut doors = doors;
    let mut passes = passes;
    let builder = seated(site, passes.pop().unwrap());
    let crew = hire(site, &mut doors, &mut passes, room);
    let (builder, crew, builds) = serve_beside(means, site.trade, site.bell, builder, ear, crew);
    let failed = any_failed(&crew);
    dismiss(crew, &mut doors, &mut passes);
    passes.push_reserved(builder.pass);
    Parted {
        doors,
        passes,
        builds,
        failed,
    }
}
