//! A board that is served at its doors and fed at one door more, with a builder beside them.

ghost use Rattle.std.specs.Prelude.{◌≡◌, ◌≢◌, ◌<◌, ◌≤◌, ◌+◌, ◌++◌, ◌∷◌, [], false, true, All, IfErr, IfOk, OnErr, OnOk, length};
ghost use Rattle.build_pool.specs.declared.TheConstants.{MAX_WORKERS};
ghost use Rattle.path_core.specs.Histories.{IsLegal};
ghost use Rattle.path_core.specs.Passes.{pass_of};
ghost use Rattle.path_board.specs.Foundations.{foundation_of};
ghost use Rattle.session.specs.declared.boards.TheConstants.{MAX_DOORS};
ghost use Rattle.session.specs.ServedBoards.{AreServed, FailedSo, IsBuiltBy};
ghost use Rattle.lead_node.specs.Leading.{IsFed};

use build_pool::Gate;
use path_core::Board;
use session::{BuildTotals, Means, ServeRefused, Served, Trade, serve_trades};
use std::alloc::Global;
use std::sync::Wait;
use std::thread::Threads;
use versions::Version;
use wire::{Bell, Door, Ear};

/// A board that was led, and what served and fed it.
#[derive(Drop)]
pub struct Led<D: Door> {
    /// The board.
    pub board: Board,
    /// The doors in their order, each as its loop left it.
    pub doors: Vec<D>,
    /// The door of the feed, as its loop left it.
    pub feed: D,
    /// How often the builder's builds were answered in each way.
    pub builds: BuildTotals,
    /// Whether a knock failed at some door, that of the feed among them.
    pub failed: bool,
}

/// There was no memory for it. The doors come back.
#[derive(Drop)]
pub struct LeadRefused<D: Door> {
    /// The doors, as they were.
    pub doors: Vec<D>,
    /// The door of the feed, as it was.
    pub feed: D,
}

/// Serves a board at its doors, as `serve_board` does, and feeds its history at one door more: each connection that
/// comes to `feed` gets the map before any edit, which is that of `start`, and then a message for each ask. The pass of
/// that door enters nothing. The door of the feed is one of them all: a board that halts ends its loop too, and the
/// whole ends when the loops at all doors have ended.
///
/// Door i is served by pass i; behind them come the pass of the feed and that of the builder. All memory but that of
/// edits, builds, halts and feeds is taken before the first knock.
///
/// # Errors
///
/// There was no memory. The doors and that of the feed come back, nothing was heard at the ear, and the board is
/// dropped.
pub fn lead_board<D: Door, B: Bell, E: Ear, R: Threads + Wait + Sync, G: Gate>(
    rt: &R,
    alloc: Global,
    board: Board,
    start: &Version,
    doors: Vec<D>,
    feed: D,
    bell: &B,
    ear: &mut E,
    workers: u32,
    gate: &G,
) -> Result<Led<D>, LeadRefused<D>>
    requires worker { 0 < workers }
    requires workers { workers ≤ MAX_WORKERS }
    requires few { length doors.items ≤ MAX_DOORS }
    requires open { All (λ door. (D.at door).closed ≡ false) doors.items }
    requires open_feed { (D.at feed).closed ≡ false }
    requires none { board.history ≡ [] }
    requires start { start.now.map ≡ board.start }
    requires waiting { (E.at ear.old).over ≡ false }
    ensures base { IfOk result (λ led. foundation_of led.board ≡ foundation_of board) }
    ensures legal { IfOk result (λ led. IsLegal led.board.start led.board.history) }
    ensures named { IfOk result (λ led. All (λ entry. pass_of entry < length doors.items + 2)
        led.board.history) }
    ensures quiet { IfOk result (λ led. All (λ entry. pass_of entry ≢ length doors.items)
        led.board.history) }
    ensures served { IfOk result (λ led. AreServed D.at board
        doors.items led.doors.items led.board.history) }
    ensures fed { IfOk result (λ led. IsFed D.at start.now.map board
        (length doors.items) feed led.feed led.board.history) }
    ensures built { IfOk result (λ led. IsBuiltBy board (length doors.items + 1) led.builds
        (E.at ear.old).rung (E.at ear.new).rung led.board.history) }
    ensures failed { IfOk result (λ led. FailedSo D.at led.failed
        (doors.items ++ feed ∷ []) (led.doors.items ++ led.feed ∷ []) led.board.history) }
    ensures over { OnOk result ((E.at ear.new).over ≡ true) }
    ensures refused { IfErr result (λ refused. refused.doors.items ≡ doors.items) }
    ensures feed_back { IfErr result (λ refused. refused.feed ≡ feed) }
    ensures unheard { OnErr result (ear.new ≡ ear.old) }
{
    let count = doors.len() as u32;
    let every = match with_feed(doors, feed) {
        Ok(every) => every,
        Err(refused) => return Err(refused),
    };
    let trade = Trade::Feeds { pass: count, start };
    let means = Means::new(rt, alloc, workers, gate);
    match serve_trades(&means, &trade, board, every, bell, ear) {
        Ok(served) => Ok(led_of(served)),
        Err(refused) => Err(back(refused)),
    }
}

/// The doors, and that of the feed behind them.
///
/// # Errors
///
/// There was no memory. The doors come back.
fn with_feed<D: Door>(doors: Vec<D>, feed: D) -> Result<Vec<D>, LeadRefused<D>>
    ensures every { IfOk result (λ every. every.items ≡ doors.items ++ feed ∷ []) }
    ensures doors { IfErr result (λ refused. refused.doors.items ≡ doors.items) }
    ensures feed { IfErr result (λ refused. refused.feed ≡ feed) }
{
    let mut doors = doors;
    match doors.reserve(1) {
        Ok(()) => {
            doors.push_reserved(feed);
            Ok(doors)
        }
        Err(_) => Err(LeadRefused { doors, feed }),
    }
}

/// What comes back of a board that was served, with the last door as that of the feed.
fn led_of<D: Door>(served: Served<D>) -> Led<D>
    requires { 0 < length served.doors.items }
    ensures board { result.board ≡ served.board }
    ensures doors { result.doors.items ++ result.feed ∷ [] ≡ served.doors.items }
    ensures builds { result.builds ≡ served.builds }
    ensures failed { result.failed ≡ served.failed }
{
    let (doors, feed) = apart(served.doors);
    Led {
        board: served.board,
        doors,
        feed,
        builds: served.builds,
        failed: served.failed,
    }
}

/// What comes back for want of memory, with the last door as that of the feed.
fn back<D: Door>(refused: ServeRefused<D>) -> LeadRefused<D>
    requires { 0 < length refused.doors.items }
    ensures { result.doors.items ++ result.feed ∷ [] ≡ refused.doors.items }
{
    let (doors, feed) = apart(refused.doors);
    LeadRefused { doors, feed }
}

/// The doors without the last one, and that one.
fn apart<D: Door>(doors: Vec<D>) -> (Vec<D>, D)
    requires { 0 < length doors.items }
    ensures { result.0.items ++ result.1 ∷ [] ≡ doors.items }
{
    let mut doors = doors;
    let feed = doors.pop().unwrap();
    (doors, feed)
}
