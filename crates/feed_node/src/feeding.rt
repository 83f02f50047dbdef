//! A feed: asks come in over a link, and each is answered before the next is waited for.

ghost use Rattle.std.specs.Prelude.{◌≡◌, ◌≤◌, [], IfErr, OnErr, OnOk};
ghost use Rattle.path_board.specs.Passes.{base_by, seen_of, IsPassOf, SamePass};
ghost use Rattle.path_board.specs.SharedBoards.{board_id};
ghost use Rattle.path_core.specs.Passes.{OthersAdd};
ghost use Rattle.feed_node.specs.Feeding.{sight_of, Feeds, FeedsBehind, HasCause};
ghost use Rattle.feed_node.specs.Looking.{HoldsSince, IsBacklog};
ghost use Rattle.feed_node.specs.Turns.{Steps, Tells};
ghost use Rattle.wire.specs.Talks.{IsLater, OnlyWrites, WriteFails};

use crate::asking::next_ask;
use crate::backlog::{Backlog, Source, find};
use crate::parcel::Parcel;
use crate::sending::{send_found, send_start};
use path_board::{Pass, SharedBoard};
use std::alloc::Global;
use std::sync::Wait;
use versions::Version;
use wire::{Failed, Link};

/// The most asks that a feed answers.
pub const MAX_ASKS: u32 = 1_048_576;

/// How a feed ended without a fault.
#[derive(Clone, Copy, Debug, PartialEq, Eq)]
pub enum FeedEnded {
    /// The input ended between two asks.
    Quiet,
    /// The most asks were answered.
    Spent,
}

/// Why a feed ended in a fault.
#[derive(Clone, Copy, Debug, PartialEq, Eq)]
pub enum FeedFault {
    /// The input ended inside an ask.
    Torn {
        /// How many bytes of the ask came in, from 1 to 4.
        have: u32,
    },
    /// An ask began with another byte than an ask has.
    BadAsk {
        /// The byte.
        byte: u8,
    },
    /// The link failed while an ask was to come in.
    ReadFault,
    /// The link failed while a message was sent.
    WriteFault,
}

/// Sends the map before any edit over a link, and then answers the asks that come in, one after the other, by what the
/// pass sees of the board. Others may edit and publish meanwhile; the pass enters nothing.
///
/// A message leaves in pieces of 16,384 bytes, and its edits go from the list that the board gives to the piece. The
/// list is asked for when it has fewer edits left than a message may have: so a follower that is far behind costs the
/// board one list. Memory is taken for that list alone.
///
/// # Errors
///
/// - `Torn` exactly where the input ended inside an ask, with the bytes that came in of it.
/// - `BadAsk` exactly where an ask begins with another byte than an ask has, with that byte.
/// - `ReadFault` and `WriteFault` only where the link's count of that direction rose in this call.
pub fn feed_link<L: Link, R: Wait>(
    rt: &R,
    alloc: Global,
    board: &SharedBoard,
    pass: &mut Pass,
    start: &Version,
    link: &mut L,
) -> Result<FeedEnded, FeedFault>
    requires board { IsPassOf (board_id board.now) pass.old }
    requires start { start.now.map ≡ (base_by pass.old).start }
    ensures same { SamePass pass.old pass.new }
    ensures none { OthersAdd pass.old.number (seen_of pass.old) (seen_of pass.new) }
    ensures held { HoldsSince pass.old pass.new }
    ensures feeds { Feeds (base_by pass.old).start (sight_of pass.old) (L.at link.old).talk result
        (sight_of pass.new) (L.at link.new).talk }
    ensures cause { IfErr result (HasCause (L.at link.old) (L.at link.new)) }
    ensures counts { IsLater (L.at link.old) (L.at link.new) }
{
    let source = Source { rt, alloc, board };
    let mut parcel = Parcel::new();
    match send_start(link, &mut parcel, start.grid()) {
        Ok(()) => answer_asks(&source, pass, link, &mut parcel),
        Err(Failed) => Err(FeedFault::WriteFault),
    }
}

/// Answers the asks that come in, behind the map.
///
/// # Errors
///
/// Those of `feed_link`.
fn answer_asks<L: Link, R: Wait>(
    source: &Source<'_, R>,
    pass: &mut Pass,
    link: &mut L,
    parcel: &mut Parcel,
) -> Result<FeedEnded, FeedFault>
    requires board { IsPassOf (board_id source.now.board.now) pass.old }
    requires none { parcel.old ≡ [] }
    ensures same { SamePass pass.old pass.new }
    ensures none { OthersAdd pass.old.number (seen_of pass.old) (seen_of pass.new) }
    ensures held { HoldsSince pass.old pass.new }
    ensures feeds { FeedsBehind [] (sight_of pass.old) (L.at link.old).talk result (sight_of pass.new)
        (L.at link.new).talk }
    ensures cause { IfErr result (HasCause (L.at link.old) (L.at link.new)) }
    ensures counts { IsLater (L.at link.old) (L.at link.new) }
{
    let mut backlog = Backlog::none(source.alloc);
    for _ in 0..MAX_ASKS {
        match answer_next(source, pass, &mut backlog, link, parcel) {
            Ok(true) => {}
            Ok(false) => return Ok(FeedEnded::Quiet),
            Err(fault) => return Err(fault),
        }
    }
    Ok(FeedEnded::Spent)
}

/// Takes the next ask and answers it. Says whether one came: else the input ended between asks.
///
/// # Errors
///
/// Those of `feed_link`.
fn answer_next<L: Link, R: Wait>(
    source: &Source<'_, R>,
    pass: &mut Pass,
    backlog: &mut Backlog,
    link: &mut L,
    parcel: &mut Parcel,
) -> Result<bool, FeedFault>
    requires board { IsPassOf (board_id source.now.board.now) pass.old }
    requires backlog { IsBacklog (seen_of pass.old) backlog.old.known backlog.old.edits.edits }
    requires none { parcel.old ≡ [] }
    ensures same { SamePass pass.old pass.new }
    ensures none { OthersAdd pass.old.number (seen_of pass.old) (seen_of pass.new) }
    ensures held { HoldsSince pass.old pass.new }
    ensures backlog { IsBacklog (seen_of pass.new) backlog.new.known backlog.new.edits.edits }
    ensures parcel { OnOk result (parcel.new ≡ []) }
    ensures steps { Steps (sight_of pass.old) (L.at link.old).talk result (sight_of pass.new)
        (L.at link.new).talk }
    ensures cause { IfErr result (HasCause (L.at link.old) (L.at link.new)) }
    ensures counts { IsLater (L.at link.old) (L.at link.new) }
{
    let Some(ask) = next_ask(link)? else {
        return Ok(false);
    };
    match answer(source, pass, backlog, link, parcel, ask.known) {
        Ok(()) => Ok(true),
        Err(Failed) => Err(FeedFault::WriteFault),
    }
}

/// Finds what a follower is to be told that knows so many edits, and sends it.
///
/// # Errors
///
/// `Failed` where the link failed before all of it was sent.
fn answer<L: Link, R: Wait>(
    source: &Source<'_, R>,
    pass: &mut Pass,
    backlog: &mut Backlog,
    link: &mut L,
    parcel: &mut Parcel,
    known: u32,
) -> Result<(), Failed>
    requires board { IsPassOf (board_id source.now.board.now) pass.old }
    requires backlog { IsBacklog (seen_of pass.old) backlog.old.known backlog.old.edits.edits }
    requires none { parcel.old ≡ [] }
    ensures same { SamePass pass.old pass.new }
    ensures none { OthersAdd pass.old.number (seen_of pass.old) (seen_of pass.new) }
    ensures held { HoldsSince pass.old pass.new }
    ensures backlog { IsBacklog (seen_of pass.new) backlog.new.known backlog.new.edits.edits }
    ensures parcel { OnOk result (parcel.new ≡ []) }
    ensures tells { Tells (sight_of pass.old) known (L.at link.old).talk result (sight_of pass.new)
        (L.at link.new).talk }
    ensures cause { OnErr result (WriteFails (L.at link.old) (L.at link.new)) }
    ensures counts { OnlyWrites (L.at link.old) (L.at link.new) }
{
    let found = find(source, pass, backlog, known);
    send_found(link, parcel, known, &backlog.edits, &found)
}
