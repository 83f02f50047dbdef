//! What a feed has of the board's edits, and what it finds there for an ask.

ghost use Rattle.std.specs.Prelude.{◌≡◌, ◌<◌, [], IfSome};
ghost use Rattle.path_board.specs.Passes.{looks_of, seen_of, IsPassOf, SamePass};
ghost use Rattle.path_board.specs.SharedBoards.{board_id};
ghost use Rattle.path_core.specs.Passes.{OthersAdd};
ghost use Rattle.feed_node.specs.Feeds.{Answers};
ghost use Rattle.feed_node.specs.Looking.{HasFull, HoldsSince, IsBacklog, IsInside, told_of};

use edit_log::EditList;
use follow_proto::MAX_SENT;
use path_board::{Pass, SharedBoard};
use std::alloc::Global;
use std::sync::Wait;

/// Where a feed has its edits from.
#[derive(Drop)]
pub(crate) struct Source<'a, R> {
    /// The runtime.
    pub(crate) rt: &'a R,
    /// The memory.
    pub(crate) alloc: Global,
    /// The board, of which the feed has a pass.
    pub(crate) board: &'a SharedBoard,
}

/// Accepted edits, and how many are before them. A follower that is far behind is told them message by message, and the
/// board is not asked for them again.
#[derive(Drop)]
pub(crate) struct Backlog {
    pub(crate) known: u32,
    pub(crate) edits: EditList,
}

/// What is found for a follower that knows so many edits.
#[derive(Clone, Copy, Debug, PartialEq, Eq)]
pub(crate) enum Finding {
    /// Fewer edits were accepted, so many.
    Ahead {
        /// How many.
        accepted: u32,
    },
    /// The edits of the backlog from that place on.
    Edits {
        /// The place.
        first: u32,
    },
    /// There was no memory for the edits.
    NoMemory,
}

impl Backlog {
    /// No edits.
    pub(crate) fn none(alloc: Global) -> Backlog
        ensures known { result.known ≡ 0 }
        ensures edits { result.edits.edits ≡ [] }
    {
        Backlog {
            known: 0,
            edits: EditList::new(alloc),
        }
    }

    /// The place of the edits past so many known ones, where there are as many as one message may have.
    fn place_of_full(&self, known: u32) -> Option<u32>
        ensures { IfSome result (HasFull self.now.known self.now.edits.edits known) }
    {
        let place = known.checked_sub(self.known)?;
        if self.edits.len() < MAX_SENT {
            return None;
        }
        if place > self.edits.len() - MAX_SENT {
            return None;
        }
        Some(place)
    }
}

/// Finds what a follower is to be told that knows so many edits. Others use the board meanwhile.
pub(crate) fn find<R: Wait>(
    source: &Source<'_, R>,
    pass: &mut Pass,
    backlog: &mut Backlog,
    known: u32,
) -> Finding
    requires board { IsPassOf (board_id source.now.board.now) pass.old }
    requires backlog { IsBacklog (seen_of pass.old) backlog.old.known backlog.old.edits.edits }
    ensures same { SamePass pass.old pass.new }
    ensures none { OthersAdd pass.old.number (seen_of pass.old) (seen_of pass.new) }
    ensures held { HoldsSince pass.old pass.new }
    ensures looks { looks_of pass.old < looks_of pass.new }
    ensures backlog { IsBacklog (seen_of pass.new) backlog.new.known backlog.new.edits.edits }
    ensures inside { IsInside backlog.new.edits.edits result }
    ensures answers { Answers (seen_of pass.old) (told_of known backlog.new.edits.edits result)
        (seen_of pass.new) }
{
    match backlog.place_of_full(known) {
        Some(first) => {
            // The look that each message has, by one load: the edits are at hand.
            let _moved = source.board.fresh(pass);
            Finding::Edits { first }
        }
        None => look_up(source, pass, backlog, known),
    }
}

/// The same where the backlog has not enough edits: it gets all that the board has.
fn look_up<R: Wait>(
    source: &Source<'_, R>,
    pass: &mut Pass,
    backlog: &mut Backlog,
    known: u32,
) -> Finding
    requires board { IsPassOf (board_id source.now.board.now) pass.old }
    requires backlog { IsBacklog (seen_of pass.old) backlog.old.known backlog.old.edits.edits }
    ensures same { SamePass pass.old pass.new }
    ensures none { OthersAdd pass.old.number (seen_of pass.old) (seen_of pass.new) }
    ensures held { HoldsSince pass.old pass.new }
    ensures looks { looks_of pass.old < looks_of pass.new }
    ensures backlog { IsBacklog (seen_of pass.new) backlog.new.known backlog.new.edits.edits }
    ensures inside { IsInside backlog.new.edits.edits result }
    ensures answers { Answers (seen_of pass.old) (told_of known backlog.new.edits.edits result)
        (seen_of pass.new) }
{
    let accepted = source.board.look(source.rt, pass).accepted;
    if known > accepted {
        return Finding::Ahead { accepted };
    }
    // The memory of the former edits is free before that of the next ones is taken.
    *backlog = Backlog::none(source.alloc);
    match source.board.job(source.rt, pass, known) {
        Ok(job) => {
            *backlog = Backlog {
                known,
                edits: job.edits,
            };
            Finding::Edits { first: 0 }
        }
        Err(_) => Finding::NoMemory,
    }
}
