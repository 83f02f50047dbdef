//! What a session sends for a request: the reply, and the moves after it, written as the walk is followed once.

ghost use Rattle.std.specs.Prelude.{◌≡◌, []};
ghost use Rattle.query_proto.specs.declared.requests.Request.TheVariants.{Query};
ghost use Rattle.walker.specs.Walks.{CostsAhead, HasFewAhead};
ghost use Rattle.session.specs.Answering.{AreBytesAhead, Tells, TellsBy};

use crate::answers::{answer, holds_published, told_at, why_of};
use crate::desk::Desk;
use crate::means::Means;
use crate::sending::ReplyRoom;
use build_pool::Gate;
use moves::{Cell, MAX_PASSABLE};
use query_proto::{Reply, Request};
use root_cost::Cost;
use std::sync::Wait;
use std::thread::Threads;
use versions::Version;
use walker::Walk;

/// Answers a request at a desk, and writes the moves after the reply into a room that holds none.
pub(crate) fn tell<K: Desk, R: Threads + Wait + Sync, G: Gate>(
    means: &Means<'_, R, G>,
    desk: &mut K,
    request: Request,
    room: &mut ReplyRoom,
) -> Reply
    requires none { room.old ≡ [] }
    ensures place { (K.at desk.new).place ≡ (K.at desk.old).place }
    ensures tells { Tells (K.at desk.old) request result room.new (K.at desk.new) }
{
    match request {
        Request::Query { start, goal } => tell_query(means.rt, desk, start, goal, room),
        _ => {
            let answered = answer(
                means.rt,
                means.alloc,
                desk,
                request,
                means.workers,
                means.gate,
            );
            answered.reply
        }
    }
}

/// Answers a query from the published version.
fn tell_query<K: Desk, R: Wait>(
    rt: &R,
    desk: &mut K,
    start: Cell,
    goal: Cell,
    room: &mut ReplyRoom,
) -> Reply
    requires none { room.old ≡ [] }
    ensures place { (K.at desk.new).place ≡ (K.at desk.old).place }
    ensures tells { Tells (K.at desk.old) (Query start goal) result room.new (K.at desk.new) }
{
    if !holds_published(rt, desk) {
        return told_at(desk, Reply::NoMemory).reply;
    }
    tell_from(desk.held(), start, goal, room)
}

/// Returns the answer of a version.
fn tell_from(version: &Version, start: Cell, goal: Cell, room: &mut ReplyRoom) -> Reply
    requires none { room.old ≡ [] }
    ensures { TellsBy version.now start goal result room.new }
{
    let prefix = version.prefix();
    match Walk::start(version, start, goal) {
        Ok(Some(mut walk)) => Reply::Path {
            version: prefix,
            cost: write_moves(&mut walk, room),
        },
        Ok(None) => Reply::Unreachable { version: prefix },
        Err(why) => Reply::Refused {
            version: prefix,
            why: why_of(why),
        },
    }
}

/// Writes the remaining moves of a walk, and returns their cost. The walk is at its goal afterwards.
fn write_moves(walk: &mut Walk, room: &mut ReplyRoom) -> Cost
    requires few { HasFewAhead walk.old }
    requires none { room.old ≡ [] }
    ensures cost { CostsAhead walk.old result }
    ensures moves { AreBytesAhead walk.old room.new }
{
    let mut cost = Cost::ZERO;
    for _ in 0..MAX_PASSABLE {
        match walk.step() {
            Some(by) => {
                room.push(by);
                cost = cost.plus(by.is_diagonal());
            }
            None => return cost,
        }
    }
    cost
}
