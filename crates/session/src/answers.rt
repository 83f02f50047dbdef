//! One request and its answer.

ghost use Rattle.std.specs.Prelude.{◌≡◌, ◌<◌, ◌≤◌, None};
ghost use Rattle.build_pool.specs.declared.TheConstants.{MAX_WORKERS};
ghost use Rattle.query_proto.specs.declared.requests.Request.TheVariants.{Change, Query, Status, Stop};
ghost use Rattle.session.specs.Answering.{Answers, AnswersBy, Freshens, ServesAt};
ghost use Rattle.session.specs.Desks.{IsCall, KeepsVersion};
ghost use Rattle.session.specs.Served.{why_of};
ghost use Rattle.session.specs.Standing.{HoldsItsOwn, HoldsSince, stands};

use crate::building::answer_build;
use crate::desk::Desk;
use crate::means::Means;
use build_pool::Gate;
use edit_log::Edit;
use moves::Cell;
use path_core::SubmitError;
use query_proto::{QueryWhy, Reply, Request};
use std::alloc::Global;
use std::sync::Wait;
use std::thread::Threads;
use versions::{End, QueryRefusal, Version};
use walker::measure;

/// The two ends of a path.
#[derive(Clone, Copy, Debug, PartialEq, Eq)]
pub struct PathAt {
    /// Where it begins.
    pub start: Cell,
    /// Where it ends.
    pub goal: Cell,
}

/// The answer to a request.
#[derive(Clone, Copy, Debug, PartialEq, Eq)]
pub struct Answered {
    /// The reply.
    pub reply: Reply,
    /// The ends of the path whose moves follow the reply. The desk holds the version of the path.
    pub path: Option<PathAt>,
}

impl Answered {
    /// Returns an answer that is not a path.
    pub(crate) fn of(reply: Reply) -> Answered
        ensures reply { result.reply ≡ reply }
        ensures path { result.path ≡ None }
    {
        Answered { reply, path: None }
    }
}

/// Answers a request at a desk. Only a change, a build and a stop take memory.
pub fn answer<K: Desk, R: Threads + Wait + Sync, G: Gate>(
    rt: &R,
    alloc: Global,
    desk: &mut K,
    request: Request,
    workers: u32,
    gate: &G,
) -> Answered
    requires worker { 0 < workers }
    requires workers { workers ≤ MAX_WORKERS }
    ensures place { (K.at desk.new).place ≡ (K.at desk.old).place }
    ensures answers { Answers (K.at desk.old) request result (K.at desk.new) }
{
    match request {
        Request::Query { start, goal } => answer_query(rt, desk, start, goal),
        Request::Change(edit) => {
            let reply = answer_change(rt, desk, edit);
            told_at(desk, reply)
        }
        Request::Build => {
            let means = Means::new(rt, alloc, workers, gate);
            let reply = answer_build(&means, desk);
            told_at(desk, reply)
        }
        Request::Status => {
            let reply = answer_status(rt, desk);
            told_at(desk, reply)
        }
        Request::Bye => told_at(desk, Reply::Done),
        Request::Stop => {
            let reply = answer_stop(rt, desk);
            told_at(desk, reply)
        }
        Request::Hello => told_at(desk, Reply::Welcome),
    }
}

/// Returns an answer that is not a path. It also makes known what a board of its own holds.
pub(crate) fn told_at<K: Desk>(desk: &K, reply: Reply) -> Answered
    ensures reply { result.reply ≡ reply }
    ensures path { result.path ≡ None }
    ensures own { HoldsItsOwn (K.at desk.now).place (stands (K.at desk.now)) }
{
    desk.held();
    Answered::of(reply)
}

/// Answers a query from the published version.
fn answer_query<K: Desk, R: Wait>(rt: &R, desk: &mut K, start: Cell, goal: Cell) -> Answered
    ensures place { (K.at desk.new).place ≡ (K.at desk.old).place }
    ensures answers { Answers (K.at desk.old) (Query start goal) result (K.at desk.new) }
{
    if !holds_published(rt, desk) {
        return told_at(desk, Reply::NoMemory);
    }
    answer_from(desk.held(), start, goal)
}

/// Returns whether the published version is held, after a look unless that is known without one.
pub(crate) fn holds_published<K: Desk, R: Wait>(rt: &R, desk: &mut K) -> bool
    ensures called { IsCall (K.at desk.old) (K.at desk.new) }
    ensures freshens { Freshens (K.at desk.old) result (K.at desk.new) }
{
    if desk.recent(rt) {
        return true;
    }
    desk.look(rt).held
}

/// Returns the answer of a version.
fn answer_from(version: &Version, start: Cell, goal: Cell) -> Answered
    ensures { AnswersBy version.now start goal result }
{
    // From here on, it is known to be a version.
    version.grid();
    let prefix = version.prefix();
    match measure(version, start, goal) {
        Ok(Some(cost)) => Answered {
            reply: Reply::Path {
                version: prefix,
                cost,
            },
            path: Some(PathAt { start, goal }),
        },
        Ok(None) => Answered::of(Reply::Unreachable { version: prefix }),
        Err(why) => Answered::of(Reply::Refused {
            version: prefix,
            why: why_of(why),
        }),
    }
}

/// Returns why a query is refused, in the form of a reply.
pub(crate) fn why_of(why: QueryRefusal) -> QueryWhy
    ensures { result ≡ why_of why }
{
    match why {
        QueryRefusal::Outside { which } => QueryWhy {
            blocked: false,
            goal: which == End::Goal,
        },
        QueryRefusal::Blocked { which } => QueryWhy {
            blocked: true,
            goal: which == End::Goal,
        },
    }
}

/// Answers a change.
fn answer_change<K: Desk, R: Wait>(rt: &R, desk: &mut K, edit: Edit) -> Reply
    ensures called { KeepsVersion (K.at desk.old) (K.at desk.new) }
    ensures served { ServesAt (K.at desk.old) (Change edit) result (K.at desk.new) }
{
    match desk.submit(rt, edit) {
        Ok(number) => Reply::Accepted { number },
        Err(SubmitError::Refused(why)) => Reply::EditRefused(why),
        Err(SubmitError::NoMemory) => Reply::NoMemory,
    }
}

/// Returns the state of the board.
fn answer_status<K: Desk, R: Wait>(rt: &R, desk: &mut K) -> Reply
    ensures called { IsCall (K.at desk.old) (K.at desk.new) }
    ensures holds { HoldsSince (stands (K.at desk.old)) (stands (K.at desk.new)) }
    ensures served { ServesAt (K.at desk.old) Status result (K.at desk.new) }
{
    let look = desk.look(rt);
    Reply::Status {
        version: look.prefix,
        accepted: look.accepted,
        cells: look.totals.cells,
        comps: look.totals.comps,
        runs: look.totals.runs,
    }
}

/// Halts the board.
fn answer_stop<K: Desk, R: Wait>(rt: &R, desk: &mut K) -> Reply
    ensures called { KeepsVersion (K.at desk.old) (K.at desk.new) }
    ensures served { ServesAt (K.at desk.old) Stop result (K.at desk.new) }
{
    match desk.halt(rt) {
        Ok(_) => Reply::Done,
        Err(_) => Reply::NoMemory,
    }
}
