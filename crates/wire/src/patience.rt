//! How long the server or a caller waits for a connection, and why the connection is ended.
ghost use Rattle.std.specs.Prelude.{◌≡◌, IfSome, IfNone, IsTrue, ◌↔◌, Some};
ghost use Rattle.std.specs.Time.{instant_nanos};
ghost use Rattle.wire.specs.Patience.{GoesOnSince, HasPassed, IsAsked, IsClosing, IsLate, IsOver, IsRestOf, cause_of, limit_of};
ghost use Rattle.wire.specs.declared.patience.Cause.TheVariants.{Stopped};

use crate::front::CLOSING_TIME;
use std::time::Instant;
use thiserror::Error;

/// How long a client may be silent between two frames, in seconds.
pub const IDLE_TIME: u64 = 300;

/// How long a follower may be silent between two asks, in seconds. The next follower that waits for the feed gives up
/// after [`ANSWER_TIME`].
pub const ASK_TIME: u64 = 30;

/// How long a frame or an ask that was begun may take to become whole, in seconds. The time runs while the server waits
/// for it.
pub const FRAME_TIME: u64 = 10;

/// How long a client may take to receive the reply to a frame, in seconds.
pub const REPLY_TIME: u64 = 30;

/// How long a caller waits for a whole answer, in seconds, and for a connection. The time of each answer runs from when
/// its request was sent.
pub const ANSWER_TIME: u64 = 120;

/// What a connection waits for.
#[derive(Debug, Clone, Copy, PartialEq, Eq)]
pub(crate) enum Awaited {
    /// The first byte of a frame.
    Frame,
    /// The first byte of an ask.
    Ask,
    /// The rest of a frame or ask that was begun.
    Rest,
    /// The client to take a reply.
    Taking,
    /// An answer.
    Answer,
}

/// Why a connection gives no more bytes, or takes none.
#[derive(Debug, Clone, Copy, PartialEq, Eq, Error)]
pub(crate) enum Cause {
    /// The client was silent for [`IDLE_TIME`].
    #[error("its client was silent for {time} seconds", time = IDLE_TIME)]
    Silent,
    /// The follower sent no ask for [`ASK_TIME`].
    #[error("its follower was silent for {time} seconds", time = ASK_TIME)]
    Unasked,
    /// A frame that was begun was not whole within [`FRAME_TIME`].
    #[error("a frame was not whole within {time} seconds", time = FRAME_TIME)]
    SlowFrame,
    /// A reply was not taken within [`REPLY_TIME`].
    #[error("a reply was not taken within {time} seconds", time = REPLY_TIME)]
    SlowReply,
    /// No whole answer came within [`ANSWER_TIME`].
    #[error("no whole answer came in {time} seconds", time = ANSWER_TIME)]
    NoAnswer,
    /// It was open for [`CLOSING_TIME`] after the server was stopped.
    #[error("it was open {time} seconds after a stop", time = CLOSING_TIME)]
    Stopped,
    /// The system reported an error.
    #[error("it was broken off")]
    Broken,
}

impl Awaited {
    /// How long it may take, in seconds.
    pub(crate) fn limit(self) -> u64
        ensures { result ≡ limit_of self }
    {
        match self {
            Awaited::Frame => IDLE_TIME,
            Awaited::Ask => ASK_TIME,
            Awaited::Rest => FRAME_TIME,
            Awaited::Taking => REPLY_TIME,
            Awaited::Answer => ANSWER_TIME,
        }
    }

    /// Why a connection is ended if it takes longer.
    fn cause(self) -> Cause
        ensures { result ≡ cause_of self }
    {
        match self {
            Awaited::Frame => Cause::Silent,
            Awaited::Ask => Cause::Unasked,
            Awaited::Rest => Cause::SlowFrame,
            Awaited::Taking => Cause::SlowReply,
            Awaited::Answer => Cause::NoAnswer,
        }
    }

    /// Whether the wait is for something that comes in, and ends with the server.
    fn is_asked(self) -> bool
        ensures { IsTrue result ↔ IsAsked self }
    {
        matches!(self, Awaited::Frame | Awaited::Ask | Awaited::Rest)
    }
}

/// A wait: what for, and since when.
#[derive(Debug, Clone, Copy)]
pub(crate) struct Waiting {
    /// What it waits for.
    pub(crate) what: Awaited,
    /// When the wait began.
    pub(crate) since: Instant,
}

/// The wait for `what` at this moment: the current one if it is for the same, else one that begins now.
pub(crate) fn waiting_for(before: Option<Waiting>, what: Awaited, now: Instant) -> Waiting
    ensures what { result.what ≡ what }
    ensures since { GoesOnSince before what now result.since }
{
    match before {
        Some(waiting) if waiting.what == what => waiting,
        _ => Waiting { what, since: now },
    }
}

/// What is left of a wait when more is received: only a wait for the rest of a frame goes on.
pub(crate) fn still_waiting(before: Option<Waiting>) -> Option<Waiting>
    ensures { IsRestOf before result }
{
    match before {
        Some(waiting) if waiting.what == Awaited::Rest => before,
        _ => None,
    }
}

/// Whether at least `seconds` lie between two moments.
pub(crate) fn has_passed(since: Instant, seconds: u64, now: Instant) -> bool
    ensures { IsTrue result ↔ HasPassed seconds (instant_nanos since) (instant_nanos now) }
{
    now.duration_since(since).as_secs() >= seconds
}

/// Why a connection with this wait is ended now, if it is; `stopped` is when the server was stopped, if it was.
pub(crate) fn why_ended(waiting: Waiting, stopped: Option<Instant>, now: Instant) -> Option<Cause>
    ensures stopped { (result ≡ Some Stopped) ↔ IsClosing waiting stopped now }
    ensures late { IfSome result (λ cause. (cause ≡ Stopped → ⊥)
        → IsLate waiting now × (cause ≡ cause_of waiting.what)) }
    ensures early { IfNone result (IsLate waiting now → ⊥) }
{
    if waiting.what.is_asked() && is_over(stopped, now) {
        return Some(Cause::Stopped);
    }
    if has_passed(waiting.since, waiting.what.limit(), now) {
        return Some(waiting.what.cause());
    }
    None
}

/// Whether open sessions have no time left at this moment.
pub(crate) fn is_over(stopped: Option<Instant>, now: Instant) -> bool
    ensures { IsTrue result ↔ IsOver stopped now }
{
    match stopped {
        Some(at) => has_passed(at, CLOSING_TIME, now),
        None => false,
    }
}
