//! A session: a client's frames over a link, each answered before the session waits for the next.

ghost use Rattle.std.specs.Prelude.{◌≡◌, ◌<◌, ◌≤◌, ◌+◌, [], length, IfErr, OnErr};
ghost use Rattle.build_pool.specs.declared.TheConstants.{MAX_WORKERS};
ghost use Rattle.query_proto.specs.declared.TheConstants.{MAX_REQUEST};
ghost use Rattle.query_proto.specs.declared.protocols.Proto.TheVariants.{Start};
ghost use Rattle.query_proto.specs.declared.requests.Request.TheVariants.{Stop};
ghost use Rattle.session.specs.Conversations.{Conversed, HasCause, protocol_after};
ghost use Rattle.session.specs.Standing.{stands};
ghost use Rattle.session.specs.Turns.{AnswersSo, EndsBy, Steps, TellsBack, point, protocol_of};
ghost use Rattle.wire.specs.Talks.{IsLater, OnlyWrites, WriteFails};

use crate::desk::Desk;
use crate::frames::Held;
use crate::means::Means;
use crate::sending::ReplyRoom;
use crate::telling::tell;
use build_pool::Gate;
use query_proto::{Proto, Reply, Request, decode_request, frame_limit};
use std::alloc::Global;
use std::sync::Wait;
use std::thread::Threads;
use wire::{Failed, Link};

/// The most frames that a session answers.
pub const MAX_REQUESTS: u32 = 1_048_576;

/// How a session ended without a fault.
#[derive(Clone, Copy, Debug, PartialEq, Eq)]
pub enum Ended {
    /// A Bye was answered.
    Bye,
    /// A Stop was answered and done.
    Stop,
    /// The input ended between two frames.
    Quiet,
    /// The most frames were answered, and none of them ended the session.
    Spent,
}

/// Why a session ended in a fault.
#[derive(Clone, Copy, Debug, PartialEq, Eq)]
pub enum SessionFault {
    /// The input ended inside a frame. Both numbers count the two bytes of the frame's length.
    Torn {
        /// How many bytes of the frame came in.
        have: u32,
        /// How many it has; 2 if its length is torn.
        want: u32,
    },
    /// A frame is longer than a request of the session's protocol can be.
    TooLong {
        /// Its length in bytes.
        length: u16,
    },
    /// The link failed while a frame was read.
    ReadFault,
    /// The link failed while a reply was sent.
    WriteFault,
}

/// Answers the frames that come in over a link, one after the other, until one of them ends the session, the input
/// ends, or the link fails. Only a change, a build and a stop take memory.
///
/// It speaks the first protocol, or the second one if the first frame is a Hello.
///
/// # Errors
///
/// `Torn` if the input ends inside a frame, `TooLong` if a length is above the limit of the protocol, and a fault if
/// the link fails.
pub fn serve_link<K: Desk, L: Link, R: Threads + Wait + Sync, G: Gate>(
    rt: &R,
    alloc: Global,
    desk: &mut K,
    link: &mut L,
    workers: u32,
    gate: &G,
) -> Result<Ended, SessionFault>
    requires worker { 0 < workers }
    requires workers { workers ≤ MAX_WORKERS }
    ensures place { (K.at desk.new).place ≡ (K.at desk.old).place }
    ensures talk { Conversed (K.at desk.old).place (stands (K.at desk.old)) (L.at link.old).talk
        result (stands (K.at desk.new)) (L.at link.new).talk }
    ensures cause { IfErr result (HasCause (L.at link.old) (L.at link.new)) }
    ensures counts { IsLater (L.at link.old) (L.at link.new) }
{
    let means = Means::new(rt, alloc, workers, gate);
    let mut session = Session {
        proto: Proto::Start,
        held: Held::new(),
        room: ReplyRoom::new(),
    };
    serve_frames(&means, desk, link, &mut session)
}

/// A session under way.
#[derive(Drop)]
struct Session {
    /// The protocol that it speaks.
    proto: Proto,
    /// What came in and is not used yet.
    held: Held,
    /// Where its replies are built.
    room: ReplyRoom,
}

/// Answers frame after frame, in a session that has not begun.
fn serve_frames<K: Desk, L: Link, R: Threads + Wait + Sync, G: Gate>(
    means: &Means<'_, R, G>,
    desk: &mut K,
    link: &mut L,
    session: &mut Session,
) -> Result<Ended, SessionFault>
    requires start { session.old.proto ≡ Start }
    requires none { session.old.held ≡ [] }
    ensures place { (K.at desk.new).place ≡ (K.at desk.old).place }
    ensures talk { Conversed (K.at desk.old).place (stands (K.at desk.old)) (L.at link.old).talk
        result (stands (K.at desk.new)) (L.at link.new).talk }
    ensures cause { IfErr result (HasCause (L.at link.old) (L.at link.new)) }
    ensures counts { IsLater (L.at link.old) (L.at link.new) }
{
    for count in 0..MAX_REQUESTS {
        let ahead = count + 1 < MAX_REQUESTS;
        match serve_next(means, desk, link, session, ahead) {
            Ok(None) => {}
            Ok(Some(ended)) => return Ok(ended),
            Err(fault) => return Err(fault),
        }
    }
    Ok(Ended::Spent)
}

/// Takes the next frame and answers it. Returns `None` if the session goes on, at the protocol after the frame. `ahead`
/// says that a further frame may be taken.
fn serve_next<K: Desk, L: Link, R: Threads + Wait + Sync, G: Gate>(
    means: &Means<'_, R, G>,
    desk: &mut K,
    link: &mut L,
    session: &mut Session,
    ahead: bool,
) -> Result<Option<Ended>, SessionFault>
    requires begun { length session.old.held ≤ 2 }
    ensures place { (K.at desk.new).place ≡ (K.at desk.old).place }
    ensures steps { Steps (K.at desk.old).place ahead
        (point session.old (K.at desk.old) (L.at link.old).talk) result
        (point session.new (K.at desk.new) (L.at link.new).talk) }
    ensures cause { IfErr result (HasCause (L.at link.old) (L.at link.new)) }
    ensures counts { IsLater (L.at link.old) (L.at link.new) }
{
    let limit = frame_limit(session.proto);
    let Some(size) = session.held.next_frame(link, limit, ahead)? else {
        return Ok(Some(Ended::Quiet));
    };
    let frame = session.held.frame(size);
    let served = serve_frame(means, desk, link, session.proto, frame, &mut session.room);
    session.proto = protocol_after(session.proto, frame);
    session.held.pass(size);
    match served {
        Ok(ended) => Ok(ended),
        Err(_) => Err(SessionFault::WriteFault),
    }
}

/// Returns the protocol after a frame.
fn protocol_after(proto: Proto, frame: &[u8]) -> Proto
    requires { length frame.now ≤ MAX_REQUEST }
    ensures { result ≡ protocol_after proto frame.now }
{
    match proto {
        Proto::Start => protocol_behind_first(frame),
        Proto::One | Proto::Two => proto,
    }
}

/// Returns the protocol after the first frame.
fn protocol_behind_first(frame: &[u8]) -> Proto
    requires { length frame.now ≤ MAX_REQUEST }
    ensures { result ≡ protocol_after Start frame.now }
{
    match decode_request(frame, Proto::Start) {
        Ok(request) => protocol_of(&request),
        Err(_) => Proto::One,
    }
}

/// Returns the protocol after the first request.
fn protocol_of(first: &Request) -> Proto
    ensures { result ≡ protocol_of first.now }
{
    match first {
        Request::Hello => Proto::Two,
        _ => Proto::One,
    }
}

/// Answers a frame and sends the reply, built in the room. Returns `Some` if the session ends after it.
///
/// # Errors
///
/// `Failed` if the link failed before the whole reply was sent.
fn serve_frame<K: Desk, L: Link, R: Threads + Wait + Sync, G: Gate>(
    means: &Means<'_, R, G>,
    desk: &mut K,
    link: &mut L,
    proto: Proto,
    frame: &[u8],
    room: &mut ReplyRoom,
) -> Result<Option<Ended>, Failed>
    requires fits { length frame.now ≤ MAX_REQUEST }
    ensures place { (K.at desk.new).place ≡ (K.at desk.old).place }
    ensures tells { TellsBack (K.at desk.old).place proto frame.now
        (stands (K.at desk.old)) (L.at link.old).talk result
        (stands (K.at desk.new)) (L.at link.new).talk }
    ensures cause { OnErr result (WriteFails (L.at link.old) (L.at link.new)) }
    ensures counts { OnlyWrites (L.at link.old) (L.at link.new) }
{
    room.clear();
    let (reply, ended) = answer_frame(means, desk, proto, frame, room);
    match room.send(link, &reply) {
        Ok(()) => Ok(ended),
        Err(failed) => Err(failed),
    }
}

/// Answers a frame, read at the protocol, writes the moves after the reply into a room that holds none, and returns
/// whether the session ends after it.
fn answer_frame<K: Desk, R: Threads + Wait + Sync, G: Gate>(
    means: &Means<'_, R, G>,
    desk: &mut K,
    proto: Proto,
    frame: &[u8],
    room: &mut ReplyRoom,
) -> (Reply, Option<Ended>)
    requires fits { length frame.now ≤ MAX_REQUEST }
    requires none { room.old ≡ [] }
    ensures place { (K.at desk.new).place ≡ (K.at desk.old).place }
    ensures answers { AnswersSo (K.at desk.old) proto frame.now result.0 room.new result.1
        (K.at desk.new) }
{
    match decode_request(frame, proto) {
        Ok(request) => {
            let reply = tell(means, desk, request, room);
            (reply, end_of(&request, reply))
        }
        Err(what) => {
            let told = Reply::Malformed {
                kind: what.kind,
                length: what.length as u16,
            };
            (told, None)
        }
    }
}

/// Returns how a session ends after a request with this reply; `None` if it goes on.
fn end_of(request: &Request, reply: Reply) -> Option<Ended>
    ensures { EndsBy request.now reply result }
{
    match request {
        Request::Bye => Some(Ended::Bye),
        Request::Stop => end_of_stop(reply),
        _ => None,
    }
}

/// Returns how a session ends after a stop with this reply.
fn end_of_stop(reply: Reply) -> Option<Ended>
    ensures { EndsBy Stop reply result }
{
    match reply {
        Reply::Done => Some(Ended::Stop),
        _ => None,
    }
}
