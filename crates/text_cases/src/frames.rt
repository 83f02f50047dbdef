//! Frames of requests and of replies.

ghost use Rattle.query_proto.specs.Frames.{CanBeSent};

use case_kit::{Fields, Refusal, hex_of};
use edit_log::CellChange;
use query_proto::{
    HEAD_ROOM, MAX_REPLY, MAX_REQUEST, Proto, REQUEST_ROOM, Reply, Request, decode_reply,
    decode_request, encode_request, reply_head,
};
use std::alloc::{AllocError, Global};
use std::fmt::Write;

/// `PROTOCOL | BYTES`: the request that the frame spells at `start`, `one` or `two`, and how that is sent; or what is
/// told of a frame that spells none.
pub fn request(alloc: Global, mut fields: Fields<'_>) -> Result<String, Refusal> {
    let proto = proto_of(fields.text()?)?;
    let frame = fields.bytes(alloc)?;
    if frame.len() > MAX_REQUEST {
        return Err(Refusal::OutOfForm);
    }
    match decode_request(frame.as_slice(), proto) {
        Ok(request) => Ok(request_said(alloc, &request)?),
        Err(malformed) => Ok(format!(in alloc; "{malformed:?}")?),
    }
}

/// The protocol with that name.
fn proto_of(name: &str) -> Result<Proto, Refusal> {
    match name {
        "start" => Ok(Proto::Start),
        "one" => Ok(Proto::One),
        "two" => Ok(Proto::Two),
        _ => Err(Refusal::OutOfForm),
    }
}

/// A request, and how it is sent.
fn request_said(alloc: Global, request: &Request) -> Result<String, AllocError> {
    let mut room = [0; REQUEST_ROOM];
    let size = encode_request(request, &mut room);
    let sent = front_said(alloc, room.as_slice(), size)?;
    match request {
        Request::Change(edit) => {
            let changes = changes_said(alloc, edit.changes())?;
            format!(in alloc; "Change{changes} sent as {sent}")
        }
        other => format!(in alloc; "{other:?} sent as {sent}"),
    }
}

/// The changes of an edit: each cell, and what it becomes.
fn changes_said(alloc: Global, changes: &[CellChange]) -> Result<String, AllocError> {
    let mut said = String::new(alloc);
    for change in changes {
        let (x, y) = (change.cell.x, change.cell.y);
        let terrain = change.terrain;
        write!(said, " {x} {y} {terrain:?}")?;
    }
    Ok(said)
}

/// `BYTES`: the reply that the frame spells, and how that is sent without the moves of a path; or what is told of a
/// frame that spells none.
pub fn reply(alloc: Global, mut fields: Fields<'_>) -> Result<String, Refusal> {
    let frame = fields.bytes(alloc)?;
    if frame.len() > MAX_REPLY {
        return Err(Refusal::OutOfForm);
    }
    match decode_reply(frame.as_slice()) {
        Ok(reply) => Ok(reply_said(alloc, &reply)?),
        Err(malformed) => Ok(format!(in alloc; "{malformed:?}")?),
    }
}

/// A reply, and how it is sent.
fn reply_said(alloc: Global, reply: &Reply) -> Result<String, AllocError>
    requires { CanBeSent reply.now }
{
    let mut room = [0; HEAD_ROOM];
    let size = reply_head(reply, &mut room);
    let sent = front_said(alloc, room.as_slice(), size)?;
    format!(in alloc; "{reply:?} sent as {sent}")
}

/// The bytes at the front of a room.
fn front_said(alloc: Global, room: &[u8], size: usize) -> Result<String, AllocError> {
    hex_of(alloc, room.get(..size).unwrap_or(room))
}
