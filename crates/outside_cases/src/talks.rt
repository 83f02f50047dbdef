//! Clients and sessions over links in memory.

use crate::boards::board_of;
use crate::links::link_in;
use crate::said::talk_said;
use build_pool::FreeGate;
use case_kit::{Fields, Refusal};
use path_client::{ClientFault, Heard, ask};
use query_proto::{MAX_REQUEST, Proto, Request, decode_request};
use session::{Lone, serve_link};
use std::alloc::{AllocError, Global};
use std::sync::Wait;
use std::thread::Threads;

/// `ask | FRAME | LINK`: what a client hears that asks this over the link, what is left there then, and what was sent.
pub(crate) fn asked(alloc: Global, fields: &mut Fields<'_>) -> Result<String, Refusal> {
    let request = request_in(alloc, fields)?;
    let mut link = link_in(alloc, fields)?;
    let heard = heard_said(alloc, ask(alloc, &mut link, request))?;
    Ok(talk_said(alloc, heard.as_str(), &link)?)
}

/// The request that a frame of the second protocol spells.
pub(crate) fn request_in(alloc: Global, fields: &mut Fields<'_>) -> Result<Request, Refusal> {
    let frame = fields.bytes(alloc)?;
    if frame.len() > MAX_REQUEST {
        return Err(Refusal::OutOfForm);
    }
    decode_request(&frame, Proto::Two).map_err(|_| Refusal::OutOfForm)
}

/// What was heard, with how many moves a path has and which is the last, or why nothing was.
fn heard_said(alloc: Global, heard: Result<Heard, ClientFault>) -> Result<String, AllocError> {
    let heard = match heard {
        Ok(heard) => heard,
        Err(fault) => return format!(in alloc; "{fault:?}"),
    };
    let (reply, moves) = (heard.reply, heard.moves.moves());
    let count = moves.len();
    match moves.last() {
        None => format!(in alloc; "{reply:?}"),
        Some(last) => format!(in alloc; "{reply:?}, {count} moves, the last {last:?}"),
    }
}

/// `talk | MAP | LINK`: how a session ends over the link, what is left there then, and what was sent.
pub(crate) fn talk<R: Threads + Wait + Sync>(
    rt: &R,
    alloc: Global,
    fields: &mut Fields<'_>,
) -> Result<String, Refusal> {
    let board = board_of(rt, alloc, fields.grid(alloc)?)?;
    let mut link = link_in(alloc, fields)?;
    let mut lone = Lone { board, pass: 0 };
    let ended = serve_link(rt, alloc, &mut lone, &mut link, 1, &FreeGate);
    let ended = format!(in alloc; "{ended:?}")?;
    Ok(talk_said(alloc, ended.as_str(), &link)?)
}
