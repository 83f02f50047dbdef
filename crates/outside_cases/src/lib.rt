//! Cases of the edge of the program, of clients, of sessions and of feeds, each a line.
//!
//! A link in memory is five fields (`LINK`): the bytes that come in; at how many of them each recv is cut, one recv
//! after the other; the numbers of the recvs that fail, from 1 on; the room for what is sent; and the numbers of the
//! sends that fail.
//!
//! A link of nothing that is asked to send, and the line that it has to print:
//!
//! ```text
//! bell | ring ring wait ring shut wait wait wait
//! Rung, Rung, Shut, Shut
//! ```
#![tactic(auto)]

mod beside;
mod boards;
mod devices;
mod feeds;
mod links;
mod rings;
mod said;
mod served;
mod sinks;
mod talks;

use case_kit::{Fields, Refusal};
use std::alloc::Global;
use std::sync::Wait;
use std::thread::Threads;

/// The line of output for a line of input of one of the kinds here; `None` for any other kind.
pub fn answer<R: Threads + Wait + Sync>(
    rt: &R,
    alloc: Global,
    kind: &str,
    input: &str,
) -> Result<Option<String>, Refusal> {
    let mut fields = Fields::of(input);
    let said = match kind {
        "memory sink" => sinks::memory_sink(alloc, &mut fields),
        "steady sink" => sinks::steady_sink(alloc, &mut fields),
        "memory link" => links::memory_link(alloc, &mut fields),
        "steady link" => links::steady_link(alloc, &mut fields),
        "stream link" => links::stream_link(alloc, &mut fields),
        "bell" => rings::bell(rt, alloc, &mut fields),
        "bells in turn" => rings::in_turn(rt, alloc, &mut fields),
        "ask" => talks::asked(alloc, &mut fields),
        "talk" => talks::talk(rt, alloc, &mut fields),
        "served" => served::served(rt, alloc, &mut fields),
        "served beside" => beside::served_beside(rt, alloc, &mut fields),
        "feed led" => feeds::led(rt, alloc, &mut fields),
        "feed followed" => feeds::followed(alloc, &mut fields),
        _ => return Ok(None),
    }?;
    match fields.is_done() {
        true => Ok(Some(said)),
        false => Err(Refusal::OutOfForm),
    }
}
