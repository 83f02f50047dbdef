//! Links in memory, and links over a reader and a writer.

ghost use Rattle.std.specs.Prelude.{◌≤◌, IfOk, length};
ghost use Rattle.wire.specs.DoorInMemory.{IsNewLink};
ghost use Rattle.wire.specs.LinkInMemory.{CutsGiveSome};

use crate::devices::{Errors, Narrow, Slow};
use crate::said::{push_part, quoted};
use case_kit::{Fields, Refusal};
use std::alloc::Global;
use wire::{Link, MemLink, SteadyLink, StreamLink, send_all};

/// The most room for a recv.
const ROOM: usize = 9;

/// The link of the next five fields.
pub(crate) fn link_in(alloc: Global, fields: &mut Fields<'_>) -> Result<MemLink, Refusal>
    ensures { IfOk result IsNewLink }
{
    let input = fields.bytes(alloc)?;
    let cuts = some_cuts(sizes_in(alloc, fields)?)?;
    let recv_fails = calls_in(alloc, fields)?;
    let room = fields.number()? as usize;
    let send_fails = calls_in(alloc, fields)?;
    let link = MemLink::new(alloc, input, cuts, room, recv_fails, send_fails)?;
    Ok(link)
}

/// These sizes, if each recv gets some bytes by them.
fn some_cuts(cuts: Vec<usize>) -> Result<Vec<usize>, Refusal>
    ensures { IfOk result (λ cuts. CutsGiveSome cuts.items) }
{
    match cuts.iter().all(|most| *most > 0) {
        true => Ok(cuts),
        false => Err(Refusal::OutOfForm),
    }
}

/// Sizes in bytes.
pub(crate) fn sizes_in(alloc: Global, fields: &mut Fields<'_>) -> Result<Vec<usize>, Refusal> {
    let numbers = fields.numbers(alloc)?;
    let sizes = numbers.iter().map(|number| *number as usize);
    Ok(sizes.collect(alloc)?)
}

/// The numbers of calls that fail.
pub(crate) fn calls_in(alloc: Global, fields: &mut Fields<'_>) -> Result<Vec<u64>, Refusal> {
    let numbers = fields.numbers(alloc)?;
    let calls = numbers.iter().map(|number| u64::from(*number));
    Ok(calls.collect(alloc)?)
}

/// `memory link | LINK | CALL, ..`: what the calls answer, the bytes that are left then and those that were sent, and
/// how many recvs and sends failed.
pub(crate) fn memory_link(alloc: Global, fields: &mut Fields<'_>) -> Result<String, Refusal> {
    let mut link = link_in(alloc, fields)?;
    let said = calls_said(alloc, &mut link, fields.text()?)?;
    let left = quoted(alloc, link.left())?;
    let sent = quoted(alloc, link.sent())?;
    let (reads, writes) = (link.read_fault_count(), link.write_fault_count());
    Ok(format!(in alloc; "{said}; left {left}, sent {sent}, faults {reads} {writes}")?)
}

/// What calls answer, one after the other: `recv SIZE` gives the bytes that came into so much room, and `send TEXT`
/// whether the whole text was sent.
fn calls_said<L: Link>(alloc: Global, link: &mut L, calls: &str) -> Result<String, Refusal> {
    let mut said = String::new(alloc);
    for call in calls.split(", ") {
        match call.split_once(' ') {
            Some(("recv", size)) => push_received(alloc, &mut said, link, size)?,
            Some(("send", text)) => {
                let is_sent = send_all(link, text.as_bytes()).is_ok();
                push_part(&mut said, if is_sent { "sent" } else { "failed" })?;
            }
            _ => return Err(Refusal::OutOfForm),
        }
    }
    Ok(said)
}

/// Adds what came into so much room, at least 1 byte and at most 9.
fn push_received<L: Link>(
    alloc: Global,
    said: &mut String,
    link: &mut L,
    size: &str,
) -> Result<(), Refusal> {
    let size: usize = size.parse().map_err(|_| Refusal::OutOfForm)?;
    let mut bytes = [b'.'; ROOM];
    let room = &mut bytes[..size.clamp(1, ROOM)];
    match link.recv(room) {
        Ok(count) => push_part(said, quoted(alloc, &room[..count])?.as_str())?,
        Err(_) => push_part(said, "failed")?,
    }
    Ok(())
}

/// `steady link | BYTES | CALL, ..`: what the calls answer on a link that never fails, and the bytes that are left
/// then.
pub(crate) fn steady_link(alloc: Global, fields: &mut Fields<'_>) -> Result<String, Refusal> {
    let mut link = SteadyLink::new(fields.bytes(alloc)?);
    let said = calls_said(alloc, &mut link, fields.text()?)?;
    let left = quoted(alloc, link.left())?;
    Ok(format!(in alloc; "{said}; left {left}")?)
}

/// `stream link | BYTES | READ ERRORS | ROOM | WRITE ERRORS | CALL, ..`: what the calls answer over a reader of these
/// bytes, two at a time, and a writer with this room, and the bytes that the writer took.
pub(crate) fn stream_link(alloc: Global, fields: &mut Fields<'_>) -> Result<String, Refusal> {
    let bytes = fields.bytes(alloc)?;
    let reader = Slow {
        left: &bytes,
        errors: Errors::of(fields.text()?),
    };
    let mut taken = Vec::new(alloc);
    let writer = Narrow {
        taken: &mut taken,
        room: fields.number()? as usize,
        errors: Errors::of(fields.text()?),
    };
    let mut link = StreamLink::over(reader, writer);
    let said = calls_said(alloc, &mut link, fields.text()?)?;
    drop(link);
    let sent = quoted(alloc, &taken)?;
    Ok(format!(in alloc; "{said}; {sent}")?)
}
