//! Asks, taken of a link.

ghost use Rattle.std.specs.Prelude.{◌≡◌, ◌<◌, ◌≤◌, length, take, IfErr, IfOk, IsErrOf, IsFalse, IsTrue, MatchOption, OnErr};
ghost use Rattle.follow_proto.specs.declared.TheConstants.{ASK_SIZE};
ghost use Rattle.follow_proto.specs.Feeds.{ask_bytes};
ghost use Rattle.path_client.specs.Taking.{NothingLeft, Takes};
ghost use Rattle.feed_node.specs.Feeding.{IsBegun};
ghost use Rattle.feed_node.specs.Asking.{EndsBetween, Judges, LacksAsk, LacksRest};
ghost use Rattle.wire.specs.Talks.{OnlyReads, ReadFails};

use crate::feeding::FeedFault;
use follow_proto::kinds::ASK;
use follow_proto::{ASK_SIZE, Ask, read_ask};
use wire::{Failed, Link};

/// Takes the next ask and no byte more; `None` where the input ends between asks.
///
/// # Errors
///
/// `Torn` where the input ends inside an ask, `BadAsk` where the next byte is not that of one, and `ReadFault`.
pub(crate) fn next_ask<L: Link>(link: &mut L) -> Result<Option<Ask>, FeedFault>
    ensures ask { IfOk result (λ found. MatchOption found
        (EndsBetween (L.at link.old).talk (L.at link.new).talk)
        (λ ask. Takes (L.at link.old).talk (L.at link.new).talk (ask_bytes ask.known))) }
    ensures none { IfErr result (LacksAsk (L.at link.old).talk (L.at link.new).talk) }
    ensures cause { IsErrOf result FeedFault.ReadFault
        → ReadFails (L.at link.old) (L.at link.new) }
    ensures counts { OnlyReads (L.at link.old) (L.at link.new) }
{
    let mut room = [0; ASK_SIZE];
    match fill(link, room.as_mut_slice()) {
        Ok(have) => judged(&room[..have]),
        Err(Failed) => Err(FeedFault::ReadFault),
    }
}

/// Takes what comes in until a whole ask is held or what is held is the beginning of none, and says how many bytes that
/// are.
///
/// # Errors
///
/// `Failed` where the link failed before.
fn fill<L: Link>(link: &mut L, room: &mut [u8]) -> Result<usize, Failed>
    requires { length room.old ≡ ASK_SIZE }
    ensures len { length room.new ≡ ASK_SIZE }
    ensures within { IfOk result (λ have. have ≤ ASK_SIZE) }
    ensures takes { IfOk result (λ have.
        Takes (L.at link.old).talk (L.at link.new).talk (take have room.new)) }
    ensures end { IfOk result (λ have.
        IsBegun (take have room.new) → NothingLeft (L.at link.new).talk) }
    ensures part { OnErr result (LacksRest (L.at link.old).talk (L.at link.new).talk) }
    ensures cause { OnErr result (ReadFails (L.at link.old) (L.at link.new)) }
    ensures counts { OnlyReads (L.at link.old) (L.at link.new) }
{
    let mut have = 0;
    while is_begun(&room[..have]) {
        let count = take_some(link, &mut room[have..])?;
        if count == 0 {
            return Ok(have);
        }
        have += count;
    }
    Ok(have)
}

/// Whether these bytes are nothing, or a part of an ask.
fn is_begun(held: &[u8]) -> bool
    ensures begun { IsTrue result → IsBegun held.now }
    ensures short { IsTrue result → length held.now < ASK_SIZE }
    ensures other { IsFalse result → IsBegun held.now → ⊥ }
{
    if held.is_empty() {
        return true;
    }
    held[0] == ASK && held.len() < ASK_SIZE
}

/// Takes the next bytes that come in to the front of a room, and says how many; 0 is the end.
///
/// # Errors
///
/// `Failed` where the link failed.
fn take_some<L: Link>(link: &mut L, room: &mut [u8]) -> Result<usize, Failed>
    requires { 0 < length room.old }
    ensures count { IfOk result (λ count. count ≤ length room.old) }
    ensures taken { IfOk result (λ count.
        Takes (L.at link.old).talk (L.at link.new).talk (take count room.new)) }
    ensures end { IfOk result (λ count. count ≡ 0 → NothingLeft (L.at link.new).talk) }
    ensures kept { OnErr result ((L.at link.new).talk ≡ (L.at link.old).talk) }
    ensures cause { OnErr result (ReadFails (L.at link.old) (L.at link.new)) }
    ensures counts { OnlyReads (L.at link.old) (L.at link.new) }
{
    link.recv(room)
}

/// What the bytes are that are held of an ask.
///
/// # Errors
///
/// `Torn` where they are a part of one, and `BadAsk` where they begin with another byte.
fn judged(held: &[u8]) -> Result<Option<Ask>, FeedFault>
    requires { length held.now ≤ ASK_SIZE }
    ensures { Judges held.now result }
{
    if held.is_empty() {
        return Ok(None);
    }
    if held[0] != ASK {
        return Err(FeedFault::BadAsk { byte: held[0] });
    }
    match held.first_chunk::<ASK_SIZE>() {
        Some(bytes) => whole(bytes),
        None => Err(FeedFault::Torn {
            have: held.len() as u32,
        }),
    }
}

/// The ask that is held whole.
fn whole(bytes: &[u8; ASK_SIZE]) -> Result<Option<Ask>, FeedFault>
    ensures { Judges bytes.now result }
{
    match read_ask(bytes) {
        Ok(ask) => Ok(Some(ask)),
        Err(byte) => Err(FeedFault::BadAsk { byte }),
    }
}
