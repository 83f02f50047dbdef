//! A follower at a link: it takes the map, and then asks and takes a message, round by round.

ghost use Rattle.std.specs.Prelude.{◌≡◌, ◌<◌, ◌≤◌, [], None, length, take, IfErr, IfOk, IsErrOf, OnErr, OnOk};
ghost use Rattle.wire.specs.Talks.{SendsPrefix, with_sent, IsLater, OnlyReads, OnlyWrites, ReadFails, WriteFails};
ghost use Rattle.path_client.specs.Taking.{NothingLeft, Takes};
ghost use Rattle.follow_node.specs.Streams.{new_following, Took};
ghost use Rattle.follow_node.specs.Links.{ask_of, FailsRound, FailsRounds, FollowsLink, GivesUp, GoesRound, GoesRounds, HeedsFrom};
ghost use Rattle.follow_node.specs.Links.{LacksPiece, StopsFrom, TakesPiece};

use crate::faults::FollowFault;
use crate::follower::Follower;
use wire::{Failed, Link, send_all};

/// How many bytes are taken at once at most.
const PIECE: usize = 16_384;

/// How many bytes the length of a message has.
const SIZE_BYTES: usize = 4;

/// Why a link was followed no further.
#[derive(Clone, Copy, Debug, PartialEq, Eq)]
pub enum LinkFault {
    /// The follower follows no further.
    Follow(FollowFault),
    /// The link ended before the message that was awaited was whole.
    Closed {
        /// How many bytes of it came in, those of its length among them.
        have: u64,
    },
    /// The link failed to give bytes.
    ReadFault,
    /// The link failed to send bytes. Less than an ask was sent that was to be.
    WriteFault,
}

/// Follows a leader over a link: takes the map, and then, round by round, sends an ask and takes the message that
/// answers it. It takes no byte behind the last message. The follower is one that has taken nothing. It takes memory
/// for what the follower keeps alone.
///
/// # Errors
///
/// - `Follow` where the follower follows no further, with its fault.
/// - `Closed` exactly where the link ended before the message that was awaited was whole, with the bytes that came in
///   of it.
/// - `ReadFault` and `WriteFault` only where the link's count of that direction rose in this call.
pub fn follow_link<L: Link>(
    follower: &mut Follower,
    link: &mut L,
    rounds: u32,
) -> Result<(), LinkFault>
    requires new { follower.old ≡ new_following follower.old.order }
    ensures follows { FollowsLink rounds follower.old (L.at link.old).talk result follower.new
        (L.at link.new).talk }
    ensures read_cause { IsErrOf result LinkFault.ReadFault
        → ReadFails (L.at link.old) (L.at link.new) }
    ensures write_cause { IsErrOf result LinkFault.WriteFault
        → WriteFails (L.at link.old) (L.at link.new) }
    ensures counts { IsLater (L.at link.old) (L.at link.new) }
{
    let mut room = [0; PIECE];
    match take_message(follower, link, room.as_mut_slice()) {
        Ok(()) => follow_rounds(follower, link, room.as_mut_slice(), rounds),
        Err(fault) => Err(fault),
    }
}

/// Goes so many rounds.
///
/// # Errors
///
/// Those of `follow_link`.
fn follow_rounds<L: Link>(
    follower: &mut Follower,
    link: &mut L,
    room: &mut [u8],
    rounds: u32,
) -> Result<(), LinkFault>
    requires even { follower.old.held ≡ [] }
    requires open { follower.old.fault ≡ None }
    requires room { 0 < length room.old }
    ensures all { OnOk result (GoesRounds rounds follower.old (L.at link.old).talk follower.new
        (L.at link.new).talk) }
    ensures some { IfErr result (λ fault. FailsRounds rounds follower.old (L.at link.old).talk fault
        follower.new (L.at link.new).talk) }
    ensures read_cause { IsErrOf result LinkFault.ReadFault
        → ReadFails (L.at link.old) (L.at link.new) }
    ensures write_cause { IsErrOf result LinkFault.WriteFault
        → WriteFails (L.at link.old) (L.at link.new) }
    ensures counts { IsLater (L.at link.old) (L.at link.new) }
{
    for _ in 0..rounds {
        match follow_round(follower, link, room) {
            Ok(()) => {}
            Err(fault) => return Err(fault),
        }
    }
    Ok(())
}

/// Sends an ask, and takes the message that answers it.
///
/// # Errors
///
/// Those of `follow_link`.
fn follow_round<L: Link>(
    follower: &mut Follower,
    link: &mut L,
    room: &mut [u8],
) -> Result<(), LinkFault>
    requires even { follower.old.held ≡ [] }
    requires open { follower.old.fault ≡ None }
    requires room { 0 < length room.old }
    ensures room { length room.new ≡ length room.old }
    ensures even { OnOk result (follower.new.held ≡ []) }
    ensures open { OnOk result (follower.new.fault ≡ None) }
    ensures goes { OnOk result (GoesRound follower.old (L.at link.old).talk follower.new
        (L.at link.new).talk) }
    ensures fails { IfErr result (λ fault. FailsRound follower.old (L.at link.old).talk fault
        follower.new (L.at link.new).talk) }
    ensures read_cause { IsErrOf result LinkFault.ReadFault
        → ReadFails (L.at link.old) (L.at link.new) }
    ensures write_cause { IsErrOf result LinkFault.WriteFault
        → WriteFails (L.at link.old) (L.at link.new) }
    ensures counts { IsLater (L.at link.old) (L.at link.new) }
{
    match send_ask(follower, link) {
        Ok(()) => take_message(follower, link, room),
        Err(Failed) => Err(LinkFault::WriteFault),
    }
}

/// Sends the follower's ask.
///
/// # Errors
///
/// `Failed` where the link failed before all of it was sent.
fn send_ask<L: Link>(follower: &Follower, link: &mut L) -> Result<(), Failed>
    ensures sent { OnOk result ((L.at link.new).talk ≡ with_sent (L.at link.old).talk (ask_of follower.now)) }
    ensures part { OnErr result (SendsPrefix (L.at link.old).talk (L.at link.new).talk (ask_of follower.now)) }
    ensures cause { OnErr result (WriteFails (L.at link.old) (L.at link.new)) }
    ensures counts { OnlyWrites (L.at link.old) (L.at link.new) }
{
    send_all(link, &follower.ask())
}

/// Takes the next message, and no byte behind it.
///
/// # Errors
///
/// Those of `follow_link`, but for `WriteFault`.
fn take_message<L: Link>(
    follower: &mut Follower,
    link: &mut L,
    room: &mut [u8],
) -> Result<(), LinkFault>
    requires even { follower.old.held ≡ [] }
    requires open { follower.old.fault ≡ None }
    requires room { 0 < length room.old }
    ensures room { length room.new ≡ length room.old }
    ensures even { OnOk result (follower.new.held ≡ []) }
    ensures open { OnOk result (follower.new.fault ≡ None) }
    ensures heeds { OnOk result (HeedsFrom follower.old (L.at link.old).talk follower.new
        (L.at link.new).talk) }
    ensures stops { IfErr result (λ fault. StopsFrom follower.old (L.at link.old).talk fault
        follower.new (L.at link.new).talk) }
    ensures cause { IsErrOf result LinkFault.ReadFault
        → ReadFails (L.at link.old) (L.at link.new) }
    ensures counts { OnlyReads (L.at link.old) (L.at link.new) }
{
    let mut wanted = SIZE_BYTES;
    while wanted > 0 {
        match take_piece(follower, link, room, wanted) {
            Ok(()) => wanted = follower.wanted(),
            Err(fault) => return Err(fault),
        }
    }
    Ok(())
}

/// Takes the next bytes of a message of which so many are wanted, at least one.
///
/// # Errors
///
/// Those of `follow_link`, but for `WriteFault`.
fn take_piece<L: Link>(
    follower: &mut Follower,
    link: &mut L,
    room: &mut [u8],
    wanted: usize,
) -> Result<(), LinkFault>
    requires open { follower.old.fault ≡ None }
    requires room { 0 < length room.old }
    requires wanted { 0 < wanted }
    ensures room { length room.new ≡ length room.old }
    ensures open { OnOk result (follower.new.fault ≡ None) }
    ensures piece { OnOk result (TakesPiece wanted follower.old (L.at link.old).talk follower.new
        (L.at link.new).talk) }
    ensures none { IfErr result (λ fault. LacksPiece wanted (length follower.old.held) follower.old
        (L.at link.old).talk fault follower.new (L.at link.new).talk) }
    ensures cause { IsErrOf result LinkFault.ReadFault
        → ReadFails (L.at link.old) (L.at link.new) }
    ensures counts { OnlyReads (L.at link.old) (L.at link.new) }
{
    let most = wanted.min(room.len());
    match take_some(link, &mut room[..most]) {
        Ok(0) => Err(LinkFault::Closed {
            have: follower.held_count(),
        }),
        Ok(count) => give(follower, &room[..count]),
        Err(Failed) => Err(LinkFault::ReadFault),
    }
}

/// Gives the follower a piece.
///
/// # Errors
///
/// `Follow` where it follows no further.
fn give(follower: &mut Follower, piece: &[u8]) -> Result<(), LinkFault>
    requires open { follower.old.fault ≡ None }
    ensures open { OnOk result (follower.new.fault ≡ None) }
    ensures taken { OnOk result (Took follower.old piece.now follower.new) }
    ensures fault { IfErr result (GivesUp follower.old piece.now follower.new) }
{
    match follower.take(piece) {
        Ok(()) => Ok(()),
        Err(fault) => Err(LinkFault::Follow(fault)),
    }
}

/// Takes the next bytes that come in to the front of a room, and says how many; 0 is the end.
///
/// # Errors
///
/// `Failed` where the link failed.
fn take_some<L: Link>(link: &mut L, room: &mut [u8]) -> Result<usize, Failed>
    requires { 0 < length room.old }
    ensures count { IfOk result (λ count. count ≤ length room.old) }
    ensures taken { IfOk result (λ count.
        Takes (L.at link.old).talk (L.at link.new).talk (take count room.new)) }
    ensures end { IfOk result (λ count. count ≡ 0 → NothingLeft (L.at link.new).talk) }
    ensures kept { OnErr result ((L.at link.new).talk ≡ (L.at link.old).talk) }
    ensures cause { OnErr result (ReadFails (L.at link.old) (L.at link.new)) }
    ensures counts { OnlyReads (L.at link.old) (L.at link.new) }
{
    link.recv(room)
}
