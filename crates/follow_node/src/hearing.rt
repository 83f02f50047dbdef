//! What becomes of a follower's board by the frame of a whole message.

ghost use Rattle.std.specs.Prelude.{◌≡◌, ◌↔◌, ℕ, ◌<◌, [], ◌∷◌, cond, Some, None, IfErr, IfNone, IfOk, IfSome, IsFalse, IsTrue, OnErr, OnOk, length, option_map, slice_index};
ghost use Rattle.std.specs.List.{slice_index_or};
ghost use Rattle.moves.specs.Maps.{IsSearchable};
ghost use Rattle.path_core.specs.Histories.{accepted_count, published_prefix};
ghost use Rattle.path_core.specs.Refusals.{MayBeSubmitted};
ghost use Rattle.follow_proto.specs.Feeds.Message.{Ahead, Edits, NoMemory as NoMemoryThere};
ghost use Rattle.follow_node.specs.declared.faults.FollowFault.TheVariants.{NoMemory};
ghost use Rattle.follow_node.specs.Following.{followed_of, new_followed, with_edits, with_published, Judges, JudgesOrHalts};
ghost use Rattle.follow_node.specs.Hearing.{AcceptsAll, AcceptsFront, Begins, BeginsNot, GoesOn, GoesOnOrHalts};
ghost use Rattle.follow_node.specs.Hearing.{IsFaultOf, IsSubmitFault, SubmitsAll, SubmitsFront};
ghost use Rattle.follow_node.specs.Reading.{Spells, SpellsNoEdits};

use crate::building::{build_version, publish_next};
use crate::edits::{Sent, edits_in};
use crate::faults::FollowFault;
use crate::reading::number_at;
use crate::starts::start_in;
use cell_order::OrderKind;
use edit_log::EditList;
use follow_proto::kinds::{AHEAD, EDITS, NO_MEMORY};
use moves::Grid;
use path_core::{Board, SubmitError};
use std::alloc::{AllocError, Global};

/// Makes of the board what the frame of a whole message asks for. The message begins at that place of the stream.
///
/// # Errors
///
/// Why the follower follows no further.
pub(crate) fn hear(
    alloc: Global,
    kind: OrderKind,
    board: &mut Option<Board>,
    frame: &[u8],
    at: u64,
) -> Result<(), FollowFault>
    ensures heard { OnOk result (Judges kind (option_map followed_of board.old) frame.now at None
        (option_map followed_of board.new)) }
    ensures fault { IfErr result (λ fault. JudgesOrHalts kind (option_map followed_of board.old)
        frame.now at (Some fault) (option_map followed_of board.new)) }
{
    match board.take() {
        None => {
            *board = Some(begin(alloc, kind, frame, at)?);
            Ok(())
        }
        Some(mut known) => {
            let heard = go_on(alloc, &mut known, frame, at);
            *board = Some(known);
            heard
        }
    }
}

/// The board that begins with the map of the first message.
///
/// # Errors
///
/// `Bad` where the frame is not that of a map, and `NoMemory` where memory runs out.
fn begin(alloc: Global, kind: OrderKind, frame: &[u8], at: u64) -> Result<Board, FollowFault>
    ensures board { IfOk result (λ board. Begins kind frame.now (followed_of board)) }
    ensures fault { IfErr result (BeginsNot frame.now at) }
{
    match start_in(alloc, frame)? {
        Some(grid) => Ok(first_board(alloc, kind, grid)?),
        None => Err(FollowFault::Bad { at }),
    }
}

/// The board of a map, with its first version.
///
/// # Errors
///
/// `AllocError` where memory runs out.
fn first_board(alloc: Global, kind: OrderKind, grid: Grid) -> Result<Board, AllocError>
    requires { IsSearchable grid }
    ensures { IfOk result (λ board. followed_of board ≡ new_followed kind grid) }
{
    let version = build_version(alloc, None, grid.copy()?, 0, kind)?;
    Board::start(alloc, grid, version)
}

/// Makes of the board what a message behind the first one asks for.
///
/// # Errors
///
/// Why the follower follows no further.
fn go_on(alloc: Global, board: &mut Board, frame: &[u8], at: u64) -> Result<(), FollowFault>
    ensures heard { OnOk result
        (GoesOn (followed_of board.old) frame.now at None (followed_of board.new)) }
    ensures fault { IfErr result (λ fault. GoesOnOrHalts (followed_of board.old) frame.now at
        (Some fault) (followed_of board.new)) }
{
    if has_edits(frame) {
        take_edits(alloc, board, frame, at)
    } else {
        Err(fault_in(frame, at))
    }
}

/// Whether a frame is of the kind that has edits.
fn has_edits(frame: &[u8]) -> bool
    ensures kind { IsTrue result → slice_index frame.now 0 ≡ EDITS }
    ensures other { IsFalse result → SpellsNoEdits frame.now }
{
    if frame.is_empty() {
        return false;
    }
    frame[0] == EDITS
}

/// What a frame says that has no edits.
fn fault_in(frame: &[u8], at: u64) -> FollowFault
    ensures { IsFaultOf frame.now at result }
{
    if let Some(accepted) = ahead_in(frame) {
        return FollowFault::Ahead { accepted };
    }
    if is_no_memory(frame) {
        return FollowFault::LeaderMemory;
    }
    FollowFault::Bad { at }
}

/// How many edits the leader accepted, where a frame says that it is fewer than are known.
fn ahead_in(frame: &[u8]) -> Option<u32>
    ensures some { IfSome result (λ accepted. Spells frame.now (Ahead accepted)) }
    ensures none { IfNone result ((accepted : ℕ) → Spells frame.now (Ahead accepted) → ⊥) }
{
    if frame.len() != 5 {
        return None;
    }
    if frame[0] != AHEAD {
        return None;
    }
    Some(number_at(frame, 1))
}

/// Whether a frame says that the leader had no memory.
fn is_no_memory(frame: &[u8]) -> bool
    ensures { IsTrue result ↔ Spells frame.now NoMemoryThere }
{
    if frame.len() != 1 {
        return false;
    }
    frame[0] == NO_MEMORY
}

/// Accepts the edits of a message, and publishes a version with them where there are any.
///
/// # Errors
///
/// `Bad` where the edits do not go on from the accepted ones or one of them may not be accepted, and `NoMemory` where
/// memory runs out. Those before that one are accepted.
fn take_edits(alloc: Global, board: &mut Board, frame: &[u8], at: u64) -> Result<(), FollowFault>
    requires kind { slice_index frame.now 0 ≡ EDITS }
    ensures heard { OnOk result
        (GoesOn (followed_of board.old) frame.now at None (followed_of board.new)) }
    ensures fault { IfErr result (λ fault. GoesOnOrHalts (followed_of board.old) frame.now at
        (Some fault) (followed_of board.new)) }
{
    let Ok(found) = edits_in(alloc, frame) else {
        return Err(FollowFault::NoMemory);
    };
    match found {
        Some(sent) => take_sent(alloc, board, frame, &sent, at),
        None => Err(FollowFault::Bad { at }),
    }
}

/// Accepts the edits that a frame spells, where they go on from the accepted ones.
///
/// # Errors
///
/// Those of `take_edits`.
fn take_sent(
    alloc: Global,
    board: &mut Board,
    frame: &[u8],
    sent: &Sent,
    at: u64,
) -> Result<(), FollowFault>
    requires spelled { Spells frame.now (Edits sent.now.known sent.now.edits.edits) }
    ensures heard { OnOk result
        (GoesOn (followed_of board.old) frame.now at None (followed_of board.new)) }
    ensures fault { IfErr result (λ fault. GoesOnOrHalts (followed_of board.old) frame.now at
        (Some fault) (followed_of board.new)) }
{
    if sent.known != board.accepted() {
        return Err(FollowFault::Bad { at });
    }
    accept_all(alloc, board, &sent.edits, at)
}

/// Accepts edits, one after the other, and publishes a version with them where there are any.
///
/// # Errors
///
/// `Bad` at the first one that may not be accepted, and `NoMemory` where memory runs out. Those before it are accepted.
fn accept_all(
    alloc: Global,
    board: &mut Board,
    edits: &EditList,
    at: u64,
) -> Result<(), FollowFault>
    ensures all { OnOk result
        (AcceptsAll (followed_of board.old) edits.now.edits (followed_of board.new)) }
    ensures fault { IfErr result (λ fault.
        AcceptsFront (followed_of board.old) edits.now.edits at fault (followed_of board.new)) }
{
    match submit_all(board, edits, at) {
        Ok(()) => publish_after(alloc, board, edits.is_empty()),
        Err(fault) => Err(fault),
    }
}

/// Publishes a version after all accepted edits, unless none is new.
///
/// # Errors
///
/// `NoMemory` where memory runs out. The board is as before.
fn publish_after(alloc: Global, board: &mut Board, none: bool) -> Result<(), FollowFault>
    requires { IsFalse none → published_prefix board.old.history < accepted_count board.old.history }
    ensures published { OnOk result (followed_of board.new
        ≡ cond none (followed_of board.old) (with_published (followed_of board.old))) }
    ensures fault { IfErr result (λ fault. fault ≡ NoMemory) }
    ensures refused { OnErr result (board.new ≡ board.old) }
{
    if none {
        return Ok(());
    }
    match publish_next(alloc, board) {
        Ok(()) => Ok(()),
        Err(_) => Err(FollowFault::NoMemory),
    }
}

/// Accepts edits, one after the other.
///
/// # Errors
///
/// `Bad` at the first one that may not be accepted, and `NoMemory` where memory runs out. Those before it are accepted.
fn submit_all(board: &mut Board, edits: &EditList, at: u64) -> Result<(), FollowFault>
    ensures all { OnOk result
        (SubmitsAll (followed_of board.old) edits.now.edits (followed_of board.new)) }
    ensures fault { IfErr result (λ fault.
        SubmitsFront (followed_of board.old) edits.now.edits at fault (followed_of board.new)) }
{
    // That the history is legal is known from here.
    board.entries();
    for place in 0..edits.len() {
        match submit(board, edits, place, at) {
            Ok(()) => {}
            Err(fault) => return Err(fault),
        }
    }
    Ok(())
}

/// Accepts the edit at that place.
///
/// # Errors
///
/// `Bad` where it may not be accepted, and `NoMemory` where memory runs out. The board is as before.
fn submit(board: &mut Board, edits: &EditList, place: u32, at: u64) -> Result<(), FollowFault>
    requires { place < length edits.now.edits }
    ensures entered { OnOk result (followed_of board.new
        ≡ with_edits (followed_of board.old) (slice_index_or edits.now.edits place [] ∷ [])) }
    ensures may { OnOk result (MayBeSubmitted board.old (slice_index_or edits.now.edits place [])) }
    ensures fault { IfErr result (IsSubmitFault (followed_of board.old)
        (slice_index_or edits.now.edits place []) at) }
    ensures as_before { OnErr result (board.new ≡ board.old) }
{
    let edit = edits.get(place).unwrap();
    match board.submit(0, edit) {
        Ok(_) => Ok(()),
        Err(SubmitError::Refused(_)) => Err(FollowFault::Bad { at }),
        Err(SubmitError::NoMemory) => Err(FollowFault::NoMemory),
    }
}
