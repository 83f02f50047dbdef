//! `follow PORT ROUNDS`: a leader's edits over a link, and then a session over the input, on the board that they make.

ghost use Rattle.std.specs.Prelude.{◌≡◌, ◌⊎◌, None, Some, IfErr, IfOk, IsErrOf, IsSome, OnErr, string_bytes};
ghost use Rattle.wire.specs.Causes.{Rose};
ghost use Rattle.path_core.specs.Histories.{published_prefix, IsVersionAt};
ghost use Rattle.follow_node.specs.Following.{followed_of};
ghost use Rattle.follow_node.specs.Streams.{new_following};
ghost use Rattle.path_commands.specs.declared.status.Status.{Status};
ghost use Rattle.path_commands.specs.Asks.{CallsInVain, HasGivenNone, house_over};
ghost use Rattle.path_commands.specs.Talks.{input_over};
ghost use Rattle.node_commands.specs.Followings.{CallsLeader, EndsByLink, EndsOn, ReadFails, WriteFails, Follows, FollowsBoard, IsBadFeed};
ghost use Rattle.node_commands.specs.Followings.{IsFollowCause, IsLeaderMemory, TellsCause};
ghost use Rattle.node_commands.specs.Followings.{following_text, status_followed};
ghost use Rattle.wire.specs.Houses.{OnlyCalls};

use build_pool::Gate;
use follow_node::{FollowFault, Follower, LinkFault, follow_link};
use path_commands::serving::{put_cause, put_no_memory};
use path_commands::talk::hold;
use path_commands::{FollowAsked, Means, Status, Watch};
use path_core::Board;
use std::alloc::{AllocError, Global};
use std::fmt::Write;
use std::sync::Wait;
use std::thread::Threads;
use wire::{Bell, Failed, House, Link, Sink, put_all};

/// How many threads build a version in the session.
const WORKERS: u32 = 1;

/// Follows the leader at a port, prints how many edits were accepted, and holds a session over the input on the board
/// that they make. The link is closed before anything is printed, and nothing is printed during the session. If there
/// is no such board, prints the line of the cause.
///
/// # Errors
///
/// - `BadAnswer` exactly if what came in is not valid there, ended inside a message, or says that the leader has fewer
///   edits.
/// - `LeaderMemory` exactly if it says that the leader ran out of memory.
/// - `ReadFault` if nobody answers at the port, or the link or the input failed to receive.
/// - `WriteFault` if the output did not take the line, or the link or the input failed to send.
/// - `NoMemory` if memory ran out before the session.
/// - `Broken` if the input of the session ends inside a frame or has one that is too long.
pub fn follow<L: Link, H: House, O: Sink, B: Bell, G: Watch, R: Threads + Wait + Sync>(
    means: &Means<R, B, G>,
    asked: FollowAsked,
    input: &mut L,
    house: &mut H,
    out: &mut O,
) -> Status
    requires uncalled { (H.at house.old).called ≡ None }
    requires unlent { HasGivenNone (H.at house.old).lent }
    ensures ends { Follows
        (house_over H.Door.at H.Conn.at (H.at house.old) (H.at house.new))
        asked (input_over (L.at input.old) (L.at input.new))
        (O.bytes out.old) (O.bytes out.new) result }
    ensures read { result ≡ Status.ReadFault → ReadFails
        (house_over H.Door.at H.Conn.at (H.at house.old) (H.at house.new))
        (input_over (L.at input.old) (L.at input.new)) }
    ensures write { result ≡ Status.WriteFault → WriteFails (O.faults out.old)
        (O.faults out.new)
        (house_over H.Door.at H.Conn.at (H.at house.old) (H.at house.new))
        (input_over (L.at input.old) (L.at input.new)) }
    ensures bad_answer { result ≡ Status.BadAnswer → EndsByLink
        (house_over H.Door.at H.Conn.at (H.at house.old) (H.at house.new))
        asked (input_over (L.at input.old) (L.at input.new)) IsBadFeed }
    ensures leader_memory { result ≡ Status.LeaderMemory → EndsByLink
        (house_over H.Door.at H.Conn.at (H.at house.old) (H.at house.new))
        asked (input_over (L.at input.old) (L.at input.new)) IsLeaderMemory }
    ensures called { (H.at house.new).called ≡ Some asked.port }
    ensures only { OnlyCalls (H.at house.old) (H.at house.new) }
{
    match follow_leader(means.alloc, asked, house) {
        Ok(board) => hold_told(means, board, input, out),
        Err(cause) => tell_cause(means.alloc, out, cause),
    }
}

/// Returns the board of a new follower after all rounds. The link is closed by then.
///
/// # Errors
///
/// The reason why there is none.
fn follow_leader<H: House>(
    alloc: Global,
    asked: FollowAsked,
    house: &mut H,
) -> Result<Board, Status>
    requires uncalled { (H.at house.old).called ≡ None }
    requires unlent { HasGivenNone (H.at house.old).lent }
    ensures followed { IfOk result (FollowsBoard
        (house_over H.Door.at H.Conn.at (H.at house.old) (H.at house.new))
        asked) }
    ensures refused { IfErr result (IsFollowCause
        (house_over H.Door.at H.Conn.at (H.at house.old) (H.at house.new))
        asked) }
    ensures called { (H.at house.new).called ≡ Some asked.port }
    ensures only { OnlyCalls (H.at house.old) (H.at house.new) }
{
    let mut follower = Follower::new(alloc, asked.order);
    match call_leader(&mut follower, asked, house) {
        Ok(Ok(())) => Ok(board_of(follower)),
        Ok(Err(fault)) => Err(status_followed(fault)),
        Err(Failed) => Err(Status::ReadFault),
    }
}

/// Connects to the port, follows over the link, and closes it.
///
/// # Errors
///
/// `Failed` if nobody answers at the port.
fn call_leader<H: House>(
    follower: &mut Follower,
    asked: FollowAsked,
    house: &mut H,
) -> Result<Result<(), LinkFault>, Failed>
    requires new { follower.old ≡ new_following asked.order }
    requires uncalled { (H.at house.old).called ≡ None }
    requires unlent { HasGivenNone (H.at house.old).lent }
    ensures calls { IfOk result (λ followed. CallsLeader
        (house_over H.Door.at H.Conn.at (H.at house.old) (H.at house.new))
        asked followed follower.new) }
    ensures vain { OnErr result (CallsInVain
        (house_over H.Door.at H.Conn.at (H.at house.old) (H.at house.new))
        asked.port) }
    ensures refused { OnErr result (Rose (H.at house.old).read_faults (H.at house.new).read_faults) }
    ensures reads { IfOk result (λ followed. IsErrOf followed LinkFault.ReadFault
        → Rose (H.at house.old).read_faults (H.at house.new).read_faults) }
    ensures writes { IfOk result (λ followed. IsErrOf followed LinkFault.WriteFault
        → Rose (H.at house.old).write_faults (H.at house.new).write_faults) }
    ensures called { (H.at house.new).called ≡ Some asked.port }
    ensures only { OnlyCalls (H.at house.old) (H.at house.new) }
{
    let mut link = house.call(asked.port)?;
    let followed = follow_link(follower, &mut link, asked.rounds);
    house.hang_up(link);
    Ok(followed)
}

/// Returns the board of a follower that was fed.
fn board_of(follower: Follower) -> Board
    requires { IsSome follower.board }
    ensures board { follower.board ≡ Some (followed_of result) }
    ensures version { IsVersionAt result.start result.order result.history
        (published_prefix result.history) result.version }
{
    let Some(board) = follower.into_board() else {
        unreachable!()
    };
    // From here on, its version is known to be the published one.
    board.version();
    board
}

/// Returns the status of a run whose link could not be followed any further.
fn status_followed(fault: LinkFault) -> Status
    ensures { result ≡ status_followed fault }
{
    match fault {
        LinkFault::Follow(FollowFault::Bad { .. } | FollowFault::Ahead { .. }) => Status::BadAnswer,
        LinkFault::Follow(FollowFault::LeaderMemory) => Status::LeaderMemory,
        LinkFault::Follow(FollowFault::NoMemory) => Status::NoMemory,
        LinkFault::Closed { .. } => Status::BadAnswer,
        LinkFault::ReadFault => Status::ReadFault,
        LinkFault::WriteFault => Status::WriteFault,
    }
}

/// Prints the line of the cause, unless a link failed to send.
fn tell_cause<O: Sink>(alloc: Global, out: &mut O, cause: Status) -> Status
    ensures put { TellsCause (O.bytes out.old) (O.bytes out.new) cause result }
    ensures write { result ≡ Status.WriteFault
        → (cause ≡ Status.WriteFault) ⊎ Rose (O.faults out.old) (O.faults out.new) }
{
    if cause == Status::WriteFault {
        return cause;
    }
    put_cause(alloc, out, cause)
}

/// Prints how many edits a board has, and holds a session on it over the input.
fn hold_told<L: Link, O: Sink, B: Bell, G: Gate, R: Threads + Wait + Sync>(
    means: &Means<R, B, G>,
    board: Board,
    input: &mut L,
    out: &mut O,
) -> Status
    ensures ends { EndsOn board (input_over (L.at input.old) (L.at input.new))
        (O.bytes out.old) (O.bytes out.new) result }
    ensures write { result ≡ Status.WriteFault → Rose (O.faults out.old) (O.faults out.new)
        ⊎ Rose (L.at input.old).write_faults (L.at input.new).write_faults }
{
    let Ok(line) = following_text(means.alloc, board.accepted()) else {
        return put_no_memory(out);
    };
    match put_all(out, line.as_bytes()) {
        Ok(()) => hold(means, board, WORKERS, input),
        Err(Failed) => Status::WriteFault,
    }
}

/// Returns the line with the number of accepted edits.
fn following_text(alloc: Global, accepted: u32) -> Result<String, AllocError>
    ensures { IfOk result (λ text. string_bytes text ≡ following_text accepted) }
{
    let mut text = String::new(alloc);
    write!(text, "following {accepted}\n")?;
    Ok(text)
}
