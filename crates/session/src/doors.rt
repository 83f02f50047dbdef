//! A loop at a door, which holds a talk over each connection that comes in.

ghost use Rattle.std.specs.Prelude.{◌≡◌, ◌<◌, ◌-◌, false, IfNone, IfSome};
ghost use Rattle.path_core.specs.Histories.{IsHalting};
ghost use Rattle.path_core.specs.Passes.{OthersAdd};
ghost use Rattle.path_board.specs.Passes.{seen_of};
ghost use Rattle.wire.specs.Knocks.{HasLent, TellsToo};
ghost use Rattle.wire.specs.Talks.{IsUnused};
ghost use Rattle.session.specs.declared.doors.DoorEnded.TheVariants.{Halting};
ghost use Rattle.session.specs.Doors.{DoorEndsSo, GoesOnOrEnds, HasServed, HasServedOne, HoldsTalk, LooksBetween, MovesOn, LendsTheSame};
ghost use Rattle.session.specs.Seats.{place_of, standing_of};
ghost use Rattle.session.specs.Standing.{HoldsSince, stands};
ghost use Rattle.session.specs.Trades.{FitsAt, IsFedTalk, IsHeldBy, feeds_at};

use crate::desk::Desk;
use crate::means::Means;
use crate::seated::Seated;
use crate::sessions::serve_link;
use crate::trades::Trade;
use build_pool::Gate;
use feed_node::feed_link;
use std::sync::Wait;
use std::thread::Threads;
use versions::Version;
use wire::{Bell, Door, Knock, Link};

/// How a loop at a door ended.
#[derive(Clone, Copy, Debug, PartialEq, Eq)]
pub enum DoorEnded {
    /// The board halts.
    Halting,
    /// No more connections will come to the door.
    Closed,
    /// A knock at the door failed.
    Failed,
}

/// Holds a talk over each connection that comes to a door, one after the other, until the board halts, no more will
/// come, or a knock fails. Each connection is returned to the door, however its talk ended. After each it looks at the
/// board, and goes on to the next only if the board does not halt.
pub fn door_loop<B: Bell, D: Door, R: Threads + Wait + Sync, G: Gate>(
    means: &Means<'_, R, G>,
    trade: &Trade<'_>,
    seat: &mut Seated<'_, B>,
    door: &mut D,
) -> DoorEnded
    requires fits { FitsAt trade.now (place_of seat.old.pass) }
    requires open { (D.at door.old).closed ≡ false }
    ensures place { place_of seat.new.pass ≡ place_of seat.old.pass }
    ensures served { HasServed (IsHeldBy trade.now)
        (feeds_at trade.now) (place_of seat.old.pass) (standing_of seat.old.pass)
        (D.at door.old).talks (standing_of seat.new.pass) (D.at door.new).talks }
    ensures ended { DoorEndsSo result (seen_of seat.new.pass) (D.at door.old) (D.at door.new) }
    ensures lent { LendsTheSame (D.at door.old) (D.at door.new) }
    ensures port { (D.at door.new).port ≡ (D.at door.old).port }
{
    for _ in means.rt.forever() {
        match serve_knock(means, trade, seat, door) {
            Some(ended) => return ended,
            None => {}
        }
    }
    unreachable!()
}

/// Knocks once, and serves the connection that comes, if one comes. `None` if the loop goes on.
fn serve_knock<B: Bell, D: Door, R: Threads + Wait + Sync, G: Gate>(
    means: &Means<'_, R, G>,
    trade: &Trade<'_>,
    seat: &mut Seated<'_, B>,
    door: &mut D,
) -> Option<DoorEnded>
    requires fits { FitsAt trade.now (place_of seat.old.pass) }
    requires open { (D.at door.old).closed ≡ false }
    ensures place { place_of seat.new.pass ≡ place_of seat.old.pass }
    ensures served { HasServed (IsHeldBy trade.now)
        (feeds_at trade.now) (place_of seat.old.pass) (standing_of seat.old.pass)
        (D.at door.old).talks (standing_of seat.new.pass) (D.at door.new).talks }
    ensures ended { GoesOnOrEnds result (seen_of seat.new.pass) (D.at door.old) (D.at door.new) }
    ensures lent { LendsTheSame (D.at door.old) (D.at door.new) }
    ensures port { (D.at door.new).port ≡ (D.at door.old).port }
{
    match door.knock() {
        Ok(Knock::Conn(conn)) => {
            serve_conn(means, trade, seat, door, conn);
            pause(means.rt, seat)
        }
        Ok(Knock::Quiet) => pause(means.rt, seat),
        Ok(Knock::Closed) => Some(DoorEnded::Closed),
        Err(_) => Some(DoorEnded::Failed),
    }
}

/// Holds a talk over a connection, and returns it to the door.
fn serve_conn<B: Bell, D: Door, R: Threads + Wait + Sync, G: Gate>(
    means: &Means<'_, R, G>,
    trade: &Trade<'_>,
    seat: &mut Seated<'_, B>,
    door: &mut D,
    conn: D::Conn,
)
    requires fits { FitsAt trade.now (place_of seat.old.pass) }
    requires unused { IsUnused (D.Conn.at conn) }
    requires told { TellsToo (D.at door.old) (D.Conn.at conn) }
    requires lent { HasLent (D.at door.old) }
    ensures place { place_of seat.new.pass ≡ place_of seat.old.pass }
    ensures served { HasServedOne (IsHeldBy trade.now)
        (feeds_at trade.now) (place_of seat.old.pass) (standing_of seat.old.pass)
        (D.at door.old).talks (standing_of seat.new.pass) (D.at door.new).talks }
    ensures back { IfSome (D.at door.old).talks (λ _. (D.at door.new).lent ≡ (D.at door.old).lent - 1) }
    ensures closed { (D.at door.new).closed ≡ (D.at door.old).closed }
    ensures faults { (D.at door.new).faults ≡ (D.at door.old).faults }
    ensures port { (D.at door.new).port ≡ (D.at door.old).port }
{
    let mut conn = conn;
    hold_talk(means, trade, seat, &mut conn);
    door.done(conn);
}

/// Holds a talk over a link that has just come in: a feed or a session, by the pass. Only the counts of the link show a
/// fault.
fn hold_talk<B: Bell, L: Link, R: Threads + Wait + Sync, G: Gate>(
    means: &Means<'_, R, G>,
    trade: &Trade<'_>,
    seat: &mut Seated<'_, B>,
    link: &mut L,
)
    requires fits { FitsAt trade.now (place_of seat.old.pass) }
    requires unused { IsUnused (L.at link.old) }
    ensures place { place_of seat.new.pass ≡ place_of seat.old.pass }
    ensures on { MovesOn (feeds_at trade.now) (place_of seat.old.pass)
        (standing_of seat.old.pass) (standing_of seat.new.pass) }
    ensures held { IfSome (L.at link.old).talk (λ _. HoldsTalk
        (IsHeldBy trade.now) (place_of seat.old.pass)
        (standing_of seat.old.pass) (L.at link.new) (standing_of seat.new.pass)) }
{
    match trade.start_by(seat.pass.number()) {
        Some(start) => feed(means, start, seat, link),
        None => {
            let _ended = serve_link(means.rt, means.alloc, seat, link, means.workers, means.gate);
        }
    }
}

/// Feeds over a link that has just come in. It enters nothing.
fn feed<B: Bell, L: Link, R: Wait, G>(
    means: &Means<'_, R, G>,
    start: &Version,
    seat: &mut Seated<'_, B>,
    link: &mut L,
)
    requires start { start.now.map ≡ (place_of seat.old.pass).start }
    requires unused { IsUnused (L.at link.old) }
    ensures place { place_of seat.new.pass ≡ place_of seat.old.pass }
    ensures others { OthersAdd seat.old.pass.number (seen_of seat.old.pass)
        (seen_of seat.new.pass) }
    ensures holds { HoldsSince (standing_of seat.old.pass) (standing_of seat.new.pass) }
    ensures held { IfSome (L.at link.old).talk (λ _. HoldsTalk (IsFedTalk start.now.map)
        (place_of seat.old.pass) (standing_of seat.old.pass) (L.at link.new)
        (standing_of seat.new.pass)) }
{
    let _ended = feed_link(
        means.rt,
        means.alloc,
        seat.board,
        &mut seat.pass,
        start,
        link,
    );
}

/// Looks at the board, and ends the loop if it halts.
fn pause<K: Desk, R: Wait>(rt: &R, desk: &mut K) -> Option<DoorEnded>
    ensures place { (K.at desk.new).place ≡ (K.at desk.old).place }
    ensures looks { LooksBetween (K.at desk.old).place (stands (K.at desk.old))
        (stands (K.at desk.new)) }
    ensures halts { IfSome result (λ ended. (ended ≡ Halting)
        × IsHalting (K.at desk.new).seen) }
    ensures on { IfNone result (IsHalting (K.at desk.new).seen → ⊥) }
{
    if desk.look(rt).halting {
        return Some(DoorEnded::Halting);
    }
    None
}
