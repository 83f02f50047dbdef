//! Where connections come in.
ghost use Rattle.std.specs.Prelude.{◌≡◌, ◌≤◌, OnOk, OnErr};
ghost use Rattle.wire.specs.Causes.{Rose};
ghost use Rattle.wire.specs.Knocks.{AtDoor, IfConn, IsBack, IsKnock, TellsToo, HasLent};
ghost use Rattle.wire.specs.Talks.{IsUnused};

use crate::{Failed, Link};

/// What a knock at a door finds.
#[derive(Debug, Drop)]
pub enum Knock<C> {
    /// A connection.
    Conn(C),
    /// Nobody has connected yet.
    Quiet,
    /// Nobody will connect any more.
    Closed,
}

/// A listener, which gives connections one after another. Each must be handed back with `done`.
pub trait Door: Drop + Send {
    /// The type of its connections.
    type Conn: Link;

    /// What is known of it: the talks over the connections that were handed back and the number of
    /// connections lent, if it tells them; whether it answered `Closed`, its faults, and its port,
    /// if it tells it.
    ghost at: { Self → AtDoor };

    /// Waits a short while for a connection. On a new connection nothing has been received or sent,
    /// and no call has failed.
    fn knock(&mut self) -> Result<Knock<Self::Conn>, Failed>
        ensures unused { IfConn result (λ conn. IsUnused (Self.Conn.at conn)) }
        ensures told { IfConn result (λ conn. TellsToo (at self.old) (Self.Conn.at conn)) }
        ensures knock { IsKnock (at self.old) result (at self.new) }

        ensures cause { OnErr result (Rose (at self.old).faults (at self.new).faults) }
        ensures otherwise { OnOk result ((at self.new).faults ≡ (at self.old).faults) }
        ensures later { (at self.old).faults ≤ (at self.new).faults };

    /// Hands a connection back, which ends it.
    fn done(&mut self, conn: Self::Conn)
        requires { HasLent (at self.old) }
        ensures back { IsBack (at self.old) (Self.Conn.at conn) (at self.new) };
}
