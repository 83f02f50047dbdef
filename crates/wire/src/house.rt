//! Opens doors at ports, and connects to the ports of others.
ghost use Rattle.std.specs.Prelude.{◌≡◌, ◌≤◌, All, None, length, vec_len, IfOk, OnOk, OnErr, IsErrOf};
ghost use Rattle.wire.specs.Causes.{Rose};
ghost use Rattle.wire.specs.Talks.{IsUnused};
ghost use Rattle.wire.specs.Houses.{AtHouse, FailsToCall, GivesNone, HasLentDoors, HasLentLink, IsNewPort, IsUnknocked, TellsPort, TellsTalk};
ghost use Rattle.wire.specs.Houses.{with_called, with_doors_lent, with_doors_shut, with_hung_up};
ghost use Rattle.wire.specs.declared.house.HouseError.TheVariants.{NoMemory};

use crate::{Door, Failed, Link};
use std::alloc::{AllocError, Global};
use thiserror::Error;

/// Why no doors were opened.
#[derive(Debug, Clone, Copy, PartialEq, Eq, Error)]
pub enum HouseError {
    /// The system refused.
    #[error("the port cannot be opened")]
    Failed,
    /// Memory for the doors ran out.
    #[error("no memory for the doors")]
    NoMemory,
}

impl From<AllocError> for HouseError {
    ghost from_gives = { λ _ error. error ≡ NoMemory };

    fn from(_: AllocError) -> HouseError {
        HouseError::NoMemory
    }
}

/// A request for doors.
#[derive(Debug, Clone, Copy, Default, PartialEq, Eq)]
pub struct DoorsAsked {
    /// The port to open them at.
    pub port: u16,
    /// How many to open.
    pub count: u32,
}

/// Opens doors at ports, and connects to the ports of others. Doors and links must be handed back.
/// It counts faults of doors, of reading and of writing separately.
pub trait House {
    /// The type of its links.
    type Conn: Link;

    /// The type of its doors.
    type Door: Door;

    /// What is known of it: the requests to it, what it gave and what was handed back, if it tells
    /// it, and its faults.
    ghost at: { Self → AtHouse Self.Door Self.Conn };

    /// Opens `count` doors at a port. Nobody has knocked at them yet. It may be called twice, for
    /// two ports.
    ///
    /// # Errors
    /// `Failed` if the system refuses, and `NoMemory` if memory for the list runs out.
    fn doors(&mut self, alloc: Global, port: u16, count: u32) -> Result<Vec<Self::Door>, HouseError>
        requires once { length (at self.old).asked ≤ 1 }
        requires port { IsNewPort (at self.old).asked port }
        ensures count { IfOk result (λ doors. vec_len doors ≡ count) }
        ensures new { IfOk result (λ doors.
            All (λ door. IsUnknocked (Self.Door.at door)) doors.items) }
        ensures port { IfOk result (λ doors.
            All (λ door. TellsPort (at self.old).lent (Self.Door.at door) port) doors.items) }

        ensures given { OnOk result (at self.new ≡ with_doors_lent (at self.old) port count) }
        ensures none { OnErr result (GivesNone (at self.old) port count (at self.new)) }
        ensures cause { IsErrOf result HouseError.Failed
            → Rose (at self.old).door_faults (at self.new).door_faults }
        ensures otherwise { IsErrOf result HouseError.NoMemory
            → (at self.new).door_faults ≡ (at self.old).door_faults };

    /// Connects to a port, once. On the new link nothing has been received or sent, and no call has
    /// failed.
    ///
    /// # Errors
    /// `Failed` if the connection is refused.
    fn call(&mut self, port: u16) -> Result<Self::Conn, Failed>
        requires { (at self.old).called ≡ None }
        ensures unused { IfOk result (λ link. IsUnused (Self.Conn.at link)) }
        ensures told { IfOk result (λ link. TellsTalk (at self.old).lent (Self.Conn.at link)) }

        ensures given { OnOk result (at self.new ≡ with_called (at self.old) port) }
        ensures failed { OnErr result (FailsToCall (at self.old) port (at self.new)) };

    /// Hands doors back, which closes them.
    fn shut(&mut self, doors: Vec<Self::Door>)
        requires { HasLentDoors (at self.old).lent (vec_len doors) }
        ensures back { at self.new ≡ with_doors_shut Self.Door.at (at self.old) doors.items };

    /// Hands a link back, which ends it.
    fn hang_up(&mut self, link: Self::Conn)
        requires { HasLentLink (at self.old).lent }
        ensures back { at self.new ≡ with_hung_up Self.Conn.at (at self.old) link };
}
