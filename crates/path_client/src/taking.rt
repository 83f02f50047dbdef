//! Bytes taken from a link.

ghost use Rattle.std.specs.Prelude.{◌≡◌, ◌+◌, ◌<◌, ◌≤◌, ◌^◌, length, take, IfErr, IfOk, IsErrOf, OnOk};
ghost use Rattle.path_client.specs.Taking.{Takes, TakesPart};
ghost use Rattle.wire.specs.Talks.{OnlyReads, ReadFails};

use crate::ClientFault;
use wire::{Failed, Link};

/// Fills a room with the next bytes that come in, and takes no byte more. `held` bytes of the answer came in before.
///
/// # Errors
///
/// `Closed`, with the number of bytes held then, exactly if the link ends before the room is full, and `ReadFault`.
pub(crate) fn fill<L: Link>(link: &mut L, room: &mut [u8], held: u32) -> Result<(), ClientFault>
    requires { held + length room.old < 2 ^ 32 }
    ensures all { OnOk result (Takes (L.at link.old).talk (L.at link.new).talk room.new) }
    ensures part { IfErr result (TakesPart (L.at link.old).talk (L.at link.new).talk (length room.old) held) }
    ensures cause { IsErrOf result ClientFault.ReadFault → ReadFails (L.at link.old) (L.at link.new) }
    ensures counts { OnlyReads (L.at link.old) (L.at link.new) }
{
    let mut count = 0;
    while count < room.len() {
        count += take_some(link, &mut room[count..], held + count as u32)?;
    }
    Ok(())
}

/// Takes the next bytes that come in to the front of a room, at least one, and says how many.
fn take_some<L: Link>(link: &mut L, room: &mut [u8], held: u32) -> Result<usize, ClientFault>
    requires { 0 < length room.old }
    ensures some { IfOk result (λ count. 0 < count) }
    ensures count { IfOk result (λ count. count ≤ length room.old) }
    ensures taken { IfOk result (λ count. Takes (L.at link.old).talk (L.at link.new).talk (take count room.new)) }
    ensures none { IfErr result (TakesPart (L.at link.old).talk (L.at link.new).talk (length room.old) held) }
    ensures cause { IsErrOf result ClientFault.ReadFault → ReadFails (L.at link.old) (L.at link.new) }
    ensures counts { OnlyReads (L.at link.old) (L.at link.new) }
{
    match link.recv(room) {
        Ok(0) => Err(ClientFault::Closed { have: held }),
        Ok(count) => Ok(count),
        Err(Failed) => Err(ClientFault::ReadFault),
    }
}
