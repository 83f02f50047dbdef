//! Asks from a follower.

ghost use Rattle.std.specs.Prelude.{◌≡◌, ◌≢◌, slice_index, IfErr, IfOk};
ghost use Rattle.follow_proto.specs.Feeds.{ask_bytes};
ghost use Rattle.follow_proto.specs.declared.kinds.TheConstants.{ASK};

use crate::ASK_SIZE;
use crate::kinds::ASK;
use crate::writing::{put_byte, put_number};
use byteorder::{BigEndian, ByteOrder};

/// An ask for the edits that the follower does not have yet.
#[derive(Clone, Copy, Debug, PartialEq, Eq)]
pub struct Ask {
    /// How many edits it has.
    pub known: u32,
}

/// Decodes an ask from these bytes.
///
/// # Errors
///
/// The first byte, exactly if it is not that of an ask.
pub fn read_ask(bytes: &[u8; ASK_SIZE]) -> Result<Ask, u8>
    ensures ask { IfOk result (λ ask. bytes.now ≡ ask_bytes ask.known) }
    ensures other { IfErr result (λ byte. byte ≡ slice_index bytes.now 0) }
    ensures refused { IfErr result (λ byte. byte ≢ ASK) }
{
    if bytes[0] != ASK {
        return Err(bytes[0]);
    }
    let known = BigEndian::read_u32(&bytes[1..]);
    Ok(Ask { known })
}

/// The bytes of an ask.
pub fn write_ask(ask: Ask) -> [u8; ASK_SIZE]
    ensures { result ≡ ask_bytes ask.known }
{
    let mut bytes = [0; ASK_SIZE];
    let at = put_byte(&mut bytes, 0, ASK);
    put_number(&mut bytes, at, ask.known);
    bytes
}
