//! Receiving an answer, from its length to its moves.

ghost use Rattle.std.specs.Prelude.{◌≡◌, ◌≤◌, length, IfErr, IfOk, IsErrOf};
ghost use Rattle.byteorder.specs.Endian.{big_bytes};
ghost use Rattle.query_proto.specs.Frames.{IsReplyFrame};
ghost use Rattle.path_client.specs.Asking.{HearsFrom, HearsNothing, IsHeardIn, NotHeardIn, TakesSize};
ghost use Rattle.wire.specs.Talks.{OnlyReads, ReadFails};

use crate::taking::fill;
use crate::{ClientFault, Heard, MoveList};
use byteorder::{BigEndian, ByteOrder};
use query_proto::replies::PATH_HEAD;
use query_proto::{MAX_REPLY, Reply, decode_reply};
use std::alloc::{AllocError, Global};
use wire::Link;

/// How many bytes the length of a reply's frame has.
const SIZE_BYTES: usize = 4;

/// Receives an answer, and takes no byte more. It allocates memory for the frame once its length is known and allowed,
/// and for the moves once the frame is known to be a reply's.
pub(crate) fn hear<L: Link>(alloc: Global, link: &mut L) -> Result<Heard, ClientFault>
    ensures heard { IfOk result (λ heard. HearsFrom (L.at link.old).talk (L.at link.new).talk heard.reply heard.moves) }
    ensures fault { IfErr result (HearsNothing (L.at link.old).talk (L.at link.new).talk) }
    ensures cause { IsErrOf result ClientFault.ReadFault → ReadFails (L.at link.old) (L.at link.new) }
    ensures counts { OnlyReads (L.at link.old) (L.at link.new) }
{
    let size = hear_size(link)?;
    let mut frame = vec![in alloc; 0; size]?;
    fill(link, frame.as_mut_slice(), SIZE_BYTES as u32)?;
    heard_in(alloc, &frame)
}

/// Receives the length of an answer's frame.
fn hear_size<L: Link>(link: &mut L) -> Result<usize, ClientFault>
    ensures size { IfOk result (TakesSize (L.at link.old).talk (L.at link.new).talk) }
    ensures fault { IfErr result (HearsNothing (L.at link.old).talk (L.at link.new).talk) }
    ensures cause { IsErrOf result ClientFault.ReadFault → ReadFails (L.at link.old) (L.at link.new) }
    ensures counts { OnlyReads (L.at link.old) (L.at link.new) }
{
    let mut bytes = [0; SIZE_BYTES];
    fill(link, bytes.as_mut_slice(), 0)?;
    let size = size_of(&bytes);
    if size as usize > MAX_REPLY {
        return Err(ClientFault::Malformed);
    }
    Ok(size as usize)
}

/// The length that these bytes encode.
fn size_of(bytes: &[u8; SIZE_BYTES]) -> u32
    ensures { bytes.now ≡ big_bytes 4 result }
{
    BigEndian::read_u32(bytes)
}

/// What a whole frame encodes.
fn heard_in(alloc: Global, frame: &[u8]) -> Result<Heard, ClientFault>
    requires { length frame.now ≤ MAX_REPLY }
    ensures heard { IfOk result (λ heard. IsHeardIn frame.now heard.reply heard.moves) }
    ensures fault { IfErr result (NotHeardIn frame.now) }
{
    let Ok(reply) = decode_reply(frame) else {
        return Err(ClientFault::Malformed);
    };
    let moves = moves_in(alloc, reply, frame)?;
    Ok(Heard { reply, moves })
}

/// The moves in the frame of a reply.
fn moves_in(alloc: Global, reply: Reply, frame: &[u8]) -> Result<MoveList, AllocError>
    requires { IsReplyFrame reply frame.now }
    ensures { IfOk result (IsHeardIn frame.now reply) }
{
    match reply {
        Reply::Path { .. } => MoveList::of_numbers(alloc, &frame[PATH_HEAD..]),
        _ => Ok(MoveList::none(alloc)),
    }
}
