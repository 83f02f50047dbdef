//! One request out, one answer in.

ghost use Rattle.std.specs.Prelude.{◌≡◌, ◌≢◌, ◌≤◌, IfErr, IsErrOf, OnErr, OnOk};
ghost use Rattle.query_proto.specs.declared.replies.Reply.TheVariants.{Welcome};
ghost use Rattle.query_proto.specs.Frames.{kind_of};
ghost use Rattle.path_client.specs.Asking.{Asked, Exchanged, IsGreeted, IsNotGreeted, SendsRequest, SendsRequestPart};
ghost use Rattle.wire.specs.Talks.{IsLater, OnlyWrites, ReadFails, WriteFails};

use crate::hearing::hear;
use crate::{ClientFault, Heard};
use query_proto::{Proto, REQUEST_ROOM, Reply, Request, encode_request, fits};
use std::alloc::Global;
use wire::{Failed, Link, send_all};

/// Sends a request over a link and receives the answer: it takes the answer from the link, and no byte more. A request
/// that the first protocol does not have is sent after a Hello, once Welcome has answered it. Only the answers take
/// memory.
///
/// # Errors
///
/// - `Malformed` exactly if what came in is not an answer: a length above 32,780, or a whole frame that no reply has.
/// - `Closed` exactly if the link ended before a whole answer, with the number of bytes of it that came in.
/// - `OldServer` exactly if the answer to the Hello is not Welcome, with its first byte.
/// - `ReadFault` and `WriteFault` only if the link's count for that direction rose in this call.
/// - `NoMemory` if memory runs out.
pub fn ask<L: Link>(alloc: Global, link: &mut L, request: Request) -> Result<Heard, ClientFault>
    ensures asked { Asked request (L.at link.old).talk result (L.at link.new).talk }
    ensures read_cause { IsErrOf result ClientFault.ReadFault
        → ReadFails (L.at link.old) (L.at link.new) }
    ensures write_cause { IsErrOf result ClientFault.WriteFault
        → WriteFails (L.at link.old) (L.at link.new) }
    ensures counts { IsLater (L.at link.old) (L.at link.new) }
{
    if fits(&request, Proto::One) {
        return exchange(alloc, link, &request);
    }
    match greet(alloc, link) {
        Ok(()) => exchange(alloc, link, &request),
        Err(fault) => Err(fault),
    }
}

/// Asks for the second protocol.
fn greet<L: Link>(alloc: Global, link: &mut L) -> Result<(), ClientFault>
    ensures greeted { OnOk result (IsGreeted (L.at link.old).talk (L.at link.new).talk) }
    ensures other { IfErr result (IsNotGreeted (L.at link.old).talk (L.at link.new).talk) }
    ensures read_cause { IsErrOf result ClientFault.ReadFault
        → ReadFails (L.at link.old) (L.at link.new) }
    ensures write_cause { IsErrOf result ClientFault.WriteFault
        → WriteFails (L.at link.old) (L.at link.new) }
    ensures counts { IsLater (L.at link.old) (L.at link.new) }
{
    match exchange(alloc, link, &Request::Hello) {
        Ok(heard) => welcomed(heard.reply),
        Err(fault) => Err(fault),
    }
}

/// What the answer to a Hello means.
fn welcomed(reply: Reply) -> Result<(), ClientFault>
    ensures welcome { OnOk result (reply ≡ Welcome) }
    ensures other { IfErr result (λ _. reply ≢ Welcome) }
    ensures told { IfErr result (λ fault. fault ≡ ClientFault.OldServer (kind_of reply)) }
{
    match reply {
        Reply::Welcome => Ok(()),
        _ => Err(ClientFault::OldServer { kind: reply.kind() }),
    }
}

/// Sends a request and receives the answer, in any protocol.
fn exchange<L: Link>(alloc: Global, link: &mut L, request: &Request) -> Result<Heard, ClientFault>
    ensures exchanged { Exchanged request.now (L.at link.old).talk result (L.at link.new).talk }
    ensures read_cause { IsErrOf result ClientFault.ReadFault
        → ReadFails (L.at link.old) (L.at link.new) }
    ensures write_cause { IsErrOf result ClientFault.WriteFault
        → WriteFails (L.at link.old) (L.at link.new) }
    ensures counts { IsLater (L.at link.old) (L.at link.new) }
{
    match send_request(link, request) {
        Ok(()) => hear(alloc, link),
        Err(Failed) => Err(ClientFault::WriteFault),
    }
}

/// Sends a request, its frame after its length.
fn send_request<L: Link>(link: &mut L, request: &Request) -> Result<(), Failed>
    ensures whole { OnOk result (SendsRequest request.now (L.at link.old).talk (L.at link.new).talk) }
    ensures part { OnErr result (SendsRequestPart request.now (L.at link.old).talk (L.at link.new).talk) }
    ensures cause { OnErr result (WriteFails (L.at link.old) (L.at link.new)) }
    ensures counts { OnlyWrites (L.at link.old) (L.at link.new) }
{
    let mut room = [0; REQUEST_ROOM];
    let size = encode_request(request, &mut room);
    send_all(link, &room[..size])
}
