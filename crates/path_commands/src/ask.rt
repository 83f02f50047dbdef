//! `ask PORT WORDS..`: one request to a server, and its answer.

ghost use Rattle.std.specs.Prelude.{◌≡◌, ◌≢◌, ◌≤◌, ◌⊎◌, None, Some, Result, IfErr, IfOk, IfSome, IsErrOf, OnErr, OnOk, string_bytes};
ghost use Rattle.wire.specs.Causes.{Rose};
ghost use Rattle.path_commands.specs.declared.status.Status.{Status};
ghost use Rattle.path_commands.specs.Asks.{CallsInVain, CallsOnce, HasGivenNone, HearsNoText, HearsText, house_over};
ghost use Rattle.path_commands.specs.AskEnds.{CallsServer, FallsShort, IsAnswered, IsAskCause, PutsHeard};
ghost use Rattle.path_commands.specs.SaidRequests.{said_by};
ghost use Rattle.wire.specs.Houses.{OnlyCalls};

use crate::heard::heard_text;
use crate::output::{put, refuse};
use crate::request::AskAsked;
use crate::status::Status;
use path_client::{ClientFault, Heard};
use std::alloc::Global;
use wire::{Failed, House, Sink};

/// Asks the server at a port and prints its answer, or else the line of the status. The link is
/// closed before anything is printed.
pub fn ask<O: Sink, H: House>(alloc: Global, asked: AskAsked, out: &mut O, house: &mut H) -> Status
    requires uncalled { (H.at house.old).called ≡ None }
    requires unlent { HasGivenNone (H.at house.old).lent }
    ensures calls { CallsServer
        (house_over H.Door.at H.Conn.at (H.at house.old) (H.at house.new))
        asked.port (said_by asked.asking) }
    ensures whole { result ≢ Status.WriteFault → PutsHeard
        (house_over H.Door.at H.Conn.at (H.at house.old) (H.at house.new))
        asked.port (said_by asked.asking) result (O.bytes out.old) (O.bytes out.new) }
    ensures cut { result ≡ Status.WriteFault → FallsShort
        (house_over H.Door.at H.Conn.at (H.at house.old) (H.at house.new))
        asked.port (said_by asked.asking) (O.faults out.old) (O.faults out.new)
        (O.bytes out.old) (O.bytes out.new) }
    ensures only { OnlyCalls (H.at house.old) (H.at house.new) }
{
    match hear(alloc, asked, house) {
        Ok(text) => put(out, text.as_bytes(), Status::Done),
        Err(Status::WriteFault) => Status::WriteFault,
        Err(status) => refuse(alloc, out, status),
    }
}

/// Returns the text of the answer of the server at the port.
fn hear<H: House>(alloc: Global, asked: AskAsked, house: &mut H) -> Result<String, Status>
    requires uncalled { (H.at house.old).called ≡ None }
    requires unlent { HasGivenNone (H.at house.old).lent }
    ensures calls { CallsServer
        (house_over H.Door.at H.Conn.at (H.at house.old) (H.at house.new))
        asked.port (said_by asked.asking) }
    ensures heard { IfOk result (λ text. IsAnswered
        (house_over H.Door.at H.Conn.at (H.at house.old) (H.at house.new))
        asked.port (said_by asked.asking) (string_bytes text)) }
    ensures fault { IfErr result (IsAskCause
        (house_over H.Door.at H.Conn.at (H.at house.old) (H.at house.new))
        asked.port (said_by asked.asking)) }
    ensures only { OnlyCalls (H.at house.old) (H.at house.new) }
{
    ask_at(alloc, house, asked.port, asked.asking.request())
}

/// Asks the server at the port and returns the text of its answer. The link is closed by then.
///
/// # Errors
///
/// - `BadAnswer` exactly if what came in is not an answer or ended early.
/// - `ReadFault` if nobody answers at the port or the link failed to receive.
/// - `WriteFault` if the link failed to send.
/// - `NoMemory` if memory ran out.
fn ask_at<H: House>(
    alloc: Global,
    house: &mut H,
    port: u16,
    request: query_proto::Request,
) -> Result<String, Status>
    requires uncalled { (H.at house.old).called ≡ None }
    requires unlent { HasGivenNone (H.at house.old).lent }
    ensures heard { IfOk result (λ text. HearsText
        (house_over H.Door.at H.Conn.at (H.at house.old) (H.at house.new))
        port request (string_bytes text)) }
    ensures fault { IfErr result (HearsNoText
        (house_over H.Door.at H.Conn.at (H.at house.old) (H.at house.new))
        port request) }
    ensures only { OnlyCalls (H.at house.old) (H.at house.new) }
{
    match call_once(alloc, house, port, request) {
        Ok(Ok(heard)) => Ok(heard_text(alloc, &heard)?),
        Ok(Err(fault)) => Err(Status::from(fault)),
        Err(Failed) => Err(Status::ReadFault),
    }
}

/// Connects to the port, asks over the link, and closes it.
///
/// # Errors
///
/// `Failed` if nobody answers at the port.
fn call_once<H: House>(
    alloc: Global,
    house: &mut H,
    port: u16,
    request: query_proto::Request,
) -> Result<Result<Heard, ClientFault>, Failed>
    requires uncalled { (H.at house.old).called ≡ None }
    requires unlent { HasGivenNone (H.at house.old).lent }
    ensures once { IfOk result (CallsOnce
        (house_over H.Door.at H.Conn.at (H.at house.old) (H.at house.new))
        port request) }
    ensures vain { OnErr result (CallsInVain
        (house_over H.Door.at H.Conn.at (H.at house.old) (H.at house.new))
        port) }
    ensures refused { OnErr result (Rose (H.at house.old).read_faults (H.at house.new).read_faults) }
    ensures reads { IfOk result (λ heard. IsErrOf heard ClientFault.ReadFault
        → Rose (H.at house.old).read_faults (H.at house.new).read_faults) }
    ensures writes { IfOk result (λ heard. IsErrOf heard ClientFault.WriteFault
        → Rose (H.at house.old).write_faults (H.at house.new).write_faults) }
    ensures only { OnlyCalls (H.at house.old) (H.at house.new) }
{
    let mut link = house.call(port)?;
    let heard = path_client::ask(alloc, &mut link, request);
    house.hang_up(link);
    Ok(heard)
}
