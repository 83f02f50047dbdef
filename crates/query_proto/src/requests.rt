//! Requests from a client.

ghost use Rattle.std.specs.Prelude.{◌≡◌, ◌≢◌, ◌↔◌, ◌<◌, ◌≤◌, [], ◌∷◌, ◌++◌, length, slice_index, IsTrue, IfErr, IfOk};
ghost use Rattle.query_proto.specs.Frames.{Fits, FitsEdit, IsNoRequest, IsPlainEdit, IsRequestFrame, IsRequestRead};
ghost use Rattle.query_proto.specs.Frames.{IsRequestSpelled, RequestAtFront, StandsAtFront, cell_bytes, request_bytes};

use crate::changes::{change_at, count_in, edit_in, put_edit};
use crate::kinds::{BUILD, BYE, CHANGE, CHANGES, HELLO, QUERY, STATUS, STOP};
use crate::reading::{alone, cell_at, second};
use crate::writing::{put_byte, put_cell, put_second};
use crate::{MAX_REQUEST, Malformed, Proto, REQUEST_ROOM};
use byteorder::{BigEndian, ByteOrder};
use edit_log::{CellChange, Edit};
use moves::{Cell, Terrain};

/// What a client asks for.
#[derive(Clone, Copy, Debug, PartialEq, Eq)]
pub enum Request {
    /// A best path between two cells.
    Query {
        /// The cell that the path begins with.
        start: Cell,
        /// The cell that the path ends with.
        goal: Cell,
    },
    /// A change of the map. Queries see it once a version after it is published.
    Change(Edit),
    /// Builds and publishes a version with all accepted edits.
    Build,
    /// The state of the board.
    Status,
    /// The end of this session.
    Bye,
    /// The end of the server.
    Stop,
    /// The second protocol, from now on.
    Hello,
}

/// Whether a protocol has the request. It allocates nothing.
pub fn fits(request: &Request, proto: Proto) -> bool
    ensures { IsTrue result ↔ Fits proto request.now }
{
    match request {
        Request::Change(edit) => fits_edit(edit, proto),
        Request::Hello => proto == Proto::Start,
        _ => true,
    }
}

/// Whether a protocol has this change.
fn fits_edit(edit: &Edit, proto: Proto) -> bool
    ensures { IsTrue result ↔ FitsEdit proto edit.now }
{
    let changes = edit.changes();
    match proto {
        Proto::Start | Proto::One => is_plain(changes),
        Proto::Two => true,
    }
}

/// Whether exactly one cell changes, to blocked or land.
fn is_plain(changes: &[CellChange]) -> bool
    ensures { IsTrue result ↔ IsPlainEdit changes.now }
{
    match changes {
        [change] => change.terrain != Terrain::Water,
        _ => false,
    }
}

/// Decodes a request from its frame at a protocol. It allocates nothing.
///
/// # Errors
///
/// `Malformed` exactly if the frame encodes no request of the protocol.
pub fn decode_request(frame: &[u8], proto: Proto) -> Result<Request, Malformed>
    requires { length frame.now ≤ MAX_REQUEST }
    ensures request { IfOk result (λ request. IsRequestFrame proto request frame.now) }
    ensures malformed { IfErr result (IsNoRequest proto frame.now) }
{
    match request_in(frame, proto) {
        Some(request) => Ok(request),
        None => Err(Malformed::of(frame)),
    }
}

/// The request of the protocol that a frame encodes, if any.
fn request_in(frame: &[u8], proto: Proto) -> Option<Request>
    ensures { IsRequestRead proto frame.now result }
{
    let request = spelled_in(frame)?;
    if !fits(&request, proto) {
        return None;
    }
    Some(request)
}

/// The request that a frame encodes in any protocol.
fn spelled_in(frame: &[u8]) -> Option<Request>
    ensures { IsRequestSpelled frame.now result }
{
    if frame.is_empty() {
        return None;
    }
    match frame[0] {
        QUERY => query_in(frame),
        CHANGE => change_in(frame),
        CHANGES => changes_in(frame),
        BUILD => alone(frame, Request::Build),
        STATUS => alone(frame, Request::Status),
        BYE => alone(frame, Request::Bye),
        STOP => alone(frame, Request::Stop),
        HELLO => second(frame, Request::Hello),
        _ => None,
    }
}

/// The query that a frame encodes.
fn query_in(frame: &[u8]) -> Option<Request>
    requires { slice_index frame.now 0 ≡ QUERY }
    ensures { IsRequestSpelled frame.now result }
{
    if frame.len() != 9 {
        return None;
    }
    let start = cell_at(frame, 1);
    let goal = cell_at(frame, 5);
    Some(Request::Query { start, goal })
}

/// The change of one cell that a frame encodes.
fn change_in(frame: &[u8]) -> Option<Request>
    requires { slice_index frame.now 0 ≡ CHANGE }
    ensures { IsRequestSpelled frame.now result }
{
    if frame.len() != 6 {
        return None;
    }
    let change = change_at(frame, 1)?;
    Some(Request::Change(Edit::one(change)))
}

/// The change of several cells that a frame encodes.
fn changes_in(frame: &[u8]) -> Option<Request>
    requires { slice_index frame.now 0 ≡ CHANGES }
    ensures { IsRequestSpelled frame.now result }
{
    let count = count_in(frame)?;
    let edit = edit_in(frame, count)?;
    Some(Request::Change(edit))
}

/// Writes a request as it is sent, its length and its frame, to the front of `room`, and says how many bytes that is.
/// The others are unchanged. It allocates nothing.
pub fn encode_request(request: &Request, room: &mut [u8; REQUEST_ROOM]) -> usize
    ensures { RequestAtFront request.now room.old room.new result }
{
    let size = put_request(&mut room[2..], request);
    BigEndian::write_u16(room.as_mut_slice(), size as u16);
    size + 2
}

/// Writes the frame of the request to the front of a piece, and says how many bytes it has.
fn put_request(out: &mut [u8], request: &Request) -> usize
    requires { 322 ≤ length out.old }
    ensures frame { StandsAtFront (request_bytes request.now) out.old out.new result }
    ensures limit { result ≤ 322 }
    ensures len { length out.new ≡ length out.old }
{
    match request {
        Request::Query { start, goal } => put_query(out, *start, *goal),
        Request::Change(edit) => put_edit(out, edit.changes()),
        Request::Build => put_byte(out, 0, BUILD),
        Request::Status => put_byte(out, 0, STATUS),
        Request::Bye => put_byte(out, 0, BYE),
        Request::Stop => put_byte(out, 0, STOP),
        Request::Hello => put_second(out, HELLO),
    }
}

/// Writes the frame of a query.
fn put_query(out: &mut [u8], start: Cell, goal: Cell) -> usize
    requires { 9 ≤ length out.old }
    ensures frame { StandsAtFront (QUERY ∷ cell_bytes start ++ cell_bytes goal) out.old out.new result }
    ensures limit { result ≡ 9 }
    ensures len { length out.new ≡ length out.old }
{
    let at = put_byte(out, 0, QUERY);
    let next = put_cell(out, at, start);
    put_cell(out, next, goal)
}
