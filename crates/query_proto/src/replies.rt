//! Replies to a client.

ghost use Rattle.std.specs.Prelude.{◌≡◌, ◌≢◌, ◌<◌, ◌≤◌, ◌++◌, ◌∷◌, drop, length, slice_index, IfErr, IfOk, IfNone, IfSome};
ghost use Rattle.byteorder.specs.Endian.{big_bytes};
ghost use Rattle.query_proto.specs.declared.replies.Reply.TheVariants.{EditRefused, Refused};
ghost use Rattle.query_proto.specs.declared.replies.Reply.TheVariants as reply;
ghost use Rattle.query_proto.specs.Frames.{CanBeSent, HeadAtFront, IsNoReply, IsRefusalOf, IsReplyFrame, IsReplyRead};
ghost use Rattle.query_proto.specs.Frames.{IsSpelledCost, StandsAtFront, head_bytes, kind_of, moves_behind, refusal_byte};
ghost use Rattle.query_proto.specs.Frames.{status_front};

use crate::kinds::{
    ACCEPTED, BOARD, DONE, EDIT_REFUSED, MALFORMED, NO_MEMORY, NOTHING_NEW, OVERTAKEN, PATH,
    PUBLISHED, REFUSED, UNREACHABLE, WELCOME,
};
use crate::reading::{alone, byte_at, flag_of, long_at, number_at, second, short_at};
use crate::writing::{byte_of_flag, put_byte, put_long, put_number, put_second, put_short};
use crate::{HEAD_ROOM, MAX_MOVES, MAX_REPLY, Malformed};
use byteorder::{BigEndian, ByteOrder};
use edit_log::EditRefusal;
use moves::Move;
use root_cost::Cost;

/// How many bytes the frame of a path has before its moves.
pub const PATH_HEAD: usize = 13;

/// Which end of a query was refused, and why.
#[derive(Clone, Copy, Debug, PartialEq, Eq)]
pub struct QueryWhy {
    /// Whether the cell is blocked; otherwise it is outside the map.
    pub blocked: bool,
    /// Whether it is the goal; otherwise it is the start.
    pub goal: bool,
}

/// The answer to a client.
#[derive(Clone, Copy, Debug, PartialEq, Eq)]
pub enum Reply {
    /// A best path with this cost, whose moves follow the head of the frame.
    Path {
        /// How many edits the version that answered has.
        version: u32,
        /// How many of the moves are straight and how many are diagonal.
        cost: Cost,
    },
    /// No path leads from the start to the goal.
    Unreachable {
        /// How many edits the version that answered has.
        version: u32,
    },
    /// The start or the goal of the query was refused.
    Refused {
        /// How many edits the version that answered has.
        version: u32,
        /// Which end, and why.
        why: QueryWhy,
    },
    /// The change was accepted.
    Accepted {
        /// How many changes have been accepted so far.
        number: u32,
    },
    /// The change was refused.
    EditRefused(EditRefusal),
    /// A version was published.
    Published {
        /// How many edits it has.
        prefix: u32,
        /// How many rows were built.
        built: u32,
        /// How many rows were kept from the version before.
        kept: u32,
    },
    /// The published version already has all accepted edits.
    NothingNew {
        /// How many edits it has.
        prefix: u32,
    },
    /// Another version was published first.
    Overtaken {
        /// How many edits that version has.
        by: u32,
    },
    /// The state of the board.
    Status {
        /// How many edits the published version has.
        version: u32,
        /// How many changes have been accepted.
        accepted: u32,
        /// How many cells of the published version are passable.
        cells: u32,
        /// How many components it has.
        comps: u32,
        /// How many runs its rows have.
        runs: u64,
    },
    /// The request was carried out.
    Done,
    /// The frame is not a request.
    Malformed {
        /// The frame's first byte; 0 for an empty frame.
        kind: u8,
        /// How many bytes the frame has.
        length: u16,
    },
    /// The server ran out of memory for it, and nothing was changed.
    NoMemory,
    /// The second protocol is in use from now on.
    Welcome,
}

impl Reply {
    /// The first byte of the reply's frame.
    pub fn kind(&self) -> u8
        ensures { result ≡ kind_of self.now }
    {
        match self {
            Reply::Path { .. } => PATH,
            Reply::Unreachable { .. } => UNREACHABLE,
            Reply::Refused { .. } => REFUSED,
            Reply::Accepted { .. } => ACCEPTED,
            Reply::EditRefused(_) => EDIT_REFUSED,
            Reply::Published { .. } => PUBLISHED,
            Reply::NothingNew { .. } => NOTHING_NEW,
            Reply::Overtaken { .. } => OVERTAKEN,
            Reply::Status { .. } => BOARD,
            Reply::Done => DONE,
            Reply::Malformed { .. } => MALFORMED,
            Reply::NoMemory => NO_MEMORY,
            Reply::Welcome => WELCOME,
        }
    }
}

/// Decodes a reply from its frame. The moves of a path are the frame's bytes from place 13 on. It allocates nothing.
///
/// # Errors
///
/// `Malformed` exactly if the frame encodes no reply.
pub fn decode_reply(frame: &[u8]) -> Result<Reply, Malformed>
    requires { length frame.now ≤ MAX_REPLY }
    ensures reply { IfOk result (λ reply. IsReplyFrame reply frame.now) }
    ensures malformed { IfErr result (IsNoReply frame.now) }
{
    match reply_in(frame) {
        Some(reply) => Ok(reply),
        None => Err(Malformed::of(frame)),
    }
}

/// The reply that a frame encodes, if any.
fn reply_in(frame: &[u8]) -> Option<Reply>
    requires { length frame.now ≤ MAX_REPLY }
    ensures { IsReplyRead frame.now result }
{
    if frame.is_empty() {
        return None;
    }
    let kind = frame[0];
    match kind {
        PATH => path_in(frame),
        REFUSED => refused_in(frame),
        EDIT_REFUSED => edit_refused_in(frame),
        PUBLISHED => published_in(frame),
        BOARD => status_in(frame),
        MALFORMED => malformed_in(frame),
        UNREACHABLE => Some(Reply::Unreachable {
            version: numbered(frame)?,
        }),
        ACCEPTED => Some(Reply::Accepted {
            number: numbered(frame)?,
        }),
        NOTHING_NEW => Some(Reply::NothingNew {
            prefix: numbered(frame)?,
        }),
        OVERTAKEN => Some(Reply::Overtaken {
            by: numbered(frame)?,
        }),
        DONE => alone(frame, Reply::Done),
        NO_MEMORY => alone(frame, Reply::NoMemory),
        WELCOME => second(frame, Reply::Welcome),
        _ => None,
    }
}

/// The number in a frame that has only a kind and a number.
fn numbered(frame: &[u8]) -> Option<u32>
    ensures some { IfSome result (λ number. drop 1 frame.now ≡ big_bytes 4 number) }
    ensures none { IfNone result (length frame.now ≢ 5) }
{
    if frame.len() != 5 {
        return None;
    }
    Some(number_at(frame, 1))
}

/// The path that a frame encodes, whose cost must count the moves that follow.
fn path_in(frame: &[u8]) -> Option<Reply>
    requires kind { slice_index frame.now 0 ≡ PATH }
    requires size { length frame.now ≤ MAX_REPLY }
    ensures { IsReplyRead frame.now result }
{
    if frame.len() < PATH_HEAD {
        return None;
    }
    let version = number_at(frame, 1);
    let straight = number_at(frame, 5);
    let diagonal = number_at(frame, 9);
    let cost = spelled_cost(&frame[PATH_HEAD..])?;
    if cost.straight != straight {
        return None;
    }
    if cost.diagonal != diagonal {
        return None;
    }
    Some(Reply::Path { version, cost })
}

/// The cost of these bytes as moves, each byte the number of a move.
fn spelled_cost(bytes: &[u8]) -> Option<Cost>
    requires { length bytes.now ≤ MAX_MOVES }
    ensures { IsSpelledCost bytes.now result }
{
    let mut cost = Cost::ZERO;
    for &byte in bytes {
        cost = cost.plus(Move::of(byte)?.is_diagonal());
    }
    Some(cost)
}

/// The refusal of a query that a frame encodes.
fn refused_in(frame: &[u8]) -> Option<Reply>
    requires { slice_index frame.now 0 ≡ REFUSED }
    ensures { IsReplyRead frame.now result }
{
    if frame.len() != 7 {
        return None;
    }
    let version = number_at(frame, 1);
    let why = byte_at(frame, 5);
    let end = byte_at(frame, 6);
    let blocked = flag_of(why.checked_sub(1)?)?;
    let goal = flag_of(end)?;
    let why = QueryWhy { blocked, goal };
    Some(Reply::Refused { version, why })
}

/// The refusal of an edit that a frame encodes.
fn edit_refused_in(frame: &[u8]) -> Option<Reply>
    requires { slice_index frame.now 0 ≡ EDIT_REFUSED }
    ensures { IsReplyRead frame.now result }
{
    if frame.len() != 2 {
        return None;
    }
    let byte = byte_at(frame, 1);
    let why = refusal_of(byte)?;
    Some(Reply::EditRefused(why))
}

/// The refusal of an edit with this number.
fn refusal_of(byte: u8) -> Option<EditRefusal>
    ensures { IsRefusalOf byte result }
{
    match byte {
        1 => Some(EditRefusal::Outside),
        2 => Some(EditRefusal::TooManyCells),
        3 => Some(EditRefusal::EditsFull),
        4 => Some(EditRefusal::Repeated),
        _ => None,
    }
}

/// The number of a refusal of an edit.
fn number_of_refusal(why: EditRefusal) -> u8
    ensures { result ≡ refusal_byte why }
{
    match why {
        EditRefusal::Outside => 1,
        EditRefusal::TooManyCells => 2,
        EditRefusal::EditsFull => 3,
        EditRefusal::Repeated => 4,
    }
}

/// The publication that a frame encodes.
fn published_in(frame: &[u8]) -> Option<Reply>
    requires { slice_index frame.now 0 ≡ PUBLISHED }
    ensures { IsReplyRead frame.now result }
{
    if frame.len() != 13 {
        return None;
    }
    let prefix = number_at(frame, 1);
    let built = number_at(frame, 5);
    let kept = number_at(frame, 9);
    Some(Reply::Published {
        prefix,
        built,
        kept,
    })
}

/// The state of a board that a frame encodes.
fn status_in(frame: &[u8]) -> Option<Reply>
    requires { slice_index frame.now 0 ≡ BOARD }
    ensures { IsReplyRead frame.now result }
{
    if frame.len() != 25 {
        return None;
    }
    let version = number_at(frame, 1);
    let accepted = number_at(frame, 5);
    let cells = number_at(frame, 9);
    let comps = number_at(frame, 13);
    let runs = long_at(frame, 17);
    Some(Reply::Status {
        version,
        accepted,
        cells,
        comps,
        runs,
    })
}

/// The malformed request that a frame reports.
fn malformed_in(frame: &[u8]) -> Option<Reply>
    requires { slice_index frame.now 0 ≡ MALFORMED }
    ensures { IsReplyRead frame.now result }
{
    if frame.len() != 4 {
        return None;
    }
    let kind = byte_at(frame, 1);
    let length = short_at(frame, 2);
    Some(Reply::Malformed { kind, length })
}

/// Writes a reply as it is sent, without the moves of a path, to the front of `room`: the length of its frame, which
/// counts the moves, and the frame's bytes before them. Returns how many bytes it wrote; the others are unchanged. It
/// allocates nothing.
pub fn reply_head(reply: &Reply, room: &mut [u8; HEAD_ROOM]) -> usize
    requires { CanBeSent reply.now }
    ensures { HeadAtFront reply.now room.old room.new result }
{
    let size = put_reply(&mut room[4..], *reply);
    BigEndian::write_u32(room.as_mut_slice(), size as u32 + moves_behind(reply));
    size + 4
}

/// How many moves follow the head of a reply.
fn moves_behind(reply: &Reply) -> u32
    requires { CanBeSent reply.now }
    ensures { result ≡ moves_behind reply.now }
{
    match reply {
        Reply::Path { cost, .. } => cost.straight + cost.diagonal,
        _ => 0,
    }
}

/// Writes the frame of a reply, without the moves of a path, to the front of a piece, and says how many bytes that is.
fn put_reply(out: &mut [u8], reply: Reply) -> usize
    requires { 60 ≤ length out.old }
    ensures head { StandsAtFront (head_bytes reply) out.old out.new result }
    ensures limit { result ≤ 60 }
    ensures len { length out.new ≡ length out.old }
{
    match reply {
        Reply::Path { version, cost } => put_three(
            out,
            PATH,
            version,
            cost.straight,
            cost.diagonal,
        ),
        Reply::Unreachable { version } => put_one(out, UNREACHABLE, version),
        Reply::Refused { version, why } => put_refused(out, version, why),
        Reply::Accepted { number } => put_one(out, ACCEPTED, number),
        Reply::EditRefused(why) => put_edit_refused(out, why),
        Reply::Published {
            prefix,
            built,
            kept,
        } => put_three(out, PUBLISHED, prefix, built, kept),
        Reply::NothingNew { prefix } => put_one(out, NOTHING_NEW, prefix),
        Reply::Overtaken { by } => put_one(out, OVERTAKEN, by),
        Reply::Status {
            version,
            accepted,
            cells,
            comps,
            runs,
        } => {
            let at = put_status(out, version, accepted, cells, comps);
            put_long(out, at, runs)
        }
        Reply::Done => put_byte(out, 0, DONE),
        Reply::Malformed { kind, length } => put_malformed(out, kind, length),
        Reply::NoMemory => put_byte(out, 0, NO_MEMORY),
        Reply::Welcome => put_second(out, WELCOME),
    }
}

/// Writes a kind and a number.
fn put_one(out: &mut [u8], kind: u8, number: u32) -> usize
    requires { 5 ≤ length out.old }
    ensures front { StandsAtFront (kind ∷ big_bytes 4 number) out.old out.new result }
    ensures limit { result ≡ 5 }
    ensures len { length out.new ≡ length out.old }
{
    let at = put_byte(out, 0, kind);
    put_number(out, at, number)
}

/// Writes a kind and three numbers.
fn put_three(out: &mut [u8], kind: u8, first: u32, second: u32, third: u32) -> usize
    requires { 13 ≤ length out.old }
    ensures front { StandsAtFront
        (kind ∷ big_bytes 4 first ++ big_bytes 4 second ++ big_bytes 4 third) out.old out.new result }
    ensures limit { result ≡ 13 }
    ensures len { length out.new ≡ length out.old }
{
    let at = put_one(out, kind, first);
    let next = put_number(out, at, second);
    put_number(out, next, third)
}

/// Writes why a query was refused.
fn put_refused(out: &mut [u8], version: u32, why: QueryWhy) -> usize
    requires { 7 ≤ length out.old }
    ensures front { StandsAtFront (head_bytes (Refused version why)) out.old out.new result }
    ensures limit { result ≡ 7 }
    ensures len { length out.new ≡ length out.old }
{
    let at = put_one(out, REFUSED, version);
    let next = put_byte(out, at, 1 + byte_of_flag(why.blocked));
    put_byte(out, next, byte_of_flag(why.goal))
}

/// Writes why an edit was refused.
fn put_edit_refused(out: &mut [u8], why: EditRefusal) -> usize
    requires { 2 ≤ length out.old }
    ensures front { StandsAtFront (head_bytes (EditRefused why)) out.old out.new result }
    ensures limit { result ≡ 2 }
    ensures len { length out.new ≡ length out.old }
{
    let at = put_byte(out, 0, EDIT_REFUSED);
    put_byte(out, at, number_of_refusal(why))
}

/// Writes the state of a board without its runs.
fn put_status(out: &mut [u8], version: u32, accepted: u32, cells: u32, comps: u32) -> usize
    requires { 17 ≤ length out.old }
    ensures front { StandsAtFront (status_front version accepted cells comps) out.old out.new result }
    ensures limit { result ≡ 17 }
    ensures len { length out.new ≡ length out.old }
{
    let at = put_three(out, BOARD, version, accepted, cells);
    put_number(out, at, comps)
}

/// Writes the report of a malformed request.
fn put_malformed(out: &mut [u8], kind: u8, size: u16) -> usize
    requires { 4 ≤ length out.old }
    ensures front { StandsAtFront (head_bytes (reply.Malformed kind size)) out.old out.new result }
    ensures limit { result ≡ 4 }
    ensures len { length out.new ≡ length out.old }
{
    let at = put_byte(out, 0, MALFORMED);
    let next = put_byte(out, at, kind);
    put_short(out, next, size)
}
