//! The message with accepted edits.

ghost use Rattle.std.specs.Prelude.{◌≡◌, ℕ, ◌+◌, ◌-◌, ◌*◌, ◌≤◌, ◌++◌, drop, length, min, take};
ghost use Rattle.edit_log.specs.declared.TheConstants.{MAX_CHANGES};
ghost use Rattle.query_proto.specs.Frames.{StandsAtFront};
ghost use Rattle.follow_proto.specs.Feeds.{all_edit_bytes, edit_bytes, edits_bytes};
ghost use Rattle.follow_proto.specs.declared.TheConstants.{MAX_SENT};

use crate::MAX_SENT;
use crate::kinds::EDITS;
use crate::writing::{put_byte, put_change, put_number};
use edit_log::{CellChange, EditList};

/// The part of a message before its edits, and how many edits follow.
#[derive(Clone, Copy, Debug, PartialEq, Eq)]
pub struct EditsHead {
    /// The length and the frame up to the edits.
    pub bytes: [u8; 13],
    /// How many edits follow, at most [`MAX_SENT`].
    pub count: u32,
}

/// The message with the first of these edits, as many as one message may have, up to the bytes of the edits. They come
/// after `known` edits that the follower has.
pub fn edits_head(known: u32, edits: &EditList) -> EditsHead
    ensures count { result.count ≡ min MAX_SENT (length edits.now.edits) }
    ensures head { result.bytes ++ all_edit_bytes (take result.count edits.now.edits)
        ≡ edits_bytes known (take result.count edits.now.edits) }
{
    edits_head_at(known, edits, 0)
}

/// The message with the edits of a list from `first` on, as many as one message may have, up to the bytes of the edits.
/// They come after `known` edits that the follower has.
pub fn edits_head_at(known: u32, edits: &EditList, first: u32) -> EditsHead
    requires { first ≤ length edits.now.edits }
    ensures count { result.count ≡ min MAX_SENT (length edits.now.edits - first) }
    ensures head { result.bytes ++ all_edit_bytes (take result.count (drop first edits.now.edits))
        ≡ edits_bytes known (take result.count (drop first edits.now.edits)) }
{
    let count = (edits.len() - first).min(MAX_SENT);
    let mut bytes = [0; 13];
    let kind = put_number(&mut bytes, 0, 9 + size_of(edits, first, count));
    let sort = put_byte(&mut bytes, kind, EDITS);
    let second = put_number(&mut bytes, sort, known);
    put_number(&mut bytes, second, count);
    EditsHead { bytes, count }
}

/// How many bytes `count` edits from `first` on have.
fn size_of(edits: &EditList, first: u32, count: u32) -> u32
    requires some { first + count ≤ length edits.now.edits }
    requires few { count ≤ MAX_SENT }
    ensures size { result ≡ length (all_edit_bytes (take count (drop first edits.now.edits))) }
    ensures limit { result ≤ 321 * count }
{
    // From here on each place is known to fit its type.
    let _len = edits.len();
    let mut size = 0;
    for place in 0..count {
        size += 1 + 5 * edits.changes_at(first + place).len() as u32;
    }
    size
}

/// Writes an edit, the number of its changes and the changes, to the front of `room`, and says how many bytes that is.
/// The others are unchanged.
pub fn edit_bytes(changes: &[CellChange], room: &mut [u8]) -> usize
    requires room { 1 + 5 * length changes.now ≤ length room.old }
    requires few { length changes.now ≤ MAX_CHANGES }
    ensures bytes { StandsAtFront (edit_bytes changes.now) room.old room.new result }
    ensures size { result ≡ 1 + 5 * length changes.now }
    ensures len { length room.new ≡ length room.old }
{
    let mut next = put_byte(room, 0, changes.len() as u8);
    for change in changes {
        next = put_change(room, next, *change);
    }
    next
}
