//! Edits in the bytes of a message.

ghost use Rattle.std.specs.Prelude.{◌≡◌, ℕ, ◌+◌, ◌*◌, ◌<◌, ◌≤◌, [], ◌∷◌, ◌++◌, All, drop, length, take, IfNone, IfOk, IfSome, IsFalse, IsTrue, MatchOption};
ghost use Rattle.edit_log.specs.declared.TheConstants.{MAX_CHANGES};
ghost use Rattle.query_proto.specs.Frames.{changes_bytes};
ghost use Rattle.follow_proto.specs.Feeds.{HasPlace, IsSent, edit_bytes};
ghost use Rattle.follow_proto.specs.Feeds.Message.{Edits};
ghost use Rattle.follow_node.specs.Reading.{AreEditsOf, BeginsWithNoEdit, LacksChanges, SpellNoEdits, Spells, SpellsNoEdits};

use crate::reading::{change_at, number_at};
use edit_log::{CellChange, Edit, EditList, MAX_CHANGES};
use follow_proto::MAX_SENT;
use follow_proto::kinds::EDITS;
use moves::{Cell, Terrain};
use std::alloc::{AllocError, Global};

/// What stands in a room before changes are read to it.
const UNREAD: CellChange = CellChange {
    cell: Cell { x: 0, y: 0 },
    terrain: Terrain::Blocked,
};

/// The edits of a message, and how many are before them.
#[derive(Debug, Drop)]
pub(crate) struct Sent {
    pub(crate) known: u32,
    pub(crate) edits: EditList,
}

/// The edits that a frame spells, if it spells some.
///
/// # Errors
///
/// `AllocError` where memory runs out.
pub(crate) fn edits_in(alloc: Global, frame: &[u8]) -> Result<Option<Sent>, AllocError>
    ensures { IfOk result (λ found. MatchOption found (SpellsNoEdits frame.now)
        (λ sent. Spells frame.now (Edits sent.known sent.edits.edits))) }
{
    if frame.len() < 9 {
        return Ok(None);
    }
    if frame[0] != EDITS {
        return Ok(None);
    }
    let known = number_at(frame, 1);
    let count = number_at(frame, 5);
    if count > MAX_SENT {
        return Ok(None);
    }
    let mut edits = EditList::new(alloc);
    edits.reserve(count)?;
    if !read_edits(&frame[9..], count, &mut edits) {
        return Ok(None);
    }
    Ok(Some(Sent { known, edits }))
}

/// Reads so many edits, and says whether the bytes are those of so many.
fn read_edits(bytes: &[u8], count: u32, edits: &mut EditList) -> bool
    requires none { edits.old.edits ≡ [] }
    requires room { count ≤ edits.old.spare }
    ensures all { IsTrue result → AreEditsOf bytes.now count edits.new.edits }
    ensures none { IsFalse result → SpellNoEdits bytes.now count }
{
    let mut at = 0;
    for _ in 0..count {
        let Some(edit) = edit_in(&bytes[at..]) else {
            return false;
        };
        edits.push_reserved(&edit);
        at += 1 + 5 * edit.changes().len();
    }
    at == bytes.len()
}

/// The edit that stands in front of these bytes.
fn edit_in(bytes: &[u8]) -> Option<Edit>
    ensures some { IfSome result (λ edit.
        bytes.now ≡ edit_bytes edit ++ drop (1 + 5 * length edit) bytes.now) }
    ensures fits { IfSome result (λ edit. 1 + 5 * length edit ≤ length bytes.now) }
    ensures sent { IfSome result (λ edit. IsSent edit) }
    ensures none { IfNone result (BeginsWithNoEdit bytes.now) }
{
    if bytes.is_empty() {
        return None;
    }
    let count = usize::from(bytes[0]);
    if count == 0 {
        return None;
    }
    if count > MAX_CHANGES {
        return None;
    }
    if bytes.len() < 1 + 5 * count {
        return None;
    }
    let mut room = [UNREAD; MAX_CHANGES];
    read_changes(bytes, count, &mut room)?;
    Edit::of(&room[..count])
}

/// Reads so many changes behind the first byte to the front of a room.
fn read_changes(bytes: &[u8], count: usize, room: &mut [CellChange; MAX_CHANGES]) -> Option<()>
    requires few { count ≤ MAX_CHANGES }
    requires long { 1 + 5 * count ≤ length bytes.now }
    ensures all { IfSome result (λ _. drop 1 bytes.now
        ≡ changes_bytes (take count room.new) ++ drop (1 + 5 * count) bytes.now) }
    ensures places { IfSome result (λ _. All HasPlace (take count room.new)) }
    ensures none { IfNone result (LacksChanges bytes.now count) }
{
    for place in 0..count {
        room[place] = change_at(bytes, 1 + 5 * place)?;
    }
    Some(())
}
