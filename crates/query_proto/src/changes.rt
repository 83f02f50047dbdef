//! Changes in the bytes of a frame.

ghost use Rattle.std.specs.Prelude.{◌≡◌, ◌+◌, ◌*◌, ◌≤◌, ◌∷◌, ◌++◌, drop, length, IfNone, IfSome};
ghost use Rattle.edit_log.specs.declared.TheConstants.{MAX_CHANGES};
ghost use Rattle.query_proto.specs.Frames.{BeginsWithNoChange, CountsChanges, CountsNoChanges, GrowsFront, IsTerrainOf};
ghost use Rattle.query_proto.specs.Frames.{SpellsNoChanges, StandsAtFront, change_bytes, changes_bytes, edit_bytes, terrain_byte};

use crate::kinds::{CHANGE, CHANGES};
use crate::reading::{byte_at, cell_at};
use crate::writing::{put_byte, put_cell};
use edit_log::{CellChange, Edit, MAX_CHANGES};
use moves::{Cell, Terrain};

/// The filler of a room before changes are read into it.
const UNREAD: CellChange = CellChange {
    cell: Cell { x: 0, y: 0 },
    terrain: Terrain::Blocked,
};

/// The terrain with this number.
fn terrain_of(byte: u8) -> Option<Terrain>
    ensures { IsTerrainOf byte result }
{
    match byte {
        0 => Some(Terrain::Blocked),
        1 => Some(Terrain::Land),
        2 => Some(Terrain::Water),
        _ => None,
    }
}

/// The number of a terrain.
fn byte_of_terrain(terrain: Terrain) -> u8
    ensures { result ≡ terrain_byte terrain }
{
    match terrain {
        Terrain::Blocked => 0,
        Terrain::Land => 1,
        Terrain::Water => 2,
    }
}

/// The change in the five bytes at this place.
pub fn change_at(frame: &[u8], at: usize) -> Option<CellChange>
    requires { at + 5 ≤ length frame.now }
    ensures some { IfSome result
        (λ change. drop at frame.now ≡ change_bytes change ++ drop (at + 5) frame.now) }
    ensures none { IfNone result (BeginsWithNoChange (drop at frame.now)) }
{
    let cell = cell_at(frame, at);
    let byte = byte_at(frame, at + 4);
    let terrain = terrain_of(byte)?;
    Some(CellChange { cell, terrain })
}

/// The edit with the changes of a frame, after its kind and their number. It allocates nothing.
pub fn edit_in(frame: &[u8], count: usize) -> Option<Edit>
    requires { CountsChanges frame.now count }
    ensures some { IfSome result (λ edit. drop 2 frame.now ≡ changes_bytes edit) }
    ensures count { IfSome result (λ edit. length edit ≡ count) }
    ensures none { IfNone result (SpellsNoChanges (drop 2 frame.now)) }
{
    let mut room = [UNREAD; MAX_CHANGES];
    let changes = &mut room[..count];
    read_changes(frame, changes)?;
    Edit::of(changes)
}

/// Reads the changes of a frame, as many as `changes` has room for.
fn read_changes(frame: &[u8], changes: &mut [CellChange]) -> Option<()>
    requires { length frame.now ≡ 2 + 5 * length changes.old }
    ensures all { IfSome result (λ _. drop 2 frame.now ≡ changes_bytes changes.new) }
    ensures none { IfNone result (SpellsNoChanges (drop 2 frame.now)) }
    ensures len { length changes.new ≡ length changes.old }
{
    for place in 0..changes.len() {
        changes[place] = change_at(frame, 2 + 5 * place)?;
    }
    Some(())
}

/// How many changes a frame says that it has; its length must agree.
pub fn count_in(frame: &[u8]) -> Option<usize>
    ensures some { IfSome result (CountsChanges frame.now) }
    ensures none { IfNone result (CountsNoChanges frame.now) }
{
    if frame.len() < 2 {
        return None;
    }
    let count = usize::from(byte_at(frame, 1));
    if count < 2 {
        return None;
    }
    if count > MAX_CHANGES {
        return None;
    }
    if frame.len() != 2 + 5 * count {
        return None;
    }
    Some(count)
}

/// Writes the frame of an edit to the front of a piece, and says how many bytes it has.
pub fn put_edit(out: &mut [u8], changes: &[CellChange]) -> usize
    requires room { 322 ≤ length out.old }
    requires few { length changes.now ≤ MAX_CHANGES }
    ensures frame { StandsAtFront (edit_bytes changes.now) out.old out.new result }
    ensures limit { result ≤ 322 }
    ensures len { length out.new ≡ length out.old }
{
    match changes {
        [change] => put_one(out, *change),
        _ => put_several(out, changes),
    }
}

/// Writes the frame of one change.
fn put_one(out: &mut [u8], change: CellChange) -> usize
    requires { 6 ≤ length out.old }
    ensures frame { StandsAtFront (CHANGE ∷ change_bytes change) out.old out.new result }
    ensures limit { result ≡ 6 }
    ensures len { length out.new ≡ length out.old }
{
    let at = put_byte(out, 0, CHANGE);
    put_change(out, at, change)
}

/// Writes the frame of several changes.
fn put_several(out: &mut [u8], changes: &[CellChange]) -> usize
    requires room { 2 + 5 * length changes.now ≤ length out.old }
    requires few { length changes.now ≤ MAX_CHANGES }
    ensures frame { StandsAtFront
        (CHANGES ∷ length changes.now ∷ changes_bytes changes.now) out.old out.new result }
    ensures limit { result ≡ 2 + 5 * length changes.now }
    ensures len { length out.new ≡ length out.old }
{
    let at = put_byte(out, 0, CHANGES);
    let mut next = put_byte(out, at, changes.len() as u8);
    for change in changes {
        next = put_change(out, next, *change);
    }
    next
}

/// Writes a change in five bytes.
fn put_change(out: &mut [u8], at: usize, change: CellChange) -> usize
    requires { at + 5 ≤ length out.old }
    ensures grows { GrowsFront (change_bytes change) at out.old out.new result }
    ensures next { result ≡ at + 5 }
    ensures len { length out.new ≡ length out.old }
{
    let next = put_cell(out, at, change.cell);
    put_byte(out, next, byte_of_terrain(change.terrain))
}
