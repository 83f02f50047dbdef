//! The log of edits, in the order in which they were accepted.

ghost use Rattle.std.specs.Prelude.{◌≡◌, ℕ, ◌+◌, ◌-◌, ◌<◌, ◌≤◌, ◌==◌, [], ◌∷◌, ◌++◌, length, take, drop, max};
ghost use Rattle.std.specs.Prelude.{IsOk, IfOk, OnOk, OnErr};
ghost use Rattle.std.specs.List.{flat_map, slice_get, slice_index_or};
ghost use Rattle.edit_log.specs.declared.TheConstants.{MAX_CHANGES};
ghost use Rattle.edit_log.specs.Edits.{EditsInside, map_after};
ghost use Rattle.edit_log.specs.EditLists.{edit_list};

use crate::MAX_CHANGES;
use crate::edit::{CellChange, Edit, make};
use moves::Grid;
use std::alloc::{AllocError, Global};
use std::marker::Model;

/// The most edits that a list may have, so that all their changes can be counted.
const MAX_LEN: usize = u32::MAX as usize / MAX_CHANGES;

/// A list of at most 67,108,863 edits. Contracts see the edits, and how many more can be pushed
/// without taking memory.
///
/// An edit of one change takes ten bytes. Memory reserved for more edits is not written before they
/// are pushed.
#[derive(Debug, Drop)]
pub struct EditList {
    /// The changes of all edits, one edit after another.
    changes: Vec<CellChange>,
    /// For each edit, the number of changes in it and the edits before it.
    ends: Vec<u32>,
    /// The number of edits for which memory is reserved.
    room: u32,
}

impl Model for EditList {
    ghost use Rattle.std.specs.Prelude.{◌-◌, length, vec_len, vec_capacity};
    ghost use Rattle.edit_log.specs.EditLists.{EditLog, IsStored, edit_list, edits_between};

    ghost Value = { EditLog };

    ghost view = { λ list. edit_list (edits_between 0 list.ends.items list.changes.items)
        (list.room - length list.ends.items) };

    ghost invariant = { λ list. IsStored list.changes.items list.ends.items list.room
        (vec_capacity list.changes) (vec_capacity list.ends) };
}

impl EditList {
    /// Returns the empty list. It takes no memory.
    pub fn new(alloc: Global) -> EditList
        ensures { result ≡ edit_list [] 0 }
    {
        EditList {
            changes: Vec::new(alloc),
            ends: Vec::new(alloc),
            room: 0,
        }
    }

    /// Reserves memory to push one edit. It takes none if enough is already reserved.
    ///
    /// # Errors
    ///
    /// `AllocError` if memory runs out, or the list would be longer than can be counted.
    pub fn reserve_one(&mut self) -> Result<(), AllocError>
        ensures edits { self.new.edits ≡ self.old.edits }
        ensures room { OnOk result (self.new.spare ≡ max self.old.spare 1) }
        ensures refused { OnErr result (self.new ≡ self.old) }
        ensures enough { OnErr result (self.old.spare < 1) }
    {
        self.reserve(1)
    }

    /// Reserves memory to push `count` edits of any size. It takes none if enough is already
    /// reserved.
    ///
    /// # Errors
    ///
    /// `AllocError` if memory runs out, or the list would be longer than can be counted.
    pub fn reserve(&mut self, count: u32) -> Result<(), AllocError>
        ensures edits { self.new.edits ≡ self.old.edits }
        ensures room { OnOk result (self.new.spare ≡ max self.old.spare count) }
        ensures refused { OnErr result (self.new ≡ self.old) }
        ensures enough { OnErr result (self.old.spare < count) }
    {
        let len = self.ends.len();
        if len + count as usize <= self.room as usize {
            return Ok(());
        }
        if len + count as usize > MAX_LEN {
            return Err(AllocError);
        }
        self.changes.reserve(count as usize * MAX_CHANGES)?;
        self.ends.reserve(count as usize)?;
        self.room = (len + count as usize) as u32;
        Ok(())
    }

    /// Adds an edit at the end. It takes no memory.
    pub fn push_reserved(&mut self, edit: &Edit)
        requires spare { 0 < self.old.spare }
        ensures { self.new ≡ edit_list (self.old.edits ++ edit.now ∷ []) (self.old.spare - 1) }
    {
        self.push_changes(edit.changes());
    }

    /// Adds the edit of these changes at the end.
    fn push_changes(&mut self, changes: &[CellChange])
        requires spare { 0 < self.old.spare }
        requires some { 1 ≤ length changes.now }
        requires few { length changes.now ≤ MAX_CHANGES }
        ensures { self.new ≡ edit_list (self.old.edits ++ changes.now ∷ []) (self.old.spare - 1) }
    {
        self.changes.extend_from_slice(changes).unwrap();
        self.ends.push_reserved(self.changes.len() as u32);
    }

    /// Returns the number of edits.
    pub fn len(&self) -> u32
        ensures { result ≡ length self.now.edits }
    {
        self.ends.len() as u32
    }

    /// Returns whether there are no edits.
    pub fn is_empty(&self) -> bool
        ensures { result ≡ (length self.now.edits == 0) }
    {
        self.ends.is_empty()
    }

    /// Returns the edit at that place, or `None` past the end.
    pub fn get(&self, place: u32) -> Option<Edit>
        ensures { result ≡ slice_get self.now.edits place }
    {
        if place >= self.len() {
            return None;
        }
        Edit::of(self.changes_at(place))
    }

    /// Returns the changes of the edit at that place, which must be before the end.
    pub fn changes_at(&self, place: u32) -> &[CellChange]
        requires { place < length self.now.edits }
        ensures changes { result.now ≡ slice_index_or self.now.edits place [] }
        ensures some { 1 ≤ length result.now }
        ensures few { length result.now ≤ MAX_CHANGES }
    {
        // From here it is known that each edit has some changes and not too many.
        let _ends = &self.ends;
        let place = place as usize;
        part(self.changes(), self.start(place), self.start(place + 1))
    }

    /// Returns where the changes of the edit at that place begin among all changes, or at the end,
    /// where they end.
    fn start(&self, place: usize) -> usize
        requires { place ≤ length self.now.edits }
        ensures { result ≡ length (flat_map (λ edit. edit) (take place self.now.edits)) }
    {
        match place.checked_sub(1) {
            Some(before) => self.ends[before] as usize,
            None => 0,
        }
    }

    /// Returns the changes of all edits, one edit after another.
    pub fn changes(&self) -> &[CellChange]
        ensures { result.now ≡ flat_map (λ edit. edit) self.now.edits }
    {
        self.changes.as_slice()
    }

    /// Returns a list of the edits from that place on. If the place is the end, it takes no memory.
    ///
    /// # Errors
    ///
    /// `AllocError` if memory runs out.
    pub fn tail(&self, place: u32) -> Result<EditList, AllocError>
        requires { place ≤ length self.now.edits }
        ensures edits { IfOk result (λ list. list.edits ≡ drop place self.now.edits) }
        ensures none { place ≡ length self.now.edits → IsOk result }
    {
        let mut list = EditList::new(*self.changes.allocator());
        list.reserve(self.len() - place)?;
        for next in place..self.len() {
            list.push_changes(self.changes_at(next));
        }
        Ok(list)
    }
}

/// Returns the changes from `start` up to but not including `end`.
fn part(changes: &[CellChange], start: usize, end: usize) -> &[CellChange]
    requires rises { start ≤ end }
    requires within { end ≤ length changes.now }
    ensures { result.now ≡ take (end - start) (drop start changes.now) }
{
    &changes[start..end]
}

/// Makes the edits, one after another.
pub fn apply(grid: &mut Grid, edits: &EditList)
    requires inside { EditsInside grid.old edits.now.edits }
    ensures { grid.new ≡ map_after grid.old edits.now.edits }
{
    make(edits.changes(), grid);
}
