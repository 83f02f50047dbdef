//! The board of one thread.

ghost use Rattle.std.specs.Prelude.{◌≡◌, ◌↔◌, ℕ, ◌<◌, ◌≤◌, length, IsFalse, IsOk, IfOk, IfErr, OnOk, OnErr, cond};
ghost use Rattle.std.specs.Arc.{arc_value};
ghost use Rattle.std.specs.List.{slice_get};
ghost use Rattle.path_core.specs.declared.TheConstants.{MAX_ENTRIES};
ghost use Rattle.path_core.specs.declared.entry.Entry.TheVariants.{Accept, Halt};
ghost use Rattle.path_core.specs.Boards.{IsFirst, MayBePublished, new_board, with_entry, with_version};
ghost use Rattle.path_core.specs.Histories.{accepted_count, published_count, published_prefix};
ghost use Rattle.path_core.specs.Histories.{IsHalting, IsLegal, IsVersionAt};
ghost use Rattle.path_core.specs.Looks.{IsJob, IsLook};
ghost use Rattle.path_core.specs.Refusals.{IsPublishError, IsRoomUsed, IsSubmitError, MayBeSubmitted};

use crate::entry::Entry;
use crate::error::{PublishError, SubmitError};
use crate::kept_entry::KeptEntry;
use cell_order::OrderKind;
use edit_log::{Edit, EditList, check};
use moves::Grid;
use std::alloc::{AllocError, Global};
use std::marker::Model;
use std::sync::Arc;
use versions::{Totals, Version};

/// What a pass sees at a glance.
#[derive(Clone, Copy, Debug, PartialEq, Eq)]
pub struct Look {
    /// How many edits the published version includes, at most 1,048,576.
    pub prefix: u32,
    /// How large the published version is.
    pub totals: Totals,
    /// How many edits were accepted, at most 1,048,576.
    pub accepted: u32,
    /// Whether the board is halting.
    pub halting: bool,
    /// Whether the caller holds the published version; it is always at hand here.
    pub held: bool,
}

/// What must be built: the edits that a version lacks.
#[derive(Debug, Drop)]
pub struct Job {
    /// How many edits were accepted, at most 1,048,576.
    pub prefix: u32,
    /// The edits past the known ones.
    pub edits: EditList,
}

/// A map that is edited, and its published versions. Contracts see the first map, the order of the
/// versions, the history, the published version, and the room for which memory was taken.
#[derive(Drop)]
pub struct Board {
    start: Grid,
    running: Grid,
    entries: Vec<KeptEntry>,
    edits: EditList,
    published: u32,
    halting: bool,
    version: Arc<Version>,
    room: u32,
}

impl Model for Board {
    ghost use Rattle.std.specs.Prelude.{vec_capacity};
    ghost use Rattle.std.specs.Arc.{arc_value};
    ghost use Rattle.path_core.specs.Boards.{Boarded, board_of};
    ghost use Rattle.path_core.specs.Kept.{IsKept};
    ghost use Rattle.path_core.specs.KeptEntries.{entries_of};

    ghost Value = { Boarded };

    ghost view = { λ b. board_of b.start (entries_of b.edits.edits b.entries.items) (arc_value b.version) b.room };

    ghost invariant = { λ b. IsKept
        (board_of b.start (entries_of b.edits.edits b.entries.items) (arc_value b.version) b.room)
        b.running b.edits b.entries.items b.published b.halting (vec_capacity b.entries) };
}

impl Board {
    /// Returns a board of that map with no entries and no room. Its published version is the first
    /// one.
    ///
    /// # Errors
    ///
    /// `AllocError` if memory runs out. The grid and the version are then dropped.
    pub fn start(alloc: Global, grid: Grid, version: Arc<Version>) -> Result<Board, AllocError>
        requires first { IsFirst grid (arc_value version) }
        ensures { IfOk result (λ board. board ≡ new_board grid (arc_value version) 0) }
    {
        Board::start_with(alloc, grid, version, 0)
    }

    /// Returns a board with room for `room` entries. It takes the memory for them now.
    ///
    /// # Errors
    ///
    /// `AllocError` if memory runs out. The grid and the version are then dropped.
    pub fn start_with(
        alloc: Global,
        grid: Grid,
        version: Arc<Version>,
        room: u32,
    ) -> Result<Board, AllocError>
        requires first { IsFirst grid (arc_value version) }
        requires room { room ≤ MAX_ENTRIES }
        ensures { IfOk result (λ board. board ≡ new_board grid (arc_value version) room) }
    {
        // From here it is known that this is a version of its map.
        version.grid();
        let mut edits = EditList::new(alloc);
        edits.reserve(room)?;
        Ok(Board {
            running: grid.copy()?,
            start: grid,
            entries: Vec::with_capacity(alloc, room as usize)?,
            edits,
            published: 0,
            halting: false,
            version,
            room,
        })
    }

    /// Enters an edit, and returns the number of edits accepted by then.
    ///
    /// The cost does not grow with the number of accepted edits, except when memory is reallocated
    /// now and then.
    ///
    /// # Errors
    ///
    /// The first reason to refuse the edit on the board's map, otherwise out of memory, which
    /// happens only if the room is used up. The board is then unchanged.
    pub fn submit(&mut self, pass: u32, edit: Edit) -> Result<u32, SubmitError>
        ensures may { OnOk result (MayBeSubmitted self.old edit) }
        ensures entered { OnOk result (self.new ≡ with_entry self.old (Accept pass edit)) }
        ensures count { IfOk result (λ count. count ≡ accepted_count self.new.history) }
        ensures refused { IfErr result (IsSubmitError self.old edit) }
        ensures as_before { OnErr result (self.new ≡ self.old) }
    {
        check(&self.running, self.edits.len(), &edit)?;
        self.edits.reserve_one()?;
        self.entries.reserve(1)?;
        edit.apply(&mut self.running);
        let place = self.edits.len();
        self.edits.push_reserved(&edit);
        self.entries
            .push_reserved(KeptEntry::Accept { pass, place });
        Ok(self.edits.len())
    }

    /// Publishes a version, and returns the number of edits that it includes.
    ///
    /// # Errors
    ///
    /// `Overtaken` if the published version includes as many edits or more, otherwise out of
    /// memory, which happens only if the room is used up. The board is then unchanged, and the
    /// version is dropped.
    pub fn publish(&mut self, pass: u32, version: Arc<Version>) -> Result<u32, PublishError>
        requires may { MayBePublished self.old.start self.old.order self.old.history (arc_value version) }
        ensures newer { OnOk result (published_prefix self.old.history < (arc_value version).prefix) }
        ensures entered { OnOk result (self.new ≡ with_version self.old pass (arc_value version)) }
        ensures prefix { IfOk result (λ prefix. prefix ≡ (arc_value version).prefix) }
        ensures refused { IfErr result (IsPublishError self.old (arc_value version).prefix) }
        ensures as_before { OnErr result (self.new ≡ self.old) }
    {
        let by = self.version.prefix();
        let prefix = version.prefix();
        if prefix <= by {
            return Err(PublishError::Overtaken { by });
        }
        self.entries.reserve(1)?;
        self.entries
            .push_reserved(KeptEntry::Publish { pass, prefix });
        self.published += 1;
        self.version = version;
        Ok(prefix)
    }

    /// Enters a halt, and returns whether it did: a board that is already halting stays as it is.
    /// Edits and versions are still taken.
    ///
    /// # Errors
    ///
    /// `AllocError` if memory runs out, which happens only if the room is used up and the board is
    /// not already halting. The board is then unchanged.
    pub fn halt(&mut self, pass: u32) -> Result<bool, AllocError>
        ensures first { IfOk result (λ halted. IsFalse halted ↔ IsHalting self.old.history) }
        ensures entered { IfOk result (λ halted.
            self.new ≡ cond halted (with_entry self.old (Halt pass)) self.old) }
        ensures refused { OnErr result (IsRoomUsed self.old) }
        ensures halts { IsHalting self.old.history → IsOk result }
        ensures as_before { OnErr result (self.new ≡ self.old) }
    {
        if self.halting {
            return Ok(false);
        }
        self.entries.reserve(1)?;
        self.entries.push_reserved(KeptEntry::Halt { pass });
        self.halting = true;
        Ok(true)
    }

    /// Returns what there is to see now.
    pub fn look(&self) -> Look
        ensures { IsLook self.now result }
    {
        Look {
            prefix: self.version.prefix(),
            totals: self.version.totals(),
            accepted: self.edits.len(),
            halting: self.halting,
            held: true,
        }
    }

    /// Returns the published version.
    pub fn version(&self) -> &Version
        ensures value { result.now ≡ self.now.version }
        ensures version { IsVersionAt self.now.start self.now.order self.now.history
            (published_prefix self.now.history) self.now.version }
    {
        &self.version
    }

    /// Returns the published version for the caller to hold.
    ///
    /// # Errors
    ///
    /// `AllocError` if it is held too often to be counted.
    pub fn copy_version(&self) -> Result<Arc<Version>, AllocError>
        ensures { IfOk result (λ copy. arc_value copy ≡ self.now.version) }
    {
        self.version.clone()
    }

    /// Returns the accepted edits past the first `known`. If all are known, it takes no memory.
    ///
    /// # Errors
    ///
    /// `AllocError` if memory runs out.
    pub fn job(&self, known: u32) -> Result<Job, AllocError>
        requires { known ≤ accepted_count self.now.history }
        ensures job { IfOk result (IsJob self.now known) }
        ensures none { known ≡ accepted_count self.now.history → IsOk result }
    {
        Ok(Job {
            prefix: self.edits.len(),
            edits: self.edits.tail(known)?,
        })
    }

    /// Returns the number of entries, at most [`MAX_ENTRIES`](crate::MAX_ENTRIES).
    pub fn entries(&self) -> u32
        ensures count { result ≡ length self.now.history }
        ensures legal { IsLegal self.now.start self.now.history }
        ensures limit { length self.now.history ≤ MAX_ENTRIES }
    {
        self.entries.len() as u32
    }

    /// Returns the entry at that place, or `None` past the end.
    pub fn entry(&self, place: u32) -> Option<Entry>
        ensures { result ≡ slice_get self.now.history place }
    {
        let entry = match *self.entries.get(place as usize)? {
            KeptEntry::Accept { pass, place } => Entry::Accept {
                pass,
                edit: self.edits.get(place)?,
            },
            KeptEntry::Publish { pass, prefix } => Entry::Publish { pass, prefix },
            KeptEntry::Halt { pass } => Entry::Halt { pass },
        };
        Some(entry)
    }

    /// Returns the number of accepted edits, at most 1,048,576.
    pub fn accepted(&self) -> u32
        ensures { result ≡ accepted_count self.now.history }
    {
        self.edits.len()
    }

    /// Returns the number of published versions without the first one, at most 1,048,576.
    pub fn published(&self) -> u32
        ensures { result ≡ published_count self.now.history }
    {
        self.published
    }

    /// Returns the number of entries for which the board took memory when it was made, at most
    /// [`MAX_ENTRIES`](crate::MAX_ENTRIES).
    pub fn room(&self) -> u32
        ensures room { result ≡ self.now.room }
        ensures limit { result ≤ MAX_ENTRIES }
    {
        self.room
    }

    /// Returns the order of the cells in each of its versions.
    pub fn kind(&self) -> OrderKind
        ensures { result ≡ self.now.order }
    {
        self.version.kind()
    }
}
