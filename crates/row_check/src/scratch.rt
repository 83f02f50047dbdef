//! The memory of a check, and the check of one target.

ghost use Rattle.std.specs.Prelude.{◌≡◌, ◌+◌, ◌<◌, IfOk, IfSome, IfNone, length};
ghost use Rattle.row_check.specs.Walks.{AreComponentCells, AreShaped};
ghost use Rattle.row_check.specs.Faults.{IsFirstFaultAmong};
ghost use Rattle.row_check.specs.Checking.{IsCheckedAmong, IsReady};

use crate::RowFault;
use crate::cursors::{Cursor, advance, first_cursors};
use crate::joining::join_sets;
use crate::keys::find_keys;
use crate::near::neighbours;
use crate::offers::find_sets;
use moves::Cell;
use row_store::RowPool;
use std::alloc::{AllocError, Global};

/// What is kept from target to target: 34 bytes a cell, taken once.
#[derive(Drop)]
pub(crate) struct Scratch {
    /// Where the eight moves from each place lead; the number of places stands for nowhere.
    near: Vec<[u16; 8]>,
    /// Where each source stands in its row.
    cursors: Vec<Cursor>,
    /// The keys of the walks to the target, and that of nowhere.
    keys: Vec<u32>,
    /// For each source the moves that are as good as its walk to the target.
    sets: Vec<u8>,
    /// For each source the moves that the sets of its run have in common.
    common: Vec<u8>,
}

impl Scratch {
    /// Takes all memory, before the first target.
    pub(crate) fn new(alloc: Global, cells: &[Cell], rows: &RowPool) -> Result<Scratch, AllocError>
        requires cells { AreComponentCells cells.now }
        requires rows { AreShaped cells.now rows.now }
        ensures ready { IfOk result (λ scratch. IsReady cells.now rows.now scratch 0) }
        ensures checked { IfOk result (λ scratch. IsCheckedAmong cells.now rows.now scratch 0) }
    {
        let near = neighbours(alloc, cells)?;
        let cursors = first_cursors(alloc, &near, rows)?;
        Ok(Scratch {
            near,
            cursors,
            keys: vec![in alloc; 0; cells.len() + 1]?,
            sets: vec![in alloc; 0; cells.len()]?,
            common: vec![in alloc; u8::MAX; cells.len()]?,
        })
    }

    /// Checks the next target; what is wrong there, if something is.
    pub(crate) fn check(
        &mut self,
        cells: &[Cell],
        rows: &RowPool,
        target: usize,
    ) -> Option<RowFault>
        requires cells { AreComponentCells cells.now }
        requires rows { AreShaped cells.now rows.now }
        requires target { target < length cells.now }
        requires ready { IsReady cells.now rows.now self.old target }
        requires checked { IsCheckedAmong cells.now rows.now self.old target }
        ensures ready { IfNone result (IsReady cells.now rows.now self.new (target + 1)) }
        ensures checked { IfNone result (IsCheckedAmong cells.now rows.now self.new (target + 1)) }
        ensures fault { IfSome result (IsFirstFaultAmong cells.now rows.now) }
    {
        // The cells are here for the contract alone.
        let _ = cells;
        let cursors = self.cursors.as_mut_slice();
        advance(cursors, &self.near, rows, target);
        let place = target as u32;
        if let Some(source) = find_keys(cursors, self.keys.as_mut_slice(), target) {
            let source = source as u32;
            return Some(RowFault::Walk {
                target: place,
                source,
            });
        }
        if let Some(source) = find_sets(&self.near, &self.keys, self.sets.as_mut_slice(), target) {
            let source = source as u32;
            return Some(RowFault::Worse {
                target: place,
                source,
            });
        }
        if let Some(source) = join_sets(
            rows,
            cursors,
            &self.sets,
            self.common.as_mut_slice(),
            target,
        ) {
            let source = source as u32;
            return Some(RowFault::Loose {
                target: place,
                source,
            });
        }
        None
    }
}
