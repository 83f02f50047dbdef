//! The places whose rows nobody builds yet.
//!
//! They are hints that workers leave one another, and no proof speaks of them: a row is right wherever it is found, and
//! what nobody took is built in the end.

ghost use Rattle.std.specs.Prelude.{◌≡◌, length};

use crate::rows::is_blank;
use row_store::RowPool;
use std::alloc::{AllocError, Global};
use std::sync::atomic::{AtomicBool, AtomicU64, Ordering};
use std::sync::{Mutex, MutexGuard};
use std::thread;

/// How many places a block has, whose changes are counted together.
const BLOCK: usize = 64;

/// How often a worker makes way for others at most before it chooses beside them.
const PATIENCE: u32 = 1_000;

/// For each place of a component, whether its row may be taken. All workers share it.
#[derive(Drop)]
pub(crate) struct Pending {
    marks: Vec<AtomicBool>,
    /// Whether the row at a place is known, which then is never offered; empty where none is.
    known: Vec<bool>,
    /// How often a mark of each block has changed.
    changes: Vec<AtomicU64>,
    /// Whoever chooses has it.
    turn: Mutex<()>,
}

impl Pending {
    /// No row may be taken yet.
    pub(crate) fn new(alloc: Global, places: usize) -> Result<Pending, AllocError> {
        let mut marks = Vec::with_capacity(alloc, places)?;
        for _ in 0..places {
            marks.push(AtomicBool::new(false))?;
        }
        let blocks = places.div_ceil(BLOCK);
        let mut changes = Vec::with_capacity(alloc, blocks)?;
        for _ in 0..blocks {
            changes.push(AtomicU64::new(0))?;
        }
        Ok(Pending {
            marks,
            known: Vec::new(alloc),
            changes,
            turn: Mutex::new(()),
        })
    }

    /// No row may be taken yet, and those that are not blank among these never.
    pub(crate) fn beside(alloc: Global, rows: &RowPool) -> Result<Pending, AllocError> {
        let mut pending = Pending::new(alloc, rows.len())?;
        for place in 0..rows.len() {
            pending.known.push(!is_blank(rows, place))?;
        }
        Ok(pending)
    }

    /// Waits until nobody else chooses: each takes what is best of what the one before has left. Who has made way often
    /// enough goes on without, and may want the same rows as another, which costs time and nothing else.
    pub(crate) fn turn(&self) -> Option<MutexGuard<'_, ()>> {
        for _ in 0..PATIENCE {
            if let Some(turn) = self.turn.try_lock() {
                return Some(turn);
            }
            thread::yield_now();
        }
        None
    }

    /// How many blocks there are.
    pub(crate) fn blocks(&self) -> usize {
        self.changes.len()
    }

    /// The rows from one place to before another may be taken, where they are not known.
    pub(crate) fn offer(&self, from: usize, upto: usize) {
        for place in from..upto {
            if let Some(mark) = self.marks.get(place) {
                mark.store(!self.is_known(place), Ordering::Relaxed);
                self.count_change(place);
            }
        }
    }

    /// Whether the row at a place is known.
    fn is_known(&self, place: usize) -> bool {
        match self.known.get(place) {
            Some(is_known) => *is_known,
            None => false,
        }
    }

    /// Whether the row at a place may be taken.
    pub(crate) fn may_be_taken(&self, place: usize) -> bool {
        match self.marks.get(place) {
            Some(mark) => mark.load(Ordering::Relaxed),
            None => false,
        }
    }

    /// Takes the row at a place; `false` where somebody else was faster.
    pub(crate) fn take(&self, place: usize) -> bool {
        match self.marks.get(place) {
            Some(mark) => {
                let is_there = mark.swap(false, Ordering::Relaxed);
                self.count_change(place);
                is_there
            }
            None => false,
        }
    }

    /// Tells the others that the mark of a place has changed.
    fn count_change(&self, place: usize) {
        if let Some(count) = self.changes.get(place / BLOCK) {
            count.fetch_add(1, Ordering::Relaxed);
        }
    }

    /// Notes which rows may be taken, in the blocks that have changed since a worker last looked at them.
    pub(crate) fn look(&self, wanted: &mut [bool], seen: &mut [u64])
        ensures wanted { length wanted.new ≡ length wanted.old }
        ensures seen { length seen.new ≡ length seen.old }
    {
        for (block, count) in self.changes.iter().enumerate() {
            let changes = count.load(Ordering::Relaxed);
            if block < seen.len() && seen[block] != changes {
                seen[block] = changes;
                self.note(wanted, block);
            }
        }
    }

    /// Notes which rows of a block may be taken.
    fn note(&self, wanted: &mut [bool], block: usize)
        ensures { length wanted.new ≡ length wanted.old }
    {
        let from = block.saturating_mul(BLOCK);
        for place in from..from.saturating_add(BLOCK).min(wanted.len()) {
            wanted[place] = self.may_be_taken(place);
        }
    }
}
