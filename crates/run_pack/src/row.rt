//! A row of runs that can only be read by probes, each of which is counted.
ghost use Rattle.std.specs.Prelude.{◌≡◌, ℕ, ◌+◌, ◌<◌, ◌≤◌, length, slice_index_or};
ghost use Rattle.run_pack.specs.Runs.{no_run};

use crate::steps::Steps;
use crate::{MAX_PLACES, Run, run_of, word};
use std::marker::Model;
use std::sync::ledger::Ledger;

/// How a row may be kept: as the runs themselves, or as a word for each.
pub trait Stored: Copy {
    ghost use Rattle.run_pack.specs.declared.Run.{Run};

    ghost run_of: { Self → Run };

    /// Keeps a run.
    fn keep(run: Run) -> Self
        requires start { run.start < MAX_PLACES }
        requires number { run.mv ≤ 7 }
        ensures { run_of result ≡ run };

    /// Returns the run that is kept.
    fn run(self) -> Run
        ensures { result ≡ run_of self };
}

impl Stored for Run {
    ghost run_of = { λ run. run };

    fn keep(run: Run) -> Self {
        run
    }

    fn run(self) -> Run {
        self
    }
}

impl Stored for u32 {
    ghost use Rattle.run_pack.specs.Runs.{run_of_word};

    ghost run_of = { run_of_word };

    fn keep(run: Run) -> Self {
        word(run)
    }

    fn run(self) -> Run {
        run_of(self)
    }
}

/// A row whose runs are read one at a time.
#[derive(Drop)]
pub struct Row<'a, S: Stored> {
    stored: &'a [S],
}

impl<'a, S: Stored> Model for Row<'a, S> {
    ghost use Rattle.std.specs.Prelude.{List, map};
    ghost use Rattle.run_pack.specs.declared.Run.{Run};

    ghost Value = { List Run };

    ghost view = { λ row. map S.run_of row.stored.now };
}

impl<'a, S: Stored> Row<'a, S> {
    ghost use Rattle.std.specs.Prelude.{map};

    /// Returns the row kept in this slice.
    pub fn new(stored: &'a [S]) -> Self
        ensures { result ≡ map S.run_of stored.now }
    {
        Row { stored }
    }

    /// Returns the number of runs in the row.
    pub fn len(&self) -> usize
        ensures { result ≡ length self.now }
    {
        self.stored.len()
    }

    /// Makes one probe: reads the run at this index and counts a step.
    pub fn probe<L: Ledger>(&self, index: usize, steps: &mut Steps<L>) -> S
        requires { index < length self.now }
        ensures read { S.run_of result ≡ slice_index_or self.now index no_run }
        ensures counted { steps.new ≡ steps.old + 1 }
    {
        let stored = self.stored;
        steps.tick();
        stored[index]
    }
}
