//! The board as the state of a book, which stands for its history.

ghost use Rattle.std.specs.Prelude.{◌≡◌, ◌↔◌, ◌<◌, ◌≤◌, length, IsTrue, IsFalse, IfOk, IfErr, OnOk, OnErr};
ghost use Rattle.std.specs.Arc.{arc_value};
ghost use Rattle.path_core.specs.declared.entry.Entry.TheVariants.{Accept, Halt, Publish};
ghost use Rattle.path_core.specs.Boards.{MayBePublished};
ghost use Rattle.path_core.specs.Histories.{accepted_count, published_prefix, IsHalting};
ghost use Rattle.path_core.specs.Looks.{IsJob, IsLook};
ghost use Rattle.path_core.specs.Refusals.{IsPublishError, IsRoomUsed, IsSubmitError, MayBeSubmitted};

use cell_order::OrderKind;
use edit_log::Edit;
use moves::Grid;
use path_core::{Board, Entry, Job, Look, PublishError, SubmitError};
use std::alloc::AllocError;
use std::sync::Arc;
use turn_book::Serial;
use versions::Version;

/// What no call changes: the board's first map, the order of its versions and its room. No code makes one.
#[derive(Drop)]
pub struct Foundation {
    /// The map before any edit.
    pub start: Grid,
    /// The order of the cells in each version.
    pub order: OrderKind,
    /// How many entries the board took memory for.
    pub room: u32,
}

/// A board as the state of a book.
#[derive(Drop)]
pub struct BoardState {
    pub(crate) board: Board,
}

impl Serial for BoardState {
    ghost use Rattle.path_core.specs.Passes.{pass_of};
    ghost use Rattle.path_board.specs.Listed.{listed, listed_short};
    ghost use Rattle.path_board.specs.Foundations.{foundation_of};

    type Entry = Entry;

    type Base = Foundation;

    ghost list = { λ state. listed state.board.history };

    ghost base = { λ state. foundation_of state.board };

    ghost names = { pass_of };

    ghost short = { λ state. listed_short state.board.history };
}

/// The published version, as whoever looks holds it afterwards.
#[derive(Drop)]
pub enum Copied {
    /// It is held already.
    Held,
    /// A copy.
    Copy(Arc<Version>),
    /// It is another one than the held one, and the copy was refused.
    Refused,
}

impl BoardState {
    ghost use Rattle.path_board.specs.Listed.{listed};
    ghost use Rattle.path_board.specs.States.{AddsEntry, IsCopied, IsState};

    // The state stands for the whole history of its board.
    fn whole(&self)
        ensures { IsState self.now }
    {
        self.board.version();
        self.board.entries();
    }

    /// Enters an edit.
    ///
    /// # Errors
    ///
    /// Those of [`Board::submit`].
    pub fn submit(&mut self, pass: u32, edit: Edit) -> Result<u32, SubmitError>
        ensures state { IsState self.old }
        ensures may { OnOk result (MayBeSubmitted self.old.board edit) }
        ensures entered { OnOk result (AddsEntry self.old self.new (Accept pass edit)) }
        ensures count { IfOk result (λ count. count ≡ accepted_count self.new.board.history) }
        ensures refused { IfErr result (IsSubmitError self.old.board edit) }
        ensures as_before { OnErr result (self.new ≡ self.old) }
    {
        self.whole();
        let answer = self.board.submit(pass, edit);
        self.whole();
        answer
    }

    /// Publishes a version.
    ///
    /// # Errors
    ///
    /// Those of [`Board::publish`].
    pub fn publish(&mut self, pass: u32, version: Arc<Version>) -> Result<u32, PublishError>
        requires may { MayBePublished self.old.board.start self.old.board.order (listed self.old.board.history)
            (arc_value version) }
        ensures state { IsState self.old }
        ensures newer { OnOk result (published_prefix self.old.board.history < (arc_value version).prefix) }
        ensures entered { OnOk result (AddsEntry self.old self.new (Publish pass (arc_value version).prefix)) }
        ensures prefix { IfOk result (λ prefix. prefix ≡ (arc_value version).prefix) }
        ensures refused { IfErr result (IsPublishError self.old.board (arc_value version).prefix) }
        ensures as_before { OnErr result (self.new ≡ self.old) }
    {
        self.whole();
        let answer = self.board.publish(pass, version);
        self.whole();
        answer
    }

    /// Enters a halt, where none is there.
    ///
    /// # Errors
    ///
    /// Those of [`Board::halt`].
    pub fn halt(&mut self, pass: u32) -> Result<bool, AllocError>
        ensures state { IsState self.old }
        ensures first { IfOk result (λ halted. IsFalse halted ↔ IsHalting self.old.board.history) }
        ensures entered { IfOk result (λ halted. IsTrue halted → AddsEntry self.old self.new (Halt pass)) }
        ensures halts { IfOk result (λ halted. IsFalse halted → self.new ≡ self.old) }
        ensures refused { OnErr result ((IsHalting self.old.board.history → ⊥) × IsRoomUsed self.old.board) }
        ensures as_before { OnErr result (self.new ≡ self.old) }
    {
        self.whole();
        let answer = self.board.halt(pass);
        self.whole();
        answer
    }

    /// What there is to see now.
    pub fn look(&self) -> Look
        ensures state { IsState self.now }
        ensures look { IsLook self.now.board result }
    {
        self.whole();
        self.board.look()
    }

    /// How many entries there are.
    pub fn count(&self) -> u64
        ensures { result ≡ length self.now.board.history }
    {
        u64::from(self.board.entries())
    }

    /// The published version for whoever holds one of that prefix.
    pub fn copy_unless(&self, held: u32) -> Copied
        ensures { IsCopied self.now.board held result }
    {
        if self.board.version().prefix() == held {
            return Copied::Held;
        }
        match self.board.copy_version() {
            Ok(copy) => Copied::Copy(copy),
            Err(_) => Copied::Refused,
        }
    }

    /// The accepted edits past the known ones.
    ///
    /// # Errors
    ///
    /// Those of [`Board::job`].
    pub fn job(&self, known: u32) -> Result<Job, AllocError>
        requires { known ≤ accepted_count (listed self.now.board.history) }
        ensures state { IsState self.now }
        ensures job { IfOk result (IsJob self.now.board known) }
        ensures refused { OnErr result (known < accepted_count self.now.board.history) }
    {
        self.whole();
        self.board.job(known)
    }
}
