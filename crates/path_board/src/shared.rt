//! The shared board.

ghost use Rattle.std.specs.Prelude.{◌≡◌, ◌+◌, ◌<◌, ◌≤◌, [], All, length, IsTrue, IsFalse, IfOk, IfErr, OnOk, OnErr};
ghost use Rattle.std.specs.Arc.{arc_value};
ghost use Rattle.turn_book.specs.Books.{seen_by, IsNoteOf};
ghost use Rattle.path_core.specs.declared.entry.Entry.TheVariants.{Accept, Halt, Publish};
ghost use Rattle.path_core.specs.Boards.{MayBePublished};
ghost use Rattle.path_core.specs.Histories.{accepted_count, published_prefix, IsHalting, IsLegal};
ghost use Rattle.path_core.specs.Looks.{IsJob};
ghost use Rattle.path_core.specs.Passes.{pass_of, BeginsWith, OthersAdd};
ghost use Rattle.path_core.specs.Refusals.{IsPublishError, IsRoomUsed, IsSubmitError, MayBeSubmitted};
ghost use Rattle.path_board.specs.Foundations.{foundation_of};
ghost use Rattle.path_board.specs.Passes.{base_by, count_of, looks_of, seen_of};
ghost use Rattle.path_board.specs.Passes.{IsPassOf, IsUpToDate, KeepsHeld, KeepsOlder, SamePass};
ghost use Rattle.path_board.specs.Calls.{AnswersAt, EntersAt, IsLookBut};

use crate::pass::Pass;
use crate::sharing::{copies, deal};
use crate::state::BoardState;
use edit_log::Edit;
use path_core::{Board, Entry, Job, Look, PublishError, SubmitError};
use std::alloc::{AllocError, Global};
use std::sync::{Arc, Wait};
use turn_book::{Book, MAX_SEATS, MakeRefused};
use versions::Version;

/// A board that passes use in threads, by turns.
#[derive(Drop)]
pub struct SharedBoard {
    pub(crate) book: Book<BoardState>,
}

/// There was no memory. The board comes back.
#[derive(Drop)]
pub struct ShareRefused {
    pub board: Board,
}

/// Entries were added since the pass looked.
#[derive(Clone, Copy, Debug, PartialEq, Eq)]
pub struct Moved {
    /// How many entries there are, at most [`MAX_ENTRIES`](path_core::MAX_ENTRIES).
    pub count: u64,
}

/// What a pass had seen. Another pass has seen it too, once it met the note.
pub type Note = turn_book::Note<BoardState>;

impl SharedBoard {
    ghost use Rattle.path_board.specs.SharedBoards.{board_id, AreAllPasses, AreNewPasses, GoesOnFromAll, IsBaseOfLast};

    /// Shares a board with no entries among 1 to 66 passes, in the order of their numbers, from 0 on.
    ///
    /// # Errors
    ///
    /// There was no memory. The board comes back.
    pub fn share(
        alloc: Global,
        board: Board,
        passes: u32,
    ) -> Result<(SharedBoard, Vec<Pass>), ShareRefused>
        requires some { 1 ≤ passes }
        requires few { passes ≤ MAX_SEATS }
        requires none { board.history ≡ [] }
        ensures ok { IfOk result (λ shared. AreNewPasses (board_id shared.0) board passes shared.1.items) }
        ensures err { IfErr result (λ refused. refused.board ≡ board) }
    {
        let Ok(versions) = copies(alloc, &board, passes) else {
            return Err(ShareRefused { board });
        };
        let Ok(room) = Vec::with_capacity(alloc, passes as usize) else {
            return Err(ShareRefused { board });
        };
        match Book::make(alloc, BoardState { board }, passes) {
            Ok((book, seats)) => Ok((SharedBoard { book }, deal(seats, versions, room))),
            Err(MakeRefused { state }) => Err(ShareRefused { board: state.board }),
        }
    }

    /// What there is to see now. The pass holds the published version from then on, where its copy is not refused.
    pub fn look<R: Wait>(&self, rt: &R, pass: &mut Pass) -> Look
        requires board { IsPassOf (board_id self.now) pass.old }
        ensures same { SamePass pass.old pass.new }
        ensures looks { looks_of pass.new ≡ looks_of pass.old + 1 }
        ensures look { AnswersAt pass.old pass.new (IsLookBut result) }
        ensures held { IsTrue result.held → IsUpToDate pass.new }
        ensures refused { IsFalse result.held → KeepsOlder pass.old pass.new }
    {
        let known = pass.held.prefix();
        let turn = self.book.turn(rt, &mut pass.seat);
        let state = turn.state();
        let seen = state.look();
        let count = state.count();
        let copied = state.copy_unless(known);
        turn.end();
        let held = pass.hold(count, copied);
        Look { held, ..seen }
    }

    /// Enters an edit, and gives how many edits are accepted then.
    ///
    /// # Errors
    ///
    /// Those of [`Board::submit`]. No entry is added.
    pub fn submit<R: Wait>(&self, rt: &R, pass: &mut Pass, edit: Edit) -> Result<u32, SubmitError>
        requires board { IsPassOf (board_id self.now) pass.old }
        ensures same { SamePass pass.old pass.new }
        ensures kept { KeepsHeld pass.old pass.new }
        ensures looks { looks_of pass.new ≡ looks_of pass.old + 1 }
        ensures entered { OnOk result (EntersAt pass.old pass.new (Accept pass.old.number edit)
            (λ board. MayBeSubmitted board edit)) }
        ensures count { IfOk result (λ count. count ≡ accepted_count (seen_of pass.new)) }
        ensures refused { IfErr result (λ error.
            AnswersAt pass.old pass.new (λ board. IsSubmitError board edit error)) }
    {
        let number = pass.number;
        let mut turn = self.book.turn(rt, &mut pass.seat);
        match turn.state_mut().submit(number, edit) {
            Ok(count) => {
                turn.commit(Entry::Accept { pass: number, edit });
                Ok(count)
            }
            Err(error) => {
                turn.end();
                Err(error)
            }
        }
    }

    /// The accepted edits past the known ones.
    ///
    /// # Errors
    ///
    /// Memory ran out, and not all accepted edits are known.
    pub fn job<R: Wait>(&self, rt: &R, pass: &mut Pass, known: u32) -> Result<Job, AllocError>
        requires board { IsPassOf (board_id self.now) pass.old }
        requires known { known ≤ accepted_count (seen_of pass.old) }
        ensures same { SamePass pass.old pass.new }
        ensures kept { KeepsHeld pass.old pass.new }
        ensures looks { looks_of pass.new ≡ looks_of pass.old + 1 }
        ensures job { IfOk result (λ job. AnswersAt pass.old pass.new (λ board. IsJob board known job)) }
        ensures refused { OnErr result
            (AnswersAt pass.old pass.new (λ board. known < accepted_count board.history)) }
    {
        let turn = self.book.turn(rt, &mut pass.seat);
        let answer = turn.state().job(known);
        turn.end();
        answer
    }

    /// Publishes a version, and gives how many edits it comes after.
    ///
    /// # Errors
    ///
    /// Those of [`Board::publish`]. No entry is added, and the version is dropped.
    pub fn publish<R: Wait>(
        &self,
        rt: &R,
        pass: &mut Pass,
        version: Arc<Version>,
    ) -> Result<u32, PublishError>
        requires board { IsPassOf (board_id self.now) pass.old }
        requires may { MayBePublished (base_by pass.old).start (base_by pass.old).order
            (seen_of pass.old) (arc_value version) }
        ensures same { SamePass pass.old pass.new }
        ensures kept { KeepsHeld pass.old pass.new }
        ensures looks { looks_of pass.new ≡ looks_of pass.old + 1 }
        ensures entered { OnOk result (EntersAt pass.old pass.new
            (Publish pass.old.number (arc_value version).prefix)
            (λ board. published_prefix board.history < (arc_value version).prefix)) }
        ensures prefix { IfOk result (λ prefix. prefix ≡ (arc_value version).prefix) }
        ensures refused { IfErr result (λ error.
            AnswersAt pass.old pass.new (λ board. IsPublishError board (arc_value version).prefix error)) }
    {
        let number = pass.number;
        let mut turn = self.book.turn(rt, &mut pass.seat);
        match turn.state_mut().publish(number, version) {
            Ok(prefix) => {
                turn.commit(Entry::Publish {
                    pass: number,
                    prefix,
                });
                Ok(prefix)
            }
            Err(error) => {
                turn.end();
                Err(error)
            }
        }
    }

    /// Enters a halt, and gives whether it did: a board that halts already stays as it is.
    ///
    /// # Errors
    ///
    /// Memory ran out, the room is used up and the board does not halt. No entry is added.
    pub fn halt<R: Wait>(&self, rt: &R, pass: &mut Pass) -> Result<bool, AllocError>
        requires board { IsPassOf (board_id self.now) pass.old }
        ensures same { SamePass pass.old pass.new }
        ensures kept { KeepsHeld pass.old pass.new }
        ensures looks { looks_of pass.new ≡ looks_of pass.old + 1 }
        ensures entered { IfOk result (λ halted. IsTrue halted →
            EntersAt pass.old pass.new (Halt pass.old.number) (λ board. IsHalting board.history → ⊥)) }
        ensures halts { IfOk result (λ halted. IsFalse halted →
            AnswersAt pass.old pass.new (λ board. IsHalting board.history)) }
        ensures refused { OnErr result (AnswersAt pass.old pass.new
            (λ board. (IsHalting board.history → ⊥) × IsRoomUsed board)) }
    {
        let number = pass.number;
        let mut turn = self.book.turn(rt, &mut pass.seat);
        match turn.state_mut().halt(number) {
            Ok(true) => {
                turn.commit(Entry::Halt { pass: number });
                Ok(true)
            }
            Ok(false) => {
                turn.end();
                Ok(false)
            }
            Err(error) => {
                turn.end();
                Err(error)
            }
        }
    }

    /// Whether the version that the pass holds is still the published one, by one load and with no turn.
    ///
    /// # Errors
    ///
    /// `Moved` where entries were added since the pass last looked and had the published version at hand. There may be
    /// no later version even so.
    pub fn fresh(&self, pass: &mut Pass) -> Result<(), Moved>
        requires board { IsPassOf (board_id self.now) pass.old }
        ensures same { SamePass pass.old pass.new }
        ensures kept { KeepsHeld pass.old pass.new }
        ensures looks { looks_of pass.new ≡ looks_of pass.old + 1 }
        ensures others { OthersAdd pass.old.number (seen_of pass.old) (seen_of pass.new) }
        ensures fresh { OnOk result (IsUpToDate pass.new) }
        ensures count { IfErr result (λ moved. moved.count ≡ length (seen_of pass.new)) }
        ensures moved { IfErr result (λ moved. count_of pass.old < moved.count) }
    {
        pass.held.grid();
        let count = self.book.count(&mut pass.seat);
        if count != pass.count {
            return Err(Moved { count });
        }
        Ok(())
    }

    /// A note of what the pass has seen.
    pub fn note(&self, pass: &mut Pass) -> Note
        requires board { IsPassOf (board_id self.now) pass.old }
        ensures same { SamePass pass.old pass.new }
        ensures kept { KeepsHeld pass.old pass.new }
        ensures looks { looks_of pass.new ≡ looks_of pass.old }
        ensures seen { seen_of pass.new ≡ seen_of pass.old }
        ensures note { IsNoteOf (board_id self.now) result }
        ensures told { seen_by result ≡ seen_of pass.old }
    {
        self.book.note(&mut pass.seat)
    }

    /// The pass has then seen what the note knows. It holds what it held.
    pub fn meet(&self, pass: &mut Pass, note: Note)
        requires board { IsPassOf (board_id self.now) pass.old }
        requires note { IsNoteOf (board_id self.now) note }
        ensures same { SamePass pass.old pass.new }
        ensures kept { KeepsHeld pass.old pass.new }
        ensures looks { looks_of pass.new ≡ looks_of pass.old }
        ensures others { OthersAdd pass.old.number (seen_of pass.old) (seen_of pass.new) }
        ensures met { BeginsWith (seen_of pass.new) (seen_by note) }
    {
        self.book.meet(&mut pass.seat, note);
    }

    /// Ends the sharing and gives the board. These are all passes, in the order of their numbers.
    pub fn close(self, passes: Vec<Pass>) -> Board
        requires passes { AreAllPasses (board_id self) passes.items }
        ensures legal { IsLegal result.start result.history }
        ensures seen { GoesOnFromAll passes.items result.history }
        ensures named { All (λ entry. pass_of entry < length passes.items) result.history }
        ensures base { IsBaseOfLast passes.items (foundation_of result) }
    {
        let SharedBoard { book } = self;
        let BoardState { board } = book.close(passes);
        board.entries();
        board
    }
}
