//! Boards that passes share, one after the other and side by side.

ghost use Rattle.std.specs.Prelude.{◌≡◌, ◌≤◌, [], All};
ghost use Rattle.path_board.specs.SharedBoards.{board_id};
ghost use Rattle.path_board.specs.Passes.{IsPassOf};

use crate::boards::board_on;
use crate::case::Case;
use crate::edits::edit_in;
use case_kit::Refusal;
use edit_log::{CellChange, Edit, EditList};
use moves::{Cell, Terrain};
use path_board::{Pass, SharedBoard};
use path_core::Board;
use std::alloc::{AllocError, Global};
use std::sync::Wait;
use std::thread::{Threads, for_each_mut};
use turn_book::MAX_SEATS;

impl<R: Threads + Wait + Sync> Case<'_, R> {
    /// `met pass | MAP | EDIT`: A submits an edit, B meets a note of A, and looks. What A is told, and before and after
    /// either whether B holds the published version as far as it knows.
    pub(crate) fn met_said(&mut self) -> Result<String, Refusal> {
        let grid = self.fields.grid(self.alloc)?;
        let edit = edit_in(self.alloc, self.fields.text()?)?;
        let board = board_on(self.rt, self.alloc, grid, 0)?;
        Ok(met_shown(self.rt, self.alloc, board, edit)?)
    }

    /// `passes | MAP | PASSES | COUNT`: a thread for each of so many passes submits so many edits, and then one of them
    /// looks for the edits of all.
    pub(crate) fn passes_said(&mut self) -> Result<String, Refusal> {
        let grid = self.fields.grid(self.alloc)?;
        let passes = self.fields.number()?.clamp(1, MAX_SEATS);
        let count = self.fields.number()?.min(4096) as u16;
        let board = board_on(self.rt, self.alloc, grid, 0)?;
        Ok(passes_shown(self.rt, self.alloc, board, passes, count)?)
    }
}

/// A pass at its board.
#[derive(Drop)]
struct Member<'a> {
    board: &'a SharedBoard,
    pass: Pass,
    ghost of: { IsPassOf (board_id board.now) pass },
}

impl Member<'_> {
    /// Submits so many edits. Each blocks the cell of its number in the column of the pass's number.
    fn submit_all<R: Wait>(&mut self, rt: &R, count: u16) {
        let x = self.pass.number().min(MAX_SEATS) as u16;
        for y in 0..count {
            let edit = Edit::one(CellChange {
                cell: Cell { x, y },
                terrain: Terrain::Blocked,
            });
            let _told = self.board.submit(rt, &mut self.pass, edit);
        }
    }
}

/// The passes at their board.
fn members_of<'a>(
    alloc: Global,
    board: &'a SharedBoard,
    passes: Vec<Pass>,
) -> Result<Vec<Member<'a>>, AllocError>
    requires { All (λ pass. IsPassOf (board_id board.now) pass) passes.items }
{
    let mut members = Vec::new(alloc);
    for pass in passes {
        members.push(Member { board, pass })?;
    }
    Ok(members)
}

/// What either of two passes is told, where one of them submits an edit.
fn met_shown<R: Wait>(rt: &R, alloc: Global, board: Board, edit: Edit) -> Result<String, AllocError>
    requires { board.history ≡ [] }
{
    match SharedBoard::share(alloc, board, 2) {
        Ok((board, mut passes)) => {
            let b = passes.pop().unwrap();
            let a = passes.pop().unwrap();
            met_by(rt, alloc, &board, a, b, edit)
        }
        Err(_) => Err(AllocError),
    }
}

/// What A is told of an edit, and B before it, behind a note of A, and behind a look.
fn met_by<R: Wait>(
    rt: &R,
    alloc: Global,
    board: &SharedBoard,
    a: Pass,
    b: Pass,
    edit: Edit,
) -> Result<String, AllocError>
    requires first { IsPassOf (board_id board.now) a }
    requires second { IsPassOf (board_id board.now) b }
{
    let (mut a, mut b) = (a, b);
    let first = board.fresh(&mut b);
    let told = board.submit(rt, &mut a, edit);
    let note = board.note(&mut a);
    board.meet(&mut b, note);
    let met = board.fresh(&mut b);
    let accepted = board.look(rt, &mut b).accepted;
    let last = board.fresh(&mut b);
    format!(in alloc; "B {first:?}, A {told:?}, B {met:?}, sees {accepted} accepted, {last:?}")
}

/// How many edits of so many passes are accepted, and whether those of each are all there, in its order.
#[tactic(auto, using(crate::proofs::Passes::passes_of))]
fn passes_shown<R: Threads + Wait + Sync>(
    rt: &R,
    alloc: Global,
    board: Board,
    passes: u32,
    count: u16,
) -> Result<String, AllocError>
    requires none { board.history ≡ [] }
    requires some { 1 ≤ passes }
    requires few { passes ≤ MAX_SEATS }
{
    let Ok((board, passes)) = SharedBoard::share(alloc, board, passes) else {
        return Err(AllocError);
    };
    let mut members = members_of(alloc, &board, passes)?;
    let threads = members.len().max(1);
    for_each_mut(
        rt,
        members.as_mut_slice(),
        threads,
        &|_, member: &mut Member| { member.submit_all(rt, count) },
    );
    let Some(mut last) = members.pop() else {
        return Err(AllocError);
    };
    let edits = last.board.job(rt, &mut last.pass, 0)?.edits;
    let in_order = are_in_order(alloc, &edits, threads, count)?;
    let accepted = edits.len();
    format!(in alloc; "{threads} passes, {accepted} accepted, in order: {in_order}")
}

/// Whether a list has so many edits of so many passes, those of each in its order.
fn are_in_order(
    alloc: Global,
    edits: &EditList,
    passes: usize,
    count: u16,
) -> Result<bool, AllocError> {
    let mut next = vec![in alloc; 0; passes]?;
    for change in edits.changes() {
        let Cell { x, y } = change.cell;
        match next.get_mut(x as usize) {
            Some(number) if *number == y => *number = number.wrapping_add(1),
            _ => return Ok(false),
        }
    }
    Ok(next.iter().all(|number| *number == count))
}
