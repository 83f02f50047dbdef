//! A seat at a board that threads share.

ghost use Rattle.path_board.specs.Passes.{IsPassOf};
ghost use Rattle.path_board.specs.SharedBoards.{board_id};
ghost use Rattle.session.specs.Seats.{desk_of};

use crate::desk::Desk;
use edit_log::Edit;
use path_board::{Pass, SharedBoard};
use path_core::{Job, Look, PublishError, SubmitError};
use std::alloc::AllocError;
use std::sync::{Arc, Wait};
use versions::Version;
use wire::{Bell, Built};

/// A pass of a shared board, and the bell of its builder.
#[derive(Drop)]
pub struct Seated<'a, B: Bell> {
    /// The board.
    pub board: &'a SharedBoard,
    /// The pass, which is one of that board.
    pub pass: Pass,
    /// The bell, which is rung after each accepted edit and lets one build run at a time.
    pub bell: &'a B,
    ghost of_board: { IsPassOf (board_id board.now) pass },
}

impl<B: Bell> Desk for Seated<'_, B> {
    ghost at = { λ seat. desk_of seat.pass };

    fn look<R: Wait>(&mut self, rt: &R) -> Look {
        self.board.look(rt, &mut self.pass)
    }

    fn recent<R: Wait>(&mut self, _rt: &R) -> bool {
        self.board.fresh(&mut self.pass).is_ok()
    }

    fn submit<R: Wait>(&mut self, rt: &R, edit: Edit) -> Result<u32, SubmitError> {
        let accepted = self.board.submit(rt, &mut self.pass, edit)?;
        self.bell.ring(rt);
        Ok(accepted)
    }

    fn job<R: Wait>(&mut self, rt: &R, known: u32) -> Result<Job, AllocError> {
        self.board.job(rt, &mut self.pass, known)
    }

    fn publish<R: Wait>(&mut self, rt: &R, next: Arc<Version>) -> Result<u32, PublishError> {
        self.board.publish(rt, &mut self.pass, next)
    }

    fn halt<R: Wait>(&mut self, rt: &R) -> Result<bool, AllocError> {
        self.board.halt(rt, &mut self.pass)
    }

    fn begin_build<R: Wait>(&self, rt: &R) {
        self.bell.begin_build(rt);
    }

    fn end_build<R: Wait>(&self, rt: &R, built: Option<Built>) {
        self.bell.end_build(rt, built);
    }

    fn held(&self) -> &Version {
        self.pass.held()
    }
}
