//! A board that one thread uses.

ghost use Rattle.std.specs.Prelude.{◌≡◌, None};

use crate::desk::Desk;
use edit_log::Edit;
use path_core::{Board, Job, Look, PublishError, SubmitError};
use std::alloc::AllocError;
use std::sync::{Arc, Wait};
use versions::Version;

/// A board of its own, and the number of the pass that uses it. It holds the published version, and does not count its
/// looks.
#[derive(Drop)]
pub struct Lone {
    /// The board.
    pub board: Board,
    /// The pass.
    pub pass: u32,
}

impl Desk for Lone {
    ghost at = { λ lone. record {
      place = record {
        pass = lone.pass;
        start = lone.board.start;
        order = lone.board.order;
        room = lone.board.room;
        shared = None;
      };
      seen = lone.board.history;
      version = lone.board.version;
      looks = None;
    } };

    fn look<R: Wait>(&mut self, _rt: &R) -> Look {
        // From here on, the history is known to be legal, and the published version to be a version.
        let _entries = self.board.entries();
        let _version = self.board.version();
        self.board.look()
    }

    fn recent<R: Wait>(&mut self, _rt: &R) -> bool {
        let _version = self.board.version();
        true
    }

    fn submit<R: Wait>(&mut self, _rt: &R, edit: Edit) -> Result<u32, SubmitError> {
        self.board.submit(self.pass, edit)
    }

    fn job<R: Wait>(&mut self, _rt: &R, known: u32) -> Result<Job, AllocError> {
        // From here on, the history is known to be legal.
        let _entries = self.board.entries();
        self.board.job(known)
    }

    fn publish<R: Wait>(&mut self, _rt: &R, next: Arc<Version>) -> Result<u32, PublishError> {
        self.board.publish(self.pass, next)
    }

    fn halt<R: Wait>(&mut self, _rt: &R) -> Result<bool, AllocError> {
        self.board.halt(self.pass)
    }

    fn held(&self) -> &Version {
        // From here on, the history is known to be legal.
        let _entries = self.board.entries();
        self.board.version()
    }
}
