//! Where a session stands at a board.

ghost use Rattle.std.specs.Prelude.{◌≡◌, ◌≢◌, ◌⊎◌, ◌≤◌, None, IfErr, IfOk, IsTrue, OnErr, OnOk};
ghost use Rattle.std.specs.Arc.{arc_value};
ghost use Rattle.path_core.specs.Histories.{accepted_count, published_prefix};
ghost use Rattle.session.specs.Desks.{AddsNone, IsCall, IsEntered, IsHalted, IsJobAt, IsNotEntered, IsNotHalted, IsNotPublished, IsPublished, KeepsVersion, Looks, MayPublish};
ghost use Rattle.session.specs.Standing.{AtDesk, HoldsItsOwn, IsSound, stands};

use edit_log::Edit;
use path_core::{Job, Look, PublishError, SubmitError};
use std::alloc::AllocError;
use std::sync::{Arc, Wait};
use versions::Version;
use wire::Built;

/// A place at a board. Its pass has seen a history and holds a version of it. In each call that changes it the pass
/// looks at the board, to which others may have added entries.
pub trait Desk {
    /// What is known of it. No call changes its place.
    ghost at: { Self → AtDesk };

    /// Looks at the board, and takes the published version if it can.
    fn look<R: Wait>(&mut self, rt: &R) -> Look
        ensures called { IsCall (at self.old) (at self.new) }
        ensures look { Looks (at self.old) (at self.new) result };

    /// Returns whether the held version is known, without a look, to be the published one. On a board of its own it is.
    fn recent<R: Wait>(&mut self, rt: &R) -> bool
        ensures called { KeepsVersion (at self.old) (at self.new) }
        ensures others { AddsNone (at self.old) (at self.new) }
        ensures recent { IsTrue result →
            (at self.new).version.prefix ≡ published_prefix (at self.new).seen }
        ensures own { (at self.old).place.shared ≡ None → IsTrue result };

    /// Enters an edit, and returns how many edits are accepted then.
    ///
    /// # Errors
    ///
    /// The first cause to refuse the edit, or else `NoMemory` if the board's room is used up.
    fn submit<R: Wait>(&mut self, rt: &R, edit: Edit) -> Result<u32, SubmitError>
        ensures called { KeepsVersion (at self.old) (at self.new) }
        ensures entered { IfOk result (IsEntered (at self.old).place edit (at self.old).seen
            (at self.new).seen) }
        ensures refused { IfErr result (IsNotEntered (at self.old) edit (at self.new)) };

    /// Returns the accepted edits past the known ones.
    ///
    /// # Errors
    ///
    /// `AllocError` if memory runs out, which happens only if there are such edits.
    fn job<R: Wait>(&mut self, rt: &R, known: u32) -> Result<Job, AllocError>
        requires { known ≤ accepted_count (at self.old).seen }
        ensures called { KeepsVersion (at self.old) (at self.new) }
        ensures others { AddsNone (at self.old) (at self.new) }
        ensures job { IfOk result (IsJobAt (at self.old).place (at self.new).seen known) }
        ensures some { OnErr result (known ≢ accepted_count (at self.new).seen) };

    /// Publishes a version, and returns its prefix. The held version is then that one, or still the one before.
    ///
    /// # Errors
    ///
    /// `Overtaken` if the published version comes after as many edits or more, or else `NoMemory` if the board's room
    /// is used up.
    fn publish<R: Wait>(&mut self, rt: &R, next: Arc<Version>) -> Result<u32, PublishError>
        requires may { MayPublish (at self.old) (arc_value next) }
        ensures called { IsCall (at self.old) (at self.new) }
        ensures prefix { IfOk result (λ prefix. prefix ≡ (arc_value next).prefix) }
        ensures published { IfOk result (IsPublished (at self.old) (at self.new)) }
        ensures held { OnOk result (((at self.new).version ≡ (at self.old).version)
            ⊎ ((at self.new).version ≡ arc_value next)) }
        ensures refused { IfErr result (IsNotPublished (at self.old) (at self.new)
            (arc_value next).prefix) }
        ensures kept { OnErr result ((at self.new).version ≡ (at self.old).version) };

    /// Enters a halt, and returns whether it did: a board that halts already stays as it is.
    ///
    /// # Errors
    ///
    /// `AllocError` if memory runs out, which happens only if the board's room is used up.
    fn halt<R: Wait>(&mut self, rt: &R) -> Result<bool, AllocError>
        ensures called { KeepsVersion (at self.old) (at self.new) }
        ensures halted { IfOk result (IsHalted (at self.old) (at self.new)) }
        ensures refused { OnErr result (IsNotHalted (at self.old) (at self.new)) };

    /// Waits until no other build of the board runs, and begins one. The contract promises nothing.
    fn begin_build<R: Wait>(&self, _rt: &R) {}

    /// Ends a build, which published that version or none.
    fn end_build<R: Wait>(&self, _rt: &R, _built: Option<Built>) {}

    /// Returns the held version.
    fn held(&self) -> &Version
        ensures version { result.now ≡ (at self.now).version }
        ensures sound { IsSound (at self.now) }
        ensures own { HoldsItsOwn (at self.now).place (stands (at self.now)) };
}
