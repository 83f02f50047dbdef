//! What wakes a waiting builder.
ghost use Rattle.std.specs.Prelude.{◌≡◌};
ghost use Rattle.wire.specs.Rings.{AtEar, with_heard};

use std::sync::Wait;

/// What an ear hears.
#[derive(Debug, Clone, Copy, PartialEq, Eq)]
pub enum Ring {
    /// The bell was rung.
    Rung,
    /// The bell was shut: nobody will ring it any more.
    Shut,
}

/// The result of a build that published a version.
#[derive(Debug, Clone, Copy, PartialEq, Eq)]
pub struct Built {
    /// How many edits were accepted before the version.
    pub version: u32,
    /// How many cells have rows that were built for it.
    pub built: u32,
    /// How many cells have rows that were kept from the version before.
    pub kept: u32,
}

/// Wakes the thread that waits at its ear. Builds at the same board also queue here and run one at a time, but the
/// trait does not promise that: a bell may let all of them build at once.
pub trait Bell: Sync {
    /// Wakes the ear, at once or at its next wait.
    fn ring<R: Wait>(&self, rt: &R);

    /// Shuts the bell: the ear no longer waits.
    fn shut<R: Wait>(&self, rt: &R);

    /// Waits until no other build runs, and begins one.
    fn begin_build<R: Wait>(&self, _rt: &R) {}

    /// Ends a build that published this version, or none. The next build may begin.
    fn end_build<R: Wait>(&self, _rt: &R, _built: Option<Built>) {}
}

/// The listening end of a bell.
pub trait Ear: Send {
    /// What is known of it: how often it answered `Rung`, a count that stops at the greatest `u64`,
    /// and whether it answered `Shut`.
    ghost at: { Self → AtEar };

    /// Waits until the bell is rung or shut.
    fn wait<R: Wait>(&mut self, rt: &R) -> Ring
        ensures heard { at self.new ≡ with_heard (at self.old) result };
}

/// A bell that wakes nobody.
#[derive(Debug, Clone, Copy, Default, PartialEq, Eq)]
pub struct StillBell;

impl Bell for StillBell {
    fn ring<R: Wait>(&self, _rt: &R) {}

    fn shut<R: Wait>(&self, _rt: &R) {}
}
