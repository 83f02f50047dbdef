//! A bell that logs each version that is published.
ghost use Rattle.std.specs.Prelude.{◌≡◌, false};

use crate::journal::plural;
use crate::ticks::millis_since;
use crate::{Bell, Built, Ear, Hands, HostBell, HostEar, Journal, Ring};
use std::io::Eprint;
use std::sync::{Mutex, Wait};
use std::time::{Clock, Instant};
use thiserror::Error;

/// A [`HostBell`] with a journal that gets a line for each published version.
#[derive(Drop)]
pub struct ToldBell<'a, R> {
    bell: HostBell,
    journal: Journal<'a, R>,
    hands: &'a Hands,
    begun: Mutex<Option<Instant>>,
}

/// The log line for a published version and how long its build took.
#[derive(Debug, Clone, Copy, Error)]
#[error("version {version}, {built} cell{s} built, {kept} kept, {millis} ms")]
struct PublishedIn {
    version: u32,
    built: u32,
    s: &'static str,
    kept: u32,
    millis: u64,
}

impl<'a, R: Clock + Eprint> ToldBell<'a, R> {
    /// A bell that has not been rung. The thread that listens is counted in these hands.
    pub fn new(journal: Journal<'a, R>, hands: &'a Hands) -> ToldBell<'a, R> {
        ToldBell {
            bell: HostBell::new(),
            journal,
            hands,
            begun: Mutex::new(None),
        }
    }

    /// Its ear, for the one thread that waits.
    pub fn ear(&self) -> ToldEar<'_>
        ensures rung { result.ear.rung ≡ 0 }
        ensures over { result.ear.over ≡ false }
    {
        ToldEar {
            ear: self.bell.ear(),
            hands: self.hands,
            begun: false,
        }
    }

    /// Logs what was published, and how long after its build began.
    fn tell(&self, begun: Option<Instant>, built: Built) {
        let millis = match begun {
            Some(begun) => millis_since(self.journal.rt(), begun),
            None => 0,
        };
        self.journal.note(published_in(built, millis));
    }
}

/// The log line for a version published `millis` milliseconds after its build began.
fn published_in(built: Built, millis: u64) -> PublishedIn
    ensures version { result.version ≡ built.version }
    ensures built { result.built ≡ built.built }
    ensures kept { result.kept ≡ built.kept }
    ensures time { result.millis ≡ millis }
{
    PublishedIn {
        version: built.version,
        built: built.built,
        s: plural(u64::from(built.built)),
        kept: built.kept,
        millis,
    }
}

impl<'a, R: Clock + Eprint + Sync> Bell for ToldBell<'a, R> {
    fn ring<W: Wait>(&self, rt: &W) {
        self.bell.ring(rt);
    }

    fn shut<W: Wait>(&self, rt: &W) {
        self.bell.shut(rt);
    }

    fn begin_build<W: Wait>(&self, rt: &W) {
        self.bell.begin_build(rt);
        *self.begun.lock(rt) = Instant::now(self.journal.rt()).ok();
    }

    fn end_build<W: Wait>(&self, rt: &W, built: Option<Built>) {
        if let Some(published) = built {
            let begun = *self.begun.lock(rt);
            self.tell(begun, published);
        }
        self.bell.end_build(rt, built);
    }
}

/// The ear of a [`ToldBell`].
#[derive(Drop)]
pub struct ToldEar<'a> {
    ear: HostEar<'a>,
    hands: &'a Hands,
    begun: bool,
}

impl<'a> Ear for ToldEar<'a> {
    ghost at = { λ told. record { rung = told.ear.rung; over = told.ear.over } };

    fn wait<R: Wait>(&mut self, rt: &R) -> Ring {
        if !self.begun {
            self.hands.begin();
        }
        self.begun = true;
        self.ear.wait(rt)
    }
}
