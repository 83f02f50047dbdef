//! A bell between threads.
ghost use Rattle.std.specs.Prelude.{◌≡◌, false, true};
ghost use Rattle.wire.specs.declared.bell.Ring.TheVariants.{Rung, Shut};

use crate::{Bell, Built, Ear, Ring};
use std::sync::{Condvar, Mutex, Wait};

/// A bell that wakes a thread. Rings while nobody waits are kept as one ring. One build runs at a time.
#[derive(Drop)]
pub struct HostBell {
    heard: Mutex<Heard>,
    changed: Condvar,
    is_building: Mutex<bool>,
    built: Condvar,
}

/// What has happened to a bell since its ear last waited.
#[derive(Drop)]
struct Heard {
    rung: bool,
    shut: bool,
}

impl Heard {
    /// Whether there is nothing to hear.
    fn is_nothing(&self) -> bool {
        !self.rung && !self.shut
    }

    /// Records a ring.
    fn ring(&mut self)
        ensures rung { self.new.rung ≡ true }
        ensures shut { self.new.shut ≡ self.old.shut }
    {
        self.rung = true;
    }

    /// Records that the bell was shut.
    fn shut(&mut self)
        ensures rung { self.new.rung ≡ self.old.rung }
        ensures shut { self.new.shut ≡ true }
    {
        self.shut = true;
    }

    /// Hears what there is: all rings as one, and after them that the bell was shut.
    fn hear(&mut self) -> Ring
        ensures rings { self.old.rung ≡ true → result ≡ Rung }
        ensures silence { self.old.rung ≡ false → result ≡ Shut }
        ensures rung { self.new.rung ≡ false }
        ensures shut { self.new.shut ≡ self.old.shut }
    {
        if self.rung {
            self.rung = false;
            return Ring::Rung;
        }
        Ring::Shut
    }
}

impl HostBell {
    /// A bell that has not been rung.
    pub fn new() -> HostBell {
        HostBell {
            heard: Mutex::new(Heard {
                rung: false,
                shut: false,
            }),
            changed: Condvar::new(),
            is_building: Mutex::new(false),
            built: Condvar::new(),
        }
    }

    /// Its ear, for the one thread that waits.
    pub fn ear(&self) -> HostEar<'_>
        ensures rung { result.rung ≡ 0 }
        ensures over { result.over ≡ false }
    {
        HostEar {
            bell: self,
            rung: 0,
            over: false,
        }
    }
}

impl Bell for HostBell {
    fn ring<R: Wait>(&self, rt: &R) {
        self.heard.lock(rt).ring();
        self.changed.notify_one();
    }

    fn shut<R: Wait>(&self, rt: &R) {
        self.heard.lock(rt).shut();
        self.changed.notify_one();
    }

    fn begin_build<R: Wait>(&self, rt: &R) {
        let is_building = self.is_building.lock(rt);
        let mut is_building = self
            .built
            .wait_while(rt, is_building, |is_building| *is_building);
        *is_building = true;
    }

    fn end_build<R: Wait>(&self, rt: &R, _built: Option<Built>) {
        *self.is_building.lock(rt) = false;
        self.built.notify_one();
    }
}

/// The ear of a [`HostBell`]. It hears the rings before it hears that the bell was shut.
#[derive(Drop)]
pub struct HostEar<'a> {
    bell: &'a HostBell,
    rung: u64,
    over: bool,
}

impl<'a> Ear for HostEar<'a> {
    ghost at = { λ ear. record { rung = ear.rung; over = ear.over } };

    fn wait<R: Wait>(&mut self, rt: &R) -> Ring {
        let heard = self.bell.heard.lock(rt);
        let mut heard = self
            .bell
            .changed
            .wait_while(rt, heard, |heard| heard.is_nothing());
        let ring = heard.hear();
        match ring {
            Ring::Rung => self.rung = self.rung.saturating_add(1),
            Ring::Shut => self.over = true,
        }
        ring
    }
}
