//! An ear in memory.
ghost use Rattle.std.specs.Prelude.{◌≡◌};
ghost use Rattle.wire.specs.Rings.{next_ring, with_ring};

use crate::{Ear, Ring};
use std::marker::Model;
use std::sync::Wait;

/// An ear that hears a given number of rings, and then that its bell was shut. It never waits.
#[derive(Drop)]
pub struct TurnEar {
    left: u64,
    rung: u64,
    over: bool,
}

impl Model for TurnEar {
    ghost use Rattle.wire.specs.Rings.{EarInMemory};

    ghost Value = { EarInMemory };

    ghost view = { λ ear. record { left = ear.left; rung = ear.rung; over = ear.over } };
}

impl TurnEar {
    ghost use Rattle.wire.specs.Rings.{new_ear};

    /// An ear that hears this many rings.
    pub fn new(rings: u64) -> TurnEar
        ensures { result ≡ new_ear rings }
    {
        TurnEar {
            left: rings,
            rung: 0,
            over: false,
        }
    }

    /// How often it answered `Rung`.
    pub fn ring_count(&self) -> u64
        ensures { result ≡ self.now.rung }
    {
        self.rung
    }
}

impl Ear for TurnEar {
    ghost at = { λ ear. record { rung = ear.rung; over = ear.over } };

    fn wait<R: Wait>(&mut self, _rt: &R) -> Ring
        ensures answer { result ≡ next_ring self.old }
        ensures after { self.new ≡ with_ring self.old result }
    {
        if self.left == 0 {
            self.over = true;
            return Ring::Shut;
        }
        self.left -= 1;
        self.rung = self.rung.saturating_add(1);
        Ring::Rung
    }
}
