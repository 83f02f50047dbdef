//! Numbers that follow one another, the same on each machine.

ghost use Rattle.std.specs.Prelude.{◌<◌};

use moves::Terrain;

/// A generator of numbers that a seed begins. (Knuth's MMIX constants)
#[derive(Clone, Copy, Debug)]
pub struct Random {
    state: u64,
}

impl Random {
    /// The generator that a seed begins.
    pub fn of(seed: u32) -> Random {
        Random {
            state: u64::from(seed),
        }
    }

    /// The next number, below that bound.
    pub fn below(&mut self, bound: u32) -> u32
        requires { 0 < bound }
        ensures { result < bound }
    {
        self.state = self
            .state
            .wrapping_mul(6364136223846793005)
            .wrapping_add(1442695040888963407);
        (self.state >> 33) as u32 % bound
    }

    /// Land or water, each in about so many of a hundred cases, and else blocked.
    pub fn terrain(&mut self, land: u32, water: u32) -> Terrain {
        let number = self.below(100);
        if number < land {
            Terrain::Land
        } else if number - land < water {
            Terrain::Water
        } else {
            Terrain::Blocked
        }
    }
}
