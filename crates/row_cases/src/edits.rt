//! Edits of made maps.

ghost use Rattle.std.specs.Prelude.{IfOk};
ghost use Rattle.components.specs.Edits.{HaveSameSides, AreChanged};

use case_kit::Random;
use moves::{Cell, Grid};
use std::alloc::{AllocError, Global};

/// A copy of the map with one to seven cells changed, and the list of those cells. They lie within a square of 4 to 11
/// cells a side, all become the same terrain (one seed in five: each its own), may lie outside, and may repeat.
pub fn edited(alloc: Global, grid: &Grid, seed: u32) -> Result<(Grid, Vec<Cell>), AllocError>
    ensures sides { IfOk result (λ edit. HaveSameSides grid.now edit.0) }
    ensures changed { IfOk result (λ edit. AreChanged grid.now edit.0 edit.1.items) }
{
    let mut random = Random::of(seed);
    let mut new = grid.copy()?;
    let mut changed = Vec::new(alloc);
    let (left, top) = (random.below(grid.width()), random.below(grid.height()));
    let (side, is_mixed) = (seed % 8 + 4, seed % 5 == 0);
    let shared = random.terrain(30, 20);
    for _ in 0..seed % 7 + 1 {
        let x = (left + random.below(side)) as u16;
        let y = (top + random.below(side)) as u16;
        let own = random.terrain(30, 20);
        changed.push(Cell { x, y })?;
        if new.inside(Cell { x, y }) {
            new.set_terrain(Cell { x, y }, if is_mixed { own } else { shared });
        }
    }
    Ok((new, changed))
}
