//! First sets: for one source on a grid map, the moves that begin a best path to each cell.
//! Any move of a first set may be stored in a path database. (Botea 2011; Strasser, Harabor and Botea 2014.)
//!
//! From the upper left cell of six free ones, two moves begin a best path to the lower right one:
//!
//! ```text
//! cost | .../... | 0 0 | 2 1
//! 1 straight 1 diagonal, key 80782, 6 reached, E SE
//! ```
#![tactic(auto)]

ghost use Rattle.std.specs.Prelude.{◌≡◌, ◌*◌, ◌<◌, ◌≤◌, IfOk};
ghost use Rattle.first_sets.specs.Filled.{set_at, HasFirstSets, IsEmptyIfUnreached, IsFirstSet};
ghost use Rattle.grid_search.specs.Searches.{HasSearched};
ghost use Rattle.moves.specs.Maps.{IsPassable};

mod neighbour_sets;
mod sparse_sets;

use crate::sparse_sets::SparseSets;
use grid_search::Search;
use moves::{Cell, Grid, MAX_PASSABLE, MoveSet, place};
use std::alloc::{AllocError, Global};
use std::marker::Model;

/// The first sets of all cells of a map from one source. One `FirstSets` can serve many sources,
/// one after another.
#[derive(Drop)]
pub struct FirstSets {
    width: u32,
    height: u32,
    sets: SparseSets,
}

impl Model for FirstSets {
    ghost use Rattle.std.specs.Prelude.{length};
    ghost use Rattle.first_sets.specs.Filled.{Filled};
    ghost use Rattle.first_sets.specs.Memory.{IsKept};

    ghost Value = { Filled };

    ghost view = { λ f. record {
      room = length f.sets.sets;
      width = f.width;
      height = f.height;
      sets = f.sets.sets;
    } };

    ghost invariant = { λ f. IsKept f.width f.height f.sets };
}

impl FirstSets {
    /// Takes all the memory needed for maps of at most `cells` cells. No set is filled yet.
    pub fn new(alloc: Global, cells: usize) -> Result<FirstSets, AllocError>
        ensures room { IfOk result (λ sets. sets.room ≡ cells) }
        ensures none { IfOk result (λ sets. (sets.width ≡ 0) × (sets.height ≡ 0)) }
    {
        Ok(FirstSets {
            width: 0,
            height: 0,
            sets: SparseSets::new(alloc, cells, cells.min(MAX_PASSABLE as usize))?,
        })
    }

    /// Fills the first sets of all cells from that source, from the costs that the search found
    /// from there. Nothing is left of an earlier fill. It takes no memory, and its work grows with
    /// the number of cells reached.
    pub fn fill(&mut self, grid: &Grid, search: &Search, source: Cell)
        requires searched { HasSearched grid.now source search.now }
        requires source { IsPassable grid.now source }
        requires room { grid.now.width * grid.now.height ≤ self.old.room }
        ensures room { self.new.room ≡ self.old.room }
        ensures filled { HasFirstSets grid.now source self.new }
    {
        self.sets.fill(grid, search, source);
        self.width = grid.width();
        self.height = grid.height();
    }

    /// Returns the first set of that cell: exactly the moves that begin a best path from the source
    /// to it. It is empty exactly when no path leads there, and has all eight moves at the source
    /// itself.
    pub fn set_of(&self, cell: Cell) -> MoveSet
        requires column { cell.x < self.now.width }
        requires row { cell.y < self.now.height }
        ensures kept { result ≡ set_at self.now cell }
        ensures first { IsFirstSet self.now cell result }
        ensures none { IsEmptyIfUnreached self.now cell result }
    {
        MoveSet::of_mask(self.sets.at(place(self.width, cell)))
    }
}
