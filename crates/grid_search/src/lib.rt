//! Exact least costs on a grid map from one source cell, and the reached cells in order of
//! increasing cost.
//!
//! Internally a cost is one word, its key: keys order as costs do and give them back.
//! ([`Cost::key`].)
//!
//! The least cost across an open map of three columns and two rows, as a case gives it:
//!
//! ```text
//! cost | .../... | 0 0 | 2 1
//! 1 straight 1 diagonal, key 80782, 6 reached, E SE
//! ```
#![tactic(auto)]

ghost use Rattle.std.specs.Prelude.{◌≡◌, ◌*◌, ◌<◌, ◌≤◌, IfOk, length};
ghost use Rattle.moves.specs.Maps.{IsPassable, IsSearchable};
ghost use Rattle.grid_search.specs.Forgetting.{AreForgotten, HavePlaces};
ghost use Rattle.grid_search.specs.Searches.{cost_at, keys_of, nothing_searched, HasSearched};

mod open_list;
mod queue;
mod settling;

use crate::open_list::OpenList;
use moves::{Cell, Grid, MAX_PASSABLE, MAX_SIDE, place};
use root_cost::{Cost, NO_KEY};
use std::alloc::{AllocError, Global};
use std::marker::Model;

/// Least costs from one source cell, on one map after another, in memory taken once.
#[derive(Drop)]
pub struct Search {
    width: u32,
    height: u32,
    keys: Vec<u32>,
    list: OpenList,
    order: Vec<Cell>,
    count: usize,
}

impl Model for Search {
    ghost use Rattle.std.specs.Prelude.{◌*◌, map, take, vec_len};
    ghost use Rattle.root_cost.specs.Keys.{cost_if_key};
    ghost use Rattle.grid_search.specs.Searches.{Searched};
    ghost use Rattle.grid_search.specs.Kept.{IsKept};
    ghost use Rattle.grid_search.specs.Queues.{opened};

    ghost Value = { Searched };

    ghost view = { λ s. record {
      room = vec_len s.keys;
      width = s.width;
      height = s.height;
      costs = map cost_if_key (take (s.width * s.height) s.keys.items);
      settled = take s.count s.order.items;
    } };

    ghost invariant = { λ s.
        IsKept s.width s.height (opened s.keys.items s.list) s.order.items s.count };
}

impl Search {
    /// Takes all the memory that searches on maps of at most `cells` cells need.
    pub fn new(alloc: Global, cells: usize) -> Result<Search, AllocError>
        ensures { IfOk result (λ search. search ≡ nothing_searched cells) }
    {
        let reach = cells.min(MAX_PASSABLE as usize);
        Ok(Search {
            width: 0,
            height: 0,
            keys: vec![in alloc; NO_KEY; cells]?,
            list: OpenList::new(alloc, reach)?,
            order: vec![in alloc; Cell { x: 0, y: 0 }; reach]?,
            count: 0,
        })
    }

    /// Finds the least cost of every cell from the source. It takes no memory.
    ///
    /// The map must have at most as many cells as there is room for, and at most [`MAX_PASSABLE`]
    /// passable ones. The source must be passable.
    pub fn from_source(&mut self, grid: &Grid, source: Cell)
        requires room { grid.now.width * grid.now.height ≤ self.old.room }
        requires source { IsPassable grid.now source }
        requires cells { IsSearchable grid.now }
        ensures room { self.new.room ≡ self.old.room }
        ensures searched { HasSearched grid.now source self.new }
    {
        forget(self.width, &self.order[..self.count], &mut self.keys);
        self.width = grid.width();
        self.height = grid.height();
        let (keys, list) = (&mut self.keys, &mut self.list);
        self.count = settling::settle(grid, source, keys, list, &mut self.order);
    }

    /// Returns the least cost from the source to a cell inside the map, and `None` exactly when no
    /// path leads there.
    pub fn cost(&self, cell: Cell) -> Option<Cost>
        requires column { cell.x < self.now.width }
        requires row { cell.y < self.now.height }
        ensures { result ≡ cost_at self.now cell }
    {
        Cost::of_key(self.keys[place(self.width, cell)])
    }

    /// Returns the cells reached from the source, each once, in order of increasing cost, the
    /// source first. Cells of equal cost may be in any order.
    pub fn settled(&self) -> &[Cell]
        ensures { result.now ≡ self.now.settled }
    {
        &self.order[..self.count]
    }

    /// Returns the keys of the least costs, row by row ([`Cost::key`]), with [`NO_KEY`] for a cell
    /// that no path reaches.
    pub fn keys(&self) -> &[u32]
        ensures { result.now ≡ keys_of self.now }
    {
        &self.keys[..(self.width * self.height) as usize]
    }
}

/// Removes the keys at the places of these cells.
fn forget(width: u32, cells: &[Cell], keys: &mut [u32])
    requires width { width ≤ MAX_SIDE }
    requires inside { HavePlaces width cells.now (length keys.old) }
    ensures { AreForgotten width cells.now keys.old keys.new }
{
    for cell in cells {
        keys[place(width, *cell)] = NO_KEY;
    }
}
