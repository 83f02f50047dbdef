//! Sets passed on in the order in which a search settled its cells: a cell's set is made from the
//! sets of the cells from which a step attains its cost, all of which come before it.

ghost use Rattle.std.specs.Prelude.{◌≡◌, ◌*◌, ◌<◌, ◌≤◌, ◌↔◌, IfOk, IsTrue, length, slice_index};
ghost use Rattle.first_sets.specs.Memory.{AreEmpty, AreNoted, IsNoted, empty_sets};
ghost use Rattle.first_sets.specs.Steps.{CostsStep, HaveFirstSets, IsPassed};
ghost use Rattle.grid_search.specs.Searches.{HasSearched};
ghost use Rattle.moves.specs.Maps.{IsPassable};

use crate::neighbour_sets::Around;
use grid_search::Search;
use moves::{Cell, Grid, MoveSet, place};
use std::alloc::{AllocError, Global};
use std::marker::Model;

/// The sets of the cells of a map, row by row, and the places that the last fill wrote to. All
/// other sets are empty.
#[derive(Drop)]
pub(crate) struct SparseSets {
    sets: Vec<u8>,
    places: Vec<u32>,
    count: usize,
}

impl Model for SparseSets {
    ghost use Rattle.std.specs.Prelude.{vec_len};
    ghost use Rattle.first_sets.specs.Memory.{Sparse, IsNoted};

    ghost Value = { Sparse };

    ghost view = { λ s. record { sets = s.sets.items; reach = vec_len s.places } };

    ghost invariant = { λ s. IsNoted s.sets.items s.places.items s.count };
}

impl SparseSets {
    /// Takes the memory for `cells` sets, of which a fill writes at most `reach`. All sets are
    /// empty.
    pub(crate) fn new(alloc: Global, cells: usize, reach: usize) -> Result<SparseSets, AllocError>
        ensures { IfOk result (λ sparse. sparse ≡ empty_sets cells reach) }
    {
        Ok(SparseSets {
            sets: vec![in alloc; 0; cells]?,
            places: vec![in alloc; 0; reach]?,
            count: 0,
        })
    }

    /// Returns the set at a place, as bits.
    pub(crate) fn at(&self, place: usize) -> u8
        requires { place < length self.now.sets }
        ensures { result ≡ slice_index self.now.sets place }
    {
        self.sets[place]
    }

    /// Fills the sets of all cells from that source, from the costs that the search found from
    /// there.
    pub(crate) fn fill(&mut self, grid: &Grid, search: &Search, source: Cell)
        requires searched { HasSearched grid.now source search.now }
        requires source { IsPassable grid.now source }
        requires room { grid.now.width * grid.now.height ≤ length self.old.sets }
        requires reach { length search.now.settled ≤ self.old.reach }
        ensures first { HaveFirstSets grid.now source self.new.sets }
        ensures length { length self.new.sets ≡ length self.old.sets }
        ensures reach { self.new.reach ≡ self.old.reach }
    {
        let sets = self.sets.as_mut_slice();
        clear(sets, &self.places[..self.count]);
        begin(sets, grid, search, source);
        pass_on(sets, self.places.as_mut_slice(), grid, search, source);
        self.count = search.settled().len();
    }
}

/// Empties the sets at these places. All others must be empty.
fn clear(sets: &mut [u8], places: &[u32])
    requires { AreNoted places.now sets.old }
    ensures { AreEmpty sets.new }
{
    for place in places {
        sets[*place as usize] = 0;
    }
}

/// Puts each move by which the source itself attains a cell's cost into that cell's set.
fn begin(sets: &mut [u8], grid: &Grid, search: &Search, source: Cell)
    requires searched { HasSearched grid.now source search.now }
    requires source { IsPassable grid.now source }
    requires room { grid.now.width * grid.now.height ≤ length sets.old }
    requires empty { AreEmpty sets.old }
    ensures { IsPassed grid.now source search.now 0 sets.new }
{
    let width = grid.width();
    let found = grid.neighbours(source);
    for (by, to) in found.as_slice() {
        if is_step(search, source, by.is_diagonal(), *to) {
            let place = place(width, *to);
            sets[place] = MoveSet::of_mask(sets[place]).with(*by).mask();
        }
    }
}

/// Returns whether the cost of `to` is exactly one step more than that of `before`.
fn is_step(search: &Search, before: Cell, diagonal: bool, to: Cell) -> bool
    requires before_column { before.x < search.now.width }
    requires before_row { before.y < search.now.height }
    requires column { to.x < search.now.width }
    requires row { to.y < search.now.height }
    ensures { IsTrue result ↔ CostsStep search.now before diagonal to }
{
    match (search.cost(before), search.cost(to)) {
        (Some(less), Some(more)) => {
            u64::from(less.straight) + u64::from(!diagonal) == u64::from(more.straight)
                && u64::from(less.diagonal) + u64::from(diagonal) == u64::from(more.diagonal)
        }
        _ => false,
    }
}

/// Gives each settled cell its first set, in the order in which they were settled, and notes the places.
///
/// It is not inlined, so that the alignment of its loop's jumps, and so its speed, depends on
/// nothing else.
#[inline(never)]
fn pass_on(sets: &mut [u8], places: &mut [u32], grid: &Grid, search: &Search, source: Cell)
    requires searched { HasSearched grid.now source search.now }
    requires source { IsPassable grid.now source }
    requires room { grid.now.width * grid.now.height ≤ length sets.old }
    requires places { length search.now.settled ≤ length places.old }
    requires begun { IsPassed grid.now source search.now 0 sets.old }
    ensures first { HaveFirstSets grid.now source sets.new }
    ensures noted { IsNoted sets.new places.new (length search.now.settled) }
{
    let width = grid.width();
    let around = Around::of(width as usize);
    let keys = search.keys();
    let legal = grid.move_masks();
    for (index, cell) in search.settled().iter().enumerate() {
        let place = place(width, *cell);
        sets[place] = around.join_beside(sets, keys, legal[place], place);
        places[index] = place as u32;
    }
    sets[place(width, source)] = MoveSet::ALL.mask();
}
