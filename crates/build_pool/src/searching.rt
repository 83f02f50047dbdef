//! Plain searches: the first sets of one source after the other.

ghost use Rattle.std.specs.Prelude.{◌≡◌, ◌*◌, ◌<◌, ◌≤◌, length, IfOk, OnOk};
ghost use Rattle.moves.specs.Maps.{IsSearchable};
ghost use Rattle.moves.specs.FirstSetLists.{cell_of, AreFirstSets};
ghost use Rattle.build_pool.specs.Places.{AreComponent};

use first_sets::FirstSets;
use grid_search::Search;
use moves::{Cell, Grid};
use std::alloc::{AllocError, Global};
use std::marker::Model;

/// A plain search from one source after the other, in memory that is taken once, and the first sets of the source that
/// it was asked for last. Whoever wants the row of a source packs these.
#[derive(Drop)]
pub struct PlainSearch {
    search: Search,
    sets: FirstSets,
    /// The first sets that were found last, to the cells in their order.
    found: Vec<u8>,
}

impl Model for PlainSearch {
    ghost use Rattle.std.specs.Prelude.{◌≡◌};
    ghost use Rattle.build_pool.specs.Searches.{PlainlyFound};

    ghost Value = { PlainlyFound };

    ghost view = { λ p. record { room = p.search.room; sets = p.found.items } };

    ghost invariant = { λ p. p.sets.room ≡ p.search.room };
}

impl PlainSearch {
    /// Takes all memory for searches over a grid among so many cells at most. Nothing is found yet.
    ///
    /// # Errors
    ///
    /// `AllocError` where memory runs out.
    pub fn over(alloc: Global, grid: &Grid, most: usize) -> Result<PlainSearch, AllocError>
        ensures { IfOk result (λ plain. plain.room ≡ grid.now.width * grid.now.height) }
    {
        let room = (grid.width() * grid.height()) as usize;
        Ok(PlainSearch {
            search: Search::new(alloc, room)?,
            sets: FirstSets::new(alloc, room)?,
            found: Vec::with_capacity(alloc, most)?,
        })
    }

    /// Finds the first sets from the cell at a place to all cells, which are a component of the grid in some order. It
    /// takes memory only where they are more than was told.
    ///
    /// # Errors
    ///
    /// `AllocError` where memory runs out. What was found is of no use then.
    pub fn find(&mut self, grid: &Grid, cells: &[Cell], place: usize) -> Result<(), AllocError>
        requires component { AreComponent grid.now cells.now }
        requires searchable { IsSearchable grid.now }
        requires place { place < length cells.now }
        requires room { grid.now.width * grid.now.height ≤ self.old.room }
        ensures room { self.new.room ≡ self.old.room }
        ensures first { OnOk result
            (AreFirstSets grid.now (cell_of cells.now place) cells.now self.new.sets) }
    {
        self.found.resize(cells.len(), 0)?;
        write_sets(
            grid,
            cells,
            place,
            &mut self.search,
            &mut self.sets,
            self.found.as_mut_slice(),
        );
        Ok(())
    }

    /// The first sets that were found last.
    pub fn sets(&self) -> &[u8]
        ensures { result.now ≡ self.now.sets }
    {
        self.found.as_slice()
    }
}

/// Searches from the source at a place, and writes its first sets to the cells in their order.
pub(crate) fn write_sets(
    grid: &Grid,
    cells: &[Cell],
    place: usize,
    search: &mut Search,
    sets: &mut FirstSets,
    bytes: &mut [u8],
)
    requires component { AreComponent grid.now cells.now }
    requires searchable { IsSearchable grid.now }
    requires place { place < length cells.now }
    requires search { grid.now.width * grid.now.height ≤ search.old.room }
    requires sets { grid.now.width * grid.now.height ≤ sets.old.room }
    requires bytes { length bytes.old ≡ length cells.now }
    ensures search { search.new.room ≡ search.old.room }
    ensures sets { sets.new.room ≡ sets.old.room }
    ensures bytes { AreFirstSets grid.now (cell_of cells.now place) cells.now bytes.new }
{
    let source = cells[place];
    search.from_source(grid, source);
    sets.fill(grid, search, source);
    for (place, cell) in cells.iter().enumerate() {
        bytes[place] = sets.set_of(*cell).mask();
    }
}
