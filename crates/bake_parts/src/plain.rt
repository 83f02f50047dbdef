//! Rows by a plain search, where a tile was not solved.

ghost use Rattle.std.specs.Prelude.{◌≡◌, ◌<◌, ◌≤◌, IfOk, OnOk, length};
ghost use Rattle.moves.specs.Maps.{IsSearchable};
ghost use Rattle.build_pool.specs.Places.{AreComponent};
ghost use Rattle.build_pool.specs.Pieces.{AreWordsOver};
ghost use Rattle.bake_parts.specs.Plans.{HasRoom};

use crate::component::Component;
use build_pool::PlainSearch;
use moves::{Grid, MAX_PASSABLE};
use run_pack::append_words;
use std::alloc::{AllocError, Global};

/// A plain search, and the row that was found last.
#[derive(Drop)]
pub(crate) struct Plain {
    search: PlainSearch,
    words: Vec<u32>,
}

impl Plain {
    /// Takes the memory for a search over the map.
    pub(crate) fn new(
        alloc: Global,
        grid: &Grid,
        component: &Component,
    ) -> Result<Plain, AllocError>
        ensures { IfOk result (HasRoom grid.now) }
    {
        Ok(Plain {
            search: PlainSearch::over(alloc, grid, component.cells().len())?,
            words: Vec::new(alloc),
        })
    }

    /// Finds the row of the cell at a place.
    ///
    /// # Errors
    ///
    /// `AllocError` where memory runs out.
    pub(crate) fn find(
        &mut self,
        grid: &Grid,
        component: &Component,
        place: usize,
    ) -> Result<(), AllocError>
        requires component { AreComponent grid.now component.now }
        requires searchable { IsSearchable grid.now }
        requires few { length component.now ≤ MAX_PASSABLE }
        requires place { place < length component.now }
        requires room { HasRoom grid.now self.old }
        ensures room { OnOk result (HasRoom grid.now self.new) }
        ensures row { OnOk result (AreWordsOver component.now place self.new.words.items) }
    {
        self.search.find(grid, component.cells(), place)?;
        self.words.clear();
        append_words(&mut self.words, self.search.sets())?;
        Ok(())
    }

    /// The words of the row that was found last.
    pub(crate) fn words(&self) -> &[u32]
        ensures { result.now ≡ self.now.words.items }
    {
        self.words.as_slice()
    }
}
