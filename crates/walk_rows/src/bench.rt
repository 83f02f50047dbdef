//! The rows that a walk has at hand: those of a tile, which are built together, or that of one cell.

ghost use Rattle.std.specs.Prelude.{◌≡◌, ◌*◌, ◌<◌, ◌≤◌, IfOk, IfSome, IsTrue, OnOk, false, length};
ghost use Rattle.moves.specs.Maps.{IsSearchable};
ghost use Rattle.moves.specs.FirstSetLists.{cell_of};
ghost use Rattle.build_pool.specs.Places.{AreWithNear};
ghost use Rattle.lane_rows.specs.Packed.{words_in};
ghost use Rattle.lane_rows.specs.Tiles.{IsSolved};
ghost use Rattle.walk_rows.specs.Walks.{AreWordsFrom, CanBeWalked, IsReady};

use crate::hints::{Ahead, Hints};
use build_pool::PlainSearch;
use grid_search::Search;
use lane_rows::{LANES, Near, Tiles};
use moves::{Cell, Grid, MAX_PASSABLE, Move};
use run_pack::append_words;
use std::alloc::{AllocError, Global};

/// How often at most the places of a tile are gone over back and forth, before its rows are given up.
const SWEEPS: u32 = 64;

/// The last tile, and what the next is chosen with.
#[derive(Drop)]
pub(crate) struct Workbench<'a> {
    tiles: Tiles,
    /// Whether the rows of the tile are there.
    has_rows: bool,
    /// The places whose rows are wanted.
    wanted: Vec<bool>,
    hints: Hints<'a>,
    /// What finds the row of one cell where few rows are wanted, and that row.
    plain: PlainSearch,
    row: Vec<u32>,
}

impl<'a> Workbench<'a> {
    /// Takes all memory for walks to the goal of the search. No rows are there.
    pub(crate) fn new(
        alloc: Global,
        grid: &'a Grid,
        search: &'a Search,
        cells: &[Cell],
    ) -> Result<Workbench<'a>, AllocError>
        requires few { length cells.now ≤ MAX_PASSABLE }
        ensures count { IfOk result (λ bench. bench.tiles.count ≡ length cells.now) }
        ensures marks { IfOk result (λ bench. length bench.wanted.items ≡ length cells.now) }
        ensures none { IfOk result (λ bench. bench.has_rows ≡ false) }
        ensures room { IfOk result (λ bench.
            bench.plain.room ≡ grid.now.width * grid.now.height) }
    {
        Ok(Workbench {
            tiles: Tiles::new(alloc, cells.len())?,
            has_rows: false,
            wanted: vec![in alloc; false; cells.len()]?,
            hints: Hints::new(alloc, grid, search, cells)?,
            plain: PlainSearch::over(alloc, grid, cells.len())?,
            row: Vec::new(alloc),
        })
    }

    /// Builds the rows of the cell at a place and of those that may come after it, if most of the moves ahead want one.
    pub(crate) fn solve(
        &mut self,
        cells: &[Cell],
        near: &Near,
        place: usize,
    ) -> Result<(), AllocError>
        requires table { AreWithNear cells.now near.now }
        requires ready { IsReady cells.now self.old }
        requires place { place < length cells.now }
        ensures ready { OnOk result (IsReady cells.now self.new) }
        ensures plain { OnOk result (self.new.plain ≡ self.old.plain) }
    {
        self.has_rows = false;
        let ahead = self
            .hints
            .mark_from(cells[place], place, self.wanted.as_mut_slice());
        if ahead == Ahead::Apart {
            return Ok(());
        }
        self.tiles
            .choose(near, place as u16, self.wanted.as_mut_slice());
        if run(&mut self.tiles, near, ahead == Ahead::InARow) {
            self.tiles.pack()?;
            self.has_rows = true;
        }
        Ok(())
    }

    /// The walk went on from a cell by a move.
    pub(crate) fn learn(&mut self, from: Cell, by: Move)
        ensures tiles { self.new.tiles ≡ self.old.tiles }
        ensures rows { self.new.has_rows ≡ self.old.has_rows }
        ensures wanted { self.new.wanted ≡ self.old.wanted }
        ensures plain { self.new.plain ≡ self.old.plain }
    {
        self.hints.learn(from, by);
    }

    /// Builds the row of the cell at a place alone.
    pub(crate) fn build_alone(
        &mut self,
        grid: &Grid,
        cells: &[Cell],
        place: usize,
    ) -> Result<(), AllocError>
        requires searchable { IsSearchable grid.now }
        requires cells { CanBeWalked grid.now cells.now }
        requires place { place < length cells.now }
        requires room { grid.now.width * grid.now.height ≤ self.old.plain.room }
        ensures row { OnOk result
            (AreWordsFrom cells.now (cell_of cells.now place) self.new.row.items) }
        ensures room { self.new.plain.room ≡ self.old.plain.room }
        ensures tiles { self.new.tiles ≡ self.old.tiles }
        ensures rows { self.new.has_rows ≡ self.old.has_rows }
        ensures wanted { self.new.wanted ≡ self.old.wanted }
    {
        self.plain.find(grid, cells, place)?;
        self.row.clear();
        append_words(&mut self.row, self.plain.sets())?;
        Ok(())
    }

    /// The words of the row that was built alone.
    pub(crate) fn row(&self) -> &[u32]
        ensures { result.now ≡ self.now.row.items }
    {
        self.row.as_slice()
    }

    /// The lane that has the row of a cell.
    pub(crate) fn lane_of(&self, cells: &[Cell], at: Cell) -> Option<usize>
        requires { IsReady cells.now self.now }
        ensures lane { IfSome result (λ lane. lane < 16) }
        ensures words { IfSome result (λ lane.
            AreWordsFrom cells.now at (words_in self.now.tiles.words lane)) }
    {
        if !self.has_rows {
            return None;
        }
        for lane in 0..LANES {
            if cells[usize::from(self.tiles.source(lane))] == at {
                return Some(lane);
            }
        }
        None
    }

    /// The words of the row of a lane.
    pub(crate) fn words(&self, lane: usize) -> &[u32]
        requires { lane < 16 }
        ensures { result.now ≡ words_in self.now.tiles.words lane }
    {
        self.tiles.words(lane)
    }
}

/// Solves a tile whose sources stand in a row or not.
fn run(tiles: &mut Tiles, near: &Near, in_a_row: bool) -> bool
    requires near { length near.now ≡ tiles.old.count }
    ensures count { tiles.new.count ≡ tiles.old.count }
    ensures sources { tiles.new.sources ≡ tiles.old.sources }
    ensures solved { IsTrue result → IsSolved near.now tiles.new }
{
    if in_a_row {
        tiles.run_row(near, SWEEPS)
    } else {
        tiles.run(near, SWEEPS)
    }
}
