//! A list of cells with a tile that is solved over it.

ghost use Rattle.std.specs.Prelude.{◌≡◌, ℕ, ◌<◌, IsTrue, IfOk, length, take, slice_index};
ghost use Rattle.lane_rows.specs.Tables.{edges_of, AreNear, IsMutual, IsNumbered};
ghost use Rattle.lane_rows.specs.Equations.{lane_of};
ghost use Rattle.lane_rows.specs.Tiles.{IsSolved};
ghost use Rattle.kept_rows.specs.Pairs.{AreFirstByKeys, CanBeSearched, IsSearched};

use crate::kernel::{bytes_in, first_sets};
use lane_rows::{LANES, Near, Tiles};
use moves::Cell;
use std::alloc::{AllocError, Global};
use std::marker::Model;
use std::simd::prelude::*;

/// How often at most the places of a tile are gone over back and forth. Tiles of maps that were met take a few.
const SWEEPS: u32 = 64;

/// A list of cells, and a tile over it.
#[derive(Drop)]
pub(crate) struct Side<'a> {
    cells: &'a [Cell],
    near: &'a Near,
    tiles: Tiles,
}

impl<'a> Model for Side<'a> {
    ghost use Rattle.kept_rows.specs.Pairs.{Searched};

    ghost Value = { Searched };

    ghost view = { λ s. record { cells = s.cells.now; near = s.near.now; tile = s.tiles } };
}

impl<'a> Side<'a> {
    /// The list of these cells, with the neighbours of each and room for a tile.
    ///
    /// # Errors
    ///
    /// `AllocError` where memory runs out.
    pub(crate) fn new(
        alloc: Global,
        cells: &'a [Cell],
        near: &'a Near,
    ) -> Result<Side<'a>, AllocError>
        requires numbered { IsNumbered cells.now }
        requires edges { AreNear cells.now near.now }
        requires pairs { IsMutual near.now }
        ensures can { IfOk result (λ side. CanBeSearched side) }
        ensures cells { IfOk result (λ side. side.cells ≡ cells.now) }
    {
        let tiles = Tiles::new(alloc, cells.len())?;
        Ok(Side { cells, near, tiles })
    }

    /// Solves the tile from these sources, and says whether that was done.
    pub(crate) fn search(&mut self, sources: [u16; LANES]) -> bool
        requires can { CanBeSearched self.old }
        requires inside { (lane : ℕ) → lane < 16
            → slice_index sources lane < length self.old.cells }
        ensures cells { self.new.cells ≡ self.old.cells }
        ensures near { self.new.near ≡ self.old.near }
        ensures can { CanBeSearched self.new }
        ensures sources { self.new.tile.sources ≡ sources }
        ensures searched { IsTrue result → IsSearched self.new }
    {
        self.run(sources)
    }

    /// `search`, in terms of the tile.
    fn run(&mut self, sources: [u16; LANES]) -> bool
        requires near { length self.old.near ≡ self.old.tile.count }
        requires inside { (lane : ℕ) → lane < 16 → slice_index sources lane < self.old.tile.count }
        ensures cells { self.new.cells ≡ self.old.cells }
        ensures near { self.new.near ≡ self.old.near }
        ensures count { self.new.tile.count ≡ self.old.tile.count }
        ensures sources { self.new.tile.sources ≡ sources }
        ensures solved { IsTrue result → IsSolved self.new.near self.new.tile }
    {
        self.tiles.set_sources(sources);
        self.tiles.run(self.near, SWEEPS)
    }

    /// Where the moves from a place lead, by their numbers; the number of cells stands for nowhere.
    pub(crate) fn edges(&self, place: usize) -> [u16; 8]
        requires { place < length self.now.near }
        ensures { result ≡ edges_of self.now.near place }
    {
        self.near.table()[place]
    }

    /// The first sets from a place to the sources of all lanes, by keys alone.
    pub(crate) fn first_sets(&self, place: usize) -> [u8; LANES]
        requires searched { IsSearched self.now }
        requires place { place < length self.now.cells }
        ensures sets { AreFirstByKeys self.now place result }
        ensures bytes { (lane : ℕ) → slice_index result lane < 256 }
    {
        let edges = self.edges(place);
        let rows = self.rows();
        bytes_in(first_sets(rows, &edges, place))
    }

    /// The keys of all lanes by places.
    fn rows(&self) -> &[u32x16]
        ensures rows { result.now ≡ take self.now.tile.count self.now.tile.keys }
        ensures len { length result.now ≡ self.now.tile.count }
    {
        self.tiles.keys()
    }

    /// The keys of a place in all lanes.
    pub(crate) fn keys(&self, place: usize) -> [u32; LANES]
        requires searched { IsSearched self.now }
        requires place { place < length self.now.cells }
        ensures { (lane : ℕ) → slice_index result lane ≡ lane_of self.now.tile.keys lane place }
    {
        self.rows()[place].to_array()
    }

    /// The cells.
    pub(crate) fn cells(&self) -> &'a [Cell]
        ensures { result.now ≡ self.now.cells }
    {
        self.cells
    }
}
