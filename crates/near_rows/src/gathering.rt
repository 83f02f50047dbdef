//! Near rows that are gathered tile by tile, alone or beside the rows themselves.
//!
//! Sixteen near sources at a time are solved in the lanes of a vector, as the rows of a version are. From the first sets
//! of each the radius is found in one pass, the sets are widened, and packed from the lanes.

ghost use Rattle.std.specs.Prelude.{◌≡◌, ◌<◌, ◌≤◌, length, OnOk};
ghost use Rattle.run_pack.specs.declared.TheConstants.{MAX_PLACES};
ghost use Rattle.lane_rows.specs.Packed.{row_of};
ghost use Rattle.near_rows.specs.Gathering.{AreSomeNear, HaveFirstSets, HaveNearRows, IsNearOver};

use crate::lanes::{radii_of, sources_of, widen_all};
use crate::nearby::NearRows;
use build_pool::Harvest;
use lane_rows::{LANES, LaneWords, Near, Tiles, pack_lanes};
use moves::Cell;
use row_store::RowPool;
use std::alloc::{AllocError, Global};
use std::marker::Model;
use std::simd::prelude::*;

/// The near rows of a component while its tiles are solved, and memory for those of one tile.
#[derive(Drop)]
pub(crate) struct NearTiles {
    near: NearRows,
    /// The widened sets of all lanes.
    wide: Vec<u8x16>,
    words: LaneWords,
}

impl Model for NearTiles {
    ghost use Rattle.std.specs.Prelude.{◌≡◌, length};
    ghost use Rattle.near_rows.specs.NearRows.{Nearby};

    ghost Value = { Nearby };

    ghost view = { λ t. t.near };

    ghost invariant = { λ t. length t.wide.items ≡ length t.near.rows };
}

impl Harvest for NearTiles {
    ghost gathered = { AreSomeNear };

    fn begin(alloc: Global, cells: &[Cell]) -> Result<NearTiles, AllocError> {
        Ok(NearTiles {
            near: NearRows::blank(alloc, cells.len())?,
            wide: vec![in alloc; u8x16::splat(0); cells.len()]?,
            words: LaneWords::new(alloc)?,
        })
    }

    fn gather(
        &mut self,
        cells: &[Cell],
        _near: &Near,
        tiles: &mut Tiles,
        taken: [bool; LANES],
    ) -> Result<(), AllocError> {
        tiles.complete();
        self.put_tile(cells, tiles, taken)
    }

    fn take_over(&mut self, _cells: &[Cell], other: NearTiles) -> Result<(), AllocError> {
        self.near.merge(other.near)
    }
}

impl NearTiles {
    /// The near rows.
    pub(crate) fn into_near(self) -> NearRows
        ensures { result ≡ self }
    {
        self.near
    }

    /// Puts the near rows of the sources in the lanes that were taken.
    fn put_tile(
        &mut self,
        cells: &[Cell],
        tiles: &Tiles,
        taken: [bool; LANES],
    ) -> Result<(), AllocError>
        requires first { HaveFirstSets cells.now tiles.now }
        requires part { AreSomeNear cells.now self.old }
        ensures { OnOk result (AreSomeNear cells.now self.new) }
    {
        let sources = sources_of(tiles, cells);
        let sets = tiles.sets();
        let radii = radii_of(sources, cells, sets);
        widen_all(sources, radii, cells, sets, self.wide.as_mut_slice());
        pack_lanes(&self.wide, &mut self.words)?;
        let radii = radii.to_array();
        put_lanes(&mut self.near, cells, tiles, taken, radii, &self.words)
    }
}

/// Puts radii and rows in the lanes that were taken.
fn put_lanes(
    near: &mut NearRows,
    cells: &[Cell],
    tiles: &Tiles,
    taken: [bool; LANES],
    radii: [u16; LANES],
    words: &LaneWords,
) -> Result<(), AllocError>
    requires rows { HaveNearRows cells.now tiles.now.sources radii words.now }
    requires part { AreSomeNear cells.now near.old }
    ensures part { OnOk result (AreSomeNear cells.now near.new) }
    ensures whole { length near.new.rows ≡ length near.old.rows }
{
    for lane in 0..LANES {
        if taken[lane] {
            let place = usize::from(tiles.source(lane));
            put_row(near, cells, place, radii[lane], words.of(lane))?;
        }
    }
    Ok(())
}

/// Puts the radius and the row that these words keep where its source has no row yet.
fn put_row(
    near: &mut NearRows,
    cells: &[Cell],
    place: usize,
    radius: u16,
    words: &[u32],
) -> Result<(), AllocError>
    requires place { place < length cells.now }
    requires few { length words.now ≤ MAX_PLACES }
    requires row { IsNearOver cells.now place radius (row_of words.now) }
    requires part { AreSomeNear cells.now near.old }
    ensures part { OnOk result (AreSomeNear cells.now near.new) }
    ensures whole { length near.new.rows ≡ length near.old.rows }
{
    // The cells are here for the contract alone.
    let _ = cells;
    if near.is_blank(place) {
        near.put_words(place, radius, words)?;
    }
    Ok(())
}

/// The rows of a component, and its near rows, of the same searches.
#[derive(Drop)]
pub(crate) struct BothRows {
    pub rows: RowPool,
    pub near: NearTiles,
}

impl Harvest for BothRows {
    ghost use Rattle.build_pool.specs.Pieces.{AreSome};

    ghost gathered = { λ cells both. AreSome cells both.rows × AreSomeNear cells both.near };

    fn begin(alloc: Global, cells: &[Cell]) -> Result<BothRows, AllocError> {
        Ok(BothRows {
            rows: RowPool::begin(alloc, cells)?,
            near: NearTiles::begin(alloc, cells)?,
        })
    }

    fn gather(
        &mut self,
        cells: &[Cell],
        near: &Near,
        tiles: &mut Tiles,
        taken: [bool; LANES],
    ) -> Result<(), AllocError> {
        self.rows.gather(cells, near, tiles, taken)?;
        self.near.put_tile(cells, tiles, taken)
    }

    fn take_over(&mut self, cells: &[Cell], other: BothRows) -> Result<(), AllocError> {
        let BothRows { rows, near } = other;
        self.rows.take_over(cells, rows)?;
        self.near.take_over(cells, near)
    }
}
