//! The rows of the sources of a part, one behind the other.
//!
//! Sixteen sources at a time are solved in the lanes of a vector: the one whose row is next, and those of the next
//! ones that are near it. Where a tile isn't solved the row is found by a plain search. It is the same row: rows
//! depend on the cells alone.

ghost use Rattle.std.specs.Prelude.{◌≡◌, ◌+◌, ◌<◌, ◌≤◌, ◌^◌, None, IfOk, IfSome, OnOk, false, length, slice_index_or, true};
ghost use Rattle.moves.specs.Maps.{IsSearchable};
ghost use Rattle.build_pool.specs.Places.{AreComponent};
ghost use Rattle.build_pool.specs.Pieces.{AreWordsOver};
ghost use Rattle.lane_rows.specs.Packed.{words_in};
ghost use Rattle.bake_parts.specs.Plans.{HasRoom, IsReady, MayHaveRoom, PutsRow, PutsRows};

use crate::component::Component;
use crate::plain::Plain;
use crate::room::{put, put_counted};
use crate::sources::Sources;
use lane_rows::{LANES, Tiles};
use moves::{Grid, MAX_PASSABLE};
use std::alloc::{AllocError, Global};

/// How often at most the places of a tile are gone over back and forth, before its rows are given up.
const SWEEPS: u32 = 64;

/// The memory for the rows of a component, taken once: that of one tile, and that of a plain search as soon as one is
/// needed.
#[derive(Drop)]
pub(crate) struct Bench {
    alloc: Global,
    tiles: Tiles,
    /// Whether the rows of the tile are there.
    has_rows: bool,
    /// The places whose rows are wanted.
    wanted: Vec<bool>,
    plain: Option<Plain>,
}

/// Puts the head of a part and its rows. Says how many words they are, also where the room has too few.
///
/// # Errors
///
/// `AllocError` where memory runs out.
pub(crate) fn put_rows(
    alloc: Global,
    grid: &Grid,
    component: &Component,
    sources: Sources,
    room: &mut [u32],
) -> Result<usize, AllocError>
    requires component { AreComponent grid.now component.now }
    requires searchable { IsSearchable grid.now }
    requires few { length component.now ≤ MAX_PASSABLE }
    requires sources { sources.first + sources.count ≤ length component.now }
    ensures { IfOk result (λ end.
        PutsRows component.now sources sources.count end room.old room.new) }
{
    let mut bench = Bench::new(alloc, component)?;
    let head = [sources.component, sources.first, sources.count];
    let mut at = put(&head, room, 0);
    for index in 0..sources.count {
        let place = (sources.first + index) as usize;
        let end = bench.put_row(grid, component, place, room, at)?;
        at = end;
    }
    Ok(at)
}

impl Bench {
    /// Takes the memory of a tile. No rows are there.
    fn new(alloc: Global, component: &Component) -> Result<Bench, AllocError>
        ensures ready { IfOk result (IsReady component.now) }
        ensures none { IfOk result (λ bench. bench.plain ≡ None) }
    {
        let count = component.near().len();
        Ok(Bench {
            alloc,
            tiles: Tiles::new(alloc, count)?,
            has_rows: false,
            wanted: vec![in alloc; false; count]?,
            plain: None,
        })
    }

    /// Puts the row of the cell at a place. Says where it ends.
    fn put_row(
        &mut self,
        grid: &Grid,
        component: &Component,
        place: usize,
        room: &mut [u32],
        at: usize,
    ) -> Result<usize, AllocError>
        requires component { AreComponent grid.now component.now }
        requires searchable { IsSearchable grid.now }
        requires few { length component.now ≤ MAX_PASSABLE }
        requires place { place < length component.now }
        requires ready { IsReady component.now self.old }
        requires plain { MayHaveRoom grid.now self.old.plain }
        requires at { at < 2 ^ 62 }
        ensures ready { OnOk result (IsReady component.now self.new) }
        ensures plain { OnOk result (MayHaveRoom grid.now self.new.plain) }
        ensures row { IfOk result (λ end.
            PutsRow component.now place at end room.old room.new) }
    {
        self.reach(component, place)?;
        match self.lane_of(component, place) {
            Some(lane) => Ok(put_counted(self.tiles.words(lane), room, at)),
            None => self.put_plain(grid, component, place, room, at),
        }
    }

    /// Builds the row of the cell at a place, and those of cells that come after it, unless it is at hand.
    fn reach(&mut self, component: &Component, place: usize) -> Result<(), AllocError>
        requires place { place < length component.now }
        requires ready { IsReady component.now self.old }
        ensures ready { OnOk result (IsReady component.now self.new) }
        ensures plain { OnOk result (self.new.plain ≡ self.old.plain) }
    {
        if self.lane_of(component, place).is_some() {
            return Ok(());
        }
        self.solve(component, place)
    }

    /// Builds the row of the cell at a place, and those of cells that come after it, by a tile.
    fn solve(&mut self, component: &Component, place: usize) -> Result<(), AllocError>
        requires place { place < length component.now }
        requires ready { IsReady component.now self.old }
        ensures ready { OnOk result (IsReady component.now self.new) }
        ensures plain { OnOk result (self.new.plain ≡ self.old.plain) }
    {
        let near = component.near();
        self.has_rows = false;
        want_from(place, self.wanted.as_mut_slice());
        self.tiles
            .choose(near, place as u16, self.wanted.as_mut_slice());
        if self.tiles.run(near, SWEEPS) {
            self.tiles.pack()?;
            self.has_rows = true;
        }
        Ok(())
    }

    /// The lane that has the row of the cell at a place.
    fn lane_of(&self, component: &Component, place: usize) -> Option<usize>
        requires { IsReady component.now self.now }
        ensures lane { IfSome result (λ lane. lane < 16) }
        ensures words { IfSome result (λ lane.
            AreWordsOver component.now place (words_in self.now.tiles.words lane)) }
    {
        // The component is here for the contract alone.
        let _ = component;
        if !self.has_rows {
            return None;
        }
        for lane in 0..LANES {
            if usize::from(self.tiles.source(lane)) == place {
                return Some(lane);
            }
        }
        None
    }

    /// Puts the row of the cell at a place, found by a plain search.
    fn put_plain(
        &mut self,
        grid: &Grid,
        component: &Component,
        place: usize,
        room: &mut [u32],
        at: usize,
    ) -> Result<usize, AllocError>
        requires component { AreComponent grid.now component.now }
        requires searchable { IsSearchable grid.now }
        requires few { length component.now ≤ MAX_PASSABLE }
        requires place { place < length component.now }
        requires ready { IsReady component.now self.old }
        requires plain { MayHaveRoom grid.now self.old.plain }
        requires at { at < 2 ^ 62 }
        ensures ready { OnOk result (IsReady component.now self.new) }
        ensures plain { OnOk result (MayHaveRoom grid.now self.new.plain) }
        ensures row { IfOk result (λ end.
            PutsRow component.now place at end room.old room.new) }
    {
        let mut plain = self.take_plain(grid, component)?;
        plain.find(grid, component, place)?;
        let end = put_counted(plain.words(), room, at);
        self.plain = Some(plain);
        Ok(end)
    }

    /// The memory for a plain search, which is taken the first time.
    fn take_plain(&mut self, grid: &Grid, component: &Component) -> Result<Plain, AllocError>
        requires ready { IsReady component.now self.old }
        requires plain { MayHaveRoom grid.now self.old.plain }
        ensures ready { IsReady component.now self.new }
        ensures room { IfOk result (HasRoom grid.now) }
    {
        match self.plain.take() {
            Some(plain) => Ok(plain),
            None => Plain::new(self.alloc, grid, component),
        }
    }
}

/// A place is wanted, and those behind it, as many as a tile has sources; no others are.
fn want_from(place: usize, wanted: &mut [bool])
    requires { place < length wanted.old }
    ensures size { length wanted.new ≡ length wanted.old }
    ensures place { slice_index_or wanted.new place false ≡ true }
{
    wanted.fill(false);
    let end = wanted.len().min(place + LANES);
    wanted[place..end].fill(true);
}
