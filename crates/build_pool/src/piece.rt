//! The rows that one worker builds.
//!
//! Sixteen near sources at a time are solved in the lanes of a vector, and the row of each goes to its place. The tiles
//! are those that one worker alone takes: each begins at the first source that is left, whosever piece it is of, and
//! takes those that are nearest to it; workers choose in turn, and solve side by side. What is found so is exact
//! wherever and by whomever it is found. Where a tile isn't solved its rows stay blank, and in the end what is blank is
//! built by a plain search. It is the same row: rows depend on the cells alone.

ghost use Rattle.std.specs.Prelude.{◌≡◌, ℕ, ◌<◌, ◌≤◌, length, slice_index, IfOk, IfSome, OnOk};
ghost use Rattle.build_pool.specs.Places.{AreWithNear};
ghost use Rattle.build_pool.specs.Pieces.{cut, CanBuild};

use crate::harvest::Harvest;
use crate::pending::Pending;
use crate::{Gate, MAX_WORKERS};
use lane_rows::{LANES, Near, Tiles};
use moves::{Cell, MAX_PASSABLE};
use std::alloc::{AllocError, Global};

/// How often at most the places of a tile are gone over back and forth before the tile is given up. Tiles of maps that
/// were met take a few.
const SWEEPS: u32 = 64;

/// One worker of so many.
#[derive(Clone, Copy)]
pub(crate) struct Share {
    pub workers: u32,
    pub piece: u32,
}

/// What one worker gathers, after its piece has passed the gate; it has nothing of what others build. All that a row
/// needs to be built is taken once.
pub(crate) fn build_share<G: Gate, H: Harvest>(
    alloc: Global,
    cells: &[Cell],
    near: &Near,
    pending: &Pending,
    share: Share,
    gate: &G,
) -> Result<H, AllocError>
    requires { CanBuild cells.now near.now share.workers share.piece }
    ensures { IfOk result (H.gathered cells.now) }
{
    gate.enter(share.piece);
    pending.offer(
        cut_of(cells.len(), share.workers, share.piece),
        cut_of(cells.len(), share.workers, share.piece + 1),
    );
    let mut harvest = H::begin(alloc, cells)?;
    let mut bench = Workbench::new(alloc, near.len(), pending.blocks())?;
    for first in 0..near.len() {
        if pending.may_be_taken(first) {
            let built = build_tile(near, cells, pending, first as u16, &mut bench, &mut harvest)?;
            gate.built(built);
        }
    }
    Ok(harvest)
}

/// Where a piece begins.
fn cut_of(places: usize, workers: u32, piece: u32) -> usize
    requires places { places ≤ MAX_PASSABLE }
    requires worker { 0 < workers }
    requires workers { workers ≤ MAX_WORKERS }
    requires piece { piece ≤ workers }
    ensures cut { result ≡ cut places workers piece }
{
    piece as usize * places / workers as usize
}

/// What a worker builds tiles with, taken once.
#[derive(Drop)]
struct Workbench {
    tiles: Tiles,
    /// The places that may be taken, as far as the worker knows.
    wanted: Vec<bool>,
    /// How many changes of each block of places it has seen.
    seen: Vec<u64>,
}

impl Workbench {
    /// For a component of so many cells, in so many blocks.
    fn new(alloc: Global, places: usize, blocks: usize) -> Result<Workbench, AllocError>
        requires { places ≤ MAX_PASSABLE }
        ensures count { IfOk result (λ bench. bench.tiles.count ≡ places) }
        ensures marks { IfOk result (λ bench. length bench.wanted.items ≡ places) }
    {
        Ok(Workbench {
            tiles: Tiles::new(alloc, places)?,
            wanted: vec![in alloc; false; places]?,
            seen: vec![in alloc; 0; blocks]?,
        })
    }
}

/// Builds the rows of a tile around the place, where that may still be taken, and says how many there are.
fn build_tile<H: Harvest>(
    near: &Near,
    cells: &[Cell],
    pending: &Pending,
    first: u16,
    bench: &mut Workbench,
    harvest: &mut H,
) -> Result<u32, AllocError>
    requires near { AreWithNear cells.now near.now }
    requires first { first < length near.now }
    requires count { bench.old.tiles.count ≡ length near.now }
    requires marks { length bench.old.wanted.items ≡ length near.now }
    requires part { H.gathered cells.now harvest.old }
    ensures count { OnOk result (bench.new.tiles.count ≡ length near.now) }
    ensures marks { OnOk result (length bench.new.wanted.items ≡ length near.now) }
    ensures part { OnOk result (H.gathered cells.now harvest.new) }
{
    let Some(taken) = choose_tile(near, pending, first, bench) else {
        return Ok(0);
    };
    if !bench.tiles.run(near, SWEEPS) {
        return Ok(0);
    }
    harvest.gather(cells, near, &mut bench.tiles, taken)?;
    Ok(count_of(taken))
}

/// How many lanes are marked.
fn count_of(taken: [bool; LANES]) -> u32 {
    taken.iter().filter(|is_taken| **is_taken).count() as u32
}

/// Chooses the sources of a tile around the place when it is the worker's turn, and takes their rows. It says in which
/// lanes it has them; `None` where it has none.
fn choose_tile(
    near: &Near,
    pending: &Pending,
    first: u16,
    bench: &mut Workbench,
) -> Option<[bool; LANES]>
    requires first { first < length near.now }
    requires count { bench.old.tiles.count ≡ length near.now }
    requires marks { length bench.old.wanted.items ≡ length near.now }
    ensures count { bench.new.tiles.count ≡ length near.now }
    ensures marks { length bench.new.wanted.items ≡ length near.now }
    ensures sources { IfSome result (λ taken. (lane : ℕ) → lane < 16
        → slice_index bench.new.tiles.sources lane < length near.now) }
{
    let _turn = pending.turn();
    pending.look(bench.wanted.as_mut_slice(), bench.seen.as_mut_slice());
    if !bench.wanted[usize::from(first)] {
        return None;
    }
    let count = bench.tiles.choose(near, first, bench.wanted.as_mut_slice());
    take_lanes(pending, &bench.tiles, count)
}

/// Takes the rows of a tile's sources, and says in which lanes nobody else was faster; `None` where others were in all.
fn take_lanes(pending: &Pending, tiles: &Tiles, count: usize) -> Option<[bool; LANES]>
    requires { count ≤ 16 }
{
    let mut taken = [false; LANES];
    let mut is_any = false;
    for lane in 0..count {
        if pending.take(usize::from(tiles.source(lane))) {
            taken[lane] = true;
            is_any = true;
        }
    }
    if is_any { Some(taken) } else { None }
}
