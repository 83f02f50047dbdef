//! What two bodies answer between cells of made maps.

ghost use Rattle.std.specs.Prelude.{◌<◌, IfOk};
ghost use Rattle.moves.specs.Maps.{IsSearchable};

use crate::case::{Case, all_cells, version_of};
use crate::queries::{near_of, next_at};
use build_pool::FreeGate;
use case_kit::{Family, Random, Refusal};
use cell_order::OrderKind;
use moves::{Cell, Grid, MAX_PASSABLE, Move};
use near_rows::NearVersion;
use std::alloc::{AllocError, Global};
use std::thread::Threads;
use version_build::{build, plan};
use versions::Version;
use walk_rows::{WalkError, walk_between};
use walker::Walk;

/// What is compared.
#[derive(Clone, Copy)]
pub(crate) enum Bodies {
    Walks,
    Near,
    Edited,
}

/// What is compared on maps, in which order of the cells, and between every how manieth cell.
#[derive(Clone, Copy)]
struct Asked {
    bodies: Bodies,
    kind: OrderKind,
    every: u32,
}

impl<R: Threads + Sync> Case<'_, R> {
    /// `walks | FAMILY | ORDER | EVERY`, `near | ..` or `edited | ..`: how many answers of two bodies differ between
    /// every so manieth cell of each map. It is no `Comparison`, as a trait's method can't share `rt` among threads.
    pub(crate) fn made_said(&mut self, bodies: Bodies) -> Result<String, Refusal> {
        let named = self.fields.text()?;
        let family = Family::of(self.alloc, named)?;
        let (_, count) = named.rsplit_once(' ').unwrap_or(("", named));
        let count: u32 = count.parse().map_err(|_| Refusal::OutOfForm)?;
        let asked = Asked {
            bodies,
            kind: self.fields.order()?,
            every: self.fields.number()?,
        };
        let differences = self.differences(asked, &family, count)?;
        Ok(format!(in self.alloc; "{count} maps, {differences} differences")?)
    }

    /// How many answers differ on the first so many maps of a family.
    fn differences(&self, asked: Asked, family: &Family, count: u32) -> Result<u32, Refusal> {
        let mut differences: u32 = 0;
        for seed in 0..count {
            let grid = family.map(self.alloc, seed)?;
            let more = self.differences_on(asked, &grid, seed)?;
            differences = differences.saturating_add(more);
        }
        Ok(differences)
    }

    /// How many answers differ on a map.
    fn differences_on(&self, asked: Asked, grid: &Grid, seed: u32) -> Result<u32, Refusal>
        requires { IsSearchable grid.now }
    {
        let version = version_of(self.rt, self.alloc, grid.copy()?, 0, asked.kind)?;
        let twins = match asked.bodies {
            Bodies::Walks => Twins::Walks(version),
            Bodies::Near => near_twins(self.rt, self.alloc, version)?,
            Bodies::Edited => edited_twins(self.rt, self.alloc, &version, edited(grid, seed)?)?,
        };
        let ends = ends_of(self.alloc, grid, asked.every)?;
        Ok(twins.differing(self.alloc, &ends))
    }
}

/// Every so manieth cell of a map.
fn ends_of(alloc: Global, grid: &Grid, every: u32) -> Result<Vec<Cell>, AllocError> {
    let mut ends = Vec::new(alloc);
    for (place, cell) in all_cells(alloc, grid)?.iter().enumerate() {
        if place.checked_rem(every as usize) == Some(0) {
            ends.push(*cell)?;
        }
    }
    Ok(ends)
}

/// Two bodies that answer alike.
#[derive(Drop)]
enum Twins {
    /// The walks of a version, and those from the rows of the cells on them alone.
    Walks(Version),
    /// The near rows of a version, and those that are built in one go with it; and its costs.
    Near(NearVersion, NearVersion),
    /// A version that is built after another one, and the same that is built anew.
    Edited(Version, Version),
}

impl Twins {
    /// How many answers between these cells differ.
    fn differing(&self, alloc: Global, ends: &[Cell]) -> u32 {
        let mut found: u32 = 0;
        for start in ends {
            for goal in ends {
                let differ = !self.are_alike(alloc, *start, *goal);
                found = found.wrapping_add(u32::from(differ));
            }
        }
        found
    }

    /// Whether the answers between two cells are alike, and the totals too.
    fn are_alike(&self, alloc: Global, start: Cell, goal: Cell) -> bool {
        match self {
            Twins::Walks(version) => {
                walk_between(alloc, version.grid(), version.kind(), start, goal)
                    == walked(alloc, version, start, goal)
            }
            Twins::Near(near, whole) => {
                near.runs() == whole.runs()
                    && near.widest() == whole.widest()
                    && near.radius(start) == whole.radius(start)
                    && costs_are_least(near, start, goal)
                    && costs_are_least(whole, start, goal)
            }
            Twins::Edited(after, anew) => {
                after.totals() == anew.totals()
                    && next_at(after, start, goal) == next_at(anew, start, goal)
            }
        }
    }
}

/// The moves of a version's walk.
fn walked(
    alloc: Global,
    version: &Version,
    start: Cell,
    goal: Cell,
) -> Result<Option<Vec<Move>>, WalkError> {
    let Some(mut walk) = Walk::start(version, start, goal)? else {
        return Ok(None);
    };
    let mut moves = Vec::new(alloc);
    for _ in 0..MAX_PASSABLE {
        match walk.step() {
            Some(by) => moves.push(by).map_err(AllocError::from)?,
            None => break,
        }
    }
    Ok(Some(moves))
}

/// Whether the near walk between two cells costs what that of the version does.
fn costs_are_least(near: &NearVersion, start: Cell, goal: Cell) -> bool {
    near_rows::measure(near, start, goal) == walker::measure(near.version(), start, goal)
}

/// The near rows of a version, and those that two workers build with it.
fn near_twins<R: Threads + Sync>(
    rt: &R,
    alloc: Global,
    version: Version,
) -> Result<Twins, AllocError> {
    let (grid, kind) = (version.grid().copy()?, version.kind());
    let whole = NearVersion::build(rt, alloc, grid, kind, 2, &FreeGate)?;
    Ok(Twins::Near(near_of(alloc, version)?, whole))
}

/// The version of an edited map, built by two workers after that of the former map, and anew.
fn edited_twins<R: Threads + Sync>(
    rt: &R,
    alloc: Global,
    former: &Version,
    grid: Grid,
) -> Result<Twins, AllocError>
    requires { IsSearchable grid }
{
    let plan = plan(alloc, Some(former), grid.copy()?, 1, former.kind())?;
    let (after, _) = build(rt, alloc, plan, 2, &FreeGate)?;
    let anew = version_of(rt, alloc, grid, 1, former.kind())?;
    Ok(Twins::Edited(after, anew))
}

/// The map after up to three cells of it are made something else.
fn edited(grid: &Grid, seed: u32) -> Result<Grid, Refusal>
    requires { IsSearchable grid.now }
    ensures { IfOk result IsSearchable }
{
    let mut random = Random::of(seed);
    let mut edited = grid.copy()?;
    for _ in 0..3 {
        let x = random.below(edited.width()) as u16;
        let y = random.below(edited.height()) as u16;
        edited.set_terrain(Cell { x, y }, random.terrain(40, 30));
    }
    if edited.passable_count() > MAX_PASSABLE {
        return Err(Refusal::OutOfForm);
    }
    Ok(edited)
}
