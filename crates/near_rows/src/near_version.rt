//! A version with near rows beside its own.

ghost use Rattle.std.specs.Prelude.{◌≡◌, ◌≢◌, ◌+◌, ◌-◌, ◌*◌, ◌^◌, ◌<◌, ◌≤◌, All, Contains, length, slice_index, IfOk, IfErr, IfSome, IfNone, OnErr, OnOk};
ghost use Rattle.std.specs.Arc.{arc_value};
ghost use Rattle.moves.specs.Maps.{Map, IsPassable, IsSearchable};
ghost use Rattle.moves.specs.Paths.{Reaches};
ghost use Rattle.versions.specs.Databases.{comp_at};
ghost use Rattle.versions.specs.Queries.{AreEnds, IsRefusal};
ghost use Rattle.run_pack.specs.Runs.{Rises};
ghost use Rattle.row_store.specs.Rows.{row_at};
ghost use Rattle.near_rows.specs.Compass.{IsInSquare};
ghost use Rattle.near_rows.specs.NearRows.{AreNear, runs_in};
ghost use Rattle.near_rows.specs.NearVersions.{IsFoundRadius, IsHomeLabel, IsNearVersion, IsWidest, near_runs_of, nearby_at};
ghost use Rattle.near_rows.specs.NearPaths.{HasFewNearProbes, IsLookedUp, IsNearMove, IsNearNext, TakesFewNearProbes};

use crate::both::{Parts, parts_of};
use crate::building::near_rows_of;
use crate::compass::{compass, distance};
use crate::crew::Crew;
use crate::nearby::NearRows;
use build_pool::{Gate, MAX_WORKERS};
use cell_order::OrderKind;
use components::label;
use moves::{Cell, Grid, MAX_PASSABLE, Move};
use row_store::CompData;
use run_pack::steps::Steps;
use std::alloc::{AllocError, Global};
use std::marker::Model;
use std::sync::Arc;
use std::sync::ledger::Ledger;
use std::thread::Threads;
use versions::{Next, QueryRefusal, Version, judge};

/// A version, and for each passable cell its near radius and its near row.
#[derive(Drop)]
pub struct NearVersion {
    version: Arc<Version>,
    /// What is near in each component.
    nearby: Vec<NearRows>,
    runs: u64,
    widest: u16,
}

impl Model for NearVersion {
    ghost use Rattle.std.specs.Arc.{arc_value};
    ghost use Rattle.near_rows.specs.NearVersions.{IsKept, NearVersioned};

    ghost Value = { NearVersioned };

    ghost view = { λ n. record { version = arc_value n.version; nearby = n.nearby.items } };

    ghost invariant = { λ n.
        IsKept (record { version = arc_value n.version; nearby = n.nearby.items }) n.runs n.widest };
}

impl NearVersion {
    /// The near version of a version. The rows are built by one worker.
    ///
    /// # Errors
    ///
    /// `AllocError` where memory runs out. The version is dropped then.
    pub fn make(alloc: Global, version: Arc<Version>) -> Result<NearVersion, AllocError>
        ensures version { IfOk result (λ near. near.version ≡ arc_value version) }
        ensures near { IfOk result (λ near. IsNearVersion near) }
    {
        let nearby = nearby_of(alloc, &version)?;
        Ok(NearVersion::of(version, nearby))
    }

    /// The near version of a map that no edit has changed, whose rows and near rows are built in one go by so many
    /// workers, from 1 to 64. It is the same one for any number of workers. Each piece of a component passes the gate once.
    ///
    /// # Errors
    ///
    /// `AllocError` where memory runs out. The map is dropped then.
    pub fn build<R: Threads + Sync, G: Gate>(
        rt: &R,
        alloc: Global,
        grid: Grid,
        kind: OrderKind,
        workers: u32,
        gate: &G,
    ) -> Result<NearVersion, AllocError>
        requires searchable { IsSearchable grid }
        requires worker { 0 < workers }
        requires workers { workers ≤ MAX_WORKERS }
        ensures map { IfOk result (λ near. near.version.map ≡ grid) }
        ensures prefix { IfOk result (λ near. near.version.prefix ≡ 0) }
        ensures order { IfOk result (λ near. near.version.order ≡ kind) }
        ensures near { IfOk result (λ near. IsNearVersion near) }
    {
        let labels = label(alloc, &grid)?;
        let crew = Crew::new(rt, alloc, workers, gate);
        let Parts { comps, nearby } = parts_of(&crew, kind, &grid, &labels)?;
        let version = Version::assemble_labelled(0, grid, kind, labels, comps);
        Ok(NearVersion::of(Arc::new(alloc, version)?, nearby))
    }

    /// A version with what is near in each of its components.
    fn of(version: Arc<Version>, nearby: Vec<NearRows>) -> NearVersion
        requires near { IsNearVersion (record { version = arc_value version; nearby = nearby.items }) }
        requires few { length nearby.items < 2 ^ 32 }
        ensures version { result.version ≡ arc_value version }
        ensures near { IsNearVersion result }
    {
        let runs = runs_of(&nearby);
        let widest = widest_of(&nearby);
        NearVersion {
            version,
            nearby,
            runs,
            widest,
        }
    }

    /// The version.
    pub fn version(&self) -> &Version
        ensures version { result.now ≡ self.now.version }
        ensures near { IsNearVersion self.now }
    {
        &self.version
    }

    /// How many runs all near rows have, at most as many as the rows of the version.
    pub fn runs(&self) -> u64
        ensures { result ≡ near_runs_of self.now.nearby }
    {
        self.runs
    }

    /// The greatest near radius of all cells, from 0 to 4,095; 0 where there are no cells.
    pub fn widest(&self) -> u32
        ensures { IsWidest self.now.nearby result }
    {
        u32::from(self.widest)
    }

    /// The near radius of a cell, from 0 to 4,095; `None` exactly where it is outside or blocked.
    pub fn radius(&self, at: Cell) -> Option<u32>
        ensures { IsFoundRadius self.now at result }
    {
        match self.version().labels().of(at) {
            None => None,
            Some(label) => {
                let place = self.comp(label as usize).place_of(at);
                let radius = self.nearby(label as usize).radius(place as usize);
                Some(u32::from(radius))
            }
        }
    }

    /// The next move of the near walk from a cell to a goal.
    ///
    /// Where the goal lies in the square of the cell it takes no probe, and else at most s probes of the near row of the
    /// cell, where that has n runs and 2^s ≤ 2n + 1. It takes none where the two cells are one or no path exists.
    ///
    /// # Errors
    ///
    /// The first cause to refuse the two cells, the one where the path stands before the goal. Nothing is counted then.
    pub fn next<L: Ledger>(
        &self,
        at: Cell,
        goal: Cell,
        steps: &mut Steps<L>,
    ) -> Result<Next, QueryRefusal>
        ensures ends { OnOk result (AreEnds self.now.version.map at goal) }
        ensures next { IfOk result (IsNearNext self.now at goal) }
        ensures refused { IfErr result (IsRefusal self.now.version.map at goal) }
        ensures probes { IfOk result (λ next.
            TakesFewNearProbes self.now at goal next (steps.new - steps.old)) }
        ensures unasked { OnErr result (steps.new ≡ steps.old) }
        ensures counted { steps.old ≤ steps.new }
    {
        judge(self.version().grid(), at, goal)?;
        if at == goal {
            return Ok(Next::Arrived);
        }
        Ok(match self.label(at, goal) {
            Some(label) => Next::Go(near_move(
                self.comp(label),
                self.nearby(label),
                at,
                goal,
                steps,
            )),
            None => Next::Unreachable,
        })
    }

    /// The number of the component that has both cells; `None` exactly where no path leads from the one to the other.
    pub(crate) fn label(&self, start: Cell, goal: Cell) -> Option<usize>
        requires start { IsPassable self.now.version.map start }
        requires goal { IsPassable self.now.version.map goal }
        ensures some { IfSome result (λ label. IsHomeLabel self.now start goal label) }
        ensures none { IfNone result (Reaches self.now.version.map start goal → ⊥) }
    {
        let labels = self.version().labels();
        let label = labels.of(start).unwrap();
        if labels.of(goal).unwrap() == label {
            Some(label as usize)
        } else {
            None
        }
    }

    /// The component with that number.
    pub(crate) fn comp(&self, label: usize) -> &CompData
        requires { label < length self.now.version.comps }
        ensures { result.now ≡ comp_at self.now.version.comps label }
    {
        &self.version.comps()[label]
    }

    /// What is near in the component with that number.
    pub(crate) fn nearby(&self, label: usize) -> &NearRows
        requires { label < length self.now.version.comps }
        ensures { result.now ≡ nearby_at self.now.nearby label }
    {
        &self.nearby[label]
    }
}

/// What is near in each component of a version.
fn nearby_of(alloc: Global, version: &Version) -> Result<Vec<NearRows>, AllocError>
    ensures near { IfOk result (λ nearby.
        IsNearVersion (record { version = version.now; nearby = nearby.items })) }
    ensures few { IfOk result (λ nearby. length nearby.items < 2 ^ 32) }
{
    let grid = version.grid();
    let mut nearby = Vec::with_capacity(alloc, version.totals().comps as usize)?;
    for comp in version.comps() {
        nearby.push(near_rows_of(alloc, grid, comp.cells())?)?;
    }
    Ok(nearby)
}

/// How many runs all rows have.
fn runs_of(nearby: &[NearRows]) -> u64
    requires few { length nearby.now < 2 ^ 32 }
    requires each { All (λ near. runs_in near ≤ MAX_PASSABLE * MAX_PASSABLE) nearby.now }
    ensures { result ≡ near_runs_of nearby.now }
{
    let mut runs = 0;
    for near in nearby {
        runs += near.runs();
    }
    runs
}

/// The greatest radius, 0 where there are none.
fn widest_of(nearby: &[NearRows]) -> u16
    ensures { IsWidest nearby.now result }
{
    let mut widest = 0;
    for near in nearby {
        widest = widest.max(near.widest());
    }
    widest
}

/// The near move from one cell of a component to another.
fn near_move<L: Ledger>(
    comp: &CompData,
    near: &NearRows,
    at: Cell,
    goal: Cell,
    steps: &mut Steps<L>,
) -> Move
    requires near { (map : Map) × AreNear map comp.now.cells near.now }
    requires at { Contains comp.now.cells at }
    requires goal { Contains comp.now.cells goal }
    requires apart { at ≢ goal }
    ensures is { IsNearMove comp.now.cells near.now at goal result }
    ensures few { HasFewNearProbes comp.now.cells near.now at goal (steps.new - steps.old) }
    ensures counted { steps.old ≤ steps.new }
{
    let place = comp.place_of(at);
    let column = comp.place_of(goal);
    move_between(near, at, goal, place, column, steps)
}

/// The near move between two cells at these places.
fn move_between<L: Ledger>(
    near: &NearRows,
    at: Cell,
    goal: Cell,
    place: u32,
    column: u32,
    steps: &mut Steps<L>,
) -> Move
    requires place { place < length near.now.rows }
    requires rises { Rises (row_at near.now.rows place) }
    requires apart { at ≢ goal }
    ensures is { IsLookedUp near.now at place goal column result }
    ensures none { IsInSquare at (slice_index near.now.radii place) goal → steps.new ≡ steps.old }
    ensures few { 2 ^ (steps.new - steps.old) ≤ 2 * length (row_at near.now.rows place) + 1 }
    ensures counted { steps.old ≤ steps.new }
{
    if distance(at, goal) <= near.radius(place as usize) {
        return compass(at, goal).unwrap_or_default();
    }
    near.kept(place, column, steps)
}
