//! A version: a map after some edits, and the database of its paths.

ghost use Rattle.std.specs.Prelude.{◌≡◌, ◌≢◌, Contains, ◌-◌, ◌^◌, ◌<◌, ◌≤◌, map, length};
ghost use Rattle.std.specs.Prelude.{IfOk, IfErr, OnErr, OnOk, IfSome, IfNone};
ghost use Rattle.std.specs.Arc.{arc_value};
ghost use Rattle.moves.specs.Maps.{IsPassable, IsSearchable, passable_count};
ghost use Rattle.moves.specs.Paths.{Reaches};
ghost use Rattle.moves.specs.Components.{IsComponentList};
ghost use Rattle.versions.specs.Databases.{IsDatabase, IsVersion, runs_of, version_of};
ghost use Rattle.versions.specs.Spelled.{IsKept};
ghost use Rattle.versions.specs.Answers.{HasFewProbes, IsHome, IsNext, TakesFewProbes};
ghost use Rattle.versions.specs.Queries.{AreEnds, IsRefusal};

use crate::query::{QueryRefusal, judge};
use cell_order::OrderKind;
use components::{Labels, label};
use moves::{Cell, Grid, Move};
use row_store::CompData;
use run_pack::steps::Steps;
use std::alloc::{AllocError, Global};
use std::marker::Model;
use std::sync::Arc;
use std::sync::ledger::Ledger;

/// How large a version is.
#[derive(Clone, Copy, Debug, PartialEq, Eq)]
pub struct Totals {
    /// How many cells are passable, at most 32,768.
    pub cells: u32,
    /// How many components they form, at most 32,768.
    pub comps: u32,
    /// How many runs there are in all rows, at most 2^30.
    pub runs: u64,
}

/// How a path continues.
#[derive(Clone, Copy, Debug, PartialEq, Eq)]
pub enum Next {
    /// The goal is reached.
    Arrived,
    /// No path leads to the goal.
    Unreachable,
    /// The next move of the walk.
    Go(Move),
}

/// A map, the number of edits that it includes, and the database of its paths in an order.
#[derive(Drop)]
pub struct Version {
    prefix: u32,
    grid: Grid,
    kind: OrderKind,
    labels: Labels,
    comps: Vec<Arc<CompData>>,
    totals: Totals,
}

impl Model for Version {
    ghost use Rattle.std.specs.Prelude.{map};
    ghost use Rattle.std.specs.Arc.{arc_value};
    ghost use Rattle.versions.specs.Databases.{Versioned};
    ghost use Rattle.versions.specs.Stored.{IsStored};

    ghost Value = { Versioned };

    ghost view = { λ v.
        record { map = v.grid; prefix = v.prefix; order = v.kind; comps = map arc_value v.comps.items } };

    ghost invariant = { λ v. IsStored v.grid v.kind v.labels (map arc_value v.comps.items) v.totals };
}

impl Version {
    /// Makes the version of a map from its components in order, each with its cells in the given
    /// order and their rows.
    ///
    /// # Errors
    ///
    /// `AllocError` if memory runs out. The map and the list are then dropped.
    pub fn assemble(
        alloc: Global,
        prefix: u32,
        grid: Grid,
        kind: OrderKind,
        comps: Vec<Arc<CompData>>,
    ) -> Result<Version, AllocError>
        requires searchable { IsSearchable grid }
        requires database { IsDatabase grid kind (map arc_value comps.items) }
        ensures { IfOk result
            (λ version. version ≡ version_of grid prefix kind (map arc_value comps.items)) }
    {
        let labels = label(alloc, &grid)?;
        Ok(Version::assemble_labelled(prefix, grid, kind, labels, comps))
    }

    /// Like `assemble`, if the map's components are already labelled. It takes no memory.
    pub fn assemble_labelled(
        prefix: u32,
        grid: Grid,
        kind: OrderKind,
        labels: Labels,
        comps: Vec<Arc<CompData>>,
    ) -> Version
        requires searchable { IsSearchable grid }
        requires labels { IsComponentList grid labels }
        requires database { IsDatabase grid kind (map arc_value comps.items) }
        ensures { result ≡ version_of grid prefix kind (map arc_value comps.items) }
    {
        let totals = Totals {
            cells: grid.passable_count(),
            comps: labels.count(),
            runs: runs_of(&comps),
        };
        Version {
            prefix,
            grid,
            kind,
            labels,
            comps,
            totals,
        }
    }

    /// Returns the number of edits of the first map that the version includes.
    pub fn prefix(&self) -> u32
        ensures { result ≡ self.now.prefix }
    {
        self.prefix
    }

    /// Returns the order of the cells.
    pub fn kind(&self) -> OrderKind
        ensures { result ≡ self.now.order }
    {
        self.kind
    }

    /// Returns the map.
    pub fn grid(&self) -> &Grid
        ensures map { result.now ≡ self.now.map }
        ensures version { IsVersion self.now }
    {
        &self.grid
    }

    /// Returns the components in the order of their least cells.
    pub fn comps(&self) -> &[Arc<CompData>]
        ensures { map arc_value result.now ≡ self.now.comps }
    {
        &self.comps
    }

    /// Returns the component of each cell.
    pub fn labels(&self) -> &Labels
        ensures { IsComponentList self.now.map result.now }
    {
        &self.labels
    }

    /// Returns the numbers of cells, components and runs. They are kept, and not counted again.
    pub fn totals(&self) -> Totals
        ensures cells { result.cells ≡ passable_count self.now.map }
        ensures comps { result.comps ≡ length self.now.comps }
        ensures runs { result.runs ≡ runs_of self.now.comps }
    {
        self.totals
    }

    /// Returns the next move of the walk from a cell to a goal.
    ///
    /// It takes at most s probes of the cell's row of n runs, where 2^s ≤ 2n + 1, and none if the
    /// two cells are the same or no path exists.
    ///
    /// # Errors
    ///
    /// The first reason to refuse the two cells, `at` before `goal`. No steps are then counted.
    pub fn next<L: Ledger>(
        &self,
        at: Cell,
        goal: Cell,
        steps: &mut Steps<L>,
    ) -> Result<Next, QueryRefusal>
        ensures ends { OnOk result (AreEnds self.now.map at goal) }
        ensures next { IfOk result (IsNext self.now at goal) }
        ensures refused { IfErr result (IsRefusal self.now.map at goal) }
        ensures probes { IfOk result (λ next.
            TakesFewProbes self.now.comps at goal next (steps.new - steps.old)) }
        ensures unasked { OnErr result (steps.new ≡ steps.old) }
        ensures counted { steps.old ≤ steps.new }
    {
        judge(&self.grid, at, goal)?;
        if at == goal {
            return Ok(Next::Arrived);
        }
        Ok(match self.home(at, goal) {
            Some(comp) => Next::Go(move_in(comp, at, goal, steps)),
            None => Next::Unreachable,
        })
    }

    /// Returns the component that has both cells, or `None` if no path leads from one to the other.
    #[tactic(auto, using(crate::proofs::Homes::labelled))]
    pub fn home(&self, start: Cell, goal: Cell) -> Option<&CompData>
        requires start { IsPassable self.now.map start }
        requires goal { IsPassable self.now.map goal }
        ensures some { IfSome result (λ comp. IsHome self.now.comps start goal comp.now) }
        ensures none { IfNone result (Reaches self.now.map start goal → ⊥) }
    {
        let label = self.labels.of(start).unwrap();
        if self.labels.of(goal).unwrap() == label {
            Some(&self.comps[label as usize])
        } else {
            None
        }
    }
}

/// Returns the number of runs in all rows of these components.
fn runs_of(comps: &[Arc<CompData>]) -> u64
    requires { length comps.now < 2 ^ 32 }
    ensures { result ≡ runs_of (map arc_value comps.now) }
{
    let mut runs = 0;
    for comp in comps {
        runs += comp.runs();
    }
    runs
}

/// Returns the first move of the walk from one cell of a component to another.
fn move_in<L: Ledger>(comp: &CompData, start: Cell, goal: Cell, steps: &mut Steps<L>) -> Move
    requires start { Contains comp.now.cells start }
    requires goal { Contains comp.now.cells goal }
    requires apart { start ≢ goal }
    ensures kept { IsKept comp.now.cells comp.now.rows start goal result }
    ensures few { HasFewProbes comp.now start (steps.new - steps.old) }
    ensures counted { steps.old ≤ steps.new }
{
    let from = comp.place_of(start);
    let to = comp.place_of(goal);
    comp.first_move(from, to, steps)
}
