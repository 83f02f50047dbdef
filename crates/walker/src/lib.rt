//! Walks: the path between two cells of a version, read from its database with one look-up for each
//! move and no search. (Botea 2011)
//!
//! For example, a walk round a corner, which no diagonal move cuts, written as a test case:
//!
//! ```text
//! walk | .@/.. | rows | 0 0 | 1 1
//! moves S E to 1 1, 2 straight 0 diagonal
//! ```
#![tactic(auto)]

ghost use Rattle.std.specs.Prelude.{◌≡◌, ◌<◌, IfErr, IfOk, OnOk, length};
ghost use Rattle.moves.specs.declared.Cell.{Cell};
ghost use Rattle.moves.specs.Paths.{IsLeastCost};
ghost use Rattle.versions.specs.Queries.{AreEnds, IsRefusal};
ghost use Rattle.walker.specs.Walks.{Advances, CostsAhead, HasFewAhead, IsBegun};

use moves::{Cell, MAX_PASSABLE, Move};
use root_cost::Cost;
use row_store::CompData;
use std::marker::Model;
use versions::{QueryRefusal, Version, judge};

/// A walk in progress: a component of a version, the current cell, and the goal.
#[derive(Drop)]
pub struct Walk<'a> {
    comp: &'a CompData,
    at: Cell,
    /// The place of the current cell among the component's cells.
    place: u32,
    /// The place of the goal.
    goal: u32,
    /// The run in which the goal was last found: it is nearby in the row of a cell beside.
    run: usize,
}

impl<'a> Model for Walk<'a> {
    ghost use Rattle.moves.specs.FirstSetLists.{cell_of};
    ghost use Rattle.walker.specs.Walks.{IsUnderWay, Walking};

    ghost Value = { Walking };

    ghost view = { λ w. record { comp = w.comp.now; at = w.at; goal = cell_of w.comp.now.cells w.goal } };

    ghost invariant = { λ w. IsUnderWay w.comp.now w.at w.place w.goal };
}

impl<'a> Walk<'a> {
    /// Returns the walk from one cell to another, or `None` if no path exists. It takes no memory.
    ///
    /// # Errors
    ///
    /// The first reason to refuse the two cells, the start before the goal.
    pub fn start(
        version: &'a Version,
        start: Cell,
        goal: Cell,
    ) -> Result<Option<Walk<'a>>, QueryRefusal>
        ensures ends { OnOk result (AreEnds version.entry.now.map start goal) }
        ensures walk { IfOk result (IsBegun version.entry.now start goal) }
        ensures refused { IfErr result (IsRefusal version.entry.now.map start goal) }
    {
        judge(version.grid(), start, goal)?;
        match version.home(start, goal) {
            None => Ok(None),
            Some(comp) => {
                let place = comp.place_of(start);
                let goal = comp.place_of(goal);
                Ok(Some(Walk {
                    comp,
                    at: start,
                    place,
                    goal,
                    run: first_guess(comp, place, goal),
                }))
            }
        }
    }

    /// Makes the next move of the walk and returns it, or returns `None` at the goal.
    #[inline(always)]
    pub fn step(&mut self) -> Option<Move>
        ensures { Advances self.old self.new result }
    {
        if self.place == self.goal {
            return None;
        }
        let by = self
            .comp
            .first_move_near(self.place, self.goal, &mut self.run);
        self.at = self.at.target(by);
        self.place = self.comp.place_of(self.at);
        Some(by)
    }

    /// Returns the current cell.
    pub fn at(&self) -> Cell
        ensures { result ≡ self.now.at }
    {
        self.at
    }
}

/// Returns the cost of the walk from one cell to another, which is the least cost, or `None` if no
/// path exists. It takes no memory.
///
/// # Errors
///
/// The first reason to refuse the two cells, the start before the goal.
pub fn measure(version: &Version, start: Cell, goal: Cell) -> Result<Option<Cost>, QueryRefusal>
    ensures ends { OnOk result (AreEnds version.now.map start goal) }
    ensures cost { IfOk result (IsLeastCost version.now.map start goal) }
    ensures refused { IfErr result (IsRefusal version.now.map start goal) }
{
    match Walk::start(version, start, goal)? {
        None => Ok(None),
        Some(mut walk) => Ok(Some(cost_ahead(&mut walk))),
    }
}

/// Returns the cost of the moves ahead of a walk. The walk is then at its goal.
fn cost_ahead(walk: &mut Walk) -> Cost
    requires { HasFewAhead walk.old }
    ensures { CostsAhead walk.old result }
{
    let mut cost = Cost::ZERO;
    for _ in 0..MAX_PASSABLE {
        match walk.step() {
            Some(by) => cost = cost.plus(by.is_diagonal()),
            None => return cost,
        }
    }
    cost
}

/// Guesses the run of the row of `from` that covers `to`, as if all runs had the same length.
fn first_guess(comp: &CompData, from: u32, to: u32) -> usize
    requires { from < length comp.now.cells }
{
    let part = u64::from(comp.row_len(from)) * u64::from(to) / comp.cells().len() as u64;
    part as usize
}
