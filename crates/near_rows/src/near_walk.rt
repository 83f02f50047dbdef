//! Near walks: a best path by compass moves and look-ups, one a move.

ghost use Rattle.std.specs.Prelude.{◌≡◌, ◌≢◌, ◌<◌, length, IfErr, IfOk, OnOk};
ghost use Rattle.run_pack.specs.Runs.{Rises};
ghost use Rattle.row_store.specs.Rows.{row_at};
ghost use Rattle.near_rows.specs.NearPaths.{IsLookedUp};
ghost use Rattle.moves.specs.Paths.{IsLeastCost};
ghost use Rattle.versions.specs.Queries.{AreEnds, IsRefusal};
ghost use Rattle.near_rows.specs.NearWalks.{Advances, CostsAhead, HasFewAhead, IsBegun};

use crate::compass::{compass, distance};
use crate::near_version::NearVersion;
use crate::nearby::NearRows;
use moves::{Cell, MAX_PASSABLE, Move};
use root_cost::Cost;
use row_store::CompData;
use std::marker::Model;
use versions::{QueryRefusal, judge};

/// A near walk under way: a component of a version with what is near in it, the cell that was reached, and the goal.
#[derive(Drop)]
pub struct NearWalk<'a> {
    comp: &'a CompData,
    near: &'a NearRows,
    at: Cell,
    goal: Cell,
    /// The place of the cell that was reached among the component's cells.
    place: u32,
    /// The place of the goal.
    column: u32,
    /// The run in which the goal was found last: in the row of a cell beside, it lies near.
    run: usize,
}

impl<'a> Model for NearWalk<'a> {
    ghost use Rattle.near_rows.specs.NearWalks.{IsUnderWay, NearWalking};

    ghost Value = { NearWalking };

    ghost view = { λ w. record { comp = w.comp.now; nearby = w.near.now; at = w.at; goal = w.goal } };

    ghost invariant = { λ w. IsUnderWay w.comp.now w.near.now w.at w.goal w.place w.column };
}

impl<'a> NearWalk<'a> {
    /// The near walk from a cell to another; `None` exactly where no path exists. It takes no memory.
    ///
    /// # Errors
    ///
    /// The first cause to refuse the two cells, the start before the goal.
    pub fn start(
        near: &'a NearVersion,
        start: Cell,
        goal: Cell,
    ) -> Result<Option<NearWalk<'a>>, QueryRefusal>
        ensures ends { OnOk result (AreEnds near.entry.now.version.map start goal) }
        ensures walk { IfOk result (IsBegun near.entry.now start goal) }
        ensures refused { IfErr result (IsRefusal near.entry.now.version.map start goal) }
    {
        let version = near.version();
        judge(version.grid(), start, goal)?;
        match near.label(start, goal) {
            None => Ok(None),
            Some(label) => {
                let comp = near.comp(label);
                let place = comp.place_of(start);
                let column = comp.place_of(goal);
                Ok(Some(NearWalk {
                    comp,
                    near: near.nearby(label),
                    at: start,
                    goal,
                    place,
                    column,
                    run: 0,
                }))
            }
        }
    }

    /// The next move of the walk; `None` exactly at the goal.
    #[inline(always)]
    pub fn step(&mut self) -> Option<Move>
        ensures { Advances self.old self.new result }
    {
        if self.place == self.column {
            return None;
        }
        let by = move_near(
            self.near,
            self.at,
            self.goal,
            self.place,
            self.column,
            &mut self.run,
        );
        self.at = self.at.target(by);
        self.place = self.comp.place_of(self.at);
        Some(by)
    }

    /// The cell that was reached.
    pub fn at(&self) -> Cell
        ensures { result ≡ self.now.at }
    {
        self.at
    }
}

/// The near move between two cells at these places, sought from a guess on where the row is asked.
#[inline(always)]
fn move_near(
    near: &NearRows,
    at: Cell,
    goal: Cell,
    place: u32,
    column: u32,
    guess: &mut usize,
) -> Move
    requires place { place < length near.now.rows }
    requires rises { Rises (row_at near.now.rows place) }
    requires apart { at ≢ goal }
    ensures { IsLookedUp near.now at place goal column result }
{
    if distance(at, goal) <= near.radius(place as usize) {
        return compass(at, goal).unwrap_or_default();
    }
    near.kept_near(place, column, guess)
}

/// What the near walk from a cell to another costs, which is the least cost; `None` exactly where no path exists. It
/// takes no memory.
///
/// # Errors
///
/// The first cause to refuse the two cells, the start before the goal.
pub fn measure(near: &NearVersion, start: Cell, goal: Cell) -> Result<Option<Cost>, QueryRefusal>
    ensures ends { OnOk result (AreEnds near.now.version.map start goal) }
    ensures cost { IfOk result (IsLeastCost near.now.version.map start goal) }
    ensures refused { IfErr result (IsRefusal near.now.version.map start goal) }
{
    match NearWalk::start(near, start, goal)? {
        None => Ok(None),
        Some(mut walk) => Ok(Some(cost_ahead(&mut walk))),
    }
}

/// What the moves cost that are ahead of a walk. The walk is at its goal then.
fn cost_ahead(walk: &mut NearWalk) -> Cost
    requires { HasFewAhead walk.old }
    ensures { CostsAhead walk.old result }
{
    let mut cost = Cost::ZERO;
    for _ in 0..MAX_PASSABLE {
        match walk.step() {
            Some(by) => cost = cost.plus(by.is_diagonal()),
            None => return cost,
        }
    }
    cost
}
