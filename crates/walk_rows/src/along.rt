//! A walk, move by move. Where the costs to the goal leave one move by which a best path may go on, the row of the cell
//! can keep no other. Only for the cells where they leave several are rows built.

ghost use Rattle.std.specs.Prelude.{◌≡◌, ◌<◌, ◌≤◌, ◌↔◌, [], ◌∷◌, ◌++◌, IfOk, IsTrue, OnOk, length};
ghost use Rattle.moves.specs.declared.Cell.{Cell};
ghost use Rattle.moves.specs.Maps.{IsSearchable};
ghost use Rattle.moves.specs.Moves.{HasLegal, IsTarget};
ghost use Rattle.moves.specs.Paths.{Reaches};
ghost use Rattle.grid_search.specs.Searches.{HasSearched};
ghost use Rattle.walk_rows.specs.Walks.{CanBeWalked, IsHome, IsUnderWay, SpellsIn};

use crate::bench::Workbench;
use crate::component::component_of;
use crate::forced::forced_move;
use crate::kept::{next_move, place_of};
use cell_order::OrderKind;
use grid_search::Search;
use lane_rows::Near;
use moves::{Cell, Grid, MAX_PASSABLE, Move};
use std::alloc::{AllocError, Global};

/// The walk that is asked for.
#[derive(Clone, Copy)]
pub(crate) struct Route {
    /// The order of the database that spells it.
    pub(crate) order: OrderKind,
    pub(crate) start: Cell,
    pub(crate) goal: Cell,
}

/// A walk under way: its moves so far, and where they lead.
#[derive(Drop)]
pub(crate) struct Trail {
    moves: Vec<Move>,
    at: Cell,
}

impl Trail {
    /// Goes on by a move.
    fn take(&mut self, grid: &Grid, by: Move) -> Result<(), AllocError>
        requires { HasLegal grid.now self.old.at by }
        ensures moves { OnOk result (self.new.moves.items ≡ self.old.moves.items ++ by ∷ []) }
        ensures at { OnOk result (IsTarget self.old.at by self.new.at) }
    {
        // That the map lies inside the limits is known from its width.
        let _ = grid.width();
        self.moves.push(by)?;
        self.at = self.at.target(by);
        Ok(())
    }
}

/// The moves of a walk, by the costs that were found from its goal.
///
/// # Errors
///
/// `AllocError` where memory runs out.
pub(crate) fn walk_down(
    alloc: Global,
    grid: &Grid,
    search: &Search,
    route: Route,
) -> Result<Vec<Move>, AllocError>
    requires searchable { IsSearchable grid.now }
    requires searched { HasSearched grid.now route.goal search.now }
    requires ahead { Reaches grid.now route.start route.goal }
    ensures { IfOk result (λ moves. SpellsIn grid.now route moves.items) }
{
    let mut trail = Trail {
        moves: Vec::new(alloc),
        at: route.start,
    };
    go_on(grid, search, route, &mut trail)?;
    if is_reached(trail.at, route.goal) {
        return Ok(trail.moves);
    }
    let cells = component_of(alloc, grid, route)?;
    walk_among(alloc, grid, &cells, search, route, trail)
}

/// Goes on while one move alone is left.
fn go_on(grid: &Grid, search: &Search, route: Route, trail: &mut Trail) -> Result<(), AllocError>
    requires searched { HasSearched grid.now route.goal search.now }
    requires way { IsUnderWay grid.now route trail.old.at trail.old.moves.items }
    ensures way { OnOk result (IsUnderWay grid.now route trail.new.at trail.new.moves.items) }
    ensures long { OnOk result (length trail.old.moves.items ≤ length trail.new.moves.items) }
{
    for _ in 0..MAX_PASSABLE {
        if is_reached(trail.at, route.goal) {
            return Ok(());
        }
        match forced_move(grid, search, trail.at) {
            None => return Ok(()),
            Some(by) => trail.take(grid, by)?,
        }
    }
    Ok(())
}

/// Ends a walk among the cells of its component, in their order.
fn walk_among(
    alloc: Global,
    grid: &Grid,
    cells: &[Cell],
    search: &Search,
    route: Route,
    mut trail: Trail,
) -> Result<Vec<Move>, AllocError>
    requires searchable { IsSearchable grid.now }
    requires searched { HasSearched grid.now route.goal search.now }
    requires home { IsHome grid.now route cells.now }
    requires cells { CanBeWalked grid.now cells.now }
    requires way { IsUnderWay grid.now route trail.at trail.moves.items }
    ensures { IfOk result (λ moves. SpellsIn grid.now route moves.items) }
{
    let to = place_of(cells, route.goal);
    let near = Near::of(alloc, cells)?;
    let mut bench = Workbench::new(alloc, grid, search, cells)?;
    for _ in 0..cells.len() {
        if is_reached(trail.at, route.goal) {
            return Ok(trail.moves);
        }
        let by = next_move(grid, cells, &near, &mut bench, trail.at, to)?;
        bench.learn(trail.at, by);
        trail.take(grid, by)?;
        go_on(grid, search, route, &mut trail)?;
    }
    Ok(trail.moves)
}

/// Whether the cell is the goal.
fn is_reached(at: Cell, goal: Cell) -> bool
    ensures { IsTrue result ↔ at ≡ goal }
{
    at == goal
}
