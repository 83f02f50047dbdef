//! `path MAP SX SY GX GY`: the path between two cells of a map, from the rows of the cells on it alone.

ghost use Rattle.std.specs.Prelude.{◌≡◌, ◌<◌, ◌≤◌, IfErr, IfOk, length, string_bytes};
ghost use Rattle.moves.specs.Maps.{IsSearchable};
ghost use Rattle.moves.specs.Paths.{cost_of};
ghost use Rattle.path_commands.specs.Queries.{TellsHead};
ghost use Rattle.path_commands.specs.Runs.{IsFirstPathCause, TellsFirstAnswer};
ghost use Rattle.path_commands.specs.Texts.{unreachable_text};

use crate::heard::path_of;
use crate::status::Status;
use cell_order::OrderKind;
use moves::{Cell, Grid, MAX_PASSABLE, Move};
use root_cost::{Cost, MAX_STEPS};
use std::alloc::{AllocError, Global};
use std::fmt::Write;
use walk_rows::walk_between;

/// Returns the text of the walk between two cells, or of no path. It is the answer of the map's
/// first version, of which only the rows of the cells on the walk are built.
pub fn answer_path(
    alloc: Global,
    grid: &Grid,
    order: OrderKind,
    start: Cell,
    goal: Cell,
) -> Result<String, Status>
    requires searchable { IsSearchable grid.now }
    ensures done { IfOk result (λ text.
        TellsFirstAnswer grid.now order start goal (string_bytes text)) }
    ensures refused { IfErr result (IsFirstPathCause grid.now order start goal) }
{
    match walk_between(alloc, grid, order, start, goal)? {
        None => Ok(unreachable_text(alloc)?),
        Some(moves) => Ok(path_of(alloc, cost_of(&moves), &moves)?),
    }
}

/// Returns the cost of the moves of a path.
fn cost_of(moves: &[Move]) -> Cost
    requires { length moves.now < MAX_PASSABLE }
    ensures cost { result ≡ cost_of moves.now }
    ensures straight { result.straight ≤ MAX_STEPS }
    ensures diagonal { result.diagonal ≤ MAX_STEPS }
{
    let mut cost = Cost::ZERO;
    for by in moves {
        cost = cost.plus(by.is_diagonal());
    }
    cost
}

/// Returns the cost and the length of a path, a line each, and the word before its moves.
pub fn head_text(alloc: Global, cost: Cost) -> Result<String, AllocError>
    requires straight { cost.straight ≤ MAX_STEPS }
    requires diagonal { cost.diagonal ≤ MAX_STEPS }
    ensures { IfOk result (λ text. TellsHead cost (string_bytes text)) }
{
    let Cost { straight, diagonal } = cost;
    let length = cost.length();
    let mut text = String::new(alloc);
    write!(text, "cost {straight} {diagonal}\n")?;
    write!(text, "length {length}\n")?;
    text.push_str("moves")?;
    Ok(text)
}

/// Returns the text for no path.
pub fn unreachable_text(alloc: Global) -> Result<String, AllocError>
    ensures { IfOk result (λ text. string_bytes text ≡ unreachable_text) }
{
    String::from_str(alloc, "unreachable\n")
}
