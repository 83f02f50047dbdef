//! The two ends of a query for a path, and why they may be refused.

ghost use Rattle.std.specs.Prelude.{IfErr, OnOk};
ghost use Rattle.moves.specs.Maps.{IsPassable};
ghost use Rattle.versions.specs.Queries.{AreEnds, IsEndRefusal, IsRefusal};

use moves::{Cell, Grid};
use std::fmt;

/// An end of the path that a query asks for.
#[derive(Clone, Copy, Debug, PartialEq, Eq)]
pub enum End {
    /// Where it begins.
    Start,
    /// Where it ends.
    Goal,
}

/// Why a query is refused. The start is checked before the goal.
#[derive(Clone, Copy, Debug, PartialEq, Eq)]
pub enum QueryRefusal {
    /// The cell of that end is outside the map.
    Outside {
        /// The end.
        which: End,
    },
    /// The cell of that end is blocked.
    Blocked {
        /// The end.
        which: End,
    },
}

impl fmt::Display for QueryRefusal {
    ghost use Rattle.std.specs.Prelude.{Some};
    ghost use Rattle.versions.specs.Queries.{refusal_text};

    ghost output = { λ refusal. Some (refusal_text refusal) };

    fn fmt<W: fmt::Write>(&self, f: &mut fmt::Formatter<W>) -> fmt::Result {
        match self {
            QueryRefusal::Outside { which: End::Start } => write!(f, "outside start"),
            QueryRefusal::Outside { which: End::Goal } => write!(f, "outside goal"),
            QueryRefusal::Blocked { which: End::Start } => write!(f, "blocked start"),
            QueryRefusal::Blocked { which: End::Goal } => write!(f, "blocked goal"),
        }
    }
}

/// Checks that both ends are inside the map and passable, the start before the goal.
///
/// # Errors
///
/// The first reason to refuse the two cells.
pub fn judge(grid: &Grid, start: Cell, goal: Cell) -> Result<(), QueryRefusal>
    ensures ends { OnOk result (AreEnds grid.now start goal) }
    ensures refused { IfErr result (IsRefusal grid.now start goal) }
{
    judge_end(grid, start, End::Start)?;
    judge_end(grid, goal, End::Goal)
}

/// Checks that the cell of that end is inside the map and passable.
fn judge_end(grid: &Grid, cell: Cell, which: End) -> Result<(), QueryRefusal>
    ensures passable { OnOk result (IsPassable grid.now cell) }
    ensures refused { IfErr result (IsEndRefusal grid.now cell which) }
{
    if !grid.inside(cell) {
        return Err(QueryRefusal::Outside { which });
    }
    if !grid.passable(cell) {
        return Err(QueryRefusal::Blocked { which });
    }
    Ok(())
}
