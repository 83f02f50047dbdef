//! The walk between two cells of a map, from the rows of some of the cells on it alone.
//!
//! The database of a map spells one walk between two cells that a path joins. The move that a row
//! keeps for the goal begins a best path, so where the costs to the goal leave one such move, it is
//! that one. The rows of the other cells on the walk are built as they are met, up to sixteen at a
//! time. (Botea 2011; Strasser, Harabor and Botea 2014)
//!
//! A path whose moves are all forced, so no row is built:
//!
//! ```text
//! run | path M 0 0 2 0 | rows ...
//! 0 cost 2 0\nlength 2.000000\nmoves E E\n
//! ```
#![tactic(auto)]

ghost use Rattle.std.specs.Prelude.{◌<◌, IfErr, IfOk, IfSome, OnOk, length};
ghost use Rattle.moves.specs.Maps.{IsSearchable};
ghost use Rattle.versions.specs.Queries.{AreEnds};
ghost use Rattle.walk_rows.specs.Walks.{IsWalkCause, IsWalkOf};

mod along;
mod bench;
mod component;
mod forced;
mod hints;
mod kept;
pub mod laws;

use along::{Route, walk_down};
use cell_order::OrderKind;
use grid_search::Search;
use moves::{Cell, Grid, MAX_PASSABLE, Move};
use std::alloc::{AllocError, Global};
use std::error::Error;
use std::fmt;
use versions::{QueryRefusal, judge};

/// Why a walk could not be told.
#[derive(Clone, Copy, Debug, PartialEq, Eq)]
pub enum WalkError {
    /// One of the two cells may not be asked for.
    Refused(QueryRefusal),
    /// Memory ran out.
    NoMemory,
}

impl fmt::Display for WalkError {
    ghost use Rattle.std.specs.Prelude.{Some};
    ghost use Rattle.walk_rows.specs.Walks.{error_text};

    ghost output = { λ error. Some (error_text error) };

    fn fmt<W: fmt::Write>(&self, f: &mut fmt::Formatter<W>) -> fmt::Result {
        match self {
            WalkError::Refused(refusal) => write!(f, "{refusal}"),
            WalkError::NoMemory => write!(f, "out of memory"),
        }
    }
}

impl Error for WalkError {}

impl From<AllocError> for WalkError {
    ghost use Rattle.std.specs.Prelude.{◌≡◌};
    ghost use Rattle.walk_rows.specs.declared.WalkError.TheVariants.{NoMemory};

    ghost from_gives = { λ _ e. e ≡ NoMemory };

    fn from(_e: AllocError) -> WalkError {
        WalkError::NoMemory
    }
}

impl From<QueryRefusal> for WalkError {
    ghost use Rattle.std.specs.Prelude.{◌≡◌};
    ghost use Rattle.walk_rows.specs.declared.WalkError.TheVariants.{Refused};

    ghost from_gives = { λ refusal e. e ≡ Refused refusal };

    fn from(refusal: QueryRefusal) -> WalkError {
        WalkError::Refused(refusal)
    }
}

/// The moves of the walk from a cell to another that the map's database in that order spells; `None`
/// exactly where no path exists. The map has at most 32,768 passable cells.
///
/// # Errors
///
/// The first cause to refuse the two cells, the start before the goal, or want of memory.
pub fn walk_between(
    alloc: Global,
    grid: &Grid,
    order: OrderKind,
    start: Cell,
    goal: Cell,
) -> Result<Option<Vec<Move>>, WalkError>
    requires searchable { IsSearchable grid.now }
    ensures ends { OnOk result (AreEnds grid.now start goal) }
    ensures walk { IfOk result (IsWalkOf grid.now order start goal) }
    ensures few { IfOk result (λ found. IfSome found (λ moves.
        length moves.items < MAX_PASSABLE)) }
    ensures refused { IfErr result (IsWalkCause grid.now start goal) }
{
    judge(grid, start, goal)?;
    let mut search = Search::new(alloc, (grid.width() * grid.height()) as usize)?;
    search.from_source(grid, goal);
    match search.cost(start) {
        None => Ok(None),
        Some(_) => {
            let route = Route { order, start, goal };
            let moves = walk_down(alloc, grid, &search, route)?;
            Ok(Some(moves))
        }
    }
}
