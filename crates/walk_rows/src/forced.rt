//! The one move by which a best path to a goal may go on, where there is one alone.

ghost use Rattle.std.specs.Prelude.{◌≡◌, ◌+◌, ◌≤◌, IfSome, IsFalse};
ghost use Rattle.moves.specs.Maps.{IsInside};
ghost use Rattle.grid_search.specs.Keys.{key_at, move_key};
ghost use Rattle.grid_search.specs.Searches.{keys_of};
ghost use Rattle.walk_rows.specs.Walks.{IsAlone};

use grid_search::Search;
use moves::{Cell, Grid, Move, place};
use root_cost::{NO_KEY, step_key};

/// The only move by which a best path may go on from a cell to the goal of the search.
pub(crate) fn forced_move(grid: &Grid, search: &Search, from: Cell) -> Option<Move>
    requires { IsInside grid.now from }
    ensures { IfSome result (IsAlone grid.now (keys_of search.now) from) }
{
    let (width, keys) = (grid.width(), search.keys());
    let key = key_at(width, keys, from);
    let beside = grid.neighbours(from);
    let mut alone = None;
    for (by, next) in beside.as_slice() {
        if comes_down(key, *by, key_at(width, keys, *next)) {
            match alone {
                Some(_) => return None,
                None => alone = Some(*by),
            }
        }
    }
    alone
}

/// Whether a move from a cell with a key leads to one whose key is less by just this step.
pub(crate) fn comes_down(key: u32, by: Move, next: u32) -> bool
    ensures { IsFalse result → next + move_key by ≡ key → ⊥ }
{
    next.wrapping_add(step_key(by.is_diagonal())) == key
}

/// The key of a cell in a list that goes row by row.
pub(crate) fn key_at(width: u32, keys: &[u32], cell: Cell) -> u32
    ensures { result ≡ key_at width keys.now cell }
{
    keys.get(place(width, cell)).copied().unwrap_or(NO_KEY)
}
