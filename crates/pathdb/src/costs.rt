//! What paths cost from a cell to many.

ghost use Rattle.path_image.specs.Reading.{LeadsInside};
ghost use Rattle.pathdb.specs.Calls.{cell_of};
ghost use Rattle.pathdb.specs.Costs.{IsCostFor, WritesCosts};

use crate::queries::{PathdbCell, PathdbCost, path_cost};
use moves::Cell;

/// What stands in place of a cost where there is none.
const NO_COST: PathdbCost = PathdbCost {
    straight: u32::MAX,
    diagonal: u32::MAX,
};

/// Writes what the paths from a cell to each of some goals cost, as far as the room reaches, and says how many costs it
/// has written. Where no path exists, or an end is refused, both numbers are the greatest that there are.
#[unsafe(no_mangle)]
pub extern "C" fn pathdb_costs(
    words: &[u32],
    start: PathdbCell,
    goals: &[PathdbCell],
    costs: &mut [PathdbCost],
) -> usize
    requires { LeadsInside words.now }
    ensures { WritesCosts words.now (cell_of start) goals.now costs.old costs.new result }
{
    let count = goals.len().min(costs.len());
    for number in 0..count {
        costs[number] = cost_for(words, start.cell(), goals[number].cell());
    }
    count
}

/// What the path from a cell to another costs, or that there is none.
fn cost_for(words: &[u32], start: Cell, goal: Cell) -> PathdbCost
    requires { LeadsInside words.now }
    ensures { IsCostFor words.now start goal result }
{
    let mut cost = NO_COST;
    path_cost(words, start, goal, &mut cost);
    cost
}
