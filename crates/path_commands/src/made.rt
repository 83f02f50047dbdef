//! `made W H SEED`: how large a map is that is made of two sides and a seed, and what queries on it
//! come to.
ghost use Rattle.std.specs.Prelude.{◌≡◌, ◌++◌, IfErr, IfOk, string_bytes};
ghost use Rattle.moves.specs.Maps.{IsSearchable, IsWithinLimits};
ghost use Rattle.scen_run.specs.Made.{IsMade};
ghost use Rattle.scen_run.specs.declared.made.Made.TheVariants.{Map};
ghost use Rattle.path_commands.specs.Queries.{TellsTotals};
ghost use Rattle.path_commands.specs.Runs.{IsMadeCause, map_made};
ghost use Rattle.path_commands.specs.Texts.{totals_text};

use crate::check::{push_number, push_numbers};
use crate::request::Sides;
use crate::status::Status;
use map_read::MapFault;
use moves::Grid;
use scen_run::{Made, QueryTotals, made_map, measure_queries};
use std::alloc::{AllocError, Global};
use versions::Version;

/// Returns the map that is made of the sides and the seed.
pub fn made_grid(alloc: Global, sides: Sides, seed: u32) -> Result<Grid, Status>
    requires { IsWithinLimits sides.width sides.height }
    ensures grid { IfOk result (λ grid. IsMade (map_made sides seed) (Map grid)) }
    ensures small { IfOk result IsSearchable }
    ensures refused { IfErr result (IsMadeCause (map_made sides seed)) }
{
    match made_map(alloc, sides.width, sides.height, seed)? {
        Made::Map(grid) => Ok(grid),
        Made::TooMany { x, y } => Err(Status::Map(MapFault::TooManyCells { x, y })),
    }
}

/// Returns the numbers of passable cells, of components and of runs, and what the queries of the
/// seed come to, a line each.
pub fn answer_made(alloc: Global, version: &Version, seed: u32) -> Result<String, AllocError>
    ensures { IfOk result (λ text. TellsTotals version.now seed (string_bytes text)) }
{
    let totals = measure_queries(alloc, version, seed)?;
    let mut text = String::new(alloc);
    push_numbers(&mut text, version.totals())?;
    push_totals(&mut text, totals)?;
    Ok(text)
}

/// Writes what the queries come to, a line each.
fn push_totals(text: &mut String, totals: QueryTotals) -> Result<(), AllocError>
    ensures { IfOk result (λ _.
        string_bytes text.new ≡ string_bytes text.old ++ totals_text totals) }
{
    push_number(text, "queries ", u64::from(totals.queries))?;
    push_number(text, "unreachable ", u64::from(totals.unreachable))?;
    push_number(text, "straight ", u64::from(totals.straight))?;
    push_number(text, "diagonal ", u64::from(totals.diagonal))?;
    Ok(())
}
