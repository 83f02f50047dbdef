//! The rows of a component that stay after a few cells are blocked, or freed.
//!
//! Two lists of cells are compared, of which the one has some cells more, those at the gaps. Pairs of tiles are solved,
//! one over each list, from the same cells round the gaps, the ball: costs are the same both ways, so they tell of each
//! other cell the first sets to those cells. Where these are the same over both lists, and the costs as well at the
//! border of the ball, all first sets from that cell are the same (kept_sources), and its row follows from the former
//! one by few sets (row_edit). As long as the ball has not all cells beside those of the gaps, or too many cells are left
//! undecided, it grows by a pair of tiles. Where too many are left then, pairs are solved from gates, few cells that part
//! some from the gaps: what a source has to the gates tells what it has to all cells.
//! (Botea 2011; Strasser, Harabor and Botea 2014)
//!
//! In the middle of open ground, most rows stay when a cell is blocked and when it is freed:
//!
//! ```text
//! known rows | made 40 40 100 1 | 20 19
//! blocked: most, freed: most
//! ```
#![tactic(auto)]

ghost use Rattle.std.specs.Prelude.{IfOk, IfSome};
ghost use Rattle.lane_rows.specs.Tables.{AreNear, IsMutual};
ghost use Rattle.build_pool.specs.Places.{AreWithNear};
ghost use Rattle.build_pool.specs.Pieces.{AreSome};
ghost use Rattle.kept_rows.specs.Gaps.{IsPart};

mod ball;
mod classes;
mod cuts;
mod flow;
mod gap;
mod gates;
mod kernel;
mod pair;
mod rows;
mod side;
mod survey;
mod targets;
mod verdict;

use crate::gap::{Change, change_between};
use crate::pair::{Pair, sets_to_gaps};
use crate::rows::{Lists, rows_of_part, rows_of_whole};
use crate::side::Side;
use crate::survey::take_survey;
use lane_rows::Near;
use moves::Cell;
use row_store::{CompData, RowPool};
use std::alloc::{AllocError, Global};

/// The rows of a component that follow from those of a former one, whose cells are these and one to sixteen more, or
/// these without one to sixteen, in the same order: those of the sources whose first sets stay, where few sets decide them. All others
/// are blank. `None` where the two lists of cells differ otherwise, or their tiles are not solved.
///
/// # Errors
///
/// `AllocError` where memory runs out.
pub fn rows_after(
    alloc: Global,
    former: &CompData,
    cells: &[Cell],
    near: &Near,
) -> Result<Option<RowPool>, AllocError>
    requires table { AreWithNear cells.now near.now }
    ensures { IfOk result (λ kept. IfSome kept (AreSome cells.now)) }
{
    let Some(change) = change_between(alloc, former.cells(), cells)? else {
        return Ok(None);
    };
    let former_near = Near::of(alloc, former.cells())?;
    match change {
        Change::Out(gaps) => rows_without(alloc, former, cells, &former_near, near, &gaps),
        Change::In(gaps) => rows_with(alloc, former, cells, &former_near, near, &gaps),
    }
}

/// The rows that stay without the cells at some places.
fn rows_without(
    alloc: Global,
    former: &CompData,
    cells: &[Cell],
    former_near: &Near,
    near: &Near,
    gaps: &[usize],
) -> Result<Option<RowPool>, AllocError>
    requires table { AreWithNear cells.now near.now }
    requires former_edges { AreNear former.now.cells former_near.now }
    requires former_pairs { IsMutual former_near.now }
    requires part { IsPart former.now.cells cells.now gaps.now }
    ensures { IfOk result (λ kept. IfSome kept (AreSome cells.now)) }
{
    let whole = Side::new(alloc, former.cells(), former_near)?;
    let part = Side::new(alloc, cells, near)?;
    let mut pair = Pair { whole, part, gaps };
    let Some(found) = take_survey(alloc, &mut pair)? else {
        return Ok(None);
    };
    let Some(own_sets) = sets_to_gaps(alloc, &mut pair, found.sources, &found.sets)? else {
        return Ok(None);
    };
    let lists = Lists {
        former,
        cells,
        gaps,
        own_sets: &own_sets,
    };
    Ok(Some(rows_of_part(alloc, &lists, &found)?))
}

/// The rows that stay with the cells at some places.
fn rows_with(
    alloc: Global,
    former: &CompData,
    cells: &[Cell],
    former_near: &Near,
    near: &Near,
    gaps: &[usize],
) -> Result<Option<RowPool>, AllocError>
    requires table { AreWithNear cells.now near.now }
    requires former_edges { AreNear former.now.cells former_near.now }
    requires former_pairs { IsMutual former_near.now }
    requires part { IsPart cells.now former.now.cells gaps.now }
    ensures { IfOk result (λ kept. IfSome kept (AreSome cells.now)) }
{
    let whole = Side::new(alloc, cells, near)?;
    let part = Side::new(alloc, former.cells(), former_near)?;
    let mut pair = Pair { whole, part, gaps };
    let Some(found) = take_survey(alloc, &mut pair)? else {
        return Ok(None);
    };
    let Some(own_sets) = sets_to_gaps(alloc, &mut pair, found.sources, &found.sets)? else {
        return Ok(None);
    };
    let lists = Lists {
        former,
        cells,
        gaps,
        own_sets: &own_sets,
    };
    Ok(Some(rows_of_whole(alloc, &lists, &found)?))
}
