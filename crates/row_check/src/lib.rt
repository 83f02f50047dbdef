//! Rows of runs of which nothing is believed, checked without a search: whether they are the rows of a component, or
//! what their first fault is.
//!
//! The rows spell a walk from each cell to each. If each walk arrives, and no move followed by a walk is better than
//! the walk of the cell that it leaves, all walks are best paths; which moves begin best paths is then read from the
//! keys of walks, and a row is right if its runs are tight for those. (Botea 2011; Strasser, Harabor and Botea 2014)
//!
//! Rows by which the walk from the first cell to the third does not arrive:
//!
//! ```text
//! run | verify M | M 50 41 54 48 44 42 30 31 00 00 00 03 00 00 00 01 00 00 00 00 00 01 01 01 00 00 00 01 00 00 \
//! 00 02 00 00 00 02 00 00 00 06 00 00 00 12 00 00 00 01 00 00 00 02
//! 12 database refused: walk 0 0 2\n
//! ```
#![tactic(auto)]

ghost use Rattle.std.specs.Prelude.{◌≡◌, ◌<◌, ◌≤◌, IfOk, IfSome, IfNone};
ghost use Rattle.row_store.specs.Rows.{AreRows};
ghost use Rattle.row_check.specs.Walks.{AreComponentCells, AreShaped};
ghost use Rattle.row_check.specs.Faults.{IsFirstFaultAmong};

mod cursors;
mod joining;
mod keys;
pub mod laws;
mod near;
mod offers;
mod scratch;

use crate::scratch::Scratch;
use moves::Cell;
use row_store::RowPool;
use std::alloc::{AllocError, Global};

/// What is wrong with rows, and where: the places of a target and of a source among the component's cells, from 0.
#[derive(Clone, Copy, Debug, PartialEq, Eq)]
pub enum RowFault {
    /// The rows' moves from the source do not lead by legal moves to the target.
    Walk { target: u32, source: u32 },
    /// A legal move from the source, followed by the walk from there, costs less than the walk of the source.
    Worse { target: u32, source: u32 },
    /// At the target the row of the source is not tight: a run could go on there, or has not the least of its moves.
    Loose { target: u32, source: u32 },
}

/// Checks the rows of a component's cells: `None` where they are the component's rows, and else the first fault. That
/// is the one of the least target; there a missing walk comes before a worse one, and that before a loose row; and of
/// those it is the one of the least source.
///
/// It takes 34 bytes a cell and two for each cell of the smallest rectangle that has all, once.
///
/// # Errors
///
/// `AllocError` where memory runs out.
pub fn check_rows(
    alloc: Global,
    cells: &[Cell],
    rows: &RowPool,
) -> Result<Option<RowFault>, AllocError>
    requires cells { AreComponentCells cells.now }
    requires rows { AreShaped cells.now rows.now }
    ensures right { IfOk result (λ found. IfNone found (AreRows cells.now rows.now)) }
    ensures fault { IfOk result (λ found. IfSome found (IsFirstFaultAmong cells.now rows.now)) }
{
    let mut scratch = Scratch::new(alloc, cells, rows)?;
    for target in 0..cells.len() {
        match scratch.check(cells, rows, target) {
            Some(fault) => return Ok(Some(fault)),
            None => {}
        }
    }
    Ok(None)
}
