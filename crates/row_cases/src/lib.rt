//! Cases of searches, first moves, components, packed rows and their edits, and rows built by tiles and by workers,
//! from nothing and from the rows before an edit.
//!
//! Each kind has a function that gives the line of output for the fields of a line of input.
//!
//! A line of a case, and the line that it has to print:
//!
//! ```text
//! pool | FF 04 04/40 FF 04/40 40 FF | -/-/-
//! 3 rows of 4 runs: 0E/0W 2E/0W
//! ```
#![tactic(auto)]

mod builds;
mod edits;
mod labelling;
mod packing;
mod pools;
mod row_edits;
mod searches;
mod shapes;
mod staying;
mod tiling;

use crate::labelling::LabelsAfterEdits;
use crate::tiling::TilesAndSearches;
use case_kit::{Comparison, Family, Fields, Refusal, compared};
use std::alloc::Global;
use std::thread::Threads;

/// The line of output for a line of input of one of the kinds here; `None` for any other kind.
pub fn answer<R: Threads + Sync>(
    rt: &R,
    alloc: Global,
    kind: &str,
    input: &str,
) -> Result<Option<String>, Refusal> {
    let fields = Fields::of(input);
    let said = match kind {
        "cost" => searches::cost(alloc, fields)?,
        "components" => labelling::components(alloc, fields)?,
        "pack" => packing::pack_and_find(alloc, fields)?,
        "pool" => pools::pool(alloc, fields)?,
        "row edits" => row_edits::row_edits(alloc, fields)?,
        "tile" => tiling::tile(alloc, fields)?,
        "rows" => builds::rows(rt, alloc, fields)?,
        "remade" => builds::remade(rt, alloc, fields)?,
        "look up" => builds::look_up(rt, alloc, fields)?,
        "known rows" => staying::known_rows(rt, alloc, fields)?,
        "components after edits and anew" => family(alloc, input, &LabelsAfterEdits)?,
        "tiles and searches" => family(alloc, input, &TilesAndSearches)?,
        "rows after edits and anew" => staying::rows_after_edits(rt, alloc, input)?,
        _ => return Ok(None),
    };
    Ok(Some(said))
}

/// Runs a comparison over the family of maps that a line names.
fn family<C: Comparison>(alloc: Global, input: &str, comparison: &C) -> Result<String, Refusal> {
    let family = Family::of(alloc, input)?;
    compared(alloc, &family, comparison)
}
