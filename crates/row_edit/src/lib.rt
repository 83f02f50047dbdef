//! One place more or less in a tight row of runs: the words of the new row from those of the former, where a few known
//! sets decide it.
//!
//! A row is kept by `run_pack`: it holds one move for each run of neighbouring places whose sets share that move.
//! Where a place is taken out of the list, or put in, most rows stay as they are, but for the places behind it, which
//! are one earlier or later. Whether a row does is a matter of few sets, those at the place and beside it mostly; no
//! other set is looked at.
//!
//! How many of 20,000 made edits of a row are decided by the known sets alone, and how many differ from a row that is
//! packed anew:
//!
//! ```text
//! row edits | 20000 | 0
//! 20000 tried, 3098 decided, 0 differ
//! ```
#![tactic(auto)]

ghost use Rattle.std.specs.Prelude.{◌≡◌, IfOk, OnErr, MatchBool};
ghost use Rattle.row_edit.specs.Edits.{TakesOut, PutsIn};

mod copying;
mod each;
mod known;
mod masks;
mod parts;
mod span;
mod with_set;
mod without;

use crate::copying::append_parts;
pub use crate::each::{EditRoom, RowEdit, edit_each};
use crate::with_set::parts_with;
use crate::without::parts_without;
use std::alloc::AllocError;

/// What is added to a word whose run starts one place later.
const ONE_PLACE: u32 = 8;

/// The set of one place of a list.
#[derive(Clone, Copy, Debug, Default, PartialEq, Eq)]
pub struct PlaceSet {
    /// The place, from 0 on.
    pub place: u32,
    /// Its set: bit i is 1 where move i is in it.
    pub set: u8,
}

/// Appends the words of the row of a list of sets without one place, and says that it did; or leaves all as it is,
/// where what is known does not decide that row.
///
/// `words` are the words of the packed row of a list of so many places, `out` is the place with its set in that list,
/// and `known` are some of the other sets, in any order: those at the next places on both sides tell most, then those
/// of the same run, of the run before, and at the next run's first place. The answer is right for each list that has
/// this row and these sets.
///
/// The only error is want of memory. The row is then as before.
pub fn take_out(
    words: &[u32],
    places: u32,
    out: PlaceSet,
    known: &[PlaceSet],
    row: &mut Vec<u32>,
) -> Result<bool, AllocError>
    ensures done { IfOk result (λ done. MatchBool done
        (TakesOut words.now places out known.now row.old.items row.new.items)
        (row.new.items ≡ row.old.items)) }
    ensures refused { OnErr result (row.new.items ≡ row.old.items) }
{
    let Some(parts) = parts_without(words, places, out, known) else {
        return Ok(false);
    };
    append_parts(row, words, parts, ONE_PLACE.wrapping_neg())?;
    Ok(true)
}

/// Appends the words of the row of a list of sets with one place more, and says that it did; or leaves all as it is,
/// where what is known does not decide that row.
///
/// `words` are the words of the packed row of a list of so many places, `put` is the new place with its set, which
/// stands before the set that was there, or behind the last one; and `known` are some of the former sets, in any
/// order, as for `take_out`. A place behind the end of the list, a set without a move, or a list that a word cannot
/// count with one more place, is never decided.
///
/// The only error is want of memory. The row is then as before.
pub fn put_in(
    words: &[u32],
    places: u32,
    put: PlaceSet,
    known: &[PlaceSet],
    row: &mut Vec<u32>,
) -> Result<bool, AllocError>
    ensures done { IfOk result (λ done. MatchBool done
        (PutsIn words.now places put known.now row.old.items row.new.items)
        (row.new.items ≡ row.old.items)) }
    ensures refused { OnErr result (row.new.items ≡ row.old.items) }
{
    let Some(parts) = parts_with(words, places, put, known) else {
        return Ok(false);
    };
    append_parts(row, words, parts, ONE_PLACE)?;
    Ok(true)
}
