//! The moves that the sets of a run have in common.

ghost use Rattle.std.specs.Prelude.{◌≡◌, ◌+◌, ◌<◌, ◌≤◌, ◌↔◌, IfSome, IfNone, IsTrue, length, map, slice_index};
ghost use Rattle.run_pack.specs.Runs.{run_of_word};
ghost use Rattle.run_pack.specs.Sets.{IsLeastIn};
ghost use Rattle.row_store.specs.Rows.{row_at};
ghost use Rattle.row_check.specs.Following.{cursor_of, HasRun, IsOver};
ghost use Rattle.row_check.specs.Joining.{AreAllOver, AreTaken, IsAdded, IsFirstFoundLoose, IsFoundLoose, IsTaken};

use crate::cursors::Cursor;
use row_store::RowPool;

/// Joins the set of each source with those of its run before, or begins anew with it where a run starts at the target;
/// the first source whose row is loose there, if there is one.
pub(crate) fn join_sets(
    rows: &RowPool,
    cursors: &[Cursor],
    sets: &[u8],
    common: &mut [u8],
    target: usize,
) -> Option<usize>
    requires rows { length rows.now ≡ length cursors.now }
    requires over { AreAllOver rows.now cursors.now target }
    requires sets { length sets.now ≡ length cursors.now }
    requires common { length common.old ≡ length cursors.now }
    requires target { target < length cursors.now }
    ensures taken { IfNone result (
        AreTaken rows.now cursors.now target common.old sets.now common.new (length cursors.now)) }
    ensures loose { IfSome result (
        IsFirstFoundLoose rows.now cursors.now target common.old sets.now) }
    ensures size { length common.new ≡ length common.old }
{
    for source in 0..cursors.len() {
        let cursor = cursors[source];
        match join(rows, source, cursor, common[source], sets[source], target) {
            Some(now) => common[source] = now,
            None => return Some(source),
        }
    }
    None
}

/// Joins the set of one source; `None` where its row is loose at the target.
#[inline(always)]
fn join(
    rows: &RowPool,
    source: usize,
    cursor: Cursor,
    common: u8,
    set: u8,
    target: usize,
) -> Option<u8>
    requires source { source < length rows.now }
    requires target { target < length rows.now }
    requires run { HasRun (row_at rows.now source) (length rows.now) cursor }
    requires over { IsOver cursor target }
    ensures taken { IfSome result (
        IsTaken (row_at rows.now source) (length rows.now) target cursor common set) }
    ensures loose { IfNone result (
        IsFoundLoose (row_at rows.now source) (length rows.now) target cursor common set) }
{
    let now = add(rows, source, cursor, common, set, target)?;
    if target + 1 == rows.len() && !has_least(rows.row(source)[usize::from(cursor.run)], now) {
        return None;
    }
    Some(now)
}

/// The common moves with the target's set, or that set where a run starts at the target; `None` where the run before
/// could go on there, or has not the least of its common moves.
#[inline(always)]
fn add(
    rows: &RowPool,
    source: usize,
    cursor: Cursor,
    common: u8,
    set: u8,
    target: usize,
) -> Option<u8>
    requires source { source < length rows.now }
    requires target { target < length rows.now }
    requires run { HasRun (row_at rows.now source) (length rows.now) cursor }
    requires over { IsOver cursor target }
    ensures added { IfSome result (
        IsAdded (row_at rows.now source) (length rows.now) target cursor common set) }
    ensures byte { IfSome result (λ now. now < 256) }
    ensures loose { IfNone result (
        IsFoundLoose (row_at rows.now source) (length rows.now) target cursor common set) }
{
    if target == 0 || usize::from(cursor.start) != target {
        return Some(common & set);
    }
    if common & set != 0 {
        return None;
    }
    if !has_least(rows.row(source)[usize::from(cursor.run) - 1], common) {
        return None;
    }
    Some(set)
}

/// Whether the move of a run is the least of these.
fn has_least(word: u32, moves: u8) -> bool
    ensures { IsTrue result ↔ IsLeastIn moves (run_of_word word).mv }
{
    moves.trailing_zeros() == word % 8
}
