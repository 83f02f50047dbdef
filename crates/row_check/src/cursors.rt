//! Cursors: for each source the run of its row that covers the target, and where its move leads.

ghost use Rattle.std.specs.Prelude.{◌≡◌, ◌≢◌, ◌+◌, ◌<◌, ◌≤◌, IfOk, length, map, All};
ghost use Rattle.moves.specs.declared.TheConstants.{MAX_PASSABLE};
ghost use Rattle.run_pack.specs.Runs.{run_of_word, IsRow};
ghost use Rattle.row_check.specs.Following.{step_numbered, no_cursor, cursor_of, AreBehind, AreCursors, AreRowsOver, HasGoneOnAt, HaveGoneOn, IsBehind, IsCursor};
ghost use Rattle.row_check.specs.Marking.{edges_of};

use root_cost::{DIAGONAL_KEY, STRAIGHT_KEY};
use row_store::RowPool;
use run_pack::run_of;
use std::alloc::{AllocError, Global};

/// The key of a target. That of a walk is as much more than the key of its cost, so that no key is 0, and what is left
/// of one after a step is a key of a place only where it is more than 0.
pub(crate) const START: u32 = 1;

/// The key of nowhere, which no walk has.
pub(crate) const FAR: u32 = 2_147_483_648;

/// Where a source stands in its row.
#[derive(Clone, Copy)]
pub(crate) struct Cursor {
    /// The number of the run.
    pub(crate) run: u16,
    /// The place where the run starts.
    pub(crate) start: u16,
    /// The place where the next run starts, or the number of places.
    pub(crate) end: u16,
    /// The place where the move of the run leads, or the number of places where it is not legal.
    pub(crate) next: u16,
    /// The key of that move.
    pub(crate) step: u32,
}

/// The cursors of all sources, at the first runs of their rows.
pub(crate) fn first_cursors(
    alloc: Global,
    near: &[[u16; 8]],
    rows: &RowPool,
) -> Result<Vec<Cursor>, AllocError>
    requires { AreRowsOver rows.now (length near.now) }
    ensures cursors { IfOk result (λ cursors. AreCursors rows.now near.now cursors.items) }
    ensures behind { IfOk result (λ cursors. AreBehind cursors.items 0) }
    ensures first { IfOk result (λ cursors. All (λ cursor. cursor.run ≡ 0) cursors.items) }
{
    let mut cursors = Vec::with_capacity(alloc, near.len())?;
    for source in 0..near.len() {
        cursors.push(cursor_at(rows.row(source), 0, &near[source], near.len()))?;
    }
    Ok(cursors)
}

/// Lets each cursor whose run ends before the target go on to the next run.
pub(crate) fn advance(cursors: &mut [Cursor], near: &[[u16; 8]], rows: &RowPool, target: usize)
    requires rows { AreRowsOver rows.now (length near.now) }
    requires target { target < length near.now }
    requires cursors { AreCursors rows.now near.now cursors.old }
    requires behind { AreBehind cursors.old target }
    ensures cursors { AreCursors rows.now near.now cursors.new }
    ensures on { HaveGoneOn cursors.old cursors.new target (length near.now) }
{
    for source in 0..near.len() {
        advance_one(cursors, near, rows, source, target);
    }
}

/// Lets the cursor of one source go on to the next run, if its run ends before the target.
#[inline(always)]
fn advance_one(
    cursors: &mut [Cursor],
    near: &[[u16; 8]],
    rows: &RowPool,
    source: usize,
    target: usize,
)
    requires rows { AreRowsOver rows.now (length near.now) }
    requires places { (target < length near.now) × (source < length near.now) }
    requires cursors { AreCursors rows.now near.now cursors.old }
    requires behind { IsBehind (cursor_of cursors.old source) target }
    ensures cursors { AreCursors rows.now near.now cursors.new }
    ensures on { HasGoneOnAt cursors.old cursors.new target source }
{
    let cursor = cursors[source];
    if usize::from(cursor.end) != target {
        return;
    }
    let run = usize::from(cursor.run) + 1;
    cursors[source] = cursor_at(rows.row(source), run, &near[source], near.len());
}

/// The cursor at a run of a row over so many places.
fn cursor_at(row: &[u32], run: usize, edges: &[u16; 8], places: usize) -> Cursor
    requires row { IsRow (map run_of_word row.now) places }
    requires places { places ≤ MAX_PASSABLE }
    requires run { run < length row.now }
    ensures cursor { IsCursor (map run_of_word row.now) edges.now places result }
    ensures run { result.run ≡ run }
{
    let kept = run_of(row[run]);
    let end = if run + 1 < row.len() {
        run_of(row[run + 1]).start
    } else {
        places as u32
    };
    Cursor {
        run: run as u16,
        start: kept.start as u16,
        end: end as u16,
        next: edges[usize::from(kept.mv)],
        step: step_numbered(kept.mv),
    }
}

/// The key of the step that the move with that number makes: the odd ones are diagonal.
#[inline(always)]
pub(crate) fn step_numbered(number: u8) -> u32
    ensures key { result ≡ step_numbered number }
    ensures limit { result ≤ DIAGONAL_KEY }
{
    STRAIGHT_KEY + (DIAGONAL_KEY - STRAIGHT_KEY) * u32::from(number % 2)
}
