//! The rows of a component while they are built, in whatever order they are found.

ghost use Rattle.std.specs.Prelude.{◌≡◌, ◌<◌, ◌≤◌, ◌↔◌, [], length, OnOk, IsTrue};
ghost use Rattle.row_store.specs.Rows.{row_at};
ghost use Rattle.build_pool.specs.Pieces.{ArePartly, AreWordsOver, HasBlank};

use moves::{Cell, MAX_PASSABLE};
use row_store::RowPool;
use std::alloc::AllocError;

/// Puts the row that these words keep where its source has no row yet.
///
/// # Errors
///
/// `AllocError` where memory runs out.
pub(crate) fn put_row(
    rows: &mut RowPool,
    cells: &[Cell],
    place: usize,
    words: &[u32],
) -> Result<(), AllocError>
    requires part { ArePartly cells.now rows.old }
    requires words { AreWordsOver cells.now place words.now }
    ensures whole { OnOk result (length rows.new ≡ length rows.old) }
    ensures part { OnOk result (ArePartly cells.now rows.new) }
{
    // The cells are here for the contract alone.
    let _ = cells;
    if place < rows.len() && is_blank(rows, place) {
        rows.put_words(place, words)?;
    }
    Ok(())
}

/// Whether the row at a place is blank.
pub(crate) fn is_blank(rows: &RowPool, place: usize) -> bool
    requires { place < length rows.now }
    ensures blank { IsTrue result → row_at rows.now place ≡ [] }
    ensures there { (IsTrue result → ⊥) → row_at rows.now place ≡ [] → ⊥ }
{
    rows.row(place).is_empty()
}

/// Whether some row is blank.
pub(crate) fn has_blank(rows: &RowPool) -> bool
    ensures { IsTrue result ↔ HasBlank rows.now }
{
    for place in 0..rows.len() {
        if is_blank(rows, place) {
            return true;
        }
    }
    false
}

/// How many rows are not blank.
pub(crate) fn count_rows(rows: &RowPool) -> u32
    requires { length rows.now ≤ MAX_PASSABLE }
{
    let mut count = 0;
    for place in 0..rows.len() {
        if !is_blank(rows, place) {
            count += 1;
        }
    }
    count
}
