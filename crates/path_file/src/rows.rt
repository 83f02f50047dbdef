//! The rows of a component in a file: for each source the number of its runs, and a word for each.

ghost use Rattle.std.specs.Prelude.{◌≡◌, ◌≢◌, ◌<◌, ◌≤◌, ◌↔◌, ◌++◌, ◌∷◌, [], length, map, All, IfErr, IfOk, OnOk, IsTrue, ◌⊎◌};
ghost use Rattle.run_pack.specs.Runs.{run_of_word};
ghost use Rattle.path_file.specs.Files.{number_bytes, row_bytes, rows_bytes, runs_bytes};
ghost use Rattle.path_file.specs.Fields.{AreFileRows, IsFileRow};
ghost use Rattle.path_file.specs.Readings.{IsRowFault, IsRowRefusal, IsRowsRefusal, IsRunFault, Passes};
ghost use Rattle.path_file.specs.declared.fault.DbFault.TheVariants.{Runs};

use crate::fault::{DbError, DbFault};
use crate::lists::push;
use crate::reader::Reader;
use moves::MAX_PASSABLE;
use row_store::RowPool;
use std::alloc::Global;

/// Which row is read.
#[derive(Clone, Copy)]
pub(crate) struct RowPlace {
    /// The number of the component.
    pub comp: u32,
    /// The place of the source among the cells of the component.
    pub source: u32,
    /// How many cells the component has.
    pub cells: u32,
}

impl RowPlace {
    /// The fault of this row.
    fn fault(self) -> DbFault
        ensures { result ≡ Runs self.comp self.source }
    {
        DbFault::Runs {
            comp: self.comp,
            source: self.source,
        }
    }
}

/// Reads the rows of a component with so many cells. They need not be right.
pub(crate) fn read_rows(
    alloc: Global,
    reader: &mut Reader,
    comp: u32,
    cells: u32,
) -> Result<RowPool, DbError>
    requires { cells ≤ MAX_PASSABLE }
    ensures rows { IfOk result (λ rows. Passes reader.old reader.new (rows_bytes rows)) }
    ensures shaped { IfOk result (AreFileRows cells) }
    ensures fault { IfErr result (IsRowsRefusal reader.old comp cells) }
{
    let mut rows = RowPool::blank(alloc, cells as usize)?;
    let mut words = Vec::with_capacity(alloc, cells as usize)?;
    for source in 0..cells {
        let place = RowPlace {
            comp,
            source,
            cells,
        };
        read_row(reader, place, &mut words)?;
        rows.put_words(source as usize, &words)?;
    }
    Ok(rows)
}

/// Reads a row, as words. They need not be right.
fn read_row(reader: &mut Reader, place: RowPlace, words: &mut Vec<u32>) -> Result<(), DbError>
    requires { place.cells ≤ MAX_PASSABLE }
    ensures row { OnOk result
        (Passes reader.old reader.new (row_bytes (map run_of_word words.new.items))) }
    ensures shaped { OnOk result (IsFileRow place.cells (map run_of_word words.new.items)) }
    ensures few { OnOk result (length words.new.items ≤ place.cells) }
    ensures fault { IfErr result (IsRowRefusal reader.old place) }
{
    let count = read_count(reader, place)?;
    words.clear();
    for _ in 0..count {
        let word = read_word(reader, place, count, words)?;
        push(words, word)?;
    }
    Ok(())
}

/// Reads how many runs a row has.
fn read_count(reader: &mut Reader, place: RowPlace) -> Result<u32, DbFault>
    ensures count { IfOk result (λ count. Passes reader.old reader.new (number_bytes count)) }
    ensures some { IfOk result (λ count. 0 < count) }
    ensures few { IfOk result (λ count. count ≤ place.cells) }
    ensures fault { IfErr result (IsRowFault reader.old place) }
{
    let count = reader.number()?;
    if count == 0 || count > place.cells {
        return Err(place.fault());
    }
    Ok(count)
}

/// Reads a run of a row of so many runs, as a word.
#[inline(always)]
fn read_word(
    reader: &mut Reader,
    place: RowPlace,
    count: u32,
    words: &[u32],
) -> Result<u32, DbFault>
    requires { 0 < length words.now → IsFileRow place.cells (map run_of_word words.now) }
    ensures word { IfOk result (λ word. Passes reader.old reader.new (number_bytes word)) }
    ensures row { IfOk result (λ word.
        IsFileRow place.cells (map run_of_word words.now ++ run_of_word word ∷ [])) }
    ensures fault { IfErr result
        (IsRunFault reader.old place count (map run_of_word words.now)) }
{
    let word = reader.number()?;
    if !goes_on(words, word, place.cells) {
        return Err(place.fault());
    }
    Ok(word)
}

/// Whether a word goes on a row over so many cells: the first starts at 0, and each later one after the one before it.
#[inline(always)]
fn goes_on(words: &[u32], word: u32, cells: u32) -> bool
    requires { 0 < length words.now → IsFileRow cells (map run_of_word words.now) }
    ensures { IsTrue result
        ↔ IsFileRow cells (map run_of_word words.now ++ run_of_word word ∷ []) }
{
    let start = word / 8;
    if words.is_empty() {
        return start == 0 && start < cells;
    }
    words[words.len() - 1] / 8 < start && start < cells
}
