//! The look at words of whatever source: whether each number in them leads inside.

ghost use Rattle.std.specs.Prelude.{◌≡◌, ◌+◌, ◌*◌, ◌^◌, ◌<◌, ◌≤◌, ◌↔◌, IfErr, IsTrue, OnOk, length, map};
ghost use Rattle.moves.specs.declared.TheConstants.{MAX_CELLS};
ghost use Rattle.moves.specs.Maps.{IsWithinLimits};
ghost use Rattle.path_image.specs.declared.TheConstants.{HEAD};
ghost use Rattle.run_pack.specs.Runs.{Rises, run_of_word};
ghost use Rattle.path_image.specs.Reading.{HasCells, HasHomes, HasLists, HasMagic, HasRows, HasTables, IsCellIn, IsHead, IsRowIn, IsTable, LeadsHome, LeadsInside, StandsIn, cell_of_word, count_in, height_in, size_at, start_in, width_in};
ghost use Rattle.path_image.specs.Faults.{IsFaultOf};

use crate::{BLOCKED, FORM, HALF, HEAD, MAGIC_IMAGE, MAGIC_PATH};
use moves::{MAX_CELLS, MAX_PASSABLE, MAX_SIDE};
use std::error::Error;
use std::fmt;

/// Which part of some words is none of an image.
#[derive(Clone, Copy, Debug, PartialEq, Eq)]
pub enum ImageFault {
    /// They are too few for an image, or do not begin as one does.
    Magic,
    /// The image is of another form.
    Form,
    /// There are more words or fewer than the image says.
    Length,
    /// A side is 0 or too long, or there are too many cells.
    Sides,
    /// There are too few words for the cells of the map and for where the tables begin.
    Lists,
    /// The table of a component does not lie inside, or one of its cells or rows is none.
    Table {
        /// The number of the component.
        component: u32,
    },
    /// The word of a cell leads to no place of a component.
    Home {
        /// The place of the cell, counted row by row.
        place: u32,
    },
}

impl fmt::Display for ImageFault {
    ghost use Rattle.std.specs.Prelude.{Some};
    ghost use Rattle.path_image.specs.Faults.{fault_text};

    ghost output = { λ fault. Some (fault_text fault) };

    fn fmt<W: fmt::Write>(&self, f: &mut fmt::Formatter<W>) -> fmt::Result {
        match self {
            ImageFault::Magic => write!(f, "no image"),
            ImageFault::Form => write!(f, "an image of another form"),
            ImageFault::Length => write!(f, "more words or fewer than the image says"),
            ImageFault::Sides => write!(f, "sides that no map has"),
            ImageFault::Lists => write!(f, "too few words for the cells"),
            ImageFault::Table { component } => write!(f, "wrong table of component {component}"),
            ImageFault::Home { place } => write!(f, "wrong word of the cell at place {place}"),
        }
    }
}

impl Error for ImageFault {}

/// Whether each number in the words leads inside.
///
/// # Errors
///
/// The part that is wrong.
pub(crate) fn check(words: &[u32]) -> Result<(), ImageFault>
    ensures inside { OnOk result (LeadsInside words.now) }
    ensures fault { IfErr result (IsFaultOf words.now) }
{
    check_head(words)?;
    check_tables(words)?;
    check_homes(words)
}

/// Whether the first words are those of an image, and there are enough for its lists.
///
/// # Errors
///
/// The part that is wrong.
fn check_head(words: &[u32]) -> Result<(), ImageFault>
    ensures head { OnOk result (IsHead words.now) }
    ensures fault { IfErr result (IsFaultOf words.now) }
{
    if !has_magic(words) {
        return Err(ImageFault::Magic);
    }
    if words[2] != FORM {
        return Err(ImageFault::Form);
    }
    if words[3] as usize != words.len() {
        return Err(ImageFault::Length);
    }
    if !are_sides(words[4], words[5]) {
        return Err(ImageFault::Sides);
    }
    if !has_lists(words) {
        return Err(ImageFault::Lists);
    }
    Ok(())
}

/// Whether the words begin as those of an image do.
fn has_magic(words: &[u32]) -> bool
    ensures { IsTrue result ↔ HasMagic words.now }
{
    words.len() >= HEAD && words[0] == MAGIC_PATH && words[1] == MAGIC_IMAGE
}

/// Whether a map may have these sides.
fn are_sides(width: u32, height: u32) -> bool
    ensures { IsTrue result ↔ IsWithinLimits width height }
{
    0 < width
        && 0 < height
        && width <= MAX_SIDE
        && height <= MAX_SIDE
        && width * height <= MAX_CELLS
}

/// Whether there are words for the cells of the map and for where the tables begin.
fn has_lists(words: &[u32]) -> bool
    requires magic { HasMagic words.now }
    requires sides { IsWithinLimits (width_in words.now) (height_in words.now) }
    ensures { IsTrue result ↔ HasLists words.now }
{
    cells_end(words) + words[9] as usize <= words.len()
}

/// Where the words of the cells end.
fn cells_end(words: &[u32]) -> usize
    requires magic { HasMagic words.now }
    requires sides { IsWithinLimits (width_in words.now) (height_in words.now) }
    ensures end { result ≡ HEAD + width_in words.now * height_in words.now }
    ensures limit { result ≤ HEAD + MAX_CELLS }
{
    HEAD + (words[4] * words[5]) as usize
}

/// Whether all tables are right.
///
/// # Errors
///
/// The first that is not.
fn check_tables(words: &[u32]) -> Result<(), ImageFault>
    requires { IsHead words.now }
    ensures tables { OnOk result (HasTables words.now (count_in words.now)) }
    ensures fault { IfErr result (IsFaultOf words.now) }
{
    let starts = cells_end(words);
    for component in 0..words[9] {
        if !is_table(words, words[starts + component as usize] as usize) {
            return Err(ImageFault::Table { component });
        }
    }
    Ok(())
}

/// Whether a table begins there.
fn is_table(words: &[u32], start: usize) -> bool
    requires head { IsHead words.now }
    requires start { start < 2 ^ 32 }
    ensures { IsTrue result ↔ IsTable words.now start }
{
    start < words.len()
        && words[start] <= MAX_PASSABLE
        && start + 2 * words[start] as usize + 2 <= words.len()
        && are_cells(words, start)
        && are_rows(words, start)
}

/// Whether the cells of a table lie inside the sides.
fn are_cells(words: &[u32], start: usize) -> bool
    requires head { IsHead words.now }
    requires start { start < length words.now }
    requires there { start + 2 * size_at words.now start + 2 ≤ length words.now }
    ensures { IsTrue result ↔ HasCells words.now start (size_at words.now start) }
{
    for place in 0..words[start] as usize {
        if !is_cell(words, words[start + 1 + place]) {
            return false;
        }
    }
    true
}

/// Whether the cell of a word lies inside the sides.
fn is_cell(words: &[u32], word: u32) -> bool
    requires { IsHead words.now }
    ensures { IsTrue result ↔ IsCellIn words.now (cell_of_word word) }
{
    word % HALF < words[4] && word / HALF < words[5]
}

/// Whether the rows of a table are rows.
fn are_rows(words: &[u32], start: usize) -> bool
    requires start { start < length words.now }
    requires there { start + 2 * size_at words.now start + 2 ≤ length words.now }
    ensures { IsTrue result ↔ HasRows words.now start (size_at words.now start) }
{
    for place in 0..words[start] as usize {
        if !is_row(words, start, place) {
            return false;
        }
    }
    true
}

/// Whether the row of a place of a table is one.
fn is_row(words: &[u32], start: usize, place: usize) -> bool
    requires start { start < length words.now }
    requires there { start + 2 * size_at words.now start + 2 ≤ length words.now }
    requires place { place < size_at words.now start }
    ensures { IsTrue result ↔ IsRowIn words.now start place }
{
    let size = words[start] as usize;
    let runs = start + 2 * size + 2;
    let from = words[start + 1 + size + place] as usize;
    let upto = words[start + 1 + size + place + 1] as usize;
    from <= upto && runs + upto <= words.len() && rises(&words[runs + from..runs + upto])
}

/// Whether the runs of these words start at 0 and then rise.
fn rises(row: &[u32]) -> bool
    ensures { IsTrue result ↔ Rises (map run_of_word row.now) }
{
    if row.is_empty() || row[0] >= 8 {
        return false;
    }
    for k in 1..row.len() {
        if row[k] / 8 <= row[k - 1] / 8 {
            return false;
        }
    }
    true
}

/// Whether the words of all cells lead to places of components.
///
/// # Errors
///
/// The first cell whose word does not.
fn check_homes(words: &[u32]) -> Result<(), ImageFault>
    requires head { IsHead words.now }
    requires tables { HasTables words.now (count_in words.now) }
    ensures homes { OnOk result (HasHomes words.now (width_in words.now * height_in words.now)) }
    ensures fault { IfErr result (IsFaultOf words.now) }
{
    for place in 0..words[4] * words[5] {
        if !leads_home(words, words[HEAD + place as usize]) {
            return Err(ImageFault::Home { place });
        }
    }
    Ok(())
}

/// Whether the word of a cell says that it is blocked, or leads to a place of a component.
fn leads_home(words: &[u32], word: u32) -> bool
    requires head { IsHead words.now }
    requires tables { HasTables words.now (count_in words.now) }
    ensures { IsTrue result ↔ LeadsHome words.now word }
{
    word == BLOCKED || stands_in(words, word / HALF, word % HALF)
}

/// Whether the place is one of that component.
fn stands_in(words: &[u32], label: u32, place: u32) -> bool
    requires head { IsHead words.now }
    requires tables { HasTables words.now (count_in words.now) }
    ensures { IsTrue result ↔ StandsIn words.now label place }
{
    label < words[9] && place < table_size(words, label)
}

/// How many cells the component has.
fn table_size(words: &[u32], label: u32) -> u32
    requires head { IsHead words.now }
    requires tables { HasTables words.now (count_in words.now) }
    requires label { label < count_in words.now }
    ensures { result ≡ size_at words.now (start_in words.now label) }
{
    words[words[cells_end(words) + label as usize] as usize]
}
