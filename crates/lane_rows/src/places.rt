//! The places of cells, found by their columns and rows.

ghost use Rattle.std.specs.Prelude.{◌≡◌, ◌+◌, ◌-◌, ◌*◌, ◌<◌, ◌≤◌, All, Contains, IfOk, length};
ghost use Rattle.moves.specs.FirstSetLists.{cell_of};
ghost use Rattle.lane_rows.specs.Tables.{index_of, IsInBox, IsIndexed, IsNumbered};
ghost use Rattle.lane_rows.specs.Known.{KnowPlaces};

use moves::Cell;
use std::alloc::{AllocError, Global};

/// The places of cells, in the smallest box that has them all.
#[derive(Drop)]
pub(crate) struct Places {
    left: u16,
    top: u16,
    width: u16,
    none: u16,
    places: Vec<u16>,
}

/// The ends of the smallest box that has all cells.
#[derive(Clone, Copy, Drop)]
struct Bounds {
    left: u16,
    right: u16,
    top: u16,
    bottom: u16,
}

impl Places {
    /// The places of these cells.
    pub(crate) fn of(alloc: Global, cells: &[Cell]) -> Result<Places, AllocError>
        requires { IsNumbered cells.now }
        ensures { IfOk result (λ places. KnowPlaces places cells.now) }
    {
        let bounds = bounds_of(cells);
        let width = span(bounds.left, bounds.right);
        let height = span(bounds.top, bounds.bottom);
        let none = cells.len() as u16;
        let mut places = vec![in alloc; none; area(width, height)]?;
        number(bounds.left, bounds.top, width, cells, places.as_mut_slice());
        Ok(Places {
            left: bounds.left,
            top: bounds.top,
            width,
            none,
            places,
        })
    }

    /// The place of the cell, or the number of cells where it is none of them.
    pub(crate) fn find(&self, cells: &[Cell], cell: Cell) -> u16
        requires known { KnowPlaces self.now cells.now }
        ensures most { result ≤ length cells.now }
        ensures found { result < length cells.now → cell_of cells.now result ≡ cell }
        ensures missing { result ≡ length cells.now → Contains cells.now cell → ⊥ }
    {
        // The cells are here for the contract alone.
        let _ = cells;
        if cell.x < self.left || cell.y < self.top || cell.x - self.left >= self.width {
            return self.none;
        }
        let index = index_in(self.left, self.top, self.width, cell);
        if index < self.places.len() {
            self.places[index]
        } else {
            self.none
        }
    }
}

/// The ends of the smallest box that has all cells.
fn bounds_of(cells: &[Cell]) -> Bounds
    requires { IsNumbered cells.now }
    ensures columns { All (λ cell. (result.left ≤ cell.x) × (cell.x ≤ result.right)) cells.now }
    ensures rows { All (λ cell. (result.top ≤ cell.y) × (cell.y ≤ result.bottom)) cells.now }
    ensures sides { (result.right < 4096) × (result.bottom < 4096) }
{
    let mut bounds = Bounds {
        left: u16::MAX,
        right: 0,
        top: u16::MAX,
        bottom: 0,
    };
    for cell in cells {
        bounds = Bounds {
            left: bounds.left.min(cell.x),
            right: bounds.right.max(cell.x),
            top: bounds.top.min(cell.y),
            bottom: bounds.bottom.max(cell.y),
        };
    }
    bounds
}

/// How many columns or rows lie between two ends, both among them.
fn span(from: u16, to: u16) -> u16
    requires { to < 4096 }
    ensures span { result ≡ to - from + 1 }
    ensures most { result ≤ 4096 }
{
    to.saturating_sub(from) + 1
}

/// How many cells a box has.
fn area(width: u16, height: u16) -> usize
    ensures { result ≡ width * height }
{
    usize::from(width) * usize::from(height)
}

/// The index of a cell in the box, row by row.
fn index_in(left: u16, top: u16, width: u16, cell: Cell) -> usize
    requires { IsInBox left top width cell }
    ensures { result ≡ index_of left top width cell }
{
    usize::from(cell.y - top) * usize::from(width) + usize::from(cell.x - left)
}

/// Writes the place of each cell into the box.
fn number(left: u16, top: u16, width: u16, cells: &[Cell], places: &mut [u16])
    requires numbered { IsNumbered cells.now }
    requires inside { All (λ cell. IsInBox left top width cell) cells.now }
    requires room { All (λ cell. index_of left top width cell < length places.old) cells.now }
    requires empty { IsIndexed left top width places.old cells.now 0 }
    ensures { IsIndexed left top width places.new cells.now (length cells.now) }
{
    for (place, cell) in cells.iter().enumerate() {
        places[index_in(left, top, width, *cell)] = place as u16;
    }
}
