//! The cells that a search has not seen yet.

ghost use Rattle.std.specs.Prelude.{◌≡◌, ◌*◌, ◌<◌, ◌↔◌, true, false, All, length, IsTrue, IfOk};
ghost use Rattle.moves.specs.Rectangles.{IsOnMap, IsWithin};
ghost use Rattle.cell_order.specs.Boxes.{HasMarksOn, HasNoMarks, IsMarked, with_mark};

use moves::{Bounds, Cell};
use std::alloc::{AllocError, Global};
use std::marker::Model;

/// The cells not seen yet, as marks over the smallest rectangle that contains all cells.
#[derive(Drop)]
pub(crate) struct Unseen {
    bounds: Bounds,
    /// For each cell of the bounds, row by row, whether it is still to be seen.
    marks: Vec<bool>,
}

impl Model for Unseen {
    ghost use Rattle.std.specs.Prelude.{◌≡◌, ◌*◌, vec_len};
    ghost use Rattle.cell_order.specs.Boxes.{Box};

    ghost Value = { Box };

    ghost view = { λ u. record { area = u.bounds; marks = u.marks.items } };

    ghost invariant = { λ u. vec_len u.marks ≡ u.bounds.width * u.bounds.height };
}

impl Unseen {
    /// Returns these cells, none of them seen yet.
    pub(crate) fn of(alloc: Global, cells: &[Cell]) -> Result<Unseen, AllocError>
        requires some { 0 < length cells.now }
        requires limits { All IsOnMap cells.now }
        ensures size { IfOk result (λ box. length box.marks ≡ box.area.width * box.area.height) }
        ensures marked { IfOk result (λ unseen. HasMarksOn unseen cells.now) }
    {
        let mut unseen = Unseen::around(alloc, cells)?;
        for cell in cells {
            unseen.insert(*cell);
        }
        Ok(unseen)
    }

    /// Returns the smallest rectangle that contains all cells, with no marks.
    fn around(alloc: Global, cells: &[Cell]) -> Result<Unseen, AllocError>
        requires some { 0 < length cells.now }
        requires limits { All IsOnMap cells.now }
        ensures within { IfOk result (λ unseen. All (IsWithin unseen.area) cells.now) }
        ensures empty { IfOk result (λ unseen. HasNoMarks unseen) }
    {
        let bounds = Bounds::around(cells);
        let marks = vec![in alloc; false; bounds.size()]?;
        Ok(Unseen { bounds, marks })
    }

    /// Marks the cell.
    fn insert(&mut self, cell: Cell)
        requires { IsWithin self.old.area cell }
        ensures { self.new ≡ with_mark self.old cell true }
    {
        let place = self.bounds.place(cell);
        self.marks[place] = true;
    }

    /// Returns whether the cell is still to be seen.
    pub(crate) fn has(&self, cell: Cell) -> bool
        ensures { IsTrue result ↔ IsMarked self.now cell }
    {
        self.bounds.has(cell) && self.marks[self.bounds.place(cell)]
    }

    /// Removes the cell.
    pub(crate) fn remove(&mut self, cell: Cell)
        requires { IsWithin self.old.area cell }
        ensures { self.new ≡ with_mark self.old cell false }
    {
        let place = self.bounds.place(cell);
        self.marks[place] = false;
    }
}
