//! The neighbours of the cells of a component, by places: a cell's place is its index in the list of cells.

ghost use Rattle.std.specs.Prelude.{◌≡◌, ◌≤◌, IfOk, length};
ghost use Rattle.moves.specs.declared.TheConstants.{MAX_PASSABLE};
ghost use Rattle.lane_rows.specs.Tables.{AreNear, IsMutual, IsNumbered};

use crate::edges::around;
use crate::places::Places;
use moves::Cell;
use std::alloc::{AllocError, Global};
use std::marker::Model;

/// The neighbours of each cell of a component: at most 32,768 cells, eight moves each.
#[derive(Drop)]
pub struct Near {
    table: Vec<[u16; 8]>,
}

impl Model for Near {
    ghost use Rattle.std.specs.Prelude.{ℕ, List, ◌≤◌, length};
    ghost use Rattle.moves.specs.declared.TheConstants.{MAX_PASSABLE};
    ghost use Rattle.lane_rows.specs.Tables.{IsMutual};

    ghost Value = { List (List ℕ) };

    ghost view = { λ n. n.table.items };

    ghost invariant = { λ n. IsMutual n.table.items × (length n.table.items ≤ MAX_PASSABLE) };
}

impl Near {
    /// The neighbours of these cells, of which a move may be made between any two, made from the cells alone. It takes
    /// 16 bytes of memory a cell, and two for each cell of the smallest box that has all.
    ///
    /// # Errors
    ///
    /// `AllocError` where memory runs out.
    pub fn of(alloc: Global, cells: &[Cell]) -> Result<Near, AllocError>
        requires { IsNumbered cells.now }
        ensures near { IfOk result (λ near. AreNear cells.now near) }
        ensures pairs { IfOk result (λ near. IsMutual near) }
    {
        let places = Places::of(alloc, cells)?;
        let mut table = Vec::with_capacity(alloc, cells.len())?;
        for cell in cells {
            table.push(around(&places, cells, *cell))?;
        }
        Ok(Near { table })
    }

    /// How many cells there are.
    pub fn len(&self) -> usize
        ensures len { result ≡ length self.now }
        ensures few { length self.now ≤ MAX_PASSABLE }
    {
        self.table.len()
    }

    /// The neighbours of each place, by the numbers of the moves; the number of places stands for none.
    pub fn table(&self) -> &[[u16; 8]]
        ensures table { result.now ≡ self.now }
        ensures near { IsMutual self.now }
        ensures few { length self.now ≤ MAX_PASSABLE }
    {
        self.table.as_slice()
    }
}
