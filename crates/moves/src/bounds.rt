//! The smallest rectangle that contains some cells, and the places of cells in it.

ghost use Rattle.std.specs.Prelude.{◌≡◌, ◌+◌, ◌*◌, ◌<◌, ◌≤◌, ◌↔◌, All, length, IsTrue};
ghost use Rattle.moves.specs.Rectangles.{IsOnMap, IsWithin, place_in, AreEdges, IsBetween};

use crate::{Cell, MAX_SIDE};
use std::marker::Model;

/// The smallest rectangle that contains some cells.
#[derive(Drop)]
pub struct Bounds {
    left: u16,
    top: u16,
    width: u32,
    height: u32,
}

impl Model for Bounds {
    ghost use Rattle.std.specs.Prelude.{◌+◌, ◌≤◌};
    ghost use Rattle.moves.specs.Rectangles.{Rectangle};
    ghost use Rattle.moves.specs.declared.TheConstants.{MAX_SIDE};

    ghost Value = { Rectangle };

    ghost view = { λ b. record { left = b.left; top = b.top; width = b.width; height = b.height } };

    ghost invariant = { λ b. (b.left + b.width ≤ MAX_SIDE) × (b.top + b.height ≤ MAX_SIDE) };
}

impl Bounds {
    /// Returns the bounds of these cells. There must be at least one.
    pub fn around(cells: &[Cell]) -> Bounds
        requires some { 0 < length cells.now }
        requires limits { All IsOnMap cells.now }
        ensures { All (IsWithin result) cells.now }
    {
        let edges = edges_of(cells);
        Bounds {
            left: edges.left,
            top: edges.top,
            width: u32::from(edges.right - edges.left) + 1,
            height: u32::from(edges.bottom - edges.top) + 1,
        }
    }

    /// Returns the number of cells in the bounds.
    pub fn size(&self) -> usize
        ensures size { result ≡ self.now.width * self.now.height }
        ensures limit { result ≤ MAX_SIDE * MAX_SIDE }
    {
        (self.width * self.height) as usize
    }

    /// Returns whether the cell lies in the bounds.
    pub fn has(&self, cell: Cell) -> bool
        ensures { IsTrue result ↔ IsWithin self.now cell }
    {
        self.left <= cell.x
            && u32::from(cell.x) < u32::from(self.left) + self.width
            && self.top <= cell.y
            && u32::from(cell.y) < u32::from(self.top) + self.height
    }

    /// Returns the place of the cell in a list that goes through the bounds row by row.
    pub fn place(&self, cell: Cell) -> usize
        requires { IsWithin self.now cell }
        ensures place { result ≡ place_in self.now cell }
        ensures inside { result < self.now.width * self.now.height }
    {
        (u32::from(cell.y - self.top) * self.width + u32::from(cell.x - self.left)) as usize
    }
}

/// The first and the last column and row of some cells.
#[derive(Clone, Copy)]
struct Edges {
    left: u16,
    right: u16,
    top: u16,
    bottom: u16,
}

/// Returns the first and the last column and row of the cells.
fn edges_of(cells: &[Cell]) -> Edges
    requires some { 0 < length cells.now }
    requires limits { All IsOnMap cells.now }
    ensures limits { AreEdges result.left result.right result.top result.bottom }
    ensures all { All (IsBetween result.left result.right result.top result.bottom) cells.now }
{
    let Cell { x, y } = cells[0];
    let mut edges = Edges {
        left: x,
        right: x,
        top: y,
        bottom: y,
    };
    for cell in cells {
        edges = Edges {
            left: edges.left.min(cell.x),
            right: edges.right.max(cell.x),
            top: edges.top.min(cell.y),
            bottom: edges.bottom.max(cell.y),
        };
    }
    edges
}
