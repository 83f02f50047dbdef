//! The grid of a map's cells, with the legal moves of each cell at hand.

ghost use Rattle.std.specs.Prelude.{◌≡◌, ℕ, ◌+◌, ◌*◌, ◌<◌, ◌≤◌, ◌↔◌, Bool, false, List, IsTrue, IfOk, IfSome, IfNone, length, replicate, count_by};
ghost use Rattle.moves.specs.Drawings.{IsDrawing, cells_between_marks, cells_drawn, terrain_drawn};
ghost use Rattle.moves.specs.MoveMasks.{AreMoveMasks, IsMoveMask};
ghost use Rattle.moves.specs.Moves.{HasLegal, IsTarget, LeadsOutside};
ghost use Rattle.moves.specs.Neighbours.{AreNeighbours};
ghost use Rattle.moves.specs.Maps.{Map, IsInside, IsPassable, IsWithinLimits, blocked_map, map_of, map_with, passable_count, terrain_of, with_cell, with_terrain};
ghost use Rattle.moves.specs.declared.Terrain.TheVariants.{Blocked};

use crate::landscape::Landscape;
use crate::{Cell, Move, Terrain};
use arrayvec::ArrayVec;
use std::alloc::{AllocError, Global};
use std::marker::Model;

/// A map of blocked cells, land and water: each side from 1 to [`MAX_SIDE`](crate::MAX_SIDE), and
/// at most [`MAX_CELLS`](crate::MAX_CELLS) cells.
#[derive(Drop)]
pub struct Grid {
    landscape: Landscape,
    masks: Vec<u8>,
}

impl Model for Grid {
    ghost use Rattle.moves.specs.Maps.{Map};
    ghost use Rattle.moves.specs.MoveMasks.{AreMoveMasks};

    ghost Value = { Map };

    ghost view = { λ g. g.landscape };

    ghost invariant = { λ g. AreMoveMasks g.landscape g.masks.items };
}

impl Grid {
    /// Returns a grid of blocked cells.
    pub fn blocked(alloc: Global, width: u32, height: u32) -> Result<Grid, AllocError>
        requires { IsWithinLimits width height }
        ensures { IfOk result (λ grid. grid ≡ blocked_map width height) }
    {
        let cells = (width * height) as usize;
        Ok(Grid {
            landscape: Landscape::blocked(alloc, width, height)?,
            masks: vec![in alloc; 0; cells]?,
        })
    }

    /// Returns a grid with these cells, given row by row: `true` for land, `false` for blocked. If
    /// memory runs out, the list is dropped.
    pub fn of_cells(
        alloc: Global,
        width: u32,
        height: u32,
        cells: Vec<bool>,
    ) -> Result<Grid, AllocError>
        requires limits { IsWithinLimits width height }
        requires whole { length cells.items ≡ width * height }
        ensures { IfOk result (λ grid. grid ≡ map_with width height cells.items) }
    {
        let terrain = cells.into_iter().map(Terrain::land_if).collect(alloc)?;
        Grid::of_terrain(alloc, width, height, terrain)
    }

    /// Returns a grid with these cells, given row by row. If memory runs out, the list is dropped.
    pub fn of_terrain(
        alloc: Global,
        width: u32,
        height: u32,
        terrain: Vec<Terrain>,
    ) -> Result<Grid, AllocError>
        requires limits { IsWithinLimits width height }
        requires whole { length terrain.items ≡ width * height }
        ensures { IfOk result (λ grid. grid ≡ map_of width height terrain.items) }
    {
        let places = terrain.len();
        let landscape = Landscape::of_terrain(width, height, terrain);
        let mut masks = vec![in alloc; 0; places]?;
        landscape.write_masks(0..width, 0..height, masks.as_mut_slice());
        Ok(Grid { landscape, masks })
    }

    /// Returns a grid with the cells of a drawing, row by row with `/` between the rows: `.` for
    /// land, `W` for water and any other byte for a blocked cell. `../@W` has two rows of two
    /// cells; its second row is a blocked cell and a water cell.
    pub fn of_rows(alloc: Global, width: u32, height: u32, rows: &str) -> Result<Grid, AllocError>
        requires limits { IsWithinLimits width height }
        requires rows { IsDrawing width height rows.now }
        ensures { IfOk result (λ grid. grid ≡ map_of width height (cells_drawn rows.now)) }
    {
        let cells = cells_of(alloc, rows)?;
        Grid::of_terrain(alloc, width, height, cells)
    }

    /// Returns an equal grid.
    ///
    /// # Errors
    ///
    /// `AllocError` if memory runs out.
    pub fn copy(&self) -> Result<Grid, AllocError>
        ensures { IfOk result (λ copy. copy ≡ self.now) }
    {
        Ok(Grid {
            landscape: self.landscape.copy()?,
            masks: self.masks.clone()?,
        })
    }

    /// Returns the number of columns, from 1 to [`MAX_SIDE`](crate::MAX_SIDE).
    pub fn width(&self) -> u32
        ensures width { result ≡ self.now.width }
        ensures limits { IsWithinLimits self.now.width self.now.height }
        ensures whole { length self.now.terrain ≡ self.now.width * self.now.height }
    {
        self.landscape.width()
    }

    /// Returns the number of rows, from 1 to [`MAX_SIDE`](crate::MAX_SIDE).
    pub fn height(&self) -> u32
        ensures height { result ≡ self.now.height }
        ensures limits { IsWithinLimits self.now.width self.now.height }
        ensures whole { length self.now.terrain ≡ self.now.width * self.now.height }
    {
        self.landscape.height()
    }

    /// Returns whether the cell lies inside the map.
    pub fn inside(&self, cell: Cell) -> bool
        ensures { IsTrue result ↔ IsInside self.now cell }
    {
        self.landscape.inside(cell)
    }

    /// Returns the terrain of the cell, which is blocked outside the map.
    pub fn terrain(&self, cell: Cell) -> Terrain
        ensures inside { IsInside self.now cell → result ≡ terrain_of self.now cell }
        ensures outside { (IsInside self.now cell → ⊥) → result ≡ Blocked }
    {
        self.landscape.terrain(cell)
    }

    /// Returns whether the cell is inside and is land or water.
    pub fn passable(&self, cell: Cell) -> bool
        ensures { IsTrue result ↔ IsPassable self.now cell }
    {
        self.landscape.passable(cell)
    }

    /// Makes one cell land or blocked. The others stay as they are.
    pub fn set(&mut self, cell: Cell, passable: bool)
        requires { IsInside self.old cell }
        ensures { self.new ≡ with_cell self.old cell passable }
    {
        self.set_terrain(cell, Terrain::land_if(passable));
    }

    /// Makes one cell blocked, land or water. The others stay as they are.
    pub fn set_terrain(&mut self, cell: Cell, terrain: Terrain)
        requires { IsInside self.old cell }
        ensures { self.new ≡ with_terrain self.old cell terrain }
    {
        self.landscape.set(cell, terrain);
        let (x, y) = (u32::from(cell.x), u32::from(cell.y));
        let columns = x.saturating_sub(1)..(x + 2).min(self.landscape.width());
        let rows = y.saturating_sub(1)..(y + 2).min(self.landscape.height());
        self.landscape
            .write_masks(columns, rows, self.masks.as_mut_slice());
    }

    /// Returns the number of passable cells.
    pub fn passable_count(&self) -> u32
        ensures { result ≡ passable_count self.now }
    {
        self.landscape.passable_count()
    }

    /// Returns the cell that the move leads to, and `None` exactly when that is not inside.
    pub fn step(&self, cell: Cell, by: Move) -> Option<Cell>
        requires { IsInside self.now cell }
        ensures inside { IfSome result (λ to. IsTarget cell by to × IsInside self.now to) }
        ensures outside { IfNone result (LeadsOutside self.now cell by) }
    {
        self.landscape.step(cell, by)
    }

    /// Returns whether the move is legal from that cell: both ends are land or both are water and,
    /// for a diagonal move, so are the two cells orthogonally adjacent to both.
    pub fn legal(&self, cell: Cell, by: Move) -> bool
        requires { IsInside self.now cell }
        ensures { IsTrue result ↔ HasLegal self.now cell by }
    {
        self.landscape.legal(cell, by)
    }

    /// Returns the legal moves from that cell by number, each with the cell that it leads to.
    pub fn neighbours(&self, cell: Cell) -> ArrayVec<(Move, Cell), 8>
        requires { IsInside self.now cell }
        ensures { AreNeighbours self.now cell result.items }
    {
        self.landscape.neighbours(cell)
    }

    /// Returns the legal moves of each cell, row by row, as bits: bit i for the move with number i.
    pub fn move_masks(&self) -> &[u8]
        ensures { AreMoveMasks self.now result.now }
    {
        self.masks.as_slice()
    }
}

/// Returns the cells of a drawing, row by row.
fn cells_of(alloc: Global, rows: &str) -> Result<Vec<Terrain>, AllocError>
    ensures { IfOk result (λ cells. cells.items ≡ cells_between_marks rows.now) }
{
    rows.bytes()
        .filter(|byte| *byte != b'/')
        .map(terrain_drawn)
        .collect(alloc)
}

/// Returns what a byte of a drawing stands for.
fn terrain_drawn(byte: u8) -> Terrain
    ensures { result ≡ terrain_drawn byte }
{
    match byte {
        b'.' => Terrain::Land,
        b'W' => Terrain::Water,
        _ => Terrain::Blocked,
    }
}
