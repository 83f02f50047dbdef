//! The cells of a map and its rule of legal moves, without anything kept for speed.

ghost use Rattle.std.specs.Prelude.{◌≡◌, ℕ, ◌+◌, ◌*◌, ◌<◌, ◌≤◌, ◌↔◌, Bool, false, List, IsTrue, IsBitSet, IfOk, IfSome, IfNone, length, replicate, count_by, slice_set};
ghost use Rattle.moves.specs.declared.TheConstants.{MAX_CELLS};
ghost use Rattle.moves.specs.Maps.{Map, IsWithinLimits, IsInside, IsPassable, IsLike, blocked_map, is_passable, map_of, with_terrain, passable_count, place_of, terrain_of};
ghost use Rattle.moves.specs.declared.Terrain.TheVariants.{Blocked};
ghost use Rattle.moves.specs.MoveMasks.{HasFree, IsFreeMask, IsLegalAmong, IsMoveMask, WritesMasks};
ghost use Rattle.moves.specs.Neighbours.{AreNeighbours, NoneIsNumbered};
ghost use Rattle.moves.specs.declared.Cell.{Cell};
ghost use Rattle.moves.specs.declared.Move.{Move};
ghost use Rattle.moves.specs.Moves.{number_of, is_diagonal, HasFreeCorners, IsTarget, IsLegal, HasLegal, LeadsOutside};

use crate::{Cell, MAX_CELLS, MAX_SIDE, Move, Terrain, place};
use arrayvec::ArrayVec;
use std::alloc::{AllocError, Global};
use std::marker::Model;
use std::ops::Range;

/// A map of blocked cells, land and water: each side from 1 to [`MAX_SIDE`](crate::MAX_SIDE), and
/// at most [`MAX_CELLS`](crate::MAX_CELLS) cells.
#[derive(Drop)]
pub struct Landscape {
    width: u32,
    height: u32,
    terrain: Vec<Terrain>,
    /// How many cells are passable.
    count: u32,
}

impl Model for Landscape {
    ghost use Rattle.std.specs.Prelude.{◌≡◌, ◌*◌, vec_len, count_by};
    ghost use Rattle.moves.specs.Maps.{Map, IsWithinLimits, is_passable};

    ghost Value = { Map };

    ghost view = { λ g. record { width = g.width; height = g.height; terrain = g.terrain.items } };

    ghost invariant = { λ g. IsWithinLimits g.width g.height × (vec_len g.terrain ≡ g.width * g.height)
        × (g.count ≡ count_by is_passable g.terrain.items) };
}

impl Landscape {
    /// Returns a map of blocked cells.
    pub fn blocked(alloc: Global, width: u32, height: u32) -> Result<Landscape, AllocError>
        requires { IsWithinLimits width height }
        ensures { IfOk result (λ landscape. landscape ≡ blocked_map width height) }
    {
        let cells = (width * height) as usize;
        Ok(Landscape {
            width,
            height,
            terrain: vec![in alloc; Terrain::Blocked; cells]?,
            count: 0,
        })
    }

    /// Returns a map with these cells, given row by row.
    pub fn of_terrain(width: u32, height: u32, terrain: Vec<Terrain>) -> Landscape
        requires limits { IsWithinLimits width height }
        requires whole { length terrain.items ≡ width * height }
        ensures { result ≡ map_of width height terrain.items }
    {
        let count = count_passable(&terrain);
        Landscape {
            width,
            height,
            terrain,
            count,
        }
    }

    /// Returns an equal map.
    pub fn copy(&self) -> Result<Landscape, AllocError>
        ensures { IfOk result (λ copy. copy ≡ self.now) }
    {
        Ok(Landscape {
            width: self.width,
            height: self.height,
            terrain: self.terrain.clone()?,
            count: self.count,
        })
    }

    /// Returns the number of columns, from 1 to [`MAX_SIDE`](crate::MAX_SIDE).
    pub fn width(&self) -> u32
        ensures width { result ≡ self.now.width }
        ensures limits { IsWithinLimits self.now.width self.now.height }
        ensures whole { length self.now.terrain ≡ self.now.width * self.now.height }
    {
        self.width
    }

    /// Returns the number of rows, from 1 to [`MAX_SIDE`](crate::MAX_SIDE).
    pub fn height(&self) -> u32
        ensures height { result ≡ self.now.height }
        ensures limits { IsWithinLimits self.now.width self.now.height }
        ensures whole { length self.now.terrain ≡ self.now.width * self.now.height }
    {
        self.height
    }

    /// Returns whether the cell lies inside the map.
    pub fn inside(&self, cell: Cell) -> bool
        ensures { IsTrue result ↔ IsInside self.now cell }
    {
        u32::from(cell.x) < self.width && u32::from(cell.y) < self.height
    }

    /// Returns the terrain of the cell, which is blocked outside the map.
    pub fn terrain(&self, cell: Cell) -> Terrain
        ensures inside { IsInside self.now cell → result ≡ terrain_of self.now cell }
        ensures outside { (IsInside self.now cell → ⊥) → result ≡ Blocked }
    {
        if self.inside(cell) {
            self.terrain[self.place(cell)]
        } else {
            Terrain::Blocked
        }
    }

    /// Returns whether the cell is inside and is land or water.
    pub fn passable(&self, cell: Cell) -> bool
        ensures { IsTrue result ↔ IsPassable self.now cell }
    {
        self.terrain(cell).is_passable()
    }

    /// Returns whether the other cell is passable and of the same class.
    fn is_like(&self, cell: Cell, other: Cell) -> bool
        requires { IsPassable self.now cell }
        ensures { IsTrue result ↔ IsLike self.now cell other }
    {
        self.terrain(other) == self.terrain(cell)
    }

    /// Makes one cell blocked, land or water. The others stay as they are.
    pub fn set(&mut self, cell: Cell, terrain: Terrain)
        requires { IsInside self.old cell }
        ensures { self.new ≡ with_terrain self.old cell terrain }
    {
        let place = self.place(cell);
        self.count = change_terrain(self.terrain.as_mut_slice(), place, terrain, self.count);
    }

    /// Returns the number of passable cells.
    #[tactic(auto, using(crate::proofs::Marks::count_open))]
    pub fn passable_count(&self) -> u32
        ensures { result ≡ passable_count self.now }
    {
        self.count
    }

    /// Returns the cell that the move leads to, and `None` exactly when that is not inside.
    pub fn step(&self, cell: Cell, by: Move) -> Option<Cell>
        requires { IsInside self.now cell }
        ensures inside { IfSome result (λ to. IsTarget cell by to × IsInside self.now to) }
        ensures outside { IfNone result (LeadsOutside self.now cell by) }
    {
        // Reading a field establishes that the sides are within the limits.
        let _ = &self.width;
        let to = target(cell, by)?;
        if self.inside(to) { Some(to) } else { None }
    }

    /// Returns whether the move is legal from that cell: both ends are land or both are water and,
    /// for a diagonal move, so are the two cells orthogonally adjacent to both.
    pub fn legal(&self, cell: Cell, by: Move) -> bool
        requires { IsInside self.now cell }
        ensures { IsTrue result ↔ HasLegal self.now cell by }
    {
        match self.step(cell, by) {
            None => false,
            Some(to) => self.leads(cell, by, to),
        }
    }

    /// Returns the legal moves from that cell by number, each with the cell that it leads to.
    pub fn neighbours(&self, cell: Cell) -> ArrayVec<(Move, Cell), 8>
        requires { IsInside self.now cell }
        ensures { AreNeighbours self.now cell result.items }
    {
        let mut found = ArrayVec::new();
        for number in 0..8u8 {
            if let Some(pair) = self.numbered(cell, number) {
                found.push(pair);
            }
        }
        found
    }

    /// Returns the move with that number and its target, if the move is legal.
    fn numbered(&self, cell: Cell, number: u8) -> Option<(Move, Cell)>
        requires inside { IsInside self.now cell }
        requires number { number < 8 }
        ensures legal { IfSome result (λ pair. IsLegal self.now cell pair.0 pair.1) }
        ensures numbered { IfSome result (λ pair. number_of pair.0 ≡ number) }
        ensures illegal { IfNone result (NoneIsNumbered self.now cell number) }
    {
        let by = Move::of(number)?;
        let to = self.step(cell, by)?;
        if self.leads(cell, by, to) {
            Some((by, to))
        } else {
            None
        }
    }

    /// Returns whether the move to that cell is legal.
    fn leads(&self, cell: Cell, by: Move, to: Cell) -> bool
        requires { IsTarget cell by to }
        ensures { IsTrue result ↔ IsLegal self.now cell by to }
    {
        self.passable(cell)
            && self.is_like(cell, to)
            && (!by.is_diagonal() || self.corners_are_free(cell, to))
    }

    /// Returns whether the two cells that share a column with one cell and a row with the other are
    /// of the class of `from`.
    fn corners_are_free(&self, from: Cell, to: Cell) -> bool
        requires { IsPassable self.now from }
        ensures { IsTrue result ↔ HasFreeCorners self.now from to }
    {
        self.is_like(from, Cell { x: from.x, y: to.y })
            && self.is_like(from, Cell { x: to.x, y: from.y })
    }

    /// Returns the legal moves from that cell as bits.
    pub fn mask(&self, cell: Cell) -> u8
        requires { IsInside self.now cell }
        ensures { IsMoveMask self.now cell result }
    {
        if !self.passable(cell) {
            return 0;
        }
        let around = self.free_mask(cell);
        let mut mask = 0u8;
        for number in 0..8u8 {
            if is_legal_among(around, number) {
                mask |= 1 << number;
            }
        }
        mask
    }

    /// Returns the moves that lead to passable cells of the same class, as bits.
    fn free_mask(&self, cell: Cell) -> u8
        requires { IsPassable self.now cell }
        ensures { IsFreeMask self.now cell result }
    {
        let mut mask = 0u8;
        for number in 0..8u8 {
            if self.is_free(cell, number) {
                mask |= 1 << number;
            }
        }
        mask
    }

    /// Returns whether the move with that number leads to a passable cell of the same class.
    fn is_free(&self, cell: Cell, number: u8) -> bool
        requires passable { IsPassable self.now cell }
        requires number { number < 8 }
        ensures { (move : Move) → number_of move ≡ number
            → (IsTrue result ↔ HasFree self.now cell move) }
    {
        // Reading a field establishes that the sides are within the limits.
        let _ = &self.width;
        let Some(by) = Move::of(number) else {
            return false;
        };
        match target(cell, by) {
            None => false,
            Some(to) => self.is_like(cell, to),
        }
    }

    /// Writes the masks of the cells in some columns and rows.
    pub fn write_masks(&self, columns: Range<u32>, rows: Range<u32>, masks: &mut [u8])
        requires whole { length masks.old ≡ self.now.width * self.now.height }
        requires columns { (columns.start ≤ columns.end) × (columns.end ≤ self.now.width) }
        requires rows { (rows.start ≤ rows.end) × (rows.end ≤ self.now.height) }
        ensures { WritesMasks self.now columns.start columns.end rows.start rows.end
            masks.old masks.new }
    {
        for y in rows.start..rows.end {
            self.write_row(columns.start, columns.end, y, masks);
        }
    }

    /// Writes the masks of some cells of one row.
    fn write_row(&self, left: u32, right: u32, y: u32, masks: &mut [u8])
        requires whole { length masks.old ≡ self.now.width * self.now.height }
        requires columns { (left ≤ right) × (right ≤ self.now.width) }
        requires row { y < self.now.height }
        ensures { WritesMasks self.now left right y (y + 1) masks.old masks.new }
    {
        // Reading a field establishes that the sides are within the limits.
        let _ = &self.width;
        for x in left..right {
            let cell = Cell {
                x: x as u16,
                y: y as u16,
            };
            masks[self.place(cell)] = self.mask(cell);
        }
    }

    /// Returns the cell's place in the list of cells, row by row.
    fn place(&self, cell: Cell) -> usize
        requires { IsInside self.now cell }
        ensures place { result ≡ place_of self.now.width cell }
        ensures inside { result < length self.now.terrain }
    {
        place(self.width, cell)
    }
}

/// Returns how many of these are passable.
fn count_passable(terrain: &[Terrain]) -> u32
    requires { length terrain.now ≤ MAX_CELLS }
    ensures { result ≡ count_by is_passable terrain.now }
{
    terrain.iter().filter(|cell| cell.is_passable()).count() as u32
}

/// Writes one cell of a list with `count` passable cells, and returns the new count.
#[tactic(auto, using(crate::proofs::Marks::recounted, crate::proofs::Marks::counted))]
fn change_terrain(cells: &mut [Terrain], place: usize, terrain: Terrain, count: u32) -> u32
    requires limit { length cells.old ≤ MAX_CELLS }
    requires inside { place < length cells.old }
    requires count { count ≡ count_by is_passable cells.old }
    ensures cells { cells.new ≡ slice_set cells.old place terrain }
    ensures count { result ≡ count_by is_passable cells.new }
{
    let others = count - u32::from(cells[place].is_passable());
    cells[place] = terrain;
    others + u32::from(terrain.is_passable())
}

/// Returns whether the move with that number is legal from a passable cell, given the mask of the
/// moves that lead to passable cells of its class.
fn is_legal_among(mask: u8, number: u8) -> bool
    requires { number < 8 }
    ensures { (move : Move) → number_of move ≡ number
        → (IsTrue result ↔ IsLegalAmong mask move) }
{
    match number {
        0 | 2 | 4 | 6 => has_bit(mask, number),
        1 => has_bit(mask, 1) && has_bit(mask, 0) && has_bit(mask, 2),
        3 => has_bit(mask, 3) && has_bit(mask, 2) && has_bit(mask, 4),
        5 => has_bit(mask, 5) && has_bit(mask, 4) && has_bit(mask, 6),
        _ => has_bit(mask, 7) && has_bit(mask, 6) && has_bit(mask, 0),
    }
}

/// Returns whether a bit is set.
fn has_bit(mask: u8, number: u8) -> bool
    requires { number < 8 }
    ensures { IsTrue result ↔ IsBitSet mask number }
{
    mask & 1 << number != 0
}

/// Returns the cell that the move leads to on a grid without a lower or right end, and `None`
/// exactly when the column or the row would be below 0. [`Cell::target`] requires that neither is.
fn target(cell: Cell, by: Move) -> Option<Cell>
    requires column { cell.x < MAX_SIDE }
    requires row { cell.y < MAX_SIDE }
    ensures inside { IfSome result (IsTarget cell by) }
    ensures outside { IfNone result ((to : Cell) → IsTarget cell by to → ⊥) }
{
    let x = match by {
        Move::N | Move::S => cell.x,
        Move::NE | Move::E | Move::SE => cell.x + 1,
        Move::SW | Move::W | Move::NW => cell.x.checked_sub(1)?,
    };
    let y = match by {
        Move::E | Move::W => cell.y,
        Move::SE | Move::S | Move::SW => cell.y + 1,
        Move::N | Move::NE | Move::NW => cell.y.checked_sub(1)?,
    };
    Some(Cell { x, y })
}
