//! A flood gives cells labels, a different one for each component.

ghost use Rattle.std.specs.Prelude.{◌≡◌, ℕ, ◌+◌, ◌-◌, ◌*◌, vec_len, ◌<◌, ◌≤◌, ◌↔◌, List, length, replicate, IsTrue, IsFalse, IfOk, IfSome, IfNone};
ghost use Rattle.moves.specs.Maps.{IsWithinLimits, IsInside, IsPassable, passable_count, place_of, terrain_of};
ghost use Rattle.moves.specs.Moves.{is_diagonal};
ghost use Rattle.components.specs.Floods.{IsFresh, IsFreshOf, IsBalanced, Claimed, IsSpread, IsFlooded, IsScanned, AreStarts};
ghost use Rattle.components.specs.Marks.{Marks, label_at, with_mark};

use crate::{UNLABELLED, after};
use moves::{Cell, Grid, Move, Terrain};
use std::alloc::{AllocError, Global};
use std::marker::Model;

/// What a flood has labelled so far.
#[derive(Drop)]
pub(crate) struct Flood {
    /// The label of each place, row by row.
    pub(crate) labels: Vec<u32>,
    /// The labelled cells in the order in which they were found, and room for the others.
    pub(crate) found: Vec<Cell>,
    /// The number of labelled cells.
    count: usize,
}

impl Model for Flood {
    ghost use Rattle.std.specs.Prelude.{◌≡◌};
    ghost use Rattle.components.specs.Marks.{Marks};

    ghost Value = { Marks };

    ghost view = { λ f. record { labels = f.labels.items; found = f.found.items; count = f.count } };
}

impl Flood {
    /// Takes the memory for labels and cells. Nothing is labelled yet.
    pub(crate) fn new(alloc: Global, grid: &Grid) -> Result<Flood, AllocError>
        ensures { IfOk result (λ flood. IsScanned grid.now 0 0 flood) }
    {
        let places = grid.width() as usize * grid.height() as usize;
        Ok(Flood {
            labels: vec![in alloc; UNLABELLED; places]?,
            found: vec![in alloc; Cell { x: 0, y: 0 }; grid.passable_count() as usize]?,
            count: 0,
        })
    }

    /// Returns the labels, row by row, and the cells found.
    pub(crate) fn into_parts(self) -> (Vec<u32>, Vec<Cell>)
        ensures labels { result.0.items ≡ self.labels }
        ensures found { result.1.items ≡ self.found }
    {
        (self.labels, self.found)
    }

    /// Gives a cell a label.
    pub(crate) fn mark(&mut self, grid: &Grid, cell: Cell, label: u32)
        requires inside { IsInside grid.now cell }
        requires labels { length self.old.labels ≡ grid.now.width * grid.now.height }
        requires room { self.old.count < length self.old.found }
        ensures { self.new ≡ with_mark grid.now.width self.old cell label }
    {
        let place = place(grid, cell);
        self.labels[place] = label;
        self.found[self.count] = cell;
        self.count += 1;
    }

    /// Returns whether the cell is passable and has no label yet.
    pub(crate) fn is_fresh(&self, grid: &Grid, cell: Cell) -> bool
        requires inside { IsInside grid.now cell }
        requires labels { length self.now.labels ≡ grid.now.width * grid.now.height }
        ensures { IsTrue result ↔ IsFresh grid.now self.now cell }
    {
        self.labels[place(grid, cell)] == UNLABELLED && grid.passable(cell)
    }

    /// Returns whether the cell has that terrain and no label yet.
    fn is_fresh_of(&self, grid: &Grid, class: Terrain, cell: Cell) -> bool
        requires inside { IsInside grid.now cell }
        requires labels { length self.now.labels ≡ grid.now.width * grid.now.height }
        ensures { IsTrue result ↔ IsFreshOf grid.now class self.now cell }
    {
        self.labels[place(grid, cell)] == UNLABELLED && grid.terrain(cell) == class
    }

    /// Gives the label to the cell that the move leads to, if it has none yet and is of the same
    /// class: land if the move leaves land, water if it leaves water.
    fn claim(&mut self, grid: &Grid, class: Terrain, from: Cell, by: Move, label: u32)
        requires from { IsPassable grid.now from }
        requires class { class ≡ terrain_of grid.now from }
        requires straight { IsFalse (is_diagonal by) }
        requires label { label < UNLABELLED }
        requires balanced { IsBalanced grid.now self.old }
        ensures claimed { Claimed grid.now label from by self.old self.new }
        ensures balanced { IsBalanced grid.now self.new }
    {
        if let Some(to) = grid.step(from, by) {
            if self.is_fresh_of(grid, class, to) {
                self.mark(grid, to, label);
            }
        }
    }

    /// Gives the label to all cells that straight moves reach from the root.
    pub(crate) fn spread(&mut self, grid: &Grid, root: Cell, label: u32)
        requires root { IsFresh grid.now self.old root }
        requires label { label < UNLABELLED }
        requires flooded { IsFlooded grid.now label self.old }
        ensures spread { IsSpread grid.now label root self.old self.new }
        ensures flooded { IsFlooded grid.now (label + 1) self.new }
    {
        let class = grid.terrain(root);
        let mut next = self.count;
        self.mark(grid, root, label);
        while next < self.count {
            let from = self.found[next];
            self.claim(grid, class, from, Move::N, label);
            self.claim(grid, class, from, Move::E, label);
            self.claim(grid, class, from, Move::S, label);
            self.claim(grid, class, from, Move::W, label);
            next += 1;
        }
    }

    /// Labels the components in the order of their first cells, and returns where each one's cells
    /// begin among the cells found, one place to the right: the list has one number more than there
    /// are components.
    pub(crate) fn scan(&mut self, alloc: Global, grid: &Grid) -> Result<Vec<u32>, AllocError>
        requires { IsScanned grid.now 0 0 self.old }
        ensures scanned { IfOk result (λ starts.
            IsScanned grid.now (grid.now.width * grid.now.height) (vec_len starts - 1) self.new) }
        ensures starts { IfOk result (λ starts.
            AreStarts (vec_len starts - 1) self.new.labels starts.items) }
    {
        let width = grid.width();
        let mut starts = vec![in alloc; 0; 1]?;
        let mut number = 0;
        let mut cell = Cell { x: 0, y: 0 };
        for _place in 0..self.labels.len() {
            if self.is_fresh(grid, cell) {
                starts.push(self.count as u32)?;
                self.spread(grid, cell, number);
                number += 1;
            }
            cell = after(cell, width);
        }
        Ok(starts)
    }
}

/// Returns the cell's place in a list that goes row by row.
pub(crate) fn place(grid: &Grid, cell: Cell) -> usize
    requires { IsInside grid.now cell }
    ensures place { result ≡ place_of grid.now.width cell }
    ensures inside { result < grid.now.width * grid.now.height }
{
    u32::from(cell.y) as usize * grid.width() as usize + u32::from(cell.x) as usize
}
