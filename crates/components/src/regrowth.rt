//! The flood after an edit: untouched components are kept, and the others are flooded again.

ghost use Rattle.std.specs.Prelude.{◌≡◌, ℕ, ◌+◌, ◌-◌, ◌*◌, ◌<◌, ◌≤◌, ◌==◌, ◌++◌, vec_len, length, filter, All, Contains, IfOk, OnOk};
ghost use Rattle.moves.specs.Maps.{IsWithinLimits, IsInside};
ghost use Rattle.moves.specs.Components.{IsComponent};
ghost use Rattle.components.specs.Floods.{IsFresh, IsSpread, IsFlooded, IsScanned, labelled_among};
ghost use Rattle.components.specs.Groups.{cells_with, AreGrouped};
ghost use Rattle.components.specs.Edits.{IsPlan};

use crate::UNLABELLED;
use crate::edits::Edit;
use crate::flood::{Flood, place};
use moves::{Cell, Grid};
use std::alloc::{AllocError, Global};

impl Flood {
    /// Labels the components that begin at the seeds, in their order. Returns where each
    /// component's cells begin among all cells and where those of the last one end, and the cells,
    /// component by component and row by row.
    pub(crate) fn regrow(
        &mut self,
        alloc: Global,
        grid: &Grid,
        edit: &Edit,
    ) -> Result<(Vec<u32>, Vec<Cell>), AllocError>
        requires limits { IsWithinLimits grid.now.width grid.now.height }
        requires whole { length grid.now.terrain ≡ grid.now.width * grid.now.height }
        requires scanned { IsScanned grid.now 0 0 self.old }
        requires plan { IsPlan grid.now edit.now }
        ensures scanned { IfOk result (λ parts.
            IsScanned grid.now (grid.now.width * grid.now.height) (vec_len parts.0 - 1) self.new) }
        ensures grouped { IfOk result (λ parts.
            AreGrouped grid.now.width self.new.labels parts.0.items parts.1.items) }
        ensures some { IfOk result (λ parts. 0 < vec_len parts.0) }
    {
        let mut starts = vec![in alloc; 0; 1]?;
        let room = self.found.len();
        let mut cells = Vec::with_capacity(alloc, room)?;
        let mut number = 0;
        for seed in edit.seeds() {
            if self.is_fresh(grid, *seed) {
                self.grow(grid, edit, *seed, number, &mut cells)?;
                starts.push(cells.len() as u32)?;
                number += 1;
            }
        }
        Ok((starts, cells))
    }

    /// Gives the label to the root's component, and appends its cells row by row.
    fn grow(
        &mut self,
        grid: &Grid,
        edit: &Edit,
        root: Cell,
        label: u32,
        cells: &mut Vec<Cell>,
    ) -> Result<(), AllocError>
        requires limits { IsWithinLimits grid.now.width grid.now.height }
        requires plan { IsPlan grid.now edit.now }
        requires seed { Contains edit.now.seeds root }
        requires root { IsFresh grid.now self.old root }
        requires label { label < UNLABELLED }
        requires flooded { IsFlooded grid.now label self.old }
        ensures spread { OnOk result (IsSpread grid.now label root self.old self.new) }
        ensures flooded { OnOk result (IsFlooded grid.now (label + 1) self.new) }
        ensures cells { OnOk result (cells.new.items
            ≡ cells.old.items ++ cells_with grid.now.width self.new.labels label) }
    {
        match edit.kept(root) {
            Some(component) => self.take_over(grid, root, component, label, cells),
            None => self.flood_again(grid, edit.seeds(), root, label, cells),
        }
    }

    /// Gives the label to a component whose cells are known, and appends them.
    fn take_over(
        &mut self,
        grid: &Grid,
        root: Cell,
        component: &[Cell],
        label: u32,
        cells: &mut Vec<Cell>,
    ) -> Result<(), AllocError>
        requires component { IsComponent grid.now component.now }
        requires has { Contains component.now root }
        requires root { IsFresh grid.now self.old root }
        requires label { label < UNLABELLED }
        requires flooded { IsFlooded grid.now label self.old }
        ensures spread { OnOk result (IsSpread grid.now label root self.old self.new) }
        ensures flooded { OnOk result (IsFlooded grid.now (label + 1) self.new) }
        ensures cells { OnOk result (cells.new.items ≡ cells.old.items ++ component.now) }
    {
        self.adopt(grid, root, component, label);
        cells.extend_from_slice(component)?;
        Ok(())
    }

    /// Floods from the root, and appends the cells of `among` that got the label.
    fn flood_again(
        &mut self,
        grid: &Grid,
        among: &[Cell],
        root: Cell,
        label: u32,
        cells: &mut Vec<Cell>,
    ) -> Result<(), AllocError>
        requires inside { All (IsInside grid.now) among.now }
        requires root { IsFresh grid.now self.old root }
        requires label { label < UNLABELLED }
        requires flooded { IsFlooded grid.now label self.old }
        ensures spread { OnOk result (IsSpread grid.now label root self.old self.new) }
        ensures flooded { OnOk result (IsFlooded grid.now (label + 1) self.new) }
        ensures cells { OnOk result (cells.new.items
            ≡ cells.old.items ++ labelled_among grid.now.width self.new label among.now) }
    {
        self.spread(grid, root, label);
        self.list(grid, among, label, cells)?;
        Ok(())
    }

    /// Gives the label to the cells of a component.
    fn adopt(&mut self, grid: &Grid, root: Cell, component: &[Cell], label: u32)
        requires component { IsComponent grid.now component.now }
        requires has { Contains component.now root }
        requires root { IsFresh grid.now self.old root }
        requires label { label < UNLABELLED }
        requires flooded { IsFlooded grid.now label self.old }
        ensures spread { IsSpread grid.now label root self.old self.new }
        ensures flooded { IsFlooded grid.now (label + 1) self.new }
    {
        self.mark(grid, root, label);
        for cell in component {
            if self.is_fresh(grid, *cell) {
                self.mark(grid, *cell, label);
            }
        }
    }

    /// Appends those of the cells that have the label.
    fn list(
        &self,
        grid: &Grid,
        among: &[Cell],
        label: u32,
        cells: &mut Vec<Cell>,
    ) -> Result<(), AllocError>
        requires inside { All (IsInside grid.now) among.now }
        requires labels { length self.now.labels ≡ grid.now.width * grid.now.height }
        ensures { OnOk result (cells.new.items
            ≡ cells.old.items ++ labelled_among grid.now.width self.now label among.now) }
    {
        for cell in among {
            if self.labels[place(grid, *cell)] == label {
                cells.push(*cell)?;
            }
        }
        Ok(())
    }
}
