//! What an edit of a map leaves of its components, and the cells from which the rest is flooded
//! again.

ghost use Rattle.std.specs.Prelude.{◌≡◌, ℕ, ◌+◌, ◌*◌, ◌<◌, ◌≤◌, ◌++◌, [], map, take, length, slice_index, slice_index_or, Contains, IfOk, IfSome, IfNone, IsTrue, IsFalse, OnOk};
ghost use Rattle.std.specs.List.Sorted.{IsNonDecreasing};
ghost use Rattle.moves.specs.Maps.{IsWithinLimits, IsInside, IsPassable, terrain_of};
ghost use Rattle.moves.specs.Components.{IsComponentList};
ghost use Rattle.components.specs.Groups.{IsLabelOf};
ghost use Rattle.components.specs.Edits.{HaveSameSides, AreChanged, AreTouched, KeepsTouched, TouchesAt, TouchesAround, TouchesBeside, IsLoose, IsPlan, IsKept, HaveCells, KeepsRanks, HasPassableOf, IsAboveAllBefore, StandsBefore, rank_of, AreRanks, AreFormerRanks, AreCellsOf};

use crate::Labels;
use moves::{Cell, Grid, Move};
use std::alloc::{AllocError, Global};
use std::marker::Model;

/// The components before an edit, which of them it touches, and the cells from which to flood: the
/// first cell of each untouched component, all cells of the touched ones, and the changed cells
/// that are passable.
#[derive(Drop)]
pub(crate) struct Edit<'a> {
    labels: &'a Labels,
    /// For each component, whether a changed cell is in it or beside it.
    touched: Vec<bool>,
    /// In row-major order.
    seeds: Vec<Cell>,
}

impl<'a> Model for Edit<'a> {
    ghost use Rattle.components.specs.Edits.{Plan};

    ghost Value = { Plan };

    ghost view = { λ e. record {
      components = e.labels.now;
      touched = e.touched.items;
      seeds = e.seeds.items;
    } };
}

impl<'a> Edit<'a> {
    /// Returns what the changed cells mean for the components of the old map.
    pub(crate) fn of(
        alloc: Global,
        labels: &'a Labels,
        old: &Grid,
        new: &Grid,
        changed: &[Cell],
    ) -> Result<Edit<'a>, AllocError>
        requires limits { IsWithinLimits new.now.width new.now.height }
        requires labels { IsComponentList old.now labels.now }
        requires sides { HaveSameSides old.now new.now }
        requires changed { AreChanged old.now new.now changed.now }
        ensures { IfOk result (λ edit. IsPlan new.now edit) }
    {
        let cells = differing(alloc, old, new, changed)?;
        let touched = touched_by(alloc, labels, new, &cells)?;
        let mut ranks = former_ranks(alloc, labels, &touched)?;
        push_passable(new, &cells, &mut ranks)?;
        ranks.sort()?;
        let seeds = cells_of(alloc, &ranks)?;
        Ok(Edit {
            labels,
            touched,
            seeds,
        })
    }

    /// Returns the cells of the cell's component, if it has one that the edit does not touch.
    pub(crate) fn kept(&self, cell: Cell) -> Option<&[Cell]>
        requires { length self.now.touched ≡ length self.now.components }
        ensures some { IfSome result (λ cells. IsKept self.now cell cells.now) }
        ensures none { IfNone result (IsLoose self.now cell) }
    {
        match self.labels.of(cell) {
            None => None,
            Some(label) => {
                if self.touched[label as usize] {
                    None
                } else {
                    Some(self.labels.cells(label))
                }
            }
        }
    }

    /// Returns the cells from which to flood.
    pub(crate) fn seeds(&self) -> &[Cell]
        ensures { result.now ≡ self.now.seeds }
    {
        self.seeds.as_slice()
    }
}

/// Returns those of the cells whose terrain differs in the two maps.
fn differing(
    alloc: Global,
    old: &Grid,
    new: &Grid,
    changed: &[Cell],
) -> Result<Vec<Cell>, AllocError>
    requires sides { HaveSameSides old.now new.now }
    requires changed { AreChanged old.now new.now changed.now }
    ensures { IfOk result (λ cells. AreChanged old.now new.now cells.items) }
{
    let mut cells = Vec::new(alloc);
    for cell in changed {
        if differ(old, new, *cell) {
            cells.push(*cell)?;
        }
    }
    Ok(cells)
}

/// Returns whether the terrain of the cell differs in the two maps.
fn differ(old: &Grid, new: &Grid, cell: Cell) -> bool
    requires { HaveSameSides old.now new.now }
    ensures { IsFalse result → IsInside old.now cell
        → terrain_of new.now cell ≡ terrain_of old.now cell }
{
    old.terrain(cell) != new.terrain(cell)
}

/// Returns, for each component, whether one of the cells is in it or beside it.
fn touched_by(
    alloc: Global,
    labels: &Labels,
    grid: &Grid,
    cells: &[Cell],
) -> Result<Vec<bool>, AllocError>
    ensures { IfOk result (λ touched. AreTouched grid.now labels.now cells.now touched.items) }
{
    let mut touched = vec![in alloc; false; labels.count() as usize]?;
    for cell in cells {
        touch_around(labels, grid, *cell, touched.as_mut_slice());
    }
    Ok(touched)
}

/// Marks the components that the cell is in or beside.
fn touch_around(labels: &Labels, grid: &Grid, cell: Cell, touched: &mut [bool])
    requires { length touched.old ≡ length labels.now }
    ensures kept { KeepsTouched touched.old touched.new }
    ensures marked { TouchesAround grid.now labels.now cell touched.new }
{
    if grid.inside(cell) {
        touch(labels, cell, touched);
        touch_beside(labels, grid, cell, Move::N, touched);
        touch_beside(labels, grid, cell, Move::E, touched);
        touch_beside(labels, grid, cell, Move::S, touched);
        touch_beside(labels, grid, cell, Move::W, touched);
    }
}

/// Marks the component of the cell that the move leads to.
fn touch_beside(labels: &Labels, grid: &Grid, cell: Cell, by: Move, touched: &mut [bool])
    requires size { length touched.old ≡ length labels.now }
    requires inside { IsInside grid.now cell }
    ensures kept { KeepsTouched touched.old touched.new }
    ensures marked { TouchesBeside grid.now labels.now cell by touched.new }
{
    if let Some(next) = grid.step(cell, by) {
        touch(labels, next, touched);
    }
}

/// Marks the component that has the cell.
fn touch(labels: &Labels, cell: Cell, touched: &mut [bool])
    requires { length touched.old ≡ length labels.now }
    ensures kept { KeepsTouched touched.old touched.new }
    ensures marked { TouchesAt labels.now cell touched.new }
{
    match labels.of(cell) {
        Some(label) => touched[label as usize] = true,
        None => {}
    }
}

/// Returns the ranks of the first cells of untouched components and of all cells of the touched
/// ones.
fn former_ranks(alloc: Global, labels: &Labels, touched: &[bool]) -> Result<Vec<u32>, AllocError>
    requires size { length touched.now ≡ length labels.now }
    requires some { HaveCells labels.now }
    ensures { IfOk result (λ ranks.
        AreFormerRanks labels.now touched.now (length labels.now) ranks.items) }
{
    let mut ranks = Vec::new(alloc);
    for label in 0..labels.count() {
        let cells = whole_or_first(labels.cells(label), touched[label as usize]);
        push_ranks(cells, &mut ranks)?;
    }
    Ok(ranks)
}

/// Returns all of the cells, or only the first.
fn whole_or_first(cells: &[Cell], whole: bool) -> &[Cell]
    requires { 0 < length cells.now }
    ensures whole { IsTrue whole → result.now ≡ cells.now }
    ensures first { IsFalse whole → result.now ≡ take 1 cells.now }
{
    if whole { cells } else { &cells[..1] }
}

/// Appends the ranks of the cells.
fn push_ranks(cells: &[Cell], ranks: &mut Vec<u32>) -> Result<(), AllocError>
    ensures { OnOk result (ranks.new.items ≡ ranks.old.items ++ map rank_of cells.now) }
{
    for cell in cells {
        ranks.push(rank(*cell))?;
    }
    Ok(())
}

/// Appends the ranks of the passable ones among the cells.
fn push_passable(grid: &Grid, cells: &[Cell], ranks: &mut Vec<u32>) -> Result<(), AllocError>
    ensures kept { OnOk result (KeepsRanks ranks.old.items ranks.new.items) }
    ensures more { OnOk result (HasPassableOf grid.now cells.now ranks.new.items) }
    ensures inside { OnOk result (
        AreRanks grid.now ranks.old.items → AreRanks grid.now ranks.new.items) }
{
    for cell in cells {
        if grid.passable(*cell) {
            ranks.push(rank(*cell))?;
        }
    }
    Ok(())
}

/// Returns the rank of a cell in row-major order, whatever the width.
fn rank(cell: Cell) -> u32
    ensures { result ≡ rank_of cell }
{
    u32::from(cell.y) * 65_536 + u32::from(cell.x)
}

/// Returns the cells with these ranks, each once.
fn cells_of(alloc: Global, ranks: &[u32]) -> Result<Vec<Cell>, AllocError>
    requires { IsNonDecreasing ranks.now }
    ensures { IfOk result (λ cells. AreCellsOf ranks.now cells.items) }
{
    let mut cells = Vec::with_capacity(alloc, ranks.len())?;
    for i in 0..ranks.len() {
        if is_new(ranks, i) {
            let (x, y) = ((ranks[i] % 65_536) as u16, (ranks[i] / 65_536) as u16);
            cells.push(Cell { x, y })?;
        }
    }
    Ok(cells)
}

/// Returns whether the rank is greater than all those before it. Otherwise it equals one of them.
fn is_new(ranks: &[u32], i: usize) -> bool
    requires within { i < length ranks.now }
    requires order { IsNonDecreasing ranks.now }
    ensures new { IsTrue result → IsAboveAllBefore ranks.now i }
    ensures seen { IsFalse result → StandsBefore ranks.now i }
{
    if i == 0 {
        return true;
    }
    ranks[i - 1] != ranks[i]
}
