//! Walks over an image that their callers follow move by move.

ghost use Rattle.std.specs.Prelude.{◌≡◌, ◌≤◌, ◌<◌, ℕ, ◌↔◌, IfErr, IfNone, IfOk, IfSome, IsTrue, OnOk};
ghost use Rattle.moves.specs.declared.TheConstants.{MAX_PASSABLE};
ghost use Rattle.moves.specs.Maps.{IsWithinLimits};
ghost use Rattle.moves.specs.Moves.{IsTarget};
ghost use Rattle.path_image.specs.Answers.{IsBlockedIn, IsEndRefusalIn, IsHomeIn};
ghost use Rattle.path_image.specs.Reading.{IsCellIn, StandsIn, height_in, size_at, start_in, width_in};
ghost use Rattle.path_image.specs.Strides.{BeginsBetween, GoesTo};
ghost use Rattle.path_image.specs.Walks.{Advances, IsNoCellBehind, IsUnderWay};

use crate::reading::{Home, Image, has, height, home_at, home_of, size_of, width};
use crate::walking::{Step, Walk, cell_behind, first_guess, go_on};
use moves::{Cell, Move};
use std::marker::Model;
use versions::{End, QueryRefusal};

/// A walk under way over an image, from a cell to a goal of its component. It takes no memory.
#[derive(Drop)]
pub struct ImageWalk<'a> {
    words: &'a [u32],
    walk: Walk,
}

impl<'a> Model for ImageWalk<'a> {
    ghost use Rattle.path_image.specs.Strides.{IsOver, Walking};

    ghost Value = { Walking };

    ghost view = { λ w. record { words = w.words.now; walk = w.walk } };

    ghost invariant = { λ w. IsOver w.words.now w.walk };
}

impl<'a> Image<'a> {
    /// How many columns and rows the words say that the map has.
    pub fn sides(&self) -> (u32, u32)
        ensures columns { result.0 ≡ width_in self.now }
        ensures rows { result.1 ≡ height_in self.now }
        ensures limits { IsWithinLimits (width_in self.now) (height_in self.now) }
    {
        (width(self.words), height(self.words))
    }

    /// Whether the cell lies inside the sides.
    #[inline(always)]
    pub fn has(&self, cell: Cell) -> bool
        ensures { IsTrue result ↔ IsCellIn self.now cell }
    {
        has(self.words, cell)
    }

    /// Where a cell inside stands; `None` for a blocked one.
    #[inline(always)]
    pub fn home(&self, cell: Cell) -> Option<Home>
        requires { IsCellIn self.now cell }
        ensures stands { IfSome result (λ home. StandsIn self.now home.label home.place) }
        ensures home { IfSome result (IsHomeIn self.now cell) }
        ensures blocked { IfNone result (IsBlockedIn self.now cell) }
    {
        home_at(self.words, cell)
    }

    /// Where the cell of an end stands.
    ///
    /// # Errors
    ///
    /// That the cell lies outside or is blocked.
    pub fn home_of(&self, cell: Cell, which: End) -> Result<Home, QueryRefusal>
        ensures inside { OnOk result (IsCellIn self.now cell) }
        ensures stands { IfOk result (λ home. StandsIn self.now home.label home.place) }
        ensures home { IfOk result (IsHomeIn self.now cell) }
        ensures refused { IfErr result (IsEndRefusalIn self.now cell which) }
    {
        home_of(self.words, cell, which)
    }

    /// The cell inside that a move leads to; `None` exactly where there is none.
    #[inline(always)]
    pub fn behind(&self, at: Cell, by: Move) -> Option<Cell>
        requires { IsCellIn self.now at }
        ensures target { IfSome result (IsTarget at by) }
        ensures inside { IfSome result (IsCellIn self.now) }
        ensures none { IfNone result (IsNoCellBehind self.now at by) }
    {
        cell_behind(self.words, at, by)
    }

    /// How many cells the component of a place has.
    pub fn size(&self, home: Home) -> u32
        requires { StandsIn self.now home.label home.place }
        ensures size { result ≡ size_at self.now (start_in self.now home.label) }
        ensures limit { result ≤ MAX_PASSABLE }
    {
        size_of(self.words, home.label)
    }

    /// The walk from a cell to the goal at a place of the same component.
    pub fn walk(&self, start: Cell, from: Home, goal: Home) -> ImageWalk<'a>
        requires inside { IsCellIn self.now start }
        requires from { StandsIn self.now from.label from.place }
        requires to { StandsIn self.now goal.label goal.place }
        requires joined { from.label ≡ goal.label }
        ensures over { result.words ≡ self.now }
        ensures at { result.walk.at ≡ start }
        ensures home { result.walk.home ≡ from }
        ensures goal { result.walk.goal ≡ goal.place }
        ensures begins { BeginsBetween self.now start from goal.place result.walk }
    {
        let run = first_guess(self.words, from, goal.place);
        self.walk_near(start, from, goal, run)
    }

    /// The same walk, whose goal is sought in the row of the start from the run with that number on.
    #[inline(always)]
    pub fn walk_near(&self, start: Cell, from: Home, goal: Home, run: usize) -> ImageWalk<'a>
        requires inside { IsCellIn self.now start }
        requires from { StandsIn self.now from.label from.place }
        requires to { StandsIn self.now goal.label goal.place }
        requires joined { from.label ≡ goal.label }
        ensures over { result.words ≡ self.now }
        ensures at { result.walk.at ≡ start }
        ensures home { result.walk.home ≡ from }
        ensures goal { result.walk.goal ≡ goal.place }
        ensures begins { BeginsBetween self.now start from goal.place result.walk }
    {
        ImageWalk {
            words: self.words,
            walk: Walk {
                at: start,
                home: from,
                goal: goal.place,
                run,
            },
        }
    }
}

impl<'a> ImageWalk<'a> {
    /// The cell where the walk stands.
    #[inline(always)]
    pub fn at(&self) -> Cell
        ensures at { result ≡ self.now.walk.at }
        ensures inside { IsCellIn self.now.words result }
    {
        self.walk.at
    }

    /// Where that cell stands.
    #[inline(always)]
    pub fn home(&self) -> Home
        ensures home { result ≡ self.now.walk.home }
        ensures stands { StandsIn self.now.words result.label result.place }
    {
        self.walk.home
    }

    /// The run in which the goal was found last.
    #[inline(always)]
    pub fn run(&self) -> usize {
        self.walk.run
    }

    /// The next step of the walk, which is made.
    #[inline(always)]
    pub fn step(&mut self) -> Step
        ensures words { self.new.words ≡ self.old.words }
        ensures label { self.new.walk.home.label ≡ self.old.walk.home.label }
        ensures under_way { IsUnderWay self.new.words self.new.walk }
        ensures step { Advances self.old.words self.old.walk self.new.walk result }
        ensures target { GoesTo self.old.walk self.new.walk result }
    {
        go_on(self.words, &mut self.walk)
    }
}
