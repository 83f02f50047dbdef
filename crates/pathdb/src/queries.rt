//! Paths that are read from an image which passed the look.

ghost use Rattle.std.specs.Prelude.{◌≡◌, ◌≤◌, length};
ghost use Rattle.path_image.specs.Reading.{LeadsInside};
ghost use Rattle.pathdb.specs.Calls.{SaysComponent, SaysCost, SaysNext, SaysPath, Tells, cell_of};

use crate::Status;
use moves::Cell;
use path_image::{Image, PathFault, WalkFault};
use versions::{End, Next};

/// A cell by its column and row, from 0 at the upper left.
#[repr(C)]
#[derive(Clone, Copy, Debug, Default, PartialEq, Eq)]
pub struct PathdbCell {
    /// The column.
    pub x: u16,
    /// The row.
    pub y: u16,
}

impl PathdbCell {
    /// The same cell.
    pub(crate) fn cell(self) -> Cell
        ensures { result ≡ cell_of self }
    {
        Cell {
            x: self.x,
            y: self.y,
        }
    }
}

/// What a path costs: its length is `straight + diagonal · √2`.
#[repr(C)]
#[derive(Clone, Copy, Debug, Default, PartialEq, Eq)]
pub struct PathdbCost {
    /// Moves of length 1.
    pub straight: u32,
    /// Moves of length √2.
    pub diagonal: u32,
}

/// In which component a cell lies: a path leads from one cell to another exactly inside of one.
#[unsafe(no_mangle)]
pub extern "C" fn pathdb_component(words: &[u32], cell: PathdbCell, component: &mut u32) -> u32
    requires { LeadsInside words.now }
    ensures told { Tells result (SaysComponent words.now (cell_of cell) component.old component.new) }
{
    component_of(words, cell.cell(), component).number()
}

/// Where the path from a cell to a goal goes on: the number of the move.
#[unsafe(no_mangle)]
pub extern "C" fn pathdb_next_move(
    words: &[u32],
    at: PathdbCell,
    goal: PathdbCell,
    by: &mut u8,
) -> u32
    requires { LeadsInside words.now }
    ensures told { Tells result (SaysNext words.now (cell_of at) (cell_of goal) by.old by.new) }
{
    next(words, at.cell(), goal.cell(), by).number()
}

/// What the path from a cell to another costs.
#[unsafe(no_mangle)]
pub extern "C" fn pathdb_path_cost(
    words: &[u32],
    start: PathdbCell,
    goal: PathdbCell,
    cost: &mut PathdbCost,
) -> u32
    requires { LeadsInside words.now }
    ensures told { Tells result (SaysCost words.now (cell_of start) (cell_of goal) cost.old cost.new) }
{
    path_cost(words, start.cell(), goal.cell(), cost).number()
}

/// Writes the moves of the path from a cell to another into a room, a byte a move, and how many there are. Where the
/// room has too few places for them it has the first of them, and the count is how many there are.
#[unsafe(no_mangle)]
pub extern "C" fn pathdb_path(
    words: &[u32],
    start: PathdbCell,
    goal: PathdbCell,
    room: &mut [u8],
    count: &mut u32,
) -> u32
    requires { LeadsInside words.now }
    ensures told { Tells result
        (SaysPath words.now (cell_of start) (cell_of goal) room.old room.new count.new) }
    ensures inside { result ≡ 0 → count.new ≤ length room.old }
{
    path(words, start.cell(), goal.cell(), room, count).number()
}

/// `pathdb_component` as a status.
fn component_of(words: &[u32], cell: Cell, component: &mut u32) -> Status
    requires { LeadsInside words.now }
    ensures { SaysComponent words.now cell component.old component.new result }
{
    match Image::known(words).home_of(cell, End::Start) {
        Ok(home) => {
            *component = home.label;
            Status::Done
        }
        Err(why) => Status::of_refusal(why),
    }
}

/// `pathdb_next_move` as a status.
fn next(words: &[u32], at: Cell, goal: Cell, by: &mut u8) -> Status
    requires { LeadsInside words.now }
    ensures { SaysNext words.now at goal by.old by.new result }
{
    match Image::known(words).next(at, goal) {
        Ok(Next::Go(go)) => {
            *by = go.number();
            Status::Done
        }
        Ok(Next::Arrived) => Status::Arrived,
        Ok(Next::Unreachable) => Status::Unreachable,
        Err(why) => Status::of_refusal(why),
    }
}

/// `pathdb_path_cost` as a status.
pub(crate) fn path_cost(words: &[u32], start: Cell, goal: Cell, cost: &mut PathdbCost) -> Status
    requires { LeadsInside words.now }
    ensures { SaysCost words.now start goal cost.old cost.new result }
{
    match Image::known(words).cost(start, goal) {
        Ok(Some(found)) => {
            *cost = PathdbCost {
                straight: found.straight,
                diagonal: found.diagonal,
            };
            Status::Done
        }
        Ok(None) => Status::Unreachable,
        Err(WalkFault::Broken) => Status::Broken,
        Err(WalkFault::Refused(why)) => Status::of_refusal(why),
    }
}

/// `pathdb_path` as a status.
fn path(words: &[u32], start: Cell, goal: Cell, room: &mut [u8], count: &mut u32) -> Status
    requires { LeadsInside words.now }
    ensures told { SaysPath words.now start goal room.old room.new count.new result }
    ensures inside { result ≡ Status.Done → count.new ≤ length room.old }
{
    *count = 0;
    match Image::known(words).path_into(start, goal, room) {
        Ok(Some(moves)) if moves as usize <= room.len() => {
            *count = moves;
            Status::Done
        }
        Ok(Some(_)) => Status::Broken,
        Ok(None) => Status::Unreachable,
        Err(PathFault::TooSmall { needed }) => {
            *count = needed;
            Status::TooSmall
        }
        Err(PathFault::Unanswered(WalkFault::Broken)) => Status::Broken,
        Err(PathFault::Unanswered(WalkFault::Refused(why))) => Status::of_refusal(why),
    }
}
