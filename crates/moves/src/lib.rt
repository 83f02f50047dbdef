//! Grid maps, and the moves between their cells: eight directions, without cutting corners.
//! (MovingAI map format page and scenario format page.)
//!
//! The legal moves at the lower right cell of a map whose upper left cell is blocked, as a case
//! gives them:
//!
//! ```text
//! legal moves | @./.. | 1 1
//! legal 01000001, kept 01000001, N to 1 0 W to 0 1
//! ```
#![tactic(auto)]

ghost use Rattle.std.specs.Prelude.{◌≡◌, ℕ, ◌<◌, ◌≤◌, ◌↔◌, IsTrue, MatchOption};
ghost use Rattle.moves.specs.Maps.{is_passable, land_if, place_of};
ghost use Rattle.moves.specs.Moves.{IsTarget, number_of, is_diagonal};

pub mod bounds;
pub mod grid;
mod landscape;
pub mod laws;
pub mod move_set;

pub use bounds::Bounds;
pub use grid::Grid;
pub use laws::{cost_tables_are_least, first_moves_are_local, sets_are_their_moves};
pub use move_set::MoveSet;
use std::fmt;

/// The most columns, and the most rows, of a map.
pub const MAX_SIDE: u32 = 4096;

/// The most cells of a map, passable and blocked.
pub const MAX_CELLS: u32 = 1_048_576;

/// The most passable cells of a map that can be searched.
pub const MAX_PASSABLE: u32 = 32_768;

/// A cell by its column and row. (0, 0) is the upper left cell; x grows to the right and y
/// downwards. (MovingAI map format page.)
#[derive(Clone, Copy, Debug, Default, PartialEq, Eq)]
pub struct Cell {
    /// The column, from 0.
    pub x: u16,
    /// The row, from 0.
    pub y: u16,
}

impl Cell {
    /// Returns the cell that the move leads to.
    #[inline]
    pub fn target(self, by: Move) -> Cell
        requires column { self.x < MAX_SIDE }
        requires row { self.y < MAX_SIDE }
        requires some { (to : Cell) × IsTarget self by to }
        ensures { IsTarget self by result }
    {
        // Each is one more than what the move adds, so that no intermediate number is below zero.
        let right = match by {
            Move::SW | Move::W | Move::NW => 0,
            Move::N | Move::S => 1,
            Move::NE | Move::E | Move::SE => 2,
        };
        let down = match by {
            Move::N | Move::NE | Move::NW => 0,
            Move::E | Move::W => 1,
            Move::SE | Move::S | Move::SW => 2,
        };
        Cell {
            x: self.x + right - 1,
            y: self.y + down - 1,
        }
    }
}

/// The terrain of a cell. Land and water are passable, and no move leads from one to the other.
/// (MovingAI map format page.)
#[derive(Clone, Copy, Debug, Default, PartialEq, Eq)]
pub enum Terrain {
    /// No move enters or leaves the cell.
    #[default]
    Blocked,
    /// Moves lead to and from land.
    Land,
    /// Moves lead to and from water.
    Water,
}

impl Terrain {
    /// Returns whether it is land or water.
    #[inline]
    pub fn is_passable(self) -> bool
        ensures { result ≡ is_passable self }
    {
        !matches!(self, Terrain::Blocked)
    }

    /// Returns land for `true` and blocked for `false`.
    #[inline]
    pub fn land_if(passable: bool) -> Terrain
        ensures { result ≡ land_if passable }
    {
        if passable {
            Terrain::Land
        } else {
            Terrain::Blocked
        }
    }
}

/// One of the eight moves, numbered clockwise from north: N 0, NE 1, E 2, SE 3, S 4, SW 5, W 6, NW 7.
#[derive(Clone, Copy, Debug, Default, PartialEq, Eq)]
pub enum Move {
    /// One row up.
    #[default]
    N,
    /// One row up and one column to the right.
    NE,
    /// One column to the right.
    E,
    /// One row down and one column to the right.
    SE,
    /// One row down.
    S,
    /// One row down and one column to the left.
    SW,
    /// One column to the left.
    W,
    /// One row up and one column to the left.
    NW,
}

impl Move {
    /// The eight moves in the order of their numbers.
    pub const ALL: [Move; 8] = [
        Move::N,
        Move::NE,
        Move::E,
        Move::SE,
        Move::S,
        Move::SW,
        Move::W,
        Move::NW,
    ];

    /// Returns the move's number, from 0 to 7.
    pub fn number(self) -> u8
        ensures number { result ≡ number_of self }
        ensures limit { result < 8 }
    {
        self as u8
    }

    /// Returns the move with that number, and `None` exactly when the number is above 7.
    pub fn of(number: u8) -> Option<Move>
        ensures { MatchOption result (7 < number) (λ move. number_of move ≡ number) }
    {
        match number {
            0 => Some(Move::N),
            1 => Some(Move::NE),
            2 => Some(Move::E),
            3 => Some(Move::SE),
            4 => Some(Move::S),
            5 => Some(Move::SW),
            6 => Some(Move::W),
            7 => Some(Move::NW),
            _ => None,
        }
    }

    /// Returns whether the move is diagonal: the odd ones are.
    pub fn is_diagonal(self) -> bool
        ensures { result ≡ is_diagonal self }
    {
        matches!(self, Move::NE | Move::SE | Move::SW | Move::NW)
    }
}

/// Returns the move's name: N, NE, E, SE, S, SW, W or NW.
impl fmt::Display for Move {
    ghost use Rattle.std.specs.Prelude.{Some};
    ghost use Rattle.moves.specs.Moves.{move_name};

    ghost output = { λ move. Some (move_name move) };

    fn fmt<W: fmt::Write>(&self, f: &mut fmt::Formatter<W>) -> fmt::Result {
        match self {
            Move::N => write!(f, "N"),
            Move::NE => write!(f, "NE"),
            Move::E => write!(f, "E"),
            Move::SE => write!(f, "SE"),
            Move::S => write!(f, "S"),
            Move::SW => write!(f, "SW"),
            Move::W => write!(f, "W"),
            Move::NW => write!(f, "NW"),
        }
    }
}

/// Returns the place of a cell in a list that goes row by row, `width` cells to a row.
pub fn place(width: u32, cell: Cell) -> usize
    ensures { result ≡ place_of width cell }
{
    usize::from(cell.y) * width as usize + usize::from(cell.x)
}
