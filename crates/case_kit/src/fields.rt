//! The fields of a line.

ghost use Rattle.std.specs.Prelude.{IfOk};
ghost use Rattle.moves.specs.Maps.{IsSearchable};

use crate::bytes::{bytes_of, unescaped};
use crate::maps::grid_of;
use crate::refusal::Refusal;
use cell_order::OrderKind;
use moves::{Cell, Grid, Terrain};
use std::alloc::{AllocError, Global};

/// The fields of a line, which ` | ` separates, read one after the other.
///
/// A list has blanks between its items. A number that stands N times is `NxNUMBER`, and an empty list, empty bytes and
/// an empty text are `-`.
#[derive(Clone, Copy, Debug)]
pub struct Fields<'a> {
    rest: Option<&'a str>,
}

impl<'a> Fields<'a> {
    /// The fields of a line.
    pub fn of(line: &'a str) -> Fields<'a> {
        Fields { rest: Some(line) }
    }

    /// The next field, as it stands.
    pub fn text(&mut self) -> Result<&'a str, Refusal> {
        let Some(rest) = self.rest else {
            return Err(Refusal::OutOfForm);
        };
        let (field, rest) = match rest.split_once(" | ") {
            Some((field, rest)) => (field, Some(rest)),
            None => (rest, None),
        };
        self.rest = rest;
        Ok(field)
    }

    /// All that is left, which may have further fields; empty where nothing is.
    pub fn rest(&mut self) -> &'a str {
        self.rest.take().unwrap_or("")
    }

    /// Whether no field is left.
    pub fn is_done(&self) -> bool {
        self.rest.is_none()
    }

    /// A number.
    pub fn number(&mut self) -> Result<u32, Refusal> {
        self.text()?.parse().map_err(|_| Refusal::OutOfForm)
    }

    /// Numbers: `3 1 1`, or `3 2x1` for the same.
    pub fn numbers(&mut self, alloc: Global) -> Result<Vec<u32>, Refusal> {
        numbers_in(alloc, self.text()?)
    }

    /// A cell: its column and its row, as `3 4`.
    pub fn cell(&mut self) -> Result<Cell, Refusal> {
        cell_in(self.text()?)
    }

    /// Cells, as `3 4, 5 6`.
    pub fn cells(&mut self, alloc: Global) -> Result<Vec<Cell>, Refusal> {
        let mut cells = Vec::new(alloc);
        let field = self.text()?;
        if field != "-" {
            for part in field.split(", ") {
                cells.push(cell_in(part)?).map_err(AllocError::from)?;
            }
        }
        Ok(cells)
    }

    /// A map (`grid_of`).
    pub fn grid(&mut self, alloc: Global) -> Result<Grid, Refusal>
        ensures { IfOk result IsSearchable }
    {
        grid_of(alloc, self.text()?)
    }

    /// The order `rows` or `dfs`.
    pub fn order(&mut self) -> Result<OrderKind, Refusal> {
        order_in(self.text()?)
    }

    /// Bytes: pieces with ` + ` between them. A piece is pairs of hexadecimal digits or `'text'`, and `3 x 00 01` is a
    /// piece that stands three times.
    pub fn bytes(&mut self, alloc: Global) -> Result<Vec<u8>, Refusal> {
        let mut bytes = Vec::new(alloc);
        let field = self.text()?;
        if field != "-" {
            for piece in field.split(" + ") {
                push_piece(alloc, &mut bytes, piece)?;
            }
        }
        Ok(bytes)
    }
}

/// The cell with the column and the row that a text has, as `3 4`.
pub fn cell_in(text: &str) -> Result<Cell, Refusal> {
    let Some((x, y)) = text.split_once(' ') else {
        return Err(Refusal::OutOfForm);
    };
    match (x.parse(), y.parse()) {
        (Ok(x), Ok(y)) => Ok(Cell { x, y }),
        _ => Err(Refusal::OutOfForm),
    }
}

/// The numbers that a text has, as `3 1 1`, or `3 2x1` for the same.
pub fn numbers_in(alloc: Global, text: &str) -> Result<Vec<u32>, Refusal> {
    let mut numbers = Vec::new(alloc);
    if text != "-" {
        for word in text.split_whitespace() {
            let (times, number) = word.split_once('x').unwrap_or(("1", word));
            match (times.parse(), number.parse()) {
                (Ok(times), Ok(number)) => push_times(&mut numbers, number, times)?,
                _ => return Err(Refusal::OutOfForm),
            }
        }
    }
    Ok(numbers)
}

/// Adds the number that often.
fn push_times(numbers: &mut Vec<u32>, number: u32, times: u32) -> Result<(), AllocError> {
    for _ in 0..times {
        numbers.push(number)?;
    }
    Ok(())
}

/// The order of that name.
pub fn order_in(name: &str) -> Result<OrderKind, Refusal> {
    match name {
        "rows" => Ok(OrderKind::Rows),
        "dfs" => Ok(OrderKind::Dfs),
        _ => Err(Refusal::OutOfForm),
    }
}

/// What a word names: `blocked`, `land` or `water`.
pub fn terrain_in(word: &str) -> Result<Terrain, Refusal> {
    match word {
        "blocked" => Ok(Terrain::Blocked),
        "land" => Ok(Terrain::Land),
        "water" => Ok(Terrain::Water),
        _ => Err(Refusal::OutOfForm),
    }
}

/// Adds the bytes of a piece.
fn push_piece(alloc: Global, bytes: &mut Vec<u8>, piece: &str) -> Result<(), Refusal> {
    let (times, one) = piece.split_once(" x ").unwrap_or(("1", piece));
    let times: u32 = times.parse().map_err(|_| Refusal::OutOfForm)?;
    let one = bytes_of_piece(alloc, one)?;
    for _ in 0..times {
        bytes.extend_from_slice(&one)?;
    }
    Ok(())
}

/// The bytes that a piece stands for once.
fn bytes_of_piece(alloc: Global, piece: &str) -> Result<Vec<u8>, Refusal> {
    match piece.strip_prefix('\'') {
        None => bytes_of(alloc, piece),
        Some(rest) => match rest.strip_suffix('\'') {
            Some(text) => Ok(unescaped(alloc, text)?),
            None => Err(Refusal::OutOfForm),
        },
    }
}
