//! Why a text is refused.

use std::alloc::AllocError;
use std::error::Error;
use std::fmt;

/// Why a text is not a map: the first fault in the order of the file. Lines are numbered from 1; a
/// cell is named by its column `x` and its row `y`, both from 0.
#[derive(Clone, Copy, Debug, PartialEq, Eq)]
pub enum MapFault {
    /// A line of the header has the wrong form or is missing.
    Header {
        line: u32,
    },
    /// A side is not from 1 to 4,096, or the map has more than 1,048,576 cells.
    Size {
        line: u32,
    },
    /// A row does not have as many cells as the map is wide.
    RowLength {
        line: u32,
        expected: u32,
        found: u32,
    },
    /// A byte stands for no cell.
    BadCell {
        x: u16,
        y: u16,
        byte: u8,
    },
    /// The text ends before its last row.
    MissingRows {
        found: u32,
    },
    /// A line after the rows is not blank.
    Extra {
        line: u32,
    },
    /// A passable cell comes after 32,768 others.
    TooManyCells {
        x: u16,
        y: u16,
    },
}

impl fmt::Display for MapFault {
    ghost use Rattle.std.specs.Prelude.{Some};
    ghost use Rattle.map_read.specs.Faults.{fault_text};

    ghost output = { λ fault. Some (fault_text fault) };

    fn fmt<W: fmt::Write>(&self, f: &mut fmt::Formatter<W>) -> fmt::Result {
        match self {
            MapFault::Header { line } => write!(f, "header at line {line}"),
            MapFault::Size { line } => write!(f, "size at line {line}"),
            MapFault::RowLength {
                line,
                expected,
                found,
            } => {
                write!(f, "line {line} has {found} cells")?;
                write!(f, ", not {expected}")
            }
            MapFault::BadCell { x, y, byte } => write!(f, "byte {byte} at {x} {y}"),
            MapFault::MissingRows { found } => write!(f, "{found} rows found"),
            MapFault::Extra { line } => write!(f, "extra line {line}"),
            MapFault::TooManyCells { x, y } => write!(f, "too many cells at {x} {y}"),
        }
    }
}

impl Error for MapFault {}

/// Why a map could not be read.
#[derive(Debug, Drop)]
pub enum MapError {
    /// The text is not a map.
    Fault(MapFault),
    /// Memory ran out.
    NoMemory,
}

impl fmt::Display for MapError {
    ghost use Rattle.std.specs.Prelude.{Some};
    ghost use Rattle.map_read.specs.Faults.{error_text};

    ghost output = { λ error. Some (error_text error) };

    fn fmt<W: fmt::Write>(&self, f: &mut fmt::Formatter<W>) -> fmt::Result {
        match self {
            MapError::Fault(fault) => write!(f, "{fault}"),
            MapError::NoMemory => write!(f, "out of memory"),
        }
    }
}

impl Error for MapError {}

impl From<AllocError> for MapError {
    ghost use Rattle.std.specs.Prelude.{◌≡◌};
    ghost use Rattle.map_read.specs.declared.fault.MapError.TheVariants.{NoMemory};

    ghost from_gives = { λ _ e. e ≡ NoMemory };

    fn from(_e: AllocError) -> MapError {
        MapError::NoMemory
    }
}

impl From<MapFault> for MapError {
    ghost use Rattle.std.specs.Prelude.{◌≡◌};
    ghost use Rattle.map_read.specs.declared.fault.MapError.TheVariants.{Fault};

    ghost from_gives = { λ fault e. e ≡ Fault fault };

    fn from(fault: MapFault) -> MapError {
        MapError::Fault(fault)
    }
}
