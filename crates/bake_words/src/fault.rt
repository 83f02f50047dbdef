//! Why nothing was baked.

use std::alloc::AllocError;
use std::error::Error;
use std::fmt;

/// Why an image was not baked.
#[derive(Clone, Copy, Debug, PartialEq, Eq)]
pub enum BakeFault {
    /// The room has too few words.
    TooSmall {
        /// How many the image has.
        needed: u32,
    },
    /// Memory ran out.
    NoMemory,
}

impl fmt::Display for BakeFault {
    ghost use Rattle.std.specs.Prelude.{Some};
    ghost use Rattle.bake_words.specs.Faults.{bake_text};

    ghost output = { λ fault. Some (bake_text fault) };

    fn fmt<W: fmt::Write>(&self, f: &mut fmt::Formatter<W>) -> fmt::Result {
        match self {
            BakeFault::TooSmall { needed } => write!(f, "room for too few words of {needed}"),
            BakeFault::NoMemory => write!(f, "out of memory"),
        }
    }
}

impl Error for BakeFault {}

impl From<AllocError> for BakeFault {
    ghost use Rattle.std.specs.Prelude.{◌≡◌};
    ghost use Rattle.bake_words.specs.declared.fault.BakeFault.TheVariants.{NoMemory};

    ghost from_gives = { λ _ fault. fault ≡ NoMemory };

    fn from(_: AllocError) -> BakeFault {
        BakeFault::NoMemory
    }
}

/// Why bytes are no cells of a map: the first that applies.
#[derive(Clone, Copy, Debug, PartialEq, Eq)]
pub enum CellsFault {
    /// A side is not from 1 to 4,096, or there are more than 1,048,576 cells.
    Sides,
    /// There are more bytes or fewer than the sides say.
    Count,
    /// A byte stands for no cell.
    BadByte {
        /// The place of its cell, row by row from 0.
        place: u32,
    },
    /// More than 32,768 cells are passable.
    TooManyCells,
    /// Memory ran out.
    NoMemory,
}

impl fmt::Display for CellsFault {
    ghost use Rattle.std.specs.Prelude.{Some};
    ghost use Rattle.bake_words.specs.Faults.{cells_text};

    ghost output = { λ fault. Some (cells_text fault) };

    fn fmt<W: fmt::Write>(&self, f: &mut fmt::Formatter<W>) -> fmt::Result {
        match self {
            CellsFault::Sides => write!(f, "sides that no map may have"),
            CellsFault::Count => write!(f, "more cells or fewer than the sides say"),
            CellsFault::BadByte { place } => write!(
                f,
                "byte that stands for no cell at place {place}"
            ),
            CellsFault::TooManyCells => write!(f, "too many passable cells"),
            CellsFault::NoMemory => write!(f, "out of memory"),
        }
    }
}

impl Error for CellsFault {}

impl From<AllocError> for CellsFault {
    ghost use Rattle.std.specs.Prelude.{◌≡◌};
    ghost use Rattle.bake_words.specs.declared.fault.CellsFault.TheVariants.{NoMemory};

    ghost from_gives = { λ _ fault. fault ≡ NoMemory };

    fn from(_: AllocError) -> CellsFault {
        CellsFault::NoMemory
    }
}
