//! Why a file is refused.

use std::alloc::AllocError;
use std::error::Error;
use std::fmt;

/// Why bytes are not the file of a version. Components are told by their numbers, and targets and sources by their places
/// among the cells of the component, all from 0.
#[derive(Clone, Copy, Debug, PartialEq, Eq)]
pub enum DbFault {
    /// The first eight bytes are not `PATHDB01`.
    Magic,
    /// A side is not from 1 to 4,096, or the map has more than 1,048,576 cells.
    Size,
    /// The byte of the order is neither 0 nor 1.
    Kind {
        /// The byte.
        byte: u8,
    },
    /// The byte of a cell is that of no terrain.
    Terrain {
        /// The place of the cell, row by row and from 0.
        place: u32,
        /// The byte.
        byte: u8,
    },
    /// A passable cell beyond the 32,768th.
    TooManyCells {
        /// The place of the cell, row by row and from 0.
        place: u32,
    },
    /// The bytes end inside a field.
    Cut {
        /// How many bytes there are.
        have: u32,
    },
    /// The number of runs of a row is 0 or above that of the cells, or the starts of its runs do not rise from 0 to below
    /// the number of the cells.
    Runs {
        /// The component.
        comp: u32,
        /// The source of the row.
        source: u32,
    },
    /// Bytes follow the last row.
    Extra {
        /// How many bytes stand before them.
        from: u32,
    },
    /// The moves of the rows do not lead from the source to the target.
    Walk {
        /// The component.
        comp: u32,
        /// The target.
        target: u32,
        /// The source.
        source: u32,
    },
    /// A legal move and the walk from where it leads cost less than the walk from the source to the target.
    Worse {
        /// The component.
        comp: u32,
        /// The target.
        target: u32,
        /// The source.
        source: u32,
    },
    /// The row of the source has more runs than it needs, or not the least moves, which shows at the target.
    Loose {
        /// The component.
        comp: u32,
        /// The target.
        target: u32,
        /// The source.
        source: u32,
    },
}

impl fmt::Display for DbFault {
    ghost use Rattle.std.specs.Prelude.{Some};
    ghost use Rattle.path_file.specs.Texts.{fault_text};

    ghost output = { λ fault. Some (fault_text fault) };

    fn fmt<W: fmt::Write>(&self, f: &mut fmt::Formatter<W>) -> fmt::Result {
        match self {
            DbFault::Magic => write!(f, "magic"),
            DbFault::Size => write!(f, "size"),
            DbFault::Kind { byte } => write!(f, "kind {byte}"),
            DbFault::Terrain { place, byte } => write!(f, "terrain {byte} at {place}"),
            DbFault::TooManyCells { place } => write!(f, "too many cells at {place}"),
            DbFault::Cut { have } => write!(f, "cut at {have}"),
            DbFault::Runs { comp, source } => write!(f, "runs {comp} {source}"),
            DbFault::Extra { from } => write!(f, "extra at {from}"),
            DbFault::Walk {
                comp,
                target,
                source,
            } => write!(f, "walk {comp} {target} {source}"),
            DbFault::Worse {
                comp,
                target,
                source,
            } => write!(f, "worse {comp} {target} {source}"),
            DbFault::Loose {
                comp,
                target,
                source,
            } => write!(f, "loose {comp} {target} {source}"),
        }
    }
}

impl Error for DbFault {}

/// Why a file could not be read.
#[derive(Debug, Drop)]
pub enum DbError {
    /// The bytes are not the file of a version.
    Fault(DbFault),
    /// Memory ran out.
    NoMemory,
}

impl fmt::Display for DbError {
    ghost use Rattle.std.specs.Prelude.{Some};
    ghost use Rattle.path_file.specs.Texts.{error_text};

    ghost output = { λ error. Some (error_text error) };

    fn fmt<W: fmt::Write>(&self, f: &mut fmt::Formatter<W>) -> fmt::Result {
        match self {
            DbError::Fault(fault) => write!(f, "{fault}"),
            DbError::NoMemory => write!(f, "out of memory"),
        }
    }
}

impl Error for DbError {}

impl From<AllocError> for DbError {
    ghost use Rattle.std.specs.Prelude.{◌≡◌};
    ghost use Rattle.path_file.specs.declared.fault.DbError.TheVariants.{NoMemory};

    ghost from_gives = { λ _ e. e ≡ NoMemory };

    fn from(_e: AllocError) -> DbError {
        DbError::NoMemory
    }
}

impl From<DbFault> for DbError {
    ghost use Rattle.std.specs.Prelude.{◌≡◌};
    ghost use Rattle.path_file.specs.declared.fault.DbError.TheVariants.{Fault};

    ghost from_gives = { λ fault e. e ≡ Fault fault };

    fn from(fault: DbFault) -> DbError {
        DbError::Fault(fault)
    }
}
