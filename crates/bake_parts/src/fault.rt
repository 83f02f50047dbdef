//! Why nothing was baked.

use std::alloc::AllocError;
use std::error::Error;
use std::fmt;

/// Why no part was written.
#[derive(Clone, Copy, Debug, PartialEq, Eq)]
pub enum PartFault {
    /// The map has no such sources.
    NoSources,
    /// The room has too few words.
    TooSmall {
        /// How many the part has.
        needed: usize,
    },
    /// Memory ran out.
    NoMemory,
}

impl fmt::Display for PartFault {
    ghost use Rattle.std.specs.Prelude.{Some};
    ghost use Rattle.bake_parts.specs.Faults.{part_fault_text};

    ghost output = { λ fault. Some (part_fault_text fault) };

    fn fmt<W: fmt::Write>(&self, f: &mut fmt::Formatter<W>) -> fmt::Result {
        match self {
            PartFault::NoSources => write!(f, "no such sources"),
            PartFault::TooSmall { needed } => write!(f, "room for too few words of {needed}"),
            PartFault::NoMemory => write!(f, "out of memory"),
        }
    }
}

impl Error for PartFault {}

impl From<AllocError> for PartFault {
    ghost use Rattle.std.specs.Prelude.{◌≡◌};
    ghost use Rattle.bake_parts.specs.declared.fault.PartFault.TheVariants.{NoMemory};

    ghost from_gives = { λ _ fault. fault ≡ NoMemory };

    fn from(_: AllocError) -> PartFault {
        PartFault::NoMemory
    }
}

/// Why no image was joined.
#[derive(Clone, Copy, Debug, PartialEq, Eq)]
pub enum JoinFault {
    /// A part isn't the one that is next, or ends too early.
    Broken {
        /// How many parts began before it.
        part: u32,
    },
    /// The room has too few words.
    TooSmall {
        /// How many the image has.
        needed: usize,
    },
}

impl fmt::Display for JoinFault {
    ghost use Rattle.std.specs.Prelude.{Some};
    ghost use Rattle.bake_parts.specs.Joins.{join_fault_text};

    ghost output = { λ fault. Some (join_fault_text fault) };

    fn fmt<W: fmt::Write>(&self, f: &mut fmt::Formatter<W>) -> fmt::Result {
        match self {
            JoinFault::Broken { part } => write!(f, "broken part {part}"),
            JoinFault::TooSmall { needed } => write!(f, "room for too few words of {needed}"),
        }
    }
}

impl Error for JoinFault {}

/// That a part isn't the one that is next, or ends too early.
#[derive(Clone, Copy, Debug, PartialEq, Eq)]
pub(crate) struct BrokenPart {
    /// How many parts began before it.
    pub part: u32,
}

impl From<BrokenPart> for JoinFault {
    ghost use Rattle.std.specs.Prelude.{◌≡◌};
    ghost use Rattle.bake_parts.specs.declared.fault.JoinFault.TheVariants.{Broken};

    ghost from_gives = { λ broken fault. fault ≡ Broken broken.part };

    fn from(broken: BrokenPart) -> JoinFault {
        JoinFault::Broken { part: broken.part }
    }
}
