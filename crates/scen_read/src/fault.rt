//! Why a text is refused.

use std::alloc::AllocError;
use std::error::Error;
use std::fmt;

/// Why a text is no list of scenarios: the first refusal in the order of the file. Lines and fields are numbered
/// from 1.
#[derive(Clone, Copy, Debug, PartialEq, Eq)]
pub enum ScenFault {
    /// The first line does not say version 1, or is not there.
    Version,
    /// A line has `found` fields, and not nine.
    Fields { line: u32, found: u32 },
    /// A field is no number, or one out of its range.
    Number { line: u32, field: u32 },
}

impl fmt::Display for ScenFault {
    ghost use Rattle.std.specs.Prelude.{Some};
    ghost use Rattle.scen_read.specs.Faults.{fault_text};

    ghost output = { λ fault. Some (fault_text fault) };

    fn fmt<W: fmt::Write>(&self, f: &mut fmt::Formatter<W>) -> fmt::Result {
        match self {
            ScenFault::Version => write!(f, "version"),
            ScenFault::Fields { line, found } => write!(f, "line {line} has {found} fields"),
            ScenFault::Number { line, field } => write!(f, "line {line} field {field}"),
        }
    }
}

impl Error for ScenFault {}

/// Why scenarios could not be read.
#[derive(Debug, Drop)]
pub enum ScenError {
    /// The text is no list of scenarios.
    Fault(ScenFault),
    /// Memory ran out.
    NoMemory,
}

impl fmt::Display for ScenError {
    ghost use Rattle.std.specs.Prelude.{Some};
    ghost use Rattle.scen_read.specs.Faults.{error_text};

    ghost output = { λ error. Some (error_text error) };

    fn fmt<W: fmt::Write>(&self, f: &mut fmt::Formatter<W>) -> fmt::Result {
        match self {
            ScenError::Fault(fault) => write!(f, "{fault}"),
            ScenError::NoMemory => write!(f, "out of memory"),
        }
    }
}

impl Error for ScenError {}

impl From<AllocError> for ScenError {
    ghost use Rattle.std.specs.Prelude.{◌≡◌};
    ghost use Rattle.scen_read.specs.declared.fault.ScenError.TheVariants.{NoMemory};

    ghost from_gives = { λ _ e. e ≡ NoMemory };

    fn from(_e: AllocError) -> ScenError {
        ScenError::NoMemory
    }
}

impl From<ScenFault> for ScenError {
    ghost use Rattle.std.specs.Prelude.{◌≡◌};
    ghost use Rattle.scen_read.specs.declared.fault.ScenError.TheVariants.{Fault};

    ghost from_gives = { λ fault e. e ≡ Fault fault };

    fn from(fault: ScenFault) -> ScenError {
        ScenError::Fault(fault)
    }
}
