//! Why a board refuses what it is given.

use edit_log::EditRefusal;
use std::alloc::AllocError;

/// Why an edit is not entered.
#[derive(Clone, Copy, Debug, PartialEq, Eq)]
pub enum SubmitError {
    /// The edit may not be accepted on the board's map.
    Refused(EditRefusal),
    /// Memory ran out.
    NoMemory,
}

impl From<EditRefusal> for SubmitError {
    ghost use Rattle.std.specs.Prelude.{◌≡◌};
    ghost use Rattle.path_core.specs.declared.error.SubmitError.TheVariants.{Refused};

    ghost from_gives = { λ refusal error. error ≡ Refused refusal };

    fn from(refusal: EditRefusal) -> SubmitError {
        SubmitError::Refused(refusal)
    }
}

impl From<AllocError> for SubmitError {
    ghost use Rattle.std.specs.Prelude.{◌≡◌};
    ghost use Rattle.path_core.specs.declared.error.SubmitError.TheVariants.{NoMemory};

    ghost from_gives = { λ _ error. error ≡ NoMemory };

    fn from(_: AllocError) -> SubmitError {
        SubmitError::NoMemory
    }
}

/// Why a version is not published.
#[derive(Clone, Copy, Debug, PartialEq, Eq)]
pub enum PublishError {
    /// The published version includes as many edits or more.
    Overtaken {
        /// How many edits the published version includes, at most 1,048,576.
        by: u32,
    },
    /// Memory ran out.
    NoMemory,
}

impl From<AllocError> for PublishError {
    ghost use Rattle.std.specs.Prelude.{◌≡◌};
    ghost use Rattle.path_core.specs.declared.error.PublishError.TheVariants.{NoMemory};

    ghost from_gives = { λ _ error. error ≡ NoMemory };

    fn from(_: AllocError) -> PublishError {
        PublishError::NoMemory
    }
}
