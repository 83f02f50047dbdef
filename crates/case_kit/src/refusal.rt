//! Why a line has no answer.

use std::alloc::AllocError;

/// Why a line has no answer.
#[derive(Clone, Copy, Debug, Drop)]
pub enum Refusal {
    /// The line is not in the form of its kind.
    OutOfForm,
    /// There was not enough memory.
    NoMemory,
}

impl From<AllocError> for Refusal {
    fn from(_: AllocError) -> Refusal {
        Refusal::NoMemory
    }
}
