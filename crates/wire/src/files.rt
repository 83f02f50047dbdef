//! Files that are read by name.
ghost use Rattle.std.specs.Prelude.{◌≡◌, ◌≤◌, vec_len, IfOk, OnOk, IsErrOf};
ghost use Rattle.wire.specs.Causes.{Rose};
ghost use Rattle.wire.specs.Contents.{AreRead, AtFiles, Tells, TellsAtMost, TellsMoreThan};
ghost use Rattle.wire.specs.declared.files.FileError.TheVariants.{NoMemory};

use std::alloc::{AllocError, Global};
use thiserror::Error;

/// Why a file was not read.
#[derive(Debug, Clone, Copy, PartialEq, Eq, Error)]
pub enum FileError {
    /// The read failed, or there is no such file.
    #[error("the file cannot be read")]
    Failed,
    /// The file has more bytes than the caller allows.
    #[error("the file is too long")]
    TooLong,
    /// Memory for its bytes ran out.
    #[error("no memory for the file")]
    NoMemory,
}

impl From<AllocError> for FileError {
    ghost from_gives = { λ _ error. error ≡ NoMemory };

    fn from(_: AllocError) -> FileError {
        FileError::NoMemory
    }
}

/// Files that are read whole, by name.
pub trait Files {
    /// What is known of them: the bytes that each name holds, if they are told, and the faults.
    ghost at: { Self → AtFiles };

    /// Returns all bytes of a file, at most `limit`.
    fn read_all(&mut self, alloc: Global, name: &str, limit: usize) -> Result<Vec<u8>, FileError>
        // Holds even if no content is told.
        ensures within { IfOk result (λ bytes. vec_len bytes ≤ limit) }

        // If the content is told, Ok returns it, and it is too long exactly if it exceeds the limit.
        ensures bytes { IfOk result (λ bytes. Tells ((at self.old).content name.now) bytes.items) }
        ensures fits { OnOk result (TellsAtMost ((at self.old).content name.now) limit) }
        ensures too_long { IsErrOf result FileError.TooLong
            → TellsMoreThan ((at self.old).content name.now) limit }

        // A fault is counted for this name.
        ensures cause { IsErrOf result FileError.Failed
            → Rose ((at self.old).faults name.now) ((at self.new).faults name.now) }
        ensures read { AreRead (at self.old) (at self.new) };
}
