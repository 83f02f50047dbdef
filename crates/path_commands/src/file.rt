//! The bytes of a file that the words name.
ghost use Rattle.std.specs.Prelude.{◌<◌, ◌≤◌, ◌^◌, IfErr, IfOk, vec_len};
ghost use Rattle.wire.specs.Contents.{AreRead};
ghost use Rattle.path_commands.specs.Runs.{HoldsBytes, IsFileCause, file_over};

use crate::status::Status;
use std::alloc::Global;
use wire::{FileError, Files};

/// Returns the bytes of the file of that name, at most `limit` of them.
pub fn read_file<F: Files>(
    alloc: Global,
    files: &mut F,
    name: &str,
    limit: usize,
) -> Result<Vec<u8>, Status>
    requires { limit < 2 ^ 32 }
    ensures within { IfOk result (λ bytes. vec_len bytes ≤ limit) }
    ensures bytes { IfOk result (λ bytes. HoldsBytes
        (file_over (F.at files.old) (F.at files.new) name.now) limit bytes.items) }
    ensures read { AreRead (F.at files.old) (F.at files.new) }
    ensures refused { IfErr result
        (IsFileCause (file_over (F.at files.old) (F.at files.new) name.now) limit) }
{
    match files.read_all(alloc, name, limit) {
        Ok(bytes) => Ok(bytes),
        Err(FileError::Failed) => Err(Status::ReadFault),
        Err(FileError::TooLong) => Err(Status::TooLong {
            limit: limit as u32,
        }),
        Err(FileError::NoMemory) => Err(Status::NoMemory),
    }
}
