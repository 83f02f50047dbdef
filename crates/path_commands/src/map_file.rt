//! The map in a file.
ghost use Rattle.std.specs.Prelude.{◌≤◌, IfErr, IfOk};
ghost use Rattle.moves.specs.Maps.{IsSearchable};
ghost use Rattle.wire.specs.Contents.{AreRead};
ghost use Rattle.path_commands.specs.Runs.{HoldsMap, IsMapFileCause, file_over};

use crate::file::read_file;
use crate::status::Status;
use map_read::{MAX_MAP_BYTES, MapError, read_map};
use moves::Grid;
use std::alloc::Global;
use wire::Files;

/// Returns the map in the file of that name.
pub fn read_grid<F: Files>(alloc: Global, files: &mut F, name: &str) -> Result<Grid, Status>
    ensures grid { IfOk result
        (HoldsMap (file_over (F.at files.old) (F.at files.new) name.now)) }
    ensures small { IfOk result IsSearchable }
    ensures read { AreRead (F.at files.old) (F.at files.new) }
    ensures refused { IfErr result
        (IsMapFileCause (file_over (F.at files.old) (F.at files.new) name.now)) }
{
    let bytes = read_file(alloc, files, name, MAX_MAP_BYTES)?;
    match read_map(alloc, bytes.as_slice()) {
        Ok(grid) => Ok(grid),
        Err(MapError::Fault(fault)) => Err(Status::Map(fault)),
        Err(MapError::NoMemory) => Err(Status::NoMemory),
    }
}
