//! The terrain of a file's map: a byte for each cell, row by row.

ghost use Rattle.std.specs.Prelude.{◌≡◌, ◌+◌, ◌*◌, ◌≤◌, ◌<◌, ◌++◌, cond, length, IfErr, IfOk, OnOk, IfSome, IfNone};
ghost use Rattle.moves.specs.Maps.{is_passable};
ghost use Rattle.path_file.specs.Files.{head_bytes, ground_bytes, terrain_byte};
ghost use Rattle.path_file.specs.Fields.{IsHead, free_in, map_from};
ghost use Rattle.path_file.specs.Faults.{IsFirstDbFault, IsRefusal};
ghost use Rattle.path_file.specs.Readings.{IsBadByte, front};

use crate::fault::{DbError, DbFault};
use crate::head::Head;
use crate::reader::Reader;
use moves::{Grid, MAX_PASSABLE, Terrain};
use std::alloc::Global;

/// Reads the terrain, behind a head: the map.
pub(crate) fn read_ground(alloc: Global, reader: &mut Reader, head: Head) -> Result<Grid, DbError>
    requires head { IsHead head }
    requires front { front reader.old ≡ head_bytes head }
    ensures same { OnOk result (reader.new.bytes ≡ reader.old.bytes) }
    ensures front { IfOk result (λ grid.
        front reader.new ≡ head_bytes head ++ ground_bytes grid.terrain) }
    ensures map { IfOk result (λ grid. grid ≡ map_from head grid.terrain) }
    ensures whole { IfOk result (λ grid. length grid.terrain ≡ grid.width * grid.height) }
    ensures few { IfOk result (λ grid. free_in grid.terrain ≤ MAX_PASSABLE) }
    ensures fault { IfErr result (IsRefusal reader.old.bytes) }
{
    let mut cells = vec![in alloc; Terrain::Blocked; (head.width * head.height) as usize]?;
    read_cells(reader, head, &mut cells)?;
    Ok(Grid::of_terrain(alloc, head.width, head.height, cells)?)
}

/// Reads the terrain of all cells.
fn read_cells(reader: &mut Reader, head: Head, cells: &mut [Terrain]) -> Result<(), DbFault>
    requires head { IsHead head }
    requires whole { length cells.old ≡ head.width * head.height }
    requires front { front reader.old ≡ head_bytes head }
    ensures same { OnOk result (reader.new.bytes ≡ reader.old.bytes) }
    ensures front { OnOk result (front reader.new ≡ head_bytes head ++ ground_bytes cells.new) }
    ensures few { OnOk result (free_in cells.new ≤ MAX_PASSABLE) }
    ensures fault { IfErr result (IsFirstDbFault reader.old.bytes) }
{
    let mut free = 0;
    for place in 0..cells.len() {
        let byte = reader.byte()?;
        let terrain = terrain_at(byte, place as u32, free)?;
        cells[place] = terrain;
        free += u32::from(terrain.is_passable());
    }
    Ok(())
}

/// What stands at a cell, where `free` cells before it are passable.
fn terrain_at(byte: u8, place: u32, free: u32) -> Result<Terrain, DbFault>
    requires { free ≤ MAX_PASSABLE }
    ensures terrain { IfOk result (λ terrain. terrain_byte terrain ≡ byte) }
    ensures few { IfOk result (λ terrain. free + cond (is_passable terrain) 1 0 ≤ MAX_PASSABLE) }
    ensures fault { IfErr result (IsBadByte byte place free) }
{
    let Some(terrain) = terrain_for(byte) else {
        return Err(DbFault::Terrain { place, byte });
    };
    if terrain.is_passable() && free >= MAX_PASSABLE {
        return Err(DbFault::TooManyCells { place });
    }
    Ok(terrain)
}

/// What a byte stands for.
fn terrain_for(byte: u8) -> Option<Terrain>
    ensures some { IfSome result (λ terrain. terrain_byte terrain ≡ byte) }
    ensures none { IfNone result (2 < byte) }
{
    match byte {
        0 => Some(Terrain::Blocked),
        1 => Some(Terrain::Land),
        2 => Some(Terrain::Water),
        _ => None,
    }
}
