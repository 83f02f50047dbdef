//! The rows: one line for each row, one byte for each cell.

ghost use Rattle.std.specs.Prelude.{◌≡◌, ◌+◌, ◌*◌, ◌-◌, ◌<◌, ◌≤◌, ◌^◌, Bool, List, [], ◌∷◌, ℕ, take, drop, length, Some, None, Ok, Err, MatchResult, OnOk, IfOk, true, false};
ghost use Rattle.moves.specs.Maps.{IsWithinLimits};
ghost use Rattle.text_lines.specs.Words.{is_blank};
ghost use Rattle.map_read.specs.MapText.{cell_of, terrain_for, free_in, cells_in, row_in, rows_in, extra_in};

use crate::fault::MapFault;
use crate::header::Sides;
use crate::{MAX_MAP_BYTES, MapLines};
use moves::{MAX_PASSABLE, MAX_SIDE, Terrain};
use text_lines::{is_blank, without_gaps_at_end};

/// Reads the rows into the cells, row by row, or returns the first fault.
pub fn read_rows(lines: &mut MapLines, sides: Sides, cells: &mut [Terrain]) -> Result<(), MapFault>
    requires limits { IsWithinLimits sides.width sides.height }
    requires whole { length cells.old ≡ sides.width * sides.height }
    ensures cells { MatchResult result
        (λ _. rows_in sides.width 0 sides.height [] lines.old ≡ Ok cells.new)
        (λ fault. rows_in sides.width 0 sides.height [] lines.old ≡ Err fault) }
    ensures rest { OnOk result (lines.new ≡ drop sides.height lines.old) }
    ensures limit { OnOk result (free_in cells.new ≤ MAX_PASSABLE) }
{
    let mut free = 0;
    for y in 0..sides.height as u16 {
        let Some(line) = lines.next() else {
            return Err(MapFault::MissingRows {
                found: u32::from(y),
            });
        };
        let row = row_in(line, sides.width, u32::from(y))?;
        free = read_cells(row, y, free, cells)?;
    }
    Ok(())
}

/// Returns the bytes of row `y`: the line without the spaces and tabs at its end, which must be as
/// long as the map is wide.
#[tactic(auto, unfolding(crate::specs::MapText::row_in))]
fn row_in(line: &[u8], width: u32, y: u32) -> Result<&[u8], MapFault>
    requires line { length line.now ≤ MAX_MAP_BYTES }
    requires row { y < MAX_SIDE }
    ensures row { MatchResult result
        (λ row. row_in width y line.now ≡ Ok row.now)
        (λ fault. row_in width y line.now ≡ Err fault) }
    ensures width { IfOk result (λ row. length row.now ≡ width) }
{
    let row = without_gaps_at_end(line);
    if row.len() != width as usize {
        return Err(MapFault::RowLength {
            line: 5 + y,
            expected: width,
            found: row.len() as u32,
        });
    }
    Ok(row)
}

/// Reads row `y` into its cells, after `free` passable cells, and returns how many are passable
/// now.
fn read_cells(row: &[u8], y: u16, free: u32, cells: &mut [Terrain]) -> Result<u32, MapFault>
    requires width { length row.now ≤ MAX_SIDE }
    requires room { (y + 1) * length row.now ≤ length cells.old }
    requires place { y < MAX_SIDE }
    requires free { free ≡ free_in (take (y * length row.now) cells.old) }
    requires limit { free ≤ MAX_PASSABLE }
    ensures cells { MatchResult result
        (λ _. cells_in y 0 (take (y * length row.now) cells.old) row.now
        ≡ Ok (take ((y + 1) * length row.now) cells.new))
        (λ fault. cells_in y 0 (take (y * length row.now) cells.old) row.now ≡ Err fault) }
    ensures free { IfOk result (λ now. now ≡ free_in (take ((y + 1) * length row.now) cells.new)) }
    ensures limit { IfOk result (λ now. now ≤ MAX_PASSABLE) }
{
    let start = usize::from(y) * row.len();
    let mut count = free;
    for (x, byte) in row.iter().enumerate() {
        let terrain = cell_of(x as u16, y, *byte, count)?;
        cells[start + x] = terrain;
        count += u32::from(terrain.is_passable());
    }
    Ok(count)
}

/// Returns the terrain of a cell that comes after `free` passable cells, or its fault.
#[tactic(auto, unfolding(crate::specs::MapText::cell_of))]
fn cell_of(x: u16, y: u16, byte: u8, free: u32) -> Result<Terrain, MapFault>
    ensures { result ≡ cell_of x y byte free }
{
    let Some(terrain) = terrain_for(byte) else {
        return Err(MapFault::BadCell { x, y, byte });
    };
    if terrain.is_passable() && free >= MAX_PASSABLE {
        return Err(MapFault::TooManyCells { x, y });
    }
    Ok(terrain)
}

/// Returns what the byte stands for.
#[tactic(auto, unfolding(crate::specs::MapText::terrain_for))]
fn terrain_for(byte: u8) -> Option<Terrain>
    ensures { result ≡ terrain_for byte }
{
    match byte {
        b'.' | b'G' | b'S' => Some(Terrain::Land),
        b'W' => Some(Terrain::Water),
        b'@' | b'O' | b'T' => Some(Terrain::Blocked),
        _ => None,
    }
}

/// Returns the number of the first line that is not blank, if the next line has this number.
pub fn first_extra(lines: &mut MapLines, number: u32) -> Option<u32>
    requires { number + length lines.old < 2 ^ 32 }
    ensures { result ≡ extra_in number lines.old }
{
    let mut next = number;
    while let Some(line) = lines.next() {
        if !is_blank(line) {
            return Some(next);
        }
        next += 1;
    }
    None
}
