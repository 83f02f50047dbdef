//! The canonical text of a map.

ghost use Rattle.std.specs.Prelude.{◌≡◌, ◌+◌, ◌*◌, ◌<◌, ◌∷◌, [], ◌++◌, ◌≤◌, IfOk, OnOk, vec_len};
ghost use Rattle.std.specs.String.{string_bytes};
ghost use Rattle.text_lines.specs.Lines.{with_feed};
ghost use Rattle.map_read.specs.Inside.{header_text, row_text};
ghost use Rattle.map_read.specs.MapText.{glyph, text_of};

use crate::MAX_MAP_BYTES;
use moves::{Cell, Grid, Terrain};
use std::alloc::{AllocError, Global};

/// Returns the canonical text of the map: `type octile`, `height H`, `width W`, `map`, and the rows
/// with `.` for land, `W` for water and `@` for a blocked cell. Each line ends with a line feed.
/// The text is short enough to be read back.
pub fn write_map(alloc: Global, grid: &Grid) -> Result<Vec<u8>, AllocError>
    ensures text { IfOk result (λ text. text.items ≡ text_of grid.now) }
    ensures limit { IfOk result (λ text. vec_len text ≤ MAX_MAP_BYTES) }
{
    let (width, height) = (grid.width(), grid.height());
    let header = header_text(alloc, width, height)?;
    let len = header.len() + ((width + 1) * height) as usize;
    let mut text = Vec::with_capacity(alloc, len)?;
    text.extend_from_slice(header.as_bytes())?;
    for y in 0..height as u16 {
        push_row(&mut text, grid, y)?;
    }
    Ok(text)
}

/// Returns the header of the canonical text.
fn header_text(alloc: Global, width: u32, height: u32) -> Result<String, AllocError>
    ensures { IfOk result (λ text. string_bytes text ≡ header_text width height) }
{
    format!(in alloc; "type octile\nheight {height}\nwidth {width}\nmap\n")
}

/// Appends the text of row `y` and its line feed.
fn push_row(text: &mut Vec<u8>, grid: &Grid, y: u16) -> Result<(), AllocError>
    requires { y < grid.now.height }
    ensures { OnOk result (text.new.items ≡ text.old.items ++ with_feed (row_text grid.now y)) }
{
    for x in 0..grid.width() as u16 {
        text.push(glyph(grid.terrain(Cell { x, y })))?;
    }
    text.push(b'\n')?;
    Ok(())
}

/// Returns the byte that a cell is written as.
fn glyph(terrain: Terrain) -> u8
    ensures { result ≡ glyph terrain }
{
    match terrain {
        Terrain::Land => b'.',
        Terrain::Water => b'W',
        Terrain::Blocked => b'@',
    }
}
