//! Maps as text: the map that a text stands for, and the canonical text of a map. (MovingAI map
//! format page.)
//!
//! A map as text, and its canonical text, where `G` and `S` are land and `O` and `T` are blocked:
//!
//! ```text
//! map text | type octile\nheight 2\nwidth 3\nmap\n.GS\n@OT\n
//! type octile\nheight 2\nwidth 3\nmap\n...\n@@@\n
//! ```
#![tactic(auto)]

ghost use Rattle.std.specs.Prelude.{◌≡◌, ◌≤◌, Ok, Err, length, IfOk};
ghost use Rattle.moves.specs.Maps.{IsSearchable};
ghost use Rattle.map_read.specs.declared.fault.MapFault.{MapFault};
ghost use Rattle.map_read.specs.declared.fault.MapError.TheVariants.{Fault};
ghost use Rattle.map_read.specs.Accepted.{AcceptsExactlyMapTexts};
ghost use Rattle.map_read.specs.Refused.{RefusalsNameTheFirstFault};
ghost use Rattle.map_read.specs.MapText.{map_of, CanonicalTextReadsBack};

mod fault;
mod header;
mod rows;
mod writing;

pub use fault::{MapError, MapFault};
use header::read_header;
use moves::{Grid, Terrain};
use rows::{first_extra, read_rows};
use std::alloc::Global;
use text_lines::Lines;
pub use writing::write_map;

/// The greatest length of a map's text, in bytes.
pub const MAX_MAP_BYTES: usize = 2_097_152;

/// The lines of a map's text.
type MapLines<'a> = Lines<'a, MAX_MAP_BYTES>;

/// Returns the map that a text of at most `MAX_MAP_BYTES` bytes stands for, or the first fault in
/// the order of the file. Lines end with a line feed, or a carriage return and a line feed. The
/// first four lines give the form and the sides, which may come in either order. Each further line
/// is a row: `.`, `G` and `S` are land, `W` is water, `@`, `O` and `T` are blocked, and any other
/// byte is a fault.
pub fn read_map(alloc: Global, bytes: &[u8]) -> Result<Grid, MapError>
    requires { length bytes.now ≤ MAX_MAP_BYTES }
    ensures grid { IfOk result (λ grid. map_of bytes.now ≡ Ok grid) }
    ensures fault { (f : MapFault) → result ≡ Err (Fault f) → map_of bytes.now ≡ Err f }
    ensures limit { IfOk result (λ grid. IsSearchable grid) }
{
    let mut lines = MapLines::of(bytes);
    let sides = read_header(&mut lines)?;
    let mut cells = vec![in alloc; Terrain::Blocked; (sides.width * sides.height) as usize]?;
    read_rows(&mut lines, sides, &mut cells)?;
    if let Some(line) = first_extra(&mut lines, 5 + sides.height) {
        return Err(MapError::Fault(MapFault::Extra { line }));
    }
    Ok(Grid::of_terrain(alloc, sides.width, sides.height, cells)?)
}

/// A law, stated in the contract: a text is accepted exactly when it stands for a map, line by
/// line, and then as that map.
pub fn accepts_exactly_map_texts()
    ensures { AcceptsExactlyMapTexts }
{}

/// A law, stated in the contract: the error for a text names a line or a cell that is at fault, and
/// nothing before it is.
pub fn refusals_name_the_first_fault()
    ensures { RefusalsNameTheFirstFault }
{}

/// A law, stated in the contract: reading the canonical text of a map that can be searched gives
/// that map.
pub fn canonical_text_reads_back()
    ensures { CanonicalTextReadsBack }
{}
