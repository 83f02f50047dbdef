//! The file of a version, put through a sink.

ghost use Rattle.std.specs.Prelude.{◌≡◌, ◌+◌, ◌≤◌, ◌<◌, [], ◌∷◌, length, map, slice_index, slice_index_or, IfOk, OnOk, OnErr};
ghost use Rattle.std.specs.Io.KnownBytes.{Appends};
ghost use Rattle.std.specs.Arc.{arc_value};
ghost use Rattle.wire.specs.Causes.{Rose};
ghost use Rattle.wire.specs.Contents.{PutsPrefix};
ghost use Rattle.run_pack.specs.Runs.{no_run, word_of};
ghost use Rattle.row_store.specs.Rows.{row_at};
ghost use Rattle.moves.specs.Maps.{IsInside, place_of};
ghost use Rattle.path_file.specs.declared.buffer.TheConstants.{BUFFER};
ghost use Rattle.path_file.specs.Files.{comps_bytes, file_of, ground_bytes, head_bytes, head_of, number_bytes, row_bytes, rows_bytes, terrain_byte};
ghost use Rattle.path_file.specs.Puttings.{PutsSome, Writes, rows_of_comps};

use crate::buffer::Buffer;
use crate::head::{Head, MARK};
use moves::{Cell, Grid, Terrain};
use row_store::CompData;
use run_pack::word;
use std::error::Error;
use std::fmt;
use std::sync::Arc;
use versions::Version;
use wire::{Failed, Sink, put_all};

/// How many bytes stand before the terrain.
const HEAD_LENGTH: u64 = 21;

/// Why a file could not be put.
#[derive(Clone, Copy, Debug, PartialEq, Eq)]
pub enum ExportFault {
    /// The sink refused some of the bytes.
    WriteFault,
}

impl fmt::Display for ExportFault {
    ghost use Rattle.std.specs.Prelude.{Some, codes};

    ghost output = { λ _. Some (codes "write fault") };

    fn fmt<W: fmt::Write>(&self, f: &mut fmt::Formatter<W>) -> fmt::Result {
        write!(f, "write fault")
    }
}

impl Error for ExportFault {}

impl From<Failed> for ExportFault {
    ghost use Rattle.std.specs.Prelude.{◌≡◌};
    ghost use Rattle.path_file.specs.declared.exporting.ExportFault.TheVariants.{WriteFault};

    ghost from_gives = { λ _ fault. fault ≡ WriteFault };

    fn from(_failed: Failed) -> ExportFault {
        ExportFault::WriteFault
    }
}

/// Puts the file of a version, and says how many bytes it has. It takes no memory.
///
/// # Errors
///
/// `WriteFault` where the sink failed. A first part of the file has been put then.
pub fn export<S: Sink>(version: &Version, sink: &mut S) -> Result<u64, ExportFault>
    ensures count { IfOk result (λ count. count ≡ length (file_of version.now)) }
    ensures put { OnOk result
        (Appends (S.bytes sink.old) (S.bytes sink.new) (file_of version.now)) }
    ensures prefix { OnErr result
        (PutsPrefix (S.bytes sink.old) (S.bytes sink.new) (file_of version.now)) }
    ensures cause { OnErr result (Rose (S.faults sink.old) (S.faults sink.new)) }
    ensures later { S.faults sink.old ≤ S.faults sink.new }
{
    put_file(version, sink)?;
    Ok(file_length(version))
}

/// How many bytes the file of a version has.
pub fn file_length(version: &Version) -> u64
    ensures { result ≡ length (file_of version.now) }
{
    let grid = version.grid();
    let mut count = HEAD_LENGTH + u64::from(grid.width() * grid.height());
    let comps = version.comps();
    for comp in comps {
        count += 4 * (comp.cells().len() as u64 + comp.runs());
    }
    count
}

/// Puts the file of a version.
fn put_file<S: Sink>(version: &Version, sink: &mut S) -> Result<(), Failed>
    ensures put { OnOk result
        (Appends (S.bytes sink.old) (S.bytes sink.new) (file_of version.now)) }
    ensures prefix { OnErr result
        (PutsPrefix (S.bytes sink.old) (S.bytes sink.new) (file_of version.now)) }
    ensures cause { OnErr result (Rose (S.faults sink.old) (S.faults sink.new)) }
    ensures later { S.faults sink.old ≤ S.faults sink.new }
{
    let mut buffer = Buffer::new();
    put_head(sink, &mut buffer, head_of(version))?;
    put_ground(sink, &mut buffer, version.grid())?;
    put_comps(sink, &mut buffer, version.comps())?;
    flush(sink, &mut buffer)
}

/// What the file of a version says before the terrain.
fn head_of(version: &Version) -> Head
    ensures { result ≡ head_of version.now }
{
    let grid = version.grid();
    Head {
        width: grid.width(),
        height: grid.height(),
        prefix: version.prefix(),
        order: version.kind(),
    }
}

/// Writes the mark, the sides, the number of edits and the order.
fn put_head<S: Sink>(sink: &mut S, buffer: &mut Buffer, head: Head) -> Result<(), Failed>
    ensures put { OnOk result
        (Writes (S.bytes sink.old) (S.bytes sink.new) buffer.old buffer.new (head_bytes head)) }
    ensures prefix { OnErr result
        (PutsSome (S.bytes sink.old) (S.bytes sink.new) buffer.old (head_bytes head)) }
    ensures cause { OnErr result (Rose (S.faults sink.old) (S.faults sink.new)) }
    ensures later { S.faults sink.old ≤ S.faults sink.new }
{
    put_bytes(sink, buffer, &MARK)?;
    put_number(sink, buffer, head.width)?;
    put_number(sink, buffer, head.height)?;
    put_number(sink, buffer, head.prefix)?;
    put_byte(sink, buffer, head.order.number())
}

/// Writes the terrain of all cells.
fn put_ground<S: Sink>(sink: &mut S, buffer: &mut Buffer, grid: &Grid) -> Result<(), Failed>
    ensures put { OnOk result (Writes (S.bytes sink.old) (S.bytes sink.new) buffer.old buffer.new
        (ground_bytes grid.now.terrain)) }
    ensures prefix { OnErr result (PutsSome (S.bytes sink.old) (S.bytes sink.new) buffer.old
        (ground_bytes grid.now.terrain)) }
    ensures cause { OnErr result (Rose (S.faults sink.old) (S.faults sink.new)) }
    ensures later { S.faults sink.old ≤ S.faults sink.new }
{
    for place in 0..grid.width() * grid.height() {
        put_byte(sink, buffer, byte_at(grid, place))?;
    }
    Ok(())
}

/// The byte of the terrain at a place, row by row.
fn byte_at(grid: &Grid, place: u32) -> u8
    requires { place < length grid.now.terrain }
    ensures { result ≡ slice_index (ground_bytes grid.now.terrain) place }
{
    byte_of(grid.terrain(cell_at(grid, place)))
}

/// The cell at a place, row by row.
fn cell_at(grid: &Grid, place: u32) -> Cell
    requires { place < length grid.now.terrain }
    ensures inside { IsInside grid.now result }
    ensures place { place_of grid.now.width result ≡ place }
{
    let width = grid.width();
    Cell {
        x: (place % width) as u16,
        y: (place / width) as u16,
    }
}

/// The byte of a terrain.
fn byte_of(terrain: Terrain) -> u8
    ensures { result ≡ terrain_byte terrain }
{
    match terrain {
        Terrain::Blocked => 0,
        Terrain::Land => 1,
        Terrain::Water => 2,
    }
}

/// Writes the rows of all components.
fn put_comps<S: Sink>(
    sink: &mut S,
    buffer: &mut Buffer,
    comps: &[Arc<CompData>],
) -> Result<(), Failed>
    ensures put { OnOk result (Writes (S.bytes sink.old) (S.bytes sink.new) buffer.old buffer.new
        (comps_bytes (rows_of_comps (map arc_value comps.now)))) }
    ensures prefix { OnErr result (PutsSome (S.bytes sink.old) (S.bytes sink.new) buffer.old
        (comps_bytes (rows_of_comps (map arc_value comps.now)))) }
    ensures cause { OnErr result (Rose (S.faults sink.old) (S.faults sink.new)) }
    ensures later { S.faults sink.old ≤ S.faults sink.new }
{
    for comp in comps {
        put_rows(sink, buffer, comp)?;
    }
    Ok(())
}

/// Writes the rows of a component.
fn put_rows<S: Sink>(sink: &mut S, buffer: &mut Buffer, comp: &CompData) -> Result<(), Failed>
    ensures put { OnOk result (Writes (S.bytes sink.old) (S.bytes sink.new) buffer.old buffer.new
        (rows_bytes comp.now.rows)) }
    ensures prefix { OnErr result (PutsSome (S.bytes sink.old) (S.bytes sink.new) buffer.old
        (rows_bytes comp.now.rows)) }
    ensures cause { OnErr result (Rose (S.faults sink.old) (S.faults sink.new)) }
    ensures later { S.faults sink.old ≤ S.faults sink.new }
{
    for source in 0..comp.cells().len() as u32 {
        put_row(sink, buffer, comp, source)?;
    }
    Ok(())
}

/// Writes a row of a component.
fn put_row<S: Sink>(
    sink: &mut S,
    buffer: &mut Buffer,
    comp: &CompData,
    source: u32,
) -> Result<(), Failed>
    requires { source < length comp.now.cells }
    ensures put { OnOk result (Writes (S.bytes sink.old) (S.bytes sink.new) buffer.old buffer.new
        (row_bytes (row_at comp.now.rows source))) }
    ensures prefix { OnErr result (PutsSome (S.bytes sink.old) (S.bytes sink.new) buffer.old
        (row_bytes (row_at comp.now.rows source))) }
    ensures cause { OnErr result (Rose (S.faults sink.old) (S.faults sink.new)) }
    ensures later { S.faults sink.old ≤ S.faults sink.new }
{
    let count = comp.row_len(source);
    put_number(sink, buffer, count)?;
    for place in 0..count {
        put_number(sink, buffer, word_at(comp, source, place))?;
    }
    Ok(())
}

/// The word of a run.
fn word_at(comp: &CompData, source: u32, place: u32) -> u32
    requires row { source < length comp.now.cells }
    requires run { place < length (row_at comp.now.rows source) }
    ensures { result ≡ word_of (slice_index_or (row_at comp.now.rows source) place no_run) }
{
    // That each row can be kept as words is known from the cells.
    let _cells = comp.cells();
    word(comp.row_run(source, place))
}

/// Writes bytes.
fn put_bytes<S: Sink>(sink: &mut S, buffer: &mut Buffer, bytes: &[u8]) -> Result<(), Failed>
    ensures put { OnOk result
        (Writes (S.bytes sink.old) (S.bytes sink.new) buffer.old buffer.new bytes.now) }
    ensures prefix { OnErr result
        (PutsSome (S.bytes sink.old) (S.bytes sink.new) buffer.old bytes.now) }
    ensures cause { OnErr result (Rose (S.faults sink.old) (S.faults sink.new)) }
    ensures later { S.faults sink.old ≤ S.faults sink.new }
{
    for byte in bytes {
        put_byte(sink, buffer, *byte)?;
    }
    Ok(())
}

/// Writes a number in four bytes.
fn put_number<S: Sink>(sink: &mut S, buffer: &mut Buffer, number: u32) -> Result<(), Failed>
    ensures put { OnOk result
        (Writes (S.bytes sink.old) (S.bytes sink.new) buffer.old buffer.new (number_bytes number)) }
    ensures prefix { OnErr result
        (PutsSome (S.bytes sink.old) (S.bytes sink.new) buffer.old (number_bytes number)) }
    ensures cause { OnErr result (Rose (S.faults sink.old) (S.faults sink.new)) }
    ensures later { S.faults sink.old ≤ S.faults sink.new }
{
    make_room(sink, buffer)?;
    buffer.push_number(number);
    Ok(())
}

/// Writes a byte.
fn put_byte<S: Sink>(sink: &mut S, buffer: &mut Buffer, byte: u8) -> Result<(), Failed>
    ensures put { OnOk result
        (Writes (S.bytes sink.old) (S.bytes sink.new) buffer.old buffer.new (byte ∷ [])) }
    ensures prefix { OnErr result
        (PutsSome (S.bytes sink.old) (S.bytes sink.new) buffer.old (byte ∷ [])) }
    ensures cause { OnErr result (Rose (S.faults sink.old) (S.faults sink.new)) }
    ensures later { S.faults sink.old ≤ S.faults sink.new }
{
    make_room(sink, buffer)?;
    buffer.push(byte);
    Ok(())
}

/// Makes room for a number: puts what the buffer holds where there is less.
fn make_room<S: Sink>(sink: &mut S, buffer: &mut Buffer) -> Result<(), Failed>
    ensures room { OnOk result (length buffer.new + 4 ≤ BUFFER) }
    ensures put { OnOk result
        (Writes (S.bytes sink.old) (S.bytes sink.new) buffer.old buffer.new []) }
    ensures prefix { OnErr result
        (PutsPrefix (S.bytes sink.old) (S.bytes sink.new) buffer.old) }
    ensures cause { OnErr result (Rose (S.faults sink.old) (S.faults sink.new)) }
    ensures later { S.faults sink.old ≤ S.faults sink.new }
{
    if buffer.has_room() {
        return Ok(());
    }
    flush(sink, buffer)
}

/// Puts what the buffer holds.
fn flush<S: Sink>(sink: &mut S, buffer: &mut Buffer) -> Result<(), Failed>
    ensures empty { OnOk result (buffer.new ≡ []) }
    ensures put { OnOk result (Appends (S.bytes sink.old) (S.bytes sink.new) buffer.old) }
    ensures prefix { OnErr result
        (PutsPrefix (S.bytes sink.old) (S.bytes sink.new) buffer.old) }
    ensures cause { OnErr result (Rose (S.faults sink.old) (S.faults sink.new)) }
    ensures later { S.faults sink.old ≤ S.faults sink.new }
{
    put_all(sink, buffer.as_slice())?;
    buffer.clear();
    Ok(())
}
