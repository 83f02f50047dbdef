//! Images that are written.

ghost use Rattle.std.specs.Prelude.{◌≡◌, ℕ, ◌+◌, ◌*◌, ◌^◌, ◌<◌, ◌≤◌, [], ◌∷◌, ◌++◌, IfOk, OnErr, OnOk, length, map, slice_index};
ghost use Rattle.std.specs.List.{flat_map};
ghost use Rattle.std.specs.Io.KnownBytes.{Appends};
ghost use Rattle.wire.specs.Causes.{Rose};
ghost use Rattle.wire.specs.Contents.{PutsPrefix};
ghost use Rattle.row_store.specs.Rows.{row_at};
ghost use Rattle.row_store.specs.Comps.{IsComp};
ghost use Rattle.versions.specs.Databases.{comp_at};
ghost use Rattle.path_image.specs.declared.writing.TheConstants.{PIECE};
ghost use Rattle.path_image.specs.Images.{cell_word, head_of, home_word, homes_of, image_of, image_size, row_start, row_words, starts_of, table_of, table_start, tables_at};
ghost use Rattle.path_image.specs.Writing.{Puts, PutsSome, borders_of, bytes_of};
ghost use Rattle.moves.specs.Maps.{cell_at};

use crate::{BLOCKED, FORM, HALF, HEAD, MAGIC_IMAGE, MAGIC_PATH};
use moves::Cell;
use row_store::CompData;
use run_pack::word;
use std::marker::Model;
use versions::Version;
use wire::{Failed, Sink, put_all};

/// How many bytes are put together.
const PIECE: usize = 4096;

/// How many words the image of a version has.
pub fn image_words(version: &Version) -> u64
    ensures size { result ≡ image_size version.now }
    ensures limit { result < 2 ^ 32 }
{
    u64::from(tables_at(version)) + tables_size(version)
}

/// Puts the image of a version, each word as four bytes, the lowest first, and says how many bytes. It takes no memory.
///
/// # Errors
///
/// `Failed` where the sink failed. A first part of the image has been put then.
pub fn write_image<S: Sink>(version: &Version, sink: &mut S) -> Result<u64, Failed>
    ensures bytes { IfOk result (λ count. count ≡ 4 * image_size version.now) }
    ensures put { OnOk result (
        Appends (S.bytes sink.old) (S.bytes sink.new) (bytes_of (image_of version.now))) }
    ensures prefix { OnErr result (
        PutsPrefix (S.bytes sink.old) (S.bytes sink.new) (bytes_of (image_of version.now))) }
    ensures cause { OnErr result (Rose (S.faults sink.old) (S.faults sink.new)) }
    ensures later { S.faults sink.old ≤ S.faults sink.new }
{
    let size = image_words(version);
    let mut piece = Piece::new();
    put_words(&head_words(version, size as u32), &mut piece, sink)?;
    put_homes(version, &mut piece, sink)?;
    put_starts(version, &mut piece, sink)?;
    put_tables(version, &mut piece, sink)?;
    piece.send(sink)?;
    Ok(4 * size)
}

/// How many words stand before the tables.
fn tables_at(version: &Version) -> u32
    ensures size { result ≡ tables_at version.now }
    ensures limit { result < 2 ^ 21 }
{
    let grid = version.grid();
    HEAD as u32 + grid.width() * grid.height() + version.totals().comps
}

/// How many words the tables have.
fn tables_size(version: &Version) -> u64
    ensures size { result ≡ length (flat_map table_of version.now.comps) }
    ensures limit { tables_at version.now + result < 2 ^ 32 }
{
    // That the map lies inside the limits is known from its width.
    let _width = version.grid().width();
    let mut size = 0;
    for label in 0..version.totals().comps {
        size += u64::from(table_size(comp_at(version, label)));
    }
    size
}

/// The component with that number.
fn comp_at(version: &Version, label: u32) -> &CompData
    requires { label < length version.now.comps }
    ensures { result.now ≡ comp_at version.now.comps label }
{
    &version.comps()[label as usize]
}

/// How many words the table of a component has.
fn table_size(comp: &CompData) -> u32
    ensures size { result ≡ length (table_of comp.now) }
    ensures limit { result < 2 ^ 31 }
{
    2 * comp.cells().len() as u32 + 2 + comp.runs() as u32
}

/// The first words of the image, which has so many.
fn head_words(version: &Version, size: u32) -> [u32; HEAD]
    requires { size ≡ image_size version.now }
    ensures { result ≡ head_of version.now }
{
    let grid = version.grid();
    let totals = version.totals();
    [
        MAGIC_PATH,
        MAGIC_IMAGE,
        FORM,
        size,
        grid.width(),
        grid.height(),
        version.prefix(),
        u32::from(version.kind().number()),
        totals.cells,
        totals.comps,
    ]
}

/// Puts these words.
fn put_words<S: Sink>(words: &[u32], piece: &mut Piece, sink: &mut S) -> Result<(), Failed>
    ensures put { OnOk result (
        Puts (S.bytes sink.old) piece.old (S.bytes sink.new) piece.new words.now) }
    ensures prefix { OnErr result (
        PutsSome (S.bytes sink.old) piece.old (S.bytes sink.new) words.now) }
    ensures cause { OnErr result (Rose (S.faults sink.old) (S.faults sink.new)) }
    ensures later { S.faults sink.old ≤ S.faults sink.new }
{
    for word in words {
        piece.put(sink, *word)?;
    }
    Ok(())
}

/// Puts the words of the cells.
fn put_homes<S: Sink>(version: &Version, piece: &mut Piece, sink: &mut S) -> Result<(), Failed>
    ensures put { OnOk result (
        Puts (S.bytes sink.old) piece.old (S.bytes sink.new) piece.new (homes_of version.now)) }
    ensures prefix { OnErr result (
        PutsSome (S.bytes sink.old) piece.old (S.bytes sink.new) (homes_of version.now)) }
    ensures cause { OnErr result (Rose (S.faults sink.old) (S.faults sink.new)) }
    ensures later { S.faults sink.old ≤ S.faults sink.new }
{
    for place in 0..version.grid().width() * version.grid().height() {
        piece.put(sink, home_word(version, place))?;
    }
    Ok(())
}

/// The word of the cell at a place.
fn home_word(version: &Version, place: u32) -> u32
    requires { place < version.now.map.width * version.now.map.height }
    ensures { result ≡ home_word 0 version.now.comps (cell_at version.now.map.width place) }
{
    let width = version.grid().width();
    let cell = Cell {
        x: (place % width) as u16,
        y: (place / width) as u16,
    };
    match version.labels().of(cell) {
        None => BLOCKED,
        Some(label) => label * HALF + comp_at(version, label).place_of(cell),
    }
}

/// Puts where each table begins.
fn put_starts<S: Sink>(version: &Version, piece: &mut Piece, sink: &mut S) -> Result<(), Failed>
    requires { image_size version.now < 2 ^ 32 }
    ensures put { OnOk result (
        Puts (S.bytes sink.old) piece.old (S.bytes sink.new) piece.new (starts_of version.now)) }
    ensures prefix { OnErr result (
        PutsSome (S.bytes sink.old) piece.old (S.bytes sink.new) (starts_of version.now)) }
    ensures cause { OnErr result (Rose (S.faults sink.old) (S.faults sink.new)) }
    ensures later { S.faults sink.old ≤ S.faults sink.new }
{
    let mut start = tables_at(version);
    for label in 0..version.totals().comps {
        piece.put(sink, start)?;
        start = next_start(version, label, start);
    }
    Ok(())
}

/// Where the table behind that of a component begins.
fn next_start(version: &Version, label: u32, start: u32) -> u32
    requires label { label < length version.now.comps }
    requires start { start ≡ table_start version.now label }
    requires limit { image_size version.now < 2 ^ 32 }
    ensures { result ≡ table_start version.now (label + 1) }
{
    start + table_size(comp_at(version, label))
}

/// Puts the tables.
fn put_tables<S: Sink>(version: &Version, piece: &mut Piece, sink: &mut S) -> Result<(), Failed>
    ensures put { OnOk result (Puts (S.bytes sink.old) piece.old (S.bytes sink.new) piece.new
        (flat_map table_of version.now.comps)) }
    ensures prefix { OnErr result (PutsSome (S.bytes sink.old) piece.old (S.bytes sink.new)
        (flat_map table_of version.now.comps)) }
    ensures cause { OnErr result (Rose (S.faults sink.old) (S.faults sink.new)) }
    ensures later { S.faults sink.old ≤ S.faults sink.new }
{
    for label in 0..version.totals().comps {
        put_table(comp_at(version, label), piece, sink)?;
    }
    Ok(())
}

/// Puts the table of a component.
fn put_table<S: Sink>(comp: &CompData, piece: &mut Piece, sink: &mut S) -> Result<(), Failed>
    ensures put { OnOk result (
        Puts (S.bytes sink.old) piece.old (S.bytes sink.new) piece.new (table_of comp.now)) }
    ensures prefix { OnErr result (
        PutsSome (S.bytes sink.old) piece.old (S.bytes sink.new) (table_of comp.now)) }
    ensures cause { OnErr result (Rose (S.faults sink.old) (S.faults sink.new)) }
    ensures later { S.faults sink.old ≤ S.faults sink.new }
{
    piece.put(sink, comp.cells().len() as u32)?;
    put_cells(comp, piece, sink)?;
    put_borders(comp, piece, sink)?;
    put_rows(comp, piece, sink)
}

/// Puts the cells of a component.
fn put_cells<S: Sink>(comp: &CompData, piece: &mut Piece, sink: &mut S) -> Result<(), Failed>
    ensures put { OnOk result (Puts (S.bytes sink.old) piece.old (S.bytes sink.new) piece.new
        (map cell_word comp.now.cells)) }
    ensures prefix { OnErr result (PutsSome (S.bytes sink.old) piece.old (S.bytes sink.new)
        (map cell_word comp.now.cells)) }
    ensures cause { OnErr result (Rose (S.faults sink.old) (S.faults sink.new)) }
    ensures later { S.faults sink.old ≤ S.faults sink.new }
{
    for cell in comp.cells() {
        piece.put(sink, u32::from(cell.y) * HALF + u32::from(cell.x))?;
    }
    Ok(())
}

/// Puts where the rows of a component begin and the last ends.
fn put_borders<S: Sink>(comp: &CompData, piece: &mut Piece, sink: &mut S) -> Result<(), Failed>
    ensures put { OnOk result (Puts (S.bytes sink.old) piece.old (S.bytes sink.new) piece.new
        (borders_of comp.now)) }
    ensures prefix { OnErr result (
        PutsSome (S.bytes sink.old) piece.old (S.bytes sink.new) (borders_of comp.now)) }
    ensures cause { OnErr result (Rose (S.faults sink.old) (S.faults sink.new)) }
    ensures later { S.faults sink.old ≤ S.faults sink.new }
{
    let mut border = 0;
    for place in 0..comp.cells().len() as u32 {
        piece.put(sink, border)?;
        border = next_border(comp, place, border);
    }
    piece.put(sink, border)
}

/// Where the row behind that of a place begins.
fn next_border(comp: &CompData, place: u32, border: u32) -> u32
    requires whole { IsComp comp.now }
    requires place { place < length comp.now.cells }
    requires border { border ≡ row_start comp.now.rows place }
    ensures { result ≡ row_start comp.now.rows (place + 1) }
{
    border + comp.row_len(place)
}

/// Puts the runs of a component.
fn put_rows<S: Sink>(comp: &CompData, piece: &mut Piece, sink: &mut S) -> Result<(), Failed>
    ensures put { OnOk result (Puts (S.bytes sink.old) piece.old (S.bytes sink.new) piece.new
        (flat_map row_words comp.now.rows)) }
    ensures prefix { OnErr result (PutsSome (S.bytes sink.old) piece.old (S.bytes sink.new)
        (flat_map row_words comp.now.rows)) }
    ensures cause { OnErr result (Rose (S.faults sink.old) (S.faults sink.new)) }
    ensures later { S.faults sink.old ≤ S.faults sink.new }
{
    for place in 0..comp.cells().len() as u32 {
        put_row(comp, place, piece, sink)?;
    }
    Ok(())
}

/// Puts the runs of a row.
fn put_row<S: Sink>(
    comp: &CompData,
    place: u32,
    piece: &mut Piece,
    sink: &mut S,
) -> Result<(), Failed>
    requires whole { IsComp comp.now }
    requires place { place < length comp.now.cells }
    ensures put { OnOk result (Puts (S.bytes sink.old) piece.old (S.bytes sink.new) piece.new
        (row_words (row_at comp.now.rows place))) }
    ensures prefix { OnErr result (PutsSome (S.bytes sink.old) piece.old (S.bytes sink.new)
        (row_words (row_at comp.now.rows place))) }
    ensures cause { OnErr result (Rose (S.faults sink.old) (S.faults sink.new)) }
    ensures later { S.faults sink.old ≤ S.faults sink.new }
{
    for run in 0..comp.row_len(place) {
        piece.put(sink, run_word(comp, place, run))?;
    }
    Ok(())
}

/// The word of a run of a row.
fn run_word(comp: &CompData, place: u32, run: u32) -> u32
    requires whole { IsComp comp.now }
    requires place { place < length comp.now.cells }
    requires run { run < length (row_at comp.now.rows place) }
    ensures { result ≡ slice_index (row_words (row_at comp.now.rows place)) run }
{
    word(comp.row_run(place, run))
}

/// Bytes that are put together.
#[derive(Drop)]
struct Piece {
    bytes: [u8; PIECE],
    have: usize,
}

impl Model for Piece {
    ghost use Rattle.std.specs.Prelude.{◌≤◌, ℕ, List, take};
    ghost use Rattle.path_image.specs.declared.writing.TheConstants.{PIECE};

    ghost Value = { List ℕ };

    ghost view = { λ piece. take piece.have piece.bytes };

    ghost invariant = { λ piece. piece.have ≤ PIECE };
}

impl Piece {
    /// No bytes.
    fn new() -> Piece
        ensures { result ≡ [] }
    {
        Piece {
            bytes: [0; PIECE],
            have: 0,
        }
    }

    /// Holds a word more. What is held is put before where there is no room for it.
    ///
    /// # Errors
    ///
    /// `Failed` where the sink failed.
    fn put<S: Sink>(&mut self, sink: &mut S, word: u32) -> Result<(), Failed>
        ensures put { OnOk result (
            Puts (S.bytes sink.old) self.old (S.bytes sink.new) self.new (word ∷ [])) }
        ensures prefix { OnErr result (
            PutsSome (S.bytes sink.old) self.old (S.bytes sink.new) (word ∷ [])) }
        ensures cause { OnErr result (Rose (S.faults sink.old) (S.faults sink.new)) }
        ensures later { S.faults sink.old ≤ S.faults sink.new }
    {
        self.make_room(sink)?;
        self.push((word % 256) as u8);
        self.push((word / 256 % 256) as u8);
        self.push((word / 65_536 % 256) as u8);
        self.push((word / 16_777_216 % 256) as u8);
        Ok(())
    }

    /// Puts what is held where there is no room for a word.
    ///
    /// # Errors
    ///
    /// `Failed` where the sink failed.
    fn make_room<S: Sink>(&mut self, sink: &mut S) -> Result<(), Failed>
        ensures put { OnOk result (
            Puts (S.bytes sink.old) self.old (S.bytes sink.new) self.new []) }
        ensures prefix { OnErr result (
            PutsPrefix (S.bytes sink.old) (S.bytes sink.new) self.old) }
        ensures room { OnOk result (length self.new + 4 ≤ PIECE) }
        ensures cause { OnErr result (Rose (S.faults sink.old) (S.faults sink.new)) }
        ensures later { S.faults sink.old ≤ S.faults sink.new }
    {
        if self.have + 4 > PIECE {
            return self.send(sink);
        }
        Ok(())
    }

    /// Holds a byte more.
    #[inline(always)]
    fn push(&mut self, byte: u8)
        requires { length self.old < PIECE }
        ensures { self.new ≡ self.old ++ byte ∷ [] }
    {
        self.bytes[self.have] = byte;
        self.have += 1;
    }

    /// Puts what is held. Nothing is held then.
    ///
    /// # Errors
    ///
    /// `Failed` where the sink failed.
    fn send<S: Sink>(&mut self, sink: &mut S) -> Result<(), Failed>
        ensures put { OnOk result (Appends (S.bytes sink.old) (S.bytes sink.new) self.old) }
        ensures prefix { OnErr result (
            PutsPrefix (S.bytes sink.old) (S.bytes sink.new) self.old) }
        ensures none { OnOk result (self.new ≡ []) }
        ensures cause { OnErr result (Rose (S.faults sink.old) (S.faults sink.new)) }
        ensures later { S.faults sink.old ≤ S.faults sink.new }
    {
        put_all(sink, &self.bytes[..self.have])?;
        self.have = 0;
        Ok(())
    }
}
