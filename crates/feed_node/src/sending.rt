//! The messages of a feed, sent over a link.

ghost use Rattle.std.specs.Prelude.{◌≡◌, ◌+◌, ◌*◌, ◌<◌, ◌≤◌, [], ◌∷◌, ◌++◌, drop, length, map, slice_index_or, take, OnErr, OnOk};
ghost use Rattle.edit_log.specs.declared.TheConstants.{MAX_CHANGES};
ghost use Rattle.moves.specs.Maps.{IsInside, place_of};
ghost use Rattle.moves.specs.declared.Terrain.TheVariants.{Blocked};
ghost use Rattle.query_proto.specs.Frames.{terrain_byte};
ghost use Rattle.follow_proto.specs.declared.TheConstants.{MAX_SENT};
ghost use Rattle.follow_proto.specs.Feeds.{all_edit_bytes, edit_bytes, edits_bytes, message_bytes, start_bytes};
ghost use Rattle.wire.specs.Talks.{SendsPrefix, with_sent, OnlyWrites, WriteFails};
ghost use Rattle.feed_node.specs.declared.parcel.TheConstants.{PARCEL};
ghost use Rattle.feed_node.specs.Looking.{IsInside as IsInBacklog, message_of};
ghost use Rattle.feed_node.specs.Sending.{SendsSome, Writes};

use crate::backlog::Finding;
use crate::parcel::Parcel;
use edit_log::{CellChange, EditList};
use follow_proto::{ahead, edits_head_at, no_memory, start_head, terrain_byte};
use moves::{Cell, Grid};
use wire::{Failed, Link, send_all};

/// Sends the map before any edit.
///
/// # Errors
///
/// `Failed` where the link failed before all of it was sent.
pub(crate) fn send_start<L: Link>(
    link: &mut L,
    parcel: &mut Parcel,
    grid: &Grid,
) -> Result<(), Failed>
    requires { parcel.old ≡ [] }
    ensures none { OnOk result (parcel.new ≡ []) }
    ensures sent { OnOk result
        ((L.at link.new).talk ≡ with_sent (L.at link.old).talk (start_bytes grid.now)) }
    ensures prefix { OnErr result
        (SendsPrefix (L.at link.old).talk (L.at link.new).talk (start_bytes grid.now)) }
    ensures cause { OnErr result (WriteFails (L.at link.old) (L.at link.new)) }
    ensures counts { OnlyWrites (L.at link.old) (L.at link.new) }
{
    put_bytes(link, parcel, &start_head(grid.width(), grid.height()))?;
    put_ground(link, parcel, grid)?;
    flush(link, parcel)
}

/// Sends the message of what was found for a follower that knows so many edits.
///
/// # Errors
///
/// `Failed` where the link failed before all of it was sent.
pub(crate) fn send_found<L: Link>(
    link: &mut L,
    parcel: &mut Parcel,
    known: u32,
    edits: &EditList,
    found: &Finding,
) -> Result<(), Failed>
    requires none { parcel.old ≡ [] }
    requires inside { IsInBacklog edits.now.edits found.now }
    ensures none { OnOk result (parcel.new ≡ []) }
    ensures sent { OnOk result ((L.at link.new).talk ≡ with_sent (L.at link.old).talk
        (message_bytes (message_of known edits.now.edits found.now))) }
    ensures prefix { OnErr result (SendsPrefix (L.at link.old).talk (L.at link.new).talk
        (message_bytes (message_of known edits.now.edits found.now))) }
    ensures cause { OnErr result (WriteFails (L.at link.old) (L.at link.new)) }
    ensures counts { OnlyWrites (L.at link.old) (L.at link.new) }
{
    match found {
        Finding::Ahead { accepted } => send_all(link, &ahead(*accepted)),
        Finding::Edits { first } => send_edits(link, parcel, known, edits, *first),
        Finding::NoMemory => send_all(link, &no_memory()),
    }
}

/// Sends the edits from that place on, as many as one message may have.
///
/// # Errors
///
/// `Failed` where the link failed before all of it was sent.
fn send_edits<L: Link>(
    link: &mut L,
    parcel: &mut Parcel,
    known: u32,
    edits: &EditList,
    first: u32,
) -> Result<(), Failed>
    requires none { parcel.old ≡ [] }
    requires inside { first ≤ length edits.now.edits }
    ensures none { OnOk result (parcel.new ≡ []) }
    ensures sent { OnOk result ((L.at link.new).talk ≡ with_sent (L.at link.old).talk
        (edits_bytes known (take MAX_SENT (drop first edits.now.edits)))) }
    ensures prefix { OnErr result (SendsPrefix (L.at link.old).talk (L.at link.new).talk
        (edits_bytes known (take MAX_SENT (drop first edits.now.edits)))) }
    ensures cause { OnErr result (WriteFails (L.at link.old) (L.at link.new)) }
    ensures counts { OnlyWrites (L.at link.old) (L.at link.new) }
{
    let head = edits_head_at(known, edits, first);
    put_bytes(link, parcel, &head.bytes)?;
    put_edits(link, parcel, edits, first, head.count)?;
    flush(link, parcel)
}

/// Writes the terrain of all cells, row by row.
///
/// # Errors
///
/// `Failed` where the link failed.
fn put_ground<L: Link>(link: &mut L, parcel: &mut Parcel, grid: &Grid) -> Result<(), Failed>
    ensures put { OnOk result (Writes (L.at link.old).talk (L.at link.new).talk parcel.old parcel.new
        (map terrain_byte grid.now.terrain)) }
    ensures prefix { OnErr result (SendsSome (L.at link.old).talk (L.at link.new).talk parcel.old
        (map terrain_byte grid.now.terrain)) }
    ensures cause { OnErr result (WriteFails (L.at link.old) (L.at link.new)) }
    ensures counts { OnlyWrites (L.at link.old) (L.at link.new) }
{
    for place in 0..grid.width() * grid.height() {
        put_bytes(link, parcel, &[byte_at(grid, place)])?;
    }
    Ok(())
}

/// The number of the terrain at a place, row by row.
fn byte_at(grid: &Grid, place: u32) -> u8
    requires { place < length grid.now.terrain }
    ensures { result ≡ terrain_byte (slice_index_or grid.now.terrain place Blocked) }
{
    terrain_byte(grid.terrain(cell_at(grid, place)))
}

/// The cell at a place, row by row.
fn cell_at(grid: &Grid, place: u32) -> Cell
    requires { place < length grid.now.terrain }
    ensures inside { IsInside grid.now result }
    ensures place { place_of grid.now.width result ≡ place }
{
    let width = grid.width();
    Cell {
        x: (place % width) as u16,
        y: (place / width) as u16,
    }
}

/// Writes so many edits from that place on.
///
/// # Errors
///
/// `Failed` where the link failed.
fn put_edits<L: Link>(
    link: &mut L,
    parcel: &mut Parcel,
    edits: &EditList,
    first: u32,
    count: u32,
) -> Result<(), Failed>
    requires { first + count ≤ length edits.now.edits }
    ensures put { OnOk result (Writes (L.at link.old).talk (L.at link.new).talk parcel.old parcel.new
        (all_edit_bytes (take count (drop first edits.now.edits)))) }
    ensures prefix { OnErr result (SendsSome (L.at link.old).talk (L.at link.new).talk parcel.old
        (all_edit_bytes (take count (drop first edits.now.edits)))) }
    ensures cause { OnErr result (WriteFails (L.at link.old) (L.at link.new)) }
    ensures counts { OnlyWrites (L.at link.old) (L.at link.new) }
{
    // That each place fits its type is known from here.
    let _len = edits.len();
    for place in 0..count {
        put_edit(link, parcel, edits.changes_at(first + place))?;
    }
    Ok(())
}

/// Writes an edit, the number of its changes and these.
///
/// # Errors
///
/// `Failed` where the link failed.
fn put_edit<L: Link>(
    link: &mut L,
    parcel: &mut Parcel,
    changes: &[CellChange],
) -> Result<(), Failed>
    requires { length changes.now ≤ MAX_CHANGES }
    ensures put { OnOk result (Writes (L.at link.old).talk (L.at link.new).talk parcel.old parcel.new
        (edit_bytes changes.now)) }
    ensures prefix { OnErr result (SendsSome (L.at link.old).talk (L.at link.new).talk parcel.old
        (edit_bytes changes.now)) }
    ensures cause { OnErr result (WriteFails (L.at link.old) (L.at link.new)) }
    ensures counts { OnlyWrites (L.at link.old) (L.at link.new) }
{
    make_room(link, parcel, 1 + 5 * changes.len())?;
    parcel.push_edit(changes);
    Ok(())
}

/// Writes bytes, at most as many as a parcel has room for.
///
/// # Errors
///
/// `Failed` where the link failed.
fn put_bytes<L: Link>(link: &mut L, parcel: &mut Parcel, bytes: &[u8]) -> Result<(), Failed>
    requires { length bytes.now ≤ PARCEL }
    ensures put { OnOk result (Writes (L.at link.old).talk (L.at link.new).talk parcel.old parcel.new
        bytes.now) }
    ensures prefix { OnErr result (SendsSome (L.at link.old).talk (L.at link.new).talk parcel.old
        bytes.now) }
    ensures cause { OnErr result (WriteFails (L.at link.old) (L.at link.new)) }
    ensures counts { OnlyWrites (L.at link.old) (L.at link.new) }
{
    make_room(link, parcel, bytes.len())?;
    parcel.push(bytes);
    Ok(())
}

/// Makes room for so many bytes: sends what the parcel holds where there is less.
///
/// # Errors
///
/// `Failed` where the link failed.
fn make_room<L: Link>(link: &mut L, parcel: &mut Parcel, count: usize) -> Result<(), Failed>
    requires { count ≤ PARCEL }
    ensures room { OnOk result (length parcel.new + count ≤ PARCEL) }
    ensures put { OnOk result (Writes (L.at link.old).talk (L.at link.new).talk parcel.old parcel.new
        []) }
    ensures prefix { OnErr result (SendsPrefix (L.at link.old).talk (L.at link.new).talk parcel.old) }
    ensures cause { OnErr result (WriteFails (L.at link.old) (L.at link.new)) }
    ensures counts { OnlyWrites (L.at link.old) (L.at link.new) }
{
    if parcel.has_room(count) {
        return Ok(());
    }
    flush(link, parcel)
}

/// Sends what the parcel holds. Nothing is held then.
///
/// # Errors
///
/// `Failed` where the link failed before all of it was sent.
fn flush<L: Link>(link: &mut L, parcel: &mut Parcel) -> Result<(), Failed>
    ensures none { OnOk result (parcel.new ≡ []) }
    ensures sent { OnOk result ((L.at link.new).talk ≡ with_sent (L.at link.old).talk parcel.old) }
    ensures prefix { OnErr result (SendsPrefix (L.at link.old).talk (L.at link.new).talk parcel.old) }
    ensures cause { OnErr result (WriteFails (L.at link.old) (L.at link.new)) }
    ensures counts { OnlyWrites (L.at link.old) (L.at link.new) }
{
    send_all(link, parcel.as_slice())?;
    parcel.clear();
    Ok(())
}
