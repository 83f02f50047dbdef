//! The components of a file's map, with the rows that the file has for them.

ghost use Rattle.std.specs.Prelude.{◌≡◌, ◌≤◌, ◌<◌, ◌^◌, length, map, All, IfErr, IfOk};
ghost use Rattle.moves.specs.Components.{IsComponentList};
ghost use Rattle.cell_order.specs.Orders.{ordered};
ghost use Rattle.path_file.specs.Files.{comps_bytes, rows_bytes};
ghost use Rattle.path_file.specs.Fields.{AreFileRows, free_in};
ghost use Rattle.path_file.specs.Readings.{AreParts, ArePartsRefused, CanBeOrdered, IsReady, IsRowsRefusal, Passes};

use crate::fault::DbError;
use crate::lists::push;
use crate::reader::Reader;
use crate::rows::read_rows;
use cell_order::{OrderKind, order_of};
use components::Labels;
use moves::{Cell, Grid, MAX_PASSABLE};
use row_store::RowPool;
use std::alloc::Global;
use std::marker::Model;

/// A component as it is read: its cells in their order, and a row for each, which need not be right.
#[derive(Drop)]
pub(crate) struct Part {
    pub cells: Vec<Cell>,
    pub rows: RowPool,
}

impl Model for Part {
    ghost use Rattle.path_file.specs.Readings.{Parted};

    ghost Value = { Parted };

    ghost view = { λ p. record { cells = p.cells.items; rows = p.rows } };
}

/// Reads the rows of all components of a map.
pub(crate) fn read_parts(
    alloc: Global,
    reader: &mut Reader,
    order: OrderKind,
    grid: &Grid,
    labels: &Labels,
) -> Result<Vec<Part>, DbError>
    requires few { free_in grid.now.terrain ≤ MAX_PASSABLE }
    requires listed { IsComponentList grid.now labels.now }
    ensures rows { IfOk result (λ parts.
        Passes reader.old reader.new (comps_bytes (map (λ part. part.rows) parts.items))) }
    ensures few { IfOk result (λ parts. length parts.items < 2 ^ 32) }
    ensures parts { IfOk result (λ parts. AreParts order labels.now parts.items) }
    ensures ready { IfOk result (λ parts. All IsReady parts.items) }
    ensures fault { IfErr result (ArePartsRefused reader.old grid.now) }
{
    // That the map lies inside the limits is known from its width.
    let _width = grid.width();
    let mut parts = Vec::with_capacity(alloc, labels.count() as usize)?;
    for label in 0..labels.count() {
        let part = read_part(alloc, reader, order, labels.cells(label), label)?;
        push(&mut parts, part)?;
    }
    Ok(parts)
}

/// Reads the rows of a component, whose cells are given row by row.
fn read_part(
    alloc: Global,
    reader: &mut Reader,
    order: OrderKind,
    cells: &[Cell],
    label: u32,
) -> Result<Part, DbError>
    requires { CanBeOrdered cells.now }
    ensures cells { IfOk result (λ part. part.cells ≡ ordered order cells.now) }
    ensures rows { IfOk result (λ part. Passes reader.old reader.new (rows_bytes part.rows)) }
    ensures shaped { IfOk result (λ part. AreFileRows (length cells.now) part.rows) }
    ensures ready { IfOk result IsReady }
    ensures fault { IfErr result (IsRowsRefusal reader.old label (length cells.now)) }
{
    let ordered = order_of(alloc, order, cells)?;
    let rows = read_rows(alloc, reader, label, cells.len() as u32)?;
    Ok(Part {
        cells: ordered,
        rows,
    })
}
