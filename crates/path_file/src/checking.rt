//! Components made of what was read, where their rows are right.

ghost use Rattle.std.specs.Prelude.{◌≡◌, ◌<◌, ◌^◌, length, map, All, IfErr, IfOk, OnOk};
ghost use Rattle.std.specs.Arc.{arc_value};
ghost use Rattle.row_store.specs.Rows.{AreRows};
ghost use Rattle.path_file.specs.Readings.{IsReady, IsRefusalOfPart, IsRefusalOfParts, comp_of, db_fault};

use crate::fault::{DbError, DbFault};
use crate::lists::push;
use crate::parts::Part;
use cell_order::OrderKind;
use row_check::{RowFault, check_rows};
use row_store::CompData;
use std::alloc::{AllocError, Global};
use std::sync::Arc;

/// The components of these parts, where the rows of each are right; else the first fault of the first whose are not.
pub(crate) fn comps_of(
    alloc: Global,
    order: OrderKind,
    parts: Vec<Part>,
) -> Result<Vec<Arc<CompData>>, DbError>
    requires few { length parts.items < 2 ^ 32 }
    requires ready { All IsReady parts.items }
    ensures comps { IfOk result (λ comps.
        map arc_value comps.items ≡ map (comp_of order) parts.items) }
    ensures rows { IfOk result (λ _. All (λ part. AreRows part.cells part.rows) parts.items) }
    ensures fault { IfErr result (IsRefusalOfParts parts.items) }
{
    let mut comps = Vec::with_capacity(alloc, parts.len())?;
    for part in parts {
        check_part(alloc, comps.len() as u32, &part)?;
        push(&mut comps, comp_from(alloc, order, part)?)?;
    }
    Ok(comps)
}

/// Whether the rows of a component are right; else their first fault.
fn check_part(alloc: Global, comp: u32, part: &Part) -> Result<(), DbError>
    requires ready { IsReady part.now }
    ensures rows { OnOk result (AreRows part.now.cells part.now.rows) }
    ensures fault { IfErr result (IsRefusalOfPart comp part.now) }
{
    match check_rows(alloc, &part.cells, &part.rows)? {
        None => Ok(()),
        Some(fault) => Err(DbError::Fault(db_fault(comp, fault))),
    }
}

/// A fault of the rows of a component, as the file's.
fn db_fault(comp: u32, fault: RowFault) -> DbFault
    ensures { result ≡ db_fault comp fault }
{
    match fault {
        RowFault::Walk { target, source } => DbFault::Walk {
            comp,
            target,
            source,
        },
        RowFault::Worse { target, source } => DbFault::Worse {
            comp,
            target,
            source,
        },
        RowFault::Loose { target, source } => DbFault::Loose {
            comp,
            target,
            source,
        },
    }
}

/// The component of a part whose rows are right.
fn comp_from(alloc: Global, order: OrderKind, part: Part) -> Result<Arc<CompData>, AllocError>
    requires ready { IsReady part }
    requires rows { AreRows part.cells part.rows }
    ensures { IfOk result (λ comp. arc_value comp ≡ comp_of order part) }
{
    let Part { cells, rows } = part;
    let comp = CompData::of_pool(alloc, order, cells, rows)?;
    Ok(Arc::new(alloc, comp)?)
}
