//! The components of a former version that those to be built came of.
//!
//! An edit blocks or frees a few cells, and most rows of their component stay as they were. So what is built begins from
//! the rows of the component that it came of. These are hints, and no proof speaks of them: a row that is known is
//! right whatever it was found from.

ghost use Rattle.std.specs.Prelude.{IfOk, IfSome};
ghost use Rattle.build_pool.specs.Places.{AreSources};
ghost use Rattle.build_pool.specs.Pieces.{AreSome};

use crate::building::FEW_CELLS;
use build_pool::KnownRows;
use cell_order::OrderKind;
use components::Labels;
use kept_rows::rows_after;
use lane_rows::Near;
use moves::Cell;
use row_store::{CompData, RowPool};
use std::alloc::{AllocError, Global};
use std::sync::Arc;
use versions::Version;

/// How many of a component's cells, spread over its list, tell which one it came of. Some may have been freed just now,
/// and were in none then; and some may be of a small one that an edit joined to it.
const PROBES: usize = 8;

/// For each component of a map the former version's that it came of, where that is known and worth a look.
#[derive(Drop)]
pub(crate) struct Bases {
    comps: Vec<Option<Arc<CompData>>>,
}

impl Bases {
    /// What the components that are to be built came of. In another order than row by row one cell less or more moves
    /// most places of a row, and nothing is looked for.
    ///
    /// # Errors
    ///
    /// `AllocError` where memory runs out.
    pub(crate) fn of(
        alloc: Global,
        former: Option<&Version>,
        kind: OrderKind,
        labels: &Labels,
        kept: &[Option<Arc<CompData>>],
    ) -> Result<Bases, AllocError> {
        let mut comps = Vec::new(alloc);
        if let Some(version) = former
            && version.kind() == kind
            && kind == OrderKind::Rows
        {
            for label in 0..labels.count() {
                let is_kept = is_kept(kept, label as usize);
                comps.push(base_of(version, labels.cells(label), is_kept)?)?;
            }
        }
        Ok(Bases { comps })
    }

    /// What the component with that number came of.
    pub(crate) fn base(&self, label: usize) -> Base<'_> {
        match self.comps.get(label) {
            Some(comp) => Base::of(comp),
            None => Base { former: None },
        }
    }
}

/// Whether the component with that number is kept as a whole.
fn is_kept(kept: &[Option<Arc<CompData>>], label: usize) -> bool {
    match kept.get(label) {
        Some(comp) => comp.is_some(),
        None => false,
    }
}

/// What a component came of; `None` for one that is kept or small.
fn base_of(
    former: &Version,
    cells: &[Cell],
    is_kept: bool,
) -> Result<Option<Arc<CompData>>, AllocError> {
    if is_kept || cells.len() < FEW_CELLS {
        return Ok(None);
    }
    match greatest_with(former, cells) {
        Some(comp) => Ok(Some(Arc::try_clone(comp)?)),
        None => Ok(None),
    }
}

/// The greatest of the former version's components that have one of some cells, spread over a list.
fn greatest_with<'a>(former: &'a Version, cells: &[Cell]) -> Option<&'a Arc<CompData>> {
    let mut greatest = None;
    for number in 0..PROBES {
        let place = number.wrapping_mul(cells.len() / PROBES);
        if place < cells.len() {
            greatest = greater(greatest, comp_with(former, cells[place]));
        }
    }
    greatest
}

/// The one of two components that has more cells, the first where they have as many.
fn greater<'a>(
    first: Option<&'a Arc<CompData>>,
    second: Option<&'a Arc<CompData>>,
) -> Option<&'a Arc<CompData>> {
    if count_of(second) > count_of(first) {
        second
    } else {
        first
    }
}

/// How many cells a component has, if there is one.
fn count_of(comp: Option<&Arc<CompData>>) -> usize {
    match comp {
        Some(comp) => comp.cells().len(),
        None => 0,
    }
}

/// The former version's component that has the cell.
fn comp_with(former: &Version, cell: Cell) -> Option<&Arc<CompData>> {
    match former.labels().of(cell) {
        Some(label) => former.comps().get(label as usize),
        None => None,
    }
}

/// The former component that a component came of, if there is one: the rows that stay are known.
#[derive(Clone, Copy)]
pub(crate) struct Base<'a> {
    former: Option<&'a CompData>,
}

impl<'a> Base<'a> {
    /// The rows of this component are looked at, if there is one.
    fn of(comp: &'a Option<Arc<CompData>>) -> Base<'a> {
        match comp {
            Some(comp) => Base { former: Some(comp) },
            None => Base { former: None },
        }
    }

    /// The rows of the cells, which are all cells of a component in its order, that stay as they were; `None` where
    /// there is no former component, or none of its rows is known to stay.
    ///
    /// # Errors
    ///
    /// `AllocError` where memory runs out.
    pub(crate) fn rows(self, alloc: Global, cells: &[Cell]) -> Result<Option<RowPool>, AllocError>
        requires { AreSources cells.now }
        ensures { IfOk result (λ known. IfSome known (AreSome cells.now)) }
    {
        let Some(former) = self.former else {
            return Ok(None);
        };
        let near = Near::of(alloc, cells)?;
        rows_after(alloc, former, cells, &near)
    }
}

impl<'a> KnownRows for Base<'a> {
    fn known(
        &self,
        alloc: Global,
        cells: &[Cell],
        near: &Near,
    ) -> Result<Option<RowPool>, AllocError> {
        match self.former {
            Some(former) => rows_after(alloc, former, cells, near),
            None => Ok(None),
        }
    }
}
