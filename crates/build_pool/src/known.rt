//! What is known of the rows of a component before any of them is built.
//!
//! Most rows stay as they are when one cell of a component is blocked or freed. Whoever knows such rows hands them to
//! the build, which then searches from the other cells alone.

ghost use Rattle.std.specs.Prelude.{IfOk, IfSome};
ghost use Rattle.build_pool.specs.Places.{AreWithNear};
ghost use Rattle.build_pool.specs.Pieces.{AreSome};

use lane_rows::Near;
use moves::Cell;
use row_store::RowPool;
use std::alloc::{AllocError, Global};

/// Some rows of a component that are known before it is built.
pub trait KnownRows {
    /// The rows of some of the cells, which are all cells of a component in its order, beside the table of their
    /// neighbours. Rows that are not known are blank. `None` where none is known.
    ///
    /// # Errors
    ///
    /// `AllocError` where memory runs out.
    fn known(
        &self,
        alloc: Global,
        cells: &[Cell],
        near: &Near,
    ) -> Result<Option<RowPool>, AllocError>
        requires table { AreWithNear cells.now near.now }
        ensures { IfOk result (λ known. IfSome known (AreSome cells.now)) };
}

/// No row is known.
#[derive(Clone, Copy, Debug, Default)]
pub struct NoneKnown;

impl KnownRows for NoneKnown {
    fn known(
        &self,
        _alloc: Global,
        _cells: &[Cell],
        _near: &Near,
    ) -> Result<Option<RowPool>, AllocError> {
        Ok(None)
    }
}
