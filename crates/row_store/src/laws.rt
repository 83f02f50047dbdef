//! Laws of the rows of components, for proofs. These functions do nothing: each contract is a law.

ghost use Rattle.row_store.specs.Rows.{RowsAreUnique, ComponentsKeepEachRow, ComponentsKeepRows};

/// Cells in a given order have only one list of rows.
pub fn rows_are_unique()
    ensures { RowsAreUnique }
{}

/// The rows over a component's cells alone are the same as over the whole map.
pub fn components_keep_rows()
    ensures each { ComponentsKeepEachRow }
    ensures all { ComponentsKeepRows }
{}
