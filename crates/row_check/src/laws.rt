//! Laws of faults, for proofs. The function does nothing: its contract is a law.

ghost use Rattle.row_check.specs.Faults.{RightRowsHaveNoFault};

/// The rows of a component have no fault.
pub fn right_rows_have_no_fault()
    ensures { RightRowsHaveNoFault }
{}
