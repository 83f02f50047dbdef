//! A law of rows, for proofs. The function does nothing: its contract is the law.

ghost use Rattle.run_pack.specs.Runs.{TightRowsHaveFewestRuns};

/// Tight rows have the fewest runs.
pub fn tight_rows_have_fewest_runs()
    ensures { TightRowsHaveFewestRuns }
{}
