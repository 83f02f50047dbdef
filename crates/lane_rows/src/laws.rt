//! Laws, for proofs. None of these functions does anything: each one's contract is a law.

ghost use Rattle.lane_rows.specs.Laws.{SolvedKeysAreLeast, SolvedSetsAreFirst};
ghost use Rattle.lane_rows.specs.Visits.{VisitsKeepSettled};

/// Visits in any order keep settled who does not wait.
pub fn visits_keep_settled()
    ensures { VisitsKeepSettled }
{}

/// Keys that meet their equations are the keys of the least costs.
pub fn solved_keys_are_least()
    ensures { SolvedKeysAreLeast }
{}

/// Sets that meet their equations are the first sets.
pub fn solved_sets_are_first()
    ensures { SolvedSetsAreFirst }
{}
