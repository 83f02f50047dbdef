//! Laws of near rows, for proofs. None of these functions does anything: each one's contract is a law.

ghost use Rattle.near_rows.specs.NearRows.{NearRowsHaveFewestRuns};
ghost use Rattle.near_rows.specs.NearVersions.{NearRunsAreAtMostTheVersions, NearVersionsAreDetermined};
ghost use Rattle.near_rows.specs.NearPaths.{NearWalksAreBest};

/// Near walks are best: where a path exists, one list of near moves is spelled, which is a best path of the whole map.
pub fn near_walks_are_best()
    ensures { NearWalksAreBest }
{}

/// Near rows have the fewest runs that their widened sets allow.
pub fn near_rows_have_fewest_runs()
    ensures { NearRowsHaveFewestRuns }
{}

/// All near rows together have at most as many runs as the rows of the version.
pub fn near_runs_are_at_most_the_versions()
    ensures { NearRunsAreAtMostTheVersions }
{}

/// A version has one near version, however it is built.
pub fn near_versions_are_determined()
    ensures { NearVersionsAreDetermined }
{}
