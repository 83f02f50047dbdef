//! Laws of databases, for proofs. These functions do nothing: each contract is a law.

ghost use Rattle.versions.specs.Answers.{QueriesHaveOneAnswer, WalksAreBest};
ghost use Rattle.versions.specs.Databases.{DatabasesAreDetermined};
ghost use Rattle.versions.specs.FewestRuns.{VersionsHaveFewestRuns};

/// A map has only one database in each order, however it is built.
pub fn databases_are_determined()
    ensures { DatabasesAreDetermined }
{}

/// Each row of a version has the fewest runs of all rows that name a first move of a best path to each cell.
pub fn versions_have_fewest_runs()
    ensures { VersionsHaveFewestRuns }
{}

/// Walks are best: if a path exists, the database spells one walk, which is a best path of the
/// whole map.
pub fn walks_are_best()
    ensures { WalksAreBest }
{}

/// Each query of a version has exactly one answer: why it is refused, that no path exists, or the
/// walk.
pub fn queries_have_one_answer()
    ensures { QueriesHaveOneAnswer }
{}
