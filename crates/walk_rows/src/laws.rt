//! Laws of databases, for proofs. None of these functions does anything: each one's contract is a law.

ghost use Rattle.walk_rows.specs.Existing.{ComponentsExist, DatabasesExist};

/// Each map has a list of components.
pub fn components_exist()
    ensures { ComponentsExist }
{}

/// Each map that may be searched has a database in each order, whether or not it is built.
pub fn databases_exist()
    ensures { DatabasesExist }
{}
