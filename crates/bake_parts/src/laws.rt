//! Laws of parts, for proofs. None of these functions does anything: each one's contract is a law.

ghost use Rattle.std.specs.Prelude.{◌≡◌};
ghost use Rattle.bake_parts.specs.Examples.{last_two, last_two_words};
ghost use Rattle.bake_parts.specs.Laws.{FirstVersionsExist};
ghost use Rattle.bake_parts.specs.Parts.{part_of};
ghost use Rattle.path_image.specs.Examples.{three_cells};

/// Each map that may be searched has one version before all edits, in each order.
pub fn first_versions_exist()
    ensures { FirstVersionsExist }
{}

/// The part of the last two cells of the map `...`, word by word.
pub fn last_two_are_these_words()
    ensures { part_of three_cells last_two ≡ last_two_words }
{}
