//! Laws of edits, for proofs. These functions do nothing: each contract is a law.

ghost use Rattle.edit_log.specs.EditLaws.{EditsGoOn, EditsHaveOneVerdict, EditsKeepSides};

/// Edits keep the sides of a map, so cells inside it stay inside.
pub fn edits_keep_sides()
    ensures { EditsKeepSides }
{}

/// The map after some edits and then more is the map after the first ones, changed by the rest.
pub fn edits_go_on()
    ensures { EditsGoOn }
{}

/// An edit has only one verdict on a map after a number of accepted edits.
pub fn edits_have_one_verdict()
    ensures { EditsHaveOneVerdict }
{}
