//! Tests on sets of moves.

ghost use Rattle.std.specs.Prelude.{ℕ, ◌≡◌, ◌<◌, IsTrue};
ghost use Rattle.run_pack.specs.Sets.{Has, ShareNone};
ghost use Rattle.row_edit.specs.Parts.{IsWithin, LeavesRest, HasNoneBelow};

/// Whether the move is in the set.
pub(crate) fn has(set: u8, mv: u8) -> bool
    requires { mv < 8 }
    ensures { IsTrue result → Has set mv }
{
    set >> mv & 1 == 1
}

/// Whether two sets share no move.
pub(crate) fn is_apart(set: u8, other: u8) -> bool
    ensures { IsTrue result → ShareNone set other }
{
    set & other == 0
}

/// Whether each move of the set is in the other.
pub(crate) fn is_within(set: u8, other: u8) -> bool
    ensures { IsTrue result → IsWithin set other }
{
    set & other == set
}

/// The moves of the set that are not in the other.
pub(crate) fn rest_of(set: u8, other: u8) -> u8
    ensures { LeavesRest set other result }
{
    set & !other
}

/// Whether no move of the set is below this one.
pub(crate) fn has_none_below(set: u8, mv: u8) -> bool
    ensures { IsTrue result → HasNoneBelow set mv }
{
    set.trailing_zeros() >= u32::from(mv)
}

/// The moves that are in both sets.
pub(crate) fn both(set: u8, other: u8) -> u8
    ensures { (move : ℕ) → Has set move → Has other move → Has result move }
{
    set & other
}
