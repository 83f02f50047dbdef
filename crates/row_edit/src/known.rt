//! What known sets tell of a place, and of the places of a run.

ghost use Rattle.std.specs.Prelude.{IfSome};
ghost use Rattle.row_edit.specs.Parts.{HoldsCommon, IsKnownAt, HoldsAllAt, HoldsOnlyOf};

use crate::PlaceSet;

/// The set of all eight moves.
const EVERY_MOVE: u8 = u8::MAX;

/// The moves that all known sets have from place `from` to before place `upto`: each move that all sets there have is
/// one of them.
pub(crate) fn shared(known: &[PlaceSet], from: u32, upto: u32) -> u8
    ensures { HoldsCommon known.now from upto result }
{
    let mut all = EVERY_MOVE;
    for one in known {
        if from <= one.place && one.place < upto {
            all &= one.set;
        }
    }
    all
}

/// The set of a place, where it is known.
fn set_at(known: &[PlaceSet], place: u32) -> Option<u8>
    ensures { IfSome result (IsKnownAt known.now place) }
{
    for one in known {
        if one.place == place {
            return Some(one.set);
        }
    }
    None
}

/// The set of a place, or all moves where it is not known.
pub(crate) fn most_at(known: &[PlaceSet], place: u32) -> u8
    ensures { HoldsAllAt known.now place result }
{
    match set_at(known, place) {
        Some(set) => set,
        None => EVERY_MOVE,
    }
}

/// The set of a place, or no move where it is not known.
pub(crate) fn least_at(known: &[PlaceSet], place: u32) -> u8
    ensures { HoldsOnlyOf known.now place result }
{
    match set_at(known, place) {
        Some(set) => set,
        None => 0,
    }
}
