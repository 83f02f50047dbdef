//! Worked examples of the laws, on small maps (`specs/Examples.antt` draws them). None of these functions does
//! anything: each one's contract is an example.

ghost use Rattle.std.specs.Prelude.{◌∷◌, []};
ghost use Rattle.moves.specs.Components.{IsComponent};
ghost use Rattle.moves.specs.Maps.{is_cell};
ghost use Rattle.kept_sources.specs.Balls.{IsRoundAll};
ghost use Rattle.kept_sources.specs.Examples.{NorthAndSouth, OnlyEast, all_land, at, both_beside, field, ring, round_both, round_less_one, third_column, three, two_cells, west};
ghost use Rattle.kept_sources.specs.Gates.{IsApart, IsLeftByGates, IsPocket};
ghost use Rattle.kept_sources.specs.Parts.{without, without_all};

/// The ten cells round two blocked ones are a ball round both, and nine of them are none.
pub fn two_cells_have_this_ball()
    ensures all { IsRoundAll field (without_all field two_cells) round_both }
    ensures one_missing { IsRoundAll field (without_all field two_cells) round_less_one → ⊥ }
{}

/// The western part of a ring is cut off from a cell in the east by two gates. Two neighbours of the upper left of four
/// cells are no gates of it, since a diagonal move leads past them.
pub fn ring_has_these_gates()
    ensures gates { IsApart ring (without ring (at 4 1)) third_column west }
    ensures diagonal { IsLeftByGates (all_land 2 2) both_beside (is_cell (at 0 0)) → ⊥ }
{}

/// On a ring of eight cells the way from the west to the east costs as much by the gate in the north as by that in the
/// south, so the first set is the union of those to both.
pub fn both_ways_round_a_ring()
    ensures { NorthAndSouth }
{}

/// On a row of five cells the first two are a pocket with the third as its gate, where the last is blocked.
pub fn end_of_a_row_is_a_pocket()
    ensures { IsPocket (all_land 5 1) (without (all_land 5 1) (at 4 0)) (at 2 0) west }
{}

/// Where the middle one of three cells is blocked, the left one is a component by itself. So its first set to the right
/// one, on the map of all three, is that to the middle one.
pub fn three_cells_split()
    ensures part { IsComponent (without three (at 1 0)) (at 0 0 ∷ []) }
    ensures east { OnlyEast }
{}
