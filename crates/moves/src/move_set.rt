//! Sets of moves.

ghost use Rattle.std.specs.Prelude.{◌≡◌, ℕ, ◌<◌, ◌⊎◌, ◌↔◌, IsTrue, MatchOption};
ghost use Rattle.moves.specs.declared.Move.{Move};
ghost use Rattle.moves.specs.MoveSets.{Has, IsEmpty, IsJoin, IsLeastIn, IsMeet, IsWith};

use crate::Move;
use std::marker::Model;

/// A set of moves, kept as eight bits: bit i for the move with number i.
#[derive(Clone, Copy, Debug, Default, PartialEq, Eq)]
pub struct MoveSet {
    mask: u8,
}

impl Model for MoveSet {
    ghost use Rattle.std.specs.Prelude.{ℕ, ◌<◌};

    ghost Value = { ℕ };

    ghost view = { λ s. s.mask };

    ghost invariant = { λ s. s.mask < 256 };

    ghost inverse = { λ mask. record { mask = mask } };
}

impl MoveSet {
    /// The empty set.
    pub const NONE: MoveSet = MoveSet { mask: 0 };

    /// The set of all eight moves.
    pub const ALL: MoveSet = MoveSet { mask: 255 };

    /// Returns the set with the moves whose bits are set: bit i for the move with number i.
    pub fn of_mask(mask: u8) -> MoveSet
        ensures { result ≡ mask }
    {
        MoveSet { mask }
    }

    /// Returns the set as eight bits: bit i is set if the move with number i is in it.
    pub fn mask(self) -> u8
        ensures { result ≡ self }
    {
        self.mask
    }

    /// Returns whether the move is in the set.
    pub fn has(self, m: Move) -> bool
        ensures { IsTrue result ↔ Has self m }
    {
        self.mask >> m.number() & 1 == 1
    }

    /// Returns the moves that are in both sets.
    pub fn meet(self, other: MoveSet) -> MoveSet
        ensures { IsMeet result self other }
    {
        MoveSet {
            mask: self.mask & other.mask,
        }
    }

    /// Returns the moves that are in either set.
    pub fn join(self, other: MoveSet) -> MoveSet
        ensures { IsJoin result self other }
    {
        MoveSet {
            mask: self.mask | other.mask,
        }
    }

    /// Returns the set with that move added.
    pub fn with(self, m: Move) -> MoveSet
        ensures { IsWith result self m }
    {
        MoveSet {
            mask: self.mask | 1 << m.number(),
        }
    }

    /// Returns whether the set is empty.
    pub fn is_none(self) -> bool
        ensures { IsTrue result ↔ IsEmpty self }
    {
        self.mask == 0
    }

    /// Returns the move with the lowest number in the set, and `None` exactly when the set is
    /// empty.
    pub fn least(self) -> Option<Move>
        ensures { MatchOption result (IsEmpty self) (IsLeastIn self) }
    {
        Move::of(self.mask.trailing_zeros() as u8)
    }
}
