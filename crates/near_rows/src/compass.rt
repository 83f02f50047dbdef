//! The compass move between two cells, and how far they are apart.

ghost use Rattle.std.specs.Prelude.{◌≡◌, ℕ, ◌≤◌, ◌↔◌, MatchOption};
ghost use Rattle.near_rows.specs.Compass.{IsCompass, IsInSquare};

use moves::{Cell, Move};

/// The compass move from a cell to another; `None` exactly where the two are one.
#[inline]
pub(crate) fn compass(from: Cell, to: Cell) -> Option<Move>
    ensures { MatchOption result (from ≡ to) (λ move. IsCompass from move to) }
{
    let (north, south) = (to.y < from.y, from.y < to.y);
    let by = if from.x < to.x {
        if north {
            Move::NE
        } else if south {
            Move::SE
        } else {
            Move::E
        }
    } else if to.x < from.x {
        if north {
            Move::NW
        } else if south {
            Move::SW
        } else {
            Move::W
        }
    } else if north {
        Move::N
    } else if south {
        Move::S
    } else {
        return None;
    };
    Some(by)
}

/// The radius of the least square round the one cell that has the other.
#[inline]
pub(crate) fn distance(from: Cell, to: Cell) -> u16
    ensures { (radius : ℕ) → (result ≤ radius) ↔ IsInSquare from radius to }
{
    from.x.abs_diff(to.x).max(from.y.abs_diff(to.y))
}
