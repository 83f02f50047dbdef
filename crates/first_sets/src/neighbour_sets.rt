//! Joins the sets of a cell's neighbours, by their places in lists that go row by row.

ghost use Rattle.std.specs.Prelude.{◌≡◌, ◌≢◌, ◌+◌, ◌^◌, ◌<◌, ◌≤◌, slice_index};
ghost use Rattle.first_sets.specs.Places.{AreBeside, AreDistances, CanJoin, IsJoined, IsStepKey, LeadsThere, StaysElse};

use moves::MAX_SIDE;
use root_cost::{DIAGONAL_KEY, STRAIGHT_KEY};

/// The mask of all eight moves.
const EVERY_MOVE: u8 = u8::MAX;

/// The distances from a cell to its neighbours in a list that goes row by row.
#[derive(Drop)]
pub(crate) struct Around {
    width: usize,
    distances: [usize; 8],
    ghost right: { AreDistances width distances },
}

impl Around {
    /// Returns the distances for rows of that width.
    pub(crate) fn of(width: usize) -> Around
        requires { width ≤ MAX_SIDE }
        ensures { result.width ≡ width }
    {
        let up = 0usize.wrapping_sub(width);
        let left = usize::MAX;
        Around {
            width,
            distances: [
                up,
                up.wrapping_add(1),
                1,
                width + 1,
                width,
                width.wrapping_add(left),
                left,
                up.wrapping_add(left),
            ],
        }
    }

    /// Returns the place to which the move with that number leads if it is legal, and otherwise the
    /// place itself.
    fn place_beside(&self, legal: u8, number: usize, place: usize) -> usize
        requires { number < 8 }
        ensures legal { LeadsThere self.now.width legal number place result }
        ensures otherwise { StaysElse legal number place result }
    {
        let bit = usize::from(legal >> number & 1);
        place.wrapping_add(self.distances[number].wrapping_mul(bit))
    }

    /// Returns the set at that place, joined with the set at each place beside it from which a step
    /// attains its key.
    pub(crate) fn join_beside(&self, sets: &[u8], keys: &[u32], legal: u8, place: usize) -> u8
        requires { CanJoin self.now.width keys.now sets.now legal place }
        ensures { IsJoined self.now.width keys.now sets.now legal place result }
    {
        if legal == EVERY_MOVE && keys[place] >= DIAGONAL_KEY {
            join_amid(self.width, sets, keys, place)
        } else {
            self.join_legal(sets, keys, legal, place)
        }
    }

    /// Joins the same sets by arithmetic, so that there is no branch to predict.
    fn join_legal(&self, sets: &[u8], keys: &[u32], legal: u8, place: usize) -> u8
        requires { CanJoin self.now.width keys.now sets.now legal place }
        ensures { IsJoined self.now.width keys.now sets.now legal place result }
    {
        let key = u64::from(keys[place]);
        let mut set = sets[place];
        for number in 0..8usize {
            let from = self.place_beside(legal, number, place);
            let step = u64::from(numbered_step_key(number));
            let attains = all_if_equal(u64::from(keys[from]) + step, key);
            set |= sets[from] & attains;
        }
        set
    }
}

/// Joins the same sets where all eight moves are legal and the key is at least that of a diagonal
/// step. It tests no move and adds nothing for a neighbour, and the neighbours' keys are
/// predictable, so branches are faster.
fn join_amid(width: usize, sets: &[u8], keys: &[u32], place: usize) -> u8
    requires open { CanJoin width keys.now sets.now EVERY_MOVE place }
    requires far { DIAGONAL_KEY ≤ slice_index keys.now place }
    ensures { IsJoined width keys.now sets.now EVERY_MOVE place result }
{
    let key = keys[place];
    let near = places_around(width, place);
    let mut set = sets[place];
    for number in 0..8usize {
        let from = near[number];
        if keys[from] == key - numbered_step_key(number) {
            set |= sets[from];
        }
    }
    set
}

/// Returns the places to which the eight moves lead.
fn places_around(width: usize, place: usize) -> [usize; 8]
    requires above { width + 1 ≤ place }
    requires size { place + width + 1 < 2 ^ 64 }
    ensures { AreBeside width place result }
{
    let (above, below) = (place - width, place + width);
    [
        above,
        above + 1,
        place + 1,
        below + 1,
        below,
        below - 1,
        place - 1,
        above - 1,
    ]
}

/// Returns the key of the step with that number: odd ones are diagonal.
fn numbered_step_key(number: usize) -> u32
    requires { number < 8 }
    ensures key { IsStepKey number result }
    ensures limit { result ≤ DIAGONAL_KEY }
{
    STRAIGHT_KEY + (DIAGONAL_KEY - STRAIGHT_KEY) * (number as u32 & 1)
}

/// Returns all ones if the two are equal, and otherwise 0; by arithmetic, so that there is no
/// branch to predict.
fn all_if_equal(a: u64, b: u64) -> u8
    requires a { a < 2 ^ 63 }
    requires b { b < 2 ^ 63 }
    ensures equal { a ≡ b → result ≡ 255 }
    ensures unequal { a ≢ b → result ≡ 0 }
{
    let over = (a ^ b).wrapping_sub(1) >> 63;
    0u8.wrapping_sub(over as u8)
}
