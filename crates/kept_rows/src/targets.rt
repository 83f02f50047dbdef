//! The cells to which first sets are compared: those round the gaps first, and then those beside which most cells fail.
//! Nothing is believed of a choice but what is checked of it.

ghost use Rattle.std.specs.Prelude.{ℕ, ◌<◌, ◌≤◌, IsTrue, IfSome, length, slice_index};
ghost use Rattle.kept_rows.specs.Targets.{AreTargets};
ghost use Rattle.kept_rows.specs.Pairs.{CanBePair, CanBeSearched};

use crate::ball::{MAX_BALL, is_among, is_beside};
use crate::pair::Pair;
use crate::side::Side;
use lane_rows::LANES;
use moves::{Cell, MAX_PASSABLE};

/// How many of the lanes have cells of the shorter list. The last one has the cell of the first gap.
pub(crate) const SHARED_LANES: usize = 15;

/// How many cells the first pair gives to the ball at most, so that two more find a lane.
const MAX_FIRST: usize = 13;

/// Places in all lanes, of which so many first ones are for the ball.
#[derive(Clone, Copy, Debug)]
pub(crate) struct Targets {
    pub sources: [u16; LANES],
    pub count: usize,
}

impl Targets {
    /// None for the ball.
    fn none() -> Targets
        ensures { result.count < 16 }
    {
        Targets {
            sources: [0; LANES],
            count: 0,
        }
    }

    /// Adds a place where it is not there yet and so many lanes are not taken. The lanes behind it have it too.
    fn add(&mut self, place: usize, limit: usize)
        requires place { place < MAX_PASSABLE }
        requires limit { limit < 16 }
        requires count { self.old.count < 16 }
        ensures { self.new.count < 16 }
    {
        if self.count < limit && !is_among(&self.sources, self.count, place) {
            for lane in self.count..LANES {
                self.sources[lane] = place as u16;
            }
            self.count += 1;
        }
    }

    /// The same, where all lanes have places among so many.
    fn checked(self, count: usize) -> Option<Targets>
        requires { self.count < 16 }
        ensures { IfSome result (λ targets. (targets.count < 16) × ((lane : ℕ) → lane < 16
            → slice_index targets.sources lane < count)) }
    {
        if are_inside(self.sources, count) {
            Some(self)
        } else {
            None
        }
    }
}

/// The first targets: cells beside those of the gaps for the ball, those next to the gaps in the list first; and then
/// all that are next to the gaps, as far as they find a lane.
pub(crate) fn first_targets(pair: &Pair) -> Option<Targets>
    requires can { CanBePair pair.now.whole pair.now.part pair.now.gaps.now }
    ensures { IfSome result (λ targets. AreTargets pair.now.part.cells targets.sources targets.count) }
{
    let mut targets = Targets::none();
    add_next(pair, true, &mut targets);
    add_round(pair, &[], MAX_FIRST, &mut targets);
    let count = targets.count;
    add_next(pair, false, &mut targets);
    let sources = targets.sources;
    Targets { sources, count }.checked(pair.part.cells().len())
}

/// The next targets for a ball that has not all cells beside those of the gaps: some of the others. `None` where there
/// are none.
pub(crate) fn round_targets(pair: &Pair, ball: &[u16]) -> Option<Targets>
    requires can { CanBePair pair.now.whole pair.now.part pair.now.gaps.now }
    ensures { IfSome result (λ targets. AreTargets pair.now.part.cells targets.sources targets.count) }
{
    let mut targets = Targets::none();
    add_round(pair, ball, SHARED_LANES, &mut targets);
    if targets.count == 0 {
        return None;
    }
    targets.checked(pair.part.cells().len())
}

/// The next targets for a ball: the cells beside those of it at which most undecided cells fail. `None` where none
/// fails, or nothing is beside them.
pub(crate) fn next_targets(part: &Side, ball: &[u16], fails: [u32; MAX_BALL]) -> Option<Targets>
    requires can { CanBeSearched part.now }
    ensures { IfSome result (λ targets. AreTargets part.now.cells targets.sources targets.count) }
{
    let mut targets = Targets::none();
    let mut left = fails;
    for _ in 0..SHARED_LANES {
        let worst = greatest(left);
        if left[worst] > 0 && worst < ball.len() {
            add_beside(part, ball, usize::from(ball[worst]), &mut targets);
        }
        left[worst] = 0;
    }
    if targets.count == 0 {
        return None;
    }
    fill(part, ball, &mut targets);
    targets.checked(part.cells().len())
}

/// Adds the cells next to the gaps in the shorter list, all of them or those that are beside a gap's cell.
fn add_next(pair: &Pair, beside: bool, targets: &mut Targets)
    requires can { CanBePair pair.now.whole pair.now.part pair.now.gaps.now }
    requires count { targets.old.count < 16 }
    ensures { targets.new.count < 16 }
{
    let (whole, cells) = (pair.whole.cells(), pair.part.cells());
    for (number, gap) in pair.gaps.iter().enumerate() {
        if *gap < whole.len() {
            let behind = gap.saturating_sub(number);
            add_one(cells, whole[*gap], behind.wrapping_sub(1), beside, targets);
            add_one(cells, whole[*gap], behind, beside, targets);
        }
    }
}

/// Adds a cell next to a gap, if it is one, and is beside the gap's cell where that is asked for. Without that it may
/// have one of the last lanes.
fn add_one(cells: &[Cell], hole: Cell, place: usize, beside: bool, targets: &mut Targets)
    requires few { length cells.now ≤ MAX_PASSABLE }
    requires count { targets.old.count < 16 }
    ensures { targets.new.count < 16 }
{
    if place >= cells.len() || beside && !is_beside(hole, cells[place]) {
        return;
    }
    targets.add(place, if beside { MAX_FIRST } else { SHARED_LANES });
}

/// Adds the cells beside those of the gaps that are not in the ball.
fn add_round(pair: &Pair, ball: &[u16], limit: usize, targets: &mut Targets)
    requires can { CanBePair pair.now.whole pair.now.part pair.now.gaps.now }
    requires limit { limit < 16 }
    requires count { targets.old.count < 16 }
    ensures { targets.new.count < 16 }
{
    let (whole, cells) = (pair.whole.cells(), pair.part.cells());
    for gap in pair.gaps.iter() {
        if *gap < whole.len() {
            add_round_one(cells, whole[*gap], ball, limit, targets);
        }
    }
}

/// Adds the cells beside one that are not in the ball.
fn add_round_one(cells: &[Cell], hole: Cell, ball: &[u16], limit: usize, targets: &mut Targets)
    requires few { length cells.now ≤ MAX_PASSABLE }
    requires limit { limit < 16 }
    requires count { targets.old.count < 16 }
    ensures { targets.new.count < 16 }
{
    for (place, cell) in cells.iter().enumerate() {
        if is_beside(hole, *cell) && !is_among(ball, ball.len(), place) {
            targets.add(place, limit);
        }
    }
}

/// Fills the other lanes with cells beside those that have one.
fn fill(part: &Side, ball: &[u16], targets: &mut Targets)
    requires can { CanBeSearched part.now }
    requires count { targets.old.count < 16 }
    ensures { targets.new.count < 16 }
{
    for lane in 0..SHARED_LANES {
        if lane < targets.count {
            let place = usize::from(targets.sources[lane]);
            add_beside(part, ball, place, targets);
        }
    }
}

/// Where the greatest number stands, the first of equal ones.
fn greatest(numbers: [u32; MAX_BALL]) -> usize
    ensures { result < MAX_BALL }
{
    let mut best = 0usize;
    for index in 0..MAX_BALL {
        if numbers[index] > numbers[best] {
            best = index;
        }
    }
    best
}

/// Adds the cells to which moves lead from a place, and that are not in the ball.
fn add_beside(part: &Side, ball: &[u16], place: usize, targets: &mut Targets)
    requires can { CanBeSearched part.now }
    requires count { targets.old.count < 16 }
    ensures { targets.new.count < 16 }
{
    let count = part.cells().len();
    if place < count {
        add_ends(part.edges(place), count, ball, targets);
    }
}

/// Adds those of some places, among so many, that are not in the ball.
fn add_ends(ends: [u16; 8], count: usize, ball: &[u16], targets: &mut Targets)
    requires few { count ≤ MAX_PASSABLE }
    requires count { targets.old.count < 16 }
    ensures { targets.new.count < 16 }
{
    for number in 0..8 {
        let place = usize::from(ends[number]);
        if place < count && !is_among(ball, ball.len(), place) {
            targets.add(place, SHARED_LANES);
        }
    }
}

/// Whether all places are among so many.
pub(crate) fn are_inside(sources: [u16; LANES], count: usize) -> bool
    ensures { IsTrue result → (lane : ℕ) → lane < 16 → slice_index sources lane < count }
{
    for lane in 0..LANES {
        if usize::from(sources[lane]) >= count {
            return false;
        }
    }
    true
}
