//! Gates that part some cells from those of the gaps.

ghost use Rattle.std.specs.Prelude.{◌≡◌, ℕ, ◌<◌, IsTrue, length, slice_index};
ghost use Rattle.kept_rows.specs.Pairs.{CanBePair};

use crate::flow::{Band, Flow, Heading, edges_at};
use crate::gap::place_before;
use crate::pair::Pair;
use crate::targets::are_inside;
use crate::verdict::{Verdict, count_open_in};
use lane_rows::LANES;
use std::alloc::{AllocError, Global};

/// How many moves from the gaps the gates are sought: from so many to twice as many and four, in the order in which they
/// told most of the maps that were met.
const RADII: [u16; 6] = [8, 12, 16, 6, 24, 4];

/// How often gates are sought: at each of the radii, and in all directions behind the first of them.
const TURNS: usize = RADII.len() + 1;

/// With how many undecided cells a side is worth a pair of tiles.
pub(crate) const WORTH_A_PAIR: usize = 160;

/// Some gates, and the side that is left by them alone, by places of the shorter list. Nothing of it is believed.
#[derive(Drop)]
pub(crate) struct Cut {
    /// The gates of the lanes; that of the last lane is none.
    pub gates: [u16; LANES],
    /// How many gates there are. The lanes behind them have the last one.
    pub count: usize,
    /// Whether each place is of the side.
    pub side: Vec<bool>,
}

impl Cut {
    /// Whether its places are those of so many cells.
    pub(crate) fn is_of(&self, count: usize) -> bool
        ensures side { IsTrue result → length self.now.side.items ≡ count }
        ensures gates { IsTrue result → (lane : ℕ) → lane < 16
            → slice_index self.now.gates lane < count }
    {
        self.side.len() == count && are_inside(self.gates, count)
    }
}

/// Cuts beside the gaps, one after the other: round them, or beyond them in a direction. What lies beyond the gates falls
/// into sides that no move joins, and each of them has its own gates: a side may see all as before where another does not.
/// Where rooms are joined by doors, costs to the gates all round change for most sources, and those to the gates in one
/// direction for few.
#[derive(Drop)]
pub(crate) struct Cuts {
    alloc: Global,
    flow: Flow,
    /// How often gates were sought.
    turn: usize,
    /// The last gates, by places of the longer list.
    gates: Vec<usize>,
    /// The gates before them.
    former: Vec<usize>,
    /// The sides of the last turn that were not given yet.
    cuts: Vec<Cut>,
}

impl Cuts {
    /// The cuts round the gaps of a pair of lists.
    ///
    /// # Errors
    ///
    /// `AllocError` where memory runs out.
    pub(crate) fn new(alloc: Global, pair: &Pair) -> Result<Cuts, AllocError>
        requires can { CanBePair pair.now.whole pair.now.part pair.now.gaps.now }
    {
        Ok(Cuts {
            alloc,
            flow: Flow::new(alloc, &pair.whole, pair.gaps)?,
            turn: 0,
            gates: Vec::with_capacity(alloc, LANES)?,
            former: Vec::with_capacity(alloc, LANES)?,
            cuts: Vec::new(alloc),
        })
    }

    /// The next cut with enough undecided cells on its side, if there is one.
    ///
    /// # Errors
    ///
    /// `AllocError` where memory runs out.
    pub(crate) fn next(
        &mut self,
        pair: &Pair,
        verdicts: &[Verdict],
    ) -> Result<Option<Cut>, AllocError>
        requires can { CanBePair pair.now.whole pair.now.part pair.now.gaps.now }
    {
        for turn in self.turn..TURNS {
            if let Some(cut) = self.next_side(verdicts) {
                return Ok(Some(cut));
            }
            self.turn = turn.wrapping_add(1);
            self.note_turn(pair, turn)?;
        }
        Ok(self.next_side(verdicts))
    }

    /// The side of the last turn with the most undecided cells, where they are enough.
    fn next_side(&mut self, verdicts: &[Verdict]) -> Option<Cut> {
        let mut best = 0usize;
        let mut most = 0usize;
        for (number, cut) in self.cuts.iter().enumerate() {
            let open = count_open_in(verdicts, &cut.side);
            if open > most {
                best = number;
                most = open;
            }
        }
        if most < WORTH_A_PAIR || best >= self.cuts.len() {
            self.cuts.clear();
            return None;
        }
        Some(self.cuts.swap_remove(best))
    }

    /// Notes the sides of a turn.
    fn note_turn(&mut self, pair: &Pair, turn: usize) -> Result<(), AllocError>
        requires can { CanBePair pair.now.whole pair.now.part pair.now.gaps.now }
    {
        match turn {
            0 => self.note_band(pair, Band::Ring(RADII[0])),
            1 => self.note_directions(pair),
            _ if turn <= RADII.len() => self.note_band(pair, Band::Ring(RADII[turn - 1])),
            _ => Ok(()),
        }
    }

    /// Notes the sides in all directions.
    fn note_directions(&mut self, pair: &Pair) -> Result<(), AllocError>
        requires can { CanBePair pair.now.whole pair.now.part pair.now.gaps.now }
    {
        self.note_band(pair, Band::Beyond(Heading::North))?;
        self.note_band(pair, Band::Beyond(Heading::East))?;
        self.note_band(pair, Band::Beyond(Heading::South))?;
        self.note_band(pair, Band::Beyond(Heading::West))
    }

    /// Notes the sides beyond the gates of a band, where these are others than before.
    fn note_band(&mut self, pair: &Pair, band: Band) -> Result<(), AllocError>
        requires can { CanBePair pair.now.whole pair.now.part pair.now.gaps.now }
    {
        self.former.clear();
        for gate in self.gates.iter() {
            self.former.push(*gate)?;
        }
        self.gates.clear();
        if self.flow.find_gates(&pair.whole, band, &mut self.gates)? && !self.is_as_before() {
            self.note_sides(pair)?;
        }
        Ok(())
    }

    /// Whether the gates are those of the cut before.
    fn is_as_before(&self) -> bool {
        self.gates.as_slice() == self.former.as_slice()
    }

    /// Notes a cut for each side beyond the gates that is large enough.
    fn note_sides(&mut self, pair: &Pair) -> Result<(), AllocError>
        requires can { CanBePair pair.now.whole pair.now.part pair.now.gaps.now }
    {
        let count = pair.whole.cells().len();
        let mut met = vec![in self.alloc; false; count]?;
        for gate in self.gates.iter() {
            mark(&mut met, *gate);
        }
        for gap in pair.gaps.iter() {
            self.flood(pair, *gap, &mut met)?;
        }
        for place in 0..count {
            if !is_marked(&met, place) {
                let side = self.flood(pair, place, &mut met)?;
                if side.len() >= WORTH_A_PAIR {
                    let cut = self.cut_of(pair, &side)?;
                    self.cuts.push(cut)?;
                }
            }
        }
        Ok(())
    }

    /// The cut of a side, whose places are those of the longer list.
    fn cut_of(&self, pair: &Pair, side: &[usize]) -> Result<Cut, AllocError>
        requires can { CanBePair pair.now.whole pair.now.part pair.now.gaps.now }
    {
        let mut marks = vec![in self.alloc; false; pair.part.cells().len()]?;
        for place in side.iter() {
            mark(&mut marks, place_before(pair.gaps, *place));
        }
        let mut gates = [0u16; LANES];
        let mut count = 0usize;
        for gate in self.gates.iter() {
            if leads_to(pair, *gate, &marks) {
                let place = u16::try_from(place_before(pair.gaps, *gate)).unwrap_or(0);
                for lane in count..LANES {
                    gates[lane] = place;
                }
                count = count.saturating_add(1);
            }
        }
        Ok(Cut {
            gates,
            count,
            side: marks,
        })
    }

    /// Marks the places of the longer list to which one comes from a place past none that is marked, and gives them.
    fn flood(&self, pair: &Pair, from: usize, marks: &mut [bool]) -> Result<Vec<usize>, AllocError>
        requires can { CanBePair pair.now.whole pair.now.part pair.now.gaps.now }
    {
        let mut queue = Vec::new(self.alloc);
        if mark(marks, from) {
            queue.push(from)?;
        }
        for head in 0..pair.whole.cells().len() {
            if head >= queue.len() {
                return Ok(queue);
            }
            for to in edges_at(&pair.whole, queue[head]) {
                if mark(marks, usize::from(to)) {
                    queue.push(usize::from(to))?;
                }
            }
        }
        Ok(queue)
    }
}

/// Whether some move leads from a place of the longer list to one that is marked in the shorter list.
fn leads_to(pair: &Pair, from: usize, marks: &[bool]) -> bool
    requires can { CanBePair pair.now.whole pair.now.part pair.now.gaps.now }
{
    for to in edges_at(&pair.whole, from) {
        let to = usize::from(to);
        if !pair.gaps.contains(&to) && is_marked(marks, place_before(pair.gaps, to)) {
            return true;
        }
    }
    false
}

/// Whether a place is marked.
fn is_marked(marks: &[bool], place: usize) -> bool {
    place < marks.len() && marks[place]
}

/// Marks a place, and says whether it was not marked.
fn mark(marks: &mut [bool], place: usize) -> bool {
    if place < marks.len() && !marks[place] {
        marks[place] = true;
        true
    } else {
        false
    }
}
