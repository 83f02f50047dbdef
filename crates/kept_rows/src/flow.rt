//! Few cells by which alone one can leave the surroundings of the gaps: paths that share no cell are found one after the
//! other, and where no more is found the cells at which the search ended are the fewest. (Ford and Fulkerson 1956)

ghost use Rattle.kept_rows.specs.Pairs.{CanBeSearched};

use crate::side::Side;
use crate::targets::SHARED_LANES;
use moves::Cell;
use std::alloc::{AllocError, Global};

/// The distance of places to which no way leads.
const UNREACHED: u16 = u16::MAX;

/// No place.
const NOWHERE: usize = usize::MAX;

/// How many moves from the gaps all cells are near, whatever their direction.
const CLOSE: u16 = 2;

/// How many columns or rows beyond the first gap the cells in a direction are far.
const DEPTH: u16 = 14;

/// A direction over the map.
#[derive(Clone, Copy, Debug)]
pub(crate) enum Heading {
    North,
    East,
    South,
    West,
}

impl Heading {
    /// What a cell is to a search for gates beyond another in this direction.
    fn part(self, origin: Cell, cell: Cell) -> Part {
        let (here, there) = match self {
            Heading::North => (cell.y, origin.y),
            Heading::East => (origin.x, cell.x),
            Heading::South => (origin.y, cell.y),
            Heading::West => (cell.x, origin.x),
        };
        if there < here {
            Part::Start
        } else if there - here > DEPTH {
            Part::End
        } else {
            Part::Between
        }
    }
}

/// Which cells are near the gaps, and which are far: gates are sought among the others, and part the two.
#[derive(Clone, Copy, Debug)]
pub(crate) enum Band {
    /// The near ones are so many moves away at most, and the far ones more than twice as many and four.
    Ring(u16),
    /// The far ones lie far beyond the gaps in a direction, and the near ones do not lie beyond them, or are close.
    Beyond(Heading),
}

impl Band {
    /// What a cell is that is so many moves from the gaps, of which the first is at the origin.
    fn part(self, distance: u16, origin: Cell, cell: Cell) -> Part {
        match self {
            Band::Ring(near) => ring_part(distance, near),
            Band::Beyond(heading) => {
                if distance <= CLOSE {
                    Part::Start
                } else {
                    heading.part(origin, cell)
                }
            }
        }
    }
}

/// What a cell is that is so many moves away, where so many are near.
fn ring_part(distance: u16, near: u16) -> Part {
    if distance <= near {
        Part::Start
    } else if distance > near.saturating_mul(2).saturating_add(4) {
        Part::End
    } else {
        Part::Between
    }
}

/// What a cell is to a search.
#[derive(Clone, Copy, Debug, PartialEq, Eq)]
enum Part {
    Start,
    Between,
    End,
}

/// Paths over the longer list that share no cell between their ends. A cell has two states: 2 · place where a path
/// enters it, and 2 · place + 1 where it leaves.
#[derive(Drop)]
pub(crate) struct Flow {
    /// The cell of the first gap.
    origin: Cell,
    /// How many moves each place is from the gaps.
    distance: Vec<u16>,
    /// What each place is to a search.
    parts: Vec<Part>,
    /// The place before each place on its path.
    before: Vec<usize>,
    /// For each state, one more than the state from which the search came.
    came: Vec<usize>,
    /// The states that the search met.
    queue: Vec<usize>,
}

impl Flow {
    /// No path, over so many places.
    ///
    /// # Errors
    ///
    /// `AllocError` where memory runs out.
    pub(crate) fn new(alloc: Global, whole: &Side, gaps: &[usize]) -> Result<Flow, AllocError>
        requires can { CanBeSearched whole.now }
    {
        let count = whole.cells().len();
        let mut flow = Flow {
            origin: first_cell(whole.cells(), gaps),
            distance: vec![in alloc; UNREACHED; count]?,
            parts: vec![in alloc; Part::Between; count]?,
            before: vec![in alloc; NOWHERE; count]?,
            came: vec![in alloc; 0usize; 2 * count]?,
            queue: Vec::with_capacity(alloc, 2 * count)?,
        };
        flow.measure(whole, gaps)?;
        Ok(flow)
    }

    /// Finds how far each place is from the gaps.
    fn measure(&mut self, whole: &Side, gaps: &[usize]) -> Result<(), AllocError>
        requires can { CanBeSearched whole.now }
    {
        self.queue.clear();
        for gap in gaps.iter() {
            self.reach(*gap, 0)?;
        }
        for head in 0..self.distance.len() {
            if head >= self.queue.len() {
                return Ok(());
            }
            let place = self.queue[head];
            let next = self.distance(place).saturating_add(1);
            for to in edges_at(whole, place) {
                self.reach(usize::from(to), next)?;
            }
        }
        Ok(())
    }

    /// Notes how far a place is, if that is not known.
    fn reach(&mut self, place: usize, distance: u16) -> Result<(), AllocError> {
        if place < self.distance.len() && self.distance[place] == UNREACHED {
            self.distance[place] = distance;
            self.queue.push(place)?;
        }
        Ok(())
    }

    /// How far a place is from the gaps.
    fn distance(&self, place: usize) -> u16 {
        if place < self.distance.len() {
            self.distance[place]
        } else {
            UNREACHED
        }
    }

    /// What a place is to a search.
    fn part(&self, place: usize) -> Part {
        if place < self.parts.len() {
            self.parts[place]
        } else {
            Part::Start
        }
    }

    /// Begins anew between the near and the far of a band: no path is known.
    fn begin(&mut self, whole: &Side, band: Band) {
        for (place, cell) in whole.cells().iter().enumerate() {
            put(&mut self.before, place, NOWHERE);
            let part = band.part(self.distance(place), self.origin, *cell);
            if place < self.parts.len() {
                self.parts[place] = part;
            }
        }
    }

    /// Appends the fewest places of the longer list that part the near from the far, if the lanes are enough for them,
    /// and says whether there are such.
    ///
    /// # Errors
    ///
    /// `AllocError` where memory runs out.
    pub(crate) fn find_gates(
        &mut self,
        whole: &Side,
        band: Band,
        gates: &mut Vec<usize>,
    ) -> Result<bool, AllocError>
        requires can { CanBeSearched whole.now }
    {
        self.begin(whole, band);
        for _ in 0..SHARED_LANES + 1 {
            match self.search(whole)? {
                Some(end) => self.add_path(end),
                None => {
                    self.note_border(gates)?;
                    return Ok(!gates.is_empty() && gates.len() <= SHARED_LANES);
                }
            }
        }
        Ok(false)
    }

    /// Searches for one more path: the last state of it.
    fn search(&mut self, whole: &Side) -> Result<Option<usize>, AllocError>
        requires can { CanBeSearched whole.now }
    {
        self.clear();
        for place in 0..self.distance.len() {
            if self.part(place) == Part::Start {
                let state = leaving(place);
                self.visit(state, state)?;
            }
        }
        for head in 0..self.came.len() {
            if head >= self.queue.len() {
                return Ok(None);
            }
            let state = self.queue[head];
            if self.go_on(whole, state)? {
                return Ok(Some(state));
            }
        }
        Ok(None)
    }

    /// Forgets the last search.
    fn clear(&mut self) {
        self.queue.clear();
        for state in 0..self.came.len() {
            if state < self.came.len() {
                self.came[state] = 0;
            }
        }
    }

    /// Goes on from a state, and says whether an end is beside it.
    fn go_on(&mut self, whole: &Side, state: usize) -> Result<bool, AllocError>
        requires can { CanBeSearched whole.now }
    {
        let place = state / 2;
        let before = at(&self.before, place);
        if state % 2 == 0 {
            let next = if before == NOWHERE { place } else { before };
            self.visit(leaving(next), state)?;
            return Ok(false);
        }
        for to in edges_at(whole, place) {
            if self.enter(usize::from(to), state)? {
                return Ok(true);
            }
        }
        if before != NOWHERE {
            self.visit(entering(place), state)?;
        }
        Ok(false)
    }

    /// Enters a place from a state, and says whether it is an end.
    fn enter(&mut self, to: usize, from: usize) -> Result<bool, AllocError> {
        if to >= self.distance.len() {
            return Ok(false);
        }
        match self.part(to) {
            Part::Start => Ok(false),
            Part::End => Ok(true),
            Part::Between => {
                self.visit(entering(to), from)?;
                Ok(false)
            }
        }
    }

    /// Notes that a state was met, if it is met for the first time.
    fn visit(&mut self, state: usize, from: usize) -> Result<(), AllocError> {
        if state < self.came.len() && self.came[state] == 0 {
            self.came[state] = from.wrapping_add(1);
            self.queue.push(state)?;
        }
        Ok(())
    }

    /// Adds the path that was found, and takes out of the others what it goes back.
    fn add_path(&mut self, end: usize) {
        let mut state = end;
        for _ in 0..self.came.len() {
            let from = self.came_to(state);
            if from == state {
                return;
            }
            if from % 2 == 1 && state % 2 == 0 {
                let place = state / 2;
                let before = if from / 2 == state / 2 {
                    NOWHERE
                } else {
                    from / 2
                };
                put(&mut self.before, place, before);
            }
            state = from;
        }
    }

    /// From where the search came to a state; the state itself where it began there.
    fn came_to(&self, state: usize) -> usize {
        if state < self.came.len() {
            self.came[state].wrapping_sub(1)
        } else {
            state
        }
    }

    /// Appends the places that the last search entered and could not leave.
    fn note_border(&self, gates: &mut Vec<usize>) -> Result<(), AllocError> {
        for place in 0..self.distance.len() {
            if self.part(place) == Part::Between
                && self.is_met(entering(place))
                && !self.is_met(leaving(place))
            {
                gates.push(place)?;
            }
        }
        Ok(())
    }

    /// Whether the last search met a state.
    fn is_met(&self, state: usize) -> bool {
        state < self.came.len() && self.came[state] != 0
    }
}

/// The cell of the first gap; that of the corner where there is none.
fn first_cell(cells: &[Cell], gaps: &[usize]) -> Cell {
    for gap in gaps.iter() {
        if *gap < cells.len() {
            return cells[*gap];
        }
    }
    Cell { x: 0, y: 0 }
}

/// The state where a path enters a place.
fn entering(place: usize) -> usize {
    place.wrapping_mul(2)
}

/// The state where a path leaves a place.
fn leaving(place: usize) -> usize {
    entering(place).wrapping_add(1)
}

/// What stands at a place, if it is one.
fn at(list: &[usize], place: usize) -> usize {
    if place < list.len() {
        list[place]
    } else {
        NOWHERE
    }
}

/// Writes at a place, if it is one.
fn put(list: &mut [usize], place: usize, value: usize) {
    if place < list.len() {
        list[place] = value;
    }
}

/// Where the moves from a place lead, if it is one.
pub(crate) fn edges_at(whole: &Side, place: usize) -> [u16; 8]
    requires can { CanBeSearched whole.now }
{
    if place < whole.cells().len() {
        whole.edges(place)
    } else {
        [UNREACHED; 8]
    }
}
