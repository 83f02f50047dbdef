//! Where a walk may go on. These are guesses, by which rows are chosen that are built together, and no proof speaks of
//! them: a walk reads no move but in the row of the cell where it stands.

ghost use Rattle.std.specs.Prelude.{◌≡◌, ◌<◌, ◌≤◌, false, length, slice_index_or, true};

use crate::forced::{comes_down, key_at};
use grid_search::Search;
use lane_rows::LANES;
use moves::{Cell, Grid, MAX_PASSABLE, Move, place};
use std::alloc::{AllocError, Global};

/// How many moves ahead at most are guessed.
const AHEAD: usize = 256;

/// The fewest cells for which a tile costs less than a search from each.
const FEWEST: usize = 6;

/// The costs to a goal, and the place of each cell.
#[derive(Drop)]
pub(crate) struct Hints<'a> {
    grid: &'a Grid,
    search: &'a Search,
    /// For each cell of the map, row by row, its place among the cells of the walk.
    places: Vec<u16>,
    /// All moves. Of several by which a best path may go on the first one is guessed.
    ranking: [Move; 8],
}

/// How a walk may go on from a cell.
#[derive(Clone, Copy)]
enum Onward {
    /// It has arrived.
    Nowhere,
    /// By this move alone.
    Forced(Cell),
    /// By several moves, of which this one is guessed.
    Guessed(Move, Cell),
}

/// How near one another the cells lie that are marked ahead.
#[derive(Clone, Copy, PartialEq, Eq)]
pub(crate) enum Ahead {
    /// They are few, or most cells on the way are others: a search from each costs less than a tile.
    Apart,
    /// They are most cells on the way.
    Near,
    /// They are nearly all cells on the way.
    InARow,
}

impl<'a> Hints<'a> {
    /// The hints for walks to the goal of the search.
    pub(crate) fn new(
        alloc: Global,
        grid: &'a Grid,
        search: &'a Search,
        cells: &[Cell],
    ) -> Result<Hints<'a>, AllocError>
        requires { length cells.now ≤ MAX_PASSABLE }
    {
        let room = (grid.width() * grid.height()) as usize;
        let mut places = vec![in alloc; u16::MAX; room]?;
        for (number, cell) in cells.iter().enumerate() {
            let at = place(grid.width(), *cell);
            if at < places.len() {
                places[at] = number as u16;
            }
        }
        Ok(Hints {
            grid,
            search,
            places,
            ranking: Move::ALL,
        })
    }

    /// Marks the place of a cell and those of cells to which a best path may lead from there and where it may go on by
    /// several moves, as many as a tile has sources, and no others. Tells how near one another they lie.
    pub(crate) fn mark_from(&self, from: Cell, place: usize, wanted: &mut [bool]) -> Ahead
        requires { place < length wanted.old }
        ensures size { length wanted.new ≡ length wanted.old }
        ensures place { slice_index_or wanted.new place false ≡ true }
    {
        wanted.fill(false);
        let ahead = self.mark_ahead(from, wanted);
        wanted[place] = true;
        ahead
    }

    /// Marks the places of cells to which a best path may lead from a cell on, and tells how near one another they lie.
    fn mark_ahead(&self, from: Cell, wanted: &mut [bool]) -> Ahead
        ensures { length wanted.new ≡ length wanted.old }
    {
        let mut at = from;
        let mut marked: usize = 0;
        let mut upto: usize = 0;
        for passed in 0..AHEAD {
            match self.onward(at) {
                Onward::Nowhere => break,
                Onward::Forced(next) => at = next,
                Onward::Guessed(_, next) => {
                    mark(&self.places, place(self.grid.width(), at), wanted);
                    marked = marked.wrapping_add(1);
                    upto = passed.wrapping_add(1);
                    at = next;
                }
            }
            if marked >= LANES {
                break;
            }
        }
        nearness(marked, upto)
    }

    /// The walk went on by a move: from now on it comes before the one that was guessed.
    pub(crate) fn learn(&mut self, from: Cell, by: Move) {
        if let Onward::Guessed(guessed, _) = self.onward(from) {
            let (sooner, later) = (self.rank(guessed), self.rank(by));
            if sooner < self.ranking.len() && later < self.ranking.len() {
                self.ranking.swap(sooner, later);
            }
        }
    }

    /// How a best path may go on: of several moves by the first of the ranking.
    fn onward(&self, from: Cell) -> Onward {
        if !self.grid.inside(from) {
            return Onward::Nowhere;
        }
        let key = self.key_at(from);
        let mut onward = Onward::Nowhere;
        let mut least = usize::MAX;
        let mut count: u32 = 0;
        for (by, next) in self.grid.neighbours(from) {
            if comes_down(key, by, self.key_at(next)) {
                count = count.wrapping_add(1);
                if self.rank(by) < least {
                    least = self.rank(by);
                    onward = Onward::Guessed(by, next);
                }
            }
        }
        match onward {
            Onward::Guessed(_, next) if count == 1 => Onward::Forced(next),
            other => other,
        }
    }

    /// Where a move stands in the ranking.
    fn rank(&self, by: Move) -> usize {
        self.ranking
            .iter()
            .position(|other| *other == by)
            .unwrap_or(self.ranking.len())
    }

    /// The key of the cost from a cell to the goal.
    fn key_at(&self, cell: Cell) -> u32 {
        key_at(self.grid.width(), self.search.keys(), cell)
    }
}

/// Marks the place that stands there, if there is one.
fn mark(places: &[u16], at: usize, wanted: &mut [bool])
    ensures { length wanted.new ≡ length wanted.old }
{
    if at < places.len() {
        let place = usize::from(places[at]);
        if place < wanted.len() {
            wanted[place] = true;
        }
    }
}

/// How near one another so many cells lie, the last of which is reached after so many moves.
fn nearness(marked: usize, upto: usize) -> Ahead {
    if marked < FEWEST || marked.saturating_mul(2) <= upto {
        return Ahead::Apart;
    }
    if marked.saturating_mul(4) > upto.saturating_mul(3) {
        return Ahead::InARow;
    }
    Ahead::Near
}
