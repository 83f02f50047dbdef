//! The neighbours of the cells of a component, by their places in the list of cells.

ghost use Rattle.std.specs.Prelude.{◌≡◌, ℕ, ◌<◌, ◌≤◌, All, Contains, IfOk, IsFalse, IsTrue, length};
ghost use Rattle.moves.specs.declared.Cell.{Cell};
ghost use Rattle.moves.specs.declared.Move.{Move};
ghost use Rattle.moves.specs.Moves.{corner, IsTarget};
ghost use Rattle.moves.specs.FirstSetLists.{cell_of};
ghost use Rattle.moves.specs.Rectangles.{IsWithin};
ghost use Rattle.row_store.specs.Layout.{ArePlaces};
ghost use Rattle.row_check.specs.Walks.{AreComponentCells};
ghost use Rattle.row_check.specs.Marking.{end_of, AreNear, IsEdge, KnowPlaces};

use moves::{Bounds, Cell, Move};
use std::alloc::{AllocError, Global};

/// What stands in place of a number where the bounds of the cells have none of them.
const NO_PLACE: u16 = u16::MAX;

/// The places of cells, over the smallest rectangle that has them all.
#[derive(Drop)]
pub(crate) struct Places {
    bounds: Bounds,
    places: Vec<u16>,
    count: u16,
}

/// Where the eight moves from each cell lead, by their numbers: the place of a cell, or the number of cells where the
/// move is not legal. The cells are taken to be of one class.
pub(crate) fn neighbours(alloc: Global, cells: &[Cell]) -> Result<Vec<[u16; 8]>, AllocError>
    requires { AreComponentCells cells.now }
    ensures { IfOk result (λ near. AreNear cells.now near.items (length cells.now)) }
{
    let places = Places::of(alloc, cells)?;
    let mut near = Vec::with_capacity(alloc, cells.len())?;
    for cell in cells {
        near.push(around(&places, cells, *cell))?;
    }
    Ok(near)
}

impl Places {
    /// The places of these cells.
    fn of(alloc: Global, cells: &[Cell]) -> Result<Places, AllocError>
        requires { AreComponentCells cells.now }
        ensures { IfOk result (λ places. KnowPlaces places cells.now) }
    {
        let bounds = Bounds::around(cells);
        let places = places_of(alloc, &bounds, cells)?;
        Ok(Places {
            bounds,
            places,
            count: cells.len() as u16,
        })
    }

    /// The place of the cell, or the number of cells where it is none of them.
    fn find(&self, cells: &[Cell], cell: Cell) -> u16
        requires cells { AreComponentCells cells.now }
        requires known { KnowPlaces self.now cells.now }
        ensures most { result ≤ length cells.now }
        ensures found { result < length cells.now → cell_of cells.now result ≡ cell }
        ensures missing { result ≡ length cells.now → Contains cells.now cell → ⊥ }
    {
        // The cells are here for the contract alone.
        let _ = cells;
        if !self.bounds.has(cell) {
            return self.count;
        }
        let place = self.places[self.bounds.place(cell)];
        if place == NO_PLACE { self.count } else { place }
    }
}

/// The places of the cells among themselves, over their bounds.
fn places_of(alloc: Global, bounds: &Bounds, cells: &[Cell]) -> Result<Vec<u16>, AllocError>
    requires cells { AreComponentCells cells.now }
    requires within { All (IsWithin bounds.now) cells.now }
    ensures { IfOk result (λ places. ArePlaces cells.now bounds.now places.items) }
{
    let mut places = vec![in alloc; NO_PLACE; bounds.size()]?;
    for (place, cell) in cells.iter().enumerate() {
        places[bounds.place(*cell)] = place as u16;
    }
    Ok(places)
}

/// Where the eight moves from a cell lead, by their numbers.
fn around(places: &Places, cells: &[Cell], cell: Cell) -> [u16; 8]
    requires cells { AreComponentCells cells.now }
    requires known { KnowPlaces places.now cells.now }
    requires inside { Contains cells.now cell }
    ensures moves { length result ≡ 8 }
    ensures edges { (move : Move) → IsEdge cells.now cell move (end_of result move) }
{
    [
        edge(places, cells, cell, Move::N),
        edge(places, cells, cell, Move::NE),
        edge(places, cells, cell, Move::E),
        edge(places, cells, cell, Move::SE),
        edge(places, cells, cell, Move::S),
        edge(places, cells, cell, Move::SW),
        edge(places, cells, cell, Move::W),
        edge(places, cells, cell, Move::NW),
    ]
}

/// Where a move leads.
fn edge(places: &Places, cells: &[Cell], cell: Cell, by: Move) -> u16
    requires cells { AreComponentCells cells.now }
    requires known { KnowPlaces places.now cells.now }
    requires inside { Contains cells.now cell }
    ensures { IsEdge cells.now cell by result }
{
    let to = target(cell, by);
    if by.is_diagonal() && !has_corners(places, cells, cell, to) {
        cells.len() as u16
    } else {
        places.find(cells, to)
    }
}

/// Whether the two cells orthogonally adjacent to both ends of a diagonal move are among the cells.
fn has_corners(places: &Places, cells: &[Cell], from: Cell, to: Cell) -> bool
    requires cells { AreComponentCells cells.now }
    requires known { KnowPlaces places.now cells.now }
    ensures yes { IsTrue result
        → Contains cells.now (corner from to) × Contains cells.now (corner to from) }
    ensures other { IsFalse result
        → (Contains cells.now (corner from to) × Contains cells.now (corner to from)) → ⊥ }
{
    has(places, cells, Cell { x: from.x, y: to.y })
        && has(places, cells, Cell { x: to.x, y: from.y })
}

/// Whether the cell is one of the cells.
fn has(places: &Places, cells: &[Cell], cell: Cell) -> bool
    requires cells { AreComponentCells cells.now }
    requires known { KnowPlaces places.now cells.now }
    ensures yes { IsTrue result → Contains cells.now cell }
    ensures other { IsFalse result → Contains cells.now cell → ⊥ }
{
    usize::from(places.find(cells, cell)) < cells.len()
}

/// The cell where a move leads; beyond the left or upper end, columns and rows wrap round.
fn target(cell: Cell, by: Move) -> Cell
    requires column { cell.x < 4096 }
    requires row { cell.y < 4096 }
    ensures only { (to : Cell) → IsTarget cell by to → result ≡ to }
    ensures target { result.x < 4097 → result.y < 4097 → IsTarget cell by result }
{
    let x = match by {
        Move::N | Move::S => cell.x,
        Move::NE | Move::E | Move::SE => cell.x + 1,
        Move::SW | Move::W | Move::NW => cell.x.wrapping_sub(1),
    };
    let y = match by {
        Move::E | Move::W => cell.y,
        Move::SE | Move::S | Move::SW => cell.y + 1,
        Move::N | Move::NE | Move::NW => cell.y.wrapping_sub(1),
    };
    Cell { x, y }
}
