//! Where the moves from a cell lead, among the cells of a component.

ghost use Rattle.std.specs.Prelude.{◌≡◌, ◌<◌, Contains, IsFalse, IsTrue, length};
ghost use Rattle.moves.specs.declared.Cell.{Cell};
ghost use Rattle.moves.specs.declared.Move.{Move};
ghost use Rattle.moves.specs.Moves.{corner, IsTarget};
ghost use Rattle.lane_rows.specs.Tables.{end_of, IsEdge, IsNumbered};
ghost use Rattle.lane_rows.specs.Known.{KnowPlaces};

use crate::places::Places;
use moves::{Cell, Move};

/// Where the eight moves from a cell lead, by their numbers.
pub(crate) fn around(places: &Places, cells: &[Cell], cell: Cell) -> [u16; 8]
    requires numbered { IsNumbered cells.now }
    requires known { KnowPlaces places.now cells.now }
    requires inside { Contains cells.now cell }
    ensures moves { length result ≡ 8 }
    ensures edges { (move : Move) → IsEdge cells.now cell move (end_of result move) }
{
    [
        edge(places, cells, cell, Move::N),
        edge(places, cells, cell, Move::NE),
        edge(places, cells, cell, Move::E),
        edge(places, cells, cell, Move::SE),
        edge(places, cells, cell, Move::S),
        edge(places, cells, cell, Move::SW),
        edge(places, cells, cell, Move::W),
        edge(places, cells, cell, Move::NW),
    ]
}

/// Where a move leads.
fn edge(places: &Places, cells: &[Cell], cell: Cell, by: Move) -> u16
    requires numbered { IsNumbered cells.now }
    requires known { KnowPlaces places.now cells.now }
    requires inside { Contains cells.now cell }
    ensures { IsEdge cells.now cell by result }
{
    let to = target(cell, by);
    if by.is_diagonal() && !has_corners(places, cells, cell, to) {
        cells.len() as u16
    } else {
        places.find(cells, to)
    }
}

/// Whether the two cells orthogonally adjacent to both ends of a diagonal move are among the cells.
fn has_corners(places: &Places, cells: &[Cell], from: Cell, to: Cell) -> bool
    requires numbered { IsNumbered cells.now }
    requires known { KnowPlaces places.now cells.now }
    ensures yes { IsTrue result
        → Contains cells.now (corner from to) × Contains cells.now (corner to from) }
    ensures other { IsFalse result
        → (Contains cells.now (corner from to) × Contains cells.now (corner to from)) → ⊥ }
{
    has(places, cells, Cell { x: from.x, y: to.y })
        && has(places, cells, Cell { x: to.x, y: from.y })
}

/// Whether the cell is one of the cells.
fn has(places: &Places, cells: &[Cell], cell: Cell) -> bool
    requires numbered { IsNumbered cells.now }
    requires known { KnowPlaces places.now cells.now }
    ensures yes { IsTrue result → Contains cells.now cell }
    ensures other { IsFalse result → Contains cells.now cell → ⊥ }
{
    usize::from(places.find(cells, cell)) < cells.len()
}

/// The cell where a move leads; beyond the left or upper end, columns and rows wrap round.
fn target(cell: Cell, by: Move) -> Cell
    requires column { cell.x < 4096 }
    requires row { cell.y < 4096 }
    ensures only { (to : Cell) → IsTarget cell by to → result ≡ to }
    ensures target { result.x < 4097 → result.y < 4097 → IsTarget cell by result }
{
    let x = match by {
        Move::N | Move::S => cell.x,
        Move::NE | Move::E | Move::SE => cell.x + 1,
        Move::SW | Move::W | Move::NW => cell.x.wrapping_sub(1),
    };
    let y = match by {
        Move::E | Move::W => cell.y,
        Move::SE | Move::S | Move::SW => cell.y + 1,
        Move::N | Move::NE | Move::NW => cell.y.wrapping_sub(1),
    };
    Cell { x, y }
}
