//! Laws of moves, sets of moves, maps, paths, components and costs, proved once for everything
//! built on them. Each function's contract is a law; the functions only name what their laws are
//! about.

ghost use Rattle.std.specs.Prelude.{◌≡◌, ◌∷◌, [], map};
ghost use Rattle.moves.specs.Moves.{number_of};
ghost use Rattle.moves.specs.MoveSets.{HasAll, IsEmpty, SetsAreTheirMoves};
ghost use Rattle.moves.specs.PathLaws.{BestPathsExist, LawsOfPaths};
ghost use Rattle.moves.specs.SamePaths.{ClassesDecidePaths};
ghost use Rattle.moves.specs.StraightPaths.{DiagonalsAreReplaceable, StraightMovesReachAll};
ghost use Rattle.moves.specs.ComponentLaws.{ComponentsAreOfOneClass, ComponentsKeepMoves, ComponentsKeepBestPaths, ComponentsKeepCosts, ComponentsKeepFirstSets, ComponentsAreConnected, ComponentsStayComponents, PassableCellsAreListed};
ghost use Rattle.moves.specs.CostTables.{CostTablesAreLeast};
ghost use Rattle.moves.specs.FirstSets.{FirstMovesAreLocal, FirstMovesExist};

use crate::{MAX_CELLS, MAX_PASSABLE, MAX_SIDE, Move, MoveSet};

/// The limits on a map's sides, on the number of its cells, and, if it is searched, on the number
/// of passable ones.
pub fn limits_are_these()
    ensures sides { MAX_SIDE ≡ 4096 }
    ensures cells { MAX_CELLS ≡ 1048576 }
    ensures passable { MAX_PASSABLE ≡ 32768 }
{}

/// `Move::ALL` has the eight moves in the order of their numbers.
pub fn all_moves_are_by_number()
    ensures { map number_of Move.ALL ≡ 0 ∷ 1 ∷ 2 ∷ 3 ∷ 4 ∷ 5 ∷ 6 ∷ 7 ∷ [] }
{}

/// No move is in `MoveSet::NONE`.
pub fn no_move_is_in_none() -> MoveSet
    ensures { IsEmpty result }
{
    MoveSet::NONE
}

/// Each move is in `MoveSet::ALL`.
pub fn each_move_is_in_all() -> MoveSet
    ensures { HasAll result }
{
    MoveSet::ALL
}

/// Two sets with the same moves are equal, and so have the same mask.
pub fn sets_are_their_moves()
    ensures { SetsAreTheirMoves }
{}

/// The list of passable cells has exactly these cells, in row-major order.
pub fn passable_cells_are_listed()
    ensures { PassableCellsAreListed }
{}

/// Two paths that meet make one path, each piece of a best path is best, a path begins with a legal
/// move, and the way back along a path is a path of the same cost.
pub fn laws_of_paths()
    ensures { LawsOfPaths }
{}

/// If a path exists, a best path exists, and so some move begins one.
pub fn best_paths_exist()
    ensures best { BestPathsExist }
    ensures first { FirstMovesExist }
{}

/// Maps with the same passable cells in the same classes, whatever their sides, have the same legal
/// moves, paths, best paths, least costs and first moves.
pub fn classes_decide_paths()
    ensures { ClassesDecidePaths }
{}

/// Each legal diagonal move can be replaced by two legal straight moves, so straight moves alone
/// give the same components.
pub fn straight_moves_reach_all()
    ensures each { DiagonalsAreReplaceable }
    ensures all { StraightMovesReachAll }
    ensures inside { ComponentsAreConnected }
{}

/// The cells of a component are all land or all water. They alone decide which moves are legal
/// inside the component, which paths are best and what these cost, whether land or water.
pub fn components_keep_paths()
    ensures class { ComponentsAreOfOneClass }
    ensures component { ComponentsStayComponents }
    ensures moves { ComponentsKeepMoves }
    ensures best { ComponentsKeepBestPaths }
    ensures costs { ComponentsKeepCosts }
    ensures first { ComponentsKeepFirstSets }
{}

/// The law of cost tables: if the source costs nothing, no legal move leads to a cell more cheaply
/// than its cost says, and each other cost is attained by a move from a cell that has a cost, then
/// each cost is that of a best path, and no path leads to a cell without a cost.
pub fn cost_tables_are_least()
    ensures { CostTablesAreLeast }
{}

/// The first moves of best paths to a cell are those of the best paths to the cells that come just
/// before it on a best path; if that cell is the source itself, its move is the first move.
pub fn first_moves_are_local()
    ensures { FirstMovesAreLocal }
{}
