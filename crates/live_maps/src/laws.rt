//! The laws of live maps. None of these functions does anything: each one's contract is a law.

ghost use Rattle.live_maps.specs.Laws.{BakedCostsAreBounds, BitsBlockCells, BitsMakeLiveMaps, FreeBestPathsAreBest, FreeWalksAreBest, LiveJoinsAreBaked, LiveMovesAreFreeMoves, LivePathsAreFreePaths};

/// What bits make of a map is a live map of it: just the cells are passable that were so and whose bits are not set.
pub fn bits_make_live_maps()
    ensures live { BitsMakeLiveMaps }
    ensures cells { BitsBlockCells }
{}

/// The legal moves and the paths of a live map are those of the baked map that keep to cells which are passable now.
pub fn live_paths_are_free_paths()
    ensures moves { LiveMovesAreFreeMoves }
    ensures paths { LivePathsAreFreePaths }
{}

/// A best path of the baked map that is free is a best path of the live map, and so is the walk of a version.
pub fn free_paths_are_best()
    ensures paths { FreeBestPathsAreBest }
    ensures walks { FreeWalksAreBest }
{}

/// A least cost of the baked map is at most that of the live one, and what it does not join, the live map does not join.
pub fn baked_costs_are_bounds()
    ensures costs { BakedCostsAreBounds }
    ensures joins { LiveJoinsAreBaked }
{}
