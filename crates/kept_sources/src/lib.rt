//! Which sources keep their first sets where cells of a map are blocked or freed. Each function's contract is a law;
//! none does more than name what it speaks of.
//!
//! At the end of a corridor, most sources keep their first sets when a cell is blocked or freed:
//!
//! ```text
//! known rows | made 40 1 100 1 | 39 0
//! blocked: most, freed: most
//! ```
#![tactic(auto)]

pub mod examples;

ghost use Rattle.kept_sources.specs.Balls.{BallsKeepSources, BallsRoundAllKeepSources};
ghost use Rattle.kept_sources.specs.Gates.{EvenCostsGiveOneFirstSet, GatesGiveTheRest, GatesKeepSides, OneGateGivesTheRest, PathsPassGates, PocketsKeepSources};
ghost use Rattle.kept_sources.specs.Parts.{ListsAreTakenOut};
ghost use Rattle.kept_sources.specs.Splits.{ComponentsAreLeftByOne, JustSomeAreAPart, PartsStandAlone, SplitsGoByOne};

/// Cells that are blocked one after the other are taken out together: what is left is a part of the map, which lacks
/// just these of its cells.
pub fn lists_are_taken_out()
    ensures { ListsAreTakenOut }
{}

/// The law of the ball for cells that are taken out together: where a source has the same first sets to all cells of
/// a ball round them, and the same least costs to those from which a move leads out of the ball, it has the same
/// first sets to all other cells, and the same least costs outside the ball.
pub fn balls_round_all_keep_sources()
    ensures { BallsRoundAllKeepSources }
{}

/// The law of the ball for one cell that is blocked or freed.
pub fn balls_keep_sources()
    ensures { BallsKeepSources }
{}

/// The law of gates, which all paths out of a side of a map pass: where they part it from all that is taken out, a
/// source that has the same first sets and least costs to the gates has them to the whole side; and from a source of
/// the side the first set to a cell beyond is the union of those to the gates by which the way costs least.
pub fn gates_keep_sources()
    ensures passed { PathsPassGates }
    ensures side { GatesKeepSides }
    ensures beyond { GatesGiveTheRest }
    ensures even { EvenCostsGiveOneFirstSet }
{}

/// The law of one gate: where one cell is the only way out of a side, the first sets from a cell of the side to all
/// that that cell reaches beyond are one, that to the cell itself, and a least cost is the sum of those to the cell
/// and on.
pub fn one_gate_gives_the_rest()
    ensures { OneGateGivesTheRest }
{}

/// The law of pockets: where one cell is the only way out of a side, and nothing of it is taken out, all first sets and
/// least costs in the pocket stay, and so do its first sets to all that is reached from that cell before and after.
pub fn pockets_keep_sources()
    ensures { PocketsKeepSources }
{}

/// The law of the split, for a component that falls into parts where a cell is blocked: a part is left by that cell
/// alone, so the first sets from a part to all cells of the others are one, that to the cell.
pub fn splits_go_by_one()
    ensures side { ComponentsAreLeftByOne }
    ensures beyond { SplitsGoByOne }
{}

/// Among the cells of such a part and the cell itself, first sets and least costs are those of a map that has these
/// cells alone.
pub fn parts_stand_alone()
    ensures part { JustSomeAreAPart }
    ensures alone { PartsStandAlone }
{}
