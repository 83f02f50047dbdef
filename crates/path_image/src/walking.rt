//! Walks over an image, one look-up a move.

ghost use Rattle.std.specs.Prelude.{◌≡◌, ◌<◌, ℕ, IfErr, IfNone, IfOk, IfSome, MatchBool, OnOk, slice_set};
ghost use Rattle.moves.specs.Moves.{IsTarget};
ghost use Rattle.path_image.specs.Answers.{AreEndsIn, IsLeastCostIn, IsPathFaultIn, IsPathIn, IsRefusalIn, IsWalkFaultIn};
ghost use Rattle.path_image.specs.Reading.{IsCellIn, LeadsInside, StandsIn};
ghost use Rattle.path_image.specs.Walks.{Advances, CostsAhead, Enters, HasNorth, HasTarget, HasWest, IsBegunIn, IsNoCellBehind, IsUnderWay, LeadsBelow, PutsAhead, goes_north, goes_west};
ghost use Rattle.path_image.specs.Strides.{GoesTo};

use crate::reading::{Home, ends_of, has, home_at, move_for, row_len, size_of};
use moves::{Cell, Move};
use root_cost::Cost;
use std::error::Error;
use std::fmt;
use versions::QueryRefusal;

/// Why a path could not be told.
#[derive(Clone, Copy, Debug, PartialEq, Eq)]
pub enum WalkFault {
    /// One of the two cells may not be asked for.
    Refused(QueryRefusal),
    /// The words are no version's image: the moves that they keep do not lead to the goal.
    Broken,
}

/// Why no whole path was written.
#[derive(Clone, Copy, Debug, PartialEq, Eq)]
pub enum PathFault {
    /// There is none to be told.
    Unanswered(WalkFault),
    /// The room has too few places.
    TooSmall {
        /// How many moves the path has.
        needed: u32,
    },
}

impl fmt::Display for WalkFault {
    ghost use Rattle.std.specs.Prelude.{Some};
    ghost use Rattle.path_image.specs.Answers.{walk_fault_text};

    ghost output = { λ fault. Some (walk_fault_text fault) };

    fn fmt<W: fmt::Write>(&self, f: &mut fmt::Formatter<W>) -> fmt::Result {
        match self {
            WalkFault::Refused(refusal) => write!(f, "{refusal}"),
            WalkFault::Broken => write!(f, "broken image"),
        }
    }
}

impl Error for WalkFault {}

impl fmt::Display for PathFault {
    ghost use Rattle.std.specs.Prelude.{Some};
    ghost use Rattle.path_image.specs.Answers.{path_fault_text};

    ghost output = { λ fault. Some (path_fault_text fault) };

    fn fmt<W: fmt::Write>(&self, f: &mut fmt::Formatter<W>) -> fmt::Result {
        match self {
            PathFault::Unanswered(fault) => write!(f, "{fault}"),
            PathFault::TooSmall { needed } => write!(f, "room for too few moves of {needed}"),
        }
    }
}

impl Error for PathFault {}

impl From<QueryRefusal> for WalkFault {
    ghost use Rattle.std.specs.Prelude.{◌≡◌};
    ghost use Rattle.path_image.specs.declared.walking.WalkFault.TheVariants.{Refused};

    ghost from_gives = { λ refusal fault. fault ≡ Refused refusal };

    fn from(refusal: QueryRefusal) -> WalkFault {
        WalkFault::Refused(refusal)
    }
}

/// A walk under way.
#[derive(Clone, Copy)]
pub(crate) struct Walk {
    /// The cell that was reached.
    pub(crate) at: Cell,
    /// Where it stands.
    pub(crate) home: Home,
    /// The place of the goal in the same component.
    pub(crate) goal: u32,
    /// The run in which the goal was found last: in the row of a cell beside, it lies near.
    pub(crate) run: usize,
}

/// What a step of a walk was.
#[derive(Clone, Copy, Debug, PartialEq, Eq)]
pub enum Step {
    /// None: the goal is reached.
    Arrived,
    /// This move.
    Go(Move),
    /// A move that leads out of the component, as no version's image has it.
    Lost,
}

/// The walk from a cell to another; `None` where no path exists.
///
/// # Errors
///
/// The first cause to refuse the two cells, the start before the goal.
fn walk_from(words: &[u32], start: Cell, goal: Cell) -> Result<Option<Walk>, QueryRefusal>
    requires { LeadsInside words.now }
    ensures stands { IfOk result (λ found. IfSome found (IsUnderWay words.now)) }
    ensures ends { OnOk result (AreEndsIn words.now start goal) }
    ensures begins { IfOk result (IsBegunIn words.now start goal) }
    ensures refused { IfErr result (IsRefusalIn words.now start goal) }
{
    let (home, to) = ends_of(words, start, goal)?;
    if home.label != to.label {
        return Ok(None);
    }
    Ok(Some(Walk {
        at: start,
        home,
        goal: to.place,
        run: first_guess(words, home, to.place),
    }))
}

/// Where in the row of a place the run lies that covers another, if all runs are of one length.
pub(crate) fn first_guess(words: &[u32], home: Home, goal: u32) -> usize
    requires inside { LeadsInside words.now }
    requires home { StandsIn words.now home.label home.place }
{
    let part = row_len(words, home) as u64 * u64::from(goal)
        / u64::from(size_of(words, home.label));
    part as usize
}

/// The next step of the walk.
#[inline(always)]
pub(crate) fn go_on(words: &[u32], walk: &mut Walk) -> Step
    requires inside { LeadsInside words.now }
    requires walk { IsUnderWay words.now walk.old }
    ensures walk { IsUnderWay words.now walk.new }
    ensures size { walk.new.home.label ≡ walk.old.home.label }
    ensures step { Advances words.now walk.old walk.new result }
    ensures target { GoesTo walk.old walk.new result }
{
    if walk.home.place == walk.goal {
        return Step::Arrived;
    }
    let by = move_for(words, walk.home, walk.goal, &mut walk.run);
    match cell_behind(words, walk.at, by) {
        None => Step::Lost,
        Some(to) => enter(words, walk, by, to),
    }
}

/// Makes the step to a cell, if that is one of the component.
#[inline(always)]
fn enter(words: &[u32], walk: &mut Walk, by: Move, to: Cell) -> Step
    requires inside { LeadsInside words.now }
    requires walk { IsUnderWay words.now walk.old }
    requires cell { IsCellIn words.now to }
    ensures walk { IsUnderWay words.now walk.new }
    ensures size { walk.new.home.label ≡ walk.old.home.label }
    ensures step { Enters words.now walk.old walk.new by to result }
{
    match home_at(words, to) {
        Some(home) if home.label == walk.home.label => {
            walk.at = to;
            walk.home = home;
            Step::Go(by)
        }
        _ => Step::Lost,
    }
}

/// The cell inside that the move leads to; `None` exactly where there is none.
#[inline(always)]
pub(crate) fn cell_behind(words: &[u32], at: Cell, by: Move) -> Option<Cell>
    requires inside { LeadsInside words.now }
    requires at { IsCellIn words.now at }
    ensures target { IfSome result (IsTarget at by) }
    ensures inside { IfSome result (IsCellIn words.now) }
    ensures none { IfNone result (IsNoCellBehind words.now at by) }
{
    if leads_below(at, by) {
        return None;
    }
    let to = at.target(by);
    if has(words, to) { Some(to) } else { None }
}

/// Whether the move would lead to a column or a row below 0.
#[inline(always)]
fn leads_below(at: Cell, by: Move) -> bool
    ensures { MatchBool result (LeadsBelow at by) (HasTarget at by) }
{
    leads_off_west(at, by) || leads_off_north(at, by)
}

/// Whether the move would lead to a column below 0.
#[inline(always)]
fn leads_off_west(at: Cell, by: Move) -> bool
    ensures { MatchBool result (LeadsBelow at by) (HasWest at by) }
{
    if !is_west(by) {
        return false;
    }
    at.x == 0
}

/// Whether the move would lead to a row below 0.
#[inline(always)]
fn leads_off_north(at: Cell, by: Move) -> bool
    ensures { MatchBool result (LeadsBelow at by) (HasNorth at by) }
{
    if !is_north(by) {
        return false;
    }
    at.y == 0
}

/// Whether the move leads one column to the west.
#[inline(always)]
fn is_west(by: Move) -> bool
    ensures { result ≡ goes_west by }
{
    matches!(by, Move::SW | Move::W | Move::NW)
}

/// Whether the move leads one row to the north.
#[inline(always)]
fn is_north(by: Move) -> bool
    ensures { result ≡ goes_north by }
{
    matches!(by, Move::N | Move::NE | Move::NW)
}

/// What the path from a cell to another costs; `None` where no path exists.
///
/// # Errors
///
/// The first cause to refuse the two cells, the start before the goal; or that the words are no version's image.
pub(crate) fn path_cost(words: &[u32], start: Cell, goal: Cell) -> Result<Option<Cost>, WalkFault>
    requires { LeadsInside words.now }
    ensures ends { OnOk result (AreEndsIn words.now start goal) }
    ensures cost { IfOk result (IsLeastCostIn words.now start goal) }
    ensures fault { IfErr result (IsWalkFaultIn words.now start goal) }
{
    match walk_from(words, start, goal) {
        Err(why) => Err(WalkFault::Refused(why)),
        Ok(None) => Ok(None),
        Ok(Some(mut walk)) => match cost_ahead(words, &mut walk) {
            Some(cost) => Ok(Some(cost)),
            None => Err(WalkFault::Broken),
        },
    }
}

/// What the moves cost that are ahead of a walk; `None` where it gets lost.
fn cost_ahead(words: &[u32], walk: &mut Walk) -> Option<Cost>
    requires inside { LeadsInside words.now }
    requires walk { IsUnderWay words.now walk.old }
    ensures { CostsAhead words.now walk.old result }
{
    let mut cost = Cost::ZERO;
    for _ in 0..size_of(words, walk.home.label) {
        match go_on(words, walk) {
            Step::Arrived => return Some(cost),
            Step::Go(by) => cost = cost.plus(by.is_diagonal()),
            Step::Lost => return None,
        }
    }
    None
}

/// Writes the moves of the path from a cell to another into a room, a byte a move, and says how many they are; `None`
/// where no path exists.
///
/// # Errors
///
/// The first cause to refuse the two cells, the start before the goal; that the room has too few places; or that the
/// words are no version's image.
pub(crate) fn write_path(
    words: &[u32],
    start: Cell,
    goal: Cell,
    room: &mut [u8],
) -> Result<Option<u32>, PathFault>
    requires { LeadsInside words.now }
    ensures ends { OnOk result (AreEndsIn words.now start goal) }
    ensures path { IfOk result (IsPathIn words.now start goal room.old room.new) }
    ensures fault { IfErr result (IsPathFaultIn words.now start goal room.old room.new) }
{
    match walk_from(words, start, goal) {
        Err(why) => Err(PathFault::Unanswered(WalkFault::Refused(why))),
        Ok(None) => Ok(None),
        Ok(Some(mut walk)) => match put_moves(words, &mut walk, room) {
            None => Err(PathFault::Unanswered(WalkFault::Broken)),
            Some(count) if count as usize <= room.len() => Ok(Some(count)),
            Some(needed) => Err(PathFault::TooSmall { needed }),
        },
    }
}

/// Puts the moves that are ahead of a walk into a room, as far as it reaches, and says how many there are; `None` where
/// the walk gets lost.
fn put_moves(words: &[u32], walk: &mut Walk, room: &mut [u8]) -> Option<u32>
    requires inside { LeadsInside words.now }
    requires walk { IsUnderWay words.now walk.old }
    ensures { PutsAhead words.now walk.old room.old room.new result }
{
    let mut count = 0;
    for _ in 0..size_of(words, walk.home.label) {
        match go_on(words, walk) {
            Step::Arrived => return Some(count),
            Step::Go(by) => {
                put(room, count as usize, by.number());
                count += 1;
            }
            Step::Lost => return None,
        }
    }
    None
}

/// Puts a number at a place of a room, if the room reaches so far.
#[inline(always)]
fn put(room: &mut [u8], place: usize, number: u8)
    ensures { room.new ≡ slice_set room.old place number }
{
    if place < room.len() {
        room[place] = number;
    }
}
