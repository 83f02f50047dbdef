//! Images that are read: where a path goes on, what it costs, and its moves.

ghost use Rattle.std.specs.Prelude.{◌≡◌, ◌<◌, ◌≤◌, ◌↔◌, ℕ, IfErr, IfNone, IfOk, IfSome, IsOk, IsTrue, OnErr, OnOk, length, map};
ghost use Rattle.moves.specs.Maps.{IsWithinLimits, passable_count};
ghost use Rattle.moves.specs.declared.TheConstants.{MAX_SIDE};
ghost use Rattle.run_pack.specs.Runs.{Rises, run_of_word};
ghost use Rattle.versions.specs.Databases.{Versioned};
ghost use Rattle.path_image.specs.Images.{IsImageOf};
ghost use Rattle.path_image.specs.Reading.{IsCellIn, LeadsInside, StandsIn, count_in, height_in, home_in, row_at_place, size_at, start_in, width_in};
ghost use Rattle.path_image.specs.Faults.{IsFaultOf};
ghost use Rattle.path_image.specs.Answers.{AreEndsIn, IsBlockedIn, IsEndRefusalIn, IsHomeIn, IsLeastCostIn, IsMoveIn, IsNextIn, IsPathFaultIn, IsPathIn, IsRefusalIn, IsWalkFaultIn};

use crate::checking::{ImageFault, check};
use crate::walking::{PathFault, WalkFault, path_cost, write_path};
use crate::{BLOCKED, HALF, HEAD};
use moves::{Cell, Move, place};
use root_cost::Cost;
use run_pack::{find_word_move, find_word_near};
use std::marker::Model;
use versions::{End, Next, QueryRefusal};

/// The image of a version, in words of the caller's.
///
/// It takes no memory, and whoever holds the words may read them by any number of images at once. Of words that passed
/// the look of [`Image::over`] and are no version's image each call returns too, and reads nothing outside of them.
#[derive(Drop)]
pub struct Image<'a> {
    pub(crate) words: &'a [u32],
}

impl<'a> Model for Image<'a> {
    ghost use Rattle.std.specs.Prelude.{ℕ, List};
    ghost use Rattle.path_image.specs.Reading.{LeadsInside};

    ghost Value = { List ℕ };

    ghost view = { λ image. image.words.now };

    ghost invariant = { λ image. LeadsInside image.words.now };
}

impl<'a> Image<'a> {
    /// The image in these words, after a look whether each number in them leads inside. The image of a version passes.
    ///
    /// # Errors
    ///
    /// The part that is wrong.
    pub fn over(words: &'a [u32]) -> Result<Image<'a>, ImageFault>
        ensures image { IfOk result (λ image. image ≡ words.now) }
        ensures inside { OnOk result (LeadsInside words.now) }
        ensures fault { IfErr result (IsFaultOf words.now) }
        ensures passes { (version : Versioned) → IsImageOf words.now version
            → IsWithinLimits version.map.width version.map.height → IsOk result }
    {
        check(words)?;
        Ok(Image { words })
    }

    /// The image in words that passed the look before, and that have not changed since.
    pub fn known(words: &'a [u32]) -> Image<'a>
        requires { LeadsInside words.now }
        ensures { result ≡ words.now }
    {
        Image { words }
    }

    /// How many columns the map has, from 1 to 4,096.
    pub fn width(&self) -> u32
        ensures width { (version : Versioned) → IsImageOf self.now version
            → result ≡ version.map.width }
        ensures limits { (0 < result) × (result ≤ MAX_SIDE) }
    {
        width(self.words)
    }

    /// How many rows the map has, from 1 to 4,096.
    pub fn height(&self) -> u32
        ensures height { (version : Versioned) → IsImageOf self.now version
            → result ≡ version.map.height }
        ensures limits { (0 < result) × (result ≤ MAX_SIDE) }
    {
        height(self.words)
    }

    /// How many edits of the first map the version's map comes after.
    pub fn prefix(&self) -> u32
        ensures { (version : Versioned) → IsImageOf self.now version → result ≡ version.prefix }
    {
        self.words[6]
    }

    /// How many passable cells there are.
    pub fn cells(&self) -> u32
        ensures { (version : Versioned) → IsImageOf self.now version
            → result ≡ passable_count version.map }
    {
        self.words[8]
    }

    /// How many components the cells make.
    pub fn components(&self) -> u32
        ensures { (version : Versioned) → IsImageOf self.now version
            → result ≡ length version.comps }
    {
        self.words[9]
    }

    /// Where the path from a cell to a goal goes on.
    ///
    /// # Errors
    ///
    /// The first cause to refuse the two cells, the one where the path stands before the goal.
    pub fn next(&self, at: Cell, goal: Cell) -> Result<Next, QueryRefusal>
        ensures ends { OnOk result (AreEndsIn self.now at goal) }
        ensures next { IfOk result (IsNextIn self.now at goal) }
        ensures refused { IfErr result (IsRefusalIn self.now at goal) }
    {
        next_in(self.words, at, goal)
    }

    /// What the path from a cell to another costs; `None` where no path exists.
    ///
    /// # Errors
    ///
    /// The first cause to refuse the two cells, the start before the goal; or that the words are no version's image.
    pub fn cost(&self, start: Cell, goal: Cell) -> Result<Option<Cost>, WalkFault>
        ensures ends { OnOk result (AreEndsIn self.now start goal) }
        ensures cost { IfOk result (IsLeastCostIn self.now start goal) }
        ensures fault { IfErr result (IsWalkFaultIn self.now start goal) }
    {
        path_cost(self.words, start, goal)
    }

    /// Writes the moves of the path from a cell to another into a room, a byte a move, which is its number from 0 for
    /// north clockwise to 7, and says how many they are; `None` where no path exists.
    ///
    /// # Errors
    ///
    /// The first cause to refuse the two cells, the start before the goal; that the room has too few places, and how
    /// many are needed; or that the words are no version's image. Of a path that is too long the room has the first
    /// moves.
    pub fn path_into(
        &self,
        start: Cell,
        goal: Cell,
        room: &mut [u8],
    ) -> Result<Option<u32>, PathFault>
        ensures ends { OnOk result (AreEndsIn self.now start goal) }
        ensures path { IfOk result (IsPathIn self.now start goal room.old room.new) }
        ensures fault { IfErr result (IsPathFaultIn self.now start goal room.old room.new) }
    {
        write_path(self.words, start, goal, room)
    }
}

/// Where a cell stands.
#[derive(Clone, Copy, Debug, PartialEq, Eq)]
pub struct Home {
    /// The number of its component.
    pub label: u32,
    /// Its place in the order of the component.
    pub place: u32,
}

/// How many columns the map has.
pub(crate) fn width(words: &[u32]) -> u32
    requires { LeadsInside words.now }
    ensures { result ≡ width_in words.now }
{
    words[4]
}

/// How many rows the map has.
pub(crate) fn height(words: &[u32]) -> u32
    requires { LeadsInside words.now }
    ensures { result ≡ height_in words.now }
{
    words[5]
}

/// Whether the cell lies inside the sides.
pub(crate) fn has(words: &[u32], cell: Cell) -> bool
    requires { LeadsInside words.now }
    ensures { IsTrue result ↔ IsCellIn words.now cell }
{
    u32::from(cell.x) < width(words) && u32::from(cell.y) < height(words)
}

/// Where the table of a component begins.
#[inline(always)]
pub(crate) fn start_of(words: &[u32], label: u32) -> usize
    requires inside { LeadsInside words.now }
    requires label { label < count_in words.now }
    ensures { result ≡ start_in words.now label }
{
    let starts = HEAD + (width(words) * height(words)) as usize;
    words[starts + label as usize] as usize
}

/// How many cells the component has.
#[inline(always)]
pub(crate) fn size_of(words: &[u32], label: u32) -> u32
    requires inside { LeadsInside words.now }
    requires label { label < count_in words.now }
    ensures { result ≡ size_at words.now (start_in words.now label) }
{
    words[start_of(words, label)]
}

/// The word of a cell.
#[inline(always)]
fn home_word(words: &[u32], cell: Cell) -> u32
    requires inside { LeadsInside words.now }
    requires cell { IsCellIn words.now cell }
    ensures { result ≡ home_in words.now cell }
{
    words[HEAD + place(width(words), cell)]
}

/// Where a cell stands; `None` for a blocked one.
#[inline(always)]
pub(crate) fn home_at(words: &[u32], cell: Cell) -> Option<Home>
    requires inside { LeadsInside words.now }
    requires cell { IsCellIn words.now cell }
    ensures stands { IfSome result (λ home. StandsIn words.now home.label home.place) }
    ensures home { IfSome result (IsHomeIn words.now cell) }
    ensures blocked { IfNone result (IsBlockedIn words.now cell) }
{
    let word = home_word(words, cell);
    if word == BLOCKED {
        return None;
    }
    Some(Home {
        label: word / HALF,
        place: word % HALF,
    })
}

/// Where the cell of an end stands.
///
/// # Errors
///
/// That the cell lies outside or is blocked.
pub(crate) fn home_of(words: &[u32], cell: Cell, which: End) -> Result<Home, QueryRefusal>
    requires { LeadsInside words.now }
    ensures inside { OnOk result (IsCellIn words.now cell) }
    ensures stands { IfOk result (λ home. StandsIn words.now home.label home.place) }
    ensures home { IfOk result (IsHomeIn words.now cell) }
    ensures refused { IfErr result (IsEndRefusalIn words.now cell which) }
{
    if !has(words, cell) {
        return Err(QueryRefusal::Outside { which });
    }
    match home_at(words, cell) {
        Some(home) => Ok(home),
        None => Err(QueryRefusal::Blocked { which }),
    }
}

/// The runs of the row of a place.
#[inline(always)]
fn row(words: &[u32], home: Home) -> &[u32]
    requires inside { LeadsInside words.now }
    requires home { StandsIn words.now home.label home.place }
    ensures row { result.now ≡ row_at_place words.now (start_in words.now home.label) home.place }
    ensures rises { Rises (map run_of_word result.now) }
{
    let start = start_of(words, home.label);
    let size = words[start] as usize;
    let borders = start + 1 + size + home.place as usize;
    let runs = start + 2 * size + 2;
    &words[runs + words[borders] as usize..runs + words[borders + 1] as usize]
}

/// How many runs the row of a place has.
pub(crate) fn row_len(words: &[u32], home: Home) -> usize
    requires inside { LeadsInside words.now }
    requires home { StandsIn words.now home.label home.place }
    ensures { result < length words.now }
{
    row(words, home).len()
}

/// The move that is kept in the row of a place for a goal.
fn move_at(words: &[u32], home: Home, goal: u32) -> Move
    requires inside { LeadsInside words.now }
    requires home { StandsIn words.now home.label home.place }
    ensures { IsMoveIn words.now home goal result }
{
    let number = find_word_move(row(words, home), goal);
    Move::of(number).unwrap_or_default()
}

/// The same move, sought run by run from a guess on.
#[inline(always)]
pub(crate) fn move_for(words: &[u32], home: Home, goal: u32, guess: &mut usize) -> Move
    requires inside { LeadsInside words.now }
    requires home { StandsIn words.now home.label home.place }
    ensures { IsMoveIn words.now home goal result }
{
    let number = find_word_near(row(words, home), goal, guess);
    Move::of(number).unwrap_or_default()
}

/// Where the path from a cell to a goal goes on.
///
/// # Errors
///
/// The first cause to refuse the two cells, the one where the path stands before the goal.
fn next_in(words: &[u32], at: Cell, goal: Cell) -> Result<Next, QueryRefusal>
    requires { LeadsInside words.now }
    ensures ends { OnOk result (AreEndsIn words.now at goal) }
    ensures next { IfOk result (IsNextIn words.now at goal) }
    ensures refused { IfErr result (IsRefusalIn words.now at goal) }
{
    let (from, to) = ends_of(words, at, goal)?;
    if at == goal {
        return Ok(Next::Arrived);
    }
    if from.label != to.label {
        return Ok(Next::Unreachable);
    }
    Ok(Next::Go(move_at(words, from, to.place)))
}

/// Where the two ends of a path stand.
///
/// # Errors
///
/// The first cause to refuse the two cells, the start before the goal.
pub(crate) fn ends_of(words: &[u32], start: Cell, goal: Cell) -> Result<(Home, Home), QueryRefusal>
    requires { LeadsInside words.now }
    ensures inside { OnOk result (IsCellIn words.now start) }
    ensures start { IfOk result (λ homes. StandsIn words.now homes.0.label homes.0.place) }
    ensures goal { IfOk result (λ homes. StandsIn words.now homes.1.label homes.1.place) }
    ensures from { IfOk result (λ homes. IsHomeIn words.now start homes.0) }
    ensures to { IfOk result (λ homes. IsHomeIn words.now goal homes.1) }
    ensures ends { OnOk result (AreEndsIn words.now start goal) }
    ensures refused { IfErr result (IsRefusalIn words.now start goal) }
{
    let from = home_of(words, start, End::Start)?;
    let to = home_of(words, goal, End::Goal)?;
    Ok((from, to))
}
