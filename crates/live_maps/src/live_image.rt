//! Live maps over an image, and what it tells of their paths by look-ups alone.

ghost use Rattle.std.specs.Prelude.{◌≡◌, ◌↔◌, false, IfErr, IfOk, IfSome, IsTrue, MatchOption, OnOk, slice_set};
ghost use Rattle.moves.specs.Maps.{place_of};
ghost use Rattle.path_image.specs.Answers.{IsHomeIn};
ghost use Rattle.path_image.specs.Reading.{IsCellIn, LeadsInside, StandsIn, width_in};
ghost use Rattle.live_maps.specs.Live.{is_marked};
ghost use Rattle.live_maps.specs.Told.{AreLiveEndsIn, HasBitsIn, IsClear, IsLiveEndRefusalIn, IsLiveFaultIn, IsLiveNextIn, IsLivePathIn, IsLiveRefusalIn, IsLiveWalkFaultIn};
ghost use Rattle.live_maps.specs.Telling.{IsToldAhead};

use crate::answers::{LiveFault, LiveNext, LivePath};
use crate::bits::{is_marked, words_for};
use moves::{Cell, MAX_PASSABLE, Move, place};
use path_image::{Home, Image, ImageWalk, Step, WalkFault};
use std::marker::Model;
use versions::{End, QueryRefusal};

/// A live map: the image of a map, and a bit a cell that says which are blocked now.
///
/// The bit of a cell is bit `place % 32` of word `place / 32`, where `place` is `y * width + x`. A cell that the map has
/// as blocked stays so, whatever its bit.
#[derive(Drop)]
pub struct LiveImage<'a> {
    words: &'a [u32],
    blocked: &'a [u32],
}

impl<'a> Model for LiveImage<'a> {
    ghost use Rattle.live_maps.specs.Told.{IsLiving, Living};

    ghost Value = { Living };

    ghost view = { λ l. record { words = l.words.now; bits = l.blocked.now } };

    ghost invariant = { λ l. IsLiving l.words.now l.blocked.now };
}

impl<'a> LiveImage<'a> {
    /// The live map of an image in words that passed its look; `None` exactly where there is not a bit for each cell of
    /// its map, or a word more.
    pub fn over(words: &'a [u32], blocked: &'a [u32]) -> Option<LiveImage<'a>>
        requires { LeadsInside words.now }
        ensures words { IfSome result (λ live. live.words ≡ words.now) }
        ensures bits { IfSome result (λ live. live.bits ≡ blocked.now) }
        ensures wrong { MatchOption result (HasBitsIn words.now blocked.now → ⊥)
            (λ live. HasBitsIn words.now blocked.now) }
    {
        let (width, height) = Image::known(words).sides();
        if blocked.len() != words_for(width, height) {
            return None;
        }
        Some(LiveImage { words, blocked })
    }

    /// The image.
    #[inline(always)]
    pub fn image(&self) -> Image<'a>
        ensures image { result ≡ self.now.words }
        ensures whole { HasBitsIn self.now.words self.now.bits }
    {
        Image::known(self.words)
    }

    /// Whether the bit of a cell is set.
    #[inline(always)]
    pub fn is_marked(&self, cell: Cell) -> bool
        requires { IsCellIn self.now.words cell }
        ensures { result ≡ is_marked self.now.bits (place_of (width_in self.now.words) cell) }
    {
        let (width, _) = Image::known(self.words).sides();
        is_marked(self.blocked, place(width, cell))
    }

    /// Whether no bit is set where a move leads nor, for a diagonal one, at the two cells beside it.
    #[inline(always)]
    pub fn is_clear(&self, from: Cell, by: Move, to: Cell) -> bool
        requires from { IsCellIn self.now.words from }
        requires to { IsCellIn self.now.words to }
        ensures { IsTrue result ↔ IsClear self.now.bits (width_in self.now.words) from by to }
    {
        if self.is_marked(to) {
            return false;
        }
        if !by.is_diagonal() {
            return true;
        }
        !self.is_marked(Cell { x: from.x, y: to.y }) && !self.is_marked(Cell { x: to.x, y: from.y })
    }

    /// Where the cell of an end stands, which is passable now.
    ///
    /// # Errors
    ///
    /// That the cell lies outside, or is blocked, by the map or by its bit.
    pub fn home_of(&self, cell: Cell, which: End) -> Result<Home, QueryRefusal>
        ensures inside { OnOk result (IsCellIn self.now.words cell) }
        ensures stands { IfOk result (λ home. StandsIn self.now.words home.label home.place) }
        ensures home { IfOk result (IsHomeIn self.now.words cell) }
        ensures clear { OnOk result
            (is_marked self.now.bits (place_of (width_in self.now.words) cell) ≡ false) }
        ensures refused { IfErr result (IsLiveEndRefusalIn self.now cell which) }
    {
        match self.image().home_of(cell, which) {
            Err(why) => Err(why),
            Ok(home) => {
                if self.is_marked(cell) {
                    return Err(QueryRefusal::Blocked { which });
                }
                Ok(home)
            }
        }
    }

    /// Where the two ends of a path stand, which are passable now.
    ///
    /// # Errors
    ///
    /// The first cause to refuse the two cells, the start before the goal.
    pub fn ends_of(&self, start: Cell, goal: Cell) -> Result<(Home, Home), QueryRefusal>
        ensures inside { OnOk result (IsCellIn self.now.words start) }
        ensures arrives { OnOk result (IsCellIn self.now.words goal) }
        ensures start { IfOk result (λ homes. StandsIn self.now.words homes.0.label homes.0.place) }
        ensures goal { IfOk result (λ homes. StandsIn self.now.words homes.1.label homes.1.place) }
        ensures from { IfOk result (λ homes. IsHomeIn self.now.words start homes.0) }
        ensures to { IfOk result (λ homes. IsHomeIn self.now.words goal homes.1) }
        ensures clear { OnOk result
            (is_marked self.now.bits (place_of (width_in self.now.words) start) ≡ false) }
        ensures ends { OnOk result (AreLiveEndsIn self.now start goal) }
        ensures refused { IfErr result (IsLiveRefusalIn self.now start goal) }
    {
        match self.home_of(start, End::Start) {
            Err(why) => Err(why),
            Ok(from) => match self.home_of(goal, End::Goal) {
                Err(why) => Err(why),
                Ok(to) => Ok((from, to)),
            },
        }
    }

    /// Writes the moves of the path that the database tells into a room, a byte a move, as far as they are free, and
    /// says whether all are.
    ///
    /// # Errors
    ///
    /// The first cause to refuse the two cells, the start before the goal; that the path is free and the room has too
    /// few places for it; or that the words are no version's image. Of a path that is too long the room has the first
    /// moves.
    pub fn path_into(&self, start: Cell, goal: Cell, room: &mut [u8]) -> Result<LivePath, LiveFault>
        ensures ends { OnOk result (AreLiveEndsIn self.now start goal) }
        ensures path { IfOk result (IsLivePathIn self.now start goal room.old room.new) }
        ensures fault { IfErr result (IsLiveFaultIn self.now start goal room.old room.new) }
    {
        let (from, to) = match self.ends_of(start, goal) {
            Ok(homes) => homes,
            Err(why) => return Err(LiveFault::Refused(why)),
        };
        if from.label != to.label {
            return Ok(LivePath::Unreachable);
        }
        let mut walk = self.image().walk(start, from, to);
        match put_free(self, &mut walk, room) {
            Told::Whole { count } if count as usize <= room.len() => {
                Ok(LivePath::Free { length: count })
            }
            Told::Whole { count } => Err(LiveFault::TooSmall { needed: count }),
            Told::Front { count } => Ok(LivePath::Stale { length: count }),
            Told::Lost => Err(LiveFault::Broken),
        }
    }

    /// Where the path that the database tells goes on, and whether that one move is free.
    ///
    /// # Errors
    ///
    /// The first cause to refuse the two cells, the one where the path stands before the goal; or that the words are no
    /// version's image.
    pub fn next(&self, at: Cell, goal: Cell) -> Result<LiveNext, WalkFault>
        ensures ends { OnOk result (AreLiveEndsIn self.now at goal) }
        ensures next { IfOk result (IsLiveNextIn self.now at goal) }
        ensures fault { IfErr result (IsLiveWalkFaultIn self.now at goal) }
    {
        let (from, to) = match self.ends_of(at, goal) {
            Ok(homes) => homes,
            Err(why) => return Err(WalkFault::Refused(why)),
        };
        if from.label != to.label {
            return Ok(LiveNext::Unreachable);
        }
        let mut walk = self.image().walk(at, from, to);
        match walk.step() {
            Step::Arrived => Ok(LiveNext::Arrived),
            Step::Go(by) => {
                if self.is_clear(at, by, walk.at()) {
                    Ok(LiveNext::Go(by))
                } else {
                    Ok(LiveNext::Stale(by))
                }
            }
            Step::Lost => Err(WalkFault::Broken),
        }
    }
}

/// How far a walk was told.
enum Told {
    /// To its goal: so many moves.
    Whole { count: u32 },
    /// To a move that is not free: so many moves before it.
    Front { count: u32 },
    /// To where it got lost, as no walk of a version does.
    Lost,
}

/// Puts the moves that are ahead of a walk into a room, as far as it reaches and as far as they are free.
fn put_free(live: &LiveImage, walk: &mut ImageWalk, room: &mut [u8]) -> Told
    requires { walk.old.words ≡ live.now.words }
    ensures { IsToldAhead live.now walk.old.walk room.old room.new result }
{
    let mut count = 0;
    for _ in 0..MAX_PASSABLE {
        let from = walk.at();
        match walk.step() {
            Step::Arrived => return Told::Whole { count },
            Step::Go(by) => {
                if !live.is_clear(from, by, walk.at()) {
                    return Told::Front { count };
                }
                put(room, count as usize, by.number());
                count += 1;
            }
            Step::Lost => return Told::Lost,
        }
    }
    Told::Lost
}

/// Puts a number at a place of a room, if the room reaches so far.
#[inline(always)]
fn put(room: &mut [u8], place: usize, number: u8)
    ensures { room.new ≡ slice_set room.old place number }
{
    if place < room.len() {
        room[place] = number;
    }
}
