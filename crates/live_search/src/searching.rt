//! The search itself.

ghost use Rattle.std.specs.Prelude.{◌≡◌, ◌≢◌, ◌+◌, ◌*◌, ◌<◌, IfErr, IfNone, IfOk, IfSome, OnOk, Ok};
ghost use Rattle.path_image.specs.Reading.{IsCellIn};
ghost use Rattle.live_maps.specs.Told.{AreLiveEndsIn};
ghost use Rattle.live_search.specs.Answers.{Begins, IsAnswered, IsSearchFaultIn, IsSearchedIn, IsToldBy, IsWaiting};
ghost use Rattle.live_search.specs.Ends.{IsLast, IsOpenBelow, IsTurn, NoneIsOpen};
ghost use Rattle.live_search.specs.Sound.{IsSought};
ghost use Rattle.live_search.specs.State.{HasState, cost_in, mark_in};

use crate::NEVER;
use crate::ending::{finish, is_open_below, open_below};
use crate::expanding::expand;
use crate::noting::make_known;
use crate::queue::{empty, pop, push};
use crate::seeking::Seek;
use crate::words::{clear, cost_at, know, list, lower, told_at, word_of};
use live_maps::LiveImage;
use moves::Cell;
use std::error::Error;
use std::fmt;
use versions::QueryRefusal;

/// A key above that of each path.
const NO_LIMIT: u64 = 8_589_934_592;

/// What a search found.
#[derive(Clone, Copy, Debug, PartialEq, Eq)]
pub enum LiveSearch {
    /// A best path of the live map: so many moves.
    Found {
        /// How many moves it has.
        length: u32,
    },
    /// No path of the live map.
    Unreachable,
    /// Nothing yet: as many cells were taken as the limit says. The room of words keeps the search.
    More,
}

/// Why a search has no answer.
#[derive(Clone, Copy, Debug, PartialEq, Eq)]
pub enum SearchFault {
    /// One of the two cells may not be asked for.
    Refused(QueryRefusal),
    /// There is a path, and the room has too few places.
    TooSmall {
        /// How many moves the path has.
        needed: u32,
    },
    /// The search wants more words.
    FewWords,
    /// The words are no version's image.
    Broken,
}

impl fmt::Display for SearchFault {
    ghost use Rattle.std.specs.Prelude.{Some};
    ghost use Rattle.live_search.specs.Answers.{search_fault_text};

    ghost output = { λ fault. Some (search_fault_text fault) };

    fn fmt<W: fmt::Write>(&self, f: &mut fmt::Formatter<W>) -> fmt::Result {
        match self {
            SearchFault::Refused(why) => write!(f, "{why}"),
            SearchFault::TooSmall { needed } => write!(f, "room for too few moves of {needed}"),
            SearchFault::FewWords => write!(f, "too few words for a search"),
            SearchFault::Broken => write!(f, "broken image"),
        }
    }
}

impl Error for SearchFault {}

/// How a turn of a search ended.
#[derive(Clone, Copy)]
enum Turn {
    /// A place was closed, or is waiting again.
    On,
    /// Nothing is cheaper than the path by this place.
    Last(u32),
    /// Nothing is open.
    Nowhere,
    /// The words are no version's image.
    Lost,
}

/// How many words are enough for a search on a map with so many passable cells.
pub fn search_words(cells: u32) -> u64
    ensures { result ≡ 10 * cells + 2 }
{
    10 * u64::from(cells) + 2
}

/// Writes the moves of a best path of the live map into a room, a byte a move; takes at most `limit` cells for it, in a
/// scratch of words that may hold anything. Where the limit is reached [`go_on`] goes on.
///
/// # Errors
///
/// The first cause to refuse the two cells, the start before the goal; that the room has too few places for the moves,
/// and how many are needed; that the scratch has too few words, fewer than [`search_words`] of the map's passable cells;
/// or that the words are no version's image.
pub fn search(
    live: &LiveImage,
    start: Cell,
    goal: Cell,
    limit: u32,
    scratch: &mut [u32],
    room: &mut [u8],
) -> Result<LiveSearch, SearchFault>
    ensures ends { OnOk result (AreLiveEndsIn live.now start goal) }
    ensures found { IfOk result (IsSearchedIn live.now start goal room.old room.new) }
    ensures waits { result ≡ Ok LiveSearch.More → IsWaiting live.now start goal scratch.new }
    ensures fault { IfErr result (IsSearchFaultIn live.now start goal scratch.old room.old room.new) }
{
    let (from, to) = match live.ends_of(start, goal) {
        Ok(homes) => homes,
        Err(why) => return Err(SearchFault::Refused(why)),
    };
    if from.label != to.label {
        return Ok(LiveSearch::Unreachable);
    }
    let seek = Seek {
        first: from.place,
        goal: to,
        size: live.image().size(to),
    };
    let words = 8 * seek.size as usize + 1;
    if scratch.len() < words {
        return Err(SearchFault::FewWords);
    }
    let (state, queue) = scratch.split_at_mut(words);
    if !begin(live, seek, state, queue, (start, goal)) {
        return Err(SearchFault::Broken);
    }
    answer(live, seek, state, queue, limit, room)
}

/// Goes on with a search of the same two cells that told [`LiveSearch::More`], in the words that it left. The bits have to
/// be those that they were; where one has changed, begin anew.
///
/// # Errors
///
/// Those of [`search`].
pub fn go_on(
    live: &LiveImage,
    start: Cell,
    goal: Cell,
    limit: u32,
    scratch: &mut [u32],
    room: &mut [u8],
) -> Result<LiveSearch, SearchFault>
    requires { IsWaiting live.now start goal scratch.old }
    ensures ends { OnOk result (AreLiveEndsIn live.now start goal) }
    ensures found { IfOk result (IsSearchedIn live.now start goal room.old room.new) }
    ensures waits { result ≡ Ok LiveSearch.More → IsWaiting live.now start goal scratch.new }
    ensures fault { IfErr result (IsSearchFaultIn live.now start goal scratch.old room.old room.new) }
{
    let (from, to) = match live.ends_of(start, goal) {
        Ok(homes) => homes,
        Err(why) => return Err(SearchFault::Refused(why)),
    };
    if from.label != to.label {
        return Ok(LiveSearch::Unreachable);
    }
    let seek = Seek {
        first: from.place,
        goal: to,
        size: live.image().size(to),
    };
    let words = 8 * seek.size as usize + 1;
    if scratch.len() < words {
        return Err(SearchFault::FewWords);
    }
    let (state, queue) = scratch.split_at_mut(words);
    answer(live, seek, state, queue, limit, room)
}

/// Begins a search: nothing is known but the two ends, and the start waits.
fn begin(
    live: &LiveImage,
    seek: Seek,
    state: &mut [u32],
    queue: &mut [u32],
    ends: (Cell, Cell),
) -> bool
    requires sought { IsSought live.now seek }
    requires start { IsCellIn live.now.words ends.0 }
    requires room { HasState state.old seek.size }
    requires goal { seek.goal.place < seek.size }
    ensures room { HasState state.new seek.size }
    ensures begins { Begins live.now seek ends.0 ends.1 state.new result }
{
    let (start, goal) = ends;
    clear(state, seek.size);
    empty(queue);
    list(state, seek.size, seek.goal.place);
    know(state, seek.size, seek.goal.place, 1, word_of(goal));
    if !make_known(live, seek, state, start, seek.first) {
        return false;
    }
    lower(state, seek.size, seek.first, 0, 0);
    push(queue, told_at(state, seek.size, seek.first) / 2, seek.first);
    true
}

/// Takes cells until the search ends or so many were taken, and puts the moves that it found.
fn answer(
    live: &LiveImage,
    seek: Seek,
    state: &mut [u32],
    queue: &mut [u32],
    limit: u32,
    room: &mut [u8],
) -> Result<LiveSearch, SearchFault>
    requires sought { IsSought live.now seek }
    requires state { HasState state.old seek.size }
    ensures state { HasState state.new seek.size }
    ensures answers { IsAnswered live.now seek state.old state.new room.old room.new result }
{
    for _ in 0..limit {
        match take_turn(live, seek, state, queue) {
            Turn::On => {}
            Turn::Nowhere => return Ok(LiveSearch::Unreachable),
            Turn::Lost => return Err(SearchFault::Broken),
            Turn::Last(place) => return tell(live, seek, state, place, room),
        }
    }
    Ok(LiveSearch::More)
}

/// Puts the moves of the path by a place.
fn tell(
    live: &LiveImage,
    seek: Seek,
    state: &[u32],
    place: u32,
    room: &mut [u8],
) -> Result<LiveSearch, SearchFault>
    requires sought { IsSought live.now seek }
    requires state { HasState state.now seek.size }
    requires last { IsLast seek state.now place }
    ensures { IsToldBy live.now seek state.now room.old room.new result }
{
    match finish(live, seek, state, place, room) {
        Some(length) if length as usize <= room.len() => Ok(LiveSearch::Found { length }),
        Some(needed) => Err(SearchFault::TooSmall { needed }),
        None => Err(SearchFault::Broken),
    }
}

/// Takes a cell.
fn take_turn(live: &LiveImage, seek: Seek, state: &mut [u32], queue: &mut [u32]) -> Turn
    requires sought { IsSought live.now seek }
    requires state { HasState state.old seek.size }
    ensures state { HasState state.new seek.size }
    ensures turns { IsTurn live.now seek state.old state.new result }
{
    let Some(place) = take(seek, state, queue) else {
        return Turn::Nowhere;
    };
    let told = told_at(state, seek.size, place);
    if told % 2 == 0 {
        return close_at(live, seek, state, queue, place);
    }
    let key = u64::from(cost_at(state, seek.size, place)) + u64::from(told / 2);
    match open_below(seek, state, key) {
        None => Turn::Last(place),
        Some(other) => {
            put_back(seek, state, queue, (key as u32, place), other);
            close_at(live, seek, state, queue, other)
        }
    }
}

/// Puts a place back that was taken before a cheaper one, or the goal in its place if that is the cheaper one: so no
/// place is taken again and again before a goal that the queue has lost.
fn put_back(seek: Seek, state: &[u32], queue: &mut [u32], taken: (u32, u32), other: u32)
    requires room { HasState state.now seek.size }
    requires other { other < seek.size }
{
    if other == seek.goal.place {
        push(queue, cost_at(state, seek.size, other), other);
    } else {
        push(queue, taken.0, taken.1);
    }
}

/// Looks at the moves of a place.
fn close_at(live: &LiveImage, seek: Seek, state: &mut [u32], queue: &mut [u32], place: u32) -> Turn
    requires sought { IsSought live.now seek }
    requires state { HasState state.old seek.size }
    requires place { place < seek.size }
    requires known { mark_in state.old place ≢ 0 }
    requires reached { cost_in state.old seek.size place < NEVER }
    ensures state { HasState state.new seek.size }
    ensures turns { IsTurn live.now seek state.old state.new result }
{
    if expand(live, seek, state, queue, place) {
        Turn::On
    } else {
        Turn::Lost
    }
}

/// Takes a place that is open from the queue, or else from all that are known; `None` where none is.
fn take(seek: Seek, state: &[u32], queue: &mut [u32]) -> Option<u32>
    requires { HasState state.now seek.size }
    ensures within { IfSome result (λ place. place < seek.size) }
    ensures below { IfSome result (IsOpenBelow seek state.now NO_LIMIT) }
    ensures none { IfNone result (NoneIsOpen seek state.now NO_LIMIT) }
{
    for _ in 0..queue.len() {
        match pop(queue) {
            None => return open_below(seek, state, NO_LIMIT),
            Some(place) => {
                if place < seek.size {
                    if is_open_below(seek, state, place, NO_LIMIT) {
                        return Some(place);
                    }
                }
            }
        }
    }
    open_below(seek, state, NO_LIMIT)
}
