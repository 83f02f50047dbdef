//! Paths on a live map: the image of a map, and a bit a cell that says which are blocked now.

ghost use Rattle.std.specs.Prelude.{◌≡◌, ◌+◌, ◌*◌, ◌≤◌, false, IfErr, IfOk, OnOk, Ok, length};
ghost use Rattle.path_image.specs.Reading.{LeadsInside};
ghost use Rattle.live_maps.specs.Told.{AreLiveEndsIn};
ghost use Rattle.live_search.specs.Answers.{IsSearchFaultIn, IsSearchedIn, IsWaiting};
ghost use Rattle.pathdb.specs.Calls.{Tells, cell_of};
ghost use Rattle.pathdb.specs.Live.{SaysLiveNext, SaysLivePath, SaysSearched, goal_of, living, start_of};

use crate::Status;
use crate::queries::PathdbCell;
use live_maps::{LiveFault, LiveImage, LiveNext, LivePath};
use live_search::{LiveSearch, SearchFault, go_on, search, search_words};
use moves::Cell;
use path_image::WalkFault;

/// What is searched on a live map, and how far a call goes.
#[repr(C)]
#[derive(Clone, Copy, Debug, Default, PartialEq, Eq)]
pub struct PathdbSearch {
    /// Where the path starts.
    pub start: PathdbCell,
    /// Where it leads.
    pub goal: PathdbCell,
    /// How many cells the call takes at most before it tells that there is more to do.
    pub limit: u32,
}

/// A search that begins, or that goes on in its scratch.
#[derive(Clone, Copy)]
struct Turn {
    sought: PathdbSearch,
    anew: bool,
}

/// Where the path that the image tells goes on, by the number of the move, and whether that one move is free now.
#[unsafe(no_mangle)]
pub extern "C" fn pathdb_next_move_live(
    words: &[u32],
    blocked: &[u32],
    at: PathdbCell,
    goal: PathdbCell,
    by: &mut u8,
) -> u32
    requires { LeadsInside words.now }
    ensures told { Tells result
        (SaysLiveNext (living words.now blocked.now) (cell_of at) (cell_of goal) by.old by.new) }
{
    next_live(words, blocked, at.cell(), goal.cell(), by).number()
}

/// Writes the moves of the path that the image tells into a room, a byte a move, as far as they are free now, and how
/// many those are. A path that is free to its end is a best one now.
#[unsafe(no_mangle)]
pub extern "C" fn pathdb_path_live(
    words: &[u32],
    blocked: &[u32],
    start: PathdbCell,
    goal: PathdbCell,
    room: &mut [u8],
    count: &mut u32,
) -> u32
    requires { LeadsInside words.now }
    ensures told { Tells result (SaysLivePath (living words.now blocked.now)
        (cell_of start) (cell_of goal) room.old room.new count.new) }
    ensures inside { result ≡ 0 → count.new ≤ length room.old }
{
    path_live(words, blocked, start.cell(), goal.cell(), room, count).number()
}

/// How many words of scratch are enough for a search on a map with so many passable cells.
#[unsafe(no_mangle)]
pub extern "C" fn pathdb_search_words(cells: u32) -> u64
    ensures { result ≡ 10 * cells + 2 }
{
    search_words(cells)
}

/// Searches a best path now and writes its moves into a room, a byte a move, and how many there are. The scratch may
/// hold anything. Where the search takes more cells than its limit, the scratch keeps it.
#[unsafe(no_mangle)]
pub extern "C" fn pathdb_search_live(
    words: &[u32],
    blocked: &[u32],
    sought: PathdbSearch,
    scratch: &mut [u32],
    room: &mut [u8],
    count: &mut u32,
) -> u32
    requires { LeadsInside words.now }
    ensures told { Tells result (SaysSearched (living words.now blocked.now) sought
        scratch.old scratch.new room.old room.new count.new) }
    ensures inside { result ≡ 0 → count.new ≤ length room.old }
{
    let turn = Turn { sought, anew: true };
    search_over(words, blocked, turn, scratch, room, count).number()
}

/// Goes on with a search that its limit ended, in the scratch that it left. The bits are those that they were.
#[unsafe(no_mangle)]
pub extern "C" fn pathdb_search_on(
    words: &[u32],
    blocked: &[u32],
    sought: PathdbSearch,
    scratch: &mut [u32],
    room: &mut [u8],
    count: &mut u32,
) -> u32
    requires inside { LeadsInside words.now }
    requires waits { IsWaiting (living words.now blocked.now) (start_of sought) (goal_of sought) scratch.old }
    ensures told { Tells result (SaysSearched (living words.now blocked.now) sought
        scratch.old scratch.new room.old room.new count.new) }
    ensures inside { result ≡ 0 → count.new ≤ length room.old }
{
    let turn = Turn {
        sought,
        anew: false,
    };
    search_over(words, blocked, turn, scratch, room, count).number()
}

/// `pathdb_next_move_live` as a status.
fn next_live(words: &[u32], blocked: &[u32], at: Cell, goal: Cell, by: &mut u8) -> Status
    requires { LeadsInside words.now }
    ensures { SaysLiveNext (living words.now blocked.now) at goal by.old by.new result }
{
    match LiveImage::over(words, blocked) {
        None => Status::WrongBits,
        Some(live) => next_on(&live, at, goal, by),
    }
}

/// The same over a live map.
fn next_on(live: &LiveImage, at: Cell, goal: Cell, by: &mut u8) -> Status
    ensures { SaysLiveNext live.now at goal by.old by.new result }
{
    match live.next(at, goal) {
        Ok(LiveNext::Go(go)) => {
            *by = go.number();
            Status::Done
        }
        Ok(LiveNext::Stale(go)) => {
            *by = go.number();
            Status::Stale
        }
        Ok(LiveNext::Arrived) => Status::Arrived,
        Ok(LiveNext::Unreachable) => Status::Unreachable,
        Err(WalkFault::Broken) => Status::Broken,
        Err(WalkFault::Refused(why)) => Status::of_refusal(why),
    }
}

/// `pathdb_path_live` as a status.
fn path_live(
    words: &[u32],
    blocked: &[u32],
    start: Cell,
    goal: Cell,
    room: &mut [u8],
    count: &mut u32,
) -> Status
    requires { LeadsInside words.now }
    ensures told { SaysLivePath (living words.now blocked.now) start goal
        room.old room.new count.new result }
    ensures inside { result ≡ Status.Done → count.new ≤ length room.old }
{
    *count = 0;
    match LiveImage::over(words, blocked) {
        None => Status::WrongBits,
        Some(live) => path_on(&live, start, goal, room, count),
    }
}

/// The same over a live map.
fn path_on(live: &LiveImage, start: Cell, goal: Cell, room: &mut [u8], count: &mut u32) -> Status
    ensures told { SaysLivePath live.now start goal room.old room.new count.new result }
    ensures inside { result ≡ Status.Done → count.new ≤ length room.old }
{
    *count = 0;
    match live.path_into(start, goal, room) {
        Ok(LivePath::Free { length }) if length as usize <= room.len() => {
            *count = length;
            Status::Done
        }
        Ok(LivePath::Free { .. }) => Status::Broken,
        Ok(LivePath::Stale { length }) => {
            *count = length;
            Status::Stale
        }
        Ok(LivePath::Unreachable) => Status::Unreachable,
        Err(LiveFault::TooSmall { needed }) => {
            *count = needed;
            Status::TooSmall
        }
        Err(LiveFault::Broken) => Status::Broken,
        Err(LiveFault::Refused(why)) => Status::of_refusal(why),
    }
}

/// A search that begins or goes on, as a status.
fn search_over(
    words: &[u32],
    blocked: &[u32],
    turn: Turn,
    scratch: &mut [u32],
    room: &mut [u8],
    count: &mut u32,
) -> Status
    requires inside { LeadsInside words.now }
    requires waits { turn.anew ≡ false → IsWaiting (living words.now blocked.now)
        (start_of turn.sought) (goal_of turn.sought) scratch.old }
    ensures told { SaysSearched (living words.now blocked.now) turn.sought
        scratch.old scratch.new room.old room.new count.new result }
    ensures inside { result ≡ Status.Done → count.new ≤ length room.old }
{
    *count = 0;
    match LiveImage::over(words, blocked) {
        None => Status::WrongBits,
        Some(live) => search_on(&live, turn, scratch, room, count),
    }
}

/// The same over a live map.
fn search_on(
    live: &LiveImage,
    turn: Turn,
    scratch: &mut [u32],
    room: &mut [u8],
    count: &mut u32,
) -> Status
    requires { turn.anew ≡ false
        → IsWaiting live.now (start_of turn.sought) (goal_of turn.sought) scratch.old }
    ensures told { SaysSearched live.now turn.sought
        scratch.old scratch.new room.old room.new count.new result }
    ensures inside { result ≡ Status.Done → count.new ≤ length room.old }
{
    *count = 0;
    match run(live, turn, scratch, room) {
        Ok(LiveSearch::Found { length }) if length as usize <= room.len() => {
            *count = length;
            Status::Done
        }
        Ok(LiveSearch::Found { .. }) => Status::Broken,
        Ok(LiveSearch::Unreachable) => Status::Unreachable,
        Ok(LiveSearch::More) => Status::More,
        Err(SearchFault::TooSmall { needed }) => {
            *count = needed;
            Status::TooSmall
        }
        Err(SearchFault::FewWords) => Status::FewWords,
        Err(SearchFault::Broken) => Status::Broken,
        Err(SearchFault::Refused(why)) => Status::of_refusal(why),
    }
}

/// Begins a search or goes on with it.
fn run(
    live: &LiveImage,
    turn: Turn,
    scratch: &mut [u32],
    room: &mut [u8],
) -> Result<LiveSearch, SearchFault>
    requires { turn.anew ≡ false
        → IsWaiting live.now (start_of turn.sought) (goal_of turn.sought) scratch.old }
    ensures ends { OnOk result
        (AreLiveEndsIn live.now (start_of turn.sought) (goal_of turn.sought)) }
    ensures found { IfOk result
        (IsSearchedIn live.now (start_of turn.sought) (goal_of turn.sought) room.old room.new) }
    ensures waits { result ≡ Ok LiveSearch.More
        → IsWaiting live.now (start_of turn.sought) (goal_of turn.sought) scratch.new }
    ensures fault { IfErr result (IsSearchFaultIn live.now
        (start_of turn.sought) (goal_of turn.sought) scratch.old room.old room.new) }
{
    let (start, goal) = (turn.sought.start.cell(), turn.sought.goal.cell());
    if turn.anew {
        return search(live, start, goal, turn.sought.limit, scratch, room);
    }
    go_on(live, start, goal, turn.sought.limit, scratch, room)
}
