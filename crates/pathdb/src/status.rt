//! How calls end.

ghost use Rattle.std.specs.Prelude.{◌≡◌, ◌<◌, ◌≤◌, Some, MatchOption, length};
ghost use Rattle.pathdb.specs.declared.TheConstants.{LAST_STATUS, TEXT_ROOM};
ghost use Rattle.pathdb.specs.Statuses.{IsNoNumber, fault_of, refusal_of, status_number, status_text};

use path_image::ImageFault;
use versions::{End, QueryRefusal};

/// How a call ended.
#[derive(Clone, Copy, Debug, PartialEq, Eq)]
pub enum Status {
    /// The work was done.
    Done,
    /// The cell is the goal: no move is left.
    Arrived,
    /// No path exists.
    Unreachable,
    /// The start, or where the path stands, lies outside the map.
    OutsideStart,
    /// The start, or where the path stands, is blocked.
    BlockedStart,
    /// The goal lies outside the map.
    OutsideGoal,
    /// The goal is blocked.
    BlockedGoal,
    /// The room has too few places.
    TooSmall,
    /// The words are no version's image: the moves that they keep do not lead to the goal.
    Broken,
    /// The words are too few for an image, or do not begin as one does.
    NoImage,
    /// The image is of another form.
    OtherForm,
    /// There are more words or fewer than the image says.
    WrongLength,
    /// A side in the image is 0 or too long, or there are too many cells.
    WrongSides,
    /// The image has too few words for its cells and for where its tables begin.
    WrongLists,
    /// The table of a component is none.
    WrongTable,
    /// The word of a cell leads to no place of a component.
    WrongHome,
    /// No order has that number.
    NoOrder,
    /// The text of a map has more bytes than it may have.
    TextTooLong,
    /// A line of a map's header has another form, or is not there.
    BadHeader,
    /// A side of a map is not from 1 to 4,096, or there are more than 1,048,576 cells.
    BadSize,
    /// A row of a map has another number of cells than the map is wide.
    BadRow,
    /// A byte stands for no cell.
    BadByte,
    /// The text ends before the map's last row.
    MissingRows,
    /// A line after the map's rows is not blank.
    ExtraLine,
    /// There are more than 32,768 passable cells.
    TooManyCells,
    /// There are more cells or fewer than the sides say.
    WrongCount,
    /// Memory ran out.
    NoMemory,
    /// The map has no such sources.
    NoSources,
    /// A part is not the one that is next, or ends too early.
    BrokenPart,
    /// The path that the image tells is not free now.
    Stale,
    /// The search has taken as many cells as it may, and waits.
    More,
    /// There is not a bit for each cell of the map, or there are more words of bits.
    WrongBits,
    /// The search wants a scratch of more words.
    FewWords,
}

impl Status {
    /// The number of the status for C.
    pub fn number(self) -> u32
        ensures number { result ≡ status_number self }
        ensures limit { result ≤ LAST_STATUS }
    {
        match self {
            Status::Done => 0,
            Status::Arrived => 1,
            Status::Unreachable => 2,
            Status::OutsideStart => 3,
            Status::BlockedStart => 4,
            Status::OutsideGoal => 5,
            Status::BlockedGoal => 6,
            Status::TooSmall => 7,
            Status::Broken => 8,
            Status::NoImage => 9,
            Status::OtherForm => 10,
            Status::WrongLength => 11,
            Status::WrongSides => 12,
            Status::WrongLists => 13,
            Status::WrongTable => 14,
            Status::WrongHome => 15,
            Status::NoOrder => 16,
            Status::TextTooLong => 17,
            Status::BadHeader => 18,
            Status::BadSize => 19,
            Status::BadRow => 20,
            Status::BadByte => 21,
            Status::MissingRows => 22,
            Status::ExtraLine => 23,
            Status::TooManyCells => 24,
            Status::WrongCount => 25,
            Status::NoMemory => 26,
            Status::NoSources => 27,
            Status::BrokenPart => 28,
            Status::Stale => 41,
            Status::More => 42,
            Status::WrongBits => 43,
            Status::FewWords => 44,
        }
    }

    /// The status with that number; `None` exactly where no status has it.
    pub fn of(number: u32) -> Option<Status>
        ensures { MatchOption result (IsNoNumber number) (λ status. status_number status ≡ number) }
    {
        match number {
            0 => Some(Status::Done),
            1 => Some(Status::Arrived),
            2 => Some(Status::Unreachable),
            3 => Some(Status::OutsideStart),
            4 => Some(Status::BlockedStart),
            5 => Some(Status::OutsideGoal),
            6 => Some(Status::BlockedGoal),
            7 => Some(Status::TooSmall),
            8 => Some(Status::Broken),
            9 => Some(Status::NoImage),
            10 => Some(Status::OtherForm),
            11 => Some(Status::WrongLength),
            12 => Some(Status::WrongSides),
            13 => Some(Status::WrongLists),
            14 => Some(Status::WrongTable),
            15 => Some(Status::WrongHome),
            16 => Some(Status::NoOrder),
            17 => Some(Status::TextTooLong),
            18 => Some(Status::BadHeader),
            19 => Some(Status::BadSize),
            20 => Some(Status::BadRow),
            21 => Some(Status::BadByte),
            22 => Some(Status::MissingRows),
            23 => Some(Status::ExtraLine),
            24 => Some(Status::TooManyCells),
            25 => Some(Status::WrongCount),
            26 => Some(Status::NoMemory),
            27 => Some(Status::NoSources),
            28 => Some(Status::BrokenPart),
            41 => Some(Status::Stale),
            42 => Some(Status::More),
            43 => Some(Status::WrongBits),
            44 => Some(Status::FewWords),
            _ => None,
        }
    }

    /// The status in words of ASCII, fewer than 64.
    pub fn text(self) -> &'static str
        ensures text { result.now ≡ status_text self }
        ensures short { length result.now < TEXT_ROOM }
    {
        match self {
            Status::Done => "done",
            Status::Arrived => "arrived",
            Status::Unreachable => "unreachable",
            Status::OutsideStart => "outside start",
            Status::BlockedStart => "blocked start",
            Status::OutsideGoal => "outside goal",
            Status::BlockedGoal => "blocked goal",
            Status::TooSmall => "room for too few",
            Status::Broken => "broken image",
            Status::NoImage => "no image",
            Status::OtherForm => "an image of another form",
            Status::WrongLength => "more words or fewer than the image says",
            Status::WrongSides => "sides that no map has",
            Status::WrongLists => "too few words for the cells",
            Status::WrongTable => "wrong table of a component",
            Status::WrongHome => "wrong word of a cell",
            Status::NoOrder => "no order has this number",
            Status::TextTooLong => "map text too long",
            Status::BadHeader => "wrong line of a map's header",
            Status::BadSize => "sides that no map may have",
            Status::BadRow => "row of another length",
            Status::BadByte => "byte that stands for no cell",
            Status::MissingRows => "too few rows",
            Status::ExtraLine => "line behind the rows",
            Status::TooManyCells => "too many passable cells",
            Status::WrongCount => "more cells or fewer than the sides say",
            Status::NoMemory => "out of memory",
            Status::NoSources => "no such sources",
            Status::BrokenPart => "broken part",
            Status::Stale => "the told path is not free",
            Status::More => "the search goes on",
            Status::WrongBits => "not a bit for each cell",
            Status::FewWords => "too few words for a search",
        }
    }

    /// The status of a query that is refused.
    pub(crate) fn of_refusal(why: QueryRefusal) -> Status
        ensures { refusal_of result ≡ Some why }
    {
        match why {
            QueryRefusal::Outside { which: End::Start } => Status::OutsideStart,
            QueryRefusal::Blocked { which: End::Start } => Status::BlockedStart,
            QueryRefusal::Outside { which: End::Goal } => Status::OutsideGoal,
            QueryRefusal::Blocked { which: End::Goal } => Status::BlockedGoal,
        }
    }

    /// The status of words that are no image, and the number of the part that is wrong.
    pub(crate) fn of_fault(fault: ImageFault) -> (Status, u32)
        ensures { fault_of result.0 result.1 ≡ Some fault }
    {
        match fault {
            ImageFault::Magic => (Status::NoImage, 0),
            ImageFault::Form => (Status::OtherForm, 0),
            ImageFault::Length => (Status::WrongLength, 0),
            ImageFault::Sides => (Status::WrongSides, 0),
            ImageFault::Lists => (Status::WrongLists, 0),
            ImageFault::Table { component } => (Status::WrongTable, component),
            ImageFault::Home { place } => (Status::WrongHome, place),
        }
    }
}
