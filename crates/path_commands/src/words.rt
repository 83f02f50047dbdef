//! The values that a word of a command may be.
ghost use Rattle.std.specs.Prelude.{◌≡◌, ◌<◌, ◌^◌, IfSome, option_map};
ghost use Rattle.std.specs.Char.{is_ascii_digit};
ghost use Rattle.std.specs.List.{list_all};
ghost use Rattle.path_commands.specs.Words.{AreWorkers, IsOfKind, coordinate_in, is_number, least};
ghost use Rattle.path_commands.specs.Words.{most, number_as, number_in, order_in, path_in, workers_in};

use build_pool::MAX_WORKERS;
use cell_order::OrderKind;
use moves::MAX_SIDE;
use path_core::MAX_ENTRIES;
use session::MAX_DOORS;

/// How many entries a board reserves memory for by default.
pub const STANDARD_ROOM: u32 = 65_536;

/// The most asks of a follower: as many as one feed answers.
pub const MAX_ROUNDS: u32 = 1_048_576;

/// What a number of a command means, which also sets its range.
#[derive(Clone, Copy, Debug, PartialEq, Eq)]
pub enum NumberKind {
    /// A column or a row.
    Coordinate,
    /// A side of a map.
    Side,
    /// What a map is made from, other than its sides.
    Seed,
    /// How many threads build.
    Workers,
    /// How many entries a board reserves memory for at the start.
    Room,
    /// A port of this machine.
    Port,
    /// How many doors a port has.
    Doors,
    /// How often a follower asks.
    Rounds,
}

impl NumberKind {
    /// Returns the least number of this kind.
    pub fn least(self) -> u32
        ensures { result ≡ least self }
    {
        match self {
            NumberKind::Coordinate | NumberKind::Seed | NumberKind::Room | NumberKind::Rounds => 0,
            NumberKind::Side | NumberKind::Workers => 1,
            NumberKind::Port | NumberKind::Doors => 1,
        }
    }

    /// Returns the greatest number of this kind.
    pub fn most(self) -> u32
        ensures { result ≡ most self }
    {
        match self {
            NumberKind::Coordinate | NumberKind::Port => 65_535,
            NumberKind::Side => MAX_SIDE,
            NumberKind::Seed => 4_294_967_295,
            NumberKind::Workers => MAX_WORKERS,
            NumberKind::Room => MAX_ENTRIES,
            NumberKind::Doors => MAX_DOORS,
            NumberKind::Rounds => MAX_ROUNDS,
        }
    }

    /// Returns the number of this kind that the text spells; `None` exactly if it spells none.
    #[tactic(auto, unfolding(crate::specs::Words::number_as))]
    pub fn read(self, text: &str) -> Option<u32>
        ensures number { result ≡ number_as self text.now }
        ensures range { IfSome result (IsOfKind self) }
    {
        let number = number(text)?;
        if number < u64::from(self.least()) || number > u64::from(self.most()) {
            return None;
        }
        Some(number as u32)
    }
}

/// Returns whether the text is one to ten decimal digits and nothing else.
fn is_number(text: &str) -> bool
    ensures { result ≡ is_number text.now }
{
    !text.is_empty() && text.len() <= 10 && are_digits(text)
}

/// Returns whether each byte is a decimal digit.
fn are_digits(text: &str) -> bool
    ensures { result ≡ list_all is_ascii_digit text.now }
{
    text.bytes().all(|byte| byte.is_ascii_digit())
}

/// Returns the number that one to ten decimal digits spell, with leading zeros allowed; `None`
/// exactly if the text is anything else.
pub fn number(text: &str) -> Option<u64>
    ensures { result ≡ number_in text.now }
{
    if is_number(text) {
        text.parse().ok()
    } else {
        None
    }
}

/// Returns the column or row that the text spells, from 0 to 65,535; `None` exactly if it is not a
/// number in that range.
pub fn coordinate(text: &str) -> Option<u16>
    ensures { result ≡ coordinate_in text.now }
{
    Some(NumberKind::Coordinate.read(text)? as u16)
}

/// Returns the number of threads that the text spells, from 1 to 64; `None` exactly if it is not a
/// number in that range.
pub fn workers(text: &str) -> Option<u32>
    ensures number { result ≡ workers_in text.now }
    ensures range { IfSome result AreWorkers }
{
    NumberKind::Workers.read(text)
}

/// Returns the order that the text names; `None` exactly if it is neither `rows` nor `dfs`.
pub fn order(text: &str) -> Option<OrderKind>
    ensures { result ≡ order_in text.now }
{
    if text == "rows" {
        Some(OrderKind::Rows)
    } else if text == "dfs" {
        Some(OrderKind::Dfs)
    } else {
        None
    }
}

/// Returns the name of a file: any text that is not empty.
pub fn file_name(text: &str) -> Option<&str>
    ensures { option_map (λ name. name.now) result ≡ path_in text.now }
{
    if text.is_empty() { None } else { Some(text) }
}
