//! The requests that the words of `ask` can spell.

ghost use Rattle.std.specs.Prelude.{◌≡◌, ◌∷◌, [], Bool, Option, None, Some, MatchOption, map, option_map};
ghost use Rattle.path_commands.specs.SaidRequests.{change_said, first_cell, first_coordinate, first_passable, named_said, query_said};
ghost use Rattle.path_commands.specs.SaidRequests.{request_said, said_by, said_of, spelled};

use crate::words::coordinate;
use edit_log::{CellChange, Edit};
use moves::{Cell, Terrain};
use query_proto::Request;

/// A request of the first protocol, which words can spell.
#[derive(Clone, Copy, Debug, PartialEq, Eq)]
pub enum Asking {
    /// A shortest path between two cells.
    Query {
        /// The cell that the path begins with.
        start: Cell,
        /// The cell that the path ends with.
        goal: Cell,
    },
    /// A change of one cell.
    Change(CellChange),
    /// The building and publication of a version after all accepted edits.
    Build,
    /// The state of the board.
    Status,
    /// The end of the session.
    Bye,
    /// The end of the server.
    Stop,
}

impl Asking {
    /// Returns the request that asks for it.
    pub fn request(self) -> Request
        ensures { said_of result ≡ said_by self }
    {
        match self {
            Asking::Query { start, goal } => Request::Query { start, goal },
            Asking::Change(change) => Request::Change(Edit::one(change)),
            Asking::Build => Request::Build,
            Asking::Status => Request::Status,
            Asking::Bye => Request::Bye,
            Asking::Stop => Request::Stop,
        }
    }
}

/// Returns the request that the words spell; `None` exactly if they spell none.
#[tactic(auto, unfolding(crate::specs::SaidRequests::request_said))]
pub fn asking_in(words: &[&str]) -> Option<Asking>
    ensures { option_map said_by result ≡ request_said (spelled words.now) }
{
    let (name, words) = cut_word(words)?;
    asking_named(name, words)
}

/// Returns the request of this name, with the words after it.
fn asking_named(name: &str, words: &[&str]) -> Option<Asking>
    ensures { option_map said_by result ≡ named_said name.now (spelled words.now) }
{
    if name == "query" {
        return query_in(words);
    }
    if name == "change" {
        return change_in(words);
    }
    if !words.is_empty() {
        return None;
    }
    if name == "build" {
        return Some(Asking::Build);
    }
    if name == "status" {
        return Some(Asking::Status);
    }
    if name == "bye" {
        return Some(Asking::Bye);
    }
    if name == "stop" {
        return Some(Asking::Stop);
    }
    None
}

/// Returns the query that the words after `query` spell.
#[tactic(auto, unfolding(crate::specs::SaidRequests::query_said))]
fn query_in(words: &[&str]) -> Option<Asking>
    ensures { option_map said_by result ≡ query_said (spelled words.now) }
{
    let (start, words) = first_cell(words)?;
    let (goal, words) = first_cell(words)?;
    if !words.is_empty() {
        return None;
    }
    Some(Asking::Query { start, goal })
}

/// Returns the change that the words after `change` spell.
#[tactic(auto, unfolding(crate::specs::SaidRequests::change_said))]
fn change_in(words: &[&str]) -> Option<Asking>
    ensures { option_map said_by result ≡ change_said (spelled words.now) }
{
    let (cell, words) = first_cell(words)?;
    let (passable, words) = first_passable(words)?;
    if !words.is_empty() {
        return None;
    }
    let terrain = Terrain::land_if(passable);
    Some(Asking::Change(CellChange { cell, terrain }))
}

/// Returns the cell in the first two words, its column before its row, and the words after it.
#[tactic(auto, unfolding(crate::specs::SaidRequests::first_cell))]
fn first_cell<'w, 'a>(words: &'w [&'a str]) -> Option<(Cell, &'w [&'a str])>
    ensures { MatchOption result (first_cell (spelled words.now) ≡ None)
        (λ first. first_cell (spelled words.now) ≡ Some (first.0, spelled first.1.now)) }
{
    let (x, words) = first_coordinate(words)?;
    let (y, words) = first_coordinate(words)?;
    Some((Cell { x, y }, words))
}

/// Returns the column or the row in the first word, and the words after it.
fn first_coordinate<'w, 'a>(words: &'w [&'a str]) -> Option<(u16, &'w [&'a str])>
    ensures { MatchOption result (first_coordinate (spelled words.now) ≡ None)
        (λ first. first_coordinate (spelled words.now) ≡ Some (first.0, spelled first.1.now)) }
{
    let (word, words) = cut_word(words)?;
    let number = coordinate(word)?;
    Some((number, words))
}

/// Returns whether a cell is land, in the first word, and the words after it.
fn first_passable<'w, 'a>(words: &'w [&'a str]) -> Option<(bool, &'w [&'a str])>
    ensures { MatchOption result (first_passable (spelled words.now) ≡ None)
        (λ first. first_passable (spelled words.now) ≡ Some (first.0, spelled first.1.now)) }
{
    let (word, words) = cut_word(words)?;
    if word == "0" {
        return Some((false, words));
    }
    if word == "1" {
        return Some((true, words));
    }
    None
}

/// Returns the first word, and the words after it.
fn cut_word<'w, 'a>(words: &'w [&'a str]) -> Option<(&'a str, &'w [&'a str])>
    ensures { MatchOption result (spelled words.now ≡ [])
        (λ cut. spelled words.now ≡ cut.0.now ∷ spelled cut.1.now) }
{
    match words {
        [] => None,
        [first, rest @ ..] => Some((first, rest)),
    }
}
