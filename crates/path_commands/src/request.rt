//! The request that the words of a command line spell.
ghost use Rattle.std.specs.Prelude.{◌≡◌, ◌≢◌, ◌≤◌, IfErr, IfOk, IfSome, None, Some, false, option_map};
ghost use Rattle.clap.specs.Words.{first_value, found_of, kind_of};
ghost use Rattle.path_commands.specs.declared.request.RequestError.TheVariants.{NoMemory, Usage};
ghost use Rattle.clap.specs.declared.error.kind.ErrorKind.TheVariants.{OutOfMemory};
ghost use Rattle.path_commands.specs.Commands.{app_for, kind_named, verb_of};
ghost use Rattle.path_commands.specs.Words.{AreWorkers, HasValues, is_taken, texts_of};
ghost use Rattle.moves.specs.Maps.{IsWithinLimits};
ghost use Rattle.path_core.specs.declared.TheConstants.{MAX_ENTRIES};
ghost use Rattle.path_commands.specs.declared.commands.Verb.{Verb};
ghost use Rattle.path_commands.specs.Words.{IsOfKind, every_value};
ghost use Rattle.path_commands.specs.SaidRequests.{said_by};
ghost use Rattle.path_commands.specs.declared.words.NumberKind.{NumberKind};
ghost use Rattle.path_commands.specs.Requests.{AreDoors, HasLimits, IsRefusalOf, asked, asked_by, kind_asked, verb_asked};
ghost use Rattle.path_commands.specs.Requests.{ask_by, check_by, export_by, follow_by, lead_by, made_by, near_by};
ghost use Rattle.path_commands.specs.Requests.{nearpath_by, path_by, replay_by, scen_by, serve_by, talk_by, verify_by};
ghost use Rattle.path_commands.specs.Requests.{build_at, cell_at, coordinate_at, doors_at, feed_at, number_at, order_at};
ghost use Rattle.path_commands.specs.Requests.{path_at, request_by, request_of, room_at, said_at, sides_at, workers_at};

use crate::asked::{Asking, asking_in};
use crate::commands::{Kind, Verb, command};
use crate::words::{NumberKind, STANDARD_ROOM, coordinate, file_name, order, workers};
use cell_order::OrderKind;
use clap::error::ErrorKind;
use clap::{ArgMatches, Error};
use moves::{Cell, MAX_CELLS};
use std::alloc::{AllocError, Global};
use wire::DoorsAsked;

/// The request that the words of a command line spell.
#[derive(Clone, Copy, Debug, PartialEq, Eq)]
pub enum Request<'a> {
    /// What the first version of a map answers.
    OfMap(MapAsked<'a>),
    /// A session on a board that begins with a map.
    Talk(TalkAsked<'a>),
    /// Sessions at the doors of a port, on such a board.
    Serve(ServeAsked<'a>),
    /// One request to the server at a port.
    Ask(AskAsked),
    /// Whether the file of this name, which is not empty, is that of a database.
    Verify(&'a str),
    /// Sessions at the doors of a port, and a door at another one where followers are fed.
    Lead(LeadAsked<'a>),
    /// A session on a board that follows the leader at a port.
    Follow(FollowAsked),
}

/// What is asked of the first version of a map.
#[derive(Clone, Copy, Debug, PartialEq, Eq)]
pub struct MapAsked<'a> {
    /// Where the map comes from.
    pub source: MapSource<'a>,
    /// What the version is to answer.
    pub aim: MapAim<'a>,
    /// How the version is built.
    pub build: BuildOptions,
}

/// Where a map comes from.
#[derive(Clone, Copy, Debug, PartialEq, Eq)]
pub enum MapSource<'a> {
    /// The file of this name, which is not empty.
    File(&'a str),
    /// The formula that makes a map of two sides and a seed.
    Formula {
        /// The sides of the map.
        sides: Sides,
        /// The seed.
        seed: u32,
    },
}

/// What the first version of a map is to answer.
#[derive(Clone, Copy, Debug, PartialEq, Eq)]
pub enum MapAim<'a> {
    /// A shortest path between two cells.
    Path {
        /// The cell that the path begins with.
        start: Cell,
        /// The cell that the path ends with.
        goal: Cell,
    },
    /// The size.
    Check,
    /// How many runs are left once compass moves need none.
    Near,
    /// A shortest path between two cells, by compass moves wherever they are right.
    NearPath {
        /// The cell that the path begins with.
        start: Cell,
        /// The cell that the path ends with.
        goal: Cell,
    },
    /// The scenarios in the file of this name, which is not empty.
    Scen(&'a str),
    /// The queries of this seed, from which the map was made.
    Made(u32),
    /// The events in the file of this name, which is not empty, on a board that begins with the version.
    Replay(&'a str),
    /// The file of its database.
    Export,
}

/// A session on a board that begins with a map.
#[derive(Clone, Copy, Debug, PartialEq, Eq)]
pub struct TalkAsked<'a> {
    /// The name of the map's file, which is not empty.
    pub map: &'a str,
    /// How many entries the board reserves memory for at the start, at most [`MAX_ENTRIES`](path_core::MAX_ENTRIES).
    pub room: u32,
    /// How the versions are built.
    pub build: BuildOptions,
}

/// Sessions at the doors of a port, on a board that begins with a map.
#[derive(Clone, Copy, Debug, PartialEq, Eq)]
pub struct ServeAsked<'a> {
    /// The name of the map's file, which is not empty.
    pub map: &'a str,
    /// The port, from 1, and its number of doors, from 1 to [`MAX_DOORS`](session::MAX_DOORS).
    pub doors: DoorsAsked,
    /// How many entries the board reserves memory for at the start, at most [`MAX_ENTRIES`](path_core::MAX_ENTRIES).
    pub room: u32,
    /// How the versions are built.
    pub build: BuildOptions,
}

/// One request to the server at a port.
#[derive(Clone, Copy, Debug, PartialEq, Eq)]
pub struct AskAsked {
    /// The port, from 1.
    pub port: u16,
    /// What is asked for.
    pub asking: Asking,
}

/// Sessions at the doors of a port, and a door at another one where followers are fed.
#[derive(Clone, Copy, Debug, PartialEq, Eq)]
pub struct LeadAsked<'a> {
    /// The name of the map's file, which is not empty.
    pub map: &'a str,
    /// The port, from 1, and its number of doors, from 1 to [`MAX_DOORS`](session::MAX_DOORS).
    pub doors: DoorsAsked,
    /// The port at which followers are fed, from 1; not the port of the doors.
    pub feed: u16,
    /// How many entries the board reserves memory for at the start, at most [`MAX_ENTRIES`](path_core::MAX_ENTRIES).
    pub room: u32,
    /// How the versions are built.
    pub build: BuildOptions,
}

/// A session on a board that follows the leader at a port.
#[derive(Clone, Copy, Debug, PartialEq, Eq)]
pub struct FollowAsked {
    /// The port, from 1.
    pub port: u16,
    /// How often the leader is asked for edits, at most [`MAX_ROUNDS`](crate::words::MAX_ROUNDS).
    pub rounds: u32,
    /// The order of the cells in the databases of the board.
    pub order: OrderKind,
}

/// The sides of a map: each from 1 to [`MAX_SIDE`](moves::MAX_SIDE), with at most [`MAX_CELLS`]
/// cells between them.
#[derive(Clone, Copy, Debug, PartialEq, Eq)]
pub struct Sides {
    /// The number of columns.
    pub width: u32,
    /// The number of rows.
    pub height: u32,
}

/// How a database is built.
#[derive(Clone, Copy, Debug, PartialEq, Eq)]
pub struct BuildOptions {
    /// The order of the cells of a component; row by row by default.
    pub order: OrderKind,
    /// How many threads build, from 1 to 64; one by default.
    pub workers: u32,
}

/// Why the words of a command line are refused.
#[derive(Clone, Copy, Debug, PartialEq, Eq)]
pub enum RequestError {
    /// No command takes the words.
    Usage,
    /// Memory ran out before the words were read.
    NoMemory,
}

impl From<AllocError> for RequestError {
    ghost from_gives = { λ _ error. error ≡ NoMemory };

    fn from(_error: AllocError) -> RequestError {
        RequestError::NoMemory
    }
}

impl From<Error> for RequestError {
    ghost from_gives = { λ error refusal. refusal ≡ Usage → kind_of error ≢ OutOfMemory };

    fn from(error: Error) -> RequestError {
        match error.kind() {
            ErrorKind::OutOfMemory => RequestError::NoMemory,
            _ => RequestError::Usage,
        }
    }
}

/// Why words are refused, and the kind of command they name.
#[derive(Clone, Copy, Debug, PartialEq, Eq)]
pub struct Refusal {
    /// The kind of the command that the first word names; `Printed` if it names none.
    pub kind: Kind,
    /// Why they are refused.
    pub error: RequestError,
}

/// Reads the words after the program's own name, of which the first names the command.
///
/// # Errors
///
/// - `Usage` only if no command takes the words.
/// - `NoMemory` if memory ran out.
#[tactic(auto, unfolding(crate::specs::Requests::request_of))]
pub fn read_request<'a>(alloc: Global, words: &'a [String]) -> Result<Request<'a>, Refusal>
    ensures request { IfOk result (λ request.
        request_of (texts_of words.entry.now) ≡ Some (asked request)) }
    ensures verb { IfOk result (λ request.
        verb_of (texts_of words.entry.now) ≡ Some (verb_asked (asked request))) }
    ensures kind { IfOk result (λ request.
        kind_named (texts_of words.entry.now) ≡ kind_asked (asked request)) }
    ensures limits { IfOk result (λ request. HasLimits (asked request)) }
    ensures refused { IfErr result (IsRefusalOf (texts_of words.entry.now)) }
{
    let Some(verb) = first_verb(words) else {
        return Err(Refusal {
            kind: Kind::Printed,
            error: RequestError::Usage,
        });
    };
    match read_as(alloc, verb, words) {
        Ok(request) => Ok(request),
        Err(error) => Err(Refusal {
            kind: verb.kind(),
            error,
        }),
    }
}

/// Returns the command that the first word names.
pub fn first_verb(words: &[String]) -> Option<Verb>
    ensures { result ≡ verb_of (texts_of words.now) }
{
    let name = words.first()?;
    Verb::named(name.as_str())
}

/// Reads the words of this command.
fn read_as<'a>(alloc: Global, verb: Verb, words: &'a [String]) -> Result<Request<'a>, RequestError>
    ensures request { IfOk result (λ request.
        request_by verb (texts_of words.entry.now) ≡ Some (asked request)) }
    ensures usage { result ≡ Err RequestError.Usage
        → request_by verb (texts_of words.entry.now) ≡ None }
    ensures verb { IfOk result (λ request. verb_asked (asked request) ≡ verb) }
    ensures limits { IfOk result (λ request. HasLimits (asked request)) }
{
    let matches = parse(alloc, verb, words)?;
    asked_of(verb, &matches).ok_or(RequestError::Usage)
}

/// Reads the words as this command takes them. The first word takes the place of the program's name.
fn parse<'a>(alloc: Global, verb: Verb, words: &'a [String]) -> Result<ArgMatches<'a>, RequestError>
    ensures values { IfOk result (HasValues (app_for verb) (texts_of words.entry.now)) }
    ensures usage { result ≡ Err RequestError.Usage
        → is_taken (app_for verb) (texts_of words.entry.now) ≡ false }
{
    let command = command(alloc, verb)?;
    Ok(command.try_get_matches_from(words)?)
}

/// Returns the request that the command makes of its values, if each is valid.
fn asked_of<'a>(verb: Verb, matches: &ArgMatches<'a>) -> Option<Request<'a>>
    ensures asked { option_map asked result
        ≡ asked_by verb (first_value (found_of matches.now)) (every_value (found_of matches.now)) }
    ensures verb { IfSome result (λ request. verb_asked (asked request) ≡ verb) }
    ensures limits { IfSome result (λ request. HasLimits (asked request)) }
{
    match verb {
        Verb::Path => path_asked(matches),
        Verb::Check => check_asked(matches),
        Verb::Near => near_asked(matches),
        Verb::NearPath => nearpath_asked(matches),
        Verb::Scen => scen_asked(matches),
        Verb::Made => made_asked(matches),
        Verb::Replay => replay_asked(matches),
        Verb::Talk => talk_asked(matches),
        Verb::Serve => serve_asked(matches),
        Verb::Ask => ask_asked(matches),
        Verb::Export => export_asked(matches),
        Verb::Verify => verify_asked(matches),
        Verb::Lead => lead_asked(matches),
        Verb::Follow => follow_asked(matches),
    }
}

/// Returns what `path` asks for.
#[tactic(auto, unfolding(crate::specs::Requests::path_by))]
fn path_asked<'a>(matches: &ArgMatches<'a>) -> Option<Request<'a>>
    ensures asked { option_map asked result ≡ path_by (first_value (found_of matches.now)) }
    ensures verb { IfSome result (λ request. verb_asked (asked request) ≡ Verb.Path) }
    ensures limits { IfSome result (λ request. HasLimits (asked request)) }
{
    let map = file_at(matches, "MAP")?;
    let start = cell_at(matches, "SX", "SY")?;
    let goal = cell_at(matches, "GX", "GY")?;
    let build = build_at(matches)?;
    Some(Request::OfMap(MapAsked {
        source: MapSource::File(map),
        aim: MapAim::Path { start, goal },
        build,
    }))
}

/// Returns what `check` asks for.
#[tactic(auto, unfolding(crate::specs::Requests::check_by))]
fn check_asked<'a>(matches: &ArgMatches<'a>) -> Option<Request<'a>>
    ensures asked { option_map asked result ≡ check_by (first_value (found_of matches.now)) }
    ensures verb { IfSome result (λ request. verb_asked (asked request) ≡ Verb.Check) }
    ensures limits { IfSome result (λ request. HasLimits (asked request)) }
{
    let map = file_at(matches, "MAP")?;
    let build = build_at(matches)?;
    Some(Request::OfMap(MapAsked {
        source: MapSource::File(map),
        aim: MapAim::Check,
        build,
    }))
}

/// Returns what `near` asks for.
#[tactic(auto, unfolding(crate::specs::Requests::near_by))]
fn near_asked<'a>(matches: &ArgMatches<'a>) -> Option<Request<'a>>
    ensures asked { option_map asked result ≡ near_by (first_value (found_of matches.now)) }
    ensures verb { IfSome result (λ request. verb_asked (asked request) ≡ Verb.Near) }
    ensures limits { IfSome result (λ request. HasLimits (asked request)) }
{
    let map = file_at(matches, "MAP")?;
    let build = build_at(matches)?;
    Some(Request::OfMap(MapAsked {
        source: MapSource::File(map),
        aim: MapAim::Near,
        build,
    }))
}

/// Returns what `nearpath` asks for.
#[tactic(auto, unfolding(crate::specs::Requests::nearpath_by))]
fn nearpath_asked<'a>(matches: &ArgMatches<'a>) -> Option<Request<'a>>
    ensures asked { option_map asked result ≡ nearpath_by (first_value (found_of matches.now)) }
    ensures verb { IfSome result (λ request. verb_asked (asked request) ≡ Verb.NearPath) }
    ensures limits { IfSome result (λ request. HasLimits (asked request)) }
{
    let map = file_at(matches, "MAP")?;
    let start = cell_at(matches, "SX", "SY")?;
    let goal = cell_at(matches, "GX", "GY")?;
    let build = build_at(matches)?;
    Some(Request::OfMap(MapAsked {
        source: MapSource::File(map),
        aim: MapAim::NearPath { start, goal },
        build,
    }))
}

/// Returns what `scen` asks for.
#[tactic(auto, unfolding(crate::specs::Requests::scen_by))]
fn scen_asked<'a>(matches: &ArgMatches<'a>) -> Option<Request<'a>>
    ensures asked { option_map asked result ≡ scen_by (first_value (found_of matches.now)) }
    ensures verb { IfSome result (λ request. verb_asked (asked request) ≡ Verb.Scen) }
    ensures limits { IfSome result (λ request. HasLimits (asked request)) }
{
    let map = file_at(matches, "MAP")?;
    let scenarios = file_at(matches, "SCEN")?;
    let build = build_at(matches)?;
    Some(Request::OfMap(MapAsked {
        source: MapSource::File(map),
        aim: MapAim::Scen(scenarios),
        build,
    }))
}

/// Returns what `made` asks for.
#[tactic(auto, unfolding(crate::specs::Requests::made_by))]
fn made_asked<'a>(matches: &ArgMatches<'a>) -> Option<Request<'a>>
    ensures asked { option_map asked result ≡ made_by (first_value (found_of matches.now)) }
    ensures verb { IfSome result (λ request. verb_asked (asked request) ≡ Verb.Made) }
    ensures limits { IfSome result (λ request. HasLimits (asked request)) }
{
    let sides = sides_at(matches, "W", "H")?;
    let seed = number_at(matches, NumberKind::Seed, "SEED")?;
    let build = build_at(matches)?;
    Some(Request::OfMap(MapAsked {
        source: MapSource::Formula { sides, seed },
        aim: MapAim::Made(seed),
        build,
    }))
}

/// Returns what `replay` asks for.
#[tactic(auto, unfolding(crate::specs::Requests::replay_by))]
fn replay_asked<'a>(matches: &ArgMatches<'a>) -> Option<Request<'a>>
    ensures asked { option_map asked result ≡ replay_by (first_value (found_of matches.now)) }
    ensures verb { IfSome result (λ request. verb_asked (asked request) ≡ Verb.Replay) }
    ensures limits { IfSome result (λ request. HasLimits (asked request)) }
{
    let map = file_at(matches, "MAP")?;
    let events = file_at(matches, "EVENTS")?;
    let build = build_at(matches)?;
    Some(Request::OfMap(MapAsked {
        source: MapSource::File(map),
        aim: MapAim::Replay(events),
        build,
    }))
}

/// Returns what `talk` asks for.
#[tactic(auto, unfolding(crate::specs::Requests::talk_by))]
fn talk_asked<'a>(matches: &ArgMatches<'a>) -> Option<Request<'a>>
    ensures asked { option_map asked result ≡ talk_by (first_value (found_of matches.now)) }
    ensures verb { IfSome result (λ request. verb_asked (asked request) ≡ Verb.Talk) }
    ensures limits { IfSome result (λ request. HasLimits (asked request)) }
{
    let map = file_at(matches, "MAP")?;
    let room = room_at(matches, "room")?;
    let build = build_at(matches)?;
    Some(Request::Talk(TalkAsked { map, room, build }))
}

/// Returns what `serve` asks for.
#[tactic(auto, unfolding(crate::specs::Requests::serve_by))]
fn serve_asked<'a>(matches: &ArgMatches<'a>) -> Option<Request<'a>>
    ensures asked { option_map asked result ≡ serve_by (first_value (found_of matches.now)) }
    ensures verb { IfSome result (λ request. verb_asked (asked request) ≡ Verb.Serve) }
    ensures limits { IfSome result (λ request. HasLimits (asked request)) }
{
    let map = file_at(matches, "MAP")?;
    let doors = doors_at(matches, "PORT", "DOORS")?;
    let room = room_at(matches, "room")?;
    let build = build_at(matches)?;
    Some(Request::Serve(ServeAsked {
        map,
        doors,
        room,
        build,
    }))
}

/// Returns the doors: one argument is the port, the other the number of doors.
#[tactic(auto, unfolding(crate::specs::Requests::doors_at))]
fn doors_at(matches: &ArgMatches<'_>, port: &str, count: &str) -> Option<DoorsAsked>
    ensures doors { result ≡ doors_at (first_value (found_of matches.now)) port.now count.now }
    ensures limits { IfSome result (λ doors. AreDoors doors.count) }
{
    let port = port_at(matches, port)?;
    let count = number_at(matches, NumberKind::Doors, count)?;
    Some(DoorsAsked { port, count })
}

/// Returns what `ask` asks for.
#[tactic(auto, unfolding(crate::specs::Requests::ask_by))]
fn ask_asked<'a>(matches: &ArgMatches<'a>) -> Option<Request<'a>>
    ensures asked { option_map asked result
        ≡ ask_by (first_value (found_of matches.now)) (every_value (found_of matches.now)) }
    ensures verb { IfSome result (λ request. verb_asked (asked request) ≡ Verb.Ask) }
    ensures limits { IfSome result (λ request. HasLimits (asked request)) }
{
    let port = port_at(matches, "PORT")?;
    let asking = asking_at(matches, "WORDS")?;
    Some(Request::Ask(AskAsked { port, asking }))
}

/// Returns what `export` asks for.
#[tactic(auto, unfolding(crate::specs::Requests::export_by))]
fn export_asked<'a>(matches: &ArgMatches<'a>) -> Option<Request<'a>>
    ensures asked { option_map asked result ≡ export_by (first_value (found_of matches.now)) }
    ensures verb { IfSome result (λ request. verb_asked (asked request) ≡ Verb.Export) }
    ensures limits { IfSome result (λ request. HasLimits (asked request)) }
{
    let map = file_at(matches, "MAP")?;
    let build = build_at(matches)?;
    Some(Request::OfMap(MapAsked {
        source: MapSource::File(map),
        aim: MapAim::Export,
        build,
    }))
}

/// Returns what `verify` asks for.
#[tactic(auto, unfolding(crate::specs::Requests::verify_by))]
fn verify_asked<'a>(matches: &ArgMatches<'a>) -> Option<Request<'a>>
    ensures asked { option_map asked result ≡ verify_by (first_value (found_of matches.now)) }
    ensures verb { IfSome result (λ request. verb_asked (asked request) ≡ Verb.Verify) }
    ensures limits { IfSome result (λ request. HasLimits (asked request)) }
{
    let db = file_at(matches, "DB")?;
    Some(Request::Verify(db))
}

/// Returns what `lead` asks for.
#[tactic(auto, unfolding(crate::specs::Requests::lead_by))]
fn lead_asked<'a>(matches: &ArgMatches<'a>) -> Option<Request<'a>>
    ensures asked { option_map asked result ≡ lead_by (first_value (found_of matches.now)) }
    ensures verb { IfSome result (λ request. verb_asked (asked request) ≡ Verb.Lead) }
    ensures limits { IfSome result (λ request. HasLimits (asked request)) }
{
    let map = file_at(matches, "MAP")?;
    let doors = doors_at(matches, "PORT", "DOORS")?;
    let feed = feed_at(matches, doors, "FEED")?;
    let room = room_at(matches, "room")?;
    let build = build_at(matches)?;
    Some(Request::Lead(LeadAsked {
        map,
        doors,
        feed,
        room,
        build,
    }))
}

/// Returns the port that the argument `id` names; `None` also if it is the port of the doors.
fn feed_at(matches: &ArgMatches<'_>, doors: DoorsAsked, id: &str) -> Option<u16>
    ensures port { result ≡ feed_at (first_value (found_of matches.now)) (Some doors) id.now }
    ensures other { IfSome result (λ feed. feed ≢ doors.port) }
{
    let feed = port_at(matches, id)?;
    if feed == doors.port { None } else { Some(feed) }
}

/// Returns what `follow` asks for.
#[tactic(auto, unfolding(crate::specs::Requests::follow_by))]
fn follow_asked<'a>(matches: &ArgMatches<'a>) -> Option<Request<'a>>
    ensures asked { option_map asked result ≡ follow_by (first_value (found_of matches.now)) }
    ensures verb { IfSome result (λ request. verb_asked (asked request) ≡ Verb.Follow) }
    ensures limits { IfSome result (λ request. HasLimits (asked request)) }
{
    let port = port_at(matches, "PORT")?;
    let rounds = number_at(matches, NumberKind::Rounds, "ROUNDS")?;
    let order = order_at(matches, "order")?;
    Some(Request::Follow(FollowAsked {
        port,
        rounds,
        order,
    }))
}

/// Returns the port that the argument `id` names.
fn port_at(matches: &ArgMatches<'_>, id: &str) -> Option<u16>
    ensures { result ≡ number_at NumberKind.Port (first_value (found_of matches.now)) id.now }
{
    Some(number_at(matches, NumberKind::Port, id)? as u16)
}

/// Returns what the values of the argument `id` ask for.
fn asking_at(matches: &ArgMatches<'_>, id: &str) -> Option<Asking>
    ensures { option_map said_by result ≡ said_at (every_value (found_of matches.now)) id.now }
{
    asking_in(matches.get_strs(id)?)
}

/// Returns the file that the argument `id` names.
fn file_at<'a>(matches: &ArgMatches<'a>, id: &str) -> Option<&'a str>
    ensures { option_map (λ name. name.now) result
        ≡ path_at (first_value (found_of matches.now)) id.now }
{
    file_name(matches.get_str(id)?)
}

/// Returns the column or the row that the argument `id` names.
fn coordinate_at(matches: &ArgMatches<'_>, id: &str) -> Option<u16>
    ensures { result ≡ coordinate_at (first_value (found_of matches.now)) id.now }
{
    coordinate(matches.get_str(id)?)
}

/// Returns the cell whose column and row two arguments name.
#[tactic(auto, unfolding(crate::specs::Requests::cell_at))]
fn cell_at(matches: &ArgMatches<'_>, column: &str, row: &str) -> Option<Cell>
    ensures { result ≡ cell_at (first_value (found_of matches.now)) column.now row.now }
{
    let x = coordinate_at(matches, column)?;
    let y = coordinate_at(matches, row)?;
    Some(Cell { x, y })
}

/// Returns the number of that kind that the argument `id` names.
fn number_at(matches: &ArgMatches<'_>, kind: NumberKind, id: &str) -> Option<u32>
    ensures number { result ≡ number_at kind (first_value (found_of matches.now)) id.now }
    ensures range { IfSome result (IsOfKind kind) }
{
    kind.read(matches.get_str(id)?)
}

/// Returns the sides whose width and height two arguments name.
#[tactic(auto, unfolding(crate::specs::Requests::sides_at))]
fn sides_at(matches: &ArgMatches<'_>, width: &str, height: &str) -> Option<Sides>
    ensures sides { result ≡ sides_at (first_value (found_of matches.now)) width.now height.now }
    ensures limits { IfSome result (λ sides. IsWithinLimits sides.width sides.height) }
{
    let width = number_at(matches, NumberKind::Side, width)?;
    let height = number_at(matches, NumberKind::Side, height)?;
    if width * height > MAX_CELLS {
        return None;
    }
    Some(Sides { width, height })
}

/// Returns the values of `--order` and `--workers`, or their defaults.
#[tactic(auto, unfolding(crate::specs::Requests::build_at))]
fn build_at(matches: &ArgMatches<'_>) -> Option<BuildOptions>
    ensures options { result ≡ build_at (first_value (found_of matches.now)) }
    ensures workers { IfSome result (λ build. AreWorkers build.workers) }
{
    let order = order_at(matches, "order")?;
    let workers = workers_at(matches, "workers")?;
    Some(BuildOptions { order, workers })
}

/// Returns the order that the option `id` names; row by row by default.
fn order_at(matches: &ArgMatches<'_>, id: &str) -> Option<OrderKind>
    ensures { result ≡ order_at (first_value (found_of matches.now)) id.now }
{
    match matches.get_str(id) {
        Some(text) => order(text),
        None => Some(OrderKind::Rows),
    }
}

/// Returns the room that the option `id` names; [`STANDARD_ROOM`] by default.
fn room_at(matches: &ArgMatches<'_>, id: &str) -> Option<u32>
    ensures number { result ≡ room_at (first_value (found_of matches.now)) id.now }
    ensures range { IfSome result (λ room. room ≤ MAX_ENTRIES) }
{
    match matches.get_str(id) {
        Some(text) => NumberKind::Room.read(text),
        None => Some(STANDARD_ROOM),
    }
}

/// Returns the number of threads that the option `id` names; one by default.
fn workers_at(matches: &ArgMatches<'_>, id: &str) -> Option<u32>
    ensures number { result ≡ workers_at (first_value (found_of matches.now)) id.now }
    ensures range { IfSome result AreWorkers }
{
    match matches.get_str(id) {
        Some(text) => workers(text),
        None => Some(1),
    }
}
