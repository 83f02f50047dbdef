//! The commands of the program: a line each, with its name, its arguments and its options.
ghost use Rattle.std.specs.Prelude.{◌≡◌, bytes_eq, false, find, flat_map, map, position, IfOk};
ghost use Rattle.std.specs.Prelude.{is_some, slice_get};
ghost use Rattle.clap.specs.Words.{app_of, rule_of};
ghost use Rattle.path_commands.specs.Commands.{app_for, field_text, form_text, is_value, rule_for};
ghost use Rattle.path_commands.specs.Words.{several_rule};
ghost use Rattle.path_commands.specs.Commands.{verb_kind, verb_name, verb_named, verb_rules, verb_synopsis};

use crate::words::{NumberKind, file_name, order};
use clap::{Arg, ArgAction, Command};
use std::alloc::{AllocError, Global};
use std::fmt;
use std::fmt::Write;

/// A command of the program.
#[derive(Clone, Copy, Debug, PartialEq, Eq)]
pub enum Verb {
    /// A shortest path between two cells of a map.
    Path,
    /// Whether a file is a map, and its size.
    Check,
    /// How many runs a map has once compass moves need none, and how far compass moves are right.
    Near,
    /// A shortest path between two cells of a map, by compass moves wherever they are right.
    NearPath,
    /// The results of a file of scenarios on a map.
    Scen,
    /// The size of a map made from two sides and a seed, and the results of queries on it.
    Made,
    /// The output of a file of events, on a board that begins with a map.
    Replay,
    /// A session on a board that begins with a map.
    Talk,
    /// Sessions at the doors of a port, on a board that begins with a map.
    Serve,
    /// One request to a server, and its answer.
    Ask,
    /// The file of the database of a map.
    Export,
    /// Whether a file is that of a database.
    Verify,
    /// Sessions at the doors of a port, and a door at another one where followers are fed.
    Lead,
    /// A session on a board that follows a leader's.
    Follow,
}

/// The kind of a command, by how its run ends.
#[derive(Clone, Copy, Debug, PartialEq, Eq)]
pub enum Kind {
    /// The result is printed. So is the line for words that do not name a command.
    Printed,
    /// `talk`: a session over the input.
    Talk,
    /// `serve`: sessions at doors.
    Serve,
    /// `ask`: one request to a server.
    Ask,
    /// `lead`: sessions at doors, and a feed.
    Lead,
    /// `follow`: a session on a board that follows another.
    Follow,
}

/// An argument or an option of a command, and what its value may be.
#[derive(Clone, Copy, Debug, PartialEq, Eq)]
pub enum Field {
    /// An argument of this name, which is required. Arguments are given in order.
    Argument(&'static str, Value),
    /// An option `--NAME VALUE`, which may be left out.
    Setting(&'static str, Value),
    /// An argument of this name with one or more values, after all others.
    Several(&'static str),
}

/// What a value may be.
#[derive(Clone, Copy, Debug, PartialEq, Eq)]
pub enum Value {
    /// The name of a file.
    File,
    /// A number.
    Number(NumberKind),
    /// An order of cells.
    Order,
}

static PATH_FIELDS: [Field; 7] = [
    Field::Argument("MAP", Value::File),
    Field::Argument("SX", Value::Number(NumberKind::Coordinate)),
    Field::Argument("SY", Value::Number(NumberKind::Coordinate)),
    Field::Argument("GX", Value::Number(NumberKind::Coordinate)),
    Field::Argument("GY", Value::Number(NumberKind::Coordinate)),
    Field::Setting("order", Value::Order),
    Field::Setting("workers", Value::Number(NumberKind::Workers)),
];

static CHECK_FIELDS: [Field; 3] = [
    Field::Argument("MAP", Value::File),
    Field::Setting("order", Value::Order),
    Field::Setting("workers", Value::Number(NumberKind::Workers)),
];

static SCEN_FIELDS: [Field; 4] = [
    Field::Argument("MAP", Value::File),
    Field::Argument("SCEN", Value::File),
    Field::Setting("order", Value::Order),
    Field::Setting("workers", Value::Number(NumberKind::Workers)),
];

static MADE_FIELDS: [Field; 5] = [
    Field::Argument("W", Value::Number(NumberKind::Side)),
    Field::Argument("H", Value::Number(NumberKind::Side)),
    Field::Argument("SEED", Value::Number(NumberKind::Seed)),
    Field::Setting("order", Value::Order),
    Field::Setting("workers", Value::Number(NumberKind::Workers)),
];

static REPLAY_FIELDS: [Field; 4] = [
    Field::Argument("MAP", Value::File),
    Field::Argument("EVENTS", Value::File),
    Field::Setting("order", Value::Order),
    Field::Setting("workers", Value::Number(NumberKind::Workers)),
];

static TALK_FIELDS: [Field; 4] = [
    Field::Argument("MAP", Value::File),
    Field::Setting("order", Value::Order),
    Field::Setting("workers", Value::Number(NumberKind::Workers)),
    Field::Setting("room", Value::Number(NumberKind::Room)),
];

static SERVE_FIELDS: [Field; 6] = [
    Field::Argument("MAP", Value::File),
    Field::Argument("PORT", Value::Number(NumberKind::Port)),
    Field::Argument("DOORS", Value::Number(NumberKind::Doors)),
    Field::Setting("order", Value::Order),
    Field::Setting("workers", Value::Number(NumberKind::Workers)),
    Field::Setting("room", Value::Number(NumberKind::Room)),
];

static ASK_FIELDS: [Field; 2] = [
    Field::Argument("PORT", Value::Number(NumberKind::Port)),
    Field::Several("WORDS"),
];

static VERIFY_FIELDS: [Field; 1] = [Field::Argument("DB", Value::File)];

static LEAD_FIELDS: [Field; 7] = [
    Field::Argument("MAP", Value::File),
    Field::Argument("PORT", Value::Number(NumberKind::Port)),
    Field::Argument("DOORS", Value::Number(NumberKind::Doors)),
    Field::Argument("FEED", Value::Number(NumberKind::Port)),
    Field::Setting("order", Value::Order),
    Field::Setting("workers", Value::Number(NumberKind::Workers)),
    Field::Setting("room", Value::Number(NumberKind::Room)),
];

static FOLLOW_FIELDS: [Field; 3] = [
    Field::Argument("PORT", Value::Number(NumberKind::Port)),
    Field::Argument("ROUNDS", Value::Number(NumberKind::Rounds)),
    Field::Setting("order", Value::Order),
];

impl Verb {
    /// All commands.
    pub const ALL: [Verb; 14] = [
        Verb::Path,
        Verb::Check,
        Verb::Scen,
        Verb::Made,
        Verb::Replay,
        Verb::Talk,
        Verb::Serve,
        Verb::Ask,
        Verb::Export,
        Verb::Verify,
        Verb::Near,
        Verb::NearPath,
        Verb::Lead,
        Verb::Follow,
    ];

    /// Returns the word that names the command.
    pub fn name(self) -> &'static str
        ensures { result.now ≡ verb_name self }
    {
        match self {
            Verb::Path => "path",
            Verb::Check => "check",
            Verb::Near => "near",
            Verb::NearPath => "nearpath",
            Verb::Scen => "scen",
            Verb::Made => "made",
            Verb::Replay => "replay",
            Verb::Talk => "talk",
            Verb::Serve => "serve",
            Verb::Ask => "ask",
            Verb::Export => "export",
            Verb::Verify => "verify",
            Verb::Lead => "lead",
            Verb::Follow => "follow",
        }
    }

    /// Returns its kind, by how its run ends.
    pub fn kind(self) -> Kind
        ensures { result ≡ verb_kind self }
    {
        match self {
            Verb::Talk => Kind::Talk,
            Verb::Serve => Kind::Serve,
            Verb::Ask => Kind::Ask,
            Verb::Lead => Kind::Lead,
            Verb::Follow => Kind::Follow,
            Verb::Path | Verb::NearPath | Verb::Near | Verb::Check => Kind::Printed,
            Verb::Scen | Verb::Made | Verb::Replay => Kind::Printed,
            Verb::Export | Verb::Verify => Kind::Printed,
        }
    }

    /// Returns its arguments in order, then its options.
    pub fn fields(self) -> &'static [Field]
        ensures rules { map rule_for result.now ≡ verb_rules self }
        ensures shown { flat_map field_text result.now ≡ verb_synopsis self }
    {
        match self {
            Verb::Path => PATH_FIELDS.as_slice(),
            Verb::Check | Verb::Near | Verb::Export => CHECK_FIELDS.as_slice(),
            Verb::NearPath => PATH_FIELDS.as_slice(),
            Verb::Scen => SCEN_FIELDS.as_slice(),
            Verb::Made => MADE_FIELDS.as_slice(),
            Verb::Replay => REPLAY_FIELDS.as_slice(),
            Verb::Talk => TALK_FIELDS.as_slice(),
            Verb::Serve => SERVE_FIELDS.as_slice(),
            Verb::Ask => ASK_FIELDS.as_slice(),
            Verb::Verify => VERIFY_FIELDS.as_slice(),
            Verb::Lead => LEAD_FIELDS.as_slice(),
            Verb::Follow => FOLLOW_FIELDS.as_slice(),
        }
    }

    /// Returns what it does, in one line.
    pub(crate) fn purpose(self) -> &'static str {
        match self {
            Verb::Path => "prints the cost, length and moves of an optimal path, or unreachable",
            Verb::Check =>
                "prints the size of a map and its numbers of passable cells, components and runs",
            Verb::Scen => "checks each length in a scenario file against the map",
            Verb::Made => "measures the map that a formula makes from two sides and a seed",
            Verb::Replay => "runs the edits, builds and queries of a file and prints their results",
            Verb::Talk => "answers request frames on standard input until it ends",
            Verb::Serve => "answers the same requests over TCP at a port of this machine",
            Verb::Ask => "sends one request to a server and prints the answer",
            Verb::Export => "writes the map's database file to standard output",
            Verb::Verify =>
                "checks that every path in a database file is optimal, without a search",
            Verb::Near =>
                "prints what check prints, and how many runs the compass does not replace",
            Verb::NearPath =>
                "prints an optimal path that follows the compass wherever it is right",
            Verb::Lead =>
                "serves like serve, and sends accepted edits to followers at another port",
            Verb::Follow => "takes the accepted edits of a leader, then answers requests like talk",
        }
    }

    /// Returns an example call.
    pub(crate) fn example(self) -> &'static str {
        match self {
            Verb::Path => "path_server path maps/tutorial.map 2 2 37 17",
            Verb::Check => "path_server check maps/tutorial.map --order dfs",
            Verb::Scen => "path_server scen maps/tutorial.map maps/tutorial.map.scen",
            Verb::Made => "path_server made 64 64 7",
            Verb::Replay => "path_server replay maps/tutorial.map maps/tutorial.events",
            Verb::Talk => "path_server talk maps/tutorial.map --room 1000",
            Verb::Serve => "path_server serve maps/tutorial.map 4000 8",
            Verb::Ask => "path_server ask 4000 change 20 9 0",
            Verb::Export => "path_server export maps/tutorial.map > tutorial.db",
            Verb::Verify => "path_server verify tutorial.db",
            Verb::Near => "path_server near maps/tutorial.map",
            Verb::NearPath => "path_server nearpath maps/tutorial.map 2 2 37 17",
            Verb::Lead => "path_server lead maps/tutorial.map 4000 8 4001",
            Verb::Follow => "path_server follow 4001 1",
        }
    }

    /// Returns the command with exactly this name.
    #[tactic(auto, unfolding(crate::specs::Commands::verb_named))]
    pub fn named(name: &str) -> Option<Verb>
        ensures { result ≡ verb_named name.now }
    {
        first_named(&Verb::ALL, name)
    }
}

/// Returns the first of these commands that has the name.
fn first_named(verbs: &[Verb], name: &str) -> Option<Verb>
    ensures { result ≡ find (λ verb. bytes_eq (verb_name verb) name.now) verbs.now }
{
    let place = first_place(verbs, name)?;
    verb_at(verbs, place)
}

/// Returns the command at that place.
fn verb_at(verbs: &[Verb], place: usize) -> Option<Verb>
    ensures { result ≡ slice_get verbs.now place }
{
    verbs.get(place).copied()
}

/// Returns the place of the first of these commands that has the name.
fn first_place(verbs: &[Verb], name: &str) -> Option<usize>
    ensures { result ≡ position (λ verb. bytes_eq (verb_name verb) name.now) verbs.now }
{
    verbs.iter().position(|verb| verb.name() == name)
}

impl Field {
    /// Returns what its value means.
    pub(crate) fn meaning(self) -> &'static str {
        let (Field::Argument(id, _) | Field::Setting(id, _) | Field::Several(id)) = self;
        match id {
            "MAP" => "the map, in MovingAI format",
            "DB" => "the database file, as written by export",
            "SX" => "the column of the start, counted from the left",
            "SY" => "the row of the start, counted from the top",
            "GX" => "the column of the goal",
            "GY" => "the row of the goal",
            "SCEN" => "the scenarios, in MovingAI format",
            "EVENTS" => "the events, one per line",
            "W" => "how many columns the map has",
            "H" => "how many rows it has",
            "SEED" => "the seed of the formula",
            "PORT" => "the port on this machine (127.0.0.1)",
            "DOORS" => "how many connections are served at once",
            "FEED" => "the port for followers, different from PORT",
            "ROUNDS" => "how many times the leader is asked for edits",
            "WORDS" => {
                "query SX SY GX GY, change X Y 0 (blocked) or 1 (passable), build, status, bye or stop"
            }
            "order" => "the order of the cells in the database",
            "workers" => "how many threads build it",
            _ => "how many edits and versions to reserve memory for at the start",
        }
    }

    /// Returns the argument as clap reads it.
    fn arg<'a>(self, alloc: Global) -> Arg<'a>
        ensures rule { rule_of result ≡ rule_for self }
        ensures local { result.global ≡ false }
    {
        match self {
            Field::Argument(id, _) => Arg::new(alloc, id).required(true).action(ArgAction::Set),
            Field::Setting(id, _) => Arg::new(alloc, id).long(id).action(ArgAction::Set),
            Field::Several(id) => several(alloc, id),
        }
    }
}

/// Returns an argument with one or more values, as clap reads it.
fn several<'a>(alloc: Global, id: &'a str) -> Arg<'a>
    ensures rule { rule_of result ≡ several_rule id.entry.now }
    ensures local { result.global ≡ false }
{
    Arg::new(alloc, id)
        .required(true)
        .num_args(1..)
        .action(ArgAction::Set)
}

impl fmt::Display for Field {
    ghost use Rattle.std.specs.Prelude.{Some};

    ghost output = { λ field. Some (field_text field) };

    fn fmt<W: fmt::Write>(&self, f: &mut fmt::Formatter<W>) -> fmt::Result {
        match self {
            Field::Argument(id, _) => write!(f, " {id}"),
            Field::Setting(id, value) => write!(f, " [--{id} {value}]"),
            Field::Several(id) => write!(f, " {id}.."),
        }
    }
}

impl Value {
    /// Returns whether the text is such a value.
    pub fn takes(self, text: &str) -> bool
        ensures { result ≡ is_value self text.now }
    {
        match self {
            Value::File => file_name(text).is_some(),
            Value::Number(kind) => kind.read(text).is_some(),
            Value::Order => order(text).is_some(),
        }
    }

    /// Writes what such a value is, in words.
    pub fn push_wanted(self, text: &mut String) -> Result<(), AllocError> {
        match self {
            Value::File => text.push_str("a file name"),
            Value::Number(kind) => {
                let (least, most) = (kind.least(), kind.most());
                write!(text, "a number from {least} to {most}")
            }
            Value::Order => text.push_str("rows or dfs"),
        }
    }
}

/// Shows the form of an option's value.
impl fmt::Display for Value {
    ghost use Rattle.std.specs.Prelude.{Some};

    ghost output = { λ value. Some (form_text value) };

    fn fmt<W: fmt::Write>(&self, f: &mut fmt::Formatter<W>) -> fmt::Result {
        match self {
            Value::File => write!(f, "FILE"),
            Value::Number(_) => write!(f, "N"),
            Value::Order => write!(f, "rows|dfs"),
        }
    }
}

/// Returns the command as clap reads it: its arguments and options, without the flags for help and
/// version.
pub fn command<'a>(alloc: Global, verb: Verb) -> Result<Command<'a>, AllocError>
    ensures { IfOk result (λ command. app_of command ≡ app_for verb) }
{
    let name: &'a str = verb.name();
    let fields = verb.fields();
    let mut command = Command::new(alloc, name)
        .disable_help_flag(true)
        .disable_version_flag(true);
    for field in fields {
        let argument = field.arg(alloc);
        command = command.arg(argument)?;
    }
    Ok(command)
}
