//! The advice on standard error that goes with the line on standard output: what is wrong with the
//! command line or the file, and what was expected.

ghost use Rattle.std.specs.Prelude.{◌≡◌, ◌++◌, [], IfOk, codes, flat_map, string_bytes};
ghost use Rattle.path_commands.specs.Commands.{field_text, verb_name, verb_synopsis};
ghost use Rattle.path_commands.specs.Texts.{line};

use crate::commands::{Field, Verb, command};
use crate::pages::{
    asks_for_help, asks_for_version, nearest, push_page, push_page_of, push_version,
};
use crate::request::{
    AskAsked, FollowAsked, MapAim, MapAsked, MapSource, Request, RequestError, first_verb,
    read_request,
};
use crate::seen::Seen;
use crate::status::Status;
use clap::ArgMatches;
use map_read::MapFault;
use moves::{Cell, MAX_CELLS, MAX_PASSABLE, MAX_SIDE};
use path_file::DbFault;
use query_proto::{Proto, frame_limit};
use scen_read::ScenFault;
use session::SessionFault;
use std::alloc::{AllocError, Global};
use std::fmt::Write;
use std::io;
use std::io::ErrorKind;
use versions::{End, QueryRefusal};
use wire::DoorsAsked;

/// Returns the advice for a run with these words and this status, using what was seen of its files
/// and ports. The text is empty if the run succeeded, and otherwise ends with a line feed.
pub fn advice(
    alloc: Global,
    words: &[String],
    status: &Status,
    seen: Seen,
) -> Result<String, AllocError>
    ensures { status.now ≡ Status.Done → IfOk result (λ text. string_bytes text ≡ []) }
{
    let mut text = String::new(alloc);
    match (status, read_request(alloc, words)) {
        (Status::Done, _) => {}
        (Status::Usage, _) => push_usage(&mut text, alloc, words)?,
        (Status::NoMemory, _) => text.push_str("path_server: out of memory\n")?,
        (Status::WriteFault, Ok(Request::Ask(_))) => {
            text.push_str("path_server ask: the output or the connection failed\n")?
        }
        (Status::WriteFault, Ok(Request::Follow(_))) => {
            text.push_str("path_server follow: the output or the connection failed\n")?
        }
        (Status::WriteFault, _) => text.push_str("path_server: the output failed\n")?,
        (Status::Broken(fault), Ok(Request::Follow(_))) => {
            push_broken(&mut text, "follow", *fault)?
        }
        (Status::Broken(fault), _) => push_broken(&mut text, "talk", *fault)?,
        (_, Ok(Request::Ask(asked))) => push_on_server(&mut text, asked, status)?,
        (_, Ok(Request::Follow(asked))) => push_on_leader(&mut text, asked, status)?,
        (_, Ok(request)) => push_on_file(&mut text, request, status, seen)?,
        (_, Err(_)) => {}
    }
    Ok(text)
}

/// Returns the advice for arguments that could not be read.
pub fn argument_advice(error: RequestError) -> &'static str {
    match error {
        RequestError::Usage => "path_server: an argument is not UTF-8 text\n",
        RequestError::NoMemory => "path_server: out of memory\n",
    }
}

/// Writes how the input of the session of this command broke off.
fn push_broken(text: &mut String, name: &str, fault: SessionFault) -> Result<(), AllocError> {
    match fault {
        SessionFault::Torn { have, want } => {
            write!(text, "path_server {name}: the input ended inside a frame, ")?;
            write!(text, "{have} of {want} bytes\n")
        }
        SessionFault::TooLong { length } => {
            write!(text, "path_server {name}: a frame of ")?;
            let (short, long) = (frame_limit(Proto::One), frame_limit(Proto::Two));
            write!(
                text,
                "{length} bytes; the limit is {short}, or {long} after a Hello\n"
            )
        }
        SessionFault::ReadFault | SessionFault::WriteFault => Ok(()),
    }
}

/// Writes what is wrong with a file, a port or a query that was asked for.
fn push_on_file(
    text: &mut String,
    request: Request,
    status: &Status,
    seen: Seen,
) -> Result<(), AllocError> {
    match (status, request) {
        (Status::ReadFault, Request::Talk(_)) if seen.reason.is_none() => {
            text.push_str("path_server talk: the input failed\n")
        }
        (Status::ReadFault, Request::Serve(asked)) if seen.reason.is_none() => {
            push_door_fault(text, asked.doors, seen.refusal)
        }
        (Status::ReadFault, Request::Lead(asked)) if seen.reason.is_none() => {
            push_feed_fault(text, asked.doors, asked.feed, seen.refusal)
        }
        (Status::ReadFault, _) => {
            push_read_fault(text, file_at(request, seen.files.files), seen.reason)
        }
        (Status::TooLong { limit }, _) => {
            let file = file_at(request, seen.files.files);
            write!(text, "{file}: expected at most {limit} bytes\n")
        }
        (Status::Db(fault), Request::Verify(db)) => push_db_fault(text, db, *fault, seen),
        (Status::Map(fault), Request::OfMap(asked)) => {
            push_on_source(text, asked.source, *fault, seen)
        }
        (Status::Map(fault), _) => push_map_fault(text, file_at(request, 0), *fault, seen),
        (_, Request::OfMap(asked)) => push_on_aim(text, asked, status, seen),
        _ => Ok(()),
    }
}

/// Writes why there is no map.
fn push_on_source(
    text: &mut String,
    source: MapSource,
    fault: MapFault,
    seen: Seen,
) -> Result<(), AllocError> {
    match source {
        MapSource::File(map) => push_map_fault(text, map, fault, seen),
        MapSource::Formula { .. } => push_made_fault(text, fault),
    }
}

/// Writes what is wrong with the scenarios, the events or the query.
fn push_on_aim(
    text: &mut String,
    asked: MapAsked,
    status: &Status,
    seen: Seen,
) -> Result<(), AllocError> {
    let map = source_file(asked.source);
    match (status, asked.aim) {
        (Status::Scen(fault), MapAim::Scen(scenarios)) => {
            push_scenario_fault(text, scenarios, *fault, seen)
        }
        (Status::Events { line }, MapAim::Replay(events)) => {
            push_events_fault(text, events, *line, seen)
        }
        (Status::Query(refusal), MapAim::Path { start, goal }) => {
            push_refusal(text, map, start, goal, *refusal)
        }
        (Status::Query(refusal), MapAim::NearPath { start, goal }) => {
            push_refusal(text, map, start, goal, *refusal)
        }
        _ => Ok(()),
    }
}

/// Writes why the doors of a port failed, in the system's words if it refused the port.
fn push_door_fault(
    text: &mut String,
    doors: DoorsAsked,
    refusal: Option<(u16, io::Error)>,
) -> Result<(), AllocError> {
    let Some((port, error)) = refusal else {
        let port = doors.port;
        return write!(text, "path_server serve: accept failed at port {port}\n");
    };
    write!(text, "path_server serve: port {port} ")?;
    push_port_fault(text, doors.count, error)
}

/// Writes the same for a leader, which has one door at a port of its own.
fn push_feed_fault(
    text: &mut String,
    doors: DoorsAsked,
    feed: u16,
    refusal: Option<(u16, io::Error)>,
) -> Result<(), AllocError> {
    let DoorsAsked { port, count } = doors;
    let Some((refused, error)) = refusal else {
        return write!(
            text,
            "path_server lead: accept failed at port {port} or {feed}\n"
        );
    };
    write!(text, "path_server lead: port {refused} ")?;
    push_port_fault(text, if refused == feed { 1 } else { count }, error)
}

/// Writes why the system refused a port with this many doors.
fn push_port_fault(text: &mut String, count: u32, error: io::Error) -> Result<(), AllocError> {
    match error.kind() {
        ErrorKind::AddrInUse => text.push_str("is taken")?,
        ErrorKind::PermissionDenied => text.push_str("is forbidden")?,
        _ if count == 1 => text.push_str("cannot be opened")?,
        _ => write!(text, "cannot be opened for {count} doors")?,
    }
    write!(text, ": {error}\n")
}

// ---- connections that are called

/// Writes what is wrong with the answer of a server or the connection to it.
fn push_on_server(text: &mut String, asked: AskAsked, status: &Status) -> Result<(), AllocError> {
    let AskAsked { port, .. } = asked;
    match status {
        Status::ReadFault => {
            text.push_str("path_server ask: no server at port ")?;
            write!(text, "{port}, or the connection was lost\n")
        }
        Status::BadAnswer => {
            text.push_str("path_server ask: invalid or incomplete answer ")?;
            write!(text, "from port {port}\n")
        }
        _ => Ok(()),
    }
}

/// Writes what is wrong with a leader, its feed or the connection to it.
fn push_on_leader(
    text: &mut String,
    asked: FollowAsked,
    status: &Status,
) -> Result<(), AllocError> {
    let FollowAsked { port, .. } = asked;
    match status {
        Status::ReadFault => {
            write!(text, "path_server follow: no leader at port {port}, ")?;
            text.push_str("or the connection or the input failed\n")
        }
        Status::BadAnswer => {
            text.push_str("path_server follow: invalid or incomplete feed ")?;
            write!(text, "from port {port}\n")
        }
        Status::LeaderMemory => {
            text.push_str("path_server follow: the leader at port ")?;
            write!(text, "{port} is out of memory\n")
        }
        _ => Ok(()),
    }
}

// ---- files

/// Returns the name of the file that is read after this many others.
fn file_at<'a>(request: Request<'a>, others: u32) -> &'a str {
    if others > 0
        && let Some(file) = second_file(request)
    {
        return file;
    }
    first_file(request)
}

/// Returns the name of the file that is read after the map.
fn second_file<'a>(request: Request<'a>) -> Option<&'a str> {
    let Request::OfMap(asked) = request else {
        return None;
    };
    match asked.aim {
        MapAim::Scen(scenarios) => Some(scenarios),
        MapAim::Replay(events) => Some(events),
        _ => None,
    }
}

/// Returns the name of the file that is read first; empty if the command reads none.
fn first_file<'a>(request: Request<'a>) -> &'a str {
    match request {
        Request::OfMap(asked) => source_file(asked.source),
        Request::Talk(asked) => asked.map,
        Request::Serve(asked) => asked.map,
        Request::Lead(asked) => asked.map,
        Request::Verify(db) => db,
        Request::Ask(_) | Request::Follow(_) => "",
    }
}

/// Returns the name of the map's file; empty if the map is made by formula.
fn source_file<'a>(source: MapSource<'a>) -> &'a str {
    match source {
        MapSource::File(map) => map,
        MapSource::Formula { .. } => "",
    }
}

/// Writes why a file was not read.
fn push_read_fault(
    text: &mut String,
    file: &str,
    reason: Option<ErrorKind>,
) -> Result<(), AllocError> {
    write!(text, "path_server: {file}: ")?;
    match reason {
        Some(ErrorKind::NotFound) => text.push_str("no such file\n"),
        Some(reason) => write!(text, "{reason}\n"),
        None => text.push_str("cannot be read\n"),
    }
}

/// Ends a line on how a file should begin with what the file is, if its first bytes show that it is
/// not text.
fn push_sort(text: &mut String, seen: Seen) -> Result<(), AllocError> {
    match seen.sort() {
        Some(sort) => write!(text, ", found {sort}\n"),
        None => text.push_str("\n"),
    }
}

/// The line of the first row of a map, numbered from 1.
const FIRST_ROW: u32 = 5;

/// Writes the line at which a map is refused, and what was expected there.
fn push_map_fault(
    text: &mut String,
    file: &str,
    fault: MapFault,
    seen: Seen,
) -> Result<(), AllocError> {
    let line = fault_line(fault);
    write!(text, "{file}:{line}: expected ")?;
    match fault {
        MapFault::Header { line: 1 } => {
            text.push_str("'type octile'")?;
            push_sort(text, seen)
        }
        MapFault::Header { line: 4 } => text.push_str("'map'\n"),
        MapFault::Header { .. } => text.push_str("'height H' and 'width W', in either order\n"),
        MapFault::Size { .. } => {
            write!(
                text,
                "sides from 1 to {MAX_SIDE} and at most {MAX_CELLS} cells\n"
            )
        }
        MapFault::RowLength {
            expected,
            found,
            ..
        } => write!(text, "{expected} cells, found {found}\n"),
        MapFault::BadCell { x, byte, .. } => {
            write!(text, "one of . G S W @ O T at column {x}, found ")?;
            push_byte(text, byte)
        }
        MapFault::MissingRows { found } => write!(text, "another row, found {found} rows\n"),
        MapFault::Extra { .. } => text.push_str("nothing after the last row\n"),
        MapFault::TooManyCells { x, .. } => {
            write!(
                text,
                "at most {MAX_PASSABLE} passable cells, one too many at column {x}\n"
            )
        }
    }
}

/// Writes a byte of a map: the character if it can be printed, else the number.
fn push_byte(text: &mut String, byte: u8) -> Result<(), AllocError> {
    match byte {
        b'!'..=b'~' => {
            let letter = char::from(byte);
            write!(text, "'{letter}'\n")
        }
        b' ' => text.push_str("a space\n"),
        b'\t' => text.push_str("a tab\n"),
        _ => write!(text, "byte {byte}\n"),
    }
}

/// Writes why a map is not made.
fn push_made_fault(text: &mut String, fault: MapFault) -> Result<(), AllocError> {
    match fault {
        MapFault::TooManyCells { x, y } => {
            write!(text, "path_server made: expected at most {MAX_PASSABLE} ")?;
            write!(
                text,
                "passable cells, one too many at column {x} and row {y}\n"
            )
        }
        _ => Ok(()),
    }
}

/// Writes the line at which scenarios are refused, and what was expected there.
fn push_scenario_fault(
    text: &mut String,
    file: &str,
    fault: ScenFault,
    seen: Seen,
) -> Result<(), AllocError> {
    match fault {
        ScenFault::Version => {
            write!(text, "{file}:1: expected 'version 1'")?;
            push_sort(text, seen)
        }
        ScenFault::Fields { line, found } => {
            write!(text, "{file}:{line}: expected ")?;
            write!(text, "9 fields, found {found}\n")
        }
        ScenFault::Number { line, field } => {
            let wanted = field_wanted(field);
            write!(text, "{file}:{line}: expected ")?;
            write!(text, "{wanted} in field {field}\n")
        }
    }
}

/// Writes what is wrong with a database file.
fn push_db_fault(
    text: &mut String,
    file: &str,
    fault: DbFault,
    seen: Seen,
) -> Result<(), AllocError> {
    write!(text, "{file}: ")?;
    match fault {
        DbFault::Magic => {
            text.push_str("expected PATHDB01 at the start")?;
            push_sort(text, seen)
        }
        DbFault::Walk { .. } | DbFault::Worse { .. } | DbFault::Loose { .. } => {
            push_row_fault(text, fault)
        }
        _ => push_field_fault(text, fault),
    }
}

/// Writes what is wrong with a field after the first.
fn push_field_fault(text: &mut String, fault: DbFault) -> Result<(), AllocError> {
    match fault {
        DbFault::Size => push_sides_wanted(text),
        DbFault::Kind { byte } => {
            write!(text, "expected order 0 (rows) or 1 (dfs), found {byte}\n")
        }
        DbFault::Terrain { place, byte } => write!(
            text,
            "expected terrain 0, 1 or 2 at cell {place}, found {byte}\n"
        ),
        DbFault::TooManyCells { place } => push_cells_wanted(text, place),
        DbFault::Cut { have } => write!(text, "ends too soon, after {have} bytes\n"),
        DbFault::Runs { comp, source } => {
            write!(text, "component {comp}, row {source}: ")?;
            text.push_str("expected rising run starts from 0, at most one per cell\n")
        }
        DbFault::Extra { from } => write!(
            text,
            "expected the end after the last row, at byte {from}\n"
        ),
        _ => Ok(()),
    }
}

/// Writes the limits of the sides of a map.
fn push_sides_wanted(text: &mut String) -> Result<(), AllocError> {
    write!(
        text,
        "expected sides from 1 to {MAX_SIDE} and at most {MAX_CELLS} cells\n"
    )
}

/// Writes the limit of passable cells, and the cell that exceeds it.
fn push_cells_wanted(text: &mut String, place: u32) -> Result<(), AllocError> {
    write!(
        text,
        "expected at most {MAX_PASSABLE} passable cells, one too many at cell {place}\n"
    )
}

/// Writes what is wrong with a row.
fn push_row_fault(text: &mut String, fault: DbFault) -> Result<(), AllocError> {
    match fault {
        DbFault::Walk {
            comp,
            target,
            source,
        } => {
            push_walk(text, comp, target, source)?;
            text.push_str("the rows do not lead there\n")
        }
        DbFault::Worse {
            comp,
            target,
            source,
        } => {
            push_walk(text, comp, target, source)?;
            text.push_str("a shorter path exists\n")
        }
        DbFault::Loose {
            comp,
            target,
            source,
        } => {
            push_walk(text, comp, target, source)?;
            text.push_str("a run ends too soon, or its move is not the least\n")
        }
        _ => Ok(()),
    }
}

/// Writes the component and the two cells of a walk.
fn push_walk(text: &mut String, comp: u32, target: u32, source: u32) -> Result<(), AllocError> {
    write!(text, "component {comp}, from cell {source} ")?;
    write!(text, "to cell {target}: ")
}

/// Writes the line at which events are refused, and the forms of an event.
fn push_events_fault(
    text: &mut String,
    file: &str,
    line: u32,
    seen: Seen,
) -> Result<(), AllocError> {
    write!(text, "{file}:{line}: expected an event: ")?;
    text.push_str("submit P X Y B [X Y B ..], look P, query P SX SY GX GY, ")?;
    text.push_str("begin P, row P, publish P or halt P")?;
    if line == 1 {
        return push_sort(text, seen);
    }
    text.push_str("\n")
}

/// Returns what is expected in a field of a scenario. The second field is a name and the last a
/// length.
fn field_wanted(field: u32) -> &'static str {
    match field {
        1 | 3 | 4 => "a number from 0 to 4294967295",
        9 => "a length without sign or exponent, of at most 7 digits before the point",
        _ => "a number from 0 to 65535",
    }
}

/// Returns the line of the file, from 1, at which a map is refused.
fn fault_line(fault: MapFault) -> u32 {
    match fault {
        MapFault::Header { line } | MapFault::Size { line } => line,
        MapFault::RowLength { line, .. } | MapFault::Extra { line } => line,
        MapFault::BadCell { y, .. } | MapFault::TooManyCells { y, .. } => u32::from(y) + FIRST_ROW,
        MapFault::MissingRows { found } => found.saturating_add(FIRST_ROW),
    }
}

/// Writes which end of a query is refused, and why.
fn push_refusal(
    text: &mut String,
    file: &str,
    start: Cell,
    goal: Cell,
    refusal: QueryRefusal,
) -> Result<(), AllocError> {
    let (which, why) = match refusal {
        QueryRefusal::Outside { which } => (which, "lies outside the map"),
        QueryRefusal::Blocked { which } => (which, "is blocked"),
    };
    match which {
        End::Start => push_end(text, file, "start", start, why),
        End::Goal => push_end(text, file, "goal", goal, why),
    }
}

/// One end of a query, and why it is refused.
fn push_end(
    text: &mut String,
    file: &str,
    end: &str,
    cell: Cell,
    why: &str,
) -> Result<(), AllocError> {
    let Cell { x, y } = cell;
    write!(text, "{file}: the {end}, ")?;
    write!(text, "column {x} and row {y}, {why}\n")
}

// ---- words

/// Writes what is wrong with the words and the usage of the command that they name, or else the
/// list of commands. A request for help gets a help page.
fn push_usage(text: &mut String, alloc: Global, words: &[String]) -> Result<(), AllocError> {
    match (first_verb(words), words.first()) {
        (Some(verb), _) if asks_behind_first(words) => push_page_of(text, verb),
        (Some(verb), _) => {
            push_wrong_word(text, alloc, verb, words)?;
            push_synopsis(text, "usage: ", verb)
        }
        (None, Some(name)) => push_on_name(text, name),
        (None, None) => push_page(text),
    }
}

/// Returns whether a word after the first asks for help.
fn asks_behind_first(words: &[String]) -> bool {
    words
        .iter()
        .skip(1)
        .any(|word| matches!(word.as_str(), "--help" | "-h"))
}

/// Writes the advice for a first word that is not a command.
fn push_on_name(text: &mut String, name: &str) -> Result<(), AllocError> {
    if asks_for_help(name) {
        return push_page(text);
    }
    if asks_for_version(name) {
        return push_version(text);
    }
    write!(text, "path_server: unknown command '{name}'")?;
    match nearest(name) {
        Some(verb) => {
            let meant = verb.name();
            write!(text, "; did you mean '{meant}'?\n")?;
            push_synopsis(text, "usage: ", verb)
        }
        None => {
            text.push_str("; the commands are:\n")?;
            push_commands(text)
        }
    }
}

/// Writes the usage of every command, one per line.
fn push_commands(text: &mut String) -> Result<(), AllocError> {
    for verb in Verb::ALL {
        push_synopsis(text, "  ", verb)?;
    }
    Ok(())
}

/// Writes the usage line of a command after the text `before`.
pub(crate) fn push_synopsis(text: &mut String, before: &str, verb: Verb) -> Result<(), AllocError>
    ensures { IfOk result (λ _. string_bytes text.new ≡ string_bytes text.old ++ line
        (before.now ++ codes "path_server " ++ verb_name verb ++ verb_synopsis verb)) }
{
    text.push_str(before)?;
    text.push_str("path_server ")?;
    text.push_str(verb.name())?;
    push_fields(text, verb.fields())?;
    text.push_str("\n")
}

/// Writes the arguments and options.
fn push_fields(text: &mut String, fields: &[Field]) -> Result<(), AllocError>
    ensures { IfOk result (λ _.
        string_bytes text.new ≡ string_bytes text.old ++ flat_map field_text fields.now) }
{
    for field in fields {
        write!(text, "{field}")?;
    }
    Ok(())
}

/// Writes which word is wrong, and why.
fn push_wrong_word(
    text: &mut String,
    alloc: Global,
    verb: Verb,
    words: &[String],
) -> Result<(), AllocError> {
    let name = verb.name();
    match command(alloc, verb)?.try_get_matches_from(words) {
        Ok(matches) => push_wrong_value(text, verb, &matches),
        Err(error) => {
            write!(text, "path_server {name}:")?;
            let message = format!(in alloc; "{error}")?;
            push_first_part(text, message.as_str())
        }
    }
}

/// Writes the message up to its first empty line, as one line and without the leading `error: `.
fn push_first_part(text: &mut String, message: &str) -> Result<(), AllocError> {
    for line in message.split('\n') {
        let line = line.trim();
        if line.is_empty() {
            break;
        }
        text.push_str(" ")?;
        text.push_str(line.strip_prefix("error: ").unwrap_or(line))?;
    }
    text.push_str("\n")
}

/// Writes the first value that is not valid, and what was expected.
fn push_wrong_value(
    text: &mut String,
    verb: Verb,
    matches: &ArgMatches<'_>,
) -> Result<(), AllocError> {
    let name = verb.name();
    for field in verb.fields() {
        let (Field::Argument(id, value) | Field::Setting(id, value)) = *field else {
            continue;
        };
        if let Some(word) = matches.get_str(id) {
            if !value.takes(word) {
                write!(text, "path_server {name}: ")?;
                write!(text, "{id}: '{word}' is not ")?;
                value.push_wanted(text)?;
                return text.push_str("\n");
            }
        }
    }
    push_wrong_values(text, verb)
}

/// Writes what is wrong with the values of a command taken together, when each by itself is valid.
fn push_wrong_values(text: &mut String, verb: Verb) -> Result<(), AllocError> {
    match verb {
        Verb::Ask => {
            text.push_str("path_server ask: WORDS: expected query SX SY GX GY, ")?;
            text.push_str("change X Y 0, change X Y 1, build, status, bye or stop\n")
        }
        Verb::Lead => text.push_str("path_server lead: PORT FEED: expected different ports\n"),
        _ => {
            text.push_str("path_server made: W H: ")?;
            write!(text, "expected at most {MAX_CELLS} cells\n")
        }
    }
}
