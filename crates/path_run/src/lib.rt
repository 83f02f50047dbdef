//! The whole program, over given files, input, output, house and ear.
//!
//! The exit status and the output of a command:
//!
//! ```text
//! run | check M | rows ../..
//! 0 size 2 2\ncells 4\ncomponents 1\nruns 12\n
//! ```
#![tactic(auto)]

ghost use Rattle.std.specs.Prelude.{◌≡◌, ◌≢◌, [], false, IfErr, IfOk, None, string_bytes};
ghost use Rattle.wire.specs.Causes.{Rose};
ghost use Rattle.wire.specs.Contents.{AreRead};
ghost use Rattle.moves.specs.Maps.{IsSearchable};
ghost use Rattle.path_commands.specs.declared.commands.Kind.{Kind};
ghost use Rattle.path_commands.specs.declared.status.Status.{Status};
ghost use Rattle.path_commands.specs.declared.task.Task.{Task};
ghost use Rattle.path_commands.specs.Requests.{HasSides, IsAsk, IsFollow, IsLead, IsPrinted, IsServe};
ghost use Rattle.path_commands.specs.Requests.{IsTalk, aim_of, source_of};
ghost use Rattle.path_commands.specs.Asks.{HasGivenNone, house_over};
ghost use Rattle.path_commands.specs.Words.{AreWorkers, texts_of};
ghost use Rattle.path_commands.specs.Runs.{AnswersOfMap, FailsOfMap, GivesMap, GivesNoMap, IsAnswerOn, IsDbFileCause};
ghost use Rattle.path_commands.specs.Runs.{IsFirstAnswer, IsFirstCause, IsVersionCause, MayBeDone, NeedsVersion};
ghost use Rattle.path_commands.specs.Runs.{TellsVersion, file_over, run_over};
ghost use Rattle.path_commands.specs.Serving.{PutsCause, ear_over};
ghost use Rattle.path_commands.specs.Statuses.{status_of};
ghost use Rattle.path_commands.specs.Talks.{input_over};
ghost use Rattle.path_run.specs.Answering.{PutsAnswer, bytes_of};
ghost use Rattle.path_run.specs.RunEnds.{AsksServer, FollowsLeader, LeadsSessions, Prints};
ghost use Rattle.path_run.specs.RunEnds.{ServesSessions, Talks, output_over};

mod spoken;

use moves::{Cell, Grid};
use node_commands::{follow, lead};
use path_commands::ask::ask;
use path_commands::serve::serve;
use path_commands::talk::talk;
use path_commands::{
    BuildOptions, Kind, MapAsked, MapSource, Means, Refusal, Request, Status, Task, Watch,
    answer_check, answer_made, answer_near, answer_near_path, answer_path, answer_replay,
    answer_scen, answer_verify, first_near, first_version, made_grid, put, put_file, read_grid,
    read_request, read_version, refuse, task_for,
};
pub use spoken::{frames_are_messages, speech};
use std::alloc::Global;
use std::sync::Wait;
use std::thread::Threads;
use text_lines::Text;
use versions::Version;
use wire::{Bell, Ear, Files, House, Link, Sink};

/// Does what the words of a command line ask for, and returns how it ended. The words are those after the program's own
/// name, and are read once. Each piece of a build passes the gate, which is told how far the first version is.
///
/// `talk` holds a session over the input, and prints nothing. `serve` holds sessions at doors of the house, and builds
/// at each ring of the ear; `lead` also feeds followers at one more door. `ask` connects once to the port of a server,
/// and closes the link before it prints the answer. `follow` connects once to the port of a leader, and then holds a
/// session over the input. Any other command uses none of these and prints one text: with `Done` the answer, with any
/// other status its line. Only with `WriteFault` is the text incomplete, and the output has failed.
pub fn run<
    F: Files,
    O: Sink,
    L: Link,
    H: House,
    B: Bell,
    E: Ear,
    G: Watch,
    R: Threads + Wait + Sync,
>(
    rt: &R,
    alloc: Global,
    words: &[String],
    files: &mut F,
    input: &mut L,
    out: &mut O,
    house: &mut H,
    bell: &B,
    ear: &mut E,
    gate: &G,
) -> Status
    requires unasked { (H.at house.old).asked ≡ [] }
    requires uncalled { (H.at house.old).called ≡ None }
    requires unlent { HasGivenNone (H.at house.old).lent }
    requires waiting { (E.at ear.old).over ≡ false }
    ensures printed { IsPrinted words.now → Prints
        (run_over words.now (F.at files.old) (F.at files.new))
        (output_over O.bytes O.faults out.old out.new)
        input.old input.new house.old house.new ear.old ear.new result }
    ensures talk { IsTalk words.now → Talks
        (run_over words.now (F.at files.old) (F.at files.new))
        (input_over (L.at input.old) (L.at input.new))
        out.old out.new house.old house.new ear.old ear.new result }
    ensures serve { IsServe words.now → ServesSessions
        (run_over words.now (F.at files.old) (F.at files.new))
        (house_over H.Door.at H.Conn.at (H.at house.old) (H.at house.new))
        (ear_over (E.at ear.old) (E.at ear.new))
        (output_over O.bytes O.faults out.old out.new) input.old input.new result }
    ensures ask { IsAsk words.now → AsksServer (texts_of words.now)
        (house_over H.Door.at H.Conn.at (H.at house.old) (H.at house.new))
        (output_over O.bytes O.faults out.old out.new)
        files.old files.new input.old input.new ear.old ear.new result }
    ensures lead { IsLead words.now → LeadsSessions
        (run_over words.now (F.at files.old) (F.at files.new))
        (house_over H.Door.at H.Conn.at (H.at house.old) (H.at house.new))
        (ear_over (E.at ear.old) (E.at ear.new))
        (output_over O.bytes O.faults out.old out.new) input.old input.new result }
    ensures follow { IsFollow words.now → FollowsLeader (texts_of words.now)
        (house_over H.Door.at H.Conn.at (H.at house.old) (H.at house.new))
        (input_over (L.at input.old) (L.at input.new))
        (output_over O.bytes O.faults out.old out.new)
        files.old files.new ear.old ear.new result }
{
    let means = Means {
        rt,
        alloc,
        bell,
        gate,
    };
    match read_request(alloc, words) {
        Ok(Request::OfMap(asked)) => print(alloc, answer(&means, asked, files), out),
        Ok(Request::Verify(name)) => print(alloc, verify(alloc, files, name), out),
        Ok(Request::Talk(asked)) => talk(&means, asked, files, input),
        Ok(Request::Serve(asked)) => serve(&means, asked, files, house, out, ear),
        Ok(Request::Ask(asked)) => ask(alloc, asked, out, house),
        Ok(Request::Lead(asked)) => lead(&means, asked, files, house, out, ear),
        Ok(Request::Follow(asked)) => follow(&means, asked, input, house, out),
        Err(refusal) => end_refused(alloc, out, refusal),
    }
}

/// Ends a run whose words are refused: prints the line of the status, unless the words name `talk`.
fn end_refused<O: Sink>(alloc: Global, out: &mut O, refusal: Refusal) -> Status
    ensures silent { refusal.kind ≡ Kind.Talk → out.new ≡ out.old }
    ensures status { refusal.kind ≡ Kind.Talk → result ≡ status_of refusal.error }
    ensures put { refusal.kind ≢ Kind.Talk → PutsCause
        (O.bytes out.old) (O.bytes out.new) (status_of refusal.error) result }
    ensures fault { refusal.kind ≢ Kind.Talk → result ≡ Status.WriteFault
        → Rose (O.faults out.old) (O.faults out.new) }
{
    let status = Status::from(refusal.error);
    if refusal.kind == Kind::Talk {
        return status;
    }
    refuse(alloc, out, status)
}

/// Prints an answer, or the line of its status.
fn print<O: Sink>(alloc: Global, answer: Result<Printed, Status>, out: &mut O) -> Status
    requires done { IfErr answer (λ status. status ≢ Status.Done) }
    requires write { IfErr answer (λ status. status ≢ Status.WriteFault) }
    ensures put { PutsAnswer answer (O.bytes out.old) (O.bytes out.new) result }
    ensures fault { result ≡ Status.WriteFault → Rose (O.faults out.old) (O.faults out.new) }
{
    match answer {
        Ok(Printed::Text(text)) => put(out, text.bytes(), Status::Done),
        Ok(Printed::File(version)) => put_file(out, &version),
        Err(status) => refuse(alloc, out, status),
    }
}

/// What is printed if the work is done: a text, or the file of a version.
#[derive(Drop)]
enum Printed {
    Text(Text),
    File(Version),
}

/// Returns the text with the size of the version in the file of that name.
fn verify<F: Files>(alloc: Global, files: &mut F, name: &str) -> Result<Printed, Status>
    ensures done { IfOk result (λ printed. TellsVersion
        (file_over (F.at files.old) (F.at files.new) name.now) (bytes_of printed)) }
    ensures refused { IfErr result
        (IsDbFileCause (file_over (F.at files.old) (F.at files.new) name.now)) }
{
    let version = read_version(alloc, files, name)?;
    let text = answer_verify(alloc, &version)?;
    Ok(Printed::Text(as_text(text)))
}

/// Returns the answer of the first version of a map.
fn answer<F: Files, B: Bell, G: Watch, R: Threads + Sync>(
    means: &Means<R, B, G>,
    asked: MapAsked<'_>,
    files: &mut F,
) -> Result<Printed, Status>
    requires sides { HasSides (source_of asked.source) }
    requires workers { AreWorkers asked.build.workers }
    ensures done { IfOk result (λ printed. AnswersOfMap
        (file_over (F.at files.old) (F.at files.new)) (source_of asked.entry.source)
        (aim_of asked.entry.aim) asked.entry.build.order (bytes_of printed)) }
    ensures refused { IfErr result (FailsOfMap
        (file_over (F.at files.old) (F.at files.new)) (source_of asked.entry.source)
        (aim_of asked.entry.aim) asked.entry.build.order) }
{
    let grid = grid_for(means.alloc, files, asked.source)?;
    let task = task_for(means.alloc, files, asked.aim)?;
    printed_for(means, grid, asked.build, task)
}

/// Returns the answer of the first version of a map: the file of that version, or a text.
fn printed_for<B: Bell, G: Watch, R: Threads + Sync>(
    means: &Means<R, B, G>,
    grid: Grid,
    options: BuildOptions,
    task: Task,
) -> Result<Printed, Status>
    requires small { IsSearchable grid }
    requires workers { AreWorkers options.workers }
    requires task { MayBeDone task }
    ensures done { IfOk result (λ printed. IsFirstAnswer grid options.order task (bytes_of printed)) }
    ensures refused { IfErr result (IsFirstCause grid options.order task) }
{
    match task {
        Task::Export => file_for(means, grid, options),
        task => Ok(Printed::Text(answer_for(means, grid, options, task)?)),
    }
}

/// Returns the file of the first version of a map.
fn file_for<B: Bell, G: Watch, R: Threads + Sync>(
    means: &Means<R, B, G>,
    grid: Grid,
    options: BuildOptions,
) -> Result<Printed, Status>
    requires small { IsSearchable grid }
    requires workers { AreWorkers options.workers }
    ensures done { IfOk result (λ printed.
        IsFirstAnswer grid options.order Task.Export (bytes_of printed)) }
    ensures refused { IfErr result (IsFirstCause grid options.order Task.Export) }
{
    // From its width, the map is known to be inside the limits.
    let _ = grid.width();
    let version = first_version(means, grid, options)?;
    Ok(Printed::File(version))
}

/// Returns the text of the answer of the first version of a map, built as the options say. A path needs no version, and
/// a near path the near version.
fn answer_for<B: Bell, G: Watch, R: Threads + Sync>(
    means: &Means<R, B, G>,
    grid: Grid,
    options: BuildOptions,
    task: Task,
) -> Result<Text, Status>
    requires small { IsSearchable grid }
    requires workers { AreWorkers options.workers }
    requires task { MayBeDone task }
    requires text { task ≢ Task.Export }
    ensures done { IfOk result (IsFirstAnswer grid options.order task) }
    ensures refused { IfErr result (IsFirstCause grid options.order task) }
{
    // From its width, the map is known to be inside the limits.
    let _ = grid.width();
    match task {
        Task::Path { start, goal } => {
            let text = answer_path(means.alloc, &grid, options.order, start, goal)?;
            Ok(as_text(text))
        }
        Task::Near => near_for(means, grid, options),
        Task::NearPath { start, goal } => near_path_for(means, grid, options, start, goal),
        task => {
            let version = first_version(means, grid, options)?;
            answer_on(means, version, task)
        }
    }
}

/// Returns the text with the sizes of the first version of a map and its near version.
fn near_for<B: Bell, G: Watch, R: Threads + Sync>(
    means: &Means<R, B, G>,
    grid: Grid,
    options: BuildOptions,
) -> Result<Text, Status>
    requires small { IsSearchable grid }
    requires workers { AreWorkers options.workers }
    ensures done { IfOk result (IsFirstAnswer grid options.order Task.Near) }
    ensures refused { IfErr result (IsFirstCause grid options.order Task.Near) }
{
    // From its width, the map is known to be inside the limits.
    let _ = grid.width();
    let near = first_near(means, grid, options)?;
    let text = answer_near(means.alloc, &near)?;
    Ok(as_text(text))
}

/// Returns the text of the near walk between two cells of a map, or of no path.
fn near_path_for<B: Bell, G: Watch, R: Threads + Sync>(
    means: &Means<R, B, G>,
    grid: Grid,
    options: BuildOptions,
    start: Cell,
    goal: Cell,
) -> Result<Text, Status>
    requires small { IsSearchable grid }
    requires workers { AreWorkers options.workers }
    ensures done { IfOk result (IsFirstAnswer grid options.order (Task.NearPath start goal)) }
    ensures refused { IfErr result (IsFirstCause grid options.order (Task.NearPath start goal)) }
{
    // From its width, the map is known to be inside the limits.
    let _ = grid.width();
    let near = first_near(means, grid, options)?;
    let text = answer_near_path(means.alloc, &near, start, goal)?;
    Ok(as_text(text))
}

/// Returns the map that a source gives.
fn grid_for<F: Files>(alloc: Global, files: &mut F, source: MapSource<'_>) -> Result<Grid, Status>
    requires { HasSides (source_of source) }
    ensures grid { IfOk result
        (GivesMap (file_over (F.at files.old) (F.at files.new)) (source_of source.entry)) }
    ensures small { IfOk result IsSearchable }
    ensures read { AreRead (F.at files.old) (F.at files.new) }
    ensures refused { IfErr result
        (GivesNoMap (file_over (F.at files.old) (F.at files.new)) (source_of source.entry)) }
{
    match source {
        MapSource::File(name) => read_grid(alloc, files, name),
        MapSource::Formula { sides, seed } => made_grid(alloc, sides, seed),
    }
}

/// Returns the text of the version's answer.
fn answer_on<B: Bell, G: Watch, R: Threads + Sync>(
    means: &Means<R, B, G>,
    version: Version,
    task: Task,
) -> Result<Text, Status>
    requires unedited { version.prefix ≡ 0 }
    requires version { NeedsVersion task }
    requires task { MayBeDone task }
    ensures done { IfOk result (IsAnswerOn version task) }
    ensures refused { IfErr result (IsVersionCause version task) }
{
    let alloc = means.alloc;
    match task {
        Task::Check => Ok(as_text(answer_check(alloc, &version)?)),
        Task::Scen(lines) => Ok(as_text(answer_scen(means, &version, lines.as_slice())?)),
        Task::Made { seed } => Ok(as_text(answer_made(alloc, &version, seed)?)),
        Task::Replay(events) => Ok(answer_replay(alloc, version, &events)?),
        Task::Path { .. } | Task::Near | Task::NearPath { .. } | Task::Export => unreachable!(),
    }
}

/// Returns the bytes of a string.
fn as_text(text: String) -> Text
    ensures { result ≡ string_bytes text }
{
    Text::new(text.into_bytes())
}
