//! Runs events, one after the other.

ghost use Rattle.std.specs.Prelude.{◌≡◌, ◌++◌, ◌<◌, [], IfOk, OnOk, OnErr, string_bytes};
ghost use Rattle.path_replay.specs.declared.TheConstants.{PASSES};
ghost use Rattle.path_replay.specs.Events.{HavePasses, pass_of};
ghost use Rattle.path_replay.specs.Replays.{IsCut, IsReplay, IsHalted, IsSubmitted, MayBeReplayed};
ghost use Rattle.path_replay.specs.Texts.{reply_text};
ghost use Rattle.path_replay.specs.Inside.{AddsLine, AddsSaid, AreFresh, ArePasses, Grows};
ghost use Rattle.path_replay.specs.Inside.{IsCutOff, IsCutShort, IsReplayable, IsSound};

use crate::PASSES;
use crate::event::Event;
use crate::events::Events;
use crate::pass::Pass;
use crate::reply::Reply;
use cell_order::OrderKind;
use edit_log::Edit;
use path_core::{Board, SubmitError};
use std::alloc::{AllocError, Global};
use std::fmt::Write;
use text_lines::Text;

/// Runs the events on a board that has no entries, and gives the lines that they print: one for each event.
///
/// The board's versions have the order `kind`, and each pass is below [`PASSES`].
///
/// # Errors
///
/// `AllocError` where memory runs out. The board has the history then that the first of the events leave, up to some
/// event.
pub fn run_events(
    alloc: Global,
    board: &mut Board,
    kind: OrderKind,
    events: &Events,
) -> Result<Text, AllocError>
    requires board { MayBeReplayed board.old kind }
    requires passes { HavePasses events.now }
    ensures replay { IfOk result (λ text. IsReplay board.old events.now text board.new) }
    ensures refused { OnErr result (IsCut board.old events.now board.new) }
    ensures start { board.new.start ≡ board.old.start }
    ensures order { board.new.order ≡ board.old.order }
    ensures room { board.new.room ≡ board.old.room }
{
    let mut passes = passes_of(alloc, board)?;
    let mut text = String::new(alloc);
    for place in 0..events.len() {
        let event = events.get(place).unwrap();
        run_event(alloc, board, &mut passes, &event, &mut text)?;
    }
    Ok(Text::new(text.into_bytes()))
}

/// The passes of a replay before its first event.
fn passes_of(alloc: Global, board: &Board) -> Result<Vec<Pass>, AllocError>
    requires { board.now.history ≡ [] }
    ensures { IfOk result (λ passes. AreFresh board.now passes.items) }
{
    // That the version is the first one is known from here.
    board.version();
    let mut passes = Vec::with_capacity(alloc, PASSES as usize)?;
    for _ in 0..PASSES {
        passes.push(Pass::new(board)?)?;
    }
    Ok(passes)
}

/// Runs one event, and adds its line.
fn run_event(
    alloc: Global,
    board: &mut Board,
    passes: &mut Vec<Pass>,
    event: &Event,
    text: &mut String,
) -> Result<(), AllocError>
    requires pass { pass_of event.now < PASSES }
    requires passes { ArePasses board.old passes.old.items }
    ensures line { OnOk result (AddsLine board.old passes.old.items event.now board.new passes.new.items
        (string_bytes text.old) (string_bytes text.new)) }
    ensures passes { OnOk result (ArePasses board.new passes.new.items) }
    ensures grows { Grows board.old board.new }
    ensures refused { OnErr result (IsCutOff board.old passes.old.items event.now board.new) }
{
    let number = event.pass();
    write!(text, "{number} ")?;
    say(alloc, board, &mut passes[number as usize], event, text)?;
    text.push_str("\n")?;
    Ok(())
}

/// Runs one event of a pass, and adds what is said of it.
fn say(
    alloc: Global,
    board: &mut Board,
    pass: &mut Pass,
    event: &Event,
    text: &mut String,
) -> Result<(), AllocError>
    requires sound { IsSound board.old pass.old }
    requires replayable { IsReplayable board.old }
    ensures said { OnOk result (AddsSaid board.old pass.old event.now board.new pass.new
        (string_bytes text.old) (string_bytes text.new)) }
    ensures sound { OnOk result (IsSound board.new pass.new) }
    ensures replayable { OnOk result (IsReplayable board.new) }
    ensures grows { Grows board.old board.new }
    ensures refused { OnErr result (IsCutShort board.old pass.old event.now board.new) }
{
    match *event {
        Event::Submit { pass, edit } => push_reply(text, submit(board, pass, edit)?),
        Event::Look { .. } => push_reply(text, pass.look(board)?),
        Event::Query { start, goal, .. } => pass.query(text, start, goal),
        Event::Begin { .. } => push_reply(text, pass.begin(alloc, board)?),
        Event::Row { .. } => push_reply(text, pass.row()?),
        Event::Publish { pass: number } => push_reply(text, pass.publish(alloc, board, number)?),
        Event::Halt { pass } => push_reply(text, halt(board, pass)?),
    }
}

/// Adds a reply.
fn push_reply(text: &mut String, reply: Reply) -> Result<(), AllocError>
    ensures { OnOk result (string_bytes text.new ≡ string_bytes text.old ++ reply_text reply) }
{
    write!(text, "{reply}")
}

/// Submits an edit.
fn submit(board: &mut Board, pass: u32, edit: Edit) -> Result<Reply, AllocError>
    requires replayable { IsReplayable board.old }
    ensures reply { IfOk result (λ reply.
        IsSubmitted board.old.start board.old.history pass edit reply board.new.history) }
    ensures replayable { OnOk result (IsReplayable board.new) }
    ensures grows { OnOk result (Grows board.old board.new) }
    ensures refused { OnErr result (board.new ≡ board.old) }
{
    match board.submit(pass, edit) {
        Ok(count) => Ok(Reply::Accepted { count }),
        Err(SubmitError::Refused(why)) => Ok(Reply::Refused(why)),
        Err(SubmitError::NoMemory) => Err(AllocError),
    }
}

/// Halts the board.
fn halt(board: &mut Board, pass: u32) -> Result<Reply, AllocError>
    ensures reply { IfOk result (λ reply.
        IsHalted board.old.history pass reply board.new.history) }
    ensures grows { OnOk result (Grows board.old board.new) }
    ensures refused { OnErr result (board.new ≡ board.old) }
{
    if board.halt(pass)? {
        Ok(Reply::Halting)
    } else {
        Ok(Reply::Halted)
    }
}
