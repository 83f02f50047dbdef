//! The program `path_server`: exact best paths on grid maps, from the words of a command line to
//! the printed answer.
#![tactic(auto)]

mod watcher;

use path_commands::{
    Seen, Status, advice, argument_advice, command_words, exit_code, is_printed_name, refuse,
};
use path_run::{run, speech};
use std::env::{Env, FillError};
use std::io::IsTerminal;
use std::process::ExitCode;
use std::sync::atomic::AtomicU64;
use std::{env, io};
use watcher::Watcher;
use wire::{Hands, HostFiles, Journal, Showing, StdLink, StdSink, TcpHouse, ToldBell, put_error};

/// No name of a command has more bytes.
const NAME_ROOM: usize = 16;

/// The environment variable that turns log messages for the operator on, if it is 1.
const LOG: &str = "PATH_SERVER_LOG";

/// The environment variable that turns the display of a build's progress on, if it is 1.
const PROGRESS: &str = "PATH_SERVER_PROGRESS";

/// The room for a value of these variables. A longer value is not 1.
const SETTING_ROOM: usize = 2;

/// Runs the command over the system's files, standard input and standard output, and prints advice on
/// standard error if it ends with a status other than `Done`. If the arguments cannot be read, nothing is
/// printed on standard output unless the command is known not to be `talk`.
fn main(rt: HostRuntime) -> ExitCode {
    let mut files = HostFiles::new(&rt);
    let mut out = StdSink::new(&rt);
    let (hands, lost) = (Hands::new(), AtomicU64::new(0));
    let arguments = arguments(&rt);
    let speaker = speaker(&arguments);
    let mut house = TcpHouse::new(journal(&rt, speaker, &lost), speech(), &hands);
    let status = match command_words(&arguments) {
        Ok(words) => {
            let watcher = Watcher::new(&rt, showing(&rt));
            let bell = ToldBell::new(journal(&rt, speaker, &lost), &hands);
            let status = run(
                &rt,
                rt.alloc(),
                words,
                &mut files,
                &mut StdLink::new(&rt),
                &mut out,
                &mut house,
                &bell,
                &mut bell.ear(),
                &watcher,
            );
            tell_remarks(&rt, watcher);
            tell_advice(&rt, words, &status, seen(&files, &house));
            status
        }
        Err(error) => {
            tell(&rt, argument_advice(error));
            let status = Status::from(error);
            if names_printed(&rt) {
                refuse(rt.alloc(), &mut out, status)
            } else {
                status
            }
        }
    };
    exit_code(&status)
}

/// The log for the operator, whose lines start with the name of this speaker.
fn journal<'a>(
    rt: &'a HostRuntime,
    speaker: &'static str,
    lost: &'a AtomicU64,
) -> Journal<'a, HostRuntime> {
    Journal::of(speaker, rt, is_logged(rt), lost)
}

/// The name at the start of log lines.
fn speaker(arguments: &io::Result<Vec<String>>) -> &'static str {
    let Ok(words) = arguments else {
        return "path_server";
    };
    match words.get(1).map(|word| word.as_str()) {
        Some("serve") => "path_server serve",
        Some("lead") => "path_server lead",
        _ => "path_server",
    }
}

/// What was seen of the files and the ports.
fn seen(files: &HostFiles<'_, HostRuntime>, house: &TcpHouse<'_, HostRuntime>) -> Seen {
    Seen {
        reason: files.reason(),
        files: files.glimpse(),
        refusal: house.refusal(),
    }
}

/// Prints the remarks of a command that has ended.
fn tell_remarks(rt: &HostRuntime, watcher: Watcher<'_, HostRuntime>) {
    if let Some(lines) = watcher.remarks() {
        tell(rt, lines.as_str());
    }
}

/// Prints advice on how a command ended.
fn tell_advice(rt: &HostRuntime, words: &[String], status: &Status, seen: Seen) {
    if let Ok(text) = advice(rt.alloc(), words, status, seen) {
        tell(rt, text.as_str());
    }
}

/// Whether the first argument, of arguments that could not all be read, is the name of a command that
/// prints a line on standard output. `talk` prints nothing there, and what may be `talk` does not count.
fn names_printed(rt: &HostRuntime) -> bool {
    let mut name = [0; NAME_ROOM];
    match rt.arg(1, &mut name) {
        Ok(size) => is_printed_name(&name[..size]),
        Err(_) => false,
    }
}

/// Whether log messages are printed on standard error: as the environment says, or else if that is a
/// terminal.
fn is_logged(rt: &HostRuntime) -> bool {
    setting(rt, LOG).unwrap_or(rt.stderr().is_terminal())
}

/// How the progress of a build is shown on standard error: on one line that is rewritten if that is a
/// terminal, unless the environment turns it off, and elsewhere as lines if the environment turns it on.
fn showing(rt: &HostRuntime) -> Showing {
    match setting(rt, PROGRESS) {
        Some(false) => Showing::Never,
        _ if rt.stderr().is_terminal() => Showing::Rewritten,
        Some(true) => Showing::Lines,
        None => Showing::Never,
    }
}

/// Whether the environment variable of that name is 1, or `None` if it is not set.
fn setting(rt: &HostRuntime, name: &str) -> Option<bool> {
    let mut value = [0; SETTING_ROOM];
    match rt.var(name, &mut value) {
        Ok(size) => Some(size == 1 && value[0] == b'1'),
        Err(FillError::TooLong) => Some(false),
        Err(FillError::NotPresent) => None,
    }
}

/// Prints a text on standard error. A failure to do so is ignored.
fn tell(rt: &HostRuntime, text: &str) {
    put_error(rt, text);
}

/// All arguments, the program's own name first.
fn arguments(rt: &HostRuntime) -> io::Result<Vec<String>> {
    Ok(env::args(rt)?.collect(rt.alloc())?)
}
