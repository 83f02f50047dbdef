//! The program `path_bake`: the image of a map's database, from the words of a command line to standard output.
#![tactic(auto)]

mod watcher;

use bake_run::{advice, in_own_name, refuse, run};
use path_commands::{Seen, Status, argument_advice, command_words, exit_code};
use std::env::{Env, FillError};
use std::io::IsTerminal;
use std::process::ExitCode;
use std::{env, io};
use watcher::Watcher;
use wire::{HostFiles, Showing, StdSink};

/// The environment variable that says whether it is shown how far the build is: 1, or anything else. It is that of the
/// main program.
const PROGRESS: &str = "PATH_SERVER_PROGRESS";

/// A longer value of it is not 1.
const SETTING_ROOM: usize = 2;

/// Puts the image that the words ask for on standard output, and tells on standard error what a person may do about an
/// end other than `Done`.
fn main(rt: HostRuntime) -> ExitCode {
    let mut files = HostFiles::new(&rt);
    let mut out = StdSink::new(&rt);
    let watcher = Watcher::new(&rt, showing(&rt));
    let arguments = arguments(&rt);
    let status = match command_words(&arguments) {
        Ok(words) => {
            let status = run(&rt, rt.alloc(), words, &mut files, &mut out, &watcher);
            tell(&rt, advice(rt.alloc(), words, &status, seen(&files)).ok());
            status
        }
        Err(error) => {
            tell(&rt, in_own_name(rt.alloc(), argument_advice(error)).ok());
            refuse(rt.alloc(), &mut out, Status::from(error))
        }
    };
    exit_code(&status)
}

/// What was seen outside.
fn seen(files: &HostFiles<'_, HostRuntime>) -> Seen {
    Seen {
        reason: files.reason(),
        files: files.glimpse(),
        refusal: None,
    }
}

/// How it is shown on standard error how far the build is: by a line that is rewritten where that is a terminal, unless
/// the environment says that it is not to be, and elsewhere where that says so.
fn showing(rt: &HostRuntime) -> Showing {
    match setting(rt, PROGRESS) {
        Some(false) => Showing::Never,
        _ if rt.stderr().is_terminal() => Showing::Rewritten,
        Some(true) => Showing::Lines,
        None => Showing::Never,
    }
}

/// Whether the environment variable of that name is 1, where it is set.
fn setting(rt: &HostRuntime, name: &str) -> Option<bool> {
    let mut value = [0; SETTING_ROOM];
    match rt.var(name, &mut value) {
        Ok(size) => Some(size == 1 && value[0] == b'1'),
        Err(FillError::TooLong) => Some(false),
        Err(FillError::NotPresent) => None,
    }
}

/// Puts a text on standard error, where there was memory for it. Nothing is left to do where it takes none.
fn tell(rt: &HostRuntime, text: Option<String>) {
    if let Some(text) = text {
        let _ = eprint!(rt; "{text}");
    }
}

/// All arguments, of which the first is the program's own name.
fn arguments(rt: &HostRuntime) -> io::Result<Vec<String>> {
    Ok(env::args(rt)?.collect(rt.alloc())?)
}
