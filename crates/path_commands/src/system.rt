//! Where the program meets the system: its arguments and its exit status.

ghost use Rattle.std.specs.Prelude.{◌≡◌, ◌≢◌, IsTrue, codes, drop};
ghost use Rattle.std.specs.Process.{exit_status};
ghost use Rattle.path_commands.specs.Statuses.{status_code};
ghost use Rattle.path_commands.specs.System.{AreWordsOf, IsErrorOf};

use crate::commands::Verb;
use crate::request::RequestError;
use crate::status::Status;
use std::io;
use std::io::ErrorKind;
use std::process::ExitCode;

/// Returns the words of the command line: the arguments after the program's own name. Fails if
/// memory ran out, or if an argument is not UTF-8 text, which no command takes.
pub fn command_words(arguments: &io::Result<Vec<String>>) -> Result<&[String], RequestError>
    ensures { AreWordsOf arguments.now result }
{
    match arguments {
        Ok(arguments) => Ok(behind_first(arguments.as_slice())),
        Err(error) => Err(argument_error(error)),
    }
}

/// Returns whether this is the name of a command that prints a line on standard output when its
/// words are refused: any except `talk`.
pub fn is_printed_name(name: &[u8]) -> bool
    ensures { IsTrue result → name.now ≢ codes "talk" }
{
    name != b"talk".as_slice() && Verb::ALL.iter().any(|verb| verb.name().as_bytes() == name)
}

/// Returns all words but the first.
fn behind_first(words: &[String]) -> &[String]
    ensures { result.now ≡ drop 1 words.now }
{
    match words {
        [] => words,
        [_, rest @ ..] => rest,
    }
}

/// Returns why the arguments were not read.
fn argument_error(error: &io::Error) -> RequestError
    ensures { IsErrorOf error.now result }
{
    match error.kind() {
        ErrorKind::OutOfMemory => RequestError::NoMemory,
        _ => RequestError::Usage,
    }
}

/// Returns the exit status of the process.
pub fn exit_code(status: &Status) -> ExitCode
    ensures { exit_status result ≡ status_code status.now }
{
    ExitCode::from(status.code())
}
