//! The advice on standard error that goes with the line on standard output: the usage of the program, and otherwise the
//! main program's advice for its command `export` with the same words.
ghost use Rattle.std.specs.Prelude.{◌≡◌, [], IfOk, string_bytes};
ghost use Rattle.bake_run.specs.Baking.{usage_text};

use crate::asking::ask_words;
use path_commands::{Seen, Status};
use std::alloc::{AllocError, Global};

/// The name of the program.
const NAME: &str = "path_bake";

/// The name of the main program.
const MAIN_NAME: &str = "path_server";

/// What follows that name in advice on its command `export`.
const MAIN_COMMAND: &str = " export";

/// The help page after its first line.
const BEHIND_USAGE: &str = "    \
writes an image of the map's database, from which paths are read, to standard output

  MAP       the map, in MovingAI format: a file name
  --order   the order of the cells in the database: rows or dfs (default: rows)
  --workers how many threads build it: a number from 1 to 64 (default: 1)

example:
    path_bake maps/tutorial.map --workers 4 > tutorial.image

environment:
  PATH_SERVER_PROGRESS=1   print the progress of the build on standard error every few seconds;
                           on at a terminal unless the variable has another value

exit status:
  0  done                                  6  the output failed
  1  invalid command line                  7  out of memory
  2  invalid map                           8  the file is too long
  5  the file was not read
";

/// Returns the usage line.
pub(crate) fn usage() -> &'static str
    ensures { result.now ≡ usage_text }
{
    "usage: path_bake MAP [--order rows|dfs] [--workers N]\n"
}

/// Returns the advice for a run with these words and this status, using what was seen of its files and ports. The text
/// is empty if the run succeeded, and otherwise ends with a line feed.
pub fn advice(
    alloc: Global,
    words: &[String],
    status: &Status,
    seen: Seen,
) -> Result<String, AllocError>
    ensures { status.now ≡ Status.Done → IfOk result (λ text. string_bytes text ≡ []) }
{
    match status {
        Status::Done => Ok(String::new(alloc)),
        Status::Usage => usage_advice(alloc, words),
        // These texts begin with the name of the map file.
        Status::Map(_) | Status::TooLong { .. } => told_by_main(alloc, words, status, seen),
        _ => in_own_name(alloc, told_by_main(alloc, words, status, seen)?.as_str()),
    }
}

/// Returns a text of the main program, with this program's name in place of the main one's at its start.
pub fn in_own_name(alloc: Global, told: &str) -> Result<String, AllocError> {
    match told.strip_prefix(MAIN_NAME) {
        Some(rest) => joined(alloc, NAME, rest.strip_prefix(MAIN_COMMAND).unwrap_or(rest)),
        None => String::from_str(alloc, told),
    }
}

/// Returns the advice for words that are refused: which of them is wrong. A request for help gets the help page.
fn usage_advice(alloc: Global, words: &[String]) -> Result<String, AllocError> {
    if asks_for_help(words) {
        return joined(alloc, usage(), BEHIND_USAGE);
    }
    if asks_for_version(words) {
        let told = path_commands::advice(alloc, words, &Status::Usage, Seen::NOTHING)?;
        return in_own_name(alloc, told.as_str());
    }
    let told = told_by_main(alloc, words, &Status::Usage, Seen::NOTHING)?;
    let mut text = in_own_name(alloc, told.as_str().lines().next().unwrap_or(""))?;
    text.push_str("\n")?;
    text.push_str(usage())?;
    Ok(text)
}

/// Returns the main program's advice for its command `export` with these words.
fn told_by_main(
    alloc: Global,
    words: &[String],
    status: &Status,
    seen: Seen,
) -> Result<String, AllocError> {
    let words = ask_words(alloc, words)?;
    path_commands::advice(alloc, words.as_slice(), status, seen)
}

/// Returns whether there are no words, or one of them asks for help.
fn asks_for_help(words: &[String]) -> bool {
    words.is_empty()
        || words
            .iter()
            .any(|word| matches!(word.as_str(), "--help" | "-h"))
}

/// Returns whether the first word asks which version of the program this is.
fn asks_for_version(words: &[String]) -> bool {
    match words.first() {
        Some(word) => matches!(word.as_str(), "--version" | "-V"),
        None => false,
    }
}

/// Returns the first text followed by the second.
fn joined(alloc: Global, first: &str, second: &str) -> Result<String, AllocError> {
    let mut text = String::from_str(alloc, first)?;
    text.push_str(second)?;
    Ok(text)
}
