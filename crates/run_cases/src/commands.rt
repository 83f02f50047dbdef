//! What the words of a command line ask for, and what a person is told of how they ended.

use case_kit::{Refusal, escaped, unescaped};
use path_commands::{RequestError, Seen, Status, advice, read_request};
use std::alloc::{AllocError, Global};

/// The words of a line, with blanks between them.
pub fn words_of(alloc: Global, line: &str) -> Result<Vec<String>, Refusal> {
    let mut words = Vec::new(alloc);
    for word in line.split_terminator(' ') {
        words.push(word_of(alloc, word)?).map_err(AllocError::from)?;
    }
    Ok(words)
}

/// The word that stands for itself but for its escapes, and `''` for the empty word.
fn word_of(alloc: Global, text: &str) -> Result<String, Refusal> {
    if text == "''" {
        return Ok(String::new(alloc));
    }
    String::from_utf8(unescaped(alloc, text)?).map_err(|_| Refusal::OutOfForm)
}

/// What words ask for: `command | WORDS`.
pub fn command_said(alloc: Global, line: &str) -> Result<String, Refusal> {
    let words = words_of(alloc, line)?;
    match read_request(alloc, words.as_slice()) {
        Ok(request) => Ok(format!(in alloc; "{request:?}")?),
        Err(refusal) => match refusal.error {
            RequestError::Usage => Ok(String::from_str(alloc, "usage")?),
            RequestError::NoMemory => Err(Refusal::NoMemory),
        },
    }
}

/// What is told on standard error of a run that ended so: `advice | STATUS | WORDS`.
pub fn advice_said(alloc: Global, input: &str) -> Result<String, Refusal> {
    let (name, line) = input.split_once(" | ").ok_or(Refusal::OutOfForm)?;
    let status = status_named(name)?;
    let words = words_of(alloc, line)?;
    let text = advice(alloc, words.as_slice(), &status, Seen::NOTHING)?;
    if text.is_empty() {
        return Ok(String::from_str(alloc, "nothing")?);
    }
    Ok(escaped(alloc, text.as_bytes())?)
}

/// The status with that name, of those that have no fields.
fn status_named(name: &str) -> Result<Status, Refusal> {
    match name {
        "Done" => Ok(Status::Done),
        "Usage" => Ok(Status::Usage),
        "ReadFault" => Ok(Status::ReadFault),
        "WriteFault" => Ok(Status::WriteFault),
        "NoMemory" => Ok(Status::NoMemory),
        "BadAnswer" => Ok(Status::BadAnswer),
        "LeaderMemory" => Ok(Status::LeaderMemory),
        _ => Err(Refusal::OutOfForm),
    }
}
