//! The settings of a run: what stands in its files, what comes in, and what fails.

use case_kit::{Fields, Refusal, numbers_in};
use std::alloc::{AllocError, Global};

/// The settings that a run may have:
///
/// - `rows ROWS`: the file `M` is the map with these rows, with `/` between them; `M BYTES`: it has these bytes. With
///   neither it is empty;
/// - `S BYTES`: the file `S`;
/// - `input BYTES`: what comes in on the input; `held BYTES`: what was put on the output before;
/// - `door BYTES`, `next-door BYTES`: the house has one or two doors at port 4000, with one connection each, on which
///   these bytes come in; `feed BYTES`: it has such a door at port 4001; with `closed` in place of the bytes there is
///   no connection;
/// - `link BYTES`, `leader BYTES`: it has a link at port 4000, or at port 4001, on which these bytes come in;
/// - `piece N`: of the input, and of links and connections, so many bytes come in at once at most;
/// - `read-fails N ..`, `put-fails N ..`, `recv-fails N ..`, `send-fails N ..`, `knock-fails N ..`, `house-fails N ..`:
///   which reads of files, puts, recvs and sends of the input and of the link, knocks and calls of the house fail.
const NAMES: [&str; 17] = [
    "rows",
    "M",
    "S",
    "input",
    "held",
    "door",
    "next-door",
    "feed",
    "link",
    "leader",
    "piece",
    "read-fails",
    "put-fails",
    "recv-fails",
    "send-fails",
    "knock-fails",
    "house-fails",
];

/// The settings of a run, which a line has behind its words, with ` | ` between any two; each is a name and its value.
#[derive(Clone, Copy, Debug)]
pub struct Settings<'a> {
    text: &'a str,
}

impl<'a> Settings<'a> {
    /// The settings that a text names, which may be empty.
    pub fn of(text: &'a str) -> Result<Settings<'a>, Refusal> {
        for setting in text.split(" | ") {
            let (name, _) = taken_apart(setting);
            if !name.is_empty() && !NAMES.contains(&name) {
                return Err(Refusal::OutOfForm);
            }
        }
        Ok(Settings { text })
    }

    /// The value of the setting with that name, if there is one.
    pub fn value(&self, name: &str) -> Option<&'a str> {
        for setting in self.text.split(" | ") {
            let (its_name, value) = taken_apart(setting);
            if its_name == name {
                return Some(value);
            }
        }
        None
    }

    /// The bytes of the setting with that name; none where there is no such setting.
    pub fn bytes(&self, alloc: Global, name: &str) -> Result<Vec<u8>, Refusal> {
        Fields::of(self.value(name).unwrap_or("-")).bytes(alloc)
    }

    /// The numbers of the setting with that name; none where there is no such setting.
    pub fn numbers(&self, alloc: Global, name: &str) -> Result<Vec<u64>, Refusal> {
        let mut numbers = Vec::new(alloc);
        for number in numbers_in(alloc, self.value(name).unwrap_or("-"))?.iter() {
            numbers.push(u64::from(*number)).map_err(AllocError::from)?;
        }
        Ok(numbers)
    }
}

/// The name of a setting and its value.
fn taken_apart(setting: &str) -> (&str, &str) {
    setting.split_once(' ').unwrap_or((setting, ""))
}
