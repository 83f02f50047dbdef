//! Writes to standard error that do not wait.

use libc::net::{POLLOUT, poll};
use libc::types::pollfd;
use std::fmt::Display;
use std::io::Eprint;

/// The descriptor of standard error.
const STANDARD_ERROR: i32 = 2;

/// Writes a text to standard error, if that takes it without waiting, and says whether it was written. A text longer
/// than a page may still wait for a reader that takes none.
pub fn put_error<R: Eprint, D: Display + Drop>(rt: &R, text: D) -> bool {
    is_free() && rt.eprint(text).is_ok()
}

/// The same for a line.
pub(crate) fn put_error_line<R: Eprint, D: Display + Drop>(rt: &R, line: D) -> bool {
    is_free() && rt.eprintln(line).is_ok()
}

/// Whether standard error takes a line without waiting.
fn is_free() -> bool {
    let mut asked = [pollfd {
        fd: STANDARD_ERROR,
        events: POLLOUT,
        revents: 0,
    }];
    poll(asked.as_mut_slice(), 0) == 1 && asked[0].revents == POLLOUT
}
