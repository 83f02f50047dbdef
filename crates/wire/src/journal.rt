//! Log lines for the operator, on standard error.

use crate::stderr::put_error_line;
use std::fmt;
use std::fmt::{Display, Formatter};
use std::io::Eprint;
use std::sync::atomic::{AtomicU64, Ordering};
use thiserror::Error;

/// The log for the operator, on standard error if it is wanted. Each line starts with the name of the program that
/// writes it. A line that standard error does not take at once is lost; the next line that it takes, from any journal
/// with the same count, says how many were lost.
#[derive(Drop)]
pub struct Journal<'a, R> {
    rt: &'a R,
    kept: bool,
    speaker: &'static str,
    lost: &'a AtomicU64,
}

/// The log line that says how many lines were lost.
#[derive(Debug, Clone, Copy, Error)]
#[error("standard error took no lines for a while; lost before this one: {lost}")]
struct Lost {
    lost: u64,
}

/// A line after the name of its program.
#[derive(Drop)]
struct Said<D> {
    speaker: &'static str,
    line: D,
}

impl<D: Display> Display for Said<D> {
    fn fmt<W: fmt::Write>(&self, f: &mut Formatter<W>) -> fmt::Result {
        write!(f, "{}: {}", self.speaker, self.line)
    }
}

/// The plural ending of a word for `count` things.
pub(crate) fn plural(count: u64) -> &'static str {
    if count == 1 { "" } else { "s" }
}

impl<'a, R: Eprint> Journal<'a, R> {
    /// A journal with this name, kept or not, through this runtime, with a count of lost lines.
    pub fn of(speaker: &'static str, rt: &'a R, kept: bool, lost: &'a AtomicU64) -> Journal<'a, R> {
        Journal {
            rt,
            kept,
            speaker,
            lost,
        }
    }

    /// Another journal, kept if this one is.
    pub(crate) fn another(&self) -> Journal<'a, R> {
        Journal::of(self.speaker, self.rt, self.kept, self.lost)
    }

    /// The runtime.
    pub(crate) fn rt(&self) -> &'a R {
        self.rt
    }

    /// Writes a line if the journal is kept.
    pub fn note<D: Display + Drop>(&self, line: D) {
        if self.kept {
            self.tell(line);
        }
    }

    /// Writes a line even if the journal is not kept. It never waits: a line that is not taken is counted.
    pub(crate) fn tell<D: Display + Drop>(&self, line: D) {
        let lost = self.lost.swap(0, Ordering::SeqCst);
        if lost != 0 && !self.put(Lost { lost }) {
            self.lost.fetch_add(lost, Ordering::SeqCst);
        }
        if !self.put(line) {
            self.lost.fetch_add(1, Ordering::SeqCst);
        }
    }

    /// Writes a line to standard error, and says whether that took it.
    fn put<D: Display + Drop>(&self, line: D) -> bool {
        put_error_line(
            self.rt,
            Said {
                speaker: self.speaker,
                line,
            },
        )
    }
}
