//! How far a build is, on standard error.
ghost use Rattle.std.specs.Prelude.{◌≡◌, ◌<◌, ◌+◌, ◌-◌, ◌*◌, ◌/◌, ◌^◌, min, IsTrue, ◌↔◌};
ghost use Rattle.wire.specs.Showings.{first_after, next_after};

use crate::stderr::{put_error, put_error_line};
use crate::ticks::millis_since;
use std::io::Eprint;
use std::sync::atomic::{AtomicBool, AtomicU64, Ordering};
use std::time::{Clock, Instant};
use thiserror::Error;

/// How long a build runs before a line that is rewritten is shown, in milliseconds.
pub const PROGRESS_AFTER: u64 = 500;

/// How long that line stays before it is rewritten, in milliseconds.
pub const PROGRESS_TICK: u64 = 200;

/// The time from one line to the next when each is a line of its own, in milliseconds.
pub const PROGRESS_LINE: u64 = 3_000;

/// The clock is read once in this many rows, since small components have theirs in no time.
const ROWS_A_LOOK: u64 = 64;

/// The time of a line that never comes.
const NEVER: u64 = u64::MAX;

/// How progress is shown.
#[derive(Debug, Clone, Copy, PartialEq, Eq)]
pub enum Showing {
    /// Not at all.
    Never,
    /// By a line every few seconds.
    Lines,
    /// By one line that is rewritten, and cleared at the end, as a terminal can.
    Rewritten,
}

impl Showing {
    /// How long a build runs before its first line.
    fn after(self) -> u64
        ensures { result ≡ first_after self }
    {
        match self {
            Showing::Never => NEVER,
            Showing::Lines => PROGRESS_LINE,
            Showing::Rewritten => PROGRESS_AFTER,
        }
    }

    /// The time from one line to the next.
    fn tick(self) -> u64
        ensures { result ≡ next_after self }
    {
        match self {
            Showing::Never => NEVER,
            Showing::Lines => PROGRESS_LINE,
            Showing::Rewritten => PROGRESS_TICK,
        }
    }
}

/// How far a build is: how many rows it has, how many of them are built, and since when. Threads share it. Times are in
/// milliseconds since it was made.
#[derive(Drop)]
pub struct Progress<'a, R> {
    rt: &'a R,
    name: &'static str,
    showing: Showing,
    made: Option<Instant>,
    rows: AtomicU64,
    built: AtomicU64,
    begun: AtomicU64,
    due: AtomicU64,
    is_shown: AtomicBool,
}

/// The text of a line, with times in seconds.
#[derive(Debug, Clone, Copy, Error)]
#[error("{name}: {built} of {rows} rows, {gone} s gone, {left} s left")]
struct Told {
    name: &'static str,
    built: u64,
    rows: u64,
    gone: u64,
    left: u64,
}

/// A line that replaces the terminal's last line.
#[derive(Debug, Clone, Copy, Error)]
#[error("\r{told}\x1b[K")]
struct InPlace {
    told: Told,
}

/// Clears the terminal's last line.
#[derive(Debug, Clone, Copy, Error)]
#[error("\r\x1b[K")]
struct Cleared;

impl<'a, R: Clock + Eprint> Progress<'a, R> {
    /// The progress of no build yet, shown through this runtime under this program's name.
    pub fn new(rt: &'a R, name: &'static str, showing: Showing) -> Progress<'a, R> {
        Progress {
            rt,
            name,
            showing,
            made: Instant::now(rt).ok(),
            rows: AtomicU64::new(0),
            built: AtomicU64::new(0),
            begun: AtomicU64::new(0),
            due: AtomicU64::new(NEVER),
            is_shown: AtomicBool::new(false),
        }
    }

    /// Begins a build of `rows` rows.
    pub fn begin(&self, rows: u32) {
        let now = self.now();
        self.rows.store(u64::from(rows), Ordering::SeqCst);
        self.built.store(0, Ordering::SeqCst);
        self.begun.store(now, Ordering::SeqCst);
        self.due
            .store(later(now, self.showing.after()), Ordering::SeqCst);
    }

    /// Counts `rows` more rows as built.
    pub fn add(&self, rows: u32) {
        if self.showing == Showing::Never {
            return;
        }
        let before = self.built.fetch_add(u64::from(rows), Ordering::SeqCst);
        let built = before.saturating_add(u64::from(rows));
        if is_to_look(before, built) {
            self.look(built);
        }
    }

    /// Ends the build. Rows built afterwards are not shown.
    pub fn end(&self) {
        self.due.store(NEVER, Ordering::SeqCst);
        if self.is_shown.swap(false, Ordering::SeqCst) && self.showing == Showing::Rewritten {
            put_error(self.rt, Cleared);
        }
    }

    /// Shows the progress if a line is due and this thread is the first to see it.
    fn look(&self, built: u64) {
        let now = self.now();
        let due = self.due.load(Ordering::SeqCst);
        if now < due {
            return;
        }
        let next = later(now, self.showing.tick());
        let first = self
            .due
            .compare_exchange(due, next, Ordering::SeqCst, Ordering::SeqCst);
        if first.is_ok() {
            let gone = now.saturating_sub(self.begun.load(Ordering::SeqCst));
            self.show(line_of(self.name, built, self.rows.load(Ordering::SeqCst), gone));
        }
    }

    /// Writes a line, if standard error takes it at once.
    fn show(&self, told: Told) {
        match self.showing {
            Showing::Never => {}
            Showing::Lines => {
                put_error_line(self.rt, told);
            }
            Showing::Rewritten => {
                self.is_shown.store(true, Ordering::SeqCst);
                put_error(self.rt, InPlace { told });
            }
        }
    }

    /// How long ago it was made; 0 if the clock cannot be read.
    fn now(&self) -> u64 {
        match self.made {
            Some(made) => millis_since(self.rt, made),
            None => 0,
        }
    }
}

/// The time `after` milliseconds after `now`, or [`NEVER`].
fn later(now: u64, after: u64) -> u64
    ensures { result ≡ min (now + after) (2 ^ 64 - 1) }
{
    now.saturating_add(after)
}

/// Whether to read the clock when `built` rows are built after `before`: once in [`ROWS_A_LOOK`].
fn is_to_look(before: u64, built: u64) -> bool
    ensures { IsTrue result ↔ (before / 64 ≡ built / 64 → ⊥) }
{
    before / ROWS_A_LOOK != built / ROWS_A_LOOK
}

/// The line for `built` rows that took `gone` milliseconds. The rows that are left are assumed to go as fast.
fn line_of(name: &'static str, built: u64, rows: u64, gone: u64) -> Told
    ensures built { result.built ≡ built }
    ensures rows { result.rows ≡ rows }
    ensures gone { result.gone ≡ gone / 1_000 }
    ensures left { 0 < built → gone * (rows - built) < 2 ^ 64
        → result.left ≡ (gone * (rows - built) / built + 999) / 1_000 }
{
    let left = gone.saturating_mul(rows.saturating_sub(built)) / built.max(1);
    Told {
        name,
        built,
        rows,
        gone: gone / 1_000,
        left: left.div_ceil(1_000),
    }
}
