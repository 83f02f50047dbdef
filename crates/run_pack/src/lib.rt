//! Tight rows of runs: a list of sets of moves packed into the fewest runs, and looked up by binary search.
//!
//! A set is a nonzero byte that contains number i, from 0 to 7, if its bit i is 1. A row keeps one
//! move for each run of neighbouring places whose sets share that move. Any optimal first move may
//! be kept for a place (Strasser, Harabor and Botea, "Fast First-Move Queries through Run-Length
//! Encoding", 2014), so `pack` makes each run as long as possible.
//!
//! For example, take five sets of moves, where the first two share NE, the next two share SE, and
//! the last has only S. Written as a test case:
//!
//! ```text
//! pack | 03 06 0C 18 10 | 0 1 2 3 4
//! 0NE 2SE 4S: NE NE SE SE S
//! ```
#![tactic(auto)]

ghost use Rattle.std.specs.Prelude.{◌≡◌, ◌+◌, ◌-◌, ◌*◌, ◌^◌, ◌<◌, ◌≤◌, length, map, take, drop, IfOk, OnOk, OnErr, IfSome, IfNone};
ghost use Rattle.run_pack.specs.Sets.{IsShared, AreShared, ShareNone, IsLeastIn};
ghost use Rattle.run_pack.specs.Stretches.{GrowsBy, IsCutBefore};
ghost use Rattle.run_pack.specs.Runs.{Rises, ArePackable, IsTight, IsPacked, IsFound, AppendsRow, word_of, run_of_word};

pub mod laws;
mod near;
mod row;
pub mod steps;

pub use crate::near::find_word_near;
use crate::row::{Row, Stored};
use crate::steps::Steps;
use std::alloc::{AllocError, Global};
use std::marker::Brand;
use std::simd::u8x8;
use std::sync::ledger::{Blank, Ledger};

/// The most places a row may have. A run then fits into a word: 15 bits for its start, 3 for its
/// move.
pub const MAX_PLACES: u32 = 32768;

/// The set of all eight moves.
const EVERY_MOVE: u8 = u8::MAX;

/// How many sets are taken at once if they share a move with the sets before them.
const AT_ONCE: usize = 8;

/// The most places of a row is the number of starts that 15 bits can tell apart.
pub fn limit_is_this()
    ensures { MAX_PLACES ≡ 2 ^ 15 }
{}

/// One run of a row: the place where it starts and the move that it keeps.
///
/// It ends just before the start of the next run, or at the row's last place.
#[derive(Clone, Copy, Debug, Default, PartialEq, Eq)]
pub struct Run {
    pub start: u32,
    pub mv: u8,
}

/// A run that may still grow: where it starts, and the moves that all its sets share.
#[derive(Clone, Copy)]
struct Stretch {
    start: u32,
    common: u8,
}

impl Stretch {
    /// Returns the stretch with one more set, or `None` if no common move would be left.
    fn extended(self, set: u8) -> Option<Stretch>
        ensures start { IfSome result (λ longer. longer.start ≡ self.start) }
        ensures some { IfSome result (λ longer. 0 < longer.common) }
        ensures common { IfSome result (λ longer. IsShared longer.common self.common set) }
        ensures none { IfNone result (ShareNone self.common set) }
    {
        let common = self.common & set;
        if common == 0 {
            return None;
        }
        Some(Stretch {
            start: self.start,
            common,
        })
    }

    /// Returns the stretch with all these sets added, or `None` if no common move would be left.
    #[inline(always)]
    fn extended_by(self, sets: [u8; AT_ONCE]) -> Option<Stretch>
        ensures start { IfSome result (λ longer. longer.start ≡ self.start) }
        ensures some { IfSome result (λ longer. 0 < longer.common) }
        ensures common { IfSome result (λ longer. AreShared longer.common self.common sets) }
    {
        self.extended(common_of(sets))
    }

    /// Takes the set of the next place. If no common move would be left, ends the stretch, starts
    /// a new one at that place, and returns the run that the old one became.
    #[inline(always)]
    fn take(&mut self, place: usize, set: u8) -> Option<Run>
        requires some { 0 < self.old.common }
        requires few { place < MAX_PLACES }
        ensures longer { IfNone result (GrowsBy self.old self.new set) }
        ensures cut { IfSome result (λ run. IsCutBefore self.old self.new place set run) }
    {
        if let Some(longer) = self.extended(set) {
            *self = longer;
            return None;
        }
        let run = self.run();
        *self = Stretch {
            start: place as u32,
            common: set,
        };
        Some(run)
    }

    /// Returns the run that the stretch becomes, with the least of its common moves.
    fn run(self) -> Run
        requires { 0 < self.common }
        ensures start { result.start ≡ self.start }
        ensures least { IsLeastIn self.common result.mv }
    {
        Run {
            start: self.start,
            mv: self.common.trailing_zeros() as u8,
        }
    }
}

/// Returns the moves that all these sets share.
#[inline(always)]
fn common_of(sets: [u8; AT_ONCE]) -> u8
    ensures { AreShared result EVERY_MOVE sets }
{
    u8x8::from_array(sets).reduce_and()
}

/// Packs these sets into their tight row: the only row in which each run reaches as far as its sets
/// share a move, and keeps the least of these. No row that holds for the sets has fewer runs.
///
/// The only error is out of memory. Memory is allocated only for the result.
pub fn pack(alloc: Global, sets: &[u8]) -> Result<Vec<Run>, AllocError>
    requires { ArePackable sets.now }
    ensures { IfOk result (λ row. IsPacked row.items sets.now) }
{
    let mut row = Vec::new(alloc);
    fill(&mut row, sets)?;
    Ok(row)
}

/// Appends the row that `pack` returns to these words, one word for each run.
///
/// The only error is out of memory. The words are then unchanged.
pub fn append_words(words: &mut Vec<u32>, sets: &[u8]) -> Result<(), AllocError>
    requires { ArePackable sets.now }
    ensures ok { OnOk result (AppendsRow words.old.items words.new.items sets.now) }
    ensures refused { OnErr result (words.new.items ≡ words.old.items) }
{
    let before = words.len();
    match fill(words, sets) {
        Ok(()) => Ok(()),
        Err(full) => {
            words.truncate(before);
            Err(full)
        }
    }
}

/// Appends the packed row of these sets, in one pass from left to right that takes `AT_ONCE` sets
/// together if all of them make the stretch longer. After an error, part of the row may remain.
fn fill<S: Stored>(row: &mut Vec<S>, sets: &[u8]) -> Result<(), AllocError>
    requires { ArePackable sets.now }
    ensures kept { take (length row.old.items) row.new.items ≡ row.old.items }
    ensures tight { OnOk result (
        IsTight (map S.run_of (drop (length row.old.items) row.new.items)) sets.now) }
{
    let mut stretch = Stretch {
        start: 0,
        common: EVERY_MOVE,
    };
    let mut done = 0;
    while let Some(next) = sets[done..].first_chunk::<AT_ONCE>() {
        if let Some(longer) = stretch.extended_by(*next) {
            stretch = longer;
        } else {
            for (ahead, set) in next.iter().enumerate() {
                if let Some(run) = stretch.take(done + ahead, *set) {
                    row.push(S::keep(run))?;
                }
            }
        }
        done += AT_ONCE;
    }
    for (ahead, set) in sets[done..].iter().enumerate() {
        if let Some(run) = stretch.take(done + ahead, *set) {
            row.push(S::keep(run))?;
        }
    }
    row.push(S::keep(stretch.run()))?;
    Ok(())
}

/// Returns the move for a place: that of the last run that starts at or before the place.
///
/// It takes at most s probes of a row of n runs, where 2^s ≤ 2n + 1. A probe is one read of a run.
pub fn find<L: Ledger>(runs: &[Run], place: u32, steps: &mut Steps<L>) -> u8
    requires { Rises runs.now }
    ensures found { IsFound runs.now place result }
    ensures cost { 2 ^ (steps.new - steps.old) ≤ 2 * length runs.now + 1 }
    ensures counted { steps.old ≤ steps.new }
{
    search(&Row::new(runs), place, steps)
}

/// Like `find`, for a row kept as words, with the same answer and the same bound on probes.
pub fn find_word<L: Ledger>(words: &[u32], place: u32, steps: &mut Steps<L>) -> u8
    requires { Rises (map run_of_word words.now) }
    ensures found { IsFound (map run_of_word words.now) place result }
    ensures limit { result < 8 }
    ensures cost { 2 ^ (steps.new - steps.old) ≤ 2 * length words.now + 1 }
    ensures counted { steps.old ≤ steps.new }
{
    search(&Row::new(words), place, steps)
}

/// Like `find`, for a caller that does not count steps.
pub fn find_move(runs: &[Run], place: u32) -> u8
    requires { Rises runs.now }
    ensures found { IsFound runs.now place result }
{
    uncounted::<Run, Brand>(&Row::new(runs), place, Blank::new(1))
}

/// Like `find_word`, for a caller that does not count steps.
pub fn find_word_move(words: &[u32], place: u32) -> u8
    requires { Rises (map run_of_word words.now) }
    ensures found { IsFound (map run_of_word words.now) place result }
    ensures limit { result < 8 }
{
    uncounted::<u32, Brand>(&Row::new(words), place, Blank::new(1))
}

/// Searches with a count of its own.
fn uncounted<S: Stored, L: Ledger>(row: &Row<S>, place: u32, blank: Blank) -> u8
    requires name { blank.name ≡ L.name }
    requires parts { blank.parts ≡ L.parts }
    requires some { 0 < blank.parts }
    requires rises { Rises row.now }
    ensures found { IsFound row.now place result }
{
    let mut steps = Steps::<L>::new(blank);
    search(row, place, &mut steps)
}

/// Returns the move of the last run that starts at or before the place, by binary search.
fn search<S: Stored, L: Ledger>(row: &Row<S>, place: u32, steps: &mut Steps<L>) -> u8
    requires { Rises row.now }
    ensures found { IsFound row.now place result }
    ensures cost { 2 ^ (steps.new - steps.old) ≤ 2 * length row.now + 1 }
    ensures counted { steps.old ≤ steps.new }
{
    // The first run starts at 0, so it or a later one replaces this.
    let mut found = S::keep(Run { start: 0, mv: 0 });
    let mut low = 0;
    let mut high = row.len();
    while low < high {
        let middle = low + (high - low) / 2;
        let stored = row.probe(middle, steps);
        if stored.run().start <= place {
            found = stored;
            low = middle + 1;
        } else {
            high = middle;
        }
    }
    found.run().mv
}

/// Returns a run as one word: its start times 8, plus its move.
pub fn word(run: Run) -> u32
    requires start { run.start < MAX_PLACES }
    requires number { run.mv ≤ 7 }
    ensures value { result ≡ word_of run }
    ensures back { run_of_word result ≡ run }
{
    run.start * 8 + u32::from(run.mv)
}

/// Returns the word of the run that starts at a place and keeps the least of these moves.
pub fn least_word(start: u32, moves: u8) -> u32
    requires start { start < MAX_PLACES }
    requires some { 0 < moves }
    ensures start { (run_of_word result).start ≡ start }
    ensures least { IsLeastIn moves (run_of_word result).mv }
{
    let common = moves;
    word(Stretch { start, common }.run())
}

/// Returns the run that a word stands for.
pub fn run_of(word: u32) -> Run
    ensures { result ≡ run_of_word word }
{
    Run {
        start: word / 8,
        mv: (word % 8) as u8,
    }
}
