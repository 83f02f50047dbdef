//! A look-up that begins at a guess, for callers whose places lie near one another.

ghost use Rattle.std.specs.Prelude.{◌≡◌, ◌+◌, ◌<◌, ◌≤◌, ◌↔◌, IsTrue, length, map};
ghost use Rattle.run_pack.specs.Runs.{IsFound, IsLastUpTo, Rises, run_of_word, start_at};

use crate::run_of;

/// Returns the same move as `find_word`, searching run by run from a guess. The guess becomes the
/// number of the run found. Any guess will do, and the nearer it is, the fewer runs are read.
pub fn find_word_near(words: &[u32], place: u32, guess: &mut usize) -> u8
    requires { Rises (map run_of_word words.now) }
    ensures found { IsFound (map run_of_word words.now) place result }
    ensures limit { result < 8 }
    ensures last { IsLastUpTo (map run_of_word words.now) place guess.new }
{
    let run = go_forth(words, place, (*guess).min(words.len() - 1));
    let run = go_back(words, place, run);
    *guess = run;
    run_of(words[run]).mv
}

/// Goes forward from a run until the next one starts after the place.
#[inline(always)]
fn go_forth(words: &[u32], place: u32, from: usize) -> usize
    requires { from < length words.now }
    ensures inside { result < length words.now }
    ensures next { result + 1 < length words.now
        → place < start_at (map run_of_word words.now) (result + 1) }
{
    let last = words.len() - 1;
    let mut run = from;
    while run < last && starts_by(words[run + 1], place) {
        run += 1;
    }
    run
}

/// Goes back from there to the last run that starts at or before the place.
#[inline(always)]
fn go_back(words: &[u32], place: u32, from: usize) -> usize
    requires rises { Rises (map run_of_word words.now) }
    requires inside { from < length words.now }
    requires next { from + 1 < length words.now
        → place < start_at (map run_of_word words.now) (from + 1) }
    ensures { IsLastUpTo (map run_of_word words.now) place result }
{
    let mut run = from;
    while !starts_by(words[run], place) {
        run -= 1;
    }
    run
}

/// Returns whether the run of a word starts at or before the place, which it does if the word is at
/// most that of a run at the place with the last move.
#[inline(always)]
fn starts_by(word: u32, place: u32) -> bool
    ensures { IsTrue result ↔ (run_of_word word).start ≤ place }
{
    u64::from(word) <= u64::from(place) * 8 + 7
}
