//! Rows packed into runs, and look-ups in rows.

ghost use Rattle.std.specs.Prelude.{◌≡◌, ◌<◌, map, IfOk, IsTrue};
ghost use Rattle.run_pack.specs.Runs.{ArePackable, Rises, run_of_word};

use case_kit::{Fields, Refusal};
use moves::Move;
use run_pack::steps::Steps;
use run_pack::{
    MAX_PLACES, Run, append_words, find, find_move, find_word, find_word_move, pack, run_of,
};
use std::alloc::{AllocError, Global};
use std::fmt::Write;
use std::marker::Brand;
use std::sync::ledger::{Blank, Ledger};

/// `pack | SETS | PLACES`: packs the sets into runs and looks up the move at each place. Says so where the packed words
/// differ from the runs, and marks a move with a `?` where one of the other look-ups finds a different one.
pub fn pack_and_find(alloc: Global, mut fields: Fields<'_>) -> Result<String, Refusal> {
    let (row, words) = packed(alloc, &fields.bytes(alloc)?)?;
    let places = fields.numbers(alloc)?;
    let mut text = String::new(alloc);
    write_runs(&mut text, &row)?;
    if unpacked(alloc, &words)? != row {
        text.push_str(", other words")?;
    }
    text.push(':')?;
    for place in places.iter() {
        write_found(&mut text, &row, &words, *place)?;
    }
    Ok(text)
}

/// Whether the sets can be packed: at least one, no empty set, and no more than fit a row.
pub fn is_packable(sets: &[u8]) -> bool
    ensures { IsTrue result → ArePackable sets.now }
{
    !sets.is_empty() && sets.len() <= MAX_PLACES as usize && sets.iter().all(|set| *set > 0)
}

/// The packed row of the sets, as runs and as words.
pub fn packed(alloc: Global, sets: &[u8]) -> Result<(Vec<Run>, Vec<u32>), Refusal>
    ensures row { IfOk result (λ found. Rises found.0.items) }
    ensures words { IfOk result (λ found. Rises (map run_of_word found.1.items)) }
{
    if !is_packable(sets) {
        return Err(Refusal::OutOfForm);
    }
    let row = pack(alloc, sets)?;
    let mut words = Vec::new(alloc);
    append_words(&mut words, sets)?;
    Ok((row, words))
}

/// Decodes words into runs.
pub fn unpacked(alloc: Global, words: &[u32]) -> Result<Vec<Run>, AllocError> {
    words.iter().map(|word| run_of(*word)).collect(alloc)
}

/// Writes the runs of a row, each as its start and its move: `0W 2E`.
pub fn write_runs(text: &mut String, runs: &[Run]) -> Result<(), AllocError> {
    for (place, run) in runs.iter().enumerate() {
        let blank = if place > 0 { " " } else { "" };
        let by = Move::of(run.mv).unwrap_or_default();
        write!(text, "{blank}{}{by}", run.start)?;
    }
    Ok(())
}

/// Writes the move that is found at a place.
fn write_found(text: &mut String, row: &[Run], words: &[u32], place: u32) -> Result<(), AllocError>
    requires rises { Rises row.now }
    requires words_rise { Rises (map run_of_word words.now) }
{
    let number = find_move(row, place);
    let by = Move::of(number).unwrap_or_default();
    write!(text, " {by}")?;
    let (by_run, by_word) = find_counted::<Brand>(row, words, place, Blank::new(1));
    if number != by_run || number != by_word || number != find_word_move(words, place) {
        text.push('?')?;
    }
    Ok(())
}

/// Looks a place up in the runs and in the words, counting the steps.
fn find_counted<L: Ledger>(row: &[Run], words: &[u32], place: u32, blank: Blank) -> (u8, u8)
    requires name { blank.name ≡ L.name }
    requires parts { blank.parts ≡ L.parts }
    requires some { 0 < blank.parts }
    requires rises { Rises row.now }
    requires words_rise { Rises (map run_of_word words.now) }
{
    let mut steps = Steps::<L>::new(blank);
    let by_run = find(row, place, &mut steps);
    (by_run, find_word(words, place, &mut steps))
}
