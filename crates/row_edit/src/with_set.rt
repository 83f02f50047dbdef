//! How the row with one place more is made.

ghost use Rattle.std.specs.Prelude.{◌≡◌, ◌<◌, ◌≤◌, length, IsTrue, IfSome};
ghost use Rattle.row_edit.specs.Parts.{EndsAt, CutsBefore, AreWith, border_of};

use crate::PlaceSet;
use crate::known::{least_at, most_at, shared};
use crate::masks::{both, has, is_apart, is_within};
use crate::parts::Parts;
use crate::span::{Span, span_of};
use run_pack::{MAX_PLACES, least_word};

/// The parts of the row with one place more, where what is known decides it: all runs stay, and the new place goes to
/// one of them, or it is a run of its own.
pub(crate) fn parts_with(
    words: &[u32],
    places: u32,
    put: PlaceSet,
    known: &[PlaceSet],
) -> Option<Parts>
    ensures { IfSome result (AreWith words.now places put known.now) }
{
    if put.set == 0 || put.place > places || places >= MAX_PLACES {
        return None;
    }
    let span = span_of(words, places, put.place.saturating_sub(1))?;
    if has(put.set, span.mv) {
        return Some(Parts::staying(span.number + 1));
    }
    if put.place == 0 {
        return parts_from(words, places, put, known, span.number);
    }
    if put.place == span.end && ends_at(span, put, known) {
        return parts_from(words, places, put, known, span.number + 1);
    }
    None
}

/// Whether the run still ends where the new place begins: a move that it shares with the new set would be in the set
/// behind it, which it shares nothing with.
fn ends_at(span: Span, put: PlaceSet, known: &[PlaceSet]) -> bool
    ensures { IsTrue result → EndsAt span put known.now }
{
    let run = shared(known, span.start, put.place);
    is_within(both(run, put.set), least_at(known, put.place))
}

/// The parts where the new place stands before the run of this number, and the run before is cut there: the new place
/// opens that run, or is a run of its own.
fn parts_from(
    words: &[u32],
    places: u32,
    put: PlaceSet,
    known: &[PlaceSet],
    number: usize,
) -> Option<Parts>
    requires some { 0 < put.set }
    requires few { places < MAX_PLACES }
    requires place { put.place ≤ places }
    requires number { number ≤ length words.now }
    requires here { border_of words.now places number ≡ put.place }
    requires cut { CutsBefore words.now places number put known.now }
    ensures { IfSome result (AreWith words.now places put known.now) }
{
    let alone = Parts {
        front: number,
        own: Some(least_word(put.place, put.set)),
        back: number,
    };
    let Some(word) = words.get(number) else {
        return Some(alone);
    };
    if has(put.set, (*word % 8) as u8) {
        return Some(Parts::staying(number + 1));
    }
    if is_apart(put.set, most_at(known, put.place)) {
        return Some(alone);
    }
    None
}
