//! How the row without a place is made.

ghost use Rattle.std.specs.Prelude.{◌≡◌, ◌+◌, ◌<◌, IsTrue, IfSome};
ghost use Rattle.row_edit.specs.Parts.{StaysCut, StaysWhole, AreWithout};

use crate::PlaceSet;
use crate::known::{most_at, shared};
use crate::masks::{both, has_none_below, is_apart, is_within, rest_of};
use crate::parts::Parts;
use crate::span::{Span, span_of};

/// The parts of the row without a place, where what is known decides it: all runs stay, or the one that had this place
/// alone is gone.
pub(crate) fn parts_without(
    words: &[u32],
    places: u32,
    out: PlaceSet,
    known: &[PlaceSet],
) -> Option<Parts>
    ensures { IfSome result (AreWithout words.now places out known.now) }
{
    let span = span_of(words, places, out.place)?;
    if !stays_cut(span, places, out, known) {
        return None;
    }
    if span.end - span.start > 1 {
        return if stays_whole(span, places, out, known) {
            Some(Parts::staying(span.number + 1))
        } else {
            None
        };
    }
    if places < 2 {
        return None;
    }
    Some(Parts {
        front: span.number,
        own: None,
        back: span.number + 1,
    })
}

/// Whether the run before still ends where this one begins: a move that it shares with the set behind the place would
/// have been in the place's own set, which it shares nothing with.
fn stays_cut(span: Span, places: u32, out: PlaceSet, known: &[PlaceSet]) -> bool
    requires { out.place < span.end }
    ensures { IsTrue result → StaysCut span places out known.now }
{
    if span.number == 0 || span.start < out.place || out.place + 1 >= places {
        return true;
    }
    let before = shared(known, span.before, out.place);
    is_within(both(before, most_at(known, out.place + 1)), out.set)
}

/// Whether the run keeps its move and its end: a move that only the place's set kept from being common is neither lower
/// nor in the set behind the run.
fn stays_whole(span: Span, places: u32, out: PlaceSet, known: &[PlaceSet]) -> bool
    requires { out.place < span.end }
    ensures { IsTrue result → StaysWhole span places out known.now }
{
    let front = shared(known, span.start, out.place);
    let back = shared(known, out.place + 1, span.end);
    let fresh = rest_of(both(front, back), out.set);
    has_none_below(fresh, span.mv)
        && (span.end >= places || is_apart(fresh, most_at(known, span.end)))
}
