//! The run that covers a place.

ghost use Rattle.std.specs.Prelude.{◌≡◌, ◌<◌, IfSome};
ghost use Rattle.row_edit.specs.Parts.{IsSpan, Spans, border_of};

/// One run of a row: its number, where it starts and ends, its move, and where the run before it starts.
#[derive(Clone, Copy)]
pub(crate) struct Span {
    pub(crate) number: usize,
    pub(crate) before: u32,
    pub(crate) start: u32,
    pub(crate) end: u32,
    pub(crate) mv: u8,
}

/// Where the run of this number starts, or the number of places where there is no such run.
fn border(words: &[u32], places: u32, number: usize) -> u32
    ensures { result ≡ border_of words.now places number }
{
    match words.get(number) {
        Some(word) => *word / 8,
        None => places,
    }
}

/// The run of this number, if there is one.
fn span_at(words: &[u32], places: u32, number: usize) -> Option<Span>
    ensures { IfSome result (IsSpan words.now places) }
{
    let word = words.get(number)?;
    Some(Span {
        number,
        before: border(words, places, number.saturating_sub(1)),
        start: border(words, places, number),
        end: border(words, places, number + 1),
        mv: (*word % 8) as u8,
    })
}

/// The run that covers a place, if one does.
pub(crate) fn span_of(words: &[u32], places: u32, place: u32) -> Option<Span>
    ensures { IfSome result (Spans words.now places place) }
{
    let upto = words.partition_point(|word| *word / 8 <= place);
    let span = span_at(words, places, upto.saturating_sub(1))?;
    if span.start <= place && place < span.end {
        Some(span)
    } else {
        None
    }
}
