//! The lines of a text.

ghost use Rattle.std.specs.Prelude.{◌≡◌, ◌≤◌, [], ◌∷◌, length, drop, slice_index_or, MatchOption, IfNone, IfSome};
ghost use Rattle.text_lines.specs.Lines.{lines_of, without_return};

use memchr::memchr;
use std::marker::Model;

/// Goes through the lines of a text of at most `LIMIT` bytes; contracts see the lines that are still to come.
#[derive(Drop)]
pub struct Lines<'a, const LIMIT: usize> {
    rest: &'a [u8],
}

impl<'a, const LIMIT: usize> Model for Lines<'a, LIMIT> {
    ghost use Rattle.std.specs.Prelude.{ℕ, ◌≤◌, List, length};
    ghost use Rattle.text_lines.specs.Lines.{lines_of};

    ghost Value = { List (List ℕ) };

    ghost view = { λ l. lines_of l.rest.now };

    ghost invariant = { λ l. length l.rest.now ≤ LIMIT };
}

impl<'a, const LIMIT: usize> Lines<'a, LIMIT> {
    /// Before the first line of the text.
    pub fn of(text: &'a [u8]) -> Lines<'a, LIMIT>
        requires { length text.now ≤ LIMIT }
        ensures { result ≡ lines_of text.now }
    {
        Lines { rest: text }
    }

    /// The next line, which has at most `LIMIT` bytes; `None` exactly where there is none.
    pub fn next(&mut self) -> Option<&'a [u8]>
        ensures line { MatchOption result (self.old ≡ []) (λ line. self.old ≡ line.now ∷ self.new) }
        ensures end { IfNone result (self.new ≡ self.old) }
        ensures limit { IfSome result (λ line. length line.now ≤ LIMIT) }
    {
        let (line, rest) = cut_line(self.rest)?;
        self.rest = rest;
        Some(line)
    }

    /// The next line, or an empty one after the last.
    pub fn next_or_empty(&mut self) -> &'a [u8]
        ensures line { result.now ≡ slice_index_or self.old 0 [] }
        ensures rest { self.new ≡ drop 1 self.old }
    {
        self.next().unwrap_or(&[])
    }
}

/// The first line of a text and the text after it; `None` exactly where the text has no line.
fn cut_line(text: &[u8]) -> Option<(&[u8], &[u8])>
    ensures cut { MatchOption result (lines_of text.now ≡ [])
        (λ cut. lines_of text.now ≡ cut.0.now ∷ lines_of cut.1.now) }
    ensures line { IfSome result (λ cut. length cut.0.now ≤ length text.now) }
    ensures rest { IfSome result (λ cut. length cut.1.now ≤ length text.now) }
{
    match memchr(b'\n', text) {
        Some(end) => Some((without_return(&text[..end]), &text[end + 1..])),
        None => {
            let line = without_return(text);
            if line.is_empty() {
                None
            } else {
                Some((line, &text[text.len()..]))
            }
        }
    }
}

/// The line without the one carriage return at its end.
#[tactic(auto, unfolding(crate::specs::Lines::without_return))]
fn without_return(line: &[u8]) -> &[u8]
    ensures line { result.now ≡ without_return line.now }
    ensures shorter { length result.now ≤ length line.now }
{
    match line {
        [front @ .., b'\r'] => front,
        _ => line,
    }
}
