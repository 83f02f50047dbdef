//! The words of a line, and a line without the spaces and tabs round what it says.

ghost use Rattle.std.specs.Prelude.{◌≡◌, ◌≤◌, [], ◌∷◌, length, MatchOption, Some, None};
ghost use Rattle.text_lines.specs.Places.{IsFirstOther, IsLastOther, IsFirstGap};
ghost use Rattle.text_lines.specs.Words.{is_gap, is_blank, words_of, two_of, without_gaps, without_gaps_at_end};

/// A space or a tab.
fn is_gap(byte: u8) -> bool
    ensures { result ≡ is_gap byte }
{
    byte == b' ' || byte == b'\t'
}

/// Whether the line has no byte other than spaces and tabs.
pub fn is_blank(line: &[u8]) -> bool
    ensures { result ≡ is_blank line.now }
{
    line.iter().all(|byte| is_gap(*byte))
}

/// The line without the spaces and tabs at its end.
pub fn without_gaps_at_end(line: &[u8]) -> &[u8]
    ensures line { result.now ≡ without_gaps_at_end line.now }
    ensures shorter { length result.now ≤ length line.now }
{
    match last_of_word(line) {
        Some(last) => &line[..last + 1],
        None => &line[..0],
    }
}

/// The line without the spaces and tabs before its first and after its last other byte.
pub fn without_gaps(line: &[u8]) -> &[u8]
    ensures { result.now ≡ without_gaps line.now }
{
    match first_of_word(line) {
        Some(first) => without_gaps_at_end(&line[first..]),
        None => &line[..0],
    }
}

/// Where the last byte stands that is no space and no tab.
fn last_of_word(line: &[u8]) -> Option<usize>
    ensures { IsLastOther result line.now }
{
    line.iter().rposition(|byte| !is_gap(*byte))
}

/// The first word of a line and what comes after it; `None` exactly where the line has no word.
pub fn cut_word(line: &[u8]) -> Option<(&[u8], &[u8])>
    ensures { MatchOption result (words_of line.now ≡ [])
        (λ cut. words_of line.now ≡ cut.0.now ∷ words_of cut.1.now) }
{
    let start = first_of_word(line)?;
    let line = &line[start..];
    let end = first_gap(line).unwrap_or(line.len());
    Some((&line[..end], &line[end..]))
}

/// The words of a line that has two and no more; `None` for any other line.
pub fn two_words(line: &[u8]) -> Option<(&[u8], &[u8])>
    ensures { MatchOption result (two_of (words_of line.now) ≡ None)
        (λ two. two_of (words_of line.now) ≡ Some (two.0.now, two.1.now)) }
{
    let (first, rest) = cut_word(line)?;
    let (second, rest) = cut_word(rest)?;
    if cut_word(rest).is_some() {
        return None;
    }
    Some((first, second))
}

/// Where the first byte stands that is no space and no tab.
fn first_of_word(line: &[u8]) -> Option<usize>
    ensures { IsFirstOther result line.now }
{
    line.iter().position(|byte| !is_gap(*byte))
}

/// Where the first space or tab stands.
fn first_gap(line: &[u8]) -> Option<usize>
    ensures { IsFirstGap result line.now }
{
    line.iter().position(|byte| is_gap(*byte))
}
