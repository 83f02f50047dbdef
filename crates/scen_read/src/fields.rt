//! The fields of a scenario line.

ghost use Rattle.std.specs.Prelude.{◌≡◌, ◌≤◌, [], ◌∷◌, length, drop, slice_index_or, MatchOption, IfNone};
ghost use Rattle.std.specs.List.{list_any};
ghost use Rattle.scen_read.specs.Fields.{fields_in, tab_fields, space_fields, is_tab};
ghost use Rattle.scen_read.specs.Inside.{IsFirstTab, IsFirstSpace, IsFirstOther};

use crate::MAX_SCEN_BYTES;
use std::marker::Model;
use text_lines::without_gaps;

/// Goes through the fields of a text; contracts see the fields that are still to come.
#[derive(Drop)]
pub struct Fields<'a> {
    rest: &'a [u8],
    tabs: bool,
    more: bool,
}

impl<'a> Model for Fields<'a> {
    ghost use Rattle.std.specs.Prelude.{ℕ, List};
    ghost use Rattle.scen_read.specs.Inside.{fields_left};

    ghost Value = { List (List ℕ) };

    ghost view = { λ f. fields_left f.more f.tabs f.rest.now };
}

impl<'a> Fields<'a> {
    /// Before the first field of the text.
    #[tactic(auto, unfolding(crate::specs::Fields::fields_in))]
    pub fn of(text: &'a [u8]) -> Fields<'a>
        ensures { result ≡ fields_in text.now }
    {
        Fields {
            rest: text,
            tabs: has_tab(text),
            more: true,
        }
    }

    /// The next field; `None` exactly where there is none.
    pub fn next(&mut self) -> Option<&'a [u8]>
        ensures field { MatchOption result (self.old ≡ [])
            (λ field. self.old ≡ field.now ∷ self.new) }
        ensures end { IfNone result (self.new ≡ self.old) }
    {
        if !self.more {
            return None;
        }
        let (field, rest) = if self.tabs {
            cut_at_tab(self.rest)
        } else {
            cut_at_spaces(self.rest)
        };
        match rest {
            Some(rest) => self.rest = rest,
            None => self.more = false,
        }
        Some(field)
    }

    /// The next field, or an empty one after the last.
    pub fn next_or_empty(&mut self) -> &'a [u8]
        ensures field { result.now ≡ slice_index_or self.old 0 [] }
        ensures rest { self.new ≡ drop 1 self.old }
    {
        self.next().unwrap_or(&[])
    }
}

/// How many fields the text has.
pub fn count_fields(text: &[u8]) -> u32
    requires { length text.now ≤ MAX_SCEN_BYTES }
    ensures { result ≡ length (fields_in text.now) }
{
    let mut fields = Fields::of(text);
    let mut count = 0;
    while let Some(_field) = fields.next() {
        count += 1;
    }
    count
}

/// The first field of a text with tabs, and what follows its tab, if one does.
fn cut_at_tab(text: &[u8]) -> (&[u8], Option<&[u8]>)
    ensures { MatchOption result.1 (tab_fields text.now ≡ result.0.now ∷ [])
        (λ rest. tab_fields text.now ≡ result.0.now ∷ tab_fields rest.now) }
{
    match first_tab(text) {
        Some(end) => (without_gaps(&text[..end]), Some(&text[end + 1..])),
        None => (without_gaps(text), None),
    }
}

/// The first field of a text with spaces, and what follows the spaces after it, if anything does.
fn cut_at_spaces(text: &[u8]) -> (&[u8], Option<&[u8]>)
    ensures { MatchOption result.1 (space_fields text.now ≡ result.0.now ∷ [])
        (λ rest. space_fields text.now ≡ result.0.now ∷ space_fields rest.now) }
{
    let Some(end) = first_space(text) else {
        return (text, None);
    };
    let rest = &text[end..];
    match first_other(rest) {
        Some(next) => (&text[..end], Some(&rest[next..])),
        None => (&text[..end], None),
    }
}

/// Whether the text has a tab.
fn has_tab(text: &[u8]) -> bool
    ensures { result ≡ list_any is_tab text.now }
{
    first_tab(text).is_some()
}

/// Where the first tab stands.
fn first_tab(text: &[u8]) -> Option<usize>
    ensures { IsFirstTab result text.now }
{
    text.iter().position(|byte| *byte == b'\t')
}

/// Where the first space stands.
fn first_space(text: &[u8]) -> Option<usize>
    ensures { IsFirstSpace result text.now }
{
    text.iter().position(|byte| *byte == b' ')
}

/// Where the first byte stands that is no space.
fn first_other(text: &[u8]) -> Option<usize>
    ensures { IsFirstOther result text.now }
{
    text.iter().position(|byte| *byte != b' ')
}
