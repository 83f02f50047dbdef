//! Reads events.

ghost use Rattle.std.specs.Prelude.{◌≡◌, ◌-◌, ◌<◌, ◌≤◌, [], ◌∷◌, None, Some, length};
ghost use Rattle.std.specs.Prelude.{MatchOption, IfOk, IfErr, IfSome, OnOk};
ghost use Rattle.text_lines.specs.Words.{words_of};
ghost use Rattle.edit_log.specs.declared.TheConstants.{MAX_CHANGES};
ghost use Rattle.path_replay.specs.declared.TheConstants.{PASSES, MAX_EVENTS_BYTES};
ghost use Rattle.path_replay.specs.Events.{AreEventsOf, HavePasses, IsEventsError, ended, named, pass_of};
ghost use Rattle.path_replay.specs.Events.{changes_said, changes_with, first_cell, first_change, first_number, first_pass, first_terrain, only_pass};
ghost use Rattle.path_replay.specs.Events.{query_said, submit_said, words_said};
ghost use Rattle.path_replay.specs.Inside.{IsReadAs};

use crate::error::EventsError;
use crate::event::Event;
use crate::events::Events;
use crate::{MAX_EVENTS_BYTES, PASSES};
use edit_log::{CellChange, Edit, MAX_CHANGES};
use moves::{Cell, Terrain};
use std::alloc::Global;
use text_lines::{Lines, cut_word, is_blank, number_at_most};

/// The greatest column or row that an event names.
const MAX_COORDINATE: u32 = 65_535;

/// The lines of an events file.
type EventLines<'a> = Lines<'a, MAX_EVENTS_BYTES>;

/// The events of a text of at most `MAX_EVENTS_BYTES` bytes, in the order of its lines. Blank lines have none.
///
/// # Errors
///
/// The first line that is neither blank nor an event, or want of memory.
pub fn read_events(alloc: Global, bytes: &[u8]) -> Result<Events, EventsError>
    requires { length bytes.now ≤ MAX_EVENTS_BYTES }
    ensures events { IfOk result (λ events. AreEventsOf bytes.now events) }
    ensures passes { IfOk result (λ events. HavePasses events) }
    ensures refused { IfErr result (IsEventsError bytes.now) }
{
    let mut lines = EventLines::of(bytes);
    let mut events = Events::new(alloc);
    let mut number = 1;
    while let Some(line) = lines.next() {
        if !is_blank(line) {
            match event_of(line) {
                Some(event) => events.push(event)?,
                None => return Err(EventsError::Line(number)),
            }
        }
        number += 1;
    }
    Ok(events)
}

/// The event that the line says; `None` exactly where it says none.
#[tactic(auto, unfolding(crate::specs::Events::words_said))]
fn event_of(line: &[u8]) -> Option<Event>
    ensures event { IsReadAs (words_said (words_of line.now)) result }
    ensures pass { IfSome result (λ event. pass_of event < PASSES) }
{
    let (name, words) = cut_word(line)?;
    event_named(name, words)
}

/// The event of that name, with the words after it.
fn event_named(name: &[u8], words: &[u8]) -> Option<Event>
    ensures event { IsReadAs (named name.now (words_of words.now)) result }
    ensures pass { IfSome result (λ event. pass_of event < PASSES) }
{
    if name == b"submit".as_slice() {
        return submit_of(words);
    }
    if name == b"query".as_slice() {
        return query_of(words);
    }
    let pass = only_pass(words);
    if name == b"look".as_slice() {
        return Some(Event::Look { pass: pass? });
    }
    if name == b"begin".as_slice() {
        return Some(Event::Begin { pass: pass? });
    }
    if name == b"row".as_slice() {
        return Some(Event::Row { pass: pass? });
    }
    if name == b"publish".as_slice() {
        return Some(Event::Publish { pass: pass? });
    }
    if name == b"halt".as_slice() {
        return Some(Event::Halt { pass: pass? });
    }
    None
}

/// The edit that the words after `submit` say.
#[tactic(auto, unfolding(crate::specs::Events::submit_said))]
fn submit_of(words: &[u8]) -> Option<Event>
    ensures event { IsReadAs (submit_said (words_of words.now)) result }
    ensures pass { IfSome result (λ event. pass_of event < PASSES) }
{
    let (pass, words) = first_number(words, PASSES - 1)?;
    let edit = edit_of(words)?;
    Some(Event::Submit { pass, edit })
}

/// The edit of the changes that the words say.
#[tactic(auto, unfolding(crate::specs::Events::changes_said))]
fn edit_of(words: &[u8]) -> Option<Edit>
    ensures { MatchOption result (changes_said (words_of words.now) ≡ None)
        (λ edit. changes_said (words_of words.now) ≡ Some edit) }
{
    let (first, words) = first_change(words)?;
    edit_with(first, words)
}

/// The edit of a change and of those that the words say.
fn edit_with(first: CellChange, words: &[u8]) -> Option<Edit>
    ensures { MatchOption result (changes_with (MAX_CHANGES - 1) (first ∷ []) (words_of words.now) ≡ None)
        (λ edit. changes_with (MAX_CHANGES - 1) (first ∷ []) (words_of words.now) ≡ Some edit) }
{
    let mut changes = [first; MAX_CHANGES];
    let mut left = words;
    for count in 1..MAX_CHANGES {
        if cut_word(left).is_none() {
            return Edit::of(&changes[..count]);
        }
        let (change, next) = first_change(left)?;
        changes[count] = change;
        left = next;
    }
    if cut_word(left).is_some() {
        return None;
    }
    Edit::of(&changes)
}

/// The change in the first three words, and the words after it.
fn first_change(words: &[u8]) -> Option<(CellChange, &[u8])>
    ensures { MatchOption result (first_change (words_of words.now) ≡ None)
        (λ first. first_change (words_of words.now) ≡ Some (first.0, words_of first.1.now)) }
{
    let (cell, words) = first_cell(words)?;
    let (terrain, words) = first_terrain(words)?;
    Some((CellChange { cell, terrain }, words))
}

/// The query that the words after `query` say.
#[tactic(auto, unfolding(crate::specs::Events::query_said))]
fn query_of(words: &[u8]) -> Option<Event>
    ensures event { IsReadAs (query_said (words_of words.now)) result }
    ensures pass { IfSome result (λ event. pass_of event < PASSES) }
{
    let (pass, words) = first_number(words, PASSES - 1)?;
    let (start, words) = first_cell(words)?;
    let (goal, words) = first_cell(words)?;
    if cut_word(words).is_some() {
        return None;
    }
    Some(Event::Query { pass, start, goal })
}

/// The pass in the one word that is left.
#[tactic(auto, unfolding(crate::specs::Events::only_pass))]
fn only_pass(words: &[u8]) -> Option<u32>
    ensures pass { result ≡ only_pass (words_of words.now) }
    ensures limit { IfSome result (λ pass. pass < PASSES) }
{
    let (pass, words) = first_number(words, PASSES - 1)?;
    if cut_word(words).is_some() {
        return None;
    }
    Some(pass)
}

/// The number in the first word, from 0 to `most`, and the words after it.
fn first_number(words: &[u8], most: u32) -> Option<(u32, &[u8])>
    ensures number { MatchOption result (first_number most (words_of words.now) ≡ None)
        (λ first. first_number most (words_of words.now) ≡ Some (first.0, words_of first.1.now)) }
    ensures limit { IfSome result (λ first. first.0 ≤ most) }
{
    let (word, words) = cut_word(words)?;
    let number = number_at_most(word, most)?;
    Some((number, words))
}

/// The cell in the first two words, its column before its row, and the words after it.
fn first_cell(words: &[u8]) -> Option<(Cell, &[u8])>
    ensures { MatchOption result (first_cell (words_of words.now) ≡ None)
        (λ first. first_cell (words_of words.now) ≡ Some (first.0, words_of first.1.now)) }
{
    let (x, words) = first_number(words, MAX_COORDINATE)?;
    let (y, words) = first_number(words, MAX_COORDINATE)?;
    let cell = Cell {
        x: x as u16,
        y: y as u16,
    };
    Some((cell, words))
}

/// What stands at a cell, in the first word, and the words after it.
fn first_terrain(words: &[u8]) -> Option<(Terrain, &[u8])>
    ensures { MatchOption result (first_terrain (words_of words.now) ≡ None)
        (λ first. first_terrain (words_of words.now) ≡ Some (first.0, words_of first.1.now)) }
{
    let (word, words) = cut_word(words)?;
    if word == b"0".as_slice() {
        return Some((Terrain::Blocked, words));
    }
    if word == b"1".as_slice() {
        return Some((Terrain::Land, words));
    }
    if word == b"2".as_slice() {
        return Some((Terrain::Water, words));
    }
    None
}
