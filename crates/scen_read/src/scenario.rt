//! One scenario: its parts, and the line that says them.

ghost use Rattle.std.specs.Prelude.{◌≡◌, ◌<◌, ◌≤◌, [], ◌∷◌, ◌++◌, Ok, Err, drop, length, MatchResult, OnOk, IfOk};
ghost use Rattle.scen_read.specs.Fields.{fields_of};
ghost use Rattle.scen_read.specs.Inside.{says_one, whole_scenario, next_number, next_cell, next_length};
ghost use Rattle.scen_read.specs.ScenText.{scenario_of, is_version_line};

use crate::MAX_SCEN_BYTES;
use crate::fault::ScenFault;
use crate::fields::{Fields, count_fields};
use crate::length::length_in;
use moves::Cell;
use std::alloc::{AllocError, Global};
use text_lines::{Text, number_at_most, two_words, without_gaps_at_end};

/// The number of fields that a scenario has.
const FIELDS: u32 = 9;

/// The greatest coordinate of a start or a goal.
const MAX_COORDINATE: u32 = 65_535;

/// One scenario: a query on a map, and the length that the file states for its answer.
#[derive(Debug, Drop)]
pub struct ScenLine {
    /// The number of the group to which the scenario belongs.
    pub bucket: u32,
    /// The name of the map.
    pub name: Text,
    /// The number of the map's columns.
    pub width: u32,
    /// The number of the map's rows.
    pub height: u32,
    /// The cell from which the path leads.
    pub start: Cell,
    /// The cell to which the path leads.
    pub goal: Cell,
    /// The stated length of the path, in units of 10^-9.
    pub nano: u64,
}

/// The parts of a scenario, of which the name still stands in the line.
#[derive(Clone, Copy)]
pub struct Parts<'a> {
    bucket: u32,
    name: &'a [u8],
    width: u32,
    height: u32,
    start: Cell,
    goal: Cell,
    nano: u64,
}

impl<'a> Parts<'a> {
    /// Adds the scenario to the others, with a name of its own.
    pub fn add_to(self, alloc: Global, scenarios: &mut Vec<ScenLine>) -> Result<(), AllocError>
        ensures { OnOk result
            (scenarios.new.items ≡ scenarios.old.items ++ whole_scenario self.entry ∷ []) }
    {
        let name = Text::copy_of(alloc, self.name)?;
        scenarios.push(ScenLine {
            bucket: self.bucket,
            name,
            width: self.width,
            height: self.height,
            start: self.start,
            goal: self.goal,
            nano: self.nano,
        })?;
        Ok(())
    }
}

/// Whether the line says version 1.
pub fn is_version_line(line: &[u8]) -> bool
    ensures { result ≡ is_version_line line.now }
{
    match two_words(line) {
        Some((name, number)) => name == b"version".as_slice() && says_one(number),
        None => false,
    }
}

/// Whether the word is `1` or `1.0`.
fn says_one(word: &[u8]) -> bool
    ensures { result ≡ says_one word.now }
{
    word == b"1".as_slice() || word == b"1.0".as_slice()
}

/// The scenario that line `line` says, or the first refusal.
pub fn parts_of(line: u32, text: &[u8]) -> Result<Parts<'_>, ScenFault>
    requires { length text.now ≤ MAX_SCEN_BYTES }
    ensures { MatchResult result
        (λ parts. scenario_of line (fields_of text.now) ≡ Ok (whole_scenario parts))
        (λ fault. scenario_of line (fields_of text.now) ≡ Err fault) }
{
    let text = without_gaps_at_end(text);
    let found = count_fields(text);
    if found != FIELDS {
        return Err(ScenFault::Fields { line, found });
    }
    let mut fields = Fields::of(text);
    let bucket = number(&mut fields, line, 1, u32::MAX)?;
    let name = fields.next_or_empty();
    let width = number(&mut fields, line, 3, u32::MAX)?;
    let height = number(&mut fields, line, 4, u32::MAX)?;
    let start = cell(&mut fields, line, 5)?;
    let goal = cell(&mut fields, line, 7)?;
    let nano = stated_length(&mut fields, line)?;
    Ok(Parts {
        bucket,
        name,
        width,
        height,
        start,
        goal,
        nano,
    })
}

/// The number in the next field, which has this number in its line, or the refusal.
fn number(fields: &mut Fields, line: u32, field: u32, most: u32) -> Result<u32, ScenFault>
    ensures number { result ≡ next_number line field most fields.old }
    ensures limit { IfOk result (λ number. number ≤ most) }
    ensures rest { fields.new ≡ drop 1 fields.old }
{
    number_at_most(fields.next_or_empty(), most).ok_or(ScenFault::Number { line, field })
}

/// The length in the next field, which is the ninth of its line, or the refusal.
fn stated_length(fields: &mut Fields, line: u32) -> Result<u64, ScenFault>
    ensures { result ≡ next_length line fields.old }
{
    length_in(fields.next_or_empty()).ok_or(ScenFault::Number {
        line,
        field: FIELDS,
    })
}

/// The cell in the next two fields, of which the first has this number in its line, or the refusal.
fn cell(fields: &mut Fields, line: u32, field: u32) -> Result<Cell, ScenFault>
    requires { field < 9 }
    ensures cell { result ≡ next_cell line field fields.old }
    ensures rest { OnOk result (fields.new ≡ drop 2 fields.old) }
{
    let x = number(fields, line, field, MAX_COORDINATE)? as u16;
    let y = number(fields, line, field + 1, MAX_COORDINATE)? as u16;
    Ok(Cell { x, y })
}
