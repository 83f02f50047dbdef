//! The text of scenarios.

ghost use Rattle.std.specs.Prelude.{◌≡◌, ◌++◌, Ok, IfOk, OnOk};
ghost use Rattle.std.specs.Fmt.{decimal};
ghost use Rattle.text_lines.specs.Lines.{with_feed};
ghost use Rattle.scen_read.specs.Inside.{ended};
ghost use Rattle.scen_read.specs.ScenText.{scenarios_of};
ghost use Rattle.scen_read.specs.Written.{AreWritable, last_digits, scenario_text, text_of};

use crate::ScenLine;
use crate::length::NANOS;
use moves::Cell;
use std::alloc::{AllocError, Global};

/// The text of the scenarios: `version 1`, and for each of them a line with its nine fields and a tab between each two.
/// A line feed ends each line. Where all are writable, reading the text gives the scenarios back.
pub fn write_scen(alloc: Global, lines: &[ScenLine]) -> Result<Vec<u8>, AllocError>
    ensures text { IfOk result (λ text. text.items ≡ text_of lines.now) }
    ensures back { AreWritable lines.now
        → IfOk result (λ text. scenarios_of text.items ≡ Ok lines.now) }
{
    let mut text = Vec::new(alloc);
    text.extend_from_slice(b"version 1\n")?;
    for line in lines {
        push_line(&mut text, alloc, line)?;
    }
    Ok(text)
}

/// Adds the line of a scenario with its line feed.
fn push_line(text: &mut Vec<u8>, alloc: Global, line: &ScenLine) -> Result<(), AllocError>
    ensures { OnOk result (text.new.items ≡ text.old.items ++ with_feed (scenario_text line.now)) }
{
    push_number(text, alloc, u64::from(line.bucket), b'\t')?;
    text.extend_from_slice(line.name.bytes())?;
    text.push(b'\t')?;
    push_number(text, alloc, u64::from(line.width), b'\t')?;
    push_number(text, alloc, u64::from(line.height), b'\t')?;
    push_cell(text, alloc, line.start)?;
    push_cell(text, alloc, line.goal)?;
    push_number(text, alloc, line.nano / NANOS, b'.')?;
    push_last_digits(text, line.nano)?;
    text.push(b'\n')?;
    Ok(())
}

/// Adds a cell's column and row, and a tab after each.
fn push_cell(text: &mut Vec<u8>, alloc: Global, cell: Cell) -> Result<(), AllocError>
    ensures { OnOk result
        (text.new.items ≡ (text.old.items ++ ended (decimal cell.x) 9) ++ ended (decimal cell.y) 9) }
{
    push_number(text, alloc, u64::from(cell.x), b'\t')?;
    push_number(text, alloc, u64::from(cell.y), b'\t')
}

/// Adds a number and one byte after it.
fn push_number(text: &mut Vec<u8>, alloc: Global, number: u64, end: u8) -> Result<(), AllocError>
    ensures { OnOk result (text.new.items ≡ text.old.items ++ ended (decimal number) end) }
{
    let digits = format!(in alloc; "{number}")?;
    text.extend_from_slice(digits.as_bytes())?;
    text.push(end)?;
    Ok(())
}

/// Adds the last nine digits of the number.
fn push_last_digits(text: &mut Vec<u8>, number: u64) -> Result<(), AllocError>
    ensures { OnOk result (text.new.items ≡ text.old.items ++ last_digits 9 number) }
{
    for place in 0..9 {
        let digit = number / 10u64.pow(8 - place) % 10;
        text.push(b'0' + digit as u8)?;
    }
    Ok(())
}
