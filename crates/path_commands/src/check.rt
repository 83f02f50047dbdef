//! `check MAP`: how large a map and its database are.

ghost use Rattle.std.specs.Prelude.{◌≡◌, ◌++◌, IfOk, string_bytes};
ghost use Rattle.path_commands.specs.Texts.{check_text, line, numbers_text};
ghost use Rattle.std.specs.Fmt.{decimal};

use std::alloc::{AllocError, Global};
use std::fmt::Write;
use versions::{Totals, Version};

/// Returns the sides of the map, and the numbers of passable cells, of components and of runs, a
/// line each.
pub fn answer_check(alloc: Global, version: &Version) -> Result<String, AllocError>
    ensures { IfOk result (λ text. string_bytes text ≡ check_text version.now) }
{
    let width = version.grid().width();
    let height = version.grid().height();
    let mut text = String::new(alloc);
    write!(text, "size {width} {height}\n")?;
    push_numbers(&mut text, version.totals())?;
    Ok(text)
}

/// Writes the numbers of cells, of components and of runs, a line each.
pub fn push_numbers(text: &mut String, totals: Totals) -> Result<(), AllocError>
    ensures { IfOk result (λ _. string_bytes text.new
        ≡ string_bytes text.old ++ numbers_text totals.cells totals.comps totals.runs) }
{
    push_number(text, "cells ", u64::from(totals.cells))?;
    push_number(text, "components ", u64::from(totals.comps))?;
    push_number(text, "runs ", totals.runs)?;
    Ok(())
}

/// Writes a word and a number, as a line.
pub fn push_number(text: &mut String, word: &str, number: u64) -> Result<(), AllocError>
    ensures { IfOk result (λ _.
        string_bytes text.new ≡ string_bytes text.old ++ line (word.now ++ decimal number)) }
{
    write!(text, "{word}{number}\n")
}
