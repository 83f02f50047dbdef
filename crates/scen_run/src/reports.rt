//! The report on scenarios.

ghost use Rattle.std.specs.Prelude.{◌≡◌, ◌++◌, List, ℕ, count_by, IfOk, OnOk, string_bytes, codes};
ghost use Rattle.std.specs.Fmt.{decimal};
ghost use Rattle.scen_run.specs.Inside.{AddsCost, AddsSaid, AddsLine, is_of};
ghost use Rattle.scen_run.specs.Reports.{AreShort, HasLength, IsReport, IsShort, totals_line};

use crate::results::LineResult;
use root_cost::Cost;
use std::alloc::{AllocError, Global};
use std::fmt::Write;

/// The kinds of results that the last line counts.
#[derive(Clone, Copy, Debug, PartialEq, Eq)]
pub(crate) enum Kind {
    Match,
    Differs,
    Unreachable,
    Refused,
    Scaled,
}

/// The report: a line for each result with its number from 1, and a last line that counts them.
///
/// Both parts of each cost are at most [`MAX_STEPS`](root_cost::MAX_STEPS).
///
/// # Errors
///
/// `AllocError` where memory runs out.
pub fn report(alloc: Global, results: &[LineResult]) -> Result<String, AllocError>
    requires { AreShort results.now }
    ensures { IfOk result (λ text. IsReport results.now (string_bytes text)) }
{
    let mut text = String::new(alloc);
    for place in 0..results.len() {
        push_line(&mut text, place + 1, results[place])?;
    }
    push_totals(&mut text, results)?;
    Ok(text)
}

/// Adds the line of a result with its number.
fn push_line(text: &mut String, number: usize, line: LineResult) -> Result<(), AllocError>
    requires { IsShort line }
    ensures { OnOk result (AddsLine number line (string_bytes text.old) (string_bytes text.new)) }
{
    write!(text, "{number} ")?;
    push_said(text, line)?;
    text.push_str("\n")?;
    Ok(())
}

/// Adds what is said of a result.
fn push_said(text: &mut String, line: LineResult) -> Result<(), AllocError>
    requires { IsShort line }
    ensures { OnOk result (AddsSaid line (string_bytes text.old) (string_bytes text.new)) }
{
    match line {
        LineResult::Match { cost } => push_cost(text, "match ", cost),
        LineResult::Differs { cost } => push_cost(text, "differs ", cost),
        LineResult::Unreachable => text.push_str("unreachable"),
        LineResult::Refused(why) => write!(text, "{why}"),
        LineResult::Scaled => text.push_str("scaled"),
    }
}

/// Adds a word, a cost and its length.
fn push_cost(text: &mut String, word: &str, cost: Cost) -> Result<(), AllocError>
    requires { HasLength cost }
    ensures { OnOk result
        (AddsCost word.now cost (string_bytes text.old) (string_bytes text.new)) }
{
    let Cost { straight, diagonal } = cost;
    let length = cost.length();
    write!(text, "{word}{straight} ")?;
    write!(text, "{diagonal} {length}")
}

/// Adds the last line.
fn push_totals(text: &mut String, results: &[LineResult]) -> Result<(), AllocError>
    ensures { OnOk result
        (string_bytes text.new ≡ string_bytes text.old ++ totals_line results.now) }
{
    push_count(text, "scenarios ", results.len())?;
    push_count(text, " match ", count(results, Kind::Match))?;
    push_count(text, " differs ", count(results, Kind::Differs))?;
    push_count(text, " unreachable ", count(results, Kind::Unreachable))?;
    push_count(text, " refused ", count(results, Kind::Refused))?;
    push_count(text, " scaled ", count(results, Kind::Scaled))?;
    text.push_str("\n")?;
    Ok(())
}

/// Adds a word and a number.
fn push_count(text: &mut String, word: &str, count: usize) -> Result<(), AllocError>
    ensures { OnOk result
        (string_bytes text.new ≡ string_bytes text.old ++ (word.now ++ decimal count)) }
{
    write!(text, "{word}{count}")
}

/// How many results are of that kind.
fn count(results: &[LineResult], kind: Kind) -> usize
    ensures { result ≡ count_by (is_of kind) results.now }
{
    results.iter().filter(|line| is_of(**line, kind)).count()
}

/// Whether the result is of that kind.
fn is_of(line: LineResult, kind: Kind) -> bool
    ensures { result ≡ is_of kind line }
{
    match line {
        LineResult::Match { .. } => kind == Kind::Match,
        LineResult::Differs { .. } => kind == Kind::Differs,
        LineResult::Unreachable => kind == Kind::Unreachable,
        LineResult::Refused(_) => kind == Kind::Refused,
        LineResult::Scaled => kind == Kind::Scaled,
    }
}
