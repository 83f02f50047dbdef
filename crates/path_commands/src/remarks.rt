//! The remarks on the results of scenarios: which stated lengths differ from those found, and which scenarios are for a
//! map of another size.

ghost use Rattle.scen_run.specs.Reports.{AreShort, HasLength, IsShort};

use moves::Grid;
use root_cost::{Cost, Length};
use scen_read::ScenLine;
use scen_run::LineResult;
use std::alloc::{AllocError, Global};
use std::fmt::Write;

/// The most scenarios of each kind that are listed.
const NAMED: usize = 10;

/// How many scenarios differ, and how many are for a map of another size.
#[derive(Clone, Copy)]
struct Counts {
    differs: usize,
    scaled: usize,
}

impl Counts {
    /// Returns the counts with one result more.
    fn with(self, said: LineResult) -> Counts {
        match said {
            LineResult::Differs { .. } => Counts {
                differs: self.differs.saturating_add(1),
                ..self
            },
            LineResult::Scaled => Counts {
                scaled: self.scaled.saturating_add(1),
                ..self
            },
            _ => self,
        }
    }

    /// Returns whether one more result of this kind is listed.
    fn names(self, said: LineResult) -> bool {
        match said {
            LineResult::Differs { .. } => self.differs < NAMED,
            LineResult::Scaled => self.scaled < NAMED,
            _ => false,
        }
    }
}

/// Returns the remarks on the results of scenarios on a map. The text is empty if no scenario differs and none is for a
/// map of another size.
pub(crate) fn scenario_remarks(
    alloc: Global,
    grid: &Grid,
    scenarios: &[ScenLine],
    results: &[LineResult],
) -> Result<String, AllocError>
    requires { AreShort results.now }
{
    let mut text = String::new(alloc);
    let mut counts = Counts {
        differs: 0,
        scaled: 0,
    };
    for (place, scenario) in scenarios.iter().enumerate().take(results.len()) {
        let said = results[place];
        if counts.names(said) {
            push_remark(&mut text, place, scenario, said, grid)?;
        }
        counts = counts.with(said);
    }
    push_counts(&mut text, counts)?;
    Ok(text)
}

/// Writes the remark on the scenario at this index, if its result calls for one.
fn push_remark(
    text: &mut String,
    place: usize,
    scenario: &ScenLine,
    said: LineResult,
    grid: &Grid,
) -> Result<(), AllocError>
    requires { IsShort said }
{
    match said {
        LineResult::Differs { cost } => {
            push_number(text, place)?;
            push_lengths(text, scenario.nano, cost)
        }
        LineResult::Scaled => {
            push_number(text, place)?;
            push_sides(text, scenario, grid)
        }
        _ => Ok(()),
    }
}

/// Writes the number of the scenario, from 1.
fn push_number(text: &mut String, place: usize) -> Result<(), AllocError> {
    let number = place.saturating_add(1);
    write!(text, "path_server scen: scenario {number}: ")
}

/// Writes the stated length and the one found.
fn push_lengths(text: &mut String, nano: u64, cost: Cost) -> Result<(), AllocError>
    requires { HasLength cost }
{
    let stated = Length {
        micro: nano / 1_000,
    };
    let found = cost.length();
    write!(text, "stated length {stated}, found {found}\n")
}

/// Writes the stated size and that of the map.
fn push_sides(text: &mut String, scenario: &ScenLine, grid: &Grid) -> Result<(), AllocError> {
    let (width, height) = (scenario.width, scenario.height);
    write!(text, "stated map size {width} by {height}, ")?;
    let (width, height) = (grid.width(), grid.height());
    write!(text, "found {width} by {height}\n")
}

/// Writes how many there are of each kind, if there are any.
fn push_counts(text: &mut String, counts: Counts) -> Result<(), AllocError> {
    let Counts { differs, scaled } = counts;
    if differs == 0 && scaled == 0 {
        return Ok(());
    }
    write!(text, "path_server scen: {differs} of another length, ")?;
    write!(text, "{scaled} for a map of another size")?;
    if differs > NAMED || scaled > NAMED {
        write!(text, "; only {NAMED} of each are listed")?;
    }
    text.push_str("\n")
}
