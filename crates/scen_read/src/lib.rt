//! Scenarios as text: the queries of a scenario file, each with the length that the file states, and the text of
//! scenarios. (MovingAI scenario format page, version 1.)
//!
//! A list without scenarios, and its canonical text:
//!
//! ```text
//! scen text | version 1.0\r\n\r\n \t\r\n
//! version 1\n
//! ```
#![tactic(auto)]

ghost use Rattle.std.specs.Prelude.{◌≡◌, ◌≤◌, Ok, Err, length, IfOk};
ghost use Rattle.scen_read.specs.declared.fault.ScenFault.{ScenFault};
ghost use Rattle.scen_read.specs.declared.fault.ScenError.TheVariants.{Fault};
ghost use Rattle.scen_read.specs.Accepted.{AcceptsExactlyScenarioTexts};
ghost use Rattle.scen_read.specs.Refused.{RefusalsNameTheFirstFault};
ghost use Rattle.scen_read.specs.ScenText.{scenarios_of};
ghost use Rattle.scen_read.specs.Written.{AreWritable, WrittenScenariosReadBack};

mod fault;
mod fields;
mod length;
mod scenario;
mod writing;

pub use fault::{ScenError, ScenFault};
pub use scenario::ScenLine;
use scenario::{is_version_line, parts_of};
use std::alloc::Global;
use text_lines::{Lines, is_blank};
pub use writing::write_scen;

/// The greatest length of a scenario file, in bytes.
pub const MAX_SCEN_BYTES: usize = 16_777_216;

/// The lines of a scenario file.
type ScenLines<'a> = Lines<'a, MAX_SCEN_BYTES>;

/// The scenarios of a text of at most `MAX_SCEN_BYTES` bytes, or why there are none: the first refusal in the order of
/// the file. The first line is `version 1` or `version 1.0`. Each further line that is not blank is a scenario of nine
/// fields. What was read can be written: names keep their places, and each `nano` is below 10^16.
pub fn read_scen(alloc: Global, bytes: &[u8]) -> Result<Vec<ScenLine>, ScenError>
    requires { length bytes.now ≤ MAX_SCEN_BYTES }
    ensures scenarios { IfOk result (λ lines. scenarios_of bytes.now ≡ Ok lines.items) }
    ensures fault { (f : ScenFault) → result ≡ Err (Fault f) → scenarios_of bytes.now ≡ Err f }
    ensures writable { IfOk result (λ lines. AreWritable lines.items) }
{
    let mut lines = ScenLines::of(bytes);
    if !is_version_line(lines.next_or_empty()) {
        return Err(ScenError::Fault(ScenFault::Version));
    }
    let mut scenarios = Vec::new(alloc);
    let mut number = 2;
    while let Some(line) = lines.next() {
        if !is_blank(line) {
            parts_of(number, line)?.add_to(alloc, &mut scenarios)?;
        }
        number += 1;
    }
    Ok(scenarios)
}

/// A law, stated in the contract: the greatest length of a scenario file is 16 MiB.
pub fn limit_is_this()
    ensures { MAX_SCEN_BYTES ≡ 16777216 }
{}

/// A law, stated in the contract: a text is accepted exactly where each of its lines is a scenario or blank, and then
/// with these scenarios.
pub fn accepts_exactly_scenario_texts()
    ensures { AcceptsExactlyScenarioTexts }
{}

/// A law, stated in the contract: the refusal of a text names a line or a field that is at fault, and nothing before it
/// is.
pub fn refusals_name_the_first_fault()
    ensures { RefusalsNameTheFirstFault }
{}

/// A law, stated in the contract: reading the text of scenarios gives these scenarios.
pub fn written_scenarios_read_back()
    ensures { WrittenScenariosReadBack }
{}
