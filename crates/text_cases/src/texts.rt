//! Texts of maps and of scenarios.

use case_kit::{Refusal, escaped, unescaped};
use map_read::{MAX_MAP_BYTES, MapError, read_map, write_map};
use scen_read::{MAX_SCEN_BYTES, ScenError, read_scen, write_scen};
use std::alloc::Global;

/// `TEXT`: the canonical text of the map that the text stands for, or why the text is refused.
pub fn map(alloc: Global, input: &str) -> Result<String, Refusal> {
    let text = unescaped(alloc, input)?;
    if text.len() > MAX_MAP_BYTES {
        return Err(Refusal::OutOfForm);
    }
    match read_map(alloc, text.as_slice()) {
        Ok(grid) => Ok(escaped(alloc, write_map(alloc, &grid)?.as_slice())?),
        Err(MapError::NoMemory) => Err(Refusal::NoMemory),
        Err(fault) => Ok(format!(in alloc; "refused: {fault}")?),
    }
}

/// `TEXT`: the canonical text of the scenarios that the text stands for, or why the text is refused.
pub fn scenarios(alloc: Global, input: &str) -> Result<String, Refusal> {
    let text = unescaped(alloc, input)?;
    if text.len() > MAX_SCEN_BYTES {
        return Err(Refusal::OutOfForm);
    }
    match read_scen(alloc, text.as_slice()) {
        Ok(scenarios) => {
            let text = write_scen(alloc, scenarios.as_slice())?;
            Ok(escaped(alloc, text.as_slice())?)
        }
        Err(ScenError::NoMemory) => Err(Refusal::NoMemory),
        Err(fault) => Ok(format!(in alloc; "refused: {fault}")?),
    }
}
