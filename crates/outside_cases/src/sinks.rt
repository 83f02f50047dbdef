//! Sinks in memory.

use crate::links::{calls_in, sizes_in};
use crate::said::{push_part, quoted};
use case_kit::{Fields, Refusal};
use std::alloc::{AllocError, Global};
use wire::{MemSink, Sink, SteadySink, put_all};

/// `memory sink | ROOM | CUTS | FAILS | TEXT, ..`: whether each text is put whole, the bytes that were put, and how
/// many puts failed.
pub(crate) fn memory_sink(alloc: Global, fields: &mut Fields<'_>) -> Result<String, Refusal> {
    let room = fields.number()? as usize;
    let cuts = sizes_in(alloc, fields)?;
    let fails = calls_in(alloc, fields)?;
    let mut sink = MemSink::cut(alloc, room, cuts, fails)?;
    let said = puts_said(alloc, &mut sink, fields.text()?)?;
    let bytes = quoted(alloc, sink.bytes())?;
    let faults = sink.fault_count();
    Ok(format!(in alloc; "{said}; {bytes}, faults {faults}")?)
}

/// Whether each text is put whole.
fn puts_said<K: Sink>(alloc: Global, sink: &mut K, texts: &str) -> Result<String, AllocError> {
    let mut said = String::new(alloc);
    for text in texts.split(", ") {
        let is_put = put_all(sink, text.as_bytes()).is_ok();
        push_part(&mut said, if is_put { "put" } else { "failed" })?;
    }
    Ok(said)
}

/// `steady sink | TEXT, ..`: whether each text is put whole into a sink that never fails.
pub(crate) fn steady_sink(alloc: Global, fields: &mut Fields<'_>) -> Result<String, Refusal> {
    let texts = fields.text()?;
    Ok(puts_said(alloc, &mut SteadySink::new(), texts)?)
}
