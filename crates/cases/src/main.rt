//! The cases: each line of the input names a kind and what is tried, and gets one line of output, which has to be the
//! line of the same number among those that are wanted. Blank lines and lines that begin with `#` are given back.
#![tactic(auto)]

use case_kit::Refusal;
use std::alloc::{AllocError, Global};
use std::io;
use std::sync::Wait;
use std::thread::Threads;

fn main(rt: HostRuntime) -> io::Result<()> {
    for line in rt.lines(rt.alloc()) {
        let said = answer(&rt, rt.alloc(), line?.as_str())?;
        println!(rt; "{said}")?;
    }
    Ok(())
}

/// The line of output for a line of input.
fn answer<R: Threads + Wait + Sync>(
    rt: &R,
    alloc: Global,
    line: &str,
) -> Result<String, AllocError> {
    if line.is_empty() || line.starts_with('#') {
        return String::from_str(alloc, line);
    }
    let (kind, input) = line.split_once(" | ").unwrap_or((line, ""));
    match said(rt, alloc, kind, input) {
        Ok(Some(said)) => Ok(said),
        Ok(None) => String::from_str(alloc, "no such kind"),
        Err(Refusal::OutOfForm) => String::from_str(alloc, "not a case"),
        Err(Refusal::NoMemory) => Err(AllocError),
    }
}

/// The line of output for a line of that kind; `None` where there is no such kind.
fn said<R: Threads + Wait + Sync>(
    rt: &R,
    alloc: Global,
    kind: &str,
    input: &str,
) -> Result<Option<String>, Refusal> {
    if let Some(said) = text_cases::answer(alloc, kind, input)? {
        return Ok(Some(said));
    }
    if let Some(said) = row_cases::answer(rt, alloc, kind, input)? {
        return Ok(Some(said));
    }
    if let Some(said) = board_cases::answer(rt, alloc, kind, input)? {
        return Ok(Some(said));
    }
    if let Some(said) = outside_cases::answer(rt, alloc, kind, input)? {
        return Ok(Some(said));
    }
    run_cases::answer(rt, alloc, kind, input)
}
