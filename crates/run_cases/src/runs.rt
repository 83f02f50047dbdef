//! Whole runs over files, an input, an output and a house in memory.

use crate::commands::words_of;
use crate::ended::{Around, Ended, told};
use crate::house::{house_of, link_of};
use crate::settings::Settings;
use build_pool::Gate;
use case_kit::{Fields, Refusal};
use path_commands::{Status, Watch, put};
use path_run::run;
use std::alloc::{AllocError, Global};
use std::sync::Wait;
use std::sync::atomic::{AtomicU64, Ordering};
use std::thread::Threads;
use wire::{MemFiles, MemSink, StillBell, TurnEar};

/// How many bytes the output takes.
const ROOM: usize = 400;

/// How many bytes the first puts take at most; later ones are not cut.
const CUTS: [usize; 4] = [1, 2, 3, 4];

/// A gate that counts the pieces of builds that pass.
#[derive(Drop)]
struct CountGate {
    entered: AtomicU64,
}

impl Gate for CountGate {
    fn enter(&self, _piece: u32) {
        self.entered.fetch_add(1, Ordering::SeqCst);
    }
}

impl Watch for CountGate {}

/// How a run ends: `run | WORDS | SETTING | ..`.
pub fn run_said<R: Threads + Wait + Sync>(
    rt: &R,
    alloc: Global,
    input: &str,
) -> Result<String, Refusal> {
    let (ended, _) = ended(rt, alloc, input)?;
    Ok(told(alloc, &ended)?)
}

/// How a run ends, and how many pieces it builds: `pieces | WORDS | SETTING | ..`.
pub fn pieces_said<R: Threads + Wait + Sync>(
    rt: &R,
    alloc: Global,
    input: &str,
) -> Result<String, Refusal> {
    let (ended, pieces) = ended(rt, alloc, input)?;
    let code = ended.status.code();
    Ok(format!(in alloc; "{code} pieces {pieces}")?)
}

/// The run that a line names, over what its settings say, and how many pieces it builds.
fn ended<R: Threads + Wait + Sync>(
    rt: &R,
    alloc: Global,
    input: &str,
) -> Result<(Ended, u64), Refusal> {
    let mut fields = Fields::of(input);
    let words = words_of(alloc, fields.text()?)?;
    let settings = Settings::of(fields.rest())?;
    let mut around = around_of(alloc, settings)?;
    let mut house = house_of(alloc, settings)?;
    let gate = CountGate {
        entered: AtomicU64::new(0),
    };
    let status = run(
        rt,
        alloc,
        words.as_slice(),
        &mut around.files,
        &mut around.input,
        &mut around.out,
        &mut house,
        &StillBell,
        &mut TurnEar::new(0),
        &gate,
    );
    let ended = Ended {
        status,
        around,
        house,
    };
    Ok((ended, gate.entered.load(Ordering::SeqCst)))
}

/// The files, the input and the output of a run.
fn around_of(alloc: Global, settings: Settings<'_>) -> Result<Around, Refusal> {
    let files = files_of(alloc, settings)?;
    let input = link_of(alloc, settings, settings.value("input").unwrap_or("-"))?;
    let out = out_of(alloc, settings)?;
    Ok(Around { files, input, out })
}

/// The files `M` and `S`.
fn files_of(alloc: Global, settings: Settings<'_>) -> Result<MemFiles, Refusal> {
    let map = map_bytes(alloc, settings)?;
    let second = settings.bytes(alloc, "S")?;
    let fails = settings.numbers(alloc, "read-fails")?;
    Ok(named(alloc, map, second, fails)?)
}

/// The files with these bytes, of which the reads with these numbers fail.
fn named(
    alloc: Global,
    map: Vec<u8>,
    second: Vec<u8>,
    fails: Vec<u64>,
) -> Result<MemFiles, AllocError> {
    let mut files = Vec::with_capacity(alloc, 2)?;
    files.push((String::from_str(alloc, "M")?, map))?;
    files.push((String::from_str(alloc, "S")?, second))?;
    MemFiles::new(alloc, files, fails)
}

/// The bytes of `M`.
fn map_bytes(alloc: Global, settings: Settings<'_>) -> Result<Vec<u8>, Refusal> {
    let Some(rows) = settings.value("rows") else {
        return settings.bytes(alloc, "M");
    };
    let height = rows.split('/').count();
    let width = rows.find('/').unwrap_or(rows.len());
    let mut text = format!(in alloc; "type octile\nheight {height}\nwidth {width}\nmap\n")?;
    for row in rows.split('/') {
        text.push_str(row)?;
        text.push('\n')?;
    }
    Ok(text.into_bytes())
}

/// The output, with what it holds before the run.
fn out_of(alloc: Global, settings: Settings<'_>) -> Result<MemSink, Refusal> {
    let held = settings.bytes(alloc, "held")?;
    let fails = settings.numbers(alloc, "put-fails")?;
    let mut out = MemSink::cut(alloc, ROOM, CUTS.to_vec(alloc)?, fails)?;
    match put(&mut out, held.as_slice(), Status::Done) {
        Status::Done => Ok(out),
        _ => Err(Refusal::OutOfForm),
    }
}
