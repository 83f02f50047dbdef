//! Bells and ears, beside one thread and between two.

use crate::said::push_part;
use case_kit::{Fields, Refusal};
use std::alloc::Global;
use std::sync::Wait;
use std::thread;
use std::thread::Threads;
use wire::{Bell, Ear, HostBell, HostEar, Ring};

/// `bell | CALL CALL ..`: what the waits answer among calls `ring`, `shut` and `wait` of one bell. No wait may
/// stand there that nothing ends.
pub(crate) fn bell<R: Wait>(
    rt: &R,
    alloc: Global,
    fields: &mut Fields<'_>,
) -> Result<String, Refusal> {
    let bell = HostBell::new();
    let mut ear = bell.ear();
    let mut said = String::new(alloc);
    for call in fields.text()?.split_whitespace() {
        match call {
            "ring" => bell.ring(rt),
            "shut" => bell.shut(rt),
            "wait" => {
                let heard = ear.wait(rt);
                push_part(&mut said, format!(in alloc; "{heard:?}")?.as_str())?;
            }
            _ => return Err(Refusal::OutOfForm),
        }
    }
    Ok(said)
}

/// `bells in turn | ROUNDS`: two threads wake each other so many times, each by a bell at whose ear the other waits.
/// How many rings each has heard.
pub(crate) fn in_turn<R: Threads + Wait + Sync>(
    rt: &R,
    alloc: Global,
    fields: &mut Fields<'_>,
) -> Result<String, Refusal> {
    let (first, second) = heard_in_turn(rt, fields.number()?);
    Ok(format!(in alloc; "{first} and {second} rings")?)
}

/// How many rings each of two threads has heard that wake each other so many times.
fn heard_in_turn<R: Threads + Wait + Sync>(rt: &R, rounds: u32) -> (u32, u32) {
    let (there, back) = (HostBell::new(), HostBell::new());
    there.ring(rt);
    thread::join(
        rt,
        || ring_back(rt, back.ear(), &there, rounds),
        || ring_back(rt, there.ear(), &back, rounds),
    )
}

/// Waits at an ear and rings a bell, so many times, and says how many rings were heard.
fn ring_back<R: Wait>(rt: &R, mut ear: HostEar, bell: &HostBell, rounds: u32) -> u32 {
    let mut heard: u32 = 0;
    for _ in 0..rounds {
        heard = heard.saturating_add(u32::from(ear.wait(rt) == Ring::Rung));
        bell.ring(rt);
    }
    heard
}
