//! What is told of a run that ended.

use case_kit::{escaped, hex_of};
use path_commands::Status;
use std::alloc::{AllocError, Global};
use std::fmt::Write;
use wire::{MemDoor, MemFiles, MemHouse, MemLink, MemSink};

/// What a run is made over, but for its house.
#[derive(Drop)]
pub struct Around {
    /// The files.
    pub files: MemFiles,
    /// The input.
    pub input: MemLink,
    /// The output.
    pub out: MemSink,
}

/// A run that ended.
#[derive(Drop)]
pub struct Ended {
    /// How it ended.
    pub status: Status,
    /// What it was made over.
    pub around: Around,
    /// Its house.
    pub house: MemHouse,
}

/// The exit status and what was put on the output, with escapes, and then each of these that there is:
///
/// - how a session broke off;
/// - `file faults M S OTHER`: how often a read has failed of `M`, of `S`, and of any other name;
/// - `sent HEX`: what was sent on the input; `left N`: how many bytes of the input have not come in;
///   `input faults R S`: how many of its recvs and of its sends have failed;
/// - `asked PORT COUNT`: the doors that the house was asked for;
/// - `door PORT closed` or `door PORT open`, and what was sent at each of its connections: a door that was handed back;
/// - `link PORT` and what was sent on it: a link that was hung up;
/// - `house faults D R S`: how often doors, recvs and sends have failed, as the house counts them.
pub fn told(alloc: Global, ended: &Ended) -> Result<String, AllocError> {
    let mut text = String::new(alloc);
    push_end(&mut text, alloc, &ended.status, ended.around.out.bytes())?;
    push_files(&mut text, &ended.around.files)?;
    push_input(&mut text, alloc, &ended.around.input)?;
    push_house(&mut text, alloc, &ended.house)?;
    Ok(text)
}

/// Writes the exit status, what was put, and how a session broke off.
fn push_end(
    text: &mut String,
    alloc: Global,
    status: &Status,
    put: &[u8],
) -> Result<(), AllocError> {
    let code = status.code();
    write!(text, "{code}")?;
    if !put.is_empty() {
        text.push(' ')?;
        text.push_str(escaped(alloc, put)?.as_str())?;
    }
    if let Status::Broken(fault) = status {
        write!(text, " | {fault:?}")?;
    }
    Ok(())
}

/// Writes how often some calls have failed, where one has.
fn push_faults(text: &mut String, what: &str, counts: &[u64]) -> Result<(), AllocError> {
    if counts.iter().all(|count| *count == 0) {
        return Ok(());
    }
    write!(text, " | {what} faults")?;
    for count in counts {
        write!(text, " {count}")?;
    }
    Ok(())
}

/// Writes how often reads of files have failed.
fn push_files(text: &mut String, files: &MemFiles) -> Result<(), AllocError> {
    let (map, second) = (files.fault_count("M"), files.fault_count("S"));
    push_faults(text, "file", &[map, second, files.fault_count("")])
}

/// Writes what was sent on the input, what is left of it and how often it has failed.
fn push_input(text: &mut String, alloc: Global, input: &MemLink) -> Result<(), AllocError> {
    if !input.sent().is_empty() {
        text.push_str(" |")?;
        push_sent(text, alloc, input)?;
    }
    let left = input.left().len();
    if left != 0 {
        write!(text, " | left {left}")?;
    }
    let (recvs, sends) = (input.read_fault_count(), input.write_fault_count());
    push_faults(text, "input", &[recvs, sends])
}

/// Writes what was sent on a link, where anything was.
fn push_sent(text: &mut String, alloc: Global, link: &MemLink) -> Result<(), AllocError> {
    if link.sent().is_empty() {
        return text.push_str(" nothing sent");
    }
    text.push_str(" sent ")?;
    text.push_str(hex_of(alloc, link.sent())?.as_str())
}

/// Writes what a house was asked for, what was handed back to it, and how often it has failed.
fn push_house(text: &mut String, alloc: Global, house: &MemHouse) -> Result<(), AllocError> {
    for asked in house.asked() {
        let (port, count) = (asked.port, asked.count);
        write!(text, " | asked {port} {count}")?;
    }
    for door in house.doors_back() {
        push_door(text, alloc, door)?;
    }
    for (port, link) in house.links_back() {
        push_port(text, "link", *port)?;
        push_sent(text, alloc, link)?;
    }
    let (recvs, sends) = (house.read_fault_count(), house.write_fault_count());
    push_faults(text, "house", &[house.door_fault_count(), recvs, sends])
}

/// Writes a door that was handed back.
fn push_door(text: &mut String, alloc: Global, door: &MemDoor) -> Result<(), AllocError> {
    push_port(text, "door", door.port())?;
    text.push_str(if door.is_closed() { " closed" } else { " open" })?;
    for link in door.ended() {
        push_sent(text, alloc, link)?;
    }
    Ok(())
}

/// Writes the port of a door or a link.
fn push_port(text: &mut String, what: &str, port: Option<u16>) -> Result<(), AllocError> {
    match port {
        Some(port) => write!(text, " | {what} {port}"),
        None => write!(text, " | {what} at no port"),
    }
}
