//! The house of a run: its doors and its link, each at one of two ports.

ghost use Rattle.std.specs.Prelude.{◌≡◌, [], IfOk, None};
ghost use Rattle.wire.specs.DoorInMemory.{AreNewLinks, IsNewLink};
ghost use Rattle.wire.specs.HouseInMemory.{AreNewDoors, IsNewDoor, IsNewLinkAt};
ghost use Rattle.wire.specs.LinkInMemory.{CutsGiveSome};
ghost use Rattle.wire.specs.Houses.{no_lendings};

use crate::settings::Settings;
use case_kit::{Fields, Refusal};
use std::alloc::{AllocError, Global};
use wire::{MemDoor, MemHouse, MemLink};

/// The port at which the house has doors for sessions, and the link to a server.
const PORT: u16 = 4000;

/// The port at which it has the door for a feed, and the link to a leader.
const FEED: u16 = 4001;

/// How many recvs are cut where what comes in at once is told, more than any input here has bytes.
const CUTS: usize = 64;

/// How many bytes may be sent on a link.
const ROOM: usize = 400;

/// The house.
pub fn house_of(alloc: Global, settings: Settings<'_>) -> Result<MemHouse, Refusal>
    ensures asked { IfOk result (λ house. house.asked ≡ []) }
    ensures called { IfOk result (λ house. house.called ≡ None) }
    ensures lent { IfOk result (λ house. house.lent ≡ no_lendings) }
{
    let doors = with_named(alloc, Vec::new(alloc), settings, "door", PORT)?;
    let doors = with_named(alloc, doors, settings, "next-door", PORT)?;
    let doors = with_named(alloc, doors, settings, "feed", FEED)?;
    let link = called_link(alloc, settings)?;
    let fails = settings.numbers(alloc, "house-fails")?;
    Ok(MemHouse::new(alloc, doors, link, fails)?)
}

/// The link of the house with its port, if it has one.
fn called_link(alloc: Global, settings: Settings<'_>) -> Result<Option<(u16, MemLink)>, Refusal>
    ensures { IfOk result IsNewLinkAt }
{
    if let Some(bytes) = settings.value("link") {
        return Ok(Some((PORT, link_of(alloc, settings, bytes)?)));
    }
    match settings.value("leader") {
        Some(bytes) => Ok(Some((FEED, link_of(alloc, settings, bytes)?))),
        None => Ok(None),
    }
}

/// The link on which these bytes come in, and of which the recvs and sends fail that are to.
pub fn link_of(alloc: Global, settings: Settings<'_>, bytes: &str) -> Result<MemLink, Refusal>
    ensures { IfOk result IsNewLink }
{
    let input = Fields::of(bytes).bytes(alloc)?;
    let recv_fails = settings.numbers(alloc, "recv-fails")?;
    let send_fails = settings.numbers(alloc, "send-fails")?;
    let cuts = cuts_of(alloc, settings)?;
    Ok(MemLink::new(alloc, input, cuts, ROOM, recv_fails, send_fails)?)
}

/// How much of an input comes in at once: all of it, where that is not told.
fn cuts_of(alloc: Global, settings: Settings<'_>) -> Result<Vec<usize>, Refusal>
    ensures { IfOk result (λ cuts. CutsGiveSome cuts.items) }
{
    match settings.value("piece") {
        Some(text) => {
            let piece = text.parse::<usize>().map_err(|_| Refusal::OutOfForm)?;
            Ok(some_cuts(alloc, vec![in alloc; piece; CUTS]?))
        }
        None => Ok(Vec::new(alloc)),
    }
}

/// These cuts, if each lets a byte through; else none.
fn some_cuts(alloc: Global, cuts: Vec<usize>) -> Vec<usize>
    ensures { CutsGiveSome result.items }
{
    match cuts.iter().all(|most| *most > 0) {
        true => cuts,
        false => Vec::new(alloc),
    }
}

/// The doors, and one more at that port where the settings have one of that name.
fn with_named(
    alloc: Global,
    doors: Vec<(u16, MemDoor)>,
    settings: Settings<'_>,
    name: &str,
    port: u16,
) -> Result<Vec<(u16, MemDoor)>, Refusal>
    requires { AreNewDoors doors.items }
    ensures { IfOk result (λ doors. AreNewDoors doors.items) }
{
    match settings.value(name) {
        Some(bytes) => Ok(with_door(doors, port, door_of(alloc, settings, bytes)?)?),
        None => Ok(doors),
    }
}

/// A door with one connection, on which these bytes come in; with `closed` there is none.
fn door_of(alloc: Global, settings: Settings<'_>, bytes: &str) -> Result<MemDoor, Refusal>
    ensures { IfOk result IsNewDoor }
{
    let fails = settings.numbers(alloc, "knock-fails")?;
    let conns = conns_of(alloc, settings, bytes)?;
    Ok(MemDoor::new(alloc, conns, Vec::new(alloc), fails)?)
}

/// The connections of a door.
fn conns_of(alloc: Global, settings: Settings<'_>, bytes: &str) -> Result<Vec<MemLink>, Refusal>
    ensures { IfOk result (λ conns. AreNewLinks conns.items) }
{
    if bytes == "closed" {
        return Ok(Vec::new(alloc));
    }
    Ok(with_link(Vec::new(alloc), link_of(alloc, settings, bytes)?)?)
}

/// The links and one more.
#[tactic(auto, using(wire::proofs::Making::new_links_push))]
fn with_link(mut links: Vec<MemLink>, link: MemLink) -> Result<Vec<MemLink>, AllocError>
    requires links { AreNewLinks links.items }
    requires link { IsNewLink link }
    ensures { IfOk result (λ all. AreNewLinks all.items) }
{
    links.push(link)?;
    Ok(links)
}

/// The doors and one more.
#[tactic(auto, using(wire::proofs::Making::new_doors_push))]
fn with_door(
    mut doors: Vec<(u16, MemDoor)>,
    port: u16,
    door: MemDoor,
) -> Result<Vec<(u16, MemDoor)>, AllocError>
    requires doors { AreNewDoors doors.items }
    requires door { IsNewDoor door }
    ensures { IfOk result (λ all. AreNewDoors all.items) }
{
    doors.push((port, door))?;
    Ok(doors)
}
