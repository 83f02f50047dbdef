//! Boards that are served at doors.

ghost use Rattle.std.specs.Prelude.{◌≡◌, ◌<◌, ◌≤◌, [], false, All, IfOk, length};
ghost use Rattle.session.specs.declared.boards.TheConstants.{MAX_DOORS};
ghost use Rattle.wire.specs.DoorInMemory.{IsNewLink};

use crate::boards::board_of;
use crate::links::link_in;
use crate::said::{hex_or_none, push_part};
use build_pool::FreeGate;
use case_kit::{Fields, Refusal};
use path_core::Board;
use session::serve_board;
use std::alloc::{AllocError, Global};
use std::sync::Wait;
use std::thread::Threads;
use wire::{Bell, Door, Ear, MemDoor, MemLink, StillBell, TurnEar};

/// The doors at which a board was served. Whether a knock failed, how many entries the board has then and what the
/// builder did are told.
pub(crate) fn serve<D: Door, B: Bell, E: Ear, R: Threads + Wait + Sync>(
    rt: &R,
    alloc: Global,
    board: Board,
    doors: Vec<D>,
    bell: &B,
    ear: &mut E,
) -> Result<(String, Vec<D>), Refusal>
    requires some { 0 < length doors.items }
    requires few { length doors.items ≤ MAX_DOORS }
    requires open { All (λ door. (D.at door).closed ≡ false) doors.items }
    requires none { board.history ≡ [] }
    requires waiting { (E.at ear.old).over ≡ false }
{
    match serve_board(rt, alloc, board, doors, bell, ear, 1, &FreeGate) {
        Ok(served) => {
            let (failed, builds) = (served.failed, served.builds);
            let count = served.board.entries();
            let said = format!(in alloc; "failed {failed}; {count} entries; {builds:?}")?;
            Ok((said, served.doors))
        }
        Err(_) => Err(Refusal::NoMemory),
    }
}

/// `served | MAP | LINK`: a board that is served at a door at which first nobody is there, then a connection comes
/// whose first recv fails, and then the link. How that went, with a builder that hears no ring, and what was sent on
/// both.
pub(crate) fn served<R: Threads + Wait + Sync>(
    rt: &R,
    alloc: Global,
    fields: &mut Fields<'_>,
) -> Result<String, Refusal> {
    let board = board_of(rt, alloc, fields.grid(alloc)?)?;
    let doors = one_door(alloc, link_in(alloc, fields)?)?;
    let mut ear = TurnEar::new(0);
    let (said, doors) = serve(rt, alloc, board, doors, &StillBell, &mut ear)?;
    let mut sent = String::new(alloc);
    for door in &doors {
        for link in door.ended() {
            push_part(&mut sent, hex_or_none(alloc, link.sent())?.as_str())?;
        }
    }
    Ok(format!(in alloc; "{said}; sent {sent}")?)
}

/// A list of the one door, with the link at its second connection.
#[tactic(auto, using(wire::proofs::Making::new_links_push))]
fn one_door(alloc: Global, link: MemLink) -> Result<Vec<MemDoor>, AllocError>
    requires { IsNewLink link }
    ensures open { IfOk result (λ doors. All (λ door. door.closed ≡ false) doors.items) }
    ensures one { IfOk result (λ doors. length doors.items ≡ 1) }
{
    let (none, uncut, unfailing) = (Vec::new(alloc), Vec::new(alloc), Vec::new(alloc));
    let failing = MemLink::new(alloc, none, uncut, 0, vec![in alloc; 1]?, unfailing)?;
    let mut links = Vec::new(alloc);
    links.push(failing)?;
    links.push(link)?;
    let mut doors = Vec::new(alloc);
    doors.push(MemDoor::new(alloc, links, vec![in alloc; 1]?, Vec::new(alloc))?)?;
    Ok(doors)
}
