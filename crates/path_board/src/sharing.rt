//! What a board gives as it is shared: a copy of its version and a seat for each pass.

ghost use Rattle.std.specs.Prelude.{◌≡◌, ◌≤◌, [], length, vec_capacity, IfOk};
ghost use Rattle.std.specs.Arc.{arc_value};
ghost use Rattle.path_board.specs.Dealing.{AreCopies, DealsTo, HasDeal};

use crate::pass::Pass;
use crate::state::BoardState;
use path_core::Board;
use std::alloc::{AllocError, Global};
use std::sync::Arc;
use turn_book::{MAX_SEATS, Seat};
use versions::Version;

/// So many copies of the published version.
///
/// # Errors
///
/// `AllocError` where memory runs out.
pub fn copies(alloc: Global, board: &Board, count: u32) -> Result<Vec<Arc<Version>>, AllocError>
    ensures { IfOk result (λ copies. AreCopies arc_value board.now count copies.items) }
{
    board.version();
    let mut all = Vec::new(alloc);
    for made in 0..count {
        all.push(board.copy_version()?)?;
    }
    Ok(all)
}

/// The passes with these seats.
pub fn deal(seats: Vec<Seat<BoardState>>, versions: Vec<Arc<Version>>, room: Vec<Pass>) -> Vec<Pass>
    requires deal { HasDeal arc_value seats.items versions.items }
    requires few { length seats.items ≤ MAX_SEATS }
    requires room { (room.items ≡ []) × (length seats.items ≤ vec_capacity room) }
    ensures { DealsTo arc_value seats.items versions.items result.items }
{
    let mut seats = seats;
    let mut versions = versions;
    let mut passes = room;
    seats.reverse();
    while let Some(seat) = seats.pop() {
        let number = passes.len() as u32;
        let held = versions.pop().unwrap();
        passes.push_reserved(Pass {
            seat,
            number,
            held,
            count: 0,
        });
    }
    passes
}
