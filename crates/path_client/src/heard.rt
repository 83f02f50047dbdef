//! An answer that was received.

ghost use Rattle.std.specs.Prelude.{◌≡◌, ◌<◌};
ghost use Rattle.moves.specs.Moves.{number_of};

use moves::Move;
use query_proto::Reply;
use std::alloc::{AllocError, Global};
use std::marker::Model;

/// A list of moves.
#[derive(Debug, Drop)]
pub struct MoveList {
    moves: Vec<Move>,
}

impl Model for MoveList {
    ghost use Rattle.std.specs.Prelude.{List};
    ghost use Rattle.moves.specs.declared.Move.{Move};

    ghost Value = { List Move };

    ghost view = { λ list. list.moves.items };
}

impl MoveList {
    ghost use Rattle.std.specs.Prelude.{◌≡◌, [], map, IfOk};
    ghost use Rattle.moves.specs.Moves.{number_of};
    ghost use Rattle.path_client.specs.Asking.{AreNumbers};

    /// The moves, in order.
    pub fn moves(&self) -> &[Move]
        ensures { result.now ≡ self.now }
    {
        &self.moves
    }

    /// No moves. It allocates nothing.
    pub(crate) fn none(alloc: Global) -> MoveList
        ensures { result ≡ [] }
    {
        MoveList {
            moves: Vec::new(alloc),
        }
    }

    /// The moves with these numbers.
    pub(crate) fn of_numbers(alloc: Global, numbers: &[u8]) -> Result<MoveList, AllocError>
        requires { AreNumbers numbers.now }
        ensures { IfOk result (λ moves. map number_of moves ≡ numbers.now) }
    {
        let mut moves = Vec::with_capacity(alloc, numbers.len())?;
        for &number in numbers {
            moves.push(move_of(number))?;
        }
        Ok(MoveList { moves })
    }
}

/// The move with this number.
fn move_of(number: u8) -> Move
    requires { number < 8 }
    ensures { number_of result ≡ number }
{
    Move::of(number).unwrap_or_default()
}

/// An answer.
#[derive(Debug, Drop)]
pub struct Heard {
    /// The reply.
    pub reply: Reply,
    /// The moves of the path if the reply is a path, else none.
    pub moves: MoveList,
}
