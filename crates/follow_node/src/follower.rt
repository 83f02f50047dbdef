//! A follower: it takes the bytes of a feed, in any pieces, and has a board of the edits in them.

ghost use Rattle.std.specs.Prelude.{◌≡◌, ◌⊎◌, ◌↔◌, ℕ, ◌<◌, ◌≤◌, [], ◌∷◌, ◌++◌, Some, None, IfErr, IfOk, IsTrue, OnErr, OnOk, MatchOption, drop, length, option_map};
ghost use Rattle.follow_proto.specs.Feeds.{ask_bytes};
ghost use Rattle.follow_node.specs.declared.faults.FollowFault.TheVariants.{NoMemory};
ghost use Rattle.follow_node.specs.Following.{followed_of, Judges, JudgesOrHalts};
ghost use Rattle.follow_node.specs.Links.{IsAwaited};
ghost use Rattle.follow_node.specs.Stages.{IsStage};
ghost use Rattle.follow_node.specs.Streams.{accepted_of, new_following, place_behind, IsBegun, RunsShort, StopsShort, Takes, Took};

use crate::faults::FollowFault;
use crate::hearing::hear;
use byteorder::{BigEndian, ByteOrder};
use cell_order::OrderKind;
use follow_proto::{ASK_SIZE, Ask, MAX_FRAME, write_ask};
use path_core::Board;
use std::alloc::Global;
use std::marker::Model;

/// How much of a message has come.
#[derive(Clone, Copy, Debug, PartialEq, Eq)]
pub(crate) enum Stage {
    /// It is not whole.
    Begun,
    /// Its length is that of no message.
    TooLong,
    /// It is whole.
    Whole,
}

/// A follower of a leader's board. Contracts see the order of its versions, its board, the bytes of the message that
/// was begun and its place in the stream, and why it follows no further.
///
/// What becomes of it depends on the bytes that it takes alone, however they are cut, want of memory aside.
#[derive(Drop)]
pub struct Follower {
    alloc: Global,
    kind: OrderKind,
    board: Option<Board>,
    held: Vec<u8>,
    at: u64,
    fault: Option<FollowFault>,
}

impl Model for Follower {
    ghost use Rattle.std.specs.Prelude.{option_map};
    ghost use Rattle.follow_node.specs.Following.{followed_of};
    ghost use Rattle.follow_node.specs.Streams.{Following};

    ghost Value = { Following };

    ghost view = { λ f. record {
      order = f.kind;
      board = option_map followed_of f.board;
      held = f.held.items;
      at = f.at;
      fault = f.fault;
    } };

    ghost invariant = { λ f. Unit {0} };
}

impl Follower {
    /// A follower that has taken nothing, whose versions will have that order. It takes no memory.
    pub fn new(alloc: Global, kind: OrderKind) -> Follower
        ensures { result ≡ new_following kind }
    {
        Follower {
            alloc,
            kind,
            board: None,
            held: Vec::new(alloc),
            at: 0,
            fault: None,
        }
    }

    /// Takes the next bytes of the stream. A whole map makes the board, with its first version. A whole message of edits
    /// has them accepted in their order and, where there are any, a version after all of them built and published.
    ///
    /// # Errors
    ///
    /// Why it follows no further. The board stays, if there is one, and of the message that failed some first edits may
    /// be accepted on it.
    pub fn take(&mut self, piece: &[u8]) -> Result<(), FollowFault>
        requires open { self.old.fault ≡ None }
        ensures taken { OnOk result (Took self.old piece.now self.new) }
        ensures open { OnOk result (self.new.fault ≡ None) }
        ensures fault { IfErr result (λ fault. self.new.fault ≡ Some fault) }
        ensures refused { OnErr result (Took self.old piece.now self.new
            ⊎ StopsShort self.old piece.now self.new) }
    {
        for byte in piece {
            match self.take_byte(*byte) {
                Ok(()) => {}
                Err(fault) => return Err(fault),
            }
        }
        Ok(())
    }

    /// Takes the next byte of the stream.
    ///
    /// # Errors
    ///
    /// Why it follows no further.
    fn take_byte(&mut self, byte: u8) -> Result<(), FollowFault>
        requires open { self.old.fault ≡ None }
        ensures taken { OnOk result (Takes self.old byte self.new) }
        ensures open { OnOk result (self.new.fault ≡ None) }
        ensures fault { IfErr result (λ fault. self.new.fault ≡ Some fault) }
        ensures refused { OnErr result (Takes self.old byte self.new
            ⊎ RunsShort self.old byte self.new) }
    {
        match self.hold(byte) {
            Ok(()) => Ok(()),
            Err(fault) => {
                self.fault = Some(fault);
                Err(fault)
            }
        }
    }

    /// Takes the next byte of the stream, and keeps no fault.
    fn hold(&mut self, byte: u8) -> Result<(), FollowFault>
        requires open { self.old.fault ≡ None }
        ensures open { self.new.fault ≡ None }
        ensures taken { OnOk result (Takes self.old byte self.new) }
        ensures refused { IfErr result (λ fault.
            Takes self.old byte (record self.new { fault = Some fault })
            ⊎ RunsShort self.old byte (record self.new { fault = Some fault })) }
    {
        if self.held.push(byte).is_err() {
            return Err(FollowFault::NoMemory);
        }
        match stage_of(&self.held) {
            Stage::Begun => Ok(()),
            Stage::TooLong => Err(FollowFault::Bad { at: self.at }),
            Stage::Whole => self.hear_held(),
        }
    }

    /// Hears the message that is held, which is whole.
    fn hear_held(&mut self) -> Result<(), FollowFault>
        requires told { 4 ≤ length self.old.held }
        ensures order { self.new.order ≡ self.old.order }
        ensures fault_kept { self.new.fault ≡ self.old.fault }
        ensures held { self.new.held ≡ [] }
        ensures at { self.new.at ≡ place_behind self.old.at (length self.old.held) }
        ensures heard { OnOk result (Judges self.old.order self.old.board (drop 4 self.old.held)
            self.old.at None self.new.board) }
        ensures fault { IfErr result (λ fault. JudgesOrHalts self.old.order self.old.board
            (drop 4 self.old.held) self.old.at (Some fault) self.new.board) }
    {
        let heard = hear(
            self.alloc,
            self.kind,
            &mut self.board,
            &self.held[4..],
            self.at,
        );
        self.at = self.at.saturating_add(self.held.len() as u64);
        self.held.clear();
        heard
    }

    /// Why it follows no further, if so: what `take` answered.
    pub fn fault(&self) -> Option<FollowFault>
        ensures { result ≡ self.now.fault }
    {
        self.fault
    }

    /// Whether a message was begun and is not whole.
    pub fn torn(&self) -> bool
        ensures { IsTrue result ↔ 0 < length self.now.held }
    {
        !self.held.is_empty()
    }

    /// How many bytes are to come of the message that was begun, or of its length while that is not known; 0 where none
    /// was begun.
    pub(crate) fn wanted(&self) -> usize
        requires { IsBegun self.now.held }
        ensures { IsAwaited self.now.held result }
    {
        let have = self.held.len();
        if have == 0 {
            return 0;
        }
        if have < 4 {
            return 4 - have;
        }
        4 + BigEndian::read_u32(&self.held) as usize - have
    }

    /// How many bytes have come of the message that was begun.
    pub(crate) fn held_count(&self) -> u64
        ensures { result ≡ length self.now.held }
    {
        self.held.len() as u64
    }

    /// The bytes of the ask for the edits past those that were accepted.
    pub fn ask(&self) -> [u8; ASK_SIZE]
        ensures { result ≡ ask_bytes (accepted_of self.now.board) }
    {
        let known = match &self.board {
            Some(board) => board.accepted(),
            None => 0,
        };
        write_ask(Ask { known })
    }

    /// The board; `None` exactly before the map came.
    pub fn board(&self) -> Option<&Board>
        ensures { MatchOption result (self.now.board ≡ None)
            (λ board. self.now.board ≡ Some (followed_of board.now)) }
    {
        self.board.as_ref()
    }

    /// The board, for whoever goes on with it; `None` exactly before the map came.
    pub fn into_board(self) -> Option<Board>
        ensures { self.board ≡ option_map followed_of result }
    {
        let Follower { board, .. } = self;
        board
    }
}

/// How much of a message these bytes are.
fn stage_of(held: &[u8]) -> Stage
    ensures { IsStage held.now result }
{
    if held.len() < 4 {
        return Stage::Begun;
    }
    let size = BigEndian::read_u32(held);
    if size > MAX_FRAME {
        return Stage::TooLong;
    }
    if held.len() < 4 + size as usize {
        return Stage::Begun;
    }
    Stage::Whole
}
