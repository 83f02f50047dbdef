//! Replies, each built in one buffer and sent from there.

ghost use Rattle.std.specs.Prelude.{◌≡◌, ◌<◌, ◌≤◌, [], ◌∷◌, ◌++◌, drop, length, OnErr, OnOk};
ghost use Rattle.moves.specs.Moves.{number_of};
ghost use Rattle.query_proto.specs.declared.TheConstants.{HEAD_ROOM, MAX_MOVES};
ghost use Rattle.query_proto.specs.Frames.{CanBeSent, moves_behind, sent_head};
ghost use Rattle.wire.specs.Talks.{SendsPrefix, with_sent, OnlyWrites, WriteFails};

use moves::Move;
use query_proto::{HEAD_ROOM, MAX_MOVES, Reply, reply_head};
use std::marker::Model;
use wire::{Failed, Link, send_all};

/// The bytes of the longest reply: its head, and one for each of its moves.
const ROOM: usize = HEAD_ROOM + MAX_MOVES as usize;

/// The moves that follow a reply, a byte for each, and before them room for its head. A session has one such buffer, of
/// about 32 KB, for all of its replies.
#[derive(Drop)]
pub(crate) struct ReplyRoom {
    room: [u8; ROOM],
    /// How many moves are held.
    many: usize,
}

impl Model for ReplyRoom {
    ghost use Rattle.std.specs.Prelude.{◌≤◌, ℕ, List, drop, take};
    ghost use Rattle.query_proto.specs.declared.TheConstants.{HEAD_ROOM, MAX_MOVES};

    ghost Value = { List ℕ };

    ghost view = { λ reply. take reply.many (drop HEAD_ROOM reply.room) };

    ghost invariant = { λ reply. reply.many ≤ MAX_MOVES };
}

impl ReplyRoom {
    /// Returns a buffer that holds no moves.
    pub(crate) fn new() -> ReplyRoom
        ensures { result ≡ [] }
    {
        ReplyRoom {
            room: [0; ROOM],
            many: 0,
        }
    }

    /// Drops all moves.
    pub(crate) fn clear(&mut self)
        ensures { self.new ≡ [] }
    {
        self.many = 0;
    }

    /// Adds a move.
    #[inline]
    pub(crate) fn push(&mut self, by: Move)
        requires { length self.old < MAX_MOVES }
        ensures { self.new ≡ self.old ++ number_of by ∷ [] }
    {
        self.room[HEAD_ROOM + self.many] = by.number();
        self.many += 1;
    }

    /// Sends a reply with the moves that are held, all of them at once.
    ///
    /// # Errors
    ///
    /// `Failed` if the link failed before the whole reply was sent.
    pub(crate) fn send<L: Link>(&mut self, link: &mut L, reply: &Reply) -> Result<(), Failed>
        requires { moves_behind reply.now ≡ length self.old }
        ensures sent { OnOk result ((L.at link.new).talk
            ≡ with_sent (L.at link.old).talk (sent_head reply.now ++ self.old)) }
        ensures prefix { OnErr result (SendsPrefix (L.at link.old).talk (L.at link.new).talk
            (sent_head reply.now ++ self.old)) }
        ensures cause { OnErr result (WriteFails (L.at link.old) (L.at link.new)) }
        ensures counts { OnlyWrites (L.at link.old) (L.at link.new) }
    {
        let start = put_head(reply, &mut self.room[..HEAD_ROOM]);
        send_all(link, &self.room[start..HEAD_ROOM + self.many])
    }
}

/// Writes the head of a reply at the end of `front`, and returns where it begins there.
fn put_head(reply: &Reply, front: &mut [u8]) -> usize
    requires few { CanBeSent reply.now }
    requires room { length front.old ≡ HEAD_ROOM }
    ensures head { drop result front.new ≡ sent_head reply.now }
    ensures inside { result ≤ HEAD_ROOM }
{
    let mut head = [0; HEAD_ROOM];
    let size = reply_head(reply, &mut head);
    let start = HEAD_ROOM - size;
    front[start..].copy_from_slice(&head[..size]);
    start
}
