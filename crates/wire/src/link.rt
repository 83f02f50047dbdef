//! Both directions of a connection.
ghost use Rattle.std.specs.Prelude.{◌≡◌, ◌<◌, ◌≤◌, length, take, IfOk, OnOk, OnErr};
ghost use Rattle.wire.specs.Talks.{AtLink, with_taken, with_sent};
ghost use Rattle.wire.specs.Talks.{HasLeft, EndsAtZero, FillsRoom, KeepsRoom, SendsPrefix};
ghost use Rattle.wire.specs.Talks.{OnlyReads, OnlyWrites, ReadFails, WriteFails};

use crate::Failed;

/// A connection: bytes come in, and bytes are sent. It counts the faults of each direction separately.
pub trait Link: Send {
    /// What is known of it: what came in and what was sent, if it tells it, and its faults.
    ghost at: { Self → AtLink };

    /// Puts the next bytes that come in at the front of `room`, and says how many; 0 is the end. A
    /// recv that fails takes nothing.
    fn recv(&mut self, room: &mut [u8]) -> Result<usize, Failed>
        requires room { 0 < length room.old }
        // Holds even if no talk is told.
        ensures count { IfOk result (λ count. count ≤ length room.old) }

        // If the talk is told, the bytes are the front of what was left, and the room after them is
        // unchanged; no bytes come exactly at the end.
        ensures left { IfOk result (λ count. HasLeft (at self.old).talk count) }
        ensures room { IfOk result (λ count. FillsRoom (at self.old).talk count room.old room.new) }
        ensures end { IfOk result (λ count. EndsAtZero (at self.old).talk count) }
        ensures taken { IfOk result (λ count.
            (at self.new).talk ≡ with_taken (at self.old).talk count) }
        ensures kept { OnErr result ((at self.new).talk ≡ (at self.old).talk) }
        ensures unfilled { OnErr result (KeepsRoom (at self.old).talk room.old room.new) }

        // A fault is counted for this direction.
        ensures cause { OnErr result (ReadFails (at self.old) (at self.new)) }
        ensures counts { OnlyReads (at self.old) (at self.new) };

    /// Sends the first bytes of `piece`, and says how many. Taking none of a piece that is not
    /// empty is a fault. A send that fails sends nothing.
    fn send(&mut self, piece: &[u8]) -> Result<usize, Failed>
        ensures count { IfOk result (λ count. count ≤ length piece.now) }
        ensures some { IfOk result (λ count. 0 < length piece.now → 0 < count) }
        ensures sent { IfOk result (λ count.
            (at self.new).talk ≡ with_sent (at self.old).talk (take count piece.now)) }
        ensures kept { OnErr result ((at self.new).talk ≡ (at self.old).talk) }

        ensures cause { OnErr result (WriteFails (at self.old) (at self.new)) }
        ensures counts { OnlyWrites (at self.old) (at self.new) };
}

/// Sends a whole text, in as many pieces as the link needs.
///
/// # Errors
///
/// `Failed` if a send fails. The link has then sent a first part of the text, less than the whole:
/// the fault met a piece that was not empty.
pub fn send_all<L: Link>(link: &mut L, text: &[u8]) -> Result<(), Failed>
    ensures sent { OnOk result ((L.at link.new).talk ≡ with_sent (L.at link.old).talk text.now) }
    ensures prefix { OnErr result
        (SendsPrefix (L.at link.old).talk (L.at link.new).talk text.now) }

    ensures cause { OnErr result (WriteFails (L.at link.old) (L.at link.new)) }
    ensures counts { OnlyWrites (L.at link.old) (L.at link.new) }
{
    let mut sent = 0;
    while sent < text.len() {
        sent += link.send(&text[sent..])?;
    }
    Ok(())
}
