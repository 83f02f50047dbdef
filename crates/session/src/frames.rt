//! Frames, cut from what comes in over a link.

ghost use Rattle.std.specs.Prelude.{◌≡◌, ◌<◌, ◌≤◌, ◌+◌, [], length, take, drop, ℕ, Bool, IfErr, IfOk, IsFalse, MatchBool, OnErr, Option};
ghost use Rattle.query_proto.specs.declared.TheConstants.{MAX_REQUEST};
ghost use Rattle.byteorder.specs.Endian.{big_bytes};
ghost use Rattle.wire.specs.Talks.{Talk, OnlyReads, ReadFails, AtLink};
ghost use Rattle.session.specs.declared.sessions.SessionFault.TheVariants.{Torn};
ghost use Rattle.session.specs.Conversations.{HasCause, HasNone};
ghost use Rattle.session.specs.Turns.{HoldsMore, IsNext};

use crate::sessions::SessionFault;
use byteorder::{BigEndian, ByteOrder};
use query_proto::MAX_REQUEST;
use std::marker::Model;
use wire::{Failed, Link};

/// The number of bytes of the length before a frame.
const LENGTH: usize = 2;

/// The most bytes that are held: a frame with its length, and the length of the next one.
const ROOM: usize = LENGTH + MAX_REQUEST + LENGTH;

/// Bytes that came in over a link and are not used up yet.
#[derive(Drop)]
pub(crate) struct Held {
    room: [u8; ROOM],
    have: usize,
}

impl Model for Held {
    ghost use Rattle.std.specs.Prelude.{◌≤◌, ℕ, List, take};
    ghost use Rattle.session.specs.declared.frames.TheConstants.{ROOM};

    ghost Value = { List ℕ };

    ghost view = { λ held. take held.have held.room };

    ghost invariant = { λ held. held.have ≤ ROOM };
}

impl Held {
    /// Returns a buffer that holds no bytes.
    pub(crate) fn new() -> Held
        ensures { result ≡ [] }
    {
        Held {
            room: [0; ROOM],
            have: 0,
        }
    }

    /// Takes the next frame, of at most `limit` bytes, and returns its number of bytes after its length, which is held
    /// too. Returns `None` if the input ends between frames. If a further frame may be taken and this one cannot end
    /// the session, the next length may come with it.
    ///
    /// # Errors
    ///
    /// The reason why no frame came.
    pub(crate) fn next_frame<L: Link>(
        &mut self,
        link: &mut L,
        limit: u16,
        ahead: bool,
    ) -> Result<Option<usize>, SessionFault>
        requires begun { length self.old ≤ 2 }
        requires limit { limit ≤ MAX_REQUEST }
        ensures more { HoldsMore (L.at link.old).talk (L.at link.new).talk self.old self.new }
        ensures next { IsNext limit ahead self.new (L.at link.new).talk result }
        ensures cause { IfErr result (HasCause (L.at link.old) (L.at link.new)) }
        ensures counts { OnlyReads (L.at link.old) (L.at link.new) }
    {
        match self.fill(link, LENGTH, LENGTH) {
            Ok(true) => self.rest_of_frame(link, limit, ahead),
            Ok(false) => self.without_length(),
            Err(_) => Err(SessionFault::ReadFault),
        }
    }

    /// Takes the rest of a frame of at most `limit` bytes, whose length is held.
    ///
    /// # Errors
    ///
    /// The reason why it did not come.
    fn rest_of_frame<L: Link>(
        &mut self,
        link: &mut L,
        limit: u16,
        ahead: bool,
    ) -> Result<Option<usize>, SessionFault>
        requires held { length self.old ≡ 2 }
        requires limit { limit ≤ MAX_REQUEST }
        ensures more { HoldsMore (L.at link.old).talk (L.at link.new).talk self.old self.new }
        ensures next { IsNext limit ahead self.new (L.at link.new).talk result }
        ensures cause { IfErr result (HasCause (L.at link.old) (L.at link.new)) }
        ensures counts { OnlyReads (L.at link.old) (L.at link.new) }
    {
        let size = self.size();
        if size > limit {
            return Err(SessionFault::TooLong { length: size });
        }
        self.body(link, usize::from(size), ahead)
    }

    /// Takes the `size` bytes of a frame, whose length is held.
    ///
    /// # Errors
    ///
    /// The reason why they did not come.
    fn body<L: Link>(
        &mut self,
        link: &mut L,
        size: usize,
        ahead: bool,
    ) -> Result<Option<usize>, SessionFault>
        requires fits { size ≤ MAX_REQUEST }
        requires held { length self.old ≡ 2 }
        requires size { take 2 self.old ≡ big_bytes 2 size }
        ensures more { HoldsMore (L.at link.old).talk (L.at link.new).talk self.old self.new }
        ensures next { (limit : ℕ) → size ≤ limit
            → IsNext limit ahead self.new (L.at link.new).talk result }
        ensures cause { IfErr result (HasCause (L.at link.old) (L.at link.new)) }
        ensures counts { OnlyReads (L.at link.old) (L.at link.new) }
    {
        let want = LENGTH + size;
        match self.fill(link, want, most_wanted(want, ahead)) {
            Ok(true) => Ok(Some(size)),
            Ok(false) => Err(self.torn(want)),
            Err(_) => Err(SessionFault::ReadFault),
        }
    }

    /// Returns the fault of an input that ended inside a frame of `want` bytes.
    fn torn(&self, want: usize) -> SessionFault
        requires { want ≤ LENGTH + MAX_REQUEST }
        ensures { result ≡ Torn (length self.now) want }
    {
        SessionFault::Torn {
            have: self.have as u32,
            want: want as u32,
        }
    }

    /// Returns what an input that ended before a whole length means: no frame, or a fault.
    ///
    /// # Errors
    ///
    /// `Torn` if one byte of a length is held.
    fn without_length(&self) -> Result<Option<usize>, SessionFault>
        requires { length self.now < 2 }
        ensures next { (limit : ℕ) (ahead : Bool) (told : Option Talk) → HasNone told →
            IsNext limit ahead self.now told result }
        ensures cause { (before after : AtLink) → IfErr result (HasCause before after) }
    {
        if self.have == 0 {
            return Ok(None);
        }
        Err(SessionFault::Torn {
            have: 1,
            want: LENGTH as u32,
        })
    }

    /// Returns the number in the first two bytes.
    fn size(&self) -> u16
        requires { 2 ≤ length self.now }
        ensures { take 2 self.now ≡ big_bytes 2 result }
    {
        short_in(&self.room)
    }

    /// Takes what comes in until `want` bytes are held, and no more than `most`. Returns whether they are; if not, the
    /// input ended before.
    ///
    /// # Errors
    ///
    /// `Failed` if the link failed before that.
    fn fill<L: Link>(&mut self, link: &mut L, want: usize, most: usize) -> Result<bool, Failed>
        requires order { want ≤ most }
        requires room { most ≤ ROOM }
        requires few { length self.old ≤ most }
        ensures more { HoldsMore (L.at link.old).talk (L.at link.new).talk self.old self.new }
        ensures most { length self.new ≤ most }
        ensures whole { IfOk result (λ whole. MatchBool whole (want ≤ length self.new)
            ((length self.new < want) × HasNone (L.at link.new).talk)) }
        ensures fault { OnErr result (length self.new < want) }
        ensures cause { OnErr result (ReadFails (L.at link.old) (L.at link.new)) }
        ensures counts { OnlyReads (L.at link.old) (L.at link.new) }
    {
        while self.have < want {
            let count = link.recv(&mut self.room[self.have..most])?;
            if count == 0 {
                return Ok(false);
            }
            self.have += count;
        }
        Ok(true)
    }

    /// Returns a frame of `size` bytes, which is held after its length.
    pub(crate) fn frame(&self, size: usize) -> &[u8]
        requires fits { size ≤ MAX_REQUEST }
        requires whole { 2 + size ≤ length self.now }
        ensures { result.now ≡ take size (drop 2 self.now) }
    {
        &self.room[LENGTH..LENGTH + size]
    }

    /// Drops a frame of `size` bytes and its length.
    pub(crate) fn pass(&mut self, size: usize)
        requires fits { size ≤ MAX_REQUEST }
        requires whole { 2 + size ≤ length self.old }
        ensures { self.new ≡ drop (2 + size) self.old }
    {
        let end = LENGTH + size;
        self.room.copy_within(end..self.have, 0);
        self.have -= end;
    }
}

/// Returns the number in the first two bytes.
fn short_in(bytes: &[u8]) -> u16
    requires { 2 ≤ length bytes.now }
    ensures { take 2 bytes.now ≡ big_bytes 2 result }
{
    BigEndian::read_u16(bytes)
}

/// Returns the most bytes that may be held for a frame of `want`: the next length too, if a further frame may be taken
/// and this one cannot end the session.
fn most_wanted(want: usize, ahead: bool) -> usize
    requires { want ≤ LENGTH + MAX_REQUEST }
    ensures least { want ≤ result }
    ensures most { result ≤ want + 2 }
    ensures last { IsFalse ahead → result ≡ want }
    ensures alone { want ≡ 3 → result ≡ want }
{
    if ahead && want != LENGTH + 1 {
        want + LENGTH
    } else {
        want
    }
}
