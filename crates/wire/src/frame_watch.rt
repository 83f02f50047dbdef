//! How far a server's link is in what its client sends.
ghost use Rattle.std.specs.Prelude.{◌≡◌, ◌<◌, ◌≤◌, ◌+◌, ◌-◌, ◌*◌, ◌^◌, ◌==◌, ◌&&◌, ◌++◌, [], ◌∷◌, ℕ, List, Some, false, IsTrue, ◌↔◌};
ghost use Rattle.wire.specs.Messages.{AreCut, AreWhole, last_of};
ghost use Rattle.wire.specs.Watching.{HasFollowed, first_awaited};
ghost use Rattle.wire.specs.declared.frame_watch.Place.TheVariants.{Between, Inside};
ghost use Rattle.wire.specs.declared.frame_watch.Spoken.TheVariants.{Frames, Asks};
ghost use Rattle.wire.specs.declared.patience.Awaited.TheVariants.{Rest};

use crate::Speech;
use crate::patience::Awaited;

/// What a client sends.
#[derive(Debug, Clone, Copy, PartialEq, Eq)]
pub(crate) enum Spoken {
    /// Frames, each after its length, as in a session.
    Frames,
    /// Asks, as in a feed.
    Asks {
        /// The size of each, in bytes.
        size: u16,
    },
}

/// A position in what a client sends.
#[derive(Debug, Clone, Copy, PartialEq, Eq)]
pub(crate) enum Place {
    /// Between two messages.
    Between,
    /// After the first byte of a length.
    Length {
        /// That byte.
        high: u8,
    },
    /// Inside a message.
    Inside {
        /// Its size in bytes.
        size: u16,
        /// How many of them are missing.
        left: u16,
    },
}

/// Follows the messages of a client, byte by byte.
#[derive(Debug, Clone, Copy)]
pub(crate) struct FrameWatch {
    speech: Speech,
    spoken: Spoken,
    place: Place,
    stop: bool,
}

impl FrameWatch {
    /// A watch over the frames of a client that has sent nothing.
    pub(crate) fn new(speech: Speech) -> FrameWatch
        ensures followed { HasFollowed result [] }
        ensures speech { result.speech ≡ speech }
        ensures spoken { result.spoken ≡ Frames }
    {
        FrameWatch {
            speech,
            spoken: Spoken::Frames,
            place: Place::Between,
            stop: false,
        }
    }

    /// A watch over the asks of a client that has sent nothing.
    pub(crate) fn over_asks(speech: Speech) -> FrameWatch
        ensures followed { HasFollowed result [] }
        ensures speech { result.speech ≡ speech }
        ensures spoken { result.spoken ≡ Asks speech.ask_size }
    {
        FrameWatch {
            speech,
            spoken: Spoken::Asks {
                size: speech.ask_size,
            },
            place: Place::Between,
            stop: false,
        }
    }

    /// Whether the bytes so far are whole messages.
    pub(crate) fn is_between(&self) -> bool
        ensures whole { (bytes : List ℕ) → HasFollowed self.now bytes
            → IsTrue result ↔ AreWhole self.now.spoken bytes }
    {
        self.is_at(Place::Between)
    }

    /// What to wait for next: the first byte of a message if all before it are whole, else the rest of one.
    pub(crate) fn awaited(&self) -> Awaited
        ensures rest { (bytes : List ℕ) → HasFollowed self.now bytes
            → (result ≡ Rest) ↔ (AreWhole self.now.spoken bytes → ⊥) }
        ensures first { (result ≡ Rest → ⊥) → result ≡ first_awaited self.now.spoken }
    {
        if !self.is_between() {
            return Awaited::Rest;
        }
        match self.spoken {
            Spoken::Frames => Awaited::Frame,
            Spoken::Asks { .. } => Awaited::Ask,
        }
    }

    /// Whether this reply says that the server stops: it is a Done, and the last whole message is a Stop.
    pub(crate) fn is_stopped_by(&self, reply: &[u8]) -> bool
        ensures stops { (bytes rest : List ℕ) (messages : List (List ℕ)) → HasFollowed self.now bytes
            → AreCut self.now.spoken bytes messages rest → IsTrue result
            ↔ ((last_of messages ≡ Some (self.now.speech.stop ∷ [])) × (reply.now ≡ self.now.speech.done)) }
    {
        self.stop && self.speech.says_done(reply)
    }

    /// Follows the next bytes that come in.
    pub(crate) fn take(&mut self, bytes: &[u8])
        ensures followed { (before : List ℕ) → HasFollowed self.old before
            → HasFollowed self.new (before ++ bytes.now) }
        ensures speech { self.new.speech ≡ self.old.speech }
        ensures spoken { self.new.spoken ≡ self.old.spoken }
    {
        for &byte in bytes {
            *self = self.after(byte);
        }
    }

    /// The watch after one more byte.
    fn after(self, byte: u8) -> FrameWatch
        ensures followed { (before : List ℕ) → HasFollowed self before
            → HasFollowed result (before ++ byte ∷ []) }
        ensures speech { result.speech ≡ self.speech }
        ensures spoken { result.spoken ≡ self.spoken }
    {
        match (self.place, self.spoken) {
            (Place::Between, Spoken::Frames) => self.at(Place::Length { high: byte }),
            (Place::Between, Spoken::Asks { size }) => self.inside(size, size, byte),
            (Place::Length { high }, _) => self.behind_length(size_of(high, byte)),
            (Place::Inside { size, left }, _) => self.inside(size, left, byte),
        }
    }

    /// The watch after the length of a frame. An empty frame is whole.
    fn behind_length(self, size: u16) -> FrameWatch
        ensures begun { 0 < size → result ≡ record self { place = Inside size size } }
        ensures empty { size ≡ 0 → result ≡ record self { place = Between; stop = false } }
    {
        if size > 0 {
            return self.at(Place::Inside { size, left: size });
        }
        FrameWatch {
            place: Place::Between,
            stop: false,
            ..self
        }
    }

    /// The watch after this byte of a message, of which `left` bytes were missing.
    fn inside(self, size: u16, left: u16, byte: u8) -> FrameWatch
        ensures more { 1 < left → result ≡ record self { place = Inside size (left - 1) } }
        ensures whole { left ≤ 1 → result ≡ record self {
          place = Between;
          stop = (size == 1) && (byte == self.speech.stop);
        } }
    {
        if left > 1 {
            return self.at(Place::Inside {
                size,
                left: left - 1,
            });
        }
        FrameWatch {
            place: Place::Between,
            stop: size == 1 && byte == self.speech.stop,
            ..self
        }
    }

    /// Whether it is at this position.
    fn is_at(&self, place: Place) -> bool
        ensures { IsTrue result ↔ (self.now.place ≡ place) }
    {
        self.place == place
    }

    /// The watch at this position.
    fn at(self, place: Place) -> FrameWatch
        ensures { result ≡ record self { place = place } }
    {
        FrameWatch { place, ..self }
    }
}

/// The number with these two bytes.
fn size_of(high: u8, low: u8) -> u16
    ensures is { result ≡ high * 256 + low }
    ensures fits { result < 2 ^ 16 }
{
    u16::from(high) * 256 + u16::from(low)
}
