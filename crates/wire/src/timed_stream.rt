//! A server's connection, with timeouts for its client.
ghost use Rattle.std.specs.Prelude.{◌≡◌, ◌<◌, ◌≤◌, ◌++◌, [], ℕ, List, length, take, IfNone, IfOk, IfSome, IsErr};
ghost use Rattle.wire.specs.Endings.{TellsEnd};
ghost use Rattle.wire.specs.Watching.{HasFollowed};

use crate::Failed;
use crate::frame_watch::FrameWatch;
use crate::front::Front;
use crate::inbox::Inbox;
use crate::patience::{Awaited, Cause, Waiting, still_waiting, waiting_for, why_ended};
use crate::ticks::{ticking, write_tick};
use std::io;
use std::io::{Eprint, Read};
use std::net::{Shutdown, TcpStream};
use std::sync::Arc;
use std::time::{Clock, Duration, Instant};
use thiserror::Error;

/// How long a connection that ends waits for bytes that still come in, in milliseconds: it is closed if none come for
/// this long.
pub const PARTING_TIME: u64 = 100;

/// The most reads of incoming bytes that are thrown away while a connection ends.
const PARTING_READS: u32 = 32;

/// How many of these bytes one read throws away at most.
const PARTING_ROOM: usize = 16_384;

/// A server's connection. It watches the messages that come in: between two of them its client may be silent for long,
/// but a message that was begun must be whole, and a reply taken, within a short time. If the server speaks first, the
/// connection is a feed, and asks come in.
#[derive(Drop)]
pub(crate) struct TimedStream<'a, R> {
    stream: TcpStream,
    front: Arc<Front<'a, R>>,
    inbox: Inbox,
    watch: FrameWatch,
    heard: bool,
    waiting: Option<Waiting>,
    cause: Option<Cause>,
}

impl<'a, R: Clock + Eprint> TimedStream<'a, R> {
    /// The stream of a front over this connection.
    pub(crate) fn over(
        front: Arc<Front<'a, R>>,
        stream: TcpStream,
    ) -> io::Result<TimedStream<'a, R>> {
        let stream = ticking(stream)?;
        front.enter();
        Ok(TimedStream {
            stream,
            watch: FrameWatch::new(front.speech()),
            front,
            inbox: Inbox::new(),
            heard: false,
            waiting: None,
            cause: None,
        })
    }

    /// Puts the next bytes that come in at the front of `room`, and says how many; 0 is the end.
    pub(crate) fn receive(&mut self, room: &mut [u8]) -> Result<usize, Failed>
        ensures count { IfOk result (λ count. count ≤ length room.old) }
        ensures watched { IfOk result (λ count. (before : List ℕ) → HasFollowed self.old.watch before
            → HasFollowed self.new.watch (before ++ take count room.new)) }
    {
        self.waiting = still_waiting(self.waiting);
        if self.inbox.is_empty() {
            self.fill()?;
        }
        let count = self.inbox.take(room);
        self.watch.take(&room[..count]);
        Ok(count)
    }

    /// Waits until something comes in, or the end.
    fn fill(&mut self) -> Result<(), Failed>
        requires { self.old.inbox ≡ [] }
        ensures { self.new.watch ≡ self.old.watch }
    {
        let awaited = self.watch.awaited();
        for _ in 0..u64::MAX {
            self.may_wait(awaited)?;
            match self.read()? {
                Some(()) => return Ok(()),
                None => {}
            }
        }
        Err(Failed)
    }

    /// Sends the first bytes of `piece`, and says how many.
    pub(crate) fn transmit(&mut self, piece: &[u8]) -> Result<usize, Failed>
        ensures count { IfOk result (λ count. count ≤ length piece.now) }
        ensures some { IfOk result (λ count. 0 < length piece.now → 0 < count) }
    {
        self.speak();
        if self.watch.is_stopped_by(piece) {
            self.front.stop();
        }
        for _ in 0..u64::MAX {
            self.may_wait(Awaited::Taking)?;
            if let Some(count) = self.write(piece)? {
                return Ok(count);
            }
        }
        Err(Failed)
    }

    /// Notes that something is sent: if nothing came in before, asks will.
    fn speak(&mut self) {
        if !self.heard {
            self.watch = FrameWatch::over_asks(self.front.speech());
        }
    }

    /// One read, which keeps the cause of a fault.
    fn read(&mut self) -> Result<Option<()>, Failed>
        requires { self.old.inbox ≡ [] }
        ensures watch { self.new.watch ≡ self.old.watch }
        ensures none { IfOk result (λ read. IfNone read (self.new.inbox ≡ [])) }
    {
        let outcome = self.inbox.read(&mut self.stream);
        match outcome {
            Ok(Some(())) => self.heard = true,
            Ok(None) => {}
            Err(Failed) => self.cause = Some(Cause::Broken),
        }
        outcome
    }

    /// One write, which keeps the cause of a fault.
    fn write(&mut self, piece: &[u8]) -> Result<Option<usize>, Failed>
        ensures count { IfOk result (λ written. IfSome written (λ count. count ≤ length piece.now)) }
        ensures some { IfOk result (λ written.
            IfSome written (λ count. 0 < length piece.now → 0 < count)) }
    {
        let outcome = write_tick(&mut self.stream, piece);
        if outcome.is_err() {
            self.cause = Some(Cause::Broken);
        }
        outcome
    }

    /// Whether it may wait for this. The time runs from the first call.
    fn may_wait(&mut self, what: Awaited) -> Result<(), Failed>
        ensures watch { self.new.watch ≡ self.old.watch }
        ensures inbox { self.new.inbox ≡ self.old.inbox }
    {
        let Ok(now) = Instant::now(self.front.journal().rt()) else {
            return self.ends_by(Cause::Broken);
        };
        let waiting = waiting_for(self.waiting, what, now);
        self.waiting = Some(waiting);
        match why_ended(waiting, self.front.stopped(), now) {
            Some(cause) => self.ends_by(cause),
            None => Ok(()),
        }
    }

    /// Fails with this cause.
    fn ends_by<T>(&mut self, cause: Cause) -> Result<T, Failed>
        ensures fails { IsErr result }
        ensures watch { self.new.watch ≡ self.old.watch }
        ensures inbox { self.new.inbox ≡ self.old.inbox }
    {
        self.cause = Some(cause);
        Err(Failed)
    }

    /// Ends the connection so that what was sent arrives. It shuts the sending half and throws away
    /// what still comes in until the peer has closed it or nothing comes for [`PARTING_TIME`]: if
    /// it were closed with bytes unread, the system would take back what was sent.
    pub(crate) fn part(self) {
        self.front.leave();
        self.tell_end();
        let mut stream = self.stream;
        let pause = Some(Duration::from_millis(PARTING_TIME));
        if stream.shutdown(Shutdown::Write).is_err() || stream.set_read_timeout(pause).is_err() {
            return;
        }
        let mut room = [0; PARTING_ROOM];
        for _ in 0..PARTING_READS {
            match stream.read(&mut room) {
                Ok(0) | Err(_) => return,
                Ok(_) => {}
            }
        }
    }

    /// Logs that the connection ended by a fault, if it did.
    fn tell_end(&self) {
        if let Some(end) = end_told(self.cause, self.heard, self.watch.is_between()) {
            self.front.count_broken();
            self.front.journal().note(end);
        }
    }
}

/// The log line for a connection that ended by a fault.
#[derive(Debug, Clone, Copy, PartialEq, Eq, Error)]
enum EndTold {
    /// For this reason.
    #[error("a connection ended: {0}")]
    By(Cause),
    /// Its client left inside a frame, or sent a length that is too great.
    #[error("a connection ended inside a frame, or by one too long")]
    Inside,
}

/// What to log about the end of a connection, if anything. A client that leaves before it has sent anything only
/// checked whether somebody is there, as a health check does.
fn end_told(cause: Option<Cause>, heard: bool, is_between: bool) -> Option<EndTold>
    ensures { TellsEnd cause heard is_between result }
{
    match cause {
        Some(Cause::Broken) if !heard => None,
        Some(cause) => Some(EndTold::By(cause)),
        None if !is_between => Some(EndTold::Inside),
        None => None,
    }
}
