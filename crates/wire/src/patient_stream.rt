//! A caller's connection, with a timeout for answers.
ghost use Rattle.std.specs.Prelude.{◌<◌, ◌≤◌, length, IfOk};

use crate::front::address;
use crate::patience::{ANSWER_TIME, Awaited, Cause, Waiting, waiting_for, why_ended};
use crate::ticks::{TICK_TIME, read_tick, ticking, write_tick};
use crate::{Failed, Journal};
use std::io::{Eprint, ErrorKind};
use std::net::{Net, SocketAddr, TcpStream};
use std::time::{Clock, Duration, Instant};

/// A caller's connection. Standard error says when it waits and when it gives up.
#[derive(Drop)]
pub(crate) struct PatientStream<'a, R> {
    stream: TcpStream,
    journal: Journal<'a, R>,
    waiting: Option<Waiting>,
    heard: bool,
    waits: bool,
}

/// Connects to a port. If that takes a while, standard error says that it waits.
fn connect<R: Net<Stream = TcpStream> + Eprint>(
    journal: &Journal<'_, R>,
    port: u16,
) -> Result<TcpStream, Failed> {
    let at = SocketAddr::V4(address(port));
    match TcpStream::connect_timeout(journal.rt(), &at, Duration::from_secs(TICK_TIME)) {
        Ok(stream) => return Ok(stream),
        Err(error) if error.kind() == ErrorKind::TimedOut => tell_waiting(journal),
        Err(_) => return Err(Failed),
    }
    match TcpStream::connect_timeout(journal.rt(), &at, Duration::from_secs(ANSWER_TIME)) {
        Ok(stream) => Ok(stream),
        Err(_) => {
            tell_end(journal, Cause::NoAnswer);
            Err(Failed)
        }
    }
}

/// Says that nothing has come yet.
fn tell_waiting<R: Eprint>(journal: &Journal<'_, R>) {
    journal.tell("waiting: no door may be free, or a build goes on");
}

/// Says why it gives up.
fn tell_end<R: Eprint>(journal: &Journal<'_, R>, cause: Cause) {
    journal.tell(cause);
}

impl<'a, R: Net<Stream = TcpStream> + Eprint> PatientStream<'a, R> {
    /// Connects to a port of this machine.
    ///
    /// # Errors
    ///
    /// `Failed` if nobody listens there, or no connection comes about within [`ANSWER_TIME`].
    pub(crate) fn to(journal: Journal<'a, R>, port: u16) -> Result<PatientStream<'a, R>, Failed> {
        let Ok(stream) = ticking(connect(&journal, port)?) else {
            return Err(Failed);
        };
        Ok(PatientStream {
            stream,
            journal,
            waiting: None,
            heard: false,
            waits: false,
        })
    }
}

impl<'a, R: Clock + Eprint> PatientStream<'a, R> {
    /// Puts the next bytes that come in at the front of `room`, and says how many; 0 is the end.
    pub(crate) fn receive(&mut self, room: &mut [u8]) -> Result<usize, Failed>
        ensures count { IfOk result (λ count. count ≤ length room.old) }
    {
        for _ in 0..u64::MAX {
            self.may_wait()?;
            if let Some(count) = read_tick(&mut self.stream, room)? {
                self.heard = true;
                return Ok(count);
            }
            self.say_waiting();
        }
        Err(Failed)
    }

    /// Sends the first bytes of `piece`, and says how many.
    pub(crate) fn transmit(&mut self, piece: &[u8]) -> Result<usize, Failed>
        ensures count { IfOk result (λ count. count ≤ length piece.now) }
        ensures some { IfOk result (λ count. 0 < length piece.now → 0 < count) }
    {
        self.ask_anew();
        for _ in 0..u64::MAX {
            self.may_wait()?;
            if let Some(count) = write_tick(&mut self.stream, piece)? {
                return Ok(count);
            }
            self.say_waiting();
        }
        Err(Failed)
    }

    /// Begins to wait for another answer, if part of the last one has come in.
    fn ask_anew(&mut self) {
        if self.heard {
            self.waiting = None;
            self.heard = false;
        }
    }

    /// Whether it may wait longer. The time runs from the first call.
    fn may_wait(&mut self) -> Result<(), Failed> {
        let Ok(now) = Instant::now(self.journal.rt()) else {
            return Err(Failed);
        };
        let waiting = waiting_for(self.waiting, Awaited::Answer, now);
        self.waiting = Some(waiting);
        match why_ended(waiting, None, now) {
            Some(cause) => {
                tell_end(&self.journal, cause);
                Err(Failed)
            }
            None => Ok(()),
        }
    }

    /// Says once that it waits.
    fn say_waiting(&mut self) {
        if !self.waits {
            tell_waiting(&self.journal);
        }
        self.waits = true;
    }
}
