//! A connection of a server over TCP.
ghost use Rattle.std.specs.Prelude.{◌≡◌, None, IfOk};

use crate::faults::count_fault;
use crate::front::Front;
use crate::timed_stream::TimedStream;
use crate::{Failed, Link};
use std::io;
use std::io::Eprint;
use std::net::TcpStream;
use std::sync::Arc;
use std::time::Clock;

/// A connection of a server over TCP: one read takes all that is there and keeps it for the recvs that follow, each
/// send is one write, and small writes are sent at once. It tells no talk, because the system tells none. A recv fails
/// if its client is silent for [`IDLE_TIME`](crate::IDLE_TIME) between two frames or [`ASK_TIME`](crate::ASK_TIME)
/// between two asks, if a frame or an ask that was begun is not whole within [`FRAME_TIME`](crate::FRAME_TIME), and if
/// the connection is open for [`CLOSING_TIME`](crate::CLOSING_TIME) after the server was stopped. A send fails if a
/// reply is not taken within [`REPLY_TIME`](crate::REPLY_TIME).
#[derive(Drop)]
pub struct TcpLink<'a, R> {
    stream: TimedStream<'a, R>,
    read_faults: u64,
    write_faults: u64,
}

impl<'a, R: Clock + Eprint> TcpLink<'a, R> {
    /// The link of a front over this connection.
    pub(crate) fn over(front: Arc<Front<'a, R>>, stream: TcpStream) -> io::Result<TcpLink<'a, R>>
        ensures reads { IfOk result (λ link. link.read_faults ≡ 0) }
        ensures writes { IfOk result (λ link. link.write_faults ≡ 0) }
    {
        Ok(TcpLink {
            stream: TimedStream::over(front, stream)?,
            read_faults: 0,
            write_faults: 0,
        })
    }

    /// Ends the connection so that what was sent arrives.
    pub(crate) fn part(self) {
        self.stream.part();
    }
}

impl<'a, R: Clock + Eprint + Sync> Link for TcpLink<'a, R> {
    ghost at = { λ link. record {
      talk = None;
      read_faults = link.read_faults;
      write_faults = link.write_faults;
    } };

    fn recv(&mut self, room: &mut [u8]) -> Result<usize, Failed> {
        let outcome = self.stream.receive(room);
        if outcome.is_err() {
            count_fault(&mut self.read_faults);
        }
        outcome
    }

    fn send(&mut self, piece: &[u8]) -> Result<usize, Failed> {
        let outcome = self.stream.transmit(piece);
        if outcome.is_err() {
            count_fault(&mut self.write_faults);
        }
        outcome
    }
}
