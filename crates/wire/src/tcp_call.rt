//! A caller's connection over TCP.
ghost use Rattle.std.specs.Prelude.{◌≡◌, None, IfOk};

use crate::faults::count_fault;
use crate::patient_stream::PatientStream;
use crate::{Failed, Journal, Link};
use std::io::Eprint;
use std::net::{Net, TcpStream};
use std::time::Clock;

/// A caller's connection over TCP: each recv is one read, each send one write, and small writes are
/// sent at once. It tells no talk, because the system tells none. It fails if no whole answer comes
/// within [`ANSWER_TIME`](crate::ANSWER_TIME), and standard error says so.
#[derive(Drop)]
pub struct TcpCall<'a, R> {
    stream: PatientStream<'a, R>,
    read_faults: u64,
    write_faults: u64,
}

impl<'a, R: Net<Stream = TcpStream> + Eprint> TcpCall<'a, R> {
    /// Connects to a port of this machine.
    ///
    /// # Errors
    ///
    /// `Failed` if nobody listens there, or no connection comes about in time.
    pub(crate) fn to(journal: Journal<'a, R>, port: u16) -> Result<TcpCall<'a, R>, Failed>
        ensures reads { IfOk result (λ link. link.read_faults ≡ 0) }
        ensures writes { IfOk result (λ link. link.write_faults ≡ 0) }
    {
        Ok(TcpCall {
            stream: PatientStream::to(journal, port)?,
            read_faults: 0,
            write_faults: 0,
        })
    }
}

impl<'a, R> TcpCall<'a, R> {
    /// How many recvs have failed.
    pub fn read_fault_count(&self) -> u64
        ensures { result ≡ self.now.read_faults }
    {
        self.read_faults
    }

    /// How many sends have failed.
    pub fn write_fault_count(&self) -> u64
        ensures { result ≡ self.now.write_faults }
    {
        self.write_faults
    }
}

impl<'a, R: Clock + Eprint + Sync> Link for TcpCall<'a, R> {
    ghost at = { λ link. record {
      talk = None;
      read_faults = link.read_faults;
      write_faults = link.write_faults;
    } };

    fn recv(&mut self, room: &mut [u8]) -> Result<usize, Failed> {
        let outcome = self.stream.receive(room);
        if outcome.is_err() {
            count_fault(&mut self.read_faults);
        }
        outcome
    }

    fn send(&mut self, piece: &[u8]) -> Result<usize, Failed> {
        let outcome = self.stream.transmit(piece);
        if outcome.is_err() {
            count_fault(&mut self.write_faults);
        }
        outcome
    }
}
