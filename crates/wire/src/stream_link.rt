//! A link over any reader and any writer of std.
ghost use Rattle.std.specs.Prelude.{◌≡◌, ◌<◌, ◌≤◌, None, length, take, IfOk, OnOk, OnErr};
ghost use Rattle.std.specs.Io.KnownBytes.{Appends, Consumes, IsAtEnd, Keeps};
ghost use Rattle.wire.specs.Causes.{one_more, Rose};
ghost use Rattle.wire.specs.Devices.{new_link_over};

use crate::faults::count_fault;
use crate::{Failed, Link, Sink, WriterSink};
use std::io::{ErrorKind, Read, Write};
use std::marker::Model;

/// A link over a reader and a writer, unbuffered: each recv is one read and each send one write,
/// retried if a signal interrupts it. It tells no talk; what the reader and the writer tell is in
/// the contracts of its own calls.
#[derive(Drop)]
pub struct StreamLink<I, O> {
    input: I,
    faults: u64,
    output: WriterSink<O>,
}

impl<I, O> Model for StreamLink<I, O> {
    ghost use Rattle.wire.specs.Devices.{LinkOver};

    ghost Value = { LinkOver I O };

    ghost view = { λ link. record {
      input = link.input;
      faults = link.faults;
      output = link.output;
    } };
}

impl<I: Read, O: Write> StreamLink<I, O> {
    /// A link over this reader and this writer.
    pub fn over(input: I, output: O) -> StreamLink<I, O>
        ensures { result ≡ new_link_over input output }
    {
        StreamLink {
            input,
            faults: 0,
            output: WriterSink::over(output),
        }
    }
}

impl<I: Read + Send, O: Write + Send> Link for StreamLink<I, O> {
    ghost at = { λ link. record {
      talk = None;
      read_faults = link.faults;
      write_faults = link.output.faults;
    } };

    fn recv(&mut self, room: &mut [u8]) -> Result<usize, Failed>
        requires room { 0 < length room.old }
        ensures count { IfOk result (λ count. count ≤ length room.old) }
        ensures taken { IfOk result (λ count. Consumes
            (I.remaining self.old.input) (I.remaining self.new.input) (take count room.new)) }
        ensures end { IfOk result (λ count.
            count ≡ 0 → IsAtEnd (I.remaining self.new.input)) }
        ensures kept { OnErr result
            (Keeps (I.remaining self.old.input) (I.remaining self.new.input)) }

        ensures fault { OnErr result (self.new.faults ≡ one_more self.old.faults) }
        ensures otherwise { OnOk result (self.new.faults ≡ self.old.faults) }
        ensures cause { OnErr result (Rose self.old.faults self.new.faults) }
        ensures later { self.old.faults ≤ self.new.faults }
        ensures output { self.new.output ≡ self.old.output }
    {
        let outcome = read_some(&mut self.input, room);
        if outcome.is_err() {
            count_fault(&mut self.faults);
        }
        outcome
    }

    fn send(&mut self, piece: &[u8]) -> Result<usize, Failed>
        ensures count { IfOk result (λ count. count ≤ length piece.now) }
        ensures some { IfOk result (λ count. 0 < length piece.now → 0 < count) }
        ensures grows { IfOk result (λ count. Appends (O.contents self.old.output.writer)
            (O.contents self.new.output.writer) (take count piece.now)) }
        ensures kept { OnErr result
            (Keeps (O.contents self.old.output.writer) (O.contents self.new.output.writer)) }

        ensures fault { OnErr result (self.new.output.faults ≡ one_more self.old.output.faults) }
        ensures otherwise { OnOk result (self.new.output.faults ≡ self.old.output.faults) }
        ensures cause { OnErr result (Rose self.old.output.faults self.new.output.faults) }
        ensures later { self.old.output.faults ≤ self.new.output.faults }
        ensures input { self.new.input ≡ self.old.input }
        ensures faults { self.new.faults ≡ self.old.faults }
    {
        self.output.put(piece)
    }
}

/// One read, retried if a signal interrupts it.
pub(crate) fn read_some<I: Read>(reader: &mut I, room: &mut [u8]) -> Result<usize, Failed>
    ensures count { IfOk result (λ count. count ≤ length room.old) }
    ensures read { IfOk result (λ count. Consumes
        (I.remaining reader.old) (I.remaining reader.new) (take count room.new)) }
    ensures end { IfOk result (λ count.
        count ≡ 0 → 0 < length room.old → IsAtEnd (I.remaining reader.new)) }
    ensures kept { OnErr result (Keeps (I.remaining reader.old) (I.remaining reader.new)) }
{
    for _ in 0..u64::MAX {
        match reader.read(room) {
            Ok(count) => return Ok(count),
            Err(error) if error.kind() == ErrorKind::Interrupted => {}
            Err(_) => return Err(Failed),
        }
    }
    Err(Failed)
}
