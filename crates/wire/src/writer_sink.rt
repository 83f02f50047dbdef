//! A sink over any writer of std.
ghost use Rattle.std.specs.Prelude.{◌≡◌, ◌<◌, ◌≤◌, length, take, IfOk, OnOk, OnErr};
ghost use Rattle.std.specs.Io.KnownBytes.{Appends, Keeps};
ghost use Rattle.wire.specs.Causes.{one_more, Rose};
ghost use Rattle.wire.specs.Devices.{new_sink_over};

use crate::faults::count_fault;
use crate::{Failed, Sink};
use std::io::{ErrorKind, Write};
use std::marker::Model;

/// A sink over a writer, unbuffered: each put is one write, retried if a signal interrupts it. It
/// tells the bytes that the writer tells.
#[derive(Drop)]
pub struct WriterSink<W> {
    writer: W,
    faults: u64,
}

impl<W> Model for WriterSink<W> {
    ghost use Rattle.wire.specs.Devices.{SinkOver};

    ghost Value = { SinkOver W };

    ghost view = { λ sink. record { writer = sink.writer; faults = sink.faults } };
}

impl<W: Write> WriterSink<W> {
    /// A sink over this writer.
    pub fn over(writer: W) -> WriterSink<W>
        ensures { result ≡ new_sink_over writer }
    {
        WriterSink { writer, faults: 0 }
    }
}

impl<W: Write> Sink for WriterSink<W> {
    ghost bytes = { λ sink. W.contents sink.writer };

    ghost faults = { λ sink. sink.faults };

    fn put(&mut self, piece: &[u8]) -> Result<usize, Failed>
        ensures count { IfOk result (λ count. count ≤ length piece.now) }
        ensures some { IfOk result (λ count. 0 < length piece.now → 0 < count) }
        ensures grows { IfOk result (λ count. Appends
            (W.contents self.old.writer) (W.contents self.new.writer) (take count piece.now)) }
        ensures kept { OnErr result
            (Keeps (W.contents self.old.writer) (W.contents self.new.writer)) }

        ensures fault { OnErr result (self.new.faults ≡ one_more self.old.faults) }
        ensures otherwise { OnOk result (self.new.faults ≡ self.old.faults) }
        ensures cause { OnErr result (Rose self.old.faults self.new.faults) }
        ensures later { self.old.faults ≤ self.new.faults }
    {
        let outcome = write_some(&mut self.writer, piece);
        if outcome.is_err() {
            count_fault(&mut self.faults);
        }
        outcome
    }
}

/// One write, retried if a signal interrupts it.
pub(crate) fn write_some<W: Write>(writer: &mut W, piece: &[u8]) -> Result<usize, Failed>
    ensures count { IfOk result (λ count. count ≤ length piece.now) }
    ensures some { IfOk result (λ count. 0 < length piece.now → 0 < count) }
    ensures written { IfOk result (λ count.
        Appends (W.contents writer.old) (W.contents writer.new) (take count piece.now)) }
    ensures kept { OnErr result (Keeps (W.contents writer.old) (W.contents writer.new)) }
{
    for _ in 0..u64::MAX {
        match writer.write(piece) {
            Ok(count) if count > 0 || piece.is_empty() => return Ok(count),
            Err(error) if error.kind() == ErrorKind::Interrupted => {}
            _ => return Err(Failed),
        }
    }
    Err(Failed)
}
