//! The output of a run: a text, or the line of its status.

ghost use Rattle.std.specs.Prelude.{◌≡◌, ◌≢◌, ◌⊎◌};
ghost use Rattle.std.specs.Io.KnownBytes.{Appends};
ghost use Rattle.wire.specs.Causes.{Rose};
ghost use Rattle.wire.specs.Contents.{PutsPrefix};
ghost use Rattle.path_commands.specs.declared.status.Status.{Status};
ghost use Rattle.path_commands.specs.Statuses.{status_text};

use crate::status;
use crate::status::Status;
use std::alloc::Global;
use wire::{Sink, put_all};

/// Prints the line of a status, or that of `NoMemory` if memory runs out.
pub fn refuse<O: Sink>(alloc: Global, out: &mut O, status: Status) -> Status
    requires done { status ≢ Status.Done }
    requires write { status ≢ Status.WriteFault }
    ensures whole { result ≢ Status.WriteFault
        → ((result ≡ status) ⊎ (result ≡ Status.NoMemory))
        × Appends (O.bytes out.old) (O.bytes out.new) (status_text result) }
    ensures cut { result ≡ Status.WriteFault
        → (told : Status) × ((told ≡ status) ⊎ (told ≡ Status.NoMemory))
        × PutsPrefix (O.bytes out.old) (O.bytes out.new) (status_text told) }
    ensures fault { result ≡ Status.WriteFault → Rose (O.faults out.old) (O.faults out.new) }
{
    match status::status_text(alloc, &status) {
        Ok(line) => put(out, line.as_bytes(), status),
        Err(_) => put(out, b"out of memory\n", Status::NoMemory),
    }
}

/// Prints a text, and returns the given status if all of it was taken.
pub fn put<O: Sink>(out: &mut O, text: &[u8], status: Status) -> Status
    requires { status ≢ Status.WriteFault }
    ensures whole { result ≢ Status.WriteFault
        → (result ≡ status) × Appends (O.bytes out.old) (O.bytes out.new) text.now }
    ensures cut { result ≡ Status.WriteFault
        → PutsPrefix (O.bytes out.old) (O.bytes out.new) text.now }
    ensures fault { result ≡ Status.WriteFault → Rose (O.faults out.old) (O.faults out.new) }
{
    match put_all(out, text) {
        Ok(()) => status,
        Err(_) => Status::WriteFault,
    }
}
