//! The standard output.
ghost use Rattle.std.specs.Prelude.{◌≡◌};

use crate::WriterSink;
use std::io;
use std::io::{Print, Printer};

/// Standard output, unbuffered: each put is one write. It tells no bytes, because the system tells none.
pub type StdSink<'a, R> = WriterSink<Printer<'a, R>>;

impl<'a, R: Print> StdSink<'a, R> {
    /// The output of this runtime.
    pub fn new(rt: &'a R) -> StdSink<'a, R>
        ensures { result.faults ≡ 0 }
    {
        WriterSink::over(io::writer(rt))
    }
}
