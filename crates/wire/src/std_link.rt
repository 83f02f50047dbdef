//! The standard input and output.
ghost use Rattle.std.specs.Prelude.{◌≡◌};

use crate::StreamLink;
use std::io;
use std::io::{Input, Print, Printer};

/// Standard input and output, unbuffered: each recv is one read, and each send one write. It tells
/// no talk, because the system tells none.
pub type StdLink<'a, R> = StreamLink<<R as Input>::Reader, Printer<'a, R>>;

impl<'a, R: Input + Print> StdLink<'a, R> {
    /// The input and output of this runtime.
    pub fn new(rt: &'a R) -> StdLink<'a, R>
        ensures read_faults { result.faults ≡ 0 }
        ensures write_faults { result.output.faults ≡ 0 }
    {
        StreamLink::over(rt.reader(), io::writer(rt))
    }
}
