//! A sink that takes everything and keeps nothing.
ghost use Rattle.std.specs.Prelude.{◌≡◌, Ok, None, length};

use crate::{Failed, Sink};

/// A sink that drops what it is given. It tells no bytes, allocates nothing and never fails: its
/// fault count is always 0.
#[derive(Debug, Clone, Copy, Default, PartialEq, Eq)]
pub struct SteadySink;

impl SteadySink {
    /// A sink.
    pub fn new() -> SteadySink {
        SteadySink
    }
}

impl Sink for SteadySink {
    ghost bytes = { λ _. None };

    ghost faults = { λ _. 0 };

    fn put(&mut self, piece: &[u8]) -> Result<usize, Failed>
        ensures all { result ≡ Ok (length piece.now) }
    {
        Ok(piece.len())
    }
}
