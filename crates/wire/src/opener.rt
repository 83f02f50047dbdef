//! Opens files by name.
ghost use Rattle.std.specs.Prelude.{◌≡◌, ℕ, List, Option, Some, IfOk, IfSome};

use std::io;
use std::io::Read;

/// A file that was opened, to be read from its beginning.
#[derive(Drop)]
pub struct Opened<R> {
    /// The reader of its bytes.
    pub reader: R,
    /// How many bytes the system expects in it. There may be more or fewer, as in a pipe.
    pub expected: u64,
}

/// Opens files by name.
pub trait Opener {
    /// The reader of a file's bytes.
    type Reader: Read + Drop;

    /// The bytes that a name holds, if they are told.
    ghost content: { Self → List ℕ → Option (List ℕ) };

    /// Opens the file with this name. If its bytes are told, its reader has exactly these left.
    fn open(&self, name: &str) -> io::Result<Opened<Self::Reader>>
        ensures { IfOk result (λ opened. IfSome (content self.now name.now)
            (λ held. Self.Reader.remaining opened.reader ≡ Some held)) };
}
