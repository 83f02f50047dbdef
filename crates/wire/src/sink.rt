//! Where bytes are put.
ghost use Rattle.std.specs.Prelude.{◌<◌, ◌≤◌, ℕ, List, Option, length, take, IfOk, OnOk, OnErr};
ghost use Rattle.std.specs.Io.KnownBytes.{Appends, Keeps};
ghost use Rattle.wire.specs.Causes.{Rose};
ghost use Rattle.wire.specs.Contents.{PutsPrefix};

use crate::Failed;

/// An output for bytes, one piece after another.
pub trait Sink {
    /// All bytes that it was given, if it tells them.
    ghost bytes: { Self → Option (List ℕ) };

    /// How often a put has failed.
    ghost faults: { Self → ℕ };

    /// Takes the first bytes of `piece`, and says how many. Taking none of a piece that is not
    /// empty is a fault. A put that fails takes nothing.
    fn put(&mut self, piece: &[u8]) -> Result<usize, Failed>
        ensures count { IfOk result (λ count. count ≤ length piece.now) }
        ensures some { IfOk result (λ count. 0 < length piece.now → 0 < count) }
        ensures grows { IfOk result (λ count.
            Appends (bytes self.old) (bytes self.new) (take count piece.now)) }
        ensures kept { OnErr result (Keeps (bytes self.old) (bytes self.new)) }

        ensures cause { OnErr result (Rose (faults self.old) (faults self.new)) }
        ensures later { faults self.old ≤ faults self.new };
}

/// Puts a whole text, in as many pieces as the sink needs.
///
/// # Errors
///
/// `Failed` if a put fails. The sink has then taken a first part of the text, less than the whole:
/// the fault met a piece that was not empty.
pub fn put_all<K: Sink>(sink: &mut K, text: &[u8]) -> Result<(), Failed>
    ensures put { OnOk result (Appends (K.bytes sink.old) (K.bytes sink.new) text.now) }
    ensures prefix { OnErr result (PutsPrefix (K.bytes sink.old) (K.bytes sink.new) text.now) }

    ensures cause { OnErr result (Rose (K.faults sink.old) (K.faults sink.new)) }
    ensures later { K.faults sink.old ≤ K.faults sink.new }
{
    let mut put = 0;
    while put < text.len() {
        put += sink.put(&text[put..])?;
    }
    Ok(())
}
