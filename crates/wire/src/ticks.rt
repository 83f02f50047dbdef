//! Reads and writes that wait at most a second.
ghost use Rattle.std.specs.Prelude.{◌≡◌, ◌<◌, ◌≤◌, length, take, IfNone, IfOk, IfSome, OnErr};
ghost use Rattle.std.specs.Io.KnownBytes.{Appends, Consumes, IsAtEnd, Keeps};

use crate::Failed;
use std::io;
use std::io::{ErrorKind, Read, Write};
use std::net::TcpStream;
use std::time::{Clock, Duration, Instant};

/// How long one read or write waits, in seconds.
pub(crate) const TICK_TIME: u64 = 1;

/// A connection whose small writes are sent at once, and whose reads and writes each wait for at
/// most [`TICK_TIME`].
pub(crate) fn ticking(stream: TcpStream) -> io::Result<TcpStream> {
    let tick = Some(Duration::from_secs(TICK_TIME));
    stream.set_nodelay(true)?;
    stream.set_read_timeout(tick)?;
    stream.set_write_timeout(tick)?;
    Ok(stream)
}

/// One read. Returns `None` if nothing came in while it waited.
pub(crate) fn read_tick<I: Read>(reader: &mut I, room: &mut [u8]) -> Result<Option<usize>, Failed>
    ensures count { IfOk result (λ read. IfSome read (λ count. count ≤ length room.old)) }
    ensures came { IfOk result (λ read. IfSome read (λ count. Consumes
        (I.remaining reader.old) (I.remaining reader.new) (take count room.new))) }
    ensures end { IfOk result (λ read. IfSome read (λ count.
        count ≡ 0 → 0 < length room.old → IsAtEnd (I.remaining reader.new))) }
    ensures none { IfOk result (λ read.
        IfNone read (Keeps (I.remaining reader.old) (I.remaining reader.new))) }
    ensures kept { OnErr result (Keeps (I.remaining reader.old) (I.remaining reader.new)) }
{
    match reader.read(room) {
        Ok(count) => Ok(Some(count)),
        Err(error) if is_tick(error.kind()) => Ok(None),
        Err(_) => Err(Failed),
    }
}

/// One write. Returns `None` if nothing was taken while it waited.
pub(crate) fn write_tick<O: Write>(writer: &mut O, piece: &[u8]) -> Result<Option<usize>, Failed>
    ensures count { IfOk result (λ written. IfSome written (λ count. count ≤ length piece.now)) }
    ensures some { IfOk result (λ written.
        IfSome written (λ count. 0 < length piece.now → 0 < count)) }
    ensures grows { IfOk result (λ written. IfSome written (λ count. Appends
        (O.contents writer.old) (O.contents writer.new) (take count piece.now))) }
    ensures none { IfOk result (λ written.
        IfNone written (Keeps (O.contents writer.old) (O.contents writer.new))) }
    ensures kept { OnErr result (Keeps (O.contents writer.old) (O.contents writer.new)) }
{
    match writer.write(piece) {
        Ok(count) if count > 0 || piece.is_empty() => Ok(Some(count)),
        Err(error) if is_tick(error.kind()) => Ok(None),
        _ => Err(Failed),
    }
}

/// Whether a read or a write ended because it timed out or a signal interrupted it.
fn is_tick(kind: ErrorKind) -> bool {
    matches!(kind, ErrorKind::WouldBlock | ErrorKind::Interrupted)
}

/// How many milliseconds have passed since then; 0 if the clock cannot be read.
pub(crate) fn millis_since<R: Clock>(rt: &R, since: Instant) -> u64 {
    match since.elapsed(rt) {
        Ok(time) => time
            .as_secs()
            .saturating_mul(1000)
            .saturating_add(u64::from(time.subsec_millis())),
        Err(_) => 0,
    }
}
