//! Files over anything that opens std readers by name.
ghost use Rattle.std.specs.Prelude.{◌≡◌, ◌≤◌, take, vec_len, IfOk, IfErr, IfSome, OnOk, IsErrOf};
ghost use Rattle.wire.specs.Causes.{Rose};
ghost use Rattle.wire.specs.Contents.{Tells, TellsAtMost, TellsMoreThan};
ghost use Rattle.wire.specs.Devices.{FailsByError, IsHonest, new_files_over, with_read_over};

use crate::faults::count_fault;
use crate::{FileError, Files, Glimpse, Opener};
use std::alloc::{AllocError, Global};
use std::io;
use std::io::{ErrorKind, Read};
use std::marker::Model;

/// Files that are opened by name and read to their end. They tell the content that the opener
/// tells. One counter counts the faults of all names.
#[derive(Drop)]
pub struct ReaderFiles<O> {
    opener: O,
    faults: u64,
    reason: Option<ErrorKind>,
    glimpse: Glimpse,
}

impl<O> Model for ReaderFiles<O> {
    ghost use Rattle.wire.specs.Devices.{FilesOver};

    ghost Value = { FilesOver O };

    ghost view = { λ files. record {
      opener = files.opener;
      faults = files.faults;
      reason = files.reason;
    } };
}

impl<O: Opener> ReaderFiles<O> {
    /// The files that this opener opens.
    pub fn over(opener: O) -> ReaderFiles<O>
        ensures { result ≡ new_files_over opener }
    {
        ReaderFiles {
            opener,
            faults: 0,
            reason: None,
            glimpse: Glimpse::NONE,
        }
    }

    /// Why the last read failed, if it did.
    pub fn reason(&self) -> Option<ErrorKind>
        ensures { result ≡ self.now.reason }
    {
        self.reason
    }

    /// What was seen of the files that were read.
    pub fn glimpse(&self) -> Glimpse {
        self.glimpse
    }
}

impl<O: Opener> Files for ReaderFiles<O> {
    ghost at = { λ files. record {
      content = O.content files.opener;
      faults = λ _. files.faults;
    } };

    fn read_all(&mut self, alloc: Global, name: &str, limit: usize) -> Result<Vec<u8>, FileError>
        ensures within { IfOk result (λ bytes. vec_len bytes ≤ limit) }
        ensures bytes { IfOk result (λ bytes.
            Tells (O.content self.old.opener name.now) bytes.items) }
        ensures fits { OnOk result (TellsAtMost (O.content self.old.opener name.now) limit) }
        ensures too_long { IsErrOf result FileError.TooLong
            → TellsMoreThan (O.content self.old.opener name.now) limit }

        ensures failed { IsErrOf result FileError.Failed → FailsByError self.old self.new }
        ensures otherwise { (IsErrOf result FileError.Failed → ⊥)
            → self.new ≡ with_read_over self.old }

        ensures cause { IsErrOf result FileError.Failed → Rose self.old.faults self.new.faults }
        ensures later { self.old.faults ≤ self.new.faults }
        ensures kept { self.new.opener ≡ self.old.opener }
    {
        self.reason = None;
        match read_file(&self.opener, alloc, name, limit) {
            Ok(bytes) => {
                self.glimpse = self.glimpse.and_of(&bytes);
                Ok(bytes)
            }
            Err(ReadError::TooLong) => Err(FileError::TooLong),
            Err(ReadError::NoMemory) => Err(FileError::NoMemory),
            Err(ReadError::Fault(kind)) => {
                count_fault(&mut self.faults);
                self.reason = Some(kind);
                Err(FileError::Failed)
            }
        }
    }
}

/// Why a reader was not read to its end.
#[derive(Debug, Clone, Copy, PartialEq, Eq)]
enum ReadError {
    /// The system refused, with an error of this kind, which is not "out of memory".
    Fault(ErrorKind),
    /// It has more bytes than the caller allows.
    TooLong,
    /// Memory for its bytes ran out.
    NoMemory,
}

impl From<AllocError> for ReadError {
    ghost use Rattle.std.specs.Prelude.{◌≡◌};
    ghost use Rattle.wire.specs.declared.reader_files.ReadError.TheVariants.{NoMemory};

    ghost from_gives = { λ _ error. error ≡ NoMemory };

    fn from(_: AllocError) -> ReadError {
        ReadError::NoMemory
    }
}

impl From<io::Error> for ReadError {
    ghost use Rattle.std.specs.IoError.{error_kind};
    ghost use Rattle.wire.specs.Devices.{IsReasonOf};

    ghost from_gives = { λ error refusal. IsReasonOf (error_kind error) refusal };

    fn from(error: io::Error) -> ReadError {
        match error.kind() {
            ErrorKind::OutOfMemory => ReadError::NoMemory,
            kind => ReadError::Fault(kind),
        }
    }
}

/// Returns all bytes of a file, at most `limit`.
fn read_file<O: Opener>(
    opener: &O,
    alloc: Global,
    name: &str,
    limit: usize,
) -> Result<Vec<u8>, ReadError>
    ensures within { IfOk result (λ bytes. vec_len bytes ≤ limit) }
    ensures bytes { IfOk result (λ bytes. Tells (O.content opener.now name.now) bytes.items) }
    ensures too_long { IsErrOf result ReadError.TooLong
        → TellsMoreThan (O.content opener.now name.now) limit }
    ensures honest { IfErr result IsHonest }
{
    let opened = opener.open(name)?;
    read_within(alloc, opened.reader, opened.expected, limit)
}

/// Returns all bytes that a reader has left, at most `limit`. It reads at most one byte more.
fn read_within<R: Read + Drop>(
    alloc: Global,
    reader: R,
    expected: u64,
    limit: usize,
) -> Result<Vec<u8>, ReadError>
    ensures within { IfOk result (λ bytes. vec_len bytes ≤ limit) }
    ensures bytes { IfOk result (λ bytes. Tells (R.remaining reader) bytes.items) }
    ensures too_long { IsErrOf result ReadError.TooLong
        → TellsMoreThan (R.remaining reader) limit }
    ensures honest { IfErr result IsHonest }
{
    let bytes = read_first(alloc, reader, expected, (limit as u64).saturating_add(1))?;
    if bytes.len() > limit {
        return Err(ReadError::TooLong);
    }
    Ok(bytes)
}

/// Returns the first bytes that a reader has left, up to a limit. It allocates memory at once for
/// as many as are expected.
fn read_first<R: Read + Drop>(
    alloc: Global,
    reader: R,
    expected: u64,
    most: u64,
) -> Result<Vec<u8>, ReadError>
    ensures bytes { IfOk result (λ bytes.
        IfSome (R.remaining reader) (λ left. bytes.items ≡ take most left)) }
    ensures not_too_long { IsErrOf result ReadError.TooLong → ⊥ }
    ensures honest { IfErr result IsHonest }
{
    let room = expected.saturating_add(1).min(most);
    let mut bytes = Vec::with_capacity(alloc, room as usize)?;
    reader.take(most).read_to_end(&mut bytes)?;
    Ok(bytes)
}
