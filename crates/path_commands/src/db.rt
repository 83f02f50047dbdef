//! `export MAP` and `verify DB`: the file of a map's database, and whether a file is one.
ghost use Rattle.std.specs.Prelude.{◌≡◌, ◌≢◌, IfErr, IfOk, string_bytes};
ghost use Rattle.std.specs.Io.KnownBytes.{Appends};
ghost use Rattle.wire.specs.Causes.{Rose};
ghost use Rattle.wire.specs.Contents.{PutsPrefix};
ghost use Rattle.path_file.specs.Files.{file_of};
ghost use Rattle.path_commands.specs.Runs.{HoldsVersion, IsDbFileCause, file_over};
ghost use Rattle.path_commands.specs.Texts.{version_text};

use crate::check::push_numbers;
use crate::file::read_file;
use crate::status::Status;
use path_file::{MAX_DB, export, load_db};
use std::alloc::{AllocError, Global};
use std::fmt::Write;
use versions::Version;
use wire::{Files, Sink};

/// Prints the file of a version, piece by piece.
pub fn put_file<O: Sink>(out: &mut O, version: &Version) -> Status
    ensures whole { result ≢ Status.WriteFault
        → (result ≡ Status.Done) × Appends (O.bytes out.old) (O.bytes out.new) (file_of version.now) }
    ensures cut { result ≡ Status.WriteFault
        → PutsPrefix (O.bytes out.old) (O.bytes out.new) (file_of version.now) }
    ensures fault { result ≡ Status.WriteFault → Rose (O.faults out.old) (O.faults out.new) }
{
    match export(version, out) {
        Ok(_) => Status::Done,
        Err(_) => Status::WriteFault,
    }
}

/// Returns the version in the file of that name, checked without a search.
pub fn read_version<F: Files>(alloc: Global, files: &mut F, name: &str) -> Result<Version, Status>
    ensures version { IfOk result (λ version. HoldsVersion
        (file_over (F.at files.old) (F.at files.new) name.now) version) }
    ensures refused { IfErr result
        (IsDbFileCause (file_over (F.at files.old) (F.at files.new) name.now)) }
{
    let bytes = read_file(alloc, files, name, MAX_DB)?;
    Ok(load_db(alloc, bytes.as_slice())?)
}

/// Returns the number of edits before a version and the numbers of its cells, components and runs, a line each.
pub fn answer_verify(alloc: Global, version: &Version) -> Result<String, AllocError>
    ensures { IfOk result (λ text. string_bytes text ≡ version_text version.now) }
{
    let prefix = version.prefix();
    let mut text = String::new(alloc);
    write!(text, "version {prefix}\n")?;
    push_numbers(&mut text, version.totals())?;
    Ok(text)
}
