//! The whole program `path_bake`, over given files and a given output: it writes the image of a map's database, in the
//! same way as the main program.
//!
//! How many bytes the image of a small map has:
//!
//! ```sh
//! release/pathdb/path_bake maps/tutorial.map | wc -c
//! ```
//!
//! ```text
//! 96160
//! ```
#![tactic(auto)]

ghost use Rattle.std.specs.Prelude.{◌≡◌, ◌≢◌, IfErr, IfOk};
ghost use Rattle.std.specs.Io.KnownBytes.{Appends};
ghost use Rattle.wire.specs.Causes.{Rose};
ghost use Rattle.path_commands.specs.declared.status.Status.{Status};
ghost use Rattle.path_commands.specs.Runs.{run_over};
ghost use Rattle.bake_run.specs.Baking.{BreaksOff, IsAskedFor, IsCause, PutsImage, refusal_text};

mod asking;
mod output;
mod telling;

use asking::{ask_words, read_words};
use output::put_image;
pub use output::refuse;
use path_commands::{Means, Status, Watch, first_version, read_grid};
use std::alloc::Global;
use std::thread::Threads;
pub use telling::{advice, in_own_name};
use versions::Version;
use wire::{Bell, Files, Sink, StillBell};

/// Does what the words of a command line ask for, and returns how it ended. The words are those after the program's own
/// name. Each piece of the build passes the gate, which is told how far it is.
///
/// With `Done` the image was printed, and with any other status its line. Only with `WriteFault` is the image or line
/// incomplete, and the output has failed.
pub fn run<F: Files, O: Sink, G: Watch, R: Threads + Sync>(
    rt: &R,
    alloc: Global,
    words: &[String],
    files: &mut F,
    out: &mut O,
    gate: &G,
) -> Status
    ensures image { result ≡ Status.Done
        → PutsImage (run_over words.now (F.at files.old) (F.at files.new))
        (O.bytes out.old) (O.bytes out.new) }
    ensures cause { result ≢ Status.Done → result ≢ Status.WriteFault
        → IsCause (run_over words.now (F.at files.old) (F.at files.new)) result }
    ensures line { result ≢ Status.Done → result ≢ Status.WriteFault
        → Appends (O.bytes out.old) (O.bytes out.new) (refusal_text result) }
    ensures cut { result ≡ Status.WriteFault
        → BreaksOff (run_over words.now (F.at files.old) (F.at files.new))
        (O.bytes out.old) (O.bytes out.new) }
    ensures fault { result ≡ Status.WriteFault → Rose (O.faults out.old) (O.faults out.new) }
{
    let means = Means {
        rt,
        alloc,
        bell: &StillBell,
        gate,
    };
    match version_asked(&means, words, files) {
        Ok(version) => put_image(out, &version),
        Err(status) => refuse(alloc, out, status),
    }
}

/// Returns the version whose image is asked for, or the status with which the run ends without it.
fn version_asked<F: Files, B: Bell, G: Watch, R: Threads + Sync>(
    means: &Means<R, B, G>,
    words: &[String],
    files: &mut F,
) -> Result<Version, Status>
    ensures version { IfOk result
        (IsAskedFor (run_over words.now (F.at files.old) (F.at files.new))) }
    ensures refused { IfErr result
        (IsCause (run_over words.now (F.at files.old) (F.at files.new))) }
{
    let export = ask_words(means.alloc, words)?;
    let asked = read_words(means.alloc, export.as_slice())?;
    let grid = read_grid(means.alloc, files, asked.map)?;
    let version = first_version(means, grid, asked.build)?;
    Ok(version)
}
