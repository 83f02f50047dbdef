//! The output of a run: the image, or the line of its status.
ghost use Rattle.std.specs.Prelude.{◌≡◌, ◌≢◌, ◌⊎◌};
ghost use Rattle.std.specs.Io.KnownBytes.{Appends};
ghost use Rattle.wire.specs.Causes.{Rose};
ghost use Rattle.wire.specs.Contents.{PutsPrefix};
ghost use Rattle.path_image.specs.Images.{image_of};
ghost use Rattle.path_image.specs.Writing.{bytes_of};
ghost use Rattle.path_commands.specs.declared.status.Status.{Status};
ghost use Rattle.bake_run.specs.Baking.{refusal_text};

use crate::telling::usage;
use path_commands::{Status, put};
use path_image::write_image;
use std::alloc::Global;
use versions::Version;
use wire::Sink;

/// Prints the image of a version, piece by piece.
pub(crate) fn put_image<O: Sink>(out: &mut O, version: &Version) -> Status
    ensures whole { result ≢ Status.WriteFault → (result ≡ Status.Done)
        × Appends (O.bytes out.old) (O.bytes out.new) (bytes_of (image_of version.now)) }
    ensures cut { result ≡ Status.WriteFault
        → PutsPrefix (O.bytes out.old) (O.bytes out.new) (bytes_of (image_of version.now)) }
    ensures fault { result ≡ Status.WriteFault → Rose (O.faults out.old) (O.faults out.new) }
{
    match write_image(version, out) {
        Ok(_) => Status::Done,
        Err(_) => Status::WriteFault,
    }
}

/// Prints the line of a status, or that of `NoMemory` if memory runs out.
pub fn refuse<O: Sink>(alloc: Global, out: &mut O, status: Status) -> Status
    requires done { status ≢ Status.Done }
    requires write { status ≢ Status.WriteFault }
    ensures whole { result ≢ Status.WriteFault
        → ((result ≡ status) ⊎ (result ≡ Status.NoMemory))
        × Appends (O.bytes out.old) (O.bytes out.new) (refusal_text result) }
    ensures cut { result ≡ Status.WriteFault
        → (told : Status) × ((told ≡ status) ⊎ (told ≡ Status.NoMemory))
        × PutsPrefix (O.bytes out.old) (O.bytes out.new) (refusal_text told) }
    ensures fault { result ≡ Status.WriteFault → Rose (O.faults out.old) (O.faults out.new) }
{
    match status {
        Status::Usage => put(out, usage().as_bytes(), Status::Usage),
        _ => path_commands::refuse(alloc, out, status),
    }
}
