//! Files of the system.
ghost use Rattle.std.specs.Prelude.{◌≡◌, None};

use crate::{Opened, Opener, ReaderFiles};
use std::fs::OpenFile;
use std::{fs, io, rt};

/// Files of the system, read through its runtime. They tell no content, because the system tells none.
pub type HostFiles<'a, R> = ReaderFiles<HostOpener<'a, R>>;

/// Opens files of the system.
#[derive(Drop)]
pub struct HostOpener<'a, R> {
    rt: &'a R,
}

impl<'a, R: rt::Files> Opener for HostOpener<'a, R> {
    type Reader = R::File;

    ghost content = { λ _ _. None };

    fn open(&self, name: &str) -> io::Result<Opened<R::File>> {
        let reader = fs::open(self.rt, name)?;
        let expected = reader.metadata()?.len();
        Ok(Opened { reader, expected })
    }
}

impl<'a, R: rt::Files> HostFiles<'a, R> {
    /// The files that this runtime can reach.
    pub fn new(rt: &'a R) -> HostFiles<'a, R>
        ensures { result.faults ≡ 0 }
    {
        ReaderFiles::over(HostOpener { rt })
    }
}
