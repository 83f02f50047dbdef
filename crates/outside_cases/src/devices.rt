//! A reader and a writer of std whose calls fail as planned.

use std::io;
use std::io::{ErrorKind, Read, Write};

/// The errors of a device's calls, one call after the other, each a word: the kind of the error, or `-` for none. Calls
/// behind the last word have none.
#[derive(Clone, Copy)]
pub(crate) struct Errors<'a> {
    left: &'a str,
}

impl<'a> Errors<'a> {
    /// The errors that these words name.
    pub(crate) fn of(words: &'a str) -> Errors<'a> {
        Errors { left: words }
    }

    /// Begins the next call, with its error.
    fn begin_call(&mut self) -> io::Result<()> {
        let (word, left) = self.left.split_once(' ').unwrap_or((self.left, "-"));
        self.left = left;
        let kind = match word {
            "Interrupted" => ErrorKind::Interrupted,
            "BrokenPipe" => ErrorKind::BrokenPipe,
            _ => return Ok(()),
        };
        Err(io::Error::from(kind))
    }
}

/// A reader that gives two bytes at a time.
#[derive(Drop)]
pub(crate) struct Slow<'a> {
    pub(crate) left: &'a [u8],
    pub(crate) errors: Errors<'a>,
}

impl<'a> Read for Slow<'a> {
    fn read(&mut self, room: &mut [u8]) -> io::Result<usize> {
        self.errors.begin_call()?;
        let count = self.left.len().min(room.len()).min(2);
        room[..count].copy_from_slice(&self.left[..count]);
        self.left = &self.left[count..];
        Ok(count)
    }
}

/// A writer that takes three bytes at a time, and none where it is full.
#[derive(Drop)]
pub(crate) struct Narrow<'a> {
    pub(crate) taken: &'a mut Vec<u8>,
    pub(crate) room: usize,
    pub(crate) errors: Errors<'a>,
}

impl<'a> Write for Narrow<'a> {
    fn write(&mut self, piece: &[u8]) -> io::Result<usize> {
        self.errors.begin_call()?;
        let left = self.room.saturating_sub(self.taken.len());
        let count = piece.len().min(left).min(3);
        self.taken.extend_from_slice(&piece[..count])?;
        Ok(count)
    }

    fn flush(&mut self) -> io::Result<()> {
        Ok(())
    }
}
