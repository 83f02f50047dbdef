//! What is seen of files and ports during a run.

use std::io;
use std::io::ErrorKind;
use wire::Glimpse;

/// What was seen of files and ports during a run. It lets the advice say more than the status.
#[derive(Clone, Copy, Debug)]
pub struct Seen {
    /// Why the last file was not read.
    pub reason: Option<ErrorKind>,
    /// What was seen of the files that were read.
    pub files: Glimpse,
    /// The port that the system refused, and the reason.
    pub refusal: Option<(u16, io::Error)>,
}

impl Seen {
    /// Nothing was seen.
    pub const NOTHING: Seen = Seen {
        reason: None,
        files: Glimpse::NONE,
        refusal: None,
    };

    /// Returns what the last file is by its first bytes, if these show that it is not text.
    pub(crate) fn sort(&self) -> Option<&'static str> {
        let head = self.files.head.as_slice();
        if head.starts_with(b"\xEF\xBB\xBF") {
            Some("a byte order mark")
        } else if head.starts_with(b"\xFF\xFE") || head.starts_with(b"\xFE\xFF") {
            Some("a UTF-16 byte order mark")
        } else if head.starts_with(b"\x1F\x8B") {
            Some("a gzip header")
        } else if head.starts_with(b"\x89PNG") {
            Some("a PNG header")
        } else {
            None
        }
    }
}
