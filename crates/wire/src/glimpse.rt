//! What is seen of files as they are read.

/// How many bytes of a file's beginning are seen.
pub const HEAD_SIZE: usize = 8;

/// What was seen of the files that were read: how many there were, and how the last of them begins.
#[derive(Debug, Clone, Copy, PartialEq, Eq)]
pub struct Glimpse {
    /// How many files were read to their end.
    pub files: u32,
    /// The first bytes of the last one; 0 after its end.
    pub head: [u8; HEAD_SIZE],
}

impl Glimpse {
    /// No file was read yet.
    pub const NONE: Glimpse = Glimpse {
        files: 0,
        head: [0; HEAD_SIZE],
    };

    /// The same after one more file with these bytes.
    pub(crate) fn and_of(self, bytes: &[u8]) -> Glimpse {
        let mut head = [0; HEAD_SIZE];
        for (place, byte) in bytes.iter().enumerate().take(HEAD_SIZE) {
            head[place] = *byte;
        }
        Glimpse {
            files: self.files.saturating_add(1),
            head,
        }
    }
}
