//! What the words of a new row are made of.

ghost use Rattle.std.specs.Prelude.{◌≡◌};

/// The words before run `front`, then a word of its own where there is one, then the words from run `back` on, whose
/// runs start one place earlier or later.
#[derive(Clone, Copy)]
pub(crate) struct Parts {
    pub(crate) front: usize,
    pub(crate) own: Option<u32>,
    pub(crate) back: usize,
}

impl Parts {
    /// All runs stay, and those from this one on start one place earlier or later.
    pub(crate) fn staying(behind: usize) -> Parts
        ensures { result ≡ record { front = behind; own = None; back = behind } }
    {
        Parts {
            front: behind,
            own: None,
            back: behind,
        }
    }
}
