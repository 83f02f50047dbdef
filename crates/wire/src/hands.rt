//! The threads of a server, which serves nobody before all of them have begun.
ghost use Rattle.std.specs.Prelude.{◌≡◌, ◌<◌, ◌≤◌, true, false, IsErr, IsTrue, IfOk, ◌↔◌};

use crate::Failed;
use std::sync::atomic::{AtomicBool, AtomicU64, Ordering};

/// How long the threads of a server may take to begin, in seconds.
pub const BEGIN_TIME: u64 = 10;

/// How long a knock waits while some threads have not begun, in milliseconds.
pub(crate) const BEGIN_PAUSE: u64 = 1;

/// How many threads a server needs and how many of them have begun: one for each door, and one that builds.
#[derive(Drop)]
pub struct Hands {
    needed: AtomicU64,
    begun: AtomicU64,
    late: AtomicBool,
}

impl Hands {
    /// The count of a server that needs no threads yet.
    pub fn new() -> Hands {
        Hands {
            needed: AtomicU64::new(0),
            begun: AtomicU64::new(0),
            late: AtomicBool::new(false),
        }
    }

    /// Adds to the number of threads needed.
    pub(crate) fn need(&self, more: u32) {
        self.needed.fetch_add(u64::from(more), Ordering::SeqCst);
    }

    /// Counts a thread that has begun.
    pub(crate) fn begin(&self) {
        self.begun.fetch_add(1, Ordering::SeqCst);
    }

    /// How many are needed.
    pub(crate) fn needed(&self) -> u64 {
        self.needed.load(Ordering::SeqCst)
    }

    /// How many have begun.
    pub(crate) fn begun(&self) -> u64 {
        self.begun.load(Ordering::SeqCst)
    }

    /// Gives up the threads that have not begun, and says whether this is the first call to do so.
    pub(crate) fn give_up(&self) -> bool {
        !self.late.swap(true, Ordering::SeqCst)
    }

    /// Whether they have been given up.
    pub(crate) fn is_given_up(&self) -> bool {
        self.late.load(Ordering::SeqCst)
    }
}

/// Whether a server accepts connections when `begun` of its `needed` threads have begun. Fails if the others were given
/// up or are late.
pub(crate) fn lets_in(begun: u64, needed: u64, given_up: bool, late: bool) -> Result<bool, Failed>
    ensures all { IfOk result (λ is_open. IsTrue is_open ↔ needed ≤ begun) }
    ensures given_up { given_up ≡ true → IsErr result }
    ensures late { late ≡ true → begun < needed → IsErr result }
    ensures early { given_up ≡ false → late ≡ false → IsErr result → ⊥ }
    ensures begun { given_up ≡ false → needed ≤ begun → IsErr result → ⊥ }
{
    if given_up || (late && begun < needed) {
        return Err(Failed);
    }
    Ok(needed <= begun)
}
