//! Why a follower follows no further.

use std::alloc::AllocError;

/// Why a follower follows no further.
#[derive(Clone, Copy, Debug, PartialEq, Eq)]
pub enum FollowFault {
    /// The message that begins at that place of the stream, in bytes from 0 on, may not come there.
    Bad {
        /// The place of its first byte.
        at: u64,
    },
    /// The leader accepted fewer edits than the follower has.
    Ahead {
        /// How many the leader accepted.
        accepted: u32,
    },
    /// The leader had no memory for the edits.
    LeaderMemory,
    /// Memory ran out here.
    NoMemory,
}

impl From<AllocError> for FollowFault {
    ghost use Rattle.std.specs.Prelude.{◌≡◌};
    ghost use Rattle.follow_node.specs.declared.faults.FollowFault.TheVariants.{NoMemory};

    ghost from_gives = { λ _ error. error ≡ NoMemory };

    fn from(_: AllocError) -> FollowFault {
        FollowFault::NoMemory
    }
}
