//! The builder, which builds and publishes whenever its bell is rung.

ghost use Rattle.std.specs.Prelude.{◌≡◌, ◌<◌, ◌≤◌, false, true};
ghost use Rattle.build_pool.specs.declared.TheConstants.{MAX_WORKERS};
ghost use Rattle.session.specs.Builders.{HasBuilt, count_reply, no_totals};
ghost use Rattle.session.specs.Standing.{stands};

use crate::building::answer_build;
use crate::desk::Desk;
use crate::means::Means;
use build_pool::Gate;
use query_proto::Reply;
use std::alloc::Global;
use std::sync::Wait;
use std::thread::Threads;
use wire::{Ear, Ring};

/// How often a builder's builds were answered in each way. Each count stops at `u64::MAX`.
#[derive(Clone, Copy, Debug, PartialEq, Eq)]
pub struct BuildTotals {
    /// A version was built and published.
    pub published: u64,
    /// Another version with as many edits or more was published first.
    pub overtaken: u64,
    /// The published version had all accepted edits already.
    pub nothing: u64,
    /// There was no memory for it.
    pub no_memory: u64,
}

impl BuildTotals {
    /// The totals before the first answer.
    fn none() -> BuildTotals
        ensures { result ≡ no_totals }
    {
        BuildTotals {
            published: 0,
            overtaken: 0,
            nothing: 0,
            no_memory: 0,
        }
    }

    /// Returns the totals with one reply more.
    fn with(self, reply: Reply) -> BuildTotals
        ensures { result ≡ count_reply self reply }
    {
        match reply {
            Reply::Published { .. } => BuildTotals {
                published: self.published.saturating_add(1),
                ..self
            },
            Reply::Overtaken { .. } => BuildTotals {
                overtaken: self.overtaken.saturating_add(1),
                ..self
            },
            Reply::NothingNew { .. } => BuildTotals {
                nothing: self.nothing.saturating_add(1),
                ..self
            },
            Reply::NoMemory => BuildTotals {
                no_memory: self.no_memory.saturating_add(1),
                ..self
            },
            _ => self,
        }
    }
}

/// Builds a version after all accepted edits and publishes it at each ring, until the bell is shut.
pub fn build_loop<K: Desk, E: Ear, R: Threads + Wait + Sync, G: Gate>(
    rt: &R,
    alloc: Global,
    desk: &mut K,
    ear: &mut E,
    workers: u32,
    gate: &G,
) -> BuildTotals
    requires worker { 0 < workers }
    requires workers { workers ≤ MAX_WORKERS }
    requires waiting { (E.at ear.old).over ≡ false }
    ensures place { (K.at desk.new).place ≡ (K.at desk.old).place }
    ensures built { HasBuilt (K.at desk.old).place (stands (K.at desk.old)) result
        (E.at ear.old).rung (stands (K.at desk.new)) (E.at ear.new).rung }
    ensures over { (E.at ear.new).over ≡ true }
{
    let means = Means::new(rt, alloc, workers, gate);
    let mut totals = BuildTotals::none();
    for _ in rt.forever() {
        match ear.wait(rt) {
            Ring::Rung => {
                let reply = answer_build(&means, desk);
                // From here on, the version that a board of its own holds is known.
                desk.held();
                totals = totals.with(reply);
            }
            Ring::Shut => return totals,
        }
    }
    unreachable!()
}
