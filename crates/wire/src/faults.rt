//! Faults of the system, how they are counted, and the faults planned for calls in memory.
ghost use Rattle.std.specs.Prelude.{◌≡◌, ◌≤◌, ◌==◌, ◌-◌, ◌^◌, slice_index_or};
ghost use Rattle.std.specs.List.{list_any};
ghost use Rattle.wire.specs.Causes.{one_more};

use thiserror::Error;

/// A read, a write or an opening failed. The object that was called has counted the fault.
#[derive(Debug, Clone, Copy, PartialEq, Eq, Error)]
#[error("the outside refused")]
pub struct Failed;

// Counts one more fault. The count stops at the greatest number of its type.
pub(crate) fn count_fault(faults: &mut u64)
    ensures count { faults.new ≡ one_more faults.old }
    ensures later { faults.old ≤ faults.new }
{
    *faults = faults.saturating_add(1);
}

// The most bytes that the call after `calls` others gives or takes; past the end of `cuts` there is no limit.
pub(crate) fn cut_at(cuts: &[usize], calls: u64) -> usize
    ensures { result ≡ slice_index_or cuts.now calls (2 ^ 64 - 1) }
{
    cuts.get(calls as usize).copied().unwrap_or(usize::MAX)
}

// Whether the call with this number is planned to fail.
pub(crate) fn is_planned(fails: &[u64], call: u64) -> bool
    ensures { result ≡ list_any (λ planned. planned == call) fails.now }
{
    fails.contains(&call)
}
