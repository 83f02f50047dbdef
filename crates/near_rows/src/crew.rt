//! Who builds.

ghost use Rattle.std.specs.Prelude.{◌<◌, ◌≤◌};
ghost use Rattle.build_pool.specs.declared.TheConstants.{MAX_WORKERS};

use std::alloc::Global;
use version_build::FEW_CELLS;

/// The threads that build the components of a map, and the gate that each piece passes.
#[derive(Drop)]
pub(crate) struct Crew<'a, R, G> {
    pub(crate) rt: &'a R,
    pub(crate) alloc: Global,
    /// How many threads build a component, from 1 to 64.
    pub(crate) workers: u32,
    pub(crate) gate: &'a G,
    ghost some: { 0 < workers },
    ghost few: { workers ≤ MAX_WORKERS },
}

impl<'a, R, G> Crew<'a, R, G> {
    /// A crew of so many threads, from 1 to 64.
    pub(crate) fn new(rt: &'a R, alloc: Global, workers: u32, gate: &'a G) -> Crew<'a, R, G>
        requires worker { 0 < workers }
        requires workers { workers ≤ MAX_WORKERS }
    {
        Crew {
            rt,
            alloc,
            workers,
            gate,
        }
    }

    /// How many threads build a component of so many cells: one where it is small.
    pub(crate) fn workers_for(&self, cells: usize) -> u32
        ensures some { 0 < result }
        ensures few { result ≤ MAX_WORKERS }
    {
        if cells < FEW_CELLS { 1 } else { self.workers }
    }
}
