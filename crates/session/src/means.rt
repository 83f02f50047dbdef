//! What a session works with.

ghost use Rattle.std.specs.Prelude.{◌≡◌, ◌<◌, ◌≤◌};
ghost use Rattle.build_pool.specs.declared.TheConstants.{MAX_WORKERS};

use std::alloc::Global;

/// What a session needs other than its desk and its link, passed on unchanged.
#[derive(Drop)]
pub struct Means<'a, R, G> {
    /// The runtime.
    pub(crate) rt: &'a R,
    /// The memory.
    pub(crate) alloc: Global,
    /// How many threads build a version.
    pub(crate) workers: u32,
    /// The gate that each piece of a build passes.
    pub(crate) gate: &'a G,
    ghost some: { 0 < workers },
    ghost few: { workers ≤ MAX_WORKERS },
}

impl<'a, R, G> Means<'a, R, G> {
    /// These means, with 1 to 64 threads.
    pub fn new(rt: &'a R, alloc: Global, workers: u32, gate: &'a G) -> Means<'a, R, G>
        requires worker { 0 < workers }
        requires workers { workers ≤ MAX_WORKERS }
        ensures { result.workers ≡ workers }
    {
        Means {
            rt,
            alloc,
            workers,
            gate,
        }
    }
}
