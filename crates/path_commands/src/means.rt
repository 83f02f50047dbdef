//! What a run works with.

use std::alloc::Global;

/// What a run works with, unchanged from start to end.
#[derive(Drop)]
pub struct Means<'a, R, B, G> {
    /// The runtime whose threads build versions and serve doors.
    pub rt: &'a R,
    /// The memory.
    pub alloc: Global,
    /// The bell that is rung when there is something to build.
    pub bell: &'a B,
    /// The gate that each piece of a build passes, which is told how far the run is.
    pub gate: &'a G,
}
