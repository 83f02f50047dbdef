//! What a search is about.

use path_image::Home;

/// The two ends of a path, in a component of so many cells.
#[derive(Clone, Copy)]
pub(crate) struct Seek {
    /// The place of the start in the component of the goal.
    pub(crate) first: u32,
    /// Where the goal stands.
    pub(crate) goal: Home,
    /// How many cells their component has, at most 32,768.
    pub(crate) size: u32,
}
