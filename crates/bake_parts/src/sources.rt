//! The sources of a part.

/// Cells of one component that stand one behind the other in its order.
#[derive(Clone, Copy, Debug, PartialEq, Eq)]
pub struct Sources {
    /// The number of the component.
    pub component: u32,
    /// The place of the first one among the cells of the component.
    pub first: u32,
    /// How many there are, one at least.
    pub count: u32,
}
