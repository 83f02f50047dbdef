//! How events are kept.

use moves::Cell;

/// An event as it is kept. The edit of one that submits stands in a list of edits.
#[derive(Clone, Copy, Debug, PartialEq, Eq)]
pub(crate) enum KeptEvent {
    /// An edit is submitted.
    Submit {
        /// The pass.
        pass: u32,
        /// The place of the edit among all of them.
        place: u32,
    },
    /// The pass looks at the board.
    Look {
        /// The pass.
        pass: u32,
    },
    /// A path is asked for.
    Query {
        /// The pass.
        pass: u32,
        /// Where the path begins.
        start: Cell,
        /// Where it ends.
        goal: Cell,
    },
    /// A build is begun.
    Begin {
        /// The pass.
        pass: u32,
    },
    /// The next row is built.
    Row {
        /// The pass.
        pass: u32,
    },
    /// What was built is published.
    Publish {
        /// The pass.
        pass: u32,
    },
    /// The board begins to halt.
    Halt {
        /// The pass.
        pass: u32,
    },
}
