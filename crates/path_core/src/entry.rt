//! What is entered in a board's history.

use edit_log::Edit;

/// One entry. Each has the number of the pass that made it.
#[derive(Clone, Copy, Debug, PartialEq, Eq)]
pub enum Entry {
    /// An edit was accepted.
    Accept {
        /// The pass.
        pass: u32,
        /// The edit.
        edit: Edit,
    },
    /// The version after `prefix` accepted edits was published.
    Publish {
        /// The pass.
        pass: u32,
        /// How many edits the version includes, from 1 to 1,048,576.
        prefix: u32,
    },
    /// The board began to halt.
    Halt {
        /// The pass.
        pass: u32,
    },
}
