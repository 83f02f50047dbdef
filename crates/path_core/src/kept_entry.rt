//! How a board keeps its entries.

/// An entry as it is kept. The edit that it accepts is in the list of accepted edits.
#[derive(Clone, Copy, Debug, PartialEq, Eq)]
pub(crate) enum KeptEntry {
    /// An edit was accepted.
    Accept {
        /// The pass.
        pass: u32,
        /// The place of the edit among the accepted ones.
        place: u32,
    },
    /// The version after `prefix` accepted edits was published.
    Publish {
        /// The pass.
        pass: u32,
        /// How many edits the version includes.
        prefix: u32,
    },
    /// The board began to halt.
    Halt {
        /// The pass.
        pass: u32,
    },
}
