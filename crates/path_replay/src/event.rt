//! Events: what the passes of a replay do.

ghost use Rattle.std.specs.Prelude.{◌≡◌};
ghost use Rattle.path_replay.specs.Events.{pass_of};

use edit_log::Edit;
use moves::Cell;

/// One event. Passes are numbered from 0 to 63.
#[derive(Clone, Copy, Debug, PartialEq, Eq)]
pub enum Event {
    /// An edit is submitted.
    Submit {
        /// The pass.
        pass: u32,
        /// The edit.
        edit: Edit,
    },
    /// The pass looks at the board, and holds the published version from then on.
    Look {
        /// The pass.
        pass: u32,
    },
    /// A path is asked for, in the version that the pass holds.
    Query {
        /// The pass.
        pass: u32,
        /// Where the path begins.
        start: Cell,
        /// Where it ends.
        goal: Cell,
    },
    /// The pass looks, and begins to build the version of all accepted edits, if it is not published already.
    Begin {
        /// The pass.
        pass: u32,
    },
    /// The next row of the pass's build is built.
    Row {
        /// The pass.
        pass: u32,
    },
    /// The version is published whose rows the pass has built.
    Publish {
        /// The pass.
        pass: u32,
    },
    /// The board begins to halt.
    Halt {
        /// The pass.
        pass: u32,
    },
}

impl Event {
    /// The number of the pass.
    pub fn pass(&self) -> u32
        ensures { result ≡ pass_of self.now }
    {
        match *self {
            Event::Submit { pass, .. }
            | Event::Look { pass }
            | Event::Query { pass, .. }
            | Event::Begin { pass }
            | Event::Row { pass }
            | Event::Publish { pass }
            | Event::Halt { pass } => pass,
        }
    }
}
