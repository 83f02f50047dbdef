//! What is done at the doors of a board.

ghost use Rattle.std.specs.Prelude.{◌≡◌, ℕ, IfNone, IfSome};
ghost use Rattle.session.specs.Trades.{IsFeedBy, IsNoFeed};

use versions::Version;

/// What is done over the links that come to the doors of a board.
#[derive(Clone, Copy)]
pub enum Trade<'a> {
    /// Sessions at all doors.
    Sessions,
    /// Feeds of the map before any edit at the door of one pass, and sessions at the others.
    Feeds {
        /// The number of the pass.
        pass: u32,
        /// A version of that map.
        start: &'a Version,
    },
}

impl<'a> Trade<'a> {
    /// Returns the version that feeds by the pass with that number begin with. `None` if its talks are sessions.
    pub(crate) fn start_by(&self, pass: u32) -> Option<&'a Version>
        ensures some { IfSome result (λ start. IsFeedBy self.now pass start.now.map) }
        ensures none { IfNone result (IsNoFeed self.now pass) }
    {
        match *self {
            Trade::Sessions => None,
            Trade::Feeds { pass: feed, start } => { if pass == feed { Some(start) } else { None } }
        }
    }
}
