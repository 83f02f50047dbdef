//! The messages that a connection of a server watches for.
ghost use Rattle.std.specs.Prelude.{◌≡◌, ◌<◌, IsTrue, ◌↔◌};

/// How many bytes the reply has that says that a server stops, with its length.
pub const DONE_SIZE: usize = 5;

/// The numbers of the protocols that a connection of a server watches for. They come from the crates that define the
/// protocols.
#[derive(Debug, Clone, Copy)]
pub struct Speech {
    /// The one byte of the frame that asks a server to stop.
    pub stop: u8,
    /// The reply that says that the server stops, after its length.
    pub done: [u8; DONE_SIZE],
    /// How many bytes an ask at a feed has.
    pub ask_size: u16,
    // An ask has bytes.
    pub ghost some: { 0 < ask_size },
}

impl Speech {
    /// Whether this reply says that the server stops.
    pub(crate) fn says_done(&self, reply: &[u8]) -> bool
        ensures { IsTrue result ↔ (reply.now ≡ self.now.done) }
    {
        reply == self.done.as_slice()
    }
}
