//! Why no answer was received.

use std::alloc::AllocError;

/// Why no answer was received.
#[derive(Clone, Copy, Debug, PartialEq, Eq)]
pub enum ClientFault {
    /// What came in is not an answer: its length is above the most that the frame of a reply has, or it is whole and no
    /// reply has its frame.
    Malformed,
    /// The link ended before an answer was whole.
    Closed {
        /// How many bytes of it came in, with those of its length; at most 32,783.
        have: u32,
    },
    /// The link failed to give bytes.
    ReadFault,
    /// The link failed to send bytes. Not everything was sent.
    WriteFault,
    /// The server does not know the second protocol, which the request needs: the answer to a Hello was not Welcome.
    OldServer {
        /// The first byte of the reply that came instead.
        kind: u8,
    },
    /// Memory ran out.
    NoMemory,
}

impl From<AllocError> for ClientFault {
    ghost use Rattle.std.specs.Prelude.{◌≡◌};
    ghost use Rattle.path_client.specs.declared.fault.ClientFault.TheVariants.{NoMemory};

    ghost from_gives = { λ _ fault. fault ≡ NoMemory };

    fn from(_: AllocError) -> ClientFault {
        ClientFault::NoMemory
    }
}
