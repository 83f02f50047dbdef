//! The protocols of a session.

ghost use Rattle.std.specs.Prelude.{◌≡◌};
ghost use Rattle.query_proto.specs.Frames.{limit_of};

use crate::MAX_REQUEST;

/// The most bytes that the frame of a request has in the first protocol.
pub const FIRST_LIMIT: u16 = 64;

/// Which requests a session takes. It begins at `Start`. If its first frame is a Hello, it goes on at `Two`, else at
/// `One`.
#[derive(Clone, Copy, Debug, PartialEq, Eq)]
pub enum Proto {
    /// Nothing has been asked yet: the requests of `One`, and a Hello.
    Start,
    /// A change sets one cell to blocked or land.
    One,
    /// A change sets 1 to 64 cells, also to water.
    Two,
}

/// The most bytes that the frame of a request may have in a protocol.
pub fn frame_limit(proto: Proto) -> u16
    ensures { result ≡ limit_of proto }
{
    match proto {
        Proto::Start | Proto::One => FIRST_LIMIT,
        Proto::Two => MAX_REQUEST as u16,
    }
}
