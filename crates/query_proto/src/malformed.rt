//! Frames that encode nothing.

ghost use Rattle.std.specs.Prelude.{◌<◌, ◌^◌, length};
ghost use Rattle.query_proto.specs.Frames.{IsToldOf};

/// A frame that encodes nothing, identified by its first byte and its length.
#[derive(Clone, Copy, Debug, PartialEq, Eq)]
pub struct Malformed {
    /// The frame's first byte; 0 for an empty frame.
    pub kind: u8,
    /// How many bytes the frame has.
    pub length: u32,
}

impl Malformed {
    /// Identifies this frame.
    pub(crate) fn of(frame: &[u8]) -> Malformed
        requires { length frame.now < 2 ^ 32 }
        ensures { IsToldOf frame.now result }
    {
        Malformed {
            kind: frame.first().copied().unwrap_or(0),
            length: frame.len() as u32,
        }
    }
}
