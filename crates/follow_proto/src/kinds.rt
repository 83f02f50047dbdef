//! The first byte of each ask and message, which says what it is.

/// An ask of a follower.
pub const ASK: u8 = 0x21;
/// The map before any edit.
pub const START: u8 = 0x31;
/// Accepted edits.
pub const EDITS: u8 = 0x32;
/// The leader accepted fewer edits than the follower has.
pub const AHEAD: u8 = 0x33;
/// The leader ran out of memory for it.
pub const NO_MEMORY: u8 = 0x34;
