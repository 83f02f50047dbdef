//! The first byte of each frame, which says what it is.

// ---- requests

/// A query for a path.
pub const QUERY: u8 = 0x01;
/// A change of the map.
pub const CHANGE: u8 = 0x02;
/// A request to build a version.
pub const BUILD: u8 = 0x03;
/// A request for the state of the board.
pub const STATUS: u8 = 0x04;
/// A request to end the session.
pub const BYE: u8 = 0x05;
/// A request to stop the server.
pub const STOP: u8 = 0x06;
/// A request for the second protocol.
pub const HELLO: u8 = 0x07;
/// Changes of the map that are made together.
pub const CHANGES: u8 = 0x08;

// ---- replies

/// A path, with its moves.
pub const PATH: u8 = 0x81;
/// No path exists.
pub const UNREACHABLE: u8 = 0x82;
/// A start or goal of the query is refused.
pub const REFUSED: u8 = 0x83;
/// A change was accepted.
pub const ACCEPTED: u8 = 0x84;
/// A change was refused.
pub const EDIT_REFUSED: u8 = 0x85;
/// A version was published.
pub const PUBLISHED: u8 = 0x86;
/// There was nothing to build.
pub const NOTHING_NEW: u8 = 0x87;
/// Another version was published first.
pub const OVERTAKEN: u8 = 0x88;
/// The state of the board.
pub const BOARD: u8 = 0x89;
/// The request was carried out.
pub const DONE: u8 = 0x8A;
/// The frame is not a request.
pub const MALFORMED: u8 = 0x8B;
/// The server ran out of memory for it.
pub const NO_MEMORY: u8 = 0x8C;
/// The second protocol is in use from now on.
pub const WELCOME: u8 = 0x8D;

/// The number of the second protocol, which Hello and Welcome carry.
pub const SECOND: u8 = 0x02;
