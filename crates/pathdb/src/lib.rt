//! The database of a map for C: an image in the caller's memory is checked, read, also while cells are blocked, and
//! baked, in parts too.
//!
//! Each export calls a function of the libraries below and says its clauses again. What C sees of it,
//! `include/pathdb.h` says in the words of C: the numbers of the statuses are those of [`Status::number`], a slice is a
//! pointer and then a length, and no pointer is null. No export keeps anything: all that it reads or writes is the
//! caller's.
//!
//! `examples/path.c` bakes an image and walks a path of it, and `examples/doors.c` does while doors close.
#![tactic(auto)]

pub mod baking;
pub mod checks;
pub mod costs;
pub mod live;
pub mod parts;
pub mod queries;
mod status;
pub mod texts;

pub use status::Status;

/// The greatest number of a status.
pub const LAST_STATUS: u32 = 44;

/// How many bytes each text of a status has place in, with the byte 0 at its end.
pub const TEXT_ROOM: usize = 64;
