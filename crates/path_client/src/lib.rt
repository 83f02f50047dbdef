//! The client's side of a session with a server: one request out, one answer in.
//!
//! A client asks for water in a cell, and reads no byte past the answer:
//!
//! ```text
//! ask | 02 00 00 00 00 02 | 00 00 00 02 8D 02 00 00 00 05 84 00 00 00 01 07 | - | - | 64 | -
//! Accepted { number: 1 }; left 07; sent 00 02 07 02 00 06 02 00 00 00 00 02
//! ```
#![tactic(auto)]

mod asking;
mod fault;
mod heard;
mod hearing;
mod taking;

pub use asking::ask;
pub use fault::ClientFault;
pub use heard::{Heard, MoveList};
