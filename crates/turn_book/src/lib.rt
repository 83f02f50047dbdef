//! A ticket lock whose state stands for a list of entries.
//!
//! Threads take turns at one state, in the order in which they drew their tickets. Each thread has a [`Seat`], and the
//! contracts tell what it has seen of the history: each turn's state extends it, and no entry past it is the seat's
//! own.
//!
//! Two threads submit ten edits each: none is lost, and the edits of each are in its order:
//!
//! ```text
//! passes | first 2 10 0 | 2 | 10
//! 2 passes, 20 accepted, in order: true
//! ```
#![tactic(auto)]

pub mod book;
pub mod closing;
mod lock;
pub mod note;
mod seats;
pub mod serial;
mod steps;
pub mod turn;
pub mod view;

pub use book::{Book, MAX_SEATS, MakeRefused, Seat};
pub use closing::Sits;
pub use note::Note;
pub use serial::Serial;
pub use turn::Turn;
