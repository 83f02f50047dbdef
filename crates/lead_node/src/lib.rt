//! A leader: a board that is served at its doors, and fed at one door more.
//!
//! At the doors connections are sessions, and at the one door more each of them is a feed of the board's history, by a
//! pass of its own that enters nothing.
//!
//! A leader whose doors are closed at once:
//!
//! ```text
//! run | lead M 4000 1 4001 | rows ... | door closed | feed closed
//! 0 serving 4000\nfeeding 4001\naccepted 0\npublished 0\nversion 0\n | asked 4000 1 | asked 4001 1 | door 4000 \
//! closed | door 4001 closed
//! ```
#![tactic(auto)]

mod leading;

pub use leading::{LeadRefused, Led, lead_board};
