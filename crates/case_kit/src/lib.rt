//! What the cases share: the fields of a line, the maps that a line names, families of made maps, numbers that follow
//! one another, and bytes as text.
//!
//! A family of made maps, and the line that its case has to print:
//!
//! ```text
//! components after edits and anew | 8 8 4000
//! 4000 maps, 0 differences
//! ```
#![tactic(auto)]

mod bytes;
mod families;
mod fields;
mod maps;
mod random;
mod refusal;

pub use bytes::{bytes_of, escaped, hex_of, unescaped};
pub use families::{Comparison, Family, compared};
pub use fields::{Fields, cell_in, numbers_in, order_in, terrain_in};
pub use maps::grid_of;
pub use random::Random;
pub use refusal::Refusal;
