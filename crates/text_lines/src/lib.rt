//! Texts of lines: the lines of a text, the words of a line, the number that a word is, and a text of one's own.
//!
//! A text is cut at each line feed. The words of a line are its pieces between runs of spaces and tabs. A number is one
//! decimal digit or more. These are this project's own rules for all its text formats.
//!
//! A line of words and numbers is read as an event, zeros in front of a number and all:
//!
//! ```text
//! events | submit 007 00065535 0 1
//! 1 events
//! ```
#![tactic(auto)]

mod lines;
mod numbers;
mod text;
mod words;

pub use lines::Lines;
pub use numbers::{number_at_most, number_capped};
pub use text::Text;
pub use words::{cut_word, is_blank, two_words, without_gaps, without_gaps_at_end};
