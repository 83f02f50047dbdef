//! Lengths as numbers and as text.

use std::fmt;

/// Billionths in a whole step.
pub(crate) const NANO: u64 = 1_000_000_000;

/// How many billionths a stated length may be off by: a hundredth of a step.
pub(crate) const TOLERANCE: u64 = 10_000_000;

/// A length to print: its whole part, a point and six digits.
#[derive(Clone, Copy, Debug, PartialEq, Eq)]
pub struct Length {
    /// Millionths of a straight step.
    pub micro: u64,
}

impl fmt::Display for Length {
    ghost use Rattle.std.specs.Prelude.{Some};
    ghost use Rattle.root_cost.specs.Lengths.{length_text};

    ghost output = { λ length. Some (length_text length.micro) };

    fn fmt<W: fmt::Write>(&self, f: &mut fmt::Formatter<W>) -> fmt::Result {
        let whole = self.micro / 1_000_000;
        let tenths = self.micro / 100_000 % 10;
        let hundredths = self.micro / 10_000 % 10;
        let thousandths = self.micro / 1_000 % 10;
        let fourth = self.micro / 100 % 10;
        let fifth = self.micro / 10 % 10;
        let sixth = self.micro % 10;
        write!(f, "{whole}.{tenths}{hundredths}{thousandths}")?;
        write!(f, "{fourth}{fifth}{sixth}")
    }
}
