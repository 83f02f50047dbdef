//! Exact costs of paths on a grid: a number of straight steps of length 1 and of diagonal steps of
//! length √2.
//!
//! A cost `(a, b)` stands for `a + b√2`. Costs are never rounded: they are compared by signs and
//! squares of whole numbers, so two costs are equal only if they are the same pair. (MovingAI
//! scenario format page: straight steps cost 1, diagonal steps √2.)
//!
//! Seven straight steps cost less than five diagonal ones, 5√2 = 7.07:
//!
//! ```text
//! cost order | 7 0 | 0 5
//! Less, at most true, below true
//! ```
#![tactic(auto)]

ghost use Rattle.std.specs.Prelude.{◌≡◌, ◌-◌, ◌*◌, ◌^◌, ◌<◌, ◌≤◌, ◌↔◌, IsTrue, IsFalse, IsNone, refl, Some};
ghost use Rattle.std.specs.Cmp.{partial_order_from_agreeing_total};
ghost use Rattle.root_cost.specs.Costs.{IsAtMost, IsMicro, IsNear, plus_step, pair_of, whole};
ghost use Rattle.root_cost.specs.Keys.{key_of, step_key, cost_if_key, GivesBack};
ghost use Rattle.root_cost.specs.Compared.{cost_cmp};
ghost use Rattle.root_cost.specs.Laws.{OrderIsLawful, KeysOrderCosts};
ghost use Rattle.root_cost.specs.Lawful.Comparing.{cost_cmp_total, cost_cmp_ties};

mod lengths;

pub use lengths::Length;
use lengths::{NANO, TOLERANCE};
use std::cmp::Ordering;

/// The most steps of each kind, straight and diagonal, in a cost that has a length.
pub const MAX_STEPS: u32 = 65_535;

/// The key of a straight step.
pub const STRAIGHT_KEY: u32 = 33_461;

/// The key of a diagonal step: `DIAGONAL_KEY / STRAIGHT_KEY` is just below √2, since
/// 47,321² = 2 · 33,461² - 1.
pub const DIAGONAL_KEY: u32 = 47_321;

/// Keys order as costs do as long as the costs have fewer diagonal steps than this: 33,461 diagonal
/// steps have the same key as 47,321 straight ones.
pub const KEYED_DIAGONALS: u32 = 33_461;

/// The greatest key of fewer than [`KEYED_DIAGONALS`] diagonal steps alone. A cost whose key is at
/// most this has no more diagonal steps, so its key identifies it. A path over at most 32,768 cells
/// has a smaller key.
pub const GREATEST_KEY: u32 = 1_583_360_660;

/// Used in place of a key if there is no cost.
pub const NO_KEY: u32 = u32::MAX;

/// Reads the diagonal steps from a key: `DIAGONAL_KEY · READING_FACTOR` is one more than a multiple of `STRAIGHT_KEY`.
const READING_FACTOR: u64 = 19_601;

/// The cost of a path: how many of its moves are straight and how many are diagonal.
///
/// Costs are ordered by `straight + diagonal · √2`, for all values of the fields.
#[derive(Clone, Copy, Debug, Default, PartialEq, Eq)]
pub struct Cost {
    /// Straight moves, each of length 1.
    pub straight: u32,
    /// Diagonal moves, each of length √2.
    pub diagonal: u32,
}

impl Cost {
    /// The cost of standing still.
    pub const ZERO: Cost = Cost {
        straight: 0,
        diagonal: 0,
    };

    /// Returns the cost of this path with one more move, diagonal or straight.
    ///
    /// Both fields must be below [`MAX_STEPS`].
    pub fn plus(self, diagonal_step: bool) -> Cost
        requires straight { self.straight < MAX_STEPS }
        requires diagonal { self.diagonal < MAX_STEPS }
        ensures { result ≡ plus_step self diagonal_step }
    {
        if diagonal_step {
            Cost {
                diagonal: self.diagonal + 1,
                ..self
            }
        } else {
            Cost {
                straight: self.straight + 1,
                ..self
            }
        }
    }

    /// Returns whether `self` is at most `other`, as `straight + diagonal · √2`.
    #[tactic(auto, unfolding(crate::specs::Costs::IsAtMost))]
    pub fn at_most(self, other: Cost) -> bool
        ensures yes { IsTrue result ↔ IsAtMost self other }
        ensures otherwise { IsFalse result → IsAtMost other self }
    {
        match (
            self.straight <= other.straight,
            self.diagonal <= other.diagonal,
        ) {
            (true, true) => true,
            (false, false) => false,
            (false, true) => square(u64::from(self.straight - other.straight))
                <= 2 * square(u64::from(other.diagonal - self.diagonal)),
            (true, false) => 2 * square(u64::from(self.diagonal - other.diagonal))
                <= square(u64::from(other.straight - self.straight)),
        }
    }

    /// Returns the length in millionths, rounded down: the floor of
    /// `(straight + diagonal · √2) · 1,000,000`.
    ///
    /// Both fields must be at most [`MAX_STEPS`].
    pub fn micro(self) -> u64
        requires straight { self.straight ≤ MAX_STEPS }
        requires diagonal { self.diagonal ≤ MAX_STEPS }
        ensures { IsMicro self result }
    {
        let diagonal = 1_000_000 * u128::from(self.diagonal);
        let root = (2 * diagonal * diagonal).isqrt();
        1_000_000 * u64::from(self.straight) + root as u64
    }

    /// Returns the length with six digits after its point, truncated rather than rounded.
    ///
    /// Both fields must be at most [`MAX_STEPS`].
    pub fn length(self) -> Length
        requires straight { self.straight ≤ MAX_STEPS }
        requires diagonal { self.diagonal ≤ MAX_STEPS }
        ensures { IsMicro self result.micro }
    {
        Length {
            micro: self.micro(),
        }
    }

    /// Returns whether the length and `nano` billionths differ by at most a hundredth, both ends
    /// included. Nothing is rounded.
    ///
    /// Both fields must be at most [`MAX_STEPS`], and `nano` below 10^16.
    pub fn near(self, nano: u64) -> bool
        requires straight { self.straight ≤ MAX_STEPS }
        requires diagonal { self.diagonal ≤ MAX_STEPS }
        requires nano { nano < 10 ^ 16 }
        ensures { IsTrue result ↔ IsNear self nano }
    {
        let straight = NANO * u64::from(self.straight);
        let diagonal = NANO * u64::from(self.diagonal);
        is_reached(nano, straight + TOLERANCE, diagonal)
            && is_not_passed(nano + TOLERANCE, straight, diagonal)
    }

    /// Returns a number in place of the cost: `straight` times [`STRAIGHT_KEY`] plus `diagonal`
    /// times [`DIAGONAL_KEY`].
    ///
    /// For costs with fewer than [`KEYED_DIAGONALS`] diagonal moves, keys order as the costs do,
    /// and different costs have different keys ([`keys_order`]).
    pub fn key(self) -> u64
        ensures { result ≡ key_of self }
    {
        u64::from(STRAIGHT_KEY) * u64::from(self.straight)
            + u64::from(DIAGONAL_KEY) * u64::from(self.diagonal)
    }

    /// Returns the cost that a key stands for, and `None` exactly for [`NO_KEY`]. A key up to
    /// [`GREATEST_KEY`] gives back the cost that it was made from.
    #[tactic(auto, unfolding(crate::specs::Keys::cost_if_key, crate::specs::Keys::cost_of_key, crate::specs::Keys::diagonal_of))]
    pub fn of_key(key: u32) -> Option<Cost>
        ensures value { result ≡ cost_if_key key }
        ensures none { IsNone result ↔ (key ≡ NO_KEY) }
        ensures back { key ≤ GREATEST_KEY → GivesBack key result }
    {
        if key == NO_KEY {
            return None;
        }
        let diagonal = (u64::from(key) * READING_FACTOR % u64::from(STRAIGHT_KEY)) as u32;
        let straight = key.saturating_sub(DIAGONAL_KEY * diagonal) / STRAIGHT_KEY;
        Some(Cost { straight, diagonal })
    }
}

impl Ord for Cost {
    ghost cmp = { cost_cmp };

    ghost total = { cost_cmp_total };

    ghost matches_partial_cmp = { λ _ _. refl };

    ghost matches_eq = { cost_cmp_ties };

    fn cmp(&self, other: &Cost) -> Ordering {
        if self == other {
            Ordering::Equal
        } else if self.at_most(*other) {
            Ordering::Less
        } else {
            Ordering::Greater
        }
    }
}

impl PartialOrd for Cost {
    ghost partial_cmp = { λ x y. Some (cost_cmp x y) };

    ghost laws = { partial_order_from_agreeing_total cost_cmp cost_cmp_total (λ _ _. refl) cost_cmp_ties };

    fn partial_cmp(&self, other: &Cost) -> Option<Ordering> {
        Some(self.cmp(other))
    }
}

/// The law of the cost order, for all numbers: it is total and transitive, two costs are each at
/// most the other only if they are the same pair, `cmp` follows it, no cost is below
/// [`Cost::ZERO`], adding the same cost to both sides changes nothing, and `p` straight moves are
/// at most `q` diagonal ones exactly when `p² ≤ 2q²`. Any test of two costs with these properties
/// agrees with this order.
pub fn order_is_lawful()
    ensures { OrderIsLawful }
{}

/// The law of keys: below 33,461 diagonal moves, keys order as costs do and different costs have
/// different keys.
pub fn keys_order()
    ensures { KeysOrderCosts }
{}

/// The law of the numbers: a cost of up to 65,535 steps of each kind has a length, the steps have
/// these keys, and [`NO_KEY`] is above [`GREATEST_KEY`].
pub fn numbers_are_these()
    ensures steps { MAX_STEPS ≡ 65535 }
    ensures keys { (STRAIGHT_KEY ≡ 33461) × (DIAGONAL_KEY ≡ 47321) × (KEYED_DIAGONALS ≡ 33461) }
    ensures greatest { GREATEST_KEY ≡ DIAGONAL_KEY * (KEYED_DIAGONALS - 1) }
    ensures none { NO_KEY ≡ 4294967295 }
{}

/// Returns the key of one step, diagonal or straight.
pub fn step_key(diagonal_step: bool) -> u32
    ensures key { result ≡ step_key diagonal_step }
    ensures limit { result ≤ DIAGONAL_KEY }
{
    if diagonal_step {
        DIAGONAL_KEY
    } else {
        STRAIGHT_KEY
    }
}

/// Returns whether `n` is at most `straight + diagonal · √2`.
#[tactic(auto, unfolding(crate::specs::Costs::IsAtMost))]
fn is_reached(n: u64, straight: u64, diagonal: u64) -> bool
    requires n { n < 2 ^ 63 }
    requires diagonal { diagonal < 2 ^ 63 }
    ensures { IsTrue result ↔ IsAtMost (whole n) (pair_of straight diagonal) }
{
    n <= straight || square(n - straight) <= 2 * square(diagonal)
}

/// Returns whether `n` is at least `straight + diagonal · √2`.
#[tactic(auto, unfolding(crate::specs::Costs::IsAtMost))]
fn is_not_passed(n: u64, straight: u64, diagonal: u64) -> bool
    requires n { n < 2 ^ 63 }
    requires diagonal { diagonal < 2 ^ 63 }
    ensures { IsTrue result ↔ IsAtMost (pair_of straight diagonal) (whole n) }
{
    straight <= n && 2 * square(diagonal) <= square(n - straight)
}

/// Returns the square, small enough that twice it fits too.
fn square(n: u64) -> u128
    requires { n < 2 ^ 63 }
    ensures value { result ≡ n * n }
    ensures bound { result < 2 ^ 126 }
{
    u128::from(n) * u128::from(n)
}
