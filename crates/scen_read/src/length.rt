//! The length that a scenario states, in units of 10^-9.

ghost use Rattle.std.specs.Prelude.{◌≡◌, ◌*◌, ◌^◌, ◌<◌, ◌≤◌, IfSome};
ghost use Rattle.std.specs.Option.{option_map};
ghost use Rattle.scen_read.specs.Inside.{IsFirstPoint};
ghost use Rattle.scen_read.specs.ScenText.{length_in, whole_in, decimals_in};

use text_lines::number_at_most;

/// The most digits that a length has before its point.
const MAX_WHOLE_DIGITS: usize = 7;

/// The greatest number of so many digits.
const MAX_WHOLE: u32 = 9_999_999;

/// How many units of 10^-9 a length of one has.
pub const NANOS: u64 = 1_000_000_000;

/// The length in the field, in units of 10^-9 and below 10^16: one to seven digits, and then nothing, or a point and
/// one digit or more, of which those past the ninth are dropped. `None` where the field is of another form.
pub fn length_in(field: &[u8]) -> Option<u64>
    ensures length { result ≡ length_in field.now }
    ensures limit { IfSome result (λ nano. nano < 10 ^ 16) }
{
    let Some(point) = first_point(field) else {
        return Some(whole_in(field)? * NANOS);
    };
    let whole = whole_in(&field[..point])?;
    let nanos = decimals_in(&field[point + 1..])?;
    Some(whole * NANOS + nanos)
}

/// Where the first point stands.
fn first_point(field: &[u8]) -> Option<usize>
    ensures { IsFirstPoint result field.now }
{
    field.iter().position(|byte| *byte == b'.')
}

/// The number that the digits before the point write.
fn whole_in(digits: &[u8]) -> Option<u64>
    ensures whole { result ≡ whole_in digits.now }
    ensures limit { IfSome result (λ whole. whole < 10 ^ 7) }
{
    if digits.len() > MAX_WHOLE_DIGITS {
        return None;
    }
    Some(u64::from(number_at_most(digits, MAX_WHOLE)?))
}

/// The units of 10^-9 that the digits after the point write. Digits past the ninth count nothing.
fn decimals_in(digits: &[u8]) -> Option<u64>
    ensures decimals { result ≡ decimals_in digits.now }
    ensures limit { IfSome result (λ nanos. nanos < 10 ^ 9) }
{
    if digits.is_empty() {
        return None;
    }
    let mut nanos = 0;
    let mut unit = NANOS / 10;
    for byte in digits {
        if !byte.is_ascii_digit() {
            return None;
        }
        nanos += u64::from(*byte - b'0') * unit;
        unit /= 10;
    }
    Some(nanos)
}
