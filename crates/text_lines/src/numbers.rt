//! The number that a word is.

ghost use Rattle.std.specs.Prelude.{◌≡◌, ◌≤◌, IfSome};
ghost use Rattle.std.specs.Option.{option_map};
ghost use Rattle.text_lines.specs.Numbers.{capped, number_in, number_at_most};

/// The number that the word is: one digit or more, with any number of leading zeros. `None` exactly where it is no
/// number. All numbers above `most` are given as `most + 1`, so that a word of any length can be judged.
pub fn number_capped(word: &[u8], most: u32) -> Option<u64>
    ensures { result ≡ option_map (capped most) (number_in word.now) }
{
    if word.is_empty() {
        return None;
    }
    let cap = u64::from(most) + 1;
    let mut number = 0u64;
    for byte in word {
        if !byte.is_ascii_digit() {
            return None;
        }
        number = (number * 10 + u64::from(*byte - b'0')).min(cap);
    }
    Some(number)
}

/// The number that the word is, from 0 to `most`; `None` exactly where it is no number or a greater one.
pub fn number_at_most(word: &[u8], most: u32) -> Option<u32>
    ensures number { result ≡ number_at_most most word.now }
    ensures limit { IfSome result (λ number. number ≤ most) }
{
    let number = number_capped(word, most)?;
    if number > u64::from(most) {
        return None;
    }
    Some(number as u32)
}
