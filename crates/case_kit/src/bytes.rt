//! Bytes as text: in pairs of digits, or as characters with escapes.

use crate::refusal::Refusal;
use std::alloc::{AllocError, Global};
use std::fmt::Write;

/// The bytes that pairs of hexadecimal digits stand for. Blanks between the digits are skipped: `00 01 8A`.
pub fn bytes_of(alloc: Global, pairs: &str) -> Result<Vec<u8>, Refusal> {
    let mut bytes = Vec::new(alloc);
    let mut upper: Option<u8> = None;
    for byte in pairs.bytes().filter(|byte| *byte != b' ') {
        let digit = digit_of(byte)?;
        match upper.take() {
            Some(high) => bytes.push(high << 4 | digit).map_err(AllocError::from)?,
            None => upper = Some(digit),
        }
    }
    match upper {
        None => Ok(bytes),
        Some(_) => Err(Refusal::OutOfForm),
    }
}

/// The value of a hexadecimal digit.
fn digit_of(byte: u8) -> Result<u8, Refusal> {
    match byte {
        b'0'..=b'9' => Ok(byte - b'0'),
        b'A'..=b'F' => Ok(byte - b'A' + 10),
        _ => Err(Refusal::OutOfForm),
    }
}

/// The bytes in pairs of hexadecimal digits, with a blank between any two pairs.
pub fn hex_of(alloc: Global, bytes: &[u8]) -> Result<String, AllocError> {
    let mut text = String::new(alloc);
    for (place, byte) in bytes.iter().enumerate() {
        if place > 0 {
            text.push(' ')?;
        }
        write!(text, "{byte:02X}")?;
    }
    Ok(text)
}

/// The bytes as characters on one line: `\n`, `\r`, `\t` and `\\` as in Rust, `\s` for a blank at the end, and `\xHH`
/// for each other byte that is not printed.
pub fn escaped(alloc: Global, bytes: &[u8]) -> Result<String, AllocError> {
    let mut text = String::new(alloc);
    for (place, byte) in bytes.iter().enumerate() {
        match *byte {
            b'\n' => text.push_str("\\n")?,
            b'\r' => text.push_str("\\r")?,
            b'\t' => text.push_str("\\t")?,
            b'\\' => text.push_str("\\\\")?,
            b' ' if place + 1 == bytes.len() => text.push_str("\\s")?,
            b' '..=b'~' => text.push(char::from(*byte))?,
            other => write!(text, "\\x{other:02X}")?,
        }
    }
    Ok(text)
}

/// The bytes that a text with escapes stands for: `\n`, `\r`, `\t`, `\s` (a blank), `\0` and `\\`. Any other character
/// stands for itself.
pub fn unescaped(alloc: Global, text: &str) -> Result<Vec<u8>, AllocError> {
    let mut bytes = Vec::new(alloc);
    let mut follows = false;
    for byte in text.bytes() {
        if follows {
            bytes.push(meant_by(byte))?;
            follows = false;
        } else if byte == b'\\' {
            follows = true;
        } else {
            bytes.push(byte)?;
        }
    }
    Ok(bytes)
}

/// The byte that a letter behind a backslash stands for.
fn meant_by(letter: u8) -> u8 {
    match letter {
        b'n' => b'\n',
        b'r' => b'\r',
        b't' => b'\t',
        b's' => b' ',
        b'0' => 0,
        other => other,
    }
}
