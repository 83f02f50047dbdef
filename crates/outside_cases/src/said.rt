//! What a line says, part by part.

use case_kit::{escaped, hex_of};
use std::alloc::{AllocError, Global};
use wire::MemLink;

/// Adds a part, behind a comma where it is not the first.
pub(crate) fn push_part(said: &mut String, part: &str) -> Result<(), AllocError> {
    if !said.is_empty() {
        said.push_str(", ")?;
    }
    said.push_str(part)
}

/// Bytes as a text between quotation marks.
pub(crate) fn quoted(alloc: Global, bytes: &[u8]) -> Result<String, AllocError> {
    let text = escaped(alloc, bytes)?;
    format!(in alloc; "'{text}'")
}

/// Bytes in pairs of hexadecimal digits, `-` where there are none.
pub(crate) fn hex_or_none(alloc: Global, bytes: &[u8]) -> Result<String, AllocError> {
    match bytes.is_empty() {
        true => String::from_str(alloc, "-"),
        false => hex_of(alloc, bytes),
    }
}

/// How a talk over a link ended, the bytes that are left there and those that were sent.
pub(crate) fn talk_said(alloc: Global, ended: &str, link: &MemLink) -> Result<String, AllocError> {
    let left = hex_or_none(alloc, link.left())?;
    let sent = hex_or_none(alloc, link.sent())?;
    format!(in alloc; "{ended}; left {left}; sent {sent}")
}
