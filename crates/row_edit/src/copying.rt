//! The words of a new row, copied from those of the former.

ghost use Rattle.std.specs.Prelude.{◌≡◌, ◌++◌, ◌≤◌, length, take, OnOk, OnErr};
ghost use Rattle.row_edit.specs.Parts.{joined, raised};

use crate::parts::Parts;
use std::alloc::AllocError;

/// Appends the words that these parts tell, those of the last part with so much more.
///
/// The only error is want of memory. The row is then as before.
pub(crate) fn append_parts(
    row: &mut Vec<u32>,
    words: &[u32],
    parts: Parts,
    more: u32,
) -> Result<(), AllocError>
    requires front { parts.front ≤ length words.now }
    requires back { parts.back ≤ length words.now }
    ensures ok { OnOk result (row.new.items ≡ row.old.items ++ joined words.now parts more) }
    ensures refused { OnErr result (row.new.items ≡ row.old.items) }
{
    let before = row.len();
    match push_parts(row, words, parts, more) {
        Ok(()) => Ok(()),
        Err(full) => {
            row.truncate(before);
            Err(full)
        }
    }
}

/// `append_parts`, which may leave some of the words behind the row where memory is wanting.
fn push_parts(row: &mut Vec<u32>, words: &[u32], parts: Parts, more: u32) -> Result<(), AllocError>
    requires front { parts.front ≤ length words.now }
    requires back { parts.back ≤ length words.now }
    ensures ok { OnOk result (row.new.items ≡ row.old.items ++ joined words.now parts more) }
    ensures kept { take (length row.old.items) row.new.items ≡ row.old.items }
{
    row.extend_from_slice(&words[..parts.front])?;
    if let Some(word) = parts.own {
        row.push(word)?;
    }
    push_raised(row, &words[parts.back..], more)
}

/// Appends these words, each with so much more.
fn push_raised(row: &mut Vec<u32>, words: &[u32], more: u32) -> Result<(), AllocError>
    ensures ok { OnOk result (row.new.items ≡ row.old.items ++ raised more words.now) }
    ensures refused { OnErr result (row.new.items ≡ row.old.items) }
{
    let before = row.len();
    row.extend_from_slice(words)?;
    raise(&mut row[before..], more);
    Ok(())
}

/// Adds so much to each word, as 32 bits count.
fn raise(words: &mut [u32], more: u32)
    ensures { words.new ≡ raised more words.old }
{
    for word in words.iter_mut() {
        *word = word.wrapping_add(more);
    }
}
