//! The header: four lines before the rows.

ghost use Rattle.std.specs.Prelude.{◌≡◌, ◌*◌, ◌≤◌, [], ◌∷◌, drop, Some, None, Ok, Err, codes, MatchOption, MatchResult, OnOk, IfOk};
ghost use Rattle.std.specs.Option.{option_map};
ghost use Rattle.moves.specs.Maps.{IsWithinLimits};
ghost use Rattle.text_lines.specs.Words.{has_words};
ghost use Rattle.map_read.specs.Inside.{capped};
ghost use Rattle.map_read.specs.MapText.{number_named, other_side, judged_sides, sides_given, sides_from, is_side_length, are_map_sides, header_in};

use crate::MapLines;
use crate::fault::MapFault;
use moves::{MAX_CELLS, MAX_SIDE};
use text_lines::{cut_word, number_capped, two_words};

/// The sides of the map.
#[derive(Clone, Copy, Debug)]
pub struct Sides {
    /// The number of columns, from 1 to 4,096.
    pub width: u32,
    /// The number of rows, from 1 to 4,096.
    pub height: u32,
}

/// Reads the first four lines and returns the sides that they give, or the first fault.
pub fn read_header(lines: &mut MapLines) -> Result<Sides, MapFault>
    ensures sides { MatchResult result
        (λ sides. header_in lines.old ≡ Ok (sides.width, sides.height))
        (λ fault. header_in lines.old ≡ Err fault) }
    ensures rest { OnOk result (lines.new ≡ drop 4 lines.old) }
    ensures limits { IfOk result (λ sides. IsWithinLimits sides.width sides.height) }
{
    if !is_type_line(lines.next_or_empty()) {
        return Err(MapFault::Header { line: 1 });
    }
    let second = lines.next_or_empty();
    let third = lines.next_or_empty();
    let sides = sides_from(second, third)?;
    if !is_map_line(lines.next_or_empty()) {
        return Err(MapFault::Header { line: 4 });
    }
    Ok(sides)
}

/// Returns whether the line has exactly the words `type` and `octile`.
fn is_type_line(line: &[u8]) -> bool
    ensures { result ≡ has_words (codes "type" ∷ codes "octile" ∷ []) line.now }
{
    match two_words(line) {
        Some((first, second)) => first == b"type".as_slice() && second == b"octile".as_slice(),
        None => false,
    }
}

/// Returns whether the line has exactly the word `map`.
fn is_map_line(line: &[u8]) -> bool
    ensures { result ≡ has_words (codes "map" ∷ []) line.now }
{
    match cut_word(line) {
        Some((word, rest)) => word == b"map".as_slice() && cut_word(rest).is_none(),
        None => false,
    }
}

/// Returns the number that the line gives under this name, in cells. Any number above 4,096 is
/// returned as 4,097.
#[tactic(auto, unfolding(crate::specs::MapText::number_named))]
fn number_named(name: &[u8], line: &[u8]) -> Option<u32>
    ensures { result ≡ option_map capped (number_named name.now line.now) }
{
    let (word, number) = two_words(line)?;
    if word != name {
        return None;
    }
    Some(number_capped(number, MAX_SIDE)? as u32)
}

/// Returns the sides that two lines give, or the first fault.
fn sides_from(second: &[u8], third: &[u8]) -> Result<Sides, MapFault>
    ensures sides { MatchResult result
        (λ sides. sides_from second.now third.now ≡ Ok (sides.width, sides.height))
        (λ fault. sides_from second.now third.now ≡ Err fault) }
    ensures limits { IfOk result (λ sides. IsWithinLimits sides.width sides.height) }
{
    let (height, width) = (b"height".as_slice(), b"width".as_slice());
    sides_given(
        number_named(height, second),
        number_named(width, second),
        number_named(height, third),
        number_named(width, third),
    )
}

/// Returns the sides, from what each of two lines gives as height and as width, or the first fault.
#[tactic(auto, unfolding(crate::specs::MapText::sides_given))]
fn sides_given(
    second_height: Option<u32>,
    second_width: Option<u32>,
    third_height: Option<u32>,
    third_width: Option<u32>,
) -> Result<Sides, MapFault>
    ensures sides { MatchResult result
        (λ sides. sides_given second_height second_width third_height third_width
        ≡ Ok (sides.width, sides.height))
        (λ fault. sides_given second_height second_width third_height third_width ≡ Err fault) }
    ensures limits { IfOk result (λ sides. IsWithinLimits sides.width sides.height) }
{
    if let Some(height) = second_height {
        let width = other_side(height, third_width)?;
        return judged_sides(width, height);
    }
    if let Some(width) = second_width {
        let height = other_side(width, third_height)?;
        return judged_sides(width, height);
    }
    Err(MapFault::Header { line: 2 })
}

/// Returns the side that line 3 gives, after line 2 gave this one.
fn other_side(one: u32, other: Option<u32>) -> Result<u32, MapFault>
    ensures { result ≡ other_side one other }
{
    if !is_side_length(one) {
        return Err(MapFault::Size { line: 2 });
    }
    other.ok_or(MapFault::Header { line: 3 })
}

/// Returns the sides if a map may have them.
fn judged_sides(width: u32, height: u32) -> Result<Sides, MapFault>
    ensures sides { MatchResult result
        (λ sides. judged_sides width height ≡ Ok (sides.width, sides.height))
        (λ fault. judged_sides width height ≡ Err fault) }
    ensures limits { IfOk result (λ sides. IsWithinLimits sides.width sides.height) }
{
    if !are_map_sides(width, height) {
        return Err(MapFault::Size { line: 3 });
    }
    Ok(Sides { width, height })
}

/// Returns whether a side may have this length.
fn is_side_length(length: u32) -> bool
    ensures { result ≡ is_side_length length }
{
    1 <= length && length <= MAX_SIDE
}

/// Returns whether a map may have these sides.
fn are_map_sides(width: u32, height: u32) -> bool
    ensures { result ≡ are_map_sides width height }
{
    is_side_length(width) && is_side_length(height) && width * height <= MAX_CELLS
}
