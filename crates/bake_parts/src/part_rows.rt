//! The rows of parts that lie one behind the other.

ghost use Rattle.std.specs.Prelude.{◌≡◌, ◌+◌, ◌<◌, ◌≤◌, ℕ, List, false, ◌∷◌, ◌++◌, IfNone, IfSome, OnErr, IfOk, OnOk, length};
ghost use Rattle.bake_parts.specs.Joins.{BeginsPart, IsNoRow, ReadsRow};

use crate::fault::BrokenPart;

/// What is left of the words of some parts. No word is believed: what is read lies inside, whatever the words are.
#[derive(Clone, Copy)]
pub(crate) struct PartRows<'a> {
    rest: &'a [u32],
    /// How many rows of the part at hand are left.
    left: u32,
    /// How many parts have begun.
    begun: u32,
}

impl<'a> PartRows<'a> {
    /// Before the first part.
    pub(crate) fn of(parts: &'a [u32]) -> PartRows<'a>
        ensures rest { result.rest.now ≡ parts.now }
        ensures left { result.left ≡ 0 }
    {
        PartRows {
            rest: parts,
            left: 0,
            begun: 0,
        }
    }

    /// The runs of the next row, which has to be that at a place of a component with so many cells.
    ///
    /// # Errors
    ///
    /// Where it isn't, or its words end too early.
    pub(crate) fn next(
        &mut self,
        component: u32,
        place: u32,
        size: u32,
    ) -> Result<&'a [u32], BrokenPart>
        requires { place < size }
        ensures row { IfOk result (λ row. ReadsRow component place size self.old self.new row.now) }
        ensures few { IfOk result (λ row. length row.now ≤ size) }
        ensures none { OnErr result (IsNoRow component place size self.old) }
    {
        self.begin(component, place, size)?;
        match self.row(size) {
            Some(row) => Ok(row),
            None => Err(self.broken()),
        }
    }

    /// Whether all words are read.
    pub(crate) fn is_done(&self) -> bool
        ensures { result ≡ false → 0 < length self.now.rest.now }
    {
        self.rest.is_empty()
    }

    /// That the part at hand isn't the one that is next, or ends too early.
    pub(crate) fn broken(&self) -> BrokenPart {
        BrokenPart { part: self.begun }
    }

    /// Reads the head of the next part where no row of the one at hand is left.
    ///
    /// # Errors
    ///
    /// Where its first source isn't that place of the component, or the component has too few cells behind it.
    fn begin(&mut self, component: u32, place: u32, size: u32) -> Result<(), BrokenPart>
        requires { place < size }
        ensures begun { OnOk result (BeginsPart component place size self.old self.new) }
        ensures left { OnOk result (0 < self.new.left) }
        ensures none { OnErr result (IsNoRow component place size self.old) }
    {
        if self.left > 0 {
            return Ok(());
        }
        match head_of(self.rest, component, place, size) {
            Some(count) => {
                self.rest = &self.rest[3..];
                self.left = count;
                self.begun = self.begun.saturating_add(1);
                Ok(())
            }
            None => Err(self.broken()),
        }
    }

    /// The runs of the next row, which has so many at most.
    fn row(&mut self, most: u32) -> Option<&'a [u32]>
        requires { 0 < self.old.left }
        ensures some { IfSome result (λ row.
            self.old.rest.now ≡ length row.now ∷ (row.now ++ self.new.rest.now)) }
        ensures left { IfSome result (λ row. self.old.left ≡ self.new.left + 1) }
        ensures few { IfSome result (λ row. length row.now ≤ most) }
        ensures none { IfNone result ((row rest : List ℕ) → length row ≤ most
            → self.old.rest.now ≡ length row ∷ (row ++ rest) → ⊥) }
    {
        let (row, rest) = cut_row(self.rest, most)?;
        self.rest = rest;
        self.left -= 1;
        Some(row)
    }
}

/// How many rows a part has whose first source is that place of the component; `None` where the words don't begin
/// with its head, or the component has too few cells behind the place.
fn head_of(words: &[u32], component: u32, place: u32, size: u32) -> Option<u32>
    requires { place < size }
    ensures some { IfSome result (λ count. (rest : List ℕ) × (words.now ≡ component ∷ place ∷ count ∷ rest)) }
    ensures inside { IfSome result (λ count. (0 < count) × (place + count ≤ size)) }
    ensures none { IfNone result ((count : ℕ) (rest : List ℕ) → 0 < count → place + count ≤ size
        → words.now ≡ component ∷ place ∷ count ∷ rest → ⊥) }
{
    if words.len() < 3 || words[0] != component || words[1] != place {
        return None;
    }
    let count = words[2];
    if count == 0 || count > size - place {
        return None;
    }
    Some(count)
}

/// The runs of the row at the front of the words, so many at most, and the words behind it.
fn cut_row(words: &[u32], most: u32) -> Option<(&[u32], &[u32])>
    ensures some { IfSome result (λ cut. words.now ≡ length cut.0.now ∷ (cut.0.now ++ cut.1.now)) }
    ensures few { IfSome result (λ cut. length cut.0.now ≤ most) }
    ensures none { IfNone result ((row rest : List ℕ) → length row ≤ most
        → words.now ≡ length row ∷ (row ++ rest) → ⊥) }
{
    let (count, rest) = words.split_first()?;
    let count = *count;
    if count > most || count as usize > rest.len() {
        return None;
    }
    Some(rest.split_at(count as usize))
}
