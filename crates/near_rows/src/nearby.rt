//! What is near in a component: a radius and a row for each of its cells.

ghost use Rattle.std.specs.Prelude.{◌≡◌, ◌≢◌, ℕ, ◌+◌, ◌*◌, ◌^◌, ◌-◌, ◌<◌, ◌≤◌, ◌↔◌, [], length, map, replicate, slice_index, IfOk, OnOk, IsTrue};
ghost use Rattle.run_pack.specs.Runs.{ArePackable, IsFound, Rises, run_of_word};
ghost use Rattle.moves.specs.Moves.{number_of};
ghost use Rattle.row_store.specs.Rows.{row_at};
ghost use Rattle.near_rows.specs.NearRows.{IsGreatest, runs_in};
ghost use Rattle.near_rows.specs.Building.{PutsNear};
ghost use Rattle.near_rows.specs.Gathering.{AreBothMerged, PutsRow};

use moves::{MAX_PASSABLE, Move};
use row_store::RowPool;
use run_pack::steps::Steps;
use run_pack::{MAX_PLACES, find_word, find_word_near};
use std::alloc::{AllocError, Global};
use std::marker::Model;
use std::sync::ledger::Ledger;

/// The near radii and the near rows of a component's cells, in their order. A radius takes two bytes, a row eight, and
/// a run four.
#[derive(Drop)]
pub(crate) struct NearRows {
    radii: Vec<u16>,
    rows: RowPool,
}

impl Model for NearRows {
    ghost use Rattle.std.specs.Prelude.{◌≡◌, length};
    ghost use Rattle.near_rows.specs.NearRows.{Nearby};

    ghost Value = { Nearby };

    ghost view = { λ n. record { radii = n.radii.items; rows = n.rows } };

    ghost invariant = { λ n. length n.radii.items ≡ length n.rows };
}

impl NearRows {
    /// Rows without runs, to be put one by one.
    ///
    /// # Errors
    ///
    /// `AllocError` where memory runs out.
    pub(crate) fn blank(alloc: Global, count: usize) -> Result<NearRows, AllocError>
        requires { count ≤ MAX_PASSABLE }
        ensures radii { IfOk result (λ near. length near.radii ≡ count) }
        ensures rows { IfOk result (λ near. near.rows ≡ replicate count []) }
    {
        Ok(NearRows {
            radii: vec![in alloc; 0; count]?,
            rows: RowPool::blank(alloc, count)?,
        })
    }

    /// Puts a radius, and the packed row of these sets in the place of a row without runs.
    ///
    /// # Errors
    ///
    /// `AllocError` where memory runs out.
    pub(crate) fn put(&mut self, place: usize, radius: u16, sets: &[u8]) -> Result<(), AllocError>
        requires place { place < length self.old.rows }
        requires empty { row_at self.old.rows place ≡ [] }
        requires sets { ArePackable sets.now }
        ensures { OnOk result (PutsNear self.old self.new place radius sets.now) }
    {
        self.rows.put_sets(place, sets)?;
        self.radii[place] = radius;
        Ok(())
    }

    /// Puts a radius, and a row that is kept as words, in the place of a row without runs.
    ///
    /// # Errors
    ///
    /// `AllocError` where memory runs out.
    pub(crate) fn put_words(
        &mut self,
        place: usize,
        radius: u16,
        words: &[u32],
    ) -> Result<(), AllocError>
        requires place { place < length self.old.rows }
        requires empty { row_at self.old.rows place ≡ [] }
        requires few { length words.now ≤ MAX_PLACES }
        ensures put { OnOk result (PutsRow self.old self.new place radius (map run_of_word words.now)) }
        ensures whole { length self.new.rows ≡ length self.old.rows }
    {
        self.rows.put_words(place, words)?;
        self.radii[place] = radius;
        Ok(())
    }

    /// Takes radii and rows of another where it has no runs itself.
    ///
    /// # Errors
    ///
    /// `AllocError` where memory runs out.
    pub(crate) fn merge(&mut self, other: NearRows) -> Result<(), AllocError>
        requires { length self.old.rows ≡ length other.rows }
        ensures merged { OnOk result (AreBothMerged self.old other self.new) }
        ensures whole { length self.new.rows ≡ length self.old.rows }
    {
        let NearRows { radii, rows } = other;
        take_radii(self.radii.as_mut_slice(), &self.rows, &radii);
        self.rows.merge(rows)
    }

    /// Whether the row at a place has no runs.
    pub(crate) fn is_blank(&self, place: usize) -> bool
        requires { place < length self.now.rows }
        ensures { IsTrue result ↔ (row_at self.now.rows place ≡ []) }
    {
        self.rows.row(place).is_empty()
    }

    /// The radius of the cell at a place.
    pub(crate) fn radius(&self, place: usize) -> u16
        requires { place < length self.now.rows }
        ensures { result ≡ slice_index self.now.radii place }
    {
        self.radii[place]
    }

    /// The move that the row of one place keeps for another.
    ///
    /// It takes at most s probes of a row of n runs, where 2^s ≤ 2n + 1.
    pub(crate) fn kept<L: Ledger>(&self, from: u32, to: u32, steps: &mut Steps<L>) -> Move
        requires from { from < length self.now.rows }
        requires rises { Rises (row_at self.now.rows from) }
        ensures found { IsFound (row_at self.now.rows from) to (number_of result) }
        ensures cost { 2 ^ (steps.new - steps.old) ≤ 2 * length (row_at self.now.rows from) + 1 }
        ensures counted { steps.old ≤ steps.new }
    {
        let number = find_word(self.rows.row(from as usize), to, steps);
        Move::of(number).unwrap_or_default()
    }

    /// The same move, sought run by run from a guess on, which is the number of the run that was found afterwards.
    #[inline]
    pub(crate) fn kept_near(&self, from: u32, to: u32, guess: &mut usize) -> Move
        requires from { from < length self.now.rows }
        requires rises { Rises (row_at self.now.rows from) }
        ensures { IsFound (row_at self.now.rows from) to (number_of result) }
    {
        let number = find_word_near(self.rows.row(from as usize), to, guess);
        Move::of(number).unwrap_or_default()
    }

    /// How many runs the row of a place has.
    pub(crate) fn row_len(&self, place: usize) -> usize
        requires { place < length self.now.rows }
        ensures { result ≡ length (row_at self.now.rows place) }
    {
        self.rows.row(place).len()
    }

    /// How many runs all rows have.
    pub(crate) fn runs(&self) -> u64
        ensures { result ≡ runs_in self.now }
    {
        self.rows.runs()
    }

    /// The greatest radius, 0 where there are none.
    pub(crate) fn widest(&self) -> u16
        ensures { IsGreatest self.now.radii result }
    {
        greatest_of(&self.radii)
    }

    /// Gives back memory that the rows do not need.
    pub(crate) fn shrink(&mut self)
        ensures { self.new ≡ self.old }
    {
        self.rows.shrink();
    }
}

/// Takes the radii of others where a row has no runs.
fn take_radii(radii: &mut [u16], rows: &RowPool, others: &[u16])
    requires rows { length radii.old ≡ length rows.now }
    requires others { length others.now ≡ length rows.now }
    ensures whole { length radii.new ≡ length radii.old }
    ensures kept { (place : ℕ) → row_at rows.now place ≢ []
        → slice_index radii.new place ≡ slice_index radii.old place }
    ensures taken { (place : ℕ) → place < length radii.old → row_at rows.now place ≡ []
        → slice_index radii.new place ≡ slice_index others.now place }
{
    for place in 0..radii.len() {
        if rows.row(place).is_empty() {
            radii[place] = others[place];
        }
    }
}

/// The greatest of some numbers, 0 where there are none.
fn greatest_of(numbers: &[u16]) -> u16
    ensures { IsGreatest numbers.now result }
{
    let mut greatest = 0;
    for number in numbers {
        greatest = greatest.max(*number);
    }
    greatest
}
