//! Rows of runs in blocks of words. A row is found by its block, its start there and its length.

ghost use Rattle.std.specs.Prelude.{◌≡◌, ◌+◌, ◌-◌, ◌*◌, ◌<◌, ◌≤◌, ◌↔◌, [], ◌∷◌, ◌++◌, map, take, length, replicate, slice_set, sum_by, All, IfOk, OnOk, OnErr, IsTrue};
ghost use Rattle.run_pack.specs.Runs.{ArePackable, word_of, run_of_word};
ghost use Rattle.row_store.specs.Rows.{row_at};
ghost use Rattle.row_store.specs.Pools.{AreMerged, AreMergedInPart, CanBeKept, PushesPacked, PutsPacked};
ghost use Rattle.row_store.specs.Layout.{block_numbered, blocks_of, start_limit, AreApart, AreFilled, CanBeSpan, HaveWords, IsFilled};

use moves::MAX_PASSABLE;
use run_pack::{MAX_PLACES, Run, append_words, word};
use std::alloc::{AllocError, Global};
use std::marker::Model;
use std::mem;

/// The most blocks that a pool may have.
const MAX_BLOCKS: usize = 65_536;

/// Where the words of a row are.
#[derive(Clone, Copy)]
struct Span {
    /// The first word in its block.
    start: u32,
    len: u16,
    block: u16,
}

/// A list of rows, whose runs are kept as words in the order in which the rows were written. The
/// words of pools that were merged into it stay where they are, as separate blocks.
///
/// A run takes four bytes and a row eight more.
#[derive(Drop)]
pub struct RowPool {
    /// The blocks to which no more rows are added, without unused memory.
    closed: Vec<Vec<u32>>,
    /// The last block.
    words: Vec<u32>,
    spans: Vec<Span>,
}

impl Model for RowPool {
    ghost use Rattle.std.specs.Prelude.{List};
    ghost use Rattle.run_pack.specs.declared.Run.{Run};
    ghost use Rattle.std.specs.Prelude.{map};
    ghost use Rattle.row_store.specs.Layout.{rows_in, blocks_of, AreSpans};

    ghost Value = { List (List Run) };

    ghost view = { λ p. rows_in (blocks_of (map (λ block. block.items) p.closed.items) p.words.items) p.spans.items };

    ghost invariant = { λ p.
        AreSpans (blocks_of (map (λ block. block.items) p.closed.items) p.words.items) p.spans.items };
}

impl RowPool {
    /// Returns a pool without rows. It takes no memory.
    pub fn new(alloc: Global) -> RowPool
        ensures { result ≡ [] }
    {
        RowPool {
            closed: Vec::new(alloc),
            words: Vec::new(alloc),
            spans: Vec::new(alloc),
        }
    }

    /// Returns a pool of `count` rows without runs, to be put one by one.
    ///
    /// # Errors
    ///
    /// `AllocError` if memory runs out.
    pub fn blank(alloc: Global, count: usize) -> Result<RowPool, AllocError>
        requires { count ≤ MAX_PASSABLE }
        ensures { IfOk result (λ pool. pool ≡ replicate count []) }
    {
        let span = Span {
            start: 0,
            len: 0,
            block: 0,
        };
        Ok(RowPool {
            closed: Vec::new(alloc),
            words: Vec::new(alloc),
            spans: vec![in alloc; span; count]?,
        })
    }

    /// Adds a row.
    ///
    /// # Errors
    ///
    /// `AllocError` if memory runs out. The pool is then unchanged.
    pub fn push_row(&mut self, runs: &[Run]) -> Result<(), AllocError>
        requires rows { length self.old < MAX_PASSABLE }
        requires runs { CanBeKept runs.now }
        ensures ok { OnOk result (self.new ≡ self.old ++ runs.now ∷ []) }
        ensures refused { OnErr result (self.new ≡ self.old) }
    {
        let block = self.closed.len();
        let start = self.words.len();
        self.spans.reserve(1)?;
        append_runs(&mut self.words, runs)?;
        self.spans.push(span_from(block, start, self.words.len()))?;
        Ok(())
    }

    /// Adds a row kept as words.
    ///
    /// # Errors
    ///
    /// `AllocError` if memory runs out. The pool is then unchanged.
    pub fn push_words(&mut self, words: &[u32]) -> Result<(), AllocError>
        requires rows { length self.old < MAX_PASSABLE }
        requires few { length words.now ≤ MAX_PLACES }
        ensures ok { OnOk result (self.new ≡ self.old ++ map run_of_word words.now ∷ []) }
        ensures refused { OnErr result (self.new ≡ self.old) }
    {
        let block = self.closed.len();
        let start = self.words.len();
        self.spans.reserve(1)?;
        self.words.extend_from_slice(words)?;
        self.spans.push(span_from(block, start, self.words.len()))?;
        Ok(())
    }

    /// Adds the packed row of these sets.
    ///
    /// # Errors
    ///
    /// `AllocError` if memory runs out. The pool is then unchanged.
    pub fn push_sets(&mut self, sets: &[u8]) -> Result<(), AllocError>
        requires rows { length self.old < MAX_PASSABLE }
        requires sets { ArePackable sets.now }
        ensures ok { OnOk result (PushesPacked self.old self.new sets.now) }
        ensures refused { OnErr result (self.new ≡ self.old) }
    {
        let block = self.closed.len();
        let start = self.words.len();
        self.spans.reserve(1)?;
        append_words(&mut self.words, sets)?;
        self.spans.push(span_from(block, start, self.words.len()))?;
        Ok(())
    }

    /// Replaces a row without runs with the packed row of these sets.
    ///
    /// # Errors
    ///
    /// `AllocError` if memory runs out. The pool is then unchanged.
    pub fn put_sets(&mut self, place: usize, sets: &[u8]) -> Result<(), AllocError>
        requires place { place < length self.old }
        requires empty { row_at self.old place ≡ [] }
        requires sets { ArePackable sets.now }
        ensures ok { OnOk result (PutsPacked self.old self.new place sets.now) }
        ensures refused { OnErr result (self.new ≡ self.old) }
    {
        let block = self.closed.len();
        let start = self.words.len();
        append_words(&mut self.words, sets)?;
        self.spans[place] = span_from(block, start, self.words.len());
        Ok(())
    }

    /// Replaces a row without runs with a row kept as words.
    ///
    /// # Errors
    ///
    /// `AllocError` if memory runs out. The pool is then unchanged.
    pub fn put_words(&mut self, place: usize, words: &[u32]) -> Result<(), AllocError>
        requires place { place < length self.old }
        requires empty { row_at self.old place ≡ [] }
        requires few { length words.now ≤ MAX_PLACES }
        ensures ok { OnOk result (self.new ≡ slice_set self.old place (map run_of_word words.now)) }
        ensures refused { OnErr result (self.new ≡ self.old) }
    {
        let block = self.closed.len();
        let start = self.words.len();
        self.words.extend_from_slice(words)?;
        let span = span_from(block, start, self.words.len());
        self.spans[place] = span;
        Ok(())
    }

    /// Gives each row without runs the runs of the same row of another pool, which must have as
    /// many rows. No word is copied if no row has runs in both and there are not too many blocks.
    ///
    /// # Errors
    ///
    /// `AllocError` if memory runs out. Some of the first rows may then have their runs; the others
    /// are unchanged.
    pub fn merge(&mut self, other: RowPool) -> Result<(), AllocError>
        requires { length self.old ≡ length other }
        ensures merged { OnOk result (AreMerged self.old other self.new) }
        ensures refused { OnErr result (AreMergedInPart self.old other self.new) }
    {
        if self.runs() == 0 {
            *self = other;
            Ok(())
        } else {
            self.take_blocks(other)
        }
    }

    /// Like `merge`, by adding the blocks of the other pool after those of this one if it can.
    fn take_blocks(&mut self, other: RowPool) -> Result<(), AllocError>
        requires { length self.old ≡ length other }
        ensures merged { OnOk result (AreMerged self.old other self.new) }
        ensures refused { OnErr result (AreMergedInPart self.old other self.new) }
    {
        let blocks = self.closed.len() + 1;
        if blocks + other.closed.len() >= MAX_BLOCKS || !are_apart(&self.spans, &other.spans) {
            return self.copy_missing(&other);
        }
        let RowPool {
            closed,
            words,
            spans,
        } = other;
        self.words.shrink_to_fit();
        append_blocks(&mut self.closed, &mut self.words, closed, words)?;
        fill_spans(&mut self.spans, &spans, blocks as u16);
        Ok(())
    }

    /// Like `merge`, by copying word by word.
    fn copy_missing(&mut self, other: &RowPool) -> Result<(), AllocError>
        requires { length self.old ≡ length other.now }
        ensures merged { OnOk result (AreMerged self.old other.now self.new) }
        ensures refused { OnErr result (AreMergedInPart self.old other.now self.new) }
    {
        for place in 0..self.len() {
            if self.row(place).is_empty() {
                self.put_words(place, other.row(place))?;
            }
        }
        Ok(())
    }

    /// Returns the number of rows.
    pub fn len(&self) -> usize
        ensures { result ≡ length self.now }
    {
        self.spans.len()
    }

    /// Returns the number of runs in all rows.
    pub fn runs(&self) -> u64
        ensures { result ≡ sum_by length self.now }
    {
        count_words(&self.closed, &self.words)
    }

    /// Returns the words of a row, one for each run.
    pub fn row(&self, place: usize) -> &[u32]
        requires { place < length self.now }
        ensures row { map run_of_word result.now ≡ row_at self.now place }
        ensures limit { length result.now ≤ MAX_PLACES }
    {
        let span = self.spans[place];
        let start = span.start as usize;
        let block = block_at(&self.closed, &self.words, usize::from(span.block));
        &block[start..start + usize::from(span.len)]
    }

    /// Frees memory that the rows do not need.
    pub fn shrink(&mut self)
        ensures { self.new ≡ self.old }
    {
        self.closed.shrink_to_fit();
        self.words.shrink_to_fit();
        self.spans.shrink_to_fit();
    }
}

/// Returns the span of a block's words from `start` up to but not including `end`.
fn span_from(block: usize, start: usize, end: usize) -> Span
    requires { CanBeSpan block start end }
    ensures block { result.block ≡ block }
    ensures start { result.start ≡ start }
    ensures end { result.start + result.len ≡ end }
{
    Span {
        start: start as u32,
        len: (end - start) as u16,
        block: block as u16,
    }
}

/// Returns the words of the block with that number. `words` is the last block.
fn block_at<'a>(closed: &'a [Vec<u32>], words: &'a [u32], number: usize) -> &'a [u32]
    requires { number ≤ length closed.now }
    ensures { result.now ≡ block_numbered (blocks_of (map (λ block. block.items) closed.now) words.now) number }
{
    if number < closed.len() {
        &closed[number]
    } else {
        words
    }
}

/// Returns the number of words in all blocks. `words` is the last block.
fn count_words(closed: &[Vec<u32>], words: &[u32]) -> u64
    requires { sum_by length (blocks_of (map (λ block. block.items) closed.now) words.now) < start_limit }
    ensures { result ≡ sum_by length (blocks_of (map (λ block. block.items) closed.now) words.now) }
{
    let mut count = words.len() as u64;
    for block in closed {
        count += block.len() as u64;
    }
    count
}

/// Appends a word for each run. After an error the words are unchanged.
fn append_runs(words: &mut Vec<u32>, runs: &[Run]) -> Result<(), AllocError>
    requires { CanBeKept runs.now }
    ensures ok { OnOk result (words.new.items ≡ words.old.items ++ map word_of runs.now) }
    ensures refused { OnErr result (words.new.items ≡ words.old.items) }
{
    let before = words.len();
    match push_runs(words, runs) {
        Ok(()) => Ok(()),
        Err(full) => {
            words.truncate(before);
            Err(full)
        }
    }
}

/// Appends a word for each run. After an error some of them may remain.
fn push_runs(words: &mut Vec<u32>, runs: &[Run]) -> Result<(), AllocError>
    requires { CanBeKept runs.now }
    ensures kept { take (length words.old.items) words.new.items ≡ words.old.items }
    ensures ok { OnOk result (words.new.items ≡ words.old.items ++ map word_of runs.now) }
{
    for run in runs {
        words.push(word(*run))?;
    }
    Ok(())
}

/// Adds the blocks of another pool to those of this one. `words` and `last` are the last blocks of
/// the two. After an error this pool's blocks are unchanged.
fn append_blocks(
    closed: &mut Vec<Vec<u32>>,
    words: &mut Vec<u32>,
    more: Vec<Vec<u32>>,
    last: Vec<u32>,
) -> Result<(), AllocError>
    ensures ok { OnOk result (
        (closed.new.items ≡ closed.old.items ++ words.old ∷ more.items) × (words.new ≡ last)) }
    ensures refused { OnErr result ((closed.new.items ≡ closed.old.items) × (words.new ≡ words.old)) }
{
    let mut more = more;
    closed.reserve_exact(more.len() + 1)?;
    closed.push(mem::replace(words, last))?;
    closed.append(&mut more)?;
    Ok(())
}

/// Returns whether no place has a row with words in both lists.
fn are_apart(own: &[Span], others: &[Span]) -> bool
    requires { length own.now ≡ length others.now }
    ensures { IsTrue result ↔ AreApart own.now others.now (length own.now) }
{
    for place in 0..own.len() {
        if have_words(own[place], others[place]) {
            return false;
        }
    }
    true
}

/// Returns whether both spans have words.
fn have_words(own: Span, other: Span) -> bool
    ensures { IsTrue result ↔ HaveWords own other }
{
    own.len != 0 && other.len != 0
}

/// Replaces each span without words with the other row's, its block number raised by `blocks`.
fn fill_spans(own: &mut Vec<Span>, others: &[Span], blocks: u16)
    requires size { length own.old.items ≡ length others.now }
    requires blocks { All (λ span. blocks + span.block < MAX_BLOCKS) others.now }
    ensures { AreFilled blocks own.old.items others.now own.new.items (length own.old.items) }
{
    for place in 0..own.len() {
        own[place] = filled(own[place], others[place], blocks);
    }
}

/// Returns the span, or if it has no words, the other one with its block number raised by `blocks`.
fn filled(own: Span, other: Span, blocks: u16) -> Span
    requires { blocks + other.block < MAX_BLOCKS }
    ensures { IsFilled blocks own other result }
{
    if own.len == 0 {
        Span {
            block: blocks + other.block,
            ..other
        }
    } else {
        own
    }
}
