//! Pools of rows.

use crate::packing::{is_packable, unpacked, write_runs};
use case_kit::{Fields, Refusal, numbers_in};
use moves::MAX_PASSABLE;
use row_store::RowPool;
use run_pack::MAX_PLACES;
use std::alloc::{AllocError, Global};

/// `pool | SETS/SETS | WORDS/WORDS`: pushes a packed row for each list of sets into a pool, and merges further pools
/// into it, whose rows of words are put in place. `-` stands for a row without runs.
pub fn pool(alloc: Global, mut fields: Fields<'_>) -> Result<String, Refusal> {
    let mut pool = pushed(alloc, fields.text()?)?;
    for rows in fields.rest().split(" | ") {
        let other = put(alloc, rows, pool.len())?;
        if other.len() != pool.len() {
            return Err(Refusal::OutOfForm);
        }
        pool.merge(other)?;
    }
    pool.shrink();
    Ok(pool_text(alloc, &pool)?)
}

/// A pool with a packed row for each list of sets.
fn pushed(alloc: Global, rows: &str) -> Result<RowPool, Refusal> {
    let mut pool = RowPool::new(alloc);
    for row in rows.split('/') {
        let sets = Fields::of(row).bytes(alloc)?;
        if pool.len() >= MAX_PASSABLE as usize {
            return Err(Refusal::OutOfForm);
        }
        if is_packable(&sets) {
            pool.push_sets(&sets)?;
        } else {
            pool.push_words(&[])?;
        }
    }
    Ok(pool)
}

/// A pool of `count` rows, filled with these rows of words.
fn put(alloc: Global, rows: &str, count: usize) -> Result<RowPool, Refusal> {
    if count > MAX_PASSABLE as usize {
        return Err(Refusal::OutOfForm);
    }
    let mut pool = RowPool::blank(alloc, count)?;
    for (place, row) in rows.split('/').enumerate() {
        let words = numbers_in(alloc, row)?;
        if place >= pool.len() || !pool.row(place).is_empty() || words.len() > MAX_PLACES as usize {
            return Err(Refusal::OutOfForm);
        }
        pool.put_words(place, &words)?;
    }
    Ok(pool)
}

/// The number of rows and runs of a pool, and its rows separated by `/`.
fn pool_text(alloc: Global, pool: &RowPool) -> Result<String, AllocError> {
    let (rows, runs) = (pool.len(), pool.runs());
    let mut text = format!(in alloc; "{rows} rows of {runs} runs: ")?;
    for place in 0..rows {
        if place > 0 {
            text.push('/')?;
        }
        write_runs(&mut text, &unpacked(alloc, pool.row(place))?)?;
    }
    Ok(text)
}
