//! A list of words for each lane.

ghost use Rattle.std.specs.Prelude.{◌≡◌, ℕ, [], ◌∷◌, ◌++◌, ◌<◌, length, slice_set, OnOk};
ghost use Rattle.lane_rows.specs.Packed.{words_in};

use crate::LANES;
use std::alloc::{AllocError, Global};
use std::marker::Model;

/// Sixteen lists of words, which grow as words are pushed and keep their memory where they are cleared.
#[derive(Drop)]
pub struct LaneWords {
    lists: Vec<Vec<u32>>,
}

impl Model for LaneWords {
    ghost use Rattle.std.specs.Prelude.{◌≡◌, ℕ, List, length, map};

    ghost Value = { List (List ℕ) };

    ghost view = { λ w. map (λ list. list.items) w.lists.items };

    ghost invariant = { λ w. length w.lists.items ≡ 16 };
}

impl LaneWords {
    /// Lists without words.
    ///
    /// # Errors
    ///
    /// `AllocError` where memory runs out.
    pub fn new(alloc: Global) -> Result<LaneWords, AllocError> {
        let mut lists = Vec::with_capacity(alloc, LANES)?;
        for _ in 0..LANES {
            lists.push(Vec::new(alloc))?;
        }
        Ok(LaneWords { lists })
    }

    /// Removes all words.
    pub(crate) fn clear(&mut self)
        ensures lanes { length self.new ≡ 16 }
        ensures empty { (lane : ℕ) → lane < 16 → words_in self.new lane ≡ [] }
    {
        for lane in 0..LANES {
            self.lists[lane].clear();
        }
    }

    /// Adds a word to the list of a lane.
    ///
    /// # Errors
    ///
    /// `AllocError` where memory runs out.
    pub(crate) fn push(&mut self, lane: usize, word: u32) -> Result<(), AllocError>
        requires { lane < 16 }
        ensures { OnOk result (
            self.new ≡ slice_set self.old lane (words_in self.old lane ++ word ∷ [])) }
    {
        self.lists[lane].push(word)?;
        Ok(())
    }

    /// The words of a lane.
    pub fn of(&self, lane: usize) -> &[u32]
        requires { lane < 16 }
        ensures { result.now ≡ words_in self.now lane }
    {
        &self.lists[lane]
    }
}
