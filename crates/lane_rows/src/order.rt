//! An order of visits: that of a search from some places, in which a straight step leads two levels on and a diagonal one
//! three. Nothing is believed of it, so a place keeps the level at which it was met first.

ghost use Rattle.std.specs.Prelude.{◌≡◌, ◌+◌, ◌<◌, All, length};
ghost use Rattle.lane_rows.specs.Tables.{IsMutual};

use crate::tiles::LANES;
use std::alloc::{AllocError, Global};

/// Places of one level, which are the first so many of a list.
#[derive(Drop)]
struct Level {
    places: Vec<u16>,
    count: usize,
}

impl Level {
    /// Takes the memory for so many places.
    fn new(alloc: Global, count: usize) -> Result<Level, AllocError> {
        Ok(Level {
            places: vec![in alloc; 0; count]?,
            count: 0,
        })
    }

    /// Adds those of four places that were not met before. It has no branches that depend on them.
    #[inline(always)]
    fn meet(&mut self, places: [u16; 4], met: &mut [bool])
        requires { All (λ place. place < length met.old) places }
    {
        let mut count = self.count;
        let list = self.places.as_mut_slice();
        for place in places {
            if let Some(last) = list.get_mut(count) {
                *last = place;
            }
            count = count.wrapping_add(usize::from(!met[usize::from(place)]));
            met[usize::from(place)] = true;
        }
        self.count = count;
    }

    /// Visits the places of this level: from each, straight steps lead to the level two on, and diagonal ones to that
    /// three on.
    fn lead(
        &self,
        near: &[[u16; 8]],
        met: &mut [bool],
        straight: &mut Level,
        diagonal: &mut Level,
        order: &mut Vec<u16>,
    )
        requires near { IsMutual near.now }
        requires met { length met.old ≡ length near.now + 1 }
    {
        for index in 0..self.count {
            let place = self.places.get(index).copied().unwrap_or(0);
            if let Some(edges) = near.get(usize::from(place)) {
                let _ = order.push(place);
                let [n, ne, e, se, s, sw, w, nw] = *edges;
                straight.meet([n, e, s, w], met);
                diagonal.meet([ne, se, sw, nw], met);
            }
        }
    }
}

/// Sources are sought among one in so many of the places.
const SHARE: usize = 16;

/// Sources are sought among so many places at least.
const FEWEST: usize = 256;

/// How many levels are kept: the one at hand and the three that its places lead to.
const LEVELS: usize = 4;

/// The level at hand and the next three: a ring, in which `current` says how many have been at hand.
#[derive(Drop)]
pub(crate) struct Levels {
    first: Level,
    second: Level,
    third: Level,
    fourth: Level,
    current: usize,
}

impl Levels {
    /// Takes all memory that is needed for so many places.
    pub(crate) fn new(alloc: Global, count: usize) -> Result<Levels, AllocError> {
        Ok(Levels {
            first: Level::new(alloc, count)?,
            second: Level::new(alloc, count)?,
            third: Level::new(alloc, count)?,
            fourth: Level::new(alloc, count)?,
            current: 0,
        })
    }

    /// Begins with these places, each once.
    fn start(&mut self, first: &[u16], met: &mut [bool])
        requires { All (λ place. place < length met.old) first.now }
    {
        self.current = 0;
        self.first.count = 0;
        self.second.count = 0;
        self.third.count = 0;
        self.fourth.count = 0;
        for place in first {
            // (met again, it adds nothing)
            self.first.meet([*place; 4], met);
        }
    }

    /// The level at hand.
    fn at_hand(&mut self) -> &mut Level {
        match self.current % LEVELS {
            0 => &mut self.first,
            1 => &mut self.second,
            2 => &mut self.third,
            _ => &mut self.fourth,
        }
    }

    /// Goes on to the next level that has a place. `false` where none has.
    fn turn(&mut self) -> bool {
        self.at_hand().count = 0;
        for _ in 1..LEVELS {
            self.current = self.current.wrapping_add(1);
            if self.at_hand().count > 0 {
                return true;
            }
        }
        false
    }

    /// Visits the places of the level at hand.
    fn visit(&mut self, near: &[[u16; 8]], met: &mut [bool], order: &mut Vec<u16>)
        requires near { IsMutual near.now }
        requires met { length met.old ≡ length near.now + 1 }
    {
        match self.current % LEVELS {
            0 => self
                .first
                .lead(near, met, &mut self.third, &mut self.fourth, order),
            1 => self
                .second
                .lead(near, met, &mut self.fourth, &mut self.first, order),
            2 => self
                .third
                .lead(near, met, &mut self.first, &mut self.second, order),
            _ => self
                .fourth
                .lead(near, met, &mut self.second, &mut self.third, order),
        }
    }
}

/// Writes into `order` all places in the order in which a search from the first of them visits them.
pub(crate) fn search(
    near: &[[u16; 8]],
    first: &[u16],
    met: &mut [bool],
    levels: &mut Levels,
    order: &mut Vec<u16>,
)
    requires near { IsMutual near.now }
    requires met { length met.old ≡ length near.now + 1 }
    requires first { All (λ place. place < length met.old) first.now }
{
    begin(first, met, levels, order);
    for _ in 0..u32::MAX {
        levels.visit(near, met, order);
        if !levels.turn() {
            return;
        }
    }
}

/// Writes into `order` the places that a search from one of them visits until it has met as many wanted ones as a tile
/// has sources, or has gone far enough: a tile whose sources lie far apart takes more time than several with fewer.
pub(crate) fn search_for(
    near: &[[u16; 8]],
    first: u16,
    wanted: &[bool],
    met: &mut [bool],
    levels: &mut Levels,
    order: &mut Vec<u16>,
)
    requires near { IsMutual near.now }
    requires met { length met.old ≡ length near.now + 1 }
    requires first { first < length met.old }
{
    begin(&[first], met, levels, order);
    let enough = FEWEST.max(near.len() / SHARE);
    let mut found: usize = 0;
    for _ in 0..u32::MAX {
        let seen = order.len();
        levels.visit(near, met, order);
        found = found.wrapping_add(wanted_from(order, seen, wanted));
        if found >= LANES || order.len() >= enough || !levels.turn() {
            return;
        }
    }
}

/// Nothing is met but the first places.
fn begin(first: &[u16], met: &mut [bool], levels: &mut Levels, order: &mut Vec<u16>)
    requires { All (λ place. place < length met.old) first.now }
{
    order.clear();
    met.fill(false);
    if let Some(nowhere) = met.last_mut() {
        *nowhere = true;
    }
    levels.start(first, met);
}

/// How many places of an order are wanted, from one on.
fn wanted_from(order: &[u16], seen: usize, wanted: &[bool]) -> usize {
    let mut count: usize = 0;
    for place in order.iter().skip(seen) {
        let is_wanted = wanted.get(usize::from(*place)).copied().unwrap_or(false);
        count = count.wrapping_add(usize::from(is_wanted));
    }
    count
}
