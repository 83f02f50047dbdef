//! Classes of places, guessed. Sixteen near sources see most of a component alike: the keys of a place are the costs of the
//! reference and an amount in each lane that is the same in a whole region, and so are the sets. What is guessed here is
//! tested where it is used.

ghost use Rattle.std.specs.Prelude.{◌≡◌, ◌+◌, ◌<◌, All, length};
ghost use Rattle.lane_rows.specs.Tables.{IsMutual};

use crate::inside::{moves_of, offsets_of};
use crate::kernels::{
    FAR, FULL, cap, equal_lanes, first_moves, has_beyond, has_empty, has_full, joined, keys_differ,
    lesser, lowered, raised, shared,
};
use root_cost::{DIAGONAL_KEY, STRAIGHT_KEY};
use std::alloc::{AllocError, Global};
use std::simd::prelude::*;

/// A tile has room for one class for this many places, and for `FEWEST` more.
const SHARE: usize = 24;

/// The room for classes that does not depend on the number of places.
const FEWEST: usize = 128;

/// How many times as many places as before are classed next.
const GROWTH: usize = 6;

/// How often at most more places are classed.
const GROWINGS: u32 = 8;

/// How often at most the places that were classed are gone over back and forth.
const REPAIRS: u32 = 4;

/// If classes meet in more than this many fifths of the places, the next tiles are solved without them.
const MANY: usize = 2;

/// How many tiles are solved without classes then. It doubles each time, as long as classes do not help.
const REST: u32 = 3;

/// How many tiles at most are solved without classes before they are tried again.
const LONGEST_REST: u32 = 48;

/// Tiles of fewer places are solved without classes, and have no room for any. Where a quarter of the cells is blocked, to
/// guess the classes of fewer places takes longer than the visits that they save.
pub(crate) const FEWEST_PLACES: usize = 10_000;

/// How many neighbourhoods are remembered, a power of two.
const REMEMBERED: usize = 256;

/// The lower half of a code that no neighbour takes over.
const KEPT: u32 = 0xffff;

/// The classes of a tile, found by their offsets and sets. The first stands for none.
#[derive(Drop)]
pub(crate) struct Classes {
    offsets: Vec<u32x16>,
    sets: Vec<u8x16>,
    slots: Vec<u16>,
    used: usize,
    /// How many tiles are still solved without classes.
    rests: u32,
    /// How many are the next time that classes do not help.
    next_rest: u32,
    /// What neighbours said, where it is remembered.
    said: Vec<u32x16>,
    /// The code of a place whose neighbours said it, or 0 where nothing is remembered.
    found: Vec<u32>,
}

/// What a tile is solved from by classes: the neighbours, the sources of the lanes, the reference's costs, the places in
/// their order, those that are nearest to the sources, and how often all are visited at most.
#[derive(Clone, Copy, Drop)]
pub(crate) struct Scene<'a> {
    pub near: &'a [[u16; 8]],
    pub sources: [u32; 16],
    pub costs: &'a [u32],
    pub sorted: &'a [u16],
    pub nearest: &'a [u16],
    pub sweeps: u32,
}

/// What a neighbour says: its class, and its cost and a step.
#[derive(Clone, Copy, Drop)]
struct Offer {
    class: u32,
    cost: u32,
}

impl Classes {
    /// Takes the memory for tiles of so many places.
    pub(crate) fn new(alloc: Global, count: usize) -> Result<Classes, AllocError> {
        let (most, remembered) = if count < FEWEST_PLACES {
            (0, 0)
        } else {
            let most = (count / SHARE).wrapping_add(FEWEST);
            (most.min(usize::from(u16::MAX / 4)), REMEMBERED)
        };
        Ok(Classes {
            offsets: vec![in alloc; u32x16::splat(FAR); most]?,
            sets: vec![in alloc; u8x16::splat(FULL); most]?,
            slots: vec![in alloc; 0; most.wrapping_mul(2).next_power_of_two()]?,
            used: 1,
            rests: 0,
            next_rest: REST,
            said: vec![in alloc; u32x16::splat(0); remembered]?,
            found: vec![in alloc; 0; remembered]?,
        })
    }

    /// Whether the next tile is to be solved by classes.
    pub(crate) fn are_wanted(&mut self) -> bool {
        if self.rests == 0 {
            return true;
        }
        self.rests = self.rests.wrapping_sub(1);
        false
    }

    /// Says how many of so many places lie where classes meet.
    pub(crate) fn judge(&mut self, borders: usize, places: usize) {
        if borders > places / 5 * MANY {
            self.rests = self.next_rest;
            self.next_rest = self.next_rest.wrapping_mul(2).min(LONGEST_REST);
        } else {
            self.next_rest = REST;
        }
    }

    /// Forgets all classes.
    fn clear(&mut self) {
        self.slots.as_mut_slice().fill(0);
        self.found.as_mut_slice().fill(0);
        self.used = 1;
    }

    /// The offsets of the classes.
    pub(crate) fn offsets(&self) -> &[u32x16] {
        self.offsets.as_slice()
    }

    /// The sets of the classes.
    pub(crate) fn sets(&self) -> &[u8x16] {
        self.sets.as_slice()
    }

    /// Whether there were more classes than there is room for.
    pub(crate) fn is_full(&self) -> bool {
        self.used >= self.offsets.len()
    }

    /// The code of the class of a place with these keys, sets and cost of the reference.
    pub(crate) fn code_of(&mut self, key: u32x16, set: u8x16, cost: u32) -> u32 {
        let offset = lowered(key, cost);
        let mut at = hash_of(offset + set.cast::<u32>());
        for _ in 0..self.slots.len() {
            at &= self.slots.len().wrapping_sub(1);
            let class = self.slots.get(at).copied().unwrap_or(0);
            if class == 0 {
                return self.add(at, offset, set);
            }
            if self.has(class, offset, set) {
                return code(class, set);
            }
            at = at.wrapping_add(1);
        }
        KEPT
    }

    /// Whether the class has these offsets and sets.
    #[inline(always)]
    fn has(&self, class: u16, offset: u32x16, set: u8x16) -> bool {
        let at = usize::from(class);
        if at >= self.offsets.len() || at >= self.sets.len() {
            return false;
        }
        !keys_differ(self.offsets[at], offset) && !self.sets[at].simd_ne(set).any()
    }

    /// Adds a class, where there is room.
    fn add(&mut self, at: usize, offset: u32x16, set: u8x16) -> u32 {
        let class = self.used;
        if class >= self.offsets.len() || class >= self.sets.len() || at >= self.slots.len() {
            return KEPT;
        }
        self.slots[at] = (class & 0xffff) as u16;
        self.offsets[class] = offset;
        self.sets[class] = set;
        self.used = class.wrapping_add(1);
        code((class & 0xffff) as u16, set)
    }

    /// The code of a place by its neighbours that have one.
    fn look(&mut self, scene: &Scene, codes: &[u32], place: u16) -> u32 {
        let Some(edges) = scene.near.get(usize::from(place)) else {
            return KEPT;
        };
        let cost = number_at(scene.costs, place);
        let said = Said::of(scene.costs, codes, edges, cost);
        if said.is_near_source || number_at(codes, place) & KEPT == KEPT {
            return self.weigh(scene, place, said, cost);
        }
        let words = u32x16::from_array(said.words);
        let at = hash_of(words) & (REMEMBERED - 1);
        if at < self.found.len()
            && at < self.said.len()
            && self.found[at] != 0
            && !keys_differ(self.said[at], words)
        {
            return self.found[at];
        }
        let code = self.weigh(scene, place, said, cost);
        if at < self.found.len() && at < self.said.len() {
            self.said[at] = words;
            self.found[at] = code;
        }
        code
    }

    /// The code of a place by what its neighbours say.
    fn weigh(&mut self, scene: &Scene, place: u16, said: Said, cost: u32) -> u32 {
        let offers = Offers::of(said, cost);
        let sources = u32x16::from_array(scene.sources);
        let mut key = cap(sources, u32::from(place));
        for offer in offers.list.iter().take(offers.count) {
            key = lesser(key, self.key_of(*offer));
        }
        let mut set = u8x16::splat(0);
        for offer in offers.list.iter().take(offers.count) {
            let brought = shared(equal_lanes(key, self.key_of(*offer)), self.set_of(*offer));
            set = joined(set, brought);
        }
        if has_empty(set)
            && let Some(edges) = scene.near.get(usize::from(place))
        {
            set = joined(set, first_moves(edges, sources));
        }
        self.code_of(key, set, cost)
    }

    /// The keys that a neighbour offers.
    #[inline(always)]
    fn key_of(&self, offer: Offer) -> u32x16 {
        raised(offsets_of(self.offsets(), offer.class), offer.cost)
    }

    /// The sets of a neighbour.
    #[inline(always)]
    fn set_of(&self, offer: Offer) -> u8x16 {
        moves_of(self.sets(), offer.class)
    }
}

/// The code of a class. The lower half is what the upper one is not, so that codes joined by `|` are one code where they
/// are equal; a class with an empty set in some lane is a source's own, and no neighbour takes it over.
#[inline(always)]
fn code(class: u16, set: u8x16) -> u32 {
    let class = u32::from(class);
    if has_empty(set) {
        class << 16 | KEPT
    } else {
        class << 16 | (!class & KEPT)
    }
}

/// A number by which something is found again.
#[inline(always)]
fn hash_of(words: u32x16) -> usize {
    let odds = u32x16::from_array([
        0x9e37_79b1,
        0x85eb_ca77,
        0xc2b2_ae3d,
        0x27d4_eb2f,
        0x1656_67b1,
        0xd3a2_646d,
        0xfd70_46c5,
        0xb55a_4f09,
        0x8da6_b343,
        0xd816_3841,
        0xcb1a_b31f,
        0x6a09_e667,
        0xbb67_ae85,
        0x3c6e_f373,
        0xa54f_f53b,
        0x510e_527f,
    ]);
    let sum = (words * odds).reduce_sum();
    ((sum >> 12) & 0xf_ffff) as usize
}

/// The number of a place, or 0 where there is none.
#[inline(always)]
fn number_at(numbers: &[u32], place: u16) -> u32 {
    numbers.get(usize::from(place)).copied().unwrap_or(0)
}

/// What the neighbours of a place say: their codes, and then how much more than the place's cost theirs and a step are; 0
/// where a neighbour has no class.
#[derive(Clone, Copy, Drop)]
struct Said {
    words: [u32; 16],
    /// Whether a neighbour's class is one that no place takes over.
    is_near_source: bool,
}

impl Said {
    /// What the neighbours of a place of this cost say.
    #[inline(always)]
    fn of(costs: &[u32], codes: &[u32], edges: &[u16; 8], cost: u32) -> Said {
        let mut said = Said {
            words: [0; 16],
            is_near_source: false,
        };
        let mut step = STRAIGHT_KEY.wrapping_sub(cost);
        let steps = (STRAIGHT_KEY + DIAGONAL_KEY).wrapping_sub(cost.wrapping_mul(2));
        for number in 0..8 {
            let code = number_at(codes, edges[number]);
            if code >> 16 != 0 {
                said.words[number] = code;
                said.words[number + 8] = number_at(costs, edges[number]).wrapping_add(step);
                if code & KEPT == KEPT {
                    said.is_near_source = true;
                }
            }
            step = steps.wrapping_sub(step);
        }
        said
    }
}

/// What the neighbours of a place say that have a class, each class once with the least cost where they lie side by side.
#[derive(Clone, Copy, Drop)]
struct Offers {
    list: [Offer; 8],
    count: usize,
}

impl Offers {
    /// What was said to a place of this cost.
    #[inline(always)]
    fn of(said: Said, cost: u32) -> Offers {
        let none = Offer { class: 0, cost: 0 };
        let mut offers = Offers {
            list: [none; 8],
            count: 0,
        };
        let mut last = none;
        for number in 0..8 {
            let class = said.words[number] >> 16;
            if class == 0 {
                continue;
            }
            let mut least = said.words[number + 8].wrapping_add(cost);
            if class == last.class {
                let before = last.cost;
                least = least.min(before);
            } else {
                offers.count = offers.count.wrapping_add(1);
            }
            last = Offer { class, cost: least };
            let at = offers.count.wrapping_sub(1);
            if at < 8 {
                offers.list[at] = last;
            }
        }
        offers
    }
}

/// The codes of the neighbours of a place, joined.
#[inline(always)]
fn joined_codes(codes: &[u32], edges: &[u16; 8]) -> u32
    requires { All (λ to. to < length codes.now) edges.now }
{
    let [n, ne, e, se, s, sw, w, nw] = *edges;
    let straight = codes[usize::from(n)] | codes[usize::from(e)] | codes[usize::from(s)];
    let diagonal = codes[usize::from(ne)] | codes[usize::from(se)] | codes[usize::from(sw)];
    straight | diagonal | codes[usize::from(w)] | codes[usize::from(nw)]
}

/// Whether joined codes were one code.
#[inline(always)]
fn is_one(code: u32) -> bool {
    (code >> 16) & code == 0
}

/// Classes the places of an order that have no code.
fn class_all(scene: &Scene, places: &[u16], classes: &mut Classes, codes: &mut [u32])
    requires near { IsMutual scene.now.near.now }
    requires codes { length codes.old ≡ length scene.now.near.now + 1 }
{
    for place in places {
        let Some(edges) = scene.near.get(usize::from(*place)) else {
            continue;
        };
        if codes[usize::from(*place)] != 0 {
            continue;
        }
        let mut code = joined_codes(codes, edges);
        if !is_one(code) {
            code = classes.look(scene, codes, *place);
        }
        codes[usize::from(*place)] = code;
    }
}

/// Classes a place anew, and lets its neighbours that have a code wait where it has changed.
fn renew(scene: &Scene, place: u16, classes: &mut Classes, codes: &mut [u32], waits: &mut [u8]) {
    let code = classes.look(scene, codes, place);
    if let Some(wait) = waits.get_mut(usize::from(place)) {
        *wait = 0;
    }
    if let Some(old) = codes.get_mut(usize::from(place))
        && *old != code
        && let Some(edges) = scene.near.get(usize::from(place))
    {
        *old = code;
        for to in edges {
            let has_code = codes.get(usize::from(*to)).copied().unwrap_or(0) != 0;
            if let Some(wait) = waits.get_mut(usize::from(*to)) {
                *wait |= u8::from(has_code);
            }
        }
    }
}

/// Looks again at the first places that lie where classes meet, and at those that wait then.
fn repair(scene: &Scene, places: &[u16], classes: &mut Classes, codes: &mut [u32], waits: &mut [u8])
    requires near { IsMutual scene.now.near.now }
    requires codes { length codes.old ≡ length scene.now.near.now + 1 }
{
    for place in places {
        if let Some(edges) = scene.near.get(usize::from(*place))
            && (waits_at(waits, *place)
                || !is_one(joined_codes(codes, edges) | codes[usize::from(*place)]))
        {
            renew(scene, *place, classes, codes, waits);
        }
    }
    for _ in 0..REPAIRS {
        let mut visited: usize = 0;
        for place in places.iter().rev().chain(places) {
            if waits_at(waits, *place) {
                renew(scene, *place, classes, codes, waits);
                visited = visited.wrapping_add(1);
            }
        }
        if visited == 0 {
            return;
        }
    }
}

/// Whether a place waits.
#[inline(always)]
fn waits_at(waits: &[u8], place: u16) -> bool {
    waits.get(usize::from(place)).copied().unwrap_or(0) != 0
}

/// Gives the places that were settled the codes of their keys and sets.
fn class_settled(
    scene: &Scene,
    places: &[u16],
    keys: &[u32x16],
    sets: &[u8x16],
    classes: &mut Classes,
    codes: &mut [u32],
) {
    for place in places {
        let at = usize::from(*place);
        if at >= keys.len() || at >= sets.len() || at >= codes.len() || at >= scene.costs.len() {
            continue;
        }
        if !has_beyond(keys[at], FAR) && !has_full(sets[at]) {
            codes[at] = classes.code_of(keys[at], sets[at], scene.costs[at]);
        }
    }
}

/// Guesses the class of each place: of those whose keys and sets are settled, of the sources, and then of ever more of the
/// others along the order.
pub(crate) fn guess(
    scene: &Scene,
    classes: &mut Classes,
    codes: &mut [u32],
    keys: &[u32x16],
    sets: &[u8x16],
    waits: &mut [u8],
)
    requires near { IsMutual scene.now.near.now }
    requires codes { length codes.old ≡ length scene.now.near.now + 1 }
{
    classes.clear();
    codes.fill(0);
    waits.fill(0);
    class_settled(scene, scene.nearest, keys, sets, classes, codes);
    for source in scene.sources {
        if codes.get(source as usize).copied() == Some(0) {
            let code = classes.look(scene, codes, (source & 0xffff) as u16);
            if let Some(slot) = codes.get_mut(source as usize) {
                *slot = code;
            }
        }
    }
    let mut count = scene.nearest.len();
    for _ in 0..GROWINGS {
        count = count.saturating_mul(GROWTH);
        if count >= scene.sorted.len() / 2 {
            break;
        }
        let places = &scene.sorted[..count];
        class_all(scene, places, classes, codes);
        repair(scene, places, classes, codes, waits);
    }
    class_all(scene, scene.sorted, classes, codes);
}
