//! Families of made maps, and what is compared on each map of one.

ghost use Rattle.std.specs.Prelude.{◌<◌, IfOk};
ghost use Rattle.moves.specs.Maps.{IsSearchable};

use crate::fields::numbers_in;
use crate::maps::grid_of;
use crate::refusal::Refusal;
use moves::Grid;
use std::alloc::Global;

/// How many cells in a hundred are passable, in turn, where a family varies that.
const PERCENTS: [u32; 7] = [100, 86, 80, 75, 62, 50, 38];

/// How many of those are water, in turn, where a family has water.
const WATER: [u32; 5] = [50, 36, 14, 25, 2];

/// Made maps, one for each seed from 0 on.
#[derive(Drop)]
pub struct Family {
    /// The sides. Where `percent` is `None`, each side varies from 1 up to the one here.
    width: u32,
    height: u32,
    /// How many cells in a hundred are passable; `None` where that varies.
    percent: Option<u32>,
    /// Whether some of the passable cells are water.
    is_mixed: bool,
    count: u32,
    ghost sides: { (0 < width) × (0 < height) },
}

impl Family {
    /// The family that a text names: `W H PERCENT COUNT`, or `W H COUNT` where sides and share vary. With `mixed` before
    /// it the maps have water too.
    pub fn of(alloc: Global, text: &str) -> Result<Family, Refusal> {
        let (is_mixed, text) = match text.strip_prefix("mixed ") {
            Some(rest) => (true, rest),
            None => (false, text),
        };
        let (width, height, percent, count) = match numbers_in(alloc, text)?.as_slice() {
            [width, height, percent, count] => (*width, *height, Some(*percent), *count),
            [width, height, count] => (*width, *height, None, *count),
            _ => return Err(Refusal::OutOfForm),
        };
        if width == 0 || height == 0 {
            return Err(Refusal::OutOfForm);
        }
        Ok(Family {
            width,
            height,
            percent,
            is_mixed,
            count,
        })
    }

    /// The map with that seed.
    pub fn map(&self, alloc: Global, seed: u32) -> Result<Grid, Refusal>
        ensures { IfOk result IsSearchable }
    {
        let [width, height, percent] = self.form(seed);
        let share = if self.is_mixed {
            WATER[seed as usize % 5]
        } else {
            0
        };
        let water = share.min(percent);
        let land = percent.saturating_sub(water);
        let text = format!(in alloc; "mixed {width} {height} {land} {water} {seed}")?;
        grid_of(alloc, text.as_str())
    }

    /// The width and the height of the map with that seed, and how many of a hundred of its cells are passable.
    fn form(&self, seed: u32) -> [u32; 3] {
        let (most_wide, most_high) = (self.width, self.height);
        match self.percent {
            Some(percent) => [most_wide, most_high, percent],
            None => {
                let wide = seed % most_wide;
                let high = seed / most_wide % most_high;
                let percent = PERCENTS[seed as usize % 7];
                [wide.saturating_add(1), high.saturating_add(1), percent]
            }
        }
    }
}

/// Something that two bodies find out about a map, each in its own way.
pub trait Comparison {
    /// How many differences there are between the two on a map, which has that seed in its family.
    fn differences(&self, alloc: Global, grid: &Grid, seed: u32) -> Result<u32, Refusal>
        requires { IsSearchable grid.now };
}

/// How many maps a family has, and how many differences a comparison finds on all of them.
pub fn compared<C: Comparison>(
    alloc: Global,
    family: &Family,
    comparison: &C,
) -> Result<String, Refusal> {
    let mut differences: u32 = 0;
    for seed in 0..family.count {
        let grid = family.map(alloc, seed)?;
        let more = comparison.differences(alloc, &grid, seed)?;
        differences = differences.saturating_add(more);
    }
    let count = family.count;
    Ok(format!(in alloc; "{count} maps, {differences} differences")?)
}
