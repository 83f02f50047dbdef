//! Settling the cells of a map one by one, by rising key.

ghost use Rattle.std.specs.Prelude.{◌≡◌, ℕ, ◌*◌, ◌<◌, ◌≤◌, length, take};
ghost use Rattle.moves.specs.Maps.{IsPassable, IsSearchable, passable_count, place_of};
ghost use Rattle.moves.specs.MoveMasks.{IsMoveMask};
ghost use Rattle.grid_search.specs.Keys.{HasNoKeys};
ghost use Rattle.grid_search.specs.Settling.{EveryMove, HasTarget, IsFinished, IsTargetPlace, OnlyMove};
ghost use Rattle.grid_search.specs.Queues.{AreReady, AreStepsTaken, HasSpace, IsSettledLast, opened};

use crate::open_list::OpenList;
use crate::queue::Waiting;
use moves::{Cell, Grid, MAX_SIDE, Move, place};
use root_cost::step_key;

/// Settles the cells reached from the source, one by one, by rising key, and returns their number.
pub fn settle(
    grid: &Grid,
    source: Cell,
    keys: &mut [u32],
    list: &mut OpenList,
    order: &mut [Cell],
) -> usize
    requires source { IsPassable grid.now source }
    requires few { IsSearchable grid.now }
    requires space { HasSpace grid.now (opened keys.old list.old) }
    requires room { passable_count grid.now ≤ length order.old }
    requires unused { HasNoKeys keys.old }
    ensures count { result ≤ length order.old }
    ensures finished { IsFinished grid.now source keys.new (take result order.new) }
    ensures straight { list.new.straight.room ≡ list.old.straight.room }
    ensures diagonal { list.new.diagonal.room ≡ list.old.diagonal.room }
{
    keys[place(grid.width(), source)] = 0;
    list.begin(source);
    let mut count = 0;
    while let Some(next) = list.take_first() {
        let place = place(grid.width(), next.cell);
        // Drop the entry if its cell has since been reached by a lower key.
        if keys[place] == next.key {
            order[count] = next.cell;
            count += 1;
            relax(grid, next, place, keys, list);
        }
    }
    count
}

/// The cell settled last, its place in lists that go row by row, and its legal moves as bits.
#[derive(Clone, Copy)]
struct Settled {
    entry: Waiting,
    place: usize,
    legal: u8,
}

/// Takes every legal step from the cell settled last.
fn relax(grid: &Grid, entry: Waiting, place: usize, keys: &mut [u32], list: &mut OpenList)
    requires last { IsSettledLast grid.now entry place }
    requires ready { AreReady grid.now entry.key (opened keys.old list.old) }
    ensures { AreStepsTaken grid.now entry EveryMove
        (opened keys.old list.old) (opened keys.new list.new) }
{
    let legal = grid.move_masks()[place];
    let from = Settled {
        entry,
        place,
        legal,
    };
    step(grid, from, Move::N, keys, list);
    step(grid, from, Move::E, keys, list);
    step(grid, from, Move::S, keys, list);
    step(grid, from, Move::W, keys, list);
    step(grid, from, Move::NE, keys, list);
    step(grid, from, Move::SE, keys, list);
    step(grid, from, Move::SW, keys, list);
    step(grid, from, Move::NW, keys, list);
}

/// Takes one step from the cell settled last, if the step is legal and lowers the target's key.
fn step(grid: &Grid, from: Settled, by: Move, keys: &mut [u32], list: &mut OpenList)
    requires last { IsSettledLast grid.now from.entry from.place }
    requires legal { IsMoveMask grid.now from.entry.cell from.legal }
    requires ready { AreReady grid.now from.entry.key (opened keys.old list.old) }
    ensures steps { AreStepsTaken grid.now from.entry (OnlyMove by)
        (opened keys.old list.old) (opened keys.new list.new) }
    ensures ready { AreReady grid.now from.entry.key (opened keys.new list.new) }
{
    let width = grid.width();
    if from.legal >> by.number() & 1 != 1 {
        return;
    }
    let cell = from.entry.cell.target(by);
    let target_place = target_place(width, from.entry.cell, from.place, by);
    let diagonal = by.is_diagonal();
    let key = from.entry.key + step_key(diagonal);
    if keys[target_place] <= key {
        return;
    }
    keys[target_place] = key;
    if diagonal {
        list.push_diagonal(Waiting { key, cell });
    } else {
        list.push_straight(Waiting { key, cell });
    }
}

/// Returns the place of the cell that the move leads to, given the place of the cell that it
/// leaves.
fn target_place(width: u32, from: Cell, place: usize, by: Move) -> usize
    requires width { width ≤ MAX_SIDE }
    requires row { from.y < MAX_SIDE }
    requires place { place ≡ place_of width from }
    requires some { HasTarget from by }
    ensures { IsTargetPlace width from by result }
{
    let width = width as usize;
    match by {
        Move::N => place - width,
        Move::NE => place - width + 1,
        Move::E => place + 1,
        Move::SE => place + width + 1,
        Move::S => place + width,
        Move::SW => place + width - 1,
        Move::W => place - 1,
        Move::NW => place - width - 1,
    }
}
