//! Workers at doors, in parallel, with a builder.

ghost use Rattle.std.specs.Prelude.{◌≡◌, ◌<◌, ◌≤◌, ◌+◌, ℕ, [], All, Some, false, true, length, slice_index_or, vec_capacity};
ghost use Rattle.path_board.specs.Passes.{IsPassOf};
ghost use Rattle.path_board.specs.SharedBoards.{board_id};
ghost use Rattle.session.specs.Builders.{HasBuilt};
ghost use Rattle.session.specs.Crews.{HasRun, HaveAllRun, MayBegin, any_of, backwards, has_failed};
ghost use Rattle.session.specs.Seats.{place_of, standing_of};
ghost use Rattle.session.specs.Trades.{FitsAt, IsHeldBy, feeds_at};

use crate::builder::{BuildTotals, build_loop};
use crate::doors::{DoorEnded, door_loop};
use crate::means::Means;
use crate::seated::Seated;
use crate::trades::Trade;
use build_pool::Gate;
use path_board::{Pass, SharedBoard};
use std::sync::Wait;
use std::thread::{Threads, for_each_mut, join};
use wire::{Bell, Door, Ear};

/// A worker: its seat, its door, and how its loop has ended, once it has.
#[derive(Drop)]
pub(crate) struct Worker<'a, D: Door, B: Bell> {
    pub(crate) seat: Seated<'a, B>,
    pub(crate) door: D,
    pub(crate) ended: Option<DoorEnded>,
}

/// A board whose passes are used in parallel, the bell of its builder, and what is done over each link.
#[derive(Drop)]
pub(crate) struct Site<'a, 't, 's, B> {
    pub(crate) board: &'a SharedBoard,
    pub(crate) bell: &'a B,
    pub(crate) trade: &'t Trade<'s>,
}

/// Returns the seat of that pass.
pub(crate) fn seated<'a, B: Bell>(site: &Site<'a, '_, '_, B>, pass: Pass) -> Seated<'a, B>
    requires { IsPassOf (board_id site.now.board.now) pass }
    ensures { result.pass ≡ pass }
{
    Seated {
        board: site.board,
        pass,
        bell: site.bell,
    }
}

/// Returns the worker with that pass at that door.
fn worker_at<'a, D: Door, B: Bell>(
    site: &Site<'a, '_, '_, B>,
    pass: Pass,
    door: D,
) -> Worker<'a, D, B>
    requires { IsPassOf (board_id site.now.board.now) pass }
    ensures pass { result.seat.pass ≡ pass }
    ensures door { result.door ≡ door }
{
    Worker {
        seat: seated(site, pass),
        door,
        ended: None,
    }
}

/// Makes a worker for each door, that of the last door first. The doors and passes leave their lists, whose memory
/// stays.
pub(crate) fn hire<'a, D: Door, B: Bell>(
    site: &Site<'a, '_, '_, B>,
    doors: &mut Vec<D>,
    passes: &mut Vec<Pass>,
    room: Vec<Worker<'a, D, B>>,
) -> Vec<Worker<'a, D, B>>
    requires long { length passes.old.items ≡ length doors.old.items }
    requires of_board { All (IsPassOf (board_id site.now.board.now)) passes.old.items }
    requires none { room.items ≡ [] }
    requires room { length doors.old.items ≤ vec_capacity room }
    ensures doors { backwards result.items (λ worker. worker.door) ≡ doors.old.items }
    ensures passes { backwards result.items (λ worker. worker.seat.pass) ≡ passes.old.items }
    ensures no_doors { doors.new.items ≡ [] }
    ensures no_passes { passes.new.items ≡ [] }
    ensures room_of_doors { vec_capacity doors.new ≡ vec_capacity doors.old }
    ensures room_of_passes { vec_capacity passes.new ≡ vec_capacity passes.old }
{
    let mut crew = room;
    while let Some(door) = doors.pop() {
        let pass = passes.pop().unwrap();
        crew.push_reserved(worker_at(site, pass, door));
    }
    crew
}

/// Puts the doors and passes of the workers back into their lists, those of the last worker first.
pub(crate) fn dismiss<D: Door, B: Bell>(
    crew: Vec<Worker<'_, D, B>>,
    doors: &mut Vec<D>,
    passes: &mut Vec<Pass>,
)
    requires no_doors { doors.old.items ≡ [] }
    requires no_passes { passes.old.items ≡ [] }
    requires room_of_doors { length crew.items ≤ vec_capacity doors.old }
    requires room_of_passes { length crew.items ≤ vec_capacity passes.old }
    ensures doors { doors.new.items ≡ backwards crew.entry.items (λ worker. worker.door) }
    ensures passes { passes.new.items ≡ backwards crew.entry.items (λ worker. worker.seat.pass) }
    ensures room { vec_capacity passes.new ≡ vec_capacity passes.old }
{
    let mut crew = crew;
    while let Some(worker) = crew.pop() {
        doors.push_reserved(worker.door);
        passes.push_reserved(worker.seat.pass);
    }
}

/// Returns whether the loop of a worker ended because a knock failed.
pub(crate) fn any_failed<D: Door, B: Bell>(crew: &[Worker<'_, D, B>]) -> bool
    ensures { result ≡ any_of crew.now (λ worker. has_failed worker.ended) }
{
    crew.iter().any(|worker| has_failed(worker.ended))
}

/// Returns whether a loop ended because a knock failed.
fn has_failed(ended: Option<DoorEnded>) -> bool
    ensures { result ≡ has_failed ended }
{
    matches!(ended, Some(DoorEnded::Failed))
}

/// Serves the worker's door until its loop ends.
fn work<D: Door, B: Bell, R: Threads + Wait + Sync, G: Gate>(
    means: &Means<'_, R, G>,
    trade: &Trade<'_>,
    worker: &mut Worker<'_, D, B>,
)
    requires ready { MayBegin D.at (FitsAt trade.now) worker.old }
    ensures { HasRun D.at (IsHeldBy trade.now) (feeds_at trade.now) worker.old.seat.pass worker.old.door
        worker.new.seat.pass worker.new.door worker.new.ended }
{
    let ended = door_loop(means, trade, &mut worker.seat, &mut worker.door);
    worker.ended = Some(ended);
}

/// Lets all workers serve their doors in parallel, and shuts the bell when all of their loops have ended.
fn serve_crew<D: Door, B: Bell, R: Threads + Wait + Sync, G: Gate>(
    means: &Means<'_, R, G>,
    trade: &Trade<'_>,
    bell: &B,
    crew: &mut [Worker<'_, D, B>],
)
    requires ready { (i : ℕ) (d : _) → i < length crew.old →
        MayBegin D.at (FitsAt trade.now) (slice_index_or crew.old i d) }
    ensures long { length crew.new ≡ length crew.old }
    ensures each { (i : ℕ) (d : _) → i < length crew.old → HasRun D.at
        (IsHeldBy trade.now) (feeds_at trade.now)
        (slice_index_or crew.old i d).seat.pass (slice_index_or crew.old i d).door
        (slice_index_or crew.new i d).seat.pass (slice_index_or crew.new i d).door
        (slice_index_or crew.new i d).ended }
{
    let threads = crew.len().max(1);
    for_each_mut(
        means.rt,
        crew,
        threads,
        &|_: usize, worker: &mut Worker<'_, D, B>|
            requires { MayBegin D.at (FitsAt trade.now) worker.now }
        { work(means, trade, worker) },
    );
    bell.shut(means.rt);
}

/// Does the same for a list of workers, and returns it.
fn serve_list<'a, D: Door, B: Bell, R: Threads + Wait + Sync, G: Gate>(
    means: &Means<'_, R, G>,
    trade: &Trade<'_>,
    bell: &B,
    crew: Vec<Worker<'a, D, B>>,
) -> Vec<Worker<'a, D, B>>
    requires ready { (i : ℕ) (d : _) → i < length crew.items →
        MayBegin D.at (FitsAt trade.now) (slice_index_or crew.items i d) }
    ensures ran { HaveAllRun D.at (IsHeldBy trade.now) (feeds_at trade.now) crew.entry.items result.items }
{
    let mut crew = crew;
    serve_crew(means, trade, bell, crew.as_mut_slice());
    crew
}

/// Builds at the rings of the ear, until the bell is shut.
fn build<'a, 'e, B: Bell, E: Ear, R: Threads + Wait + Sync, G: Gate>(
    means: &Means<'_, R, G>,
    builder: Seated<'a, B>,
    ear: &'e mut E,
) -> (Seated<'a, B>, &'e mut E, BuildTotals)
    requires waiting { (E.at ear.now).over ≡ false }
    ensures name { result.1.ghost_name ≡ ear.entry.ghost_name }
    ensures over { (E.at result.1.now).over ≡ true }
    ensures same { place_of result.0.pass ≡ place_of builder.entry.pass }
    ensures built { HasBuilt (place_of builder.entry.pass) (standing_of builder.entry.pass) result.2
        (E.at ear.entry.now).rung (standing_of result.0.pass) (E.at result.1.now).rung }
{
    let mut builder = builder;
    let totals = build_loop(
        means.rt,
        means.alloc,
        &mut builder,
        ear,
        means.workers,
        means.gate,
    );
    (builder, ear, totals)
}

/// Ends the loan of what was lent and returned.
fn take_back<T>(_lent: &mut T)
    ensures { _lent.new ≡ _lent.old }
{}

/// Lets the workers serve their doors while the builder builds, until all have ended.
pub(crate) fn serve_beside<'a, D: Door, B: Bell, E: Ear, R: Threads + Wait + Sync, G: Gate>(
    means: &Means<'_, R, G>,
    trade: &Trade<'_>,
    bell: &B,
    builder: Seated<'a, B>,
    ear: &mut E,
    crew: Vec<Worker<'a, D, B>>,
) -> (Seated<'a, B>, Vec<Worker<'a, D, B>>, BuildTotals)
    requires waiting { (E.at ear.old).over ≡ false }
    requires ready { (i : ℕ) (d : _) → i < length crew.items →
        MayBegin D.at (FitsAt trade.now) (slice_index_or crew.items i d) }
    ensures over { (E.at ear.new).over ≡ true }
    ensures same { place_of result.0.pass ≡ place_of builder.entry.pass }
    ensures built { HasBuilt (place_of builder.entry.pass) (standing_of builder.entry.pass) result.2
        (E.at ear.old).rung (standing_of result.0.pass) (E.at ear.new).rung }
    ensures ran { HaveAllRun D.at (IsHeldBy trade.now) (feeds_at trade.now) crew.entry.items result.1.items }
{
    // The builder comes first: if no thread can be made it runs last, once the bell is shut.
    let ((builder, ear, totals), crew) = join(
        means.rt,
        ||
            requires { (E.at ear.now).over ≡ false }
        { build(means, builder, ear) },
        ||
            requires { (i : ℕ) (d : _) → i < length crew.items →
                MayBegin D.at (FitsAt trade.now) (slice_index_or crew.items i d) }
        { serve_list(means, trade, bell, crew) },
    );
    take_back(ear);
    (builder, crew, totals)
}
