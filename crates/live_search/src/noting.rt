//! Places that become known: what the database tells from them.

ghost use Rattle.std.specs.Prelude.{◌≡◌, ◌<◌, IfSome};
ghost use Rattle.path_image.specs.Reading.{IsCellIn};
ghost use Rattle.live_search.specs.Sound.{IsSought};
ghost use Rattle.live_search.specs.State.{HasState};
ghost use Rattle.live_search.specs.Steps.{Follows, KnowsAll, Notes, StepsBack, link_of, told_before};

use crate::seeking::Seek;
use crate::words::{
    UNKNOWN, know, link_at, link_cell_at, list, mark_at, put_link, told_at, word_of,
};
use live_maps::LiveImage;
use moves::{Cell, Move};
use path_image::{Home, ImageWalk, Step};
use root_cost::step_key;

/// How far a path was followed: by so many steps, to a place that is known.
#[derive(Clone, Copy)]
struct Followed {
    steps: u32,
    known: u32,
}

/// Makes a place known, and with it each place of the path that the database tells from there, up to one that is known;
/// `false` where the words are no version's image.
pub(crate) fn note(live: &LiveImage, seek: Seek, state: &mut [u32], cell: Cell, place: u32) -> bool
    requires sought { IsSought live.now seek }
    requires room { HasState state.old seek.size }
    requires cell { IsCellIn live.now.words cell }
    requires place { place < seek.size }
    ensures room { HasState state.new seek.size }
    ensures notes { Notes live.now seek state.old state.new cell place result }
{
    let from = Home {
        label: seek.goal.label,
        place,
    };
    let mut walk = live.image().walk(cell, from, seek.goal);
    match follow(live, seek, state, &mut walk) {
        Some(followed) => {
            know_all(seek, state, followed);
            true
        }
        None => false,
    }
}

/// Makes a place known, if it is not; `false` where the words are no version's image.
pub(crate) fn make_known(
    live: &LiveImage,
    seek: Seek,
    state: &mut [u32],
    cell: Cell,
    place: u32,
) -> bool
    requires sought { IsSought live.now seek }
    requires room { HasState state.old seek.size }
    requires cell { IsCellIn live.now.words cell }
    requires place { place < seek.size }
    ensures room { HasState state.new seek.size }
    ensures notes { Notes live.now seek state.old state.new cell place result }
{
    if mark_at(state, seek.size, place) != UNKNOWN {
        return true;
    }
    note(live, seek, state, cell, place)
}

/// Follows a walk to a place that is known, and puts down its steps; `None` where it gets lost.
fn follow(live: &LiveImage, seek: Seek, state: &mut [u32], walk: &mut ImageWalk) -> Option<Followed>
    requires sought { IsSought live.now seek }
    requires room { HasState state.old seek.size }
    requires over { walk.old.words ≡ live.now.words }
    requires label { walk.old.walk.home.label ≡ seek.goal.label }
    ensures room { HasState state.new seek.size }
    ensures steps { IfSome result (λ found. found.steps < seek.size) }
    ensures known { IfSome result (λ found. found.known < seek.size) }
    ensures follows { Follows live.now seek state.old state.new walk.old.walk result }
{
    for steps in 0..seek.size {
        let known = walk.home().place;
        if mark_at(state, seek.size, known) != UNKNOWN {
            return Some(Followed { steps, known });
        }
        let from = walk.at();
        match walk.step() {
            Step::Go(by) => {
                let link = link_of(known, by, live.is_clear(from, by, walk.at()));
                put_link(state, seek.size, steps, link, word_of(from));
            }
            Step::Arrived => return None,
            Step::Lost => return None,
        }
    }
    None
}

/// A step as a word.
fn link_of(place: u32, by: Move, free: bool) -> u32
    requires { place < 32768 }
    ensures { result ≡ link_of place by free }
{
    place * 16 + u32::from(by.number()) * 2 + u32::from(free)
}

/// Makes the places of steps known, from the last one back.
fn know_all(seek: Seek, state: &mut [u32], followed: Followed)
    requires room { HasState state.old seek.size }
    requires steps { followed.steps < seek.size }
    requires known { followed.known < seek.size }
    requires goal { seek.goal.place < seek.size }
    ensures room { HasState state.new seek.size }
    ensures knows { KnowsAll seek state.old state.new followed }
{
    let mut next = followed.known;
    let mut left = followed.steps;
    while left > 0 {
        left -= 1;
        next = know_one(seek, state, left, next);
    }
}

/// Makes the place where a step begins known, by the place that it leads to, and says which it is.
fn know_one(seek: Seek, state: &mut [u32], step: u32, next: u32) -> u32
    requires room { HasState state.old seek.size }
    requires step { step < seek.size }
    requires next { next < seek.size }
    requires goal { seek.goal.place < seek.size }
    ensures room { HasState state.new seek.size }
    ensures steps { StepsBack seek state.old state.new step next result }
{
    let link = link_at(state, seek.size, step);
    let place = link / 16;
    if place >= seek.size {
        return next;
    }
    if mark_at(state, seek.size, place) == UNKNOWN {
        let told = told_before(told_at(state, seek.size, next), link);
        let cell = link_cell_at(state, seek.size, step);
        list(state, seek.size, place);
        know(state, seek.size, place, told, cell);
    }
    place
}

/// What is told from where a step begins, by what is told from where it leads.
fn told_before(told: u32, link: u32) -> u32
    ensures { result ≡ told_before told link }
{
    let bound = (told / 2).wrapping_add(step_key(link / 2 % 2 == 1));
    bound.wrapping_mul(2).wrapping_add(told % 2 * (link % 2))
}
