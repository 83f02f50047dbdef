//! The keys of the walks from all places to one target.

ghost use Rattle.std.specs.Prelude.{◌≡◌, ◌+◌, ◌<◌, ◌≤◌, IfSome, IfNone, length};
ghost use Rattle.row_check.specs.Following.{AreAllKeys, AreKeys, AreKeysWith, CanFollow, IsFirstLost, IsKeyOf, IsLost};

use crate::cursors::{Cursor, FAR, START};
use root_cost::NO_KEY;

/// Finds the key of the walk from each place to the target; the first place from which none leads there, if there is
/// one. The last key is that of nowhere.
pub(crate) fn find_keys(cursors: &[Cursor], keys: &mut [u32], target: usize) -> Option<usize>
    requires follow { CanFollow cursors.now target }
    requires keys { length keys.old ≡ length cursors.now + 1 }
    ensures all { IfNone result (AreAllKeys cursors.now target keys.new) }
    ensures lost { IfSome result (IsFirstLost cursors.now target) }
    ensures size { length keys.new ≡ length keys.old }
{
    start_keys(cursors, keys, target);
    for place in 0..cursors.len() {
        match follow(cursors, keys, place, target) {
            Some(key) => settle(cursors, keys, place, key, target),
            None => return Some(place),
        }
    }
    None
}

/// No key is known but that of the target and that of nowhere.
fn start_keys(cursors: &[Cursor], keys: &mut [u32], target: usize)
    requires target { target < length cursors.now }
    requires keys { length keys.old ≡ length cursors.now + 1 }
    ensures { AreKeys cursors.now target keys.new }
{
    keys.fill(NO_KEY);
    keys[target] = START;
    keys[cursors.len()] = FAR;
}

/// The key of the walk from a place to the target, of which a part may be known; `None` where no walk leads there.
#[inline(always)]
fn follow(cursors: &[Cursor], keys: &[u32], from: usize, target: usize) -> Option<u32>
    requires follow { CanFollow cursors.now target }
    requires keys { AreKeys cursors.now target keys.now }
    requires from { from < length cursors.now }
    ensures some { IfSome result (IsKeyOf cursors.now target from) }
    ensures none { IfNone result (IsLost cursors.now target from) }
{
    let mut at = from;
    let mut total = 0;
    for _ in 0..cursors.len() {
        let key = keys[at];
        if key != NO_KEY {
            return Some(total + key);
        }
        let cursor = cursors[at];
        total += cursor.step;
        at = usize::from(cursor.next);
        if at >= cursors.len() {
            return None;
        }
    }
    None
}

/// Notes the keys of the places on the walk from a place, as far as they are not known.
#[inline(always)]
fn settle(cursors: &[Cursor], keys: &mut [u32], from: usize, key: u32, target: usize)
    requires follow { CanFollow cursors.now target }
    requires keys { AreKeys cursors.now target keys.old }
    requires from { from < length cursors.now }
    requires key { IsKeyOf cursors.now target from key }
    ensures { AreKeysWith cursors.now target from keys.old keys.new }
{
    let mut at = from;
    let mut rest = key;
    while keys[at] == NO_KEY {
        let cursor = cursors[at];
        keys[at] = rest;
        rest -= cursor.step;
        at = usize::from(cursor.next);
    }
}
