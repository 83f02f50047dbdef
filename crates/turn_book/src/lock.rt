//! The lock by single steps: the words, the slot, and the wait.
ghost use Rattle.std.specs.Prelude.{◌≡◌, ◌≢◌, ℕ, ◌%◌, ◌^◌, ◌+◌, ◌∷◌, [], Some, None};
ghost use Rattle.turn_book.specs.Rule.{view_of, newcomer, HasSlot};
ghost use Rattle.turn_book.specs.Steps.{Enters};
ghost use Rattle.turn_book.specs.Turns.{IsSized, IsWaiting, seen_of, base_of};
ghost use Rattle.turn_book.specs.declared.view.Phase.TheVariants.{Idle};

use crate::book::Seat;
use crate::serial::Serial;
use crate::steps::{Draw, Found, Open, Order, PassOn, Serve};
use crate::view::View;
use atomic_table::Shared;
use std::hint::spin_loop;
use std::sync::Wait;

/// The word from which tickets are drawn.
pub const TICKET: usize = 0;

/// The word that shows which ticket is served.
pub const SERVING: usize = 1;

/// The word that counts the entries of the history.
pub const COUNT: usize = 2;

/// How many words a lock has.
pub const WORDS: usize = 3;

/// How many slots a lock has.
pub const SLOTS: usize = 1;

/// The slot of the state.
pub const SLOT: usize = 0;

// How often a thread looks at the served ticket before it sleeps.
const SPINS: u64 = 64;

pub type Lock<S> = Shared<Option<S>, View<<S as Serial>::Entry, <S as Serial>::Base>, (), Order>;

// Takes the state out of the slot that the seat has.
pub fn take<S: Serial>(lock: &Lock<S>, seat: &mut Seat<S>) -> S
    requires lock { IsSized lock.now.table_id × (seat.old.table_id ≡ lock.now.table_id) }
    requires full { (state : S) × (seat.old.me.1 ≡ (0, Some state) ∷ []) }
    ensures seat { (seat.new.table_id ≡ seat.old.table_id) × (seat.new.id ≡ seat.old.id) }
    ensures taken { seat.old.me.1 ≡ (0, Some result) ∷ [] }
    ensures left { seat.new.me ≡ (seat.old.me.0, (0, None) ∷ []) }
{
    lock.exchange(seat, SLOT, None).unwrap()
}

// Puts a state into the empty slot that the seat has.
pub fn give_back<S: Serial>(lock: &Lock<S>, seat: &mut Seat<S>, state: S)
    requires lock { IsSized lock.now.table_id × (seat.old.table_id ≡ lock.now.table_id) }
    requires empty { seat.old.me.1 ≡ (0, None) ∷ [] }
    ensures seat { (seat.new.table_id ≡ seat.old.table_id) × (seat.new.id ≡ seat.old.id) }
    ensures given { seat.new.me ≡ (seat.old.me.0, (0, Some state) ∷ []) }
{
    let old = lock.exchange(seat, SLOT, Some(state));
    let None = old else { unreachable!() };
}

// The first seat puts the state into the empty lock.
pub fn found<S: Serial>(lock: &Lock<S>, seat: &mut Seat<S>, state: S)
    requires lock { IsSized lock.now.table_id × (seat.old.table_id ≡ lock.now.table_id) }
    requires first { seat.old.me ≡ (newcomer Idle, []) }
    requires empty { S.list state ≡ [] }
    ensures seat { (seat.new.table_id ≡ seat.old.table_id) × (seat.new.id ≡ seat.old.id) }
    ensures founded { seat.new.me ≡ (view_of (Some 0) Idle [] 0 (Some (S.base state)) (Some 1), []) }
{
    lock.load::<Open>(seat, COUNT);
    give_back(lock, seat, state);
    lock.load::<Found>(seat, COUNT);
}

// Waits until the ticket is served. It looks some times, and then sleeps until the served number changes.
pub fn wait<S: Serial, R: Wait>(lock: &Lock<S>, rt: &R, seat: &mut Seat<S>, ticket: u64)
    requires lock { IsSized lock.now.table_id × (seat.old.table_id ≡ lock.now.table_id) }
    requires waits { (t : ℕ) × (ticket ≡ t % 2 ^ 64) × IsWaiting seat.old t }
    ensures seat { (seat.new.table_id ≡ seat.old.table_id) × (seat.new.id ≡ seat.old.id) }
    ensures enters { (t : ℕ) × IsWaiting seat.old t × Enters S.list S.base S.names seat.old.me t seat.new.me }
{
    let mut looks = 0;
    for _ in rt.forever() {
        let serving = lock.load::<Serve>(seat, SERVING);
        if serving == ticket {
            return;
        }
        if looks < SPINS {
            looks += 1;
            spin_loop();
        } else {
            lock.park(rt, SERVING, (serving & 0xffff_ffff) as u32);
        }
    }
    unreachable!()
}

// Passes the lock on. Whoever drew a ticket meanwhile may sleep, and is woken.
pub fn pass_on<S: Serial>(lock: &Lock<S>, seat: &mut Seat<S>)
    requires lock { IsSized lock.now.table_id × (seat.old.table_id ≡ lock.now.table_id) }
    requires served { HasSlot seat.old.me.0.phase }
    requires full { (state : S) × (seat.old.me.1 ≡ (0, Some state) ∷ []) × (S.list state ≡ seen_of seat.old)
        × (base_of seat.old ≡ Some (S.base state)) }
    ensures seat { (seat.new.table_id ≡ seat.old.table_id) × (seat.new.id ≡ seat.old.id) }
    ensures idle { seat.new.me ≡ (record seat.old.me.0 { phase = Idle }, []) }
{
    let served = lock.fetch_add::<PassOn>(seat, SERVING, 1);
    if lock.peek(TICKET) != served.wrapping_add(1) {
        lock.wake_all(SERVING);
    }
}
