//! What a seat knows. These values exist in proofs alone: the words of the specifications speak of them.
use std::collections::LinkedList;

/// Where a seat stands in the queue, with the number of its ticket.
pub enum Phase {
    /// It has no ticket.
    Idle,
    /// It has drawn the ticket, which is not served yet.
    Waiting(u64),
    /// Its ticket is served.
    Served(u64),
    /// Its ticket is served, and its entry is in the history.
    Done(u64),
    /// It was joined to another seat.
    Spent,
}

/// A seat that was joined to another, with what it had seen.
pub struct Ended<E> {
    pub number: u64,
    pub seen: LinkedList<E>,
}

/// What a seat knows.
pub struct View<E, B> {
    /// Its own number, which a note does not have.
    pub number: Option<u64>,
    pub phase: Phase,
    /// The history as far as it was seen.
    pub seen: LinkedList<E>,
    /// How often it looked at the history.
    pub looks: u64,
    /// The lists that were joined since the last look, its own first.
    pub joined: LinkedList<LinkedList<E>>,
    /// The seats that were joined.
    pub ended: LinkedList<Ended<E>>,
    /// The base of each state.
    pub base: Option<B>,
    /// How many seats were made, which one view knows.
    pub made: Option<u64>,
}
