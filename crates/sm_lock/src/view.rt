//! What a seat at the lock knows. No value of these types is ever made: they exist in proofs alone.
use std::collections::LinkedList;

/// Where a seat stands in the queue. Its ticket never wraps, while the words have it modulo 2^64.
pub enum QueuePlace {
    Out,
    Waiting(u64),
    /// It waits, and has raised its ticket's flag.
    Flagged(u64),
    /// With its flag raised it saw that its ticket was not served, so it may park.
    Parked(u64),
    /// Its ticket is served, and the value is in the slot.
    Inside(u64),
    /// Its ticket is served, and the value is with the seat.
    Holding(u64),
    /// It has served this ticket, and has yet to see to its flag.
    Waking(u64),
    /// It has lowered the flag of this ticket, and has yet to wake who is parked on it.
    Rousing(u64),
}

/// A list that was seen, and numbers whose entries are all in it.
pub struct Known<E> {
    pub seen: LinkedList<(u64, E)>,
    pub numbers: LinkedList<u64>,
}

/// What one seat knows.
pub struct View<O, E> {
    pub turn: QueuePlace,
    /// The origin of the value that was built in. A spent view has none.
    pub origin: Option<O>,
    /// The list of the value that was built in.
    pub built: LinkedList<(u64, E)>,
    pub own: Known<E>,
    /// What another seat knew, until it is taken in.
    pub told: Known<E>,
    /// The number that the builder gives next, and 0 in any other view.
    pub given: u64,
}
