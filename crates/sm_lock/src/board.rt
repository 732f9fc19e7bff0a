//! The table that all seats of a lock share: three words, a flag for each ticket that may be out, and one slot, which
//! holds the value. It lies in a block of its own, so that a turn moves its place and not all of it.
use crate::storied::Storied;
use crate::view::View;
use atomic_table::{Seat, Table, TableRule};
use std::alloc::Global;
use std::snapshot::Snapshot;

/// Counts the tickets that were drawn, modulo 2^64.
pub(crate) const TICKET: usize = 0;

/// Counts the tickets that were served, modulo 2^64.
pub(crate) const SERVING: usize = 1;

/// Counts the entries of the value's list.
pub(crate) const COUNT: usize = 2;

/// The flag of ticket 0; those of the next tickets stand behind it.
pub(crate) const FIRST_FLAG: usize = 3;

/// How many flags there are, as many as there may be seats: so the tickets that are out at one time have a flag each.
pub(crate) const FLAGS: usize = 128;

/// A flag that is up: who has the ticket may be parked on it.
pub(crate) const UP: u64 = 1;

/// A flag that is down.
pub(crate) const DOWN: u64 = 0;

/// What is fixed when a lock is built. The value is remembered for proofs alone.
#[derive(Drop)]
pub struct Key<T> {
    pub built: Snapshot<T>,
    pub seats: u32,
}

/// The rule of the table.
pub struct Counting;

impl<T: Storied> TableRule<Option<Box<T>>, View<T::Origin, T::Entry>, Key<T>> for Counting {
    ghost use Rattle.sm_lock.specs.Boxed.{boxed};
    ghost use Rattle.sm_lock.specs.Rule.{Counted};
    ghost use Rattle.sm_lock.specs.View.{first_view};

    ghost holds = { λ key. Counted (boxed T.origin) (boxed T.story) (T.origin key.built.value)
        (T.story key.built.value) key.seats };

    ghost first = { λ key. first_view (T.origin key.built.value) (T.story key.built.value) };
}

/// The table of one lock.
pub type Board<T: Storied> = Table<
    Option<Box<T>>,
    View<T::Origin, T::Entry>,
    Key<T>,
    Counting,
    Global,
>;

/// One seat at it. It has no bytes.
pub type Place<T: Storied> = Seat<Option<Box<T>>, View<T::Origin, T::Entry>>;
