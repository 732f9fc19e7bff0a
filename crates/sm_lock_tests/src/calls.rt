//! What a caller does with any value that can be added to.
ghost use Rattle.std.specs.Prelude.{◌≡◌, ◌≤◌, [], ◌∷◌, ◌++◌, true, false, IfOk, OnOk, OnErr, length};
ghost use Rattle.sm_lock.specs.Story.{Grows};
ghost use Rattle.sm_lock.specs.Handles.{number, seen, mine, IsIn};

use crate::tally::Tally;
use sm_base::{List, NoMemory};
use sm_lock::{BuildRefused, Gate, Held, Note, Pass, Storied};
use std::alloc::Global;
use std::sync::Wait;
use std::thread::{Threads, join};

/// A value to which an entry can be added.
pub trait Adds: Storied {
    /// Adds an entry. Without memory nothing changes.
    fn add(&mut self, seat: u32, entry: Self::Entry) -> Result<(), NoMemory>
        ensures origin { Self.origin self.new ≡ Self.origin self.old }
        ensures ok { OnOk result (Self.story self.new ≡ Self.story self.old ++ (seat, entry) ∷ []) }
        ensures err { OnErr result (Self.story self.new ≡ Self.story self.old) };
}

impl Storied for Tally {
    type Origin = u64;

    type Entry = u64;

    ghost origin = { λ tally. tally.start };

    ghost story = { λ tally. tally.entries.items };

    fn length(&self) -> u64 {
        self.entries.len() as u64
    }
}

impl Adds for Tally {
    fn add(&mut self, seat: u32, entry: u64) -> Result<(), NoMemory> {
        self.put(seat, entry)
    }
}

/// A lock is built and closed again, and the value is as it was.
pub fn build_and_close<T: Storied>(
    alloc: Global,
    value: T,
    count: u32,
) -> Result<T, BuildRefused<T>>
    requires { (1 ≤ count) × (count ≤ 128) }
    ensures origin { IfOk result (λ last. T.origin last ≡ T.origin value) }
    ensures list { IfOk result (λ last. T.story last ≡ T.story value) }
{
    match Gate::build(alloc, value, count) {
        Ok((gate, passes)) => Ok(gate.close(passes)),
        Err(refused) => Err(refused),
    }
}

/// Adds an entry under the pass's seat. True if there was memory for it.
pub fn add<T: Adds, R: Wait>(
    rt: &R,
    gate: &Gate<T>,
    pass: Pass<T>,
    entry: T::Entry,
) -> (Pass<T>, bool)
    requires { IsIn gate.now pass }
    ensures gate { IsIn gate.now result.0 }
    ensures number { number result.0 ≡ number pass }
    ensures seen { Grows [] (seen pass) (seen result.0) }
    ensures added { result.1 ≡ true → mine result.0 ≡ mine pass ++ entry ∷ [] }
    ensures kept { result.1 ≡ false → mine result.0 ≡ mine pass }
{
    let seat = pass.seat();
    let mut held = gate.enter(rt, pass);
    let added = held.value().add(seat, entry).is_ok();
    (gate.leave(held), added)
}
