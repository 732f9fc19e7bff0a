//! Two threads that add under one lock.
ghost use Rattle.std.specs.Prelude.{◌≡◌, ◌≤◌, [], ◌∷◌, true, IfOk, All, map, length, drop, vec_len, vec_capacity};
ghost use Rattle.sm_lock.specs.Story.{entries_of};
ghost use Rattle.sm_lock.specs.Handles.{built_with, seats, number, mine, IsIn};

use crate::calls::{Adds, add};
use sm_base::List;
use sm_lock::{BuildRefused, Gate, Pass, Storied};
use std::alloc::Global;
use std::sync::Wait;
use std::thread::{Threads, join};

/// The two passes of a list, and the room that it leaves.
fn take_apart<T: Storied>(passes: List<Pass<T>>) -> (Pass<T>, Pass<T>, Vec<Pass<T>>)
    requires { length passes ≡ 2 }
    ensures passes { passes ≡ result.0 ∷ result.1 ∷ [] }
    ensures room { (vec_len result.2 ≡ 0) × (2 ≤ vec_capacity result.2) }
{
    let mut room = passes.into_vec();
    let Some(second) = room.pop() else {
        unreachable!()
    };
    let Some(first) = room.pop() else {
        unreachable!()
    };
    (first, second, room)
}

/// The two passes, in a list with room for them.
fn put_together<T: Storied>(
    first: Pass<T>,
    second: Pass<T>,
    mut room: Vec<Pass<T>>,
) -> List<Pass<T>>
    requires { (vec_len room ≡ 0) × (2 ≤ vec_capacity room) }
    ensures { result ≡ first ∷ second ∷ [] }
{
    room.push_reserved(first);
    room.push_reserved(second);
    List::new(room)
}

/// Two threads add an entry each, and the lock is closed. True for each that had memory for it.
fn both_add<T: Adds + Send, R: Threads + Wait + Sync>(
    rt: &R,
    gate: Gate<T>,
    passes: List<Pass<T>>,
    first: T::Entry,
    second: T::Entry,
) -> (T, bool, bool)
where
    T::Entry: Send + Drop,
    requires two { (length passes ≡ 2) × (seats gate ≡ 2) × (map number passes ≡ 1 ∷ 2 ∷ []) }
    requires new { All (λ pass. IsIn gate pass × (mine pass ≡ [])) passes }
    ensures { result.1 ≡ true → result.2 ≡ true
        → let more = drop (length (T.story (built_with gate))) (T.story result.0) in
        (entries_of 1 more ≡ first ∷ []) × (entries_of 2 more ≡ second ∷ []) × (length more ≡ 2) }
{
    let (one, two, room) = take_apart(passes);
    let shared = &gate;
    let ((one, is_first), (two, is_second)) = join(
        rt,
        move ||
            requires { IsIn shared.now one × (number one ≡ 1) × (mine one ≡ []) }
            ensures { IsIn shared.entry.now result.0 × (number result.0 ≡ 1)
                × (result.1 ≡ true → mine result.0 ≡ first ∷ []) }
        { add(rt, shared, one, first) },
        move ||
            requires { IsIn shared.now two × (number two ≡ 2) × (mine two ≡ []) }
            ensures { IsIn shared.entry.now result.0 × (number result.0 ≡ 2)
                × (result.1 ≡ true → mine result.0 ≡ second ∷ []) }
        { add(rt, shared, two, second) },
    );
    let value = gate.close(put_together(one, two, room));
    (value, is_first, is_second)
}

/// A lock for two seats, each of which adds an entry in a thread of its own. Where there was memory for both,
/// the list has these two more, one of each seat, and no other.
pub fn both<T: Adds + Send, R: Threads + Wait + Sync>(
    rt: &R,
    alloc: Global,
    value: T,
    first: T::Entry,
    second: T::Entry,
) -> Result<(T, bool, bool), BuildRefused<T>>
where
    T::Entry: Send + Drop,
    ensures { IfOk result (λ r. r.1 ≡ true → r.2 ≡ true
        → let more = drop (length (T.story value)) (T.story r.0) in
        (entries_of 1 more ≡ first ∷ []) × (entries_of 2 more ≡ second ∷ []) × (length more ≡ 2)) }
{
    match Gate::build(alloc, value, 2) {
        Ok((gate, passes)) => Ok(both_add(rt, gate, passes, first, second)),
        Err(refused) => Err(refused),
    }
}
