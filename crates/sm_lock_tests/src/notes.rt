//! A note that goes from one owner of a pass to another.
ghost use Rattle.std.specs.Prelude.{◌≡◌, ◌≤◌, ◌<◌, [], ◌∷◌, ◌++◌, true, IfOk, length, vec_len, vec_capacity};
ghost use Rattle.sm_lock.specs.Story.{Grows};
ghost use Rattle.sm_lock.specs.Handles.{built_with, number, seen, mine, entered, holder, IsIn, IsOutOf};

use crate::calls::{Adds, add};
use sm_base::List;
use sm_lock::{BuildRefused, Gate, Held, Pass, Storied};
use std::alloc::Global;
use std::sync::Wait;

/// The three passes of a list, and the room that it leaves.
pub(crate) fn take_apart<T: Storied>(
    passes: List<Pass<T>>,
) -> (Pass<T>, Pass<T>, Pass<T>, Vec<Pass<T>>)
    requires { length passes ≡ 3 }
    ensures passes { passes ≡ result.0 ∷ result.1 ∷ result.2 ∷ [] }
    ensures room { (vec_len result.3 ≡ 0) × (3 ≤ vec_capacity result.3) }
{
    let mut room = passes.into_vec();
    let Some(third) = room.pop() else {
        unreachable!()
    };
    let Some(second) = room.pop() else {
        unreachable!()
    };
    let Some(first) = room.pop() else {
        unreachable!()
    };
    (first, second, third, room)
}

/// The three passes, in a list with room for them.
pub(crate) fn put_together<T: Storied>(
    first: Pass<T>,
    second: Pass<T>,
    third: Pass<T>,
    mut room: Vec<Pass<T>>,
) -> List<Pass<T>>
    requires { (vec_len room ≡ 0) × (3 ≤ vec_capacity room) }
    ensures { result ≡ first ∷ second ∷ third ∷ [] }
{
    room.push_reserved(first);
    room.push_reserved(second);
    room.push_reserved(third);
    List::new(room)
}

/// One owner adds an entry and tells another, who hears and enters: the value's list has all that the first one saw.
pub fn tell_another<T: Adds, R: Wait>(
    rt: &R,
    gate: &Gate<T>,
    one: Pass<T>,
    other: Pass<T>,
    entry: T::Entry,
) -> (Pass<T>, Held<T>, bool)
    requires { IsIn gate.now one × IsIn gate.now other }
    ensures gate { IsIn gate.now result.0 × IsOutOf gate.now result.1 }
    ensures value { (T.origin result.1.value.value ≡ T.origin (built_with gate.now))
        × (entered result.1 ≡ T.story result.1.value.value) }
    ensures numbers { (number result.0 ≡ number one) × (holder result.1 ≡ number other) }
    ensures added { result.2 ≡ true → mine result.0 ≡ mine one ++ entry ∷ [] }
    ensures heard { Grows [] (seen result.0) (T.story result.1.value.value) }
{
    let (one, added) = add(rt, gate, one, entry);
    let (one, note) = gate.tell(one);
    let other = gate.hear(other, note);
    (one, gate.enter(rt, other), added)
}

/// A lock for three seats: the first adds an entry and tells, the third hears and enters. It answers the value in the
/// end, whether there was memory for the entry, and how long the list was when the third one entered.
pub fn tell_the_third<T: Adds, R: Wait>(
    rt: &R,
    alloc: Global,
    value: T,
    entry: T::Entry,
) -> Result<(T, bool, u64), BuildRefused<T>>
where
    T::Entry: Drop,
    ensures { IfOk result (λ r. r.1 ≡ true → length (T.story value) < r.2) }
{
    let (gate, passes) = Gate::build(alloc, value, 3)?;
    let (one, two, three, room) = take_apart(passes);
    let (one, mut held, added) = tell_another(rt, &gate, one, three, entry);
    let found = held.value().length();
    let three = gate.leave(held);
    let value = gate.close(put_together(one, two, three, room));
    Ok((value, added, found))
}
