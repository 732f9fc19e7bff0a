//! Rounds in which one holds the value while two others wait for it, so that each of them has to be woken.
ghost use Rattle.std.specs.Prelude.{◌≡◌, ◌∷◌, [], All, length};
ghost use Rattle.sm_lock.specs.Handles.{IsIn};

use crate::calls::{Adds, add};
use crate::notes::{put_together, take_apart};
use crate::tally::Tally;
use sm_lock::{BuildRefused, Gate, Pass};
use std::alloc::Global;
use std::sync::Wait;
use std::sync::atomic::{AtomicU64, Ordering};
use std::thread;
use std::thread::{Threads, join};
use std::time::{Clock, Duration};

/// How many microseconds one holds the value in each round, so that the others come to sleep.
const HELD: u64 = 20;

/// How many milliseconds there are new rounds.
const LASTING: u128 = 2_000;

/// What stands for the number of rounds once there is no other.
const OVER: u64 = u64::MAX;

/// How many rounds were opened, and how often one of the two that wait had its turn.
#[derive(Drop)]
pub struct Rounds {
    opened: AtomicU64,
    turns: AtomicU64,
}

/// Returns once the word is at least so much.
fn await_word<R: Wait>(rt: &R, word: &AtomicU64, least: u64) {
    for _ in rt.forever() {
        if word.load(Ordering::SeqCst) >= least {
            return;
        }
    }
}

/// How many milliseconds the system counts, and none where it can't tell.
fn milliseconds<R: Clock>(rt: &R) -> u128 {
    match rt.monotonic() {
        Ok(since) => since.as_millis(),
        Err(_) => 0,
    }
}

/// In each round it enters, opens the round, holds the value for a while, leaves it as it was, and sees that both
/// others
/// had their turn. There are at most so many rounds.
fn hold<T: Adds, R: Wait + Clock>(
    rt: &R,
    gate: &Gate<T>,
    mut pass: Pass<T>,
    rounds: &Rounds,
    times: u32,
) -> Pass<T>
    requires { IsIn gate.now pass }
    ensures { IsIn gate.now result }
{
    let start = milliseconds(rt);
    for round in 0..times {
        let held = gate.enter(rt, pass);
        rounds.opened.fetch_add(1, Ordering::SeqCst);
        thread::sleep(rt, Duration::from_micros(HELD));
        pass = gate.leave(held);
        await_word(rt, &rounds.turns, 2 * (round as u64 + 1));
        if milliseconds(rt).saturating_sub(start) > LASTING {
            break;
        }
    }
    rounds.opened.store(OVER, Ordering::SeqCst);
    pass
}

/// In each round it waits for the value, and adds an entry. Whether there was memory for it is not said.
fn wait<T: Adds, R: Wait>(
    rt: &R,
    gate: &Gate<T>,
    mut pass: Pass<T>,
    entry: T::Entry,
    rounds: &Rounds,
    times: u32,
) -> Pass<T>
where
    T::Entry: Copy,
    requires { IsIn gate.now pass }
    ensures { IsIn gate.now result }
{
    for round in 0..times {
        await_word(rt, &rounds.opened, round as u64 + 1);
        if rounds.opened.load(Ordering::SeqCst) == OVER {
            break;
        }
        pass = add(rt, gate, pass, entry).0;
        rounds.turns.fetch_add(1, Ordering::SeqCst);
    }
    pass
}

/// The two that wait, each in a thread of its own.
fn both_wait<R: Threads + Wait + Sync>(
    rt: &R,
    gate: &Gate<Tally>,
    passes: (Pass<Tally>, Pass<Tally>),
    rounds: &Rounds,
    times: u32,
) -> (Pass<Tally>, Pass<Tally>)
    requires { IsIn gate.now passes.0 × IsIn gate.now passes.1 }
    ensures { IsIn gate.now result.0 × IsIn gate.now result.1 }
{
    let (two, three) = passes;
    join(
        rt,
        move ||
            requires { IsIn gate.now two }
            ensures { IsIn gate.entry.now result }
        { wait(rt, gate, two, 1, rounds, times) },
        move ||
            requires { IsIn gate.now three }
            ensures { IsIn gate.entry.now result }
        { wait(rt, gate, three, 1, rounds, times) },
    )
}

/// Three threads and at most so many rounds, and how many turns the two that wait had. It ends only if each that waits
/// is
/// woken.
pub fn all_are_woken<R: Threads + Wait + Clock + Sync>(
    rt: &R,
    alloc: Global,
    value: Tally,
    times: u32,
) -> Result<(Tally, u64), BuildRefused<Tally>> {
    let (gate, passes) = Gate::build(alloc, value, 3)?;
    let (one, two, three, room) = take_apart(passes);
    let rounds = &Rounds {
        opened: AtomicU64::new(0),
        turns: AtomicU64::new(0),
    };
    let shared = &gate;
    let others = (two, three);
    let (one, (two, three)) = join(
        rt,
        move ||
            requires { IsIn shared.now one }
            ensures { IsIn shared.entry.now result }
        { hold(rt, shared, one, rounds, times) },
        move ||
            requires { IsIn shared.now others.0 × IsIn shared.now others.1 }
            ensures { IsIn shared.entry.now result.0 × IsIn shared.entry.now result.1 }
        { both_wait(rt, shared, others, rounds, times) },
    );
    let tally = gate.close(put_together(one, two, three, room));
    Ok((tally, rounds.turns.load(Ordering::SeqCst)))
}
