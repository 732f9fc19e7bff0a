//! The worker that takes rotation turns.
ghost use Rattle.std.specs.Prelude.{◌≡◌, ◌≤◌, ◌∷◌, [], true};
ghost use Rattle.sm_account.specs.Accounts.{base};
ghost use Rattle.sm_lock.specs.Handles.{built_with, number, seen, IsIn};
ghost use Rattle.sm_lock.specs.Story.{Grows};
ghost use Rattle.sm_pool.specs.Rounds.{ComesToRest};
ghost use Rattle.sm_workers.specs.RotationWorkers.{RotationWorkerDid};
ghost use Rattle.sm_session.specs.Views.{local_state_by};

use sm_account::Account;
use sm_disk::Disk;
use sm_io::{Clock, Words};
use sm_lock::{Gate, Pass, Storied};
use sm_pool::{Done, TurnedBy, rotation_turn};
use sm_rotator::Rotator;
use std::sync::Wait;

/// Takes rotation turns one after the other, until there is nothing to do, or one cannot go on, and no door is open.
pub(crate) fn take_turns<C: Clock, W: Words, D: Disk, R: Rotator, H: Wait>(
    rt: &H,
    gate: &Gate<Account<D, R>>,
    pass: Pass<Account<D, R>>,
    rotator: &mut R,
    clock: &mut C,
    words: &mut W,
) -> Pass<Account<D, R>>
    requires { IsIn gate.now pass }
    ensures gate { IsIn gate.now result }
    ensures number { number result ≡ number pass }
    ensures did { RotationWorkerDid R.replies (record { base = base (built_with gate.now); seat = number pass })
        (record {
          own = local_state_by C.Clock W.Words (seen pass) clock.old words.old;
          rotator = R.faults rotator.old;
        })
        (record {
          own = local_state_by C.Clock W.Words (seen result) clock.new words.new;
          rotator = R.faults rotator.new;
        }) }
{
    let mut pass = pass;
    for _ in rt.forever() {
        let TurnedBy { pass: turned, done } = rotation_turn(rt, gate, pass, rotator, clock, words);
        let Behind { pass: after, ends } = rest(rt, gate, turned, clock, done);
        pass = after;
        if ends {
            return pass;
        }
    }
    unreachable!()
}

/// What a rotation worker does behind a turn leaves: the pass again, and whether the rotation worker ends.
struct Behind<A: Storied> {
    pass: Pass<A>,
    ends: bool,
}

/// Rests behind a turn. Where it made an entry, another follows at once; where a verdict came too late, it pauses.
/// Where there was nothing to do, or one could not go on, it ends if no door is open, and else pauses too.
fn rest<C: Clock, D: Disk, R: Rotator, H: Wait>(
    rt: &H,
    gate: &Gate<Account<D, R>>,
    pass: Pass<Account<D, R>>,
    clock: &mut C,
    done: Done,
) -> Behind<Account<D, R>>
    requires { IsIn gate.now pass }
    ensures gate { IsIn gate.now result.pass }
    ensures number { number result.pass ≡ number pass }
    ensures seen { Grows (number pass ∷ []) (seen pass) (seen result.pass) }
    ensures readings { C.readings clock.new ≡ C.readings clock.old }
    ensures ends { result.ends ≡ true → ComesToRest done }
{
    match done {
        Done::Did(_, _) => Behind { pass, ends: false },
        Done::Started(_) => Behind { pass, ends: false },
        Done::Stale(_) => {
            clock.pause();
            Behind { pass, ends: false }
        }
        Done::Idle => look_on(rt, gate, pass, clock),
        Done::Trouble(_) => look_on(rt, gate, pass, clock),
    }
}

/// Ends where no door is open, and else pauses.
fn look_on<C: Clock, D: Disk, R: Rotator, H: Wait>(
    rt: &H,
    gate: &Gate<Account<D, R>>,
    pass: Pass<Account<D, R>>,
    clock: &mut C,
) -> Behind<Account<D, R>>
    requires { IsIn gate.now pass }
    ensures gate { IsIn gate.now result.pass }
    ensures number { number result.pass ≡ number pass }
    ensures seen { Grows (number pass ∷ []) (seen pass) (seen result.pass) }
    ensures readings { C.readings clock.new ≡ C.readings clock.old }
{
    let (pass, open) = see_open_doors(rt, gate, pass);
    if open {
        clock.pause();
        return Behind { pass, ends: false };
    }
    Behind { pass, ends: true }
}

/// Waits for the account, and sees whether a door of it is open.
fn see_open_doors<D: Disk, R: Rotator, H: Wait>(
    rt: &H,
    gate: &Gate<Account<D, R>>,
    pass: Pass<Account<D, R>>,
) -> (Pass<Account<D, R>>, bool)
    requires { IsIn gate.now pass }
    ensures gate { IsIn gate.now result.0 }
    ensures number { number result.0 ≡ number pass }
    ensures seen { Grows (number pass ∷ []) (seen pass) (seen result.0) }
{
    let mut held = gate.enter(rt, pass);
    let doors = held.value().open_doors();
    (gate.leave(held), doors > 0)
}
