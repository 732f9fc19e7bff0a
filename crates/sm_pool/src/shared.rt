//! One rotation turn of an account that stands behind a lock.
ghost use Rattle.std.specs.Prelude.{◌≡◌, ◌≤◌, ◌∷◌, ◌++◌, []};
ghost use Rattle.sm_account.specs.Accounts.{base};
ghost use Rattle.sm_lock.specs.Handles.{built_with, mine, number, seen, IsIn};
ghost use Rattle.sm_lock.specs.Story.{Grows};
ghost use Rattle.sm_account.specs.SeatTraces.{marks_in};
ghost use Rattle.sm_rotator.specs.Told.{append_told};
ghost use Rattle.sm_pool.specs.Asking.{DoneAsks};
ghost use Rattle.sm_pool.specs.Holds.{hold_shape};
ghost use Rattle.sm_pool.specs.Turns.{StartDone, TurnDone, WorkDone, asks_of, holds_of};

use crate::asking::ask;
use crate::behind::{
    LookBehind, ReportBehind, StartBehind, look_behind, report_behind, start_behind,
};
use crate::done::{Done, Trouble, done_reported, done_started};
use crate::drawing::{Drawn, draw};
use crate::holds::Found;
use sm_account::Account;
use sm_disk::Disk;
use sm_io::{Clock, Words};
use sm_lock::{Gate, Pass, Storied};
use sm_model::NoMemory;
use sm_rotator::{Rotator, Work};
use std::sync::Wait;

/// What a turn leaves: the pass again, and what it did.
#[derive(Drop)]
pub struct TurnedBy<A: Storied> {
    pub pass: Pass<A>,
    pub done: Done,
}

/// What a turn at an account leaves.
pub type Turned<D: Disk, R: Rotator> = TurnedBy<Account<D, R>>;

/// Does one step of a rotation that is ready: reads the clock, claims the step, leaves the lock, asks the rotator,
/// enters again, reads the clock and reports the answer. Where none is ready, and some rotation is due, it draws the
/// random bytes of a token before it enters again, reads the clock and starts the first that is due for it. It waits.
pub fn rotation_turn<C: Clock, W: Words, D: Disk, R: Rotator, H: Wait>(
    rt: &H,
    gate: &Gate<Account<D, R>>,
    pass: Pass<Account<D, R>>,
    rotator: &mut R,
    clock: &mut C,
    words: &mut W,
) -> TurnedBy<Account<D, R>>
    requires { IsIn gate.now pass }
    ensures gate { IsIn gate.now result.pass }
    ensures number { number result.pass ≡ number pass }

    // What the turn did, one hold after the other. Between them others may have added to the history, but nobody else
    // under this seat: what it has there is what the turn added. The rotator was asked for exactly the work whose step
    // was claimed, once, or for nothing.
    ensures turn { (turn : TurnDone R.replies (base (built_with gate.now)) (Grows (number pass ∷ [])) (number pass)
        (record {
          clock = record { before = C.readings clock.old; after = C.readings clock.new };
          words = record { before = W.drawn words.old; after = W.drawn words.new };
          words_count = record { before = W.faults words.old; after = W.faults words.new };
          rotator_count = record { before = R.faults rotator.old; after = R.faults rotator.new };
        }) (seen pass) (seen result.pass) result.done)
        × (mine result.pass ≡ mine pass ++ marks_in hold_shape (holds_of turn.course))
        × (R.told rotator.new ≡ append_told (R.told rotator.old) (asks_of turn.course)) }

    // So a step that was done was asked for once, and where none was to be done the rotator was not asked.
    ensures asked { DoneAsks result.done (record { before = R.told rotator.old; after = R.told rotator.new }) }

    ensures rotator_later { R.faults rotator.old ≤ R.faults rotator.new }
    ensures words_later { W.faults words.old ≤ W.faults words.new }
{
    let LookBehind { pass, looked } = look_behind(rt, gate, pass, clock);
    match looked.found {
        Found::Work(work) => work_behind(rt, gate, pass, rotator, clock, work),
        Found::Due => draw_behind(rt, gate, pass, clock, words),
        Found::Nothing => TurnedBy {
            pass,
            done: Done::Idle,
        },
        Found::Memory => TurnedBy {
            pass,
            done: Done::Trouble(Trouble::Memory),
        },
    }
}

/// Asks the rotator to do a work whose step is claimed, with no lock held, and reports the answer.
fn work_behind<C: Clock, D: Disk, R: Rotator, H: Wait>(
    rt: &H,
    gate: &Gate<Account<D, R>>,
    pass: Pass<Account<D, R>>,
    rotator: &mut R,
    clock: &mut C,
    work: Work,
) -> TurnedBy<Account<D, R>>
    requires { IsIn gate.now pass }
    ensures gate { IsIn gate.now result.pass }
    ensures number { number result.pass ≡ number pass }
    ensures does { WorkDone R.replies (base (built_with gate.now)) (Grows (number pass ∷ [])) (number pass) work
        (record { before = C.readings clock.old; after = C.readings clock.new })
        (record { before = R.told rotator.old; after = R.told rotator.new })
        (record { before = R.faults rotator.old; after = R.faults rotator.new })
        (seen pass) (seen result.pass) result.done }
    ensures rotator_later { R.faults rotator.old ≤ R.faults rotator.new }
{
    match ask(rotator, work) {
        Ok(verdict) => {
            let ReportBehind { pass, told } = report_behind(rt, gate, pass, clock, &verdict);
            TurnedBy {
                pass,
                done: done_reported(told.reported, verdict),
            }
        }
        Err(NoMemory) => TurnedBy {
            pass,
            done: Done::Trouble(Trouble::Memory),
        },
    }
}

/// Draws the random bytes of a token, with no lock held, and starts the first rotation that is due for it.
fn draw_behind<C: Clock, W: Words, D: Disk, R: Rotator, H: Wait>(
    rt: &H,
    gate: &Gate<Account<D, R>>,
    pass: Pass<Account<D, R>>,
    clock: &mut C,
    words: &mut W,
) -> TurnedBy<Account<D, R>>
    requires { IsIn gate.now pass }
    ensures gate { IsIn gate.now result.pass }
    ensures number { number result.pass ≡ number pass }
    ensures starts { StartDone (base (built_with gate.now)) (Grows (number pass ∷ [])) (number pass)
        (record { before = C.readings clock.old; after = C.readings clock.new })
        (record { before = W.drawn words.old; after = W.drawn words.new })
        (record { before = W.faults words.old; after = W.faults words.new })
        (seen pass) (seen result.pass) result.done }
    ensures words_later { W.faults words.old ≤ W.faults words.new }
{
    match draw(words) {
        Drawn::Bytes(drawn) => {
            let StartBehind { pass, begun } = start_behind(rt, gate, pass, clock, &drawn);
            TurnedBy {
                pass,
                done: done_started(begun.started),
            }
        }
        Drawn::Failed => TurnedBy {
            pass,
            done: Done::Trouble(Trouble::Words),
        },
        Drawn::Memory => TurnedBy {
            pass,
            done: Done::Trouble(Trouble::Memory),
        },
    }
}
