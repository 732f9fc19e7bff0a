//! One rotation turn of an account that nobody else holds.
ghost use Rattle.std.specs.Prelude.{◌≡◌, ◌≤◌, ◌⊎◌, IsSome};
ghost use Rattle.sm_base.specs.Faults.{Rose};
ghost use Rattle.sm_account.specs.Accounts.{base, disk, failed, history, SameOrigin};
ghost use Rattle.sm_account.specs.SeatTraces.{NoGap};
ghost use Rattle.sm_pool.specs.Alone.{IsStale, OnDisk};
ghost use Rattle.sm_pool.specs.Asking.{DoneAsks};
ghost use Rattle.sm_pool.specs.Turns.{StartDone, TurnAsks, WorkDone};

use crate::asking::ask;
use crate::done::{Done, Trouble, done_reported, done_started};
use crate::drawing::{Drawn, draw};
use crate::holds::{Found, look, report, start};
use sm_account::Account;
use sm_disk::Disk;
use sm_io::{Clock, Words};
use sm_model::NoMemory;
use sm_rotator::{Rotator, Work};

/// Does one step of a rotation that is ready: reads the clock, claims the step, asks the rotator, reads the clock again
/// and reports the answer. Where none is ready, and some rotation is due, it draws the random bytes of a token, reads
/// the clock again and starts the first that is due for it.
pub fn one_turn<C: Clock, W: Words, D: Disk, R: Rotator>(
    account: &mut Account<D, R>,
    seat: u32,
    rotator: &mut R,
    clock: &mut C,
    words: &mut W,
) -> Done
    // What the turn did, one hold after the other, and nothing else came between. The rotator was asked for exactly the
    // work whose step was claimed, once, or for nothing.
    ensures turn { TurnAsks R.replies (base account.old) NoGap seat (record {
      clock = record { before = C.readings clock.old; after = C.readings clock.new };
      words = record { before = W.drawn words.old; after = W.drawn words.new };
      words_count = record { before = W.faults words.old; after = W.faults words.new };
      rotator_count = record { before = R.faults rotator.old; after = R.faults rotator.new };
    }) (record { before = R.told rotator.old; after = R.told rotator.new }) (history account.old)
        (history account.new) result }

    // So a step that was done was asked for once, and where none was to be done the rotator was not asked.
    ensures asked { DoneAsks result (record { before = R.told rotator.old; after = R.told rotator.new }) }

    // No verdict comes too late, since nobody else holds the account.
    ensures never_stale { IsStale result → ⊥ }

    ensures origin { SameOrigin account.old account.new }
    ensures unsure { IsSome (failed account.new) → IsSome (failed account.old)
        ⊎ Rose (D.faults (disk account.old)) (D.faults (disk account.new)) }
    ensures disk { OnDisk result (Rose (D.faults (disk account.old)) (D.faults (disk account.new))) }
    ensures disk_later { D.faults (disk account.old) ≤ D.faults (disk account.new) }
    ensures rotator_later { R.faults rotator.old ≤ R.faults rotator.new }
    ensures words_later { W.faults words.old ≤ W.faults words.new }
{
    let looked = look(account, seat, clock);
    match looked.found {
        Found::Work(work) => do_work(account, seat, rotator, clock, work),
        Found::Due => start_one(account, seat, clock, words),
        Found::Nothing => Done::Idle,
        Found::Memory => Done::Trouble(Trouble::Memory),
    }
}

/// Asks the rotator to do a work whose step is claimed, and reports the answer.
fn do_work<C: Clock, D: Disk, R: Rotator>(
    account: &mut Account<D, R>,
    seat: u32,
    rotator: &mut R,
    clock: &mut C,
    work: Work,
) -> Done
    ensures does { WorkDone R.replies (base account.old) NoGap seat work
        (record { before = C.readings clock.old; after = C.readings clock.new })
        (record { before = R.told rotator.old; after = R.told rotator.new })
        (record { before = R.faults rotator.old; after = R.faults rotator.new })
        (history account.old) (history account.new) result }
    ensures origin { SameOrigin account.old account.new }
    ensures unsure { IsSome (failed account.new) → IsSome (failed account.old)
        ⊎ Rose (D.faults (disk account.old)) (D.faults (disk account.new)) }
    ensures disk { OnDisk result (Rose (D.faults (disk account.old)) (D.faults (disk account.new))) }
    ensures disk_later { D.faults (disk account.old) ≤ D.faults (disk account.new) }
    ensures rotator_later { R.faults rotator.old ≤ R.faults rotator.new }
{
    match ask(rotator, work) {
        Ok(verdict) => {
            let told = report(account, seat, clock, &verdict);
            done_reported(told.reported, verdict)
        }
        Err(NoMemory) => Done::Trouble(Trouble::Memory),
    }
}

/// Draws the random bytes of a token, and starts the first rotation that is due for it.
fn start_one<C: Clock, W: Words, D: Disk, R: Rotator>(
    account: &mut Account<D, R>,
    seat: u32,
    clock: &mut C,
    words: &mut W,
) -> Done
    ensures starts { StartDone (base account.old) NoGap seat
        (record { before = C.readings clock.old; after = C.readings clock.new })
        (record { before = W.drawn words.old; after = W.drawn words.new })
        (record { before = W.faults words.old; after = W.faults words.new })
        (history account.old) (history account.new) result }
    ensures origin { SameOrigin account.old account.new }
    ensures unsure { IsSome (failed account.new) → IsSome (failed account.old)
        ⊎ Rose (D.faults (disk account.old)) (D.faults (disk account.new)) }
    ensures disk { OnDisk result (Rose (D.faults (disk account.old)) (D.faults (disk account.new))) }
    ensures disk_later { D.faults (disk account.old) ≤ D.faults (disk account.new) }
    ensures words_later { W.faults words.old ≤ W.faults words.new }
{
    match draw(words) {
        Drawn::Bytes(drawn) => {
            let begun = start(account, seat, clock, &drawn);
            done_started(begun.started)
        }
        Drawn::Failed => Done::Trouble(Trouble::Words),
        Drawn::Memory => Done::Trouble(Trouble::Memory),
    }
}
