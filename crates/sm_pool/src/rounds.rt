//! The rotation turns behind a message, on an account that nobody else holds.
ghost use Rattle.std.specs.Prelude.{◌≡◌, ◌≤◌, ◌⊎◌, IsSome};
ghost use Rattle.std.specs.Io.KnownBytes.{append_known};
ghost use Rattle.sm_base.specs.Faults.{Rose};
ghost use Rattle.sm_account.specs.Accounts.{base, disk, failed, history, SameOrigin};
ghost use Rattle.sm_rotator.specs.Told.{append_told};
ghost use Rattle.sm_pool.specs.Rounds.{Rotated, Round, asks_in, courses_in, drawn_in, goes_on, readings_in};

use crate::alone::one_turn;
use crate::done::Done;
use sm_account::Account;
use sm_disk::Disk;
use sm_io::{Clock, Words};
use sm_rotator::Rotator;

/// How many turns are taken one after the other at most.
pub const TURN_LIMIT: usize = 100;

/// Takes rotation turns one after the other, until there is nothing to do, one cannot go on, or as many were taken as
/// are taken at most.
pub fn turns<C: Clock, W: Words, D: Disk, R: Rotator>(
    account: &mut Account<D, R>,
    seat: u32,
    rotator: &mut R,
    clock: &mut C,
    words: &mut W,
)
    ensures rotated { (round : Round)
        × (C.readings clock.new ≡ append_known (C.readings clock.old) (readings_in (courses_in round)))
        × (W.drawn words.new ≡ append_known (W.drawn words.old) (drawn_in (courses_in round)))
        × Rotated R.replies (base account.old) seat
        (record {
          history = history account.old;
          counts = record {
            disk = D.faults (disk account.old);
            words = W.faults words.old;
            rotator = R.faults rotator.old;
          };
        })
        round
        (record {
          history = history account.new;
          counts = record {
            disk = D.faults (disk account.new);
            words = W.faults words.new;
            rotator = R.faults rotator.new;
          };
        })
        × (R.told rotator.new ≡ append_told (R.told rotator.old) (asks_in (courses_in round))) }
    ensures origin { SameOrigin account.old account.new }
    ensures unsure { IsSome (failed account.new) → IsSome (failed account.old)
        ⊎ Rose (D.faults (disk account.old)) (D.faults (disk account.new)) }
    ensures disk_later { D.faults (disk account.old) ≤ D.faults (disk account.new) }
    ensures rotator_later { R.faults rotator.old ≤ R.faults rotator.new }
    ensures words_later { W.faults words.old ≤ W.faults words.new }
{
    for number in 0..TURN_LIMIT {
        let done = one_turn(account, seat, rotator, clock, words);
        if !goes_on(&done) {
            return;
        }
    }
}

/// Whether a turn made an entry, so that another follows.
fn goes_on(done: &Done) -> bool
    ensures { result ≡ goes_on done.now }
{
    match done {
        Done::Did(_, _) => true,
        Done::Started(_) => true,
        Done::Idle => false,
        Done::Stale(_) => false,
        Done::Trouble(_) => false,
    }
}
