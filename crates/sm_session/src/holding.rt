//! One hold of an account's lock.
ghost use Rattle.std.specs.Prelude.{◌≡◌, ◌≤◌, [], ◌∷◌, length};
ghost use Rattle.sm_account.specs.Handling.{HasShortTexts};
ghost use Rattle.std.specs.Io.KnownBytes.{append_known};
ghost use Rattle.sm_model.specs.Needed.{needed};
ghost use Rattle.sm_account.specs.Accounts.{base};
ghost use Rattle.sm_lock.specs.Handles.{built_with, number, seen, IsIn};
ghost use Rattle.sm_session.specs.Sessions.{Holds};

use sm_account::{Account, Handled, TestedRequest};
use sm_disk::Disk;
use sm_io::Clock;
use sm_lock::{Gate, Pass, Storied};
use sm_model::{Moment, Person};
use sm_rotator::Rotator;
use std::sync::Wait;

/// What a hold leaves: the pass again, what became of the request, what the clock read, and how long the history was.
pub(crate) struct Hold<A: Storied> {
    pub pass: Pass<A>,
    pub handled: Handled,
    pub now: Moment,
    pub position: u64,
}

/// Waits for the account, reads the clock, and has a request of a person handled with the random bytes that were drawn
/// for it. The lock is left before a reply is made.
pub(crate) fn hold_once<D: Disk, R: Rotator, C: Clock, H: Wait>(
    rt: &H,
    gate: &Gate<Account<D, R>>,
    pass: Pass<Account<D, R>>,
    clock: &mut C,
    person: &Person,
    drawn: &[u8],
    tested: TestedRequest<'_>,
) -> Hold<Account<D, R>>
    requires gate { IsIn gate.now pass }
    requires drawn { length drawn.now ≡ needed tested.request.now }
    requires person { HasShortTexts person.now }
    ensures gate { IsIn gate.now result.pass }
    ensures number { number result.pass ≡ number pass }
    ensures told { C.readings clock.new ≡ append_known (C.readings clock.old) (result.now.0 ∷ []) }
    ensures holds { (held : Holds (base (built_with gate.now)) (number pass) (record {
      person = person.now;
      now = result.now;
      drawn = drawn.now;
      request = tested.entry.request.now;
    }) (seen pass) (seen result.pass) result.handled)
        × (result.position ≡ length held.before) }
{
    let seat = pass.seat();
    let mut held = gate.enter(rt, pass);
    let position = held.value().length();
    let now = clock.now();
    let handled = held.value().handle_tested(seat, person, now, drawn, tested);
    Hold {
        pass: gate.leave(held),
        handled,
        now,
        position,
    }
}
