//! One request's turn at an account.
ghost use Rattle.std.specs.Prelude.{◌≡◌, ◌≤◌, ◌⊎◌, ◌++◌, List, length, IsSome};
ghost use Rattle.sm_account.specs.Handling.{HasShortTexts};
ghost use Rattle.sm_base.specs.Faults.{Rose};
ghost use Rattle.sm_base.specs.declared.moment.TheConstants.{LAST_READING};
ghost use Rattle.sm_model.specs.declared.entry.Mark.{Mark};
ghost use Rattle.sm_model.specs.Needed.{needed};
ghost use Rattle.sm_account.specs.Accounts.{history, base, disk, failed, SameOrigin};
ghost use Rattle.sm_account.specs.History.{by_seat};
ghost use Rattle.sm_session.specs.Answer.{answer_asked};
ghost use Rattle.sm_session.specs.Replies.{reply_of};
ghost use Rattle.sm_session.specs.Turns.{AnswersBy};

use crate::said::Said;
use crate::saying::say_handled;
use sm_account::Account;
use sm_disk::Disk;
use sm_model::{Moment, Person, Request};
use sm_rotator::Rotator;
use std::alloc::Global;

/// Answers a request of a person at a reading of the clock, with the random bytes that were drawn for it.
pub fn turn<D: Disk, R: Rotator>(
    alloc: Global,
    account: &mut Account<D, R>,
    seat: u32,
    person: &Person,
    now: Moment,
    drawn: &[u8],
    request: &Request,
) -> Said
    requires bound { now.0 ≤ LAST_READING }
    requires drawn { length drawn.now ≡ needed request.now }
    requires person { HasShortTexts person.now }
    ensures turn { (marks : List Mark)
        × AnswersBy (Rose (D.faults (disk account.old)) (D.faults (disk account.new)))
        (answer_asked (base account.old) (history account.old) now.0 drawn.now
        (record { person = person.now; request = request.now })) (reply_of result) marks
        × (history account.new ≡ history account.old ++ by_seat seat marks) }
    ensures origin { SameOrigin account.old account.new }
    ensures unsure { IsSome (failed account.new) → IsSome (failed account.old)
        ⊎ Rose (D.faults (disk account.old)) (D.faults (disk account.new)) }
    ensures later { D.faults (disk account.old) ≤ D.faults (disk account.new) }
{
    let handled = account.handle(seat, person, now, drawn, request);
    say_handled(alloc, handled)
}
