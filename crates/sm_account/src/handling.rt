//! Handling a request at the account.
ghost use Rattle.std.specs.Prelude.{◌≡◌, ◌≤◌, length};
ghost use Rattle.sm_base.specs.declared.moment.TheConstants.{LAST_READING};
ghost use Rattle.sm_model.specs.Needed.{needed};
ghost use Rattle.sm_account.specs.AccountState.{Kept, state_in};
ghost use Rattle.sm_account.specs.Growing.{HasCapacity};
ghost use Rattle.sm_account.specs.Handling.{Handles, HasShortTexts, LimitsAside};
ghost use Rattle.sm_account.specs.Outcome.{limit_passed, outcome, outcome_within};

use crate::account_state::AccountState;
use crate::considering::consider;
use crate::due::Due;
use crate::entering::{Entered, enter_due};
use crate::growing::grow_request;
use crate::handled::Handled;
use crate::tested::TestedRequest;
use sm_core::Judged;
use sm_disk::Disk;
use sm_model::{Moment, Person, Reply, Why};
use sm_table::Block;

/// Answers a request of a person at a reading of the clock, with the random bytes that were drawn for it.
pub fn handle<D: Disk>(
    inner: &mut AccountState<D>,
    seat: u32,
    person: &Person,
    now: Moment,
    drawn: &[u8],
    tested: TestedRequest<'_>,
) -> Handled
    requires kept { Kept D.Disk inner.old }
    requires bound { now.0 ≤ LAST_READING }
    requires drawn { length drawn.now ≡ needed tested.request.now }
    requires person { HasShortTexts person.now }
    ensures kept { Kept D.Disk inner.new }
    ensures handles { Handles D.Disk inner.old inner.new seat result (outcome (state_in inner.old) (record {
      person = person.now;
      now = now;
      drawn = drawn.now;
      request = tested.entry.request.now;
    })) }
{
    let moment = Moment(inner.last.0.max(now.0));
    let request = tested.request;
    match consider(inner.alloc, &inner.table, person, moment, drawn, tested) {
        Judged::Accept(reply, change) => match change {
            None => Handled::Answered(reply),
            Some(change) => match grow_request(inner, person, moment, drawn, request, change) {
                Ok(due) => finish(inner, seat, reply, due),
                Err(_) => Handled::Memory,
            },
        },
        Judged::Refuse(why) => Handled::Refused(why),
        Judged::Memory => Handled::Memory,
    }
}

/// Makes an entry for which all memory is there, unless it would pass a limit, and answers with the reply.
fn finish<D: Disk>(inner: &mut AccountState<D>, seat: u32, reply: Block<Reply>, due: Due) -> Handled
    requires kept { Kept D.Disk inner.old }
    requires due { LimitsAside inner.old due }
    requires room { HasCapacity inner.old }
    ensures kept { Kept D.Disk inner.new }
    ensures handles { Handles D.Disk inner.old inner.new seat result
        (outcome_within (limit_passed (state_in inner.old) due.entry) reply due.entry) }
{
    match enter_due(inner, seat, due) {
        Entered::Made => Handled::Answered(reply),
        Entered::Over(passed) => Handled::Refused(Why::Limit(passed.limit, passed.what)),
        Entered::DiskFault => Handled::DiskFault,
    }
}
