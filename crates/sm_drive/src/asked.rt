//! Which calls may be made.
ghost use Rattle.std.specs.Prelude.{◌≤◌, ◌↔◌, IsTrue};
ghost use Rattle.sm_base.specs.declared.moment.TheConstants as readings;
ghost use Rattle.sm_account.specs.Handling.{HasShortTexts};
ghost use Rattle.sm_drive.specs.Asked.{MayBeMade, AllMayBeMade};

use crate::call::Call;
use sm_base::limits::CALLER_LIMIT;
use sm_base::moment::LAST_READING;
use sm_model::{Moment, Person, need};

/// Whether all these calls may be made. It takes no memory.
pub fn all_may_be_made(calls: &[Call]) -> bool
    ensures { IsTrue result ↔ AllMayBeMade calls.now }
{
    for call in calls {
        if !may_be_made(call) {
            return false;
        }
    }
    true
}

/// Whether a call may be made: its moment is one that a clock can give, and a request has as many random bytes as it
/// needs, of a person whose key and ARN have at most 256 bytes each. It takes no memory.
pub fn may_be_made(call: &Call) -> bool
    ensures { IsTrue result ↔ MayBeMade call.now }
{
    match call {
        Call::Handle(person, now, drawn, request) => {
            is_reading(*now) && drawn.len() == need(request) && is_short(person)
        }
        Call::Work(now) => is_reading(*now),
        Call::Report(_, now) => is_reading(*now),
        Call::Due(now, _) => is_reading(*now),
        Call::Restart => true,
    }
}

/// Whether a clock can give this moment.
fn is_reading(now: Moment) -> bool
    ensures { IsTrue result ↔ (now.0 ≤ readings.LAST_READING) }
{
    now.0 <= LAST_READING
}

/// Whether a person's key and ARN can stand with an entry.
fn is_short(person: &Person) -> bool
    ensures { IsTrue result ↔ HasShortTexts person.now }
{
    person.key.len() <= CALLER_LIMIT && person.arn.len() <= CALLER_LIMIT
}
