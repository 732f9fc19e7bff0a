//! Requests of a run.
ghost use Rattle.std.specs.Prelude.{◌≡◌, ◌≤◌, length, true, false};
ghost use Rattle.sm_base.specs.declared.moment.TheConstants.{LAST_READING};
ghost use Rattle.sm_model.specs.Needed.{needed};
ghost use Rattle.sm_account.specs.Handling.{HasShortTexts};
ghost use Rattle.sm_account.specs.Accounts as accounts;
ghost use Rattle.sm_drive.specs.Aims.{is_limit, refused_as};
ghost use Rattle.sm_drive.specs.Outcomes.{answered_as, handled_as};
ghost use Rattle.sm_drive.specs.Stepping.{Calls};
ghost use Rattle.sm_drive.specs.declared.call.Call.TheVariants as calls;

use crate::outcome::Outcome;
use crate::run::{Run, place_of};
use sm_account::Handled;
use sm_disk::Disk;
use sm_model::{Moment, Person, Request, Why};
use sm_rotator::Rotator;

/// A person asks.
pub fn handle<D: Disk, R: Rotator>(
    run: &mut Run<D, R>,
    person: &Person,
    now: Moment,
    drawn: &[u8],
    request: &Request,
) -> Outcome
    requires bound { now.0 ≤ LAST_READING }
    requires drawn { length drawn.now ≡ needed request.now }
    requires person { HasShortTexts person.now }
    ensures calls { Calls D.Disk R.Rotator run.old (calls.Handle person.now now drawn.now request.now) result run.new }
    ensures verdicts { run.new.verdicts ≡ run.old.verdicts }
    ensures doors { accounts.doors run.new.account ≡ accounts.doors run.old.account }
{
    let before = run.account.entries();
    let handled = run.account.handle(1, person, now, drawn, request);
    let after = run.account.entries();
    outcome_of(&handled, after > before, place_of(before, run.first))
}

/// The outcome of an answer, where an entry was made or not, which would stand at this place.
fn outcome_of(handled: &Handled, entered: bool, place: u64) -> Outcome
    ensures { result ≡ handled_as entered place handled.now }
{
    match handled {
        Handled::Answered(_) => answered(entered, place),
        Handled::Refused(why) => refused(why),
        Handled::DiskFault => Outcome::DiskFault,
        Handled::Memory => Outcome::Memory,
    }
}

/// The outcome of a reply.
fn answered(entered: bool, place: u64) -> Outcome
    ensures { result ≡ answered_as entered place }
{
    if entered {
        Outcome::Entered(place)
    } else {
        Outcome::Quiet
    }
}

/// The outcome of a refusal.
fn refused(why: &Why) -> Outcome
    ensures { result ≡ refused_as why.now }
{
    if is_limit(why) {
        Outcome::Limit
    } else {
        Outcome::Refused
    }
}

/// Whether a refusal is by a limit.
fn is_limit(why: &Why) -> bool
    ensures { result ≡ is_limit why.now }
{
    matches!(why, Why::Limit(_, _))
}
