//! Starts of due rotations of a run.
ghost use Rattle.std.specs.Prelude.{◌≡◌, ◌≤◌};
ghost use Rattle.sm_base.specs.declared.moment.TheConstants.{LAST_READING};
ghost use Rattle.sm_account.specs.Accounts as accounts;
ghost use Rattle.sm_drive.specs.Outcomes.{started_as};
ghost use Rattle.sm_drive.specs.Stepping.{Calls};
ghost use Rattle.sm_drive.specs.declared.call.Call.TheVariants as calls;

use crate::outcome::Outcome;
use crate::run::{Run, place_of};
use sm_account::StartedDue;
use sm_disk::Disk;
use sm_model::Moment;
use sm_rotator::Rotator;

/// Starts the first rotation that is due.
pub fn start_due<D: Disk, R: Rotator>(run: &mut Run<D, R>, now: Moment, drawn: &[u8; 16]) -> Outcome
    requires { now.0 ≤ LAST_READING }
    ensures calls { Calls D.Disk R.Rotator run.old (calls.Due now drawn.now) result run.new }
    ensures verdicts { run.new.verdicts ≡ run.old.verdicts }
    ensures doors { accounts.doors run.new.account ≡ accounts.doors run.old.account }
{
    let next = place_of(run.account.entries(), run.first);
    outcome_of(&run.account.start_due(1, now, drawn), next)
}

/// The outcome of a start, whose entry would stand at this place.
fn outcome_of(started: &StartedDue, place: u64) -> Outcome
    ensures { result ≡ started_as place started.now }
{
    match started {
        StartedDue::Started(_) => Outcome::Entered(place),
        StartedDue::None => Outcome::Nothing,
        StartedDue::Limit(_) => Outcome::Limit,
        StartedDue::DiskFault => Outcome::DiskFault,
        StartedDue::Memory => Outcome::Memory,
    }
}
