//! Reports of a run.
ghost use Rattle.std.specs.Prelude.{◌≡◌, ◌≤◌};
ghost use Rattle.sm_base.specs.declared.moment.TheConstants.{LAST_READING};
ghost use Rattle.sm_account.specs.Accounts as accounts;
ghost use Rattle.sm_drive.specs.Outcomes.{reported_as};
ghost use Rattle.sm_drive.specs.Stepping.{Calls};
ghost use Rattle.sm_drive.specs.declared.call.Call.TheVariants as calls;

use crate::outcome::Outcome;
use crate::run::{Run, place_of};
use sm_account::Reported;
use sm_disk::Disk;
use sm_model::Moment;
use sm_rotator::Rotator;

/// Reports the verdict of this number, if there is one.
pub fn report<D: Disk, R: Rotator>(run: &mut Run<D, R>, place: usize, now: Moment) -> Outcome
    requires { now.0 ≤ LAST_READING }
    ensures calls { Calls D.Disk R.Rotator run.old (calls.Report place now) result run.new }
    ensures verdicts { run.new.verdicts ≡ run.old.verdicts }
    ensures doors { accounts.doors run.new.account ≡ accounts.doors run.old.account }
{
    let next = place_of(run.account.entries(), run.first);
    match run.verdicts.get(place) {
        Some(verdict) => outcome_of(&run.account.report(1, now, verdict), next),
        None => Outcome::Nothing,
    }
}

/// The outcome of a report, whose entry would stand at this place.
fn outcome_of(reported: &Reported, place: u64) -> Outcome
    ensures { result ≡ reported_as place reported.now }
{
    match reported {
        Reported::Moved => Outcome::Entered(place),
        Reported::Stale(_) => Outcome::Stale,
        Reported::Limit(_) => Outcome::Limit,
        Reported::DiskFault => Outcome::DiskFault,
        Reported::Memory => Outcome::Memory,
    }
}
