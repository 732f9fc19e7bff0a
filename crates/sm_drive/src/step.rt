//! One call of a run.
ghost use Rattle.std.specs.Prelude.{◌≡◌, ◌≤◌, IfOk, IfErr};
ghost use Rattle.sm_account.specs.Accounts as accounts;
ghost use Rattle.sm_drive.specs.Asked.{MayBeMade};
ghost use Rattle.sm_drive.specs.Askings.{AsksIn, askings};
ghost use Rattle.sm_drive.specs.Refused.{IsRefusedAt};
ghost use Rattle.sm_drive.specs.RunInvariant.{Stands};
ghost use Rattle.sm_drive.specs.Stepping.{Calls};

use crate::call::Call;
use crate::due::start_due;
use crate::handling::handle;
use crate::outcome::Outcome;
use crate::report::report;
use crate::restart::restart;
use crate::run::Run;
use crate::work::work;
use sm_account::OpenRefused;
use sm_disk::Disk;
use sm_rotator::Rotator;
use std::alloc::Global;

/// Makes a call. A restart that is refused hands the disk back.
pub fn step<D: Disk, R: Rotator>(
    alloc: Global,
    run: Run<D, R>,
    rotator: &mut R,
    call: &Call,
) -> Result<(Run<D, R>, Outcome), OpenRefused<D>>
    requires { MayBeMade call.now }
    ensures calls { IfOk result (λ to. Calls D.Disk R.Rotator run call.now to.1 to.0) }
    ensures asks { IfOk result (λ to. AsksIn call.now to.1 (askings R.Rotator rotator.old run.verdicts)
        (askings R.Rotator rotator.new to.0.verdicts)) }
    ensures one_door { IfOk result (λ to. accounts.doors run.account ≡ 1 → accounts.doors to.0.account ≡ 1) }
    ensures before { Stands D.Disk R.Rotator run }
    ensures behind { IfOk result (λ to. Stands D.Disk R.Rotator to.0) }
    ensures refused { IfErr result (IsRefusedAt D.Disk R.Rotator run call.now) }
    ensures later { R.faults rotator.old ≤ R.faults rotator.new }
{
    run.stand();
    match call {
        Call::Handle(person, now, drawn, request) => {
            let mut run = run;
            let outcome = handle(&mut run, person, *now, drawn.as_slice(), request);
            Ok(with_invariants(run, outcome))
        }
        Call::Work(now) => {
            let mut run = run;
            let outcome = work(&mut run, rotator, *now);
            Ok(with_invariants(run, outcome))
        }
        Call::Report(place, now) => {
            let mut run = run;
            let outcome = report(&mut run, *place, *now);
            Ok(with_invariants(run, outcome))
        }
        Call::Due(now, drawn) => {
            let mut run = run;
            let outcome = start_due(&mut run, *now, drawn);
            Ok(with_invariants(run, outcome))
        }
        Call::Restart => match restart(alloc, run) {
            Ok(run) => Ok(with_invariants(run, Outcome::Reopened)),
            Err(refused) => Err(refused),
        },
    }
}

/// The run with an outcome, and what always holds of it.
fn with_invariants<D: Disk, R: Rotator>(run: Run<D, R>, outcome: Outcome) -> (Run<D, R>, Outcome)
    ensures same { result ≡ (run, outcome) }
    ensures stands { Stands D.Disk R.Rotator result.0 }
{
    run.stand();
    (run, outcome)
}
