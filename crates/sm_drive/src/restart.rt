//! Restarts of a run.
ghost use Rattle.std.specs.Prelude.{◌≡◌, IfOk, IfErr, false};
ghost use Rattle.sm_recovery.specs.Openings.{IsRefused};
ghost use Rattle.sm_account.specs.Accounts.{disk, doors};
ghost use Rattle.sm_drive.specs.Openings.{Tells};
ghost use Rattle.sm_drive.specs.Refused.{is_damaged};
ghost use Rattle.sm_drive.specs.Stepping.{Calls};
ghost use Rattle.sm_drive.specs.declared.call.Call.TheVariants as calls;
ghost use Rattle.sm_drive.specs.declared.outcome.Outcome.TheVariants as outcomes;

use crate::run::Run;
use sm_account::{Account, OpenRefused};
use sm_base::limits::JOURNAL_LIMIT;
use sm_disk::Disk;
use sm_rotator::Rotator;
use std::alloc::Global;

/// Closes the account of a run, and opens it again over the same disk, which is not damaged. An error hands the disk
/// back.
pub fn restart<D: Disk, R: Rotator>(
    alloc: Global,
    run: Run<D, R>,
) -> Result<Run<D, R>, OpenRefused<D>>
    ensures calls { IfOk result (Calls D.Disk R.Rotator run calls.Restart outcomes.Reopened) }
    ensures verdicts { IfOk result (λ now. now.verdicts ≡ run.verdicts) }
    ensures one_door { IfOk result (λ now. doors now.account ≡ 1) }
    ensures refused { IfErr result (IsRefused D.Disk (disk run.account)) }
    ensures whole { IfErr result (λ refused. Tells (D.sight (disk run.account)) → is_damaged refused ≡ false) }
{
    let Run {
        account,
        verdicts,
        first,
    } = run;
    account.invariants();
    match Account::open(alloc, account.close(), 1, JOURNAL_LIMIT) {
        Ok(account) => Ok(Run {
            account,
            verdicts,
            first,
        }),
        Err(refused) => Err(refused),
    }
}
