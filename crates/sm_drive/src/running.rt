//! The calls of a run, one after the other.
ghost use Rattle.std.specs.Prelude.{◌≡◌, ◌≤◌, [], IfOk, IfErr, length, vec_capacity};
ghost use Rattle.sm_account.specs.Accounts.{began, doors};
ghost use Rattle.sm_drive.specs.Asked.{AllMayBeMade};
ghost use Rattle.sm_drive.specs.Askings.{AsksIn, askings};
ghost use Rattle.sm_drive.specs.Going.{IsFresh, HasCome};
ghost use Rattle.sm_drive.specs.Refused.{StopsBehind};
ghost use Rattle.sm_drive.specs.Turns.{InTurn};

use crate::call::Call;
use crate::outcome::Outcome;
use crate::run::Run;
use crate::step::step;
use sm_account::OpenRefused;
use sm_disk::Disk;
use sm_rotator::Rotator;
use std::alloc::Global;

/// Makes the calls, one after the other, and adds the outcome of each, for which there is room. A restart that is
/// refused ends the run, and hands the disk back.
pub fn go_on<D: Disk, R: Rotator>(
    alloc: Global,
    start: Run<D, R>,
    calls: &[Call],
    rotator: &mut R,
    outcomes: &mut Vec<Outcome>,
) -> Result<Run<D, R>, OpenRefused<D>>
    requires made { AllMayBeMade calls.now }
    requires fresh { IsFresh start }
    requires none { outcomes.old.items ≡ [] }
    requires room { length calls.now ≤ vec_capacity outcomes.old }
    ensures come { IfOk result (HasCome start calls.now outcomes.new.items) }
    ensures asked { IfOk result (λ now. InTurn AsksIn calls.now outcomes.new.items
        (askings R.Rotator rotator.old start.verdicts) (askings R.Rotator rotator.new now.verdicts)) }
    ensures one_door { IfOk result (λ now. doors start.account ≡ 1 → doors now.account ≡ 1) }
    ensures refused { IfErr result (StopsBehind D.Disk R.replies (began start.account) calls.now) }
    ensures later { R.faults rotator.old ≤ R.faults rotator.new }
{
    start.stand();
    let mut run = start;
    for call in calls {
        match step(alloc, run, rotator, call) {
            Ok((next, outcome)) => {
                run = next;
                outcomes.push_reserved(outcome);
            }
            Err(refused) => return Err(refused),
        }
    }
    Ok(run)
}
