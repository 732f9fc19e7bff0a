//! Every run of calls with restarts.
ghost use Rattle.std.specs.Prelude.{◌≡◌, ◌≤◌, [], IfOk, IfErr, length, vec_capacity};
ghost use Rattle.sm_account.specs.Accounts as accounts;
ghost use Rattle.sm_account.specs.Accounts.{all_of, doors, failed};
ghost use Rattle.sm_account.specs.Crashes.{HoldsOnDisk};
ghost use Rattle.sm_recovery.specs.Openings.{IsRefused};
ghost use Rattle.sm_store.specs.Stores.{disk_in};
ghost use Rattle.sm_drive.specs.Asked.{AllMayBeMade};
ghost use Rattle.sm_drive.specs.Askings.{AsksIn, askings};
ghost use Rattle.sm_drive.specs.Disks.{GoesOver, disks_of};
ghost use Rattle.sm_drive.specs.Drives.{Drives};
ghost use Rattle.sm_drive.specs.Going.{IsFresh};
ghost use Rattle.sm_drive.specs.Openings.{TellsAtRestarts};
ghost use Rattle.sm_drive.specs.Refused.{IsStopped};
ghost use Rattle.sm_drive.specs.Turns.{InTurn};

use crate::call::Call;
use crate::driven::Driven;
use crate::outcome::Outcome;
use crate::run::Run;
use crate::running::go_on;
use sm_account::{Account, OpenRefused};
use sm_base::limits::JOURNAL_LIMIT;
use sm_base::{List, NoMemory};
use sm_disk::Disk;
use sm_rotator::Rotator;
use std::alloc::Global;

/// Opens the account of a disk, with one connection worker and under the limit of all journals, and makes the calls,
/// one after the other, each of seat 1. A restart closes it and opens it again. Where an opening is refused, at the
/// start or at a restart, the run ends, and the error hands the disk back.
pub fn drive<D: Disk, R: Rotator>(
    alloc: Global,
    disk: D,
    calls: List<Call>,
    rotator: &mut R,
) -> Result<Driven<D, R>, OpenRefused<D>>
    requires { AllMayBeMade calls }

    // Over a disk that tells, or over any disk where no call is a restart: there is an outcome for each call, each but
    // lack of memory as the account's rules want it. The entries are legal, one after the other, from the state at the
    // opening, and what the account has is that state and they. What is acknowledged has its place among them for good.
    // Each other one is that of a call at which the disk failed, and a later restart found it. After each number of
    // them the secrets are sound, and what a rotator accepted stays so.
    ensures ran { IfOk result (λ driven. TellsAtRestarts calls (D.sight disk) →
        Drives D.Disk R.Rotator (D.sight disk) calls driven) }

    // The account was opened over the disk that was given, or over what the calls before the last restart left of it.
    // The disk's count of faults never falls from call to call, and it rose in each whose outcome is that the disk
    // failed.
    ensures over { IfOk result (λ driven. GoesOver D.Disk disk calls driven.outcomes (disks_of driven.account)) }

    // A work asks the rotator at most once. Where the answer is kept, what the rotator tells grows by just that; out of
    // memory the answer may be lost. No other call asks it.
    ensures asked { IfOk result (λ driven. InTurn AsksIn calls driven.outcomes (askings R.Rotator rotator.old [])
        (askings R.Rotator rotator.new driven.verdicts)) }

    // The account has one open door at the end.
    ensures one_door { IfOk result (λ driven. doors driven.account ≡ 1) }

    // Each image of the disk recovers to what the account has, or while the tail is unsure to this, or to it and the
    // entry whose write failed last.
    ensures tail { IfOk result (λ driven.
        HoldsOnDisk (all_of driven.account) (failed driven.account) (D.sight (accounts.disk driven.account))) }

    // An opening was refused, by its own rule: of the disk that was given, or at a restart of what the calls before it
    // left of that disk. Where the disk that was given tells, a restart finds no damage.
    ensures refused { IfErr result (IsStopped D.Disk R.replies disk calls) }

    ensures later { IfOk result (λ driven. D.faults disk ≤ D.faults (accounts.disk driven.account)) }
    ensures fallen { IfErr result (λ refused. D.faults disk ≤ D.faults (disk_in refused)) }
    ensures rotator_later { R.faults rotator.old ≤ R.faults rotator.new }
{
    match room_for(alloc, calls.len()) {
        Ok(outcomes) => run_over(alloc, disk, calls.as_slice(), rotator, outcomes),
        Err(NoMemory) => Err(OpenRefused::Memory(disk)),
    }
}

/// Room for so many outcomes.
fn room_for(alloc: Global, count: usize) -> Result<Vec<Outcome>, NoMemory>
    ensures none { IfOk result (λ outcomes. outcomes.items ≡ []) }
    ensures room { IfOk result (λ outcomes. count ≤ vec_capacity outcomes) }
{
    Ok(Vec::with_capacity(alloc, count)?)
}

/// Opens the account of a disk, and makes the calls.
fn run_over<D: Disk, R: Rotator>(
    alloc: Global,
    disk: D,
    calls: &[Call],
    rotator: &mut R,
    outcomes: Vec<Outcome>,
) -> Result<Driven<D, R>, OpenRefused<D>>
    requires made { AllMayBeMade calls.now }
    requires none { outcomes.items ≡ [] }
    requires room { length calls.now ≤ vec_capacity outcomes }
    ensures ran { IfOk result (λ driven. TellsAtRestarts calls.now (D.sight disk) →
        Drives D.Disk R.Rotator (D.sight disk) calls.now driven) }
    ensures over { IfOk result (λ driven. GoesOver D.Disk disk calls.now driven.outcomes (disks_of driven.account)) }
    ensures asked { IfOk result (λ driven. InTurn AsksIn calls.now driven.outcomes
        (askings R.Rotator rotator.old []) (askings R.Rotator rotator.new driven.verdicts)) }
    ensures one_door { IfOk result (λ driven. doors driven.account ≡ 1) }
    ensures tail { IfOk result (λ driven.
        HoldsOnDisk (all_of driven.account) (failed driven.account) (D.sight (accounts.disk driven.account))) }
    ensures refused { IfErr result (IsStopped D.Disk R.replies disk calls.now) }
    ensures later { IfOk result (λ driven. D.faults disk ≤ D.faults (accounts.disk driven.account)) }
    ensures fallen { IfErr result (λ refused. D.faults disk ≤ D.faults (disk_in refused)) }
    ensures rotator_later { R.faults rotator.old ≤ R.faults rotator.new }
{
    let mut outcomes = outcomes;
    match begin(alloc, disk) {
        Ok(run) => match go_on(alloc, run, calls, rotator, &mut outcomes) {
            Ok(run) => Ok(end(run, outcomes)),
            Err(refused) => Err(refused),
        },
        Err(refused) => Err(refused),
    }
}

/// A run before its first call.
fn begin<D: Disk, R: Rotator>(alloc: Global, disk: D) -> Result<Run<D, R>, OpenRefused<D>>
    ensures fresh { IfOk result IsFresh }
    ensures began { IfOk result (λ run. accounts.began run.account ≡ disk) }
    ensures one_door { IfOk result (λ run. doors run.account ≡ 1) }
    ensures refused { IfErr result (IsRefused D.Disk disk) }
{
    match Account::open(alloc, disk, 1, JOURNAL_LIMIT) {
        Ok(account) => {
            let first = account.entries();
            Ok(Run {
                account,
                verdicts: List::empty(alloc),
                first,
            })
        }
        Err(refused) => Err(refused),
    }
}

/// What a run leaves at its end.
fn end<D: Disk, R: Rotator>(run: Run<D, R>, outcomes: Vec<Outcome>) -> Driven<D, R>
    ensures same { result ≡ record {
      account = run.account;
      outcomes = outcomes.items;
      verdicts = run.verdicts;
    } }
    ensures tail { HoldsOnDisk (all_of result.account) (failed result.account)
        (D.sight (accounts.disk result.account)) }
{
    run.stand();
    let Run {
        account,
        verdicts,
        first: _,
    } = run;
    Driven {
        account,
        outcomes: List::new(outcomes),
        verdicts,
    }
}
