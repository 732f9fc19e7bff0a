//! Works of a run's rotator.
ghost use Rattle.std.specs.Prelude.{◌≡◌, ◌≤◌, ◌++◌, ◌∷◌, [], true};
ghost use Rattle.sm_base.specs.declared.moment.TheConstants.{LAST_READING};
ghost use Rattle.sm_account.specs.Accounts as accounts;
ghost use Rattle.sm_drive.specs.Askings.{AsksIn, WorksAs, askings};
ghost use Rattle.sm_drive.specs.Stepping.{Calls};
ghost use Rattle.sm_drive.specs.Working.{Asks, Keeps};
ghost use Rattle.sm_drive.specs.declared.call.Call.TheVariants as calls;

use crate::outcome::Outcome;
use crate::run::Run;
use sm_account::NextWork;
use sm_base::{List, NoMemory};
use sm_disk::Disk;
use sm_model::Moment;
use sm_rotator::{Asked, Rotator, Verdict, Work};

/// Claims the first step that is ready, has the rotator asked to do it, and keeps its verdict.
pub fn work<D: Disk, R: Rotator>(run: &mut Run<D, R>, rotator: &mut R, now: Moment) -> Outcome
    requires { now.0 ≤ LAST_READING }
    ensures calls { Calls D.Disk R.Rotator run.old (calls.Work now) result run.new }
    ensures asks { AsksIn (calls.Work now) result (askings R.Rotator rotator.old run.old.verdicts)
        (askings R.Rotator rotator.new run.new.verdicts) }
    ensures doors { accounts.doors run.new.account ≡ accounts.doors run.old.account }
    ensures later { R.faults rotator.old ≤ R.faults rotator.new }
{
    match run.account.next_work(1, now) {
        NextWork::Work(work) => ask(&mut run.verdicts, rotator, work),
        NextWork::None => Outcome::Nothing,
        NextWork::Memory => Outcome::Memory,
    }
}

/// Asks the rotator to do a work, and keeps its verdict.
fn ask<R: Rotator>(verdicts: &mut List<Verdict<R>>, rotator: &mut R, work: Work) -> Outcome
    ensures asks { Asks R.Rotator work verdicts.old result verdicts.new }
    ensures once { WorksAs result (askings R.Rotator rotator.old verdicts.old)
        (askings R.Rotator rotator.new verdicts.new) }
    ensures later { R.faults rotator.old ≤ R.faults rotator.new }
{
    match rotator.ask(&work) {
        Asked::Answered(answer) => keep(verdicts, Verdict::new(work, answer)),
        Asked::Memory => Outcome::Memory,
    }
}

/// Keeps a verdict behind the others.
fn keep<R: Rotator>(verdicts: &mut List<Verdict<R>>, verdict: Verdict<R>) -> Outcome
    ensures { Keeps verdict verdicts.old result verdicts.new }
{
    match verdicts.push(verdict) {
        Ok(()) => Outcome::Asked,
        Err(NoMemory) => Outcome::Memory,
    }
}
