//! Running workers at one account, each in a thread of its own.
ghost use Rattle.std.specs.Prelude.{◌≡◌, ◌<◌, ◌≤◌, All, IfOk, IfErr, MatchBool, length, None};
ghost use Rattle.sm_base.specs.declared.limits.TheConstants.{SEATS_LIMIT};
ghost use Rattle.sm_account.specs.Accounts.{base};
ghost use Rattle.sm_lock.specs.Handles.{built_with, IsIn};
ghost use Rattle.sm_lock.specs.declared.gate.BuildRefused.TheVariants.{Memory};
ghost use Rattle.sm_workers.specs.RanAt.{RanAt};
ghost use Rattle.sm_workers.specs.Views.{views_by};
ghost use Rattle.sm_workers.specs.Workers.{AllWorked, HasNoPass, IsFresh, NoneFailed, SomeFailed};

use crate::jobs::run_all;
use crate::passes::{give, take_back};
use crate::worker::{ConnEnd, WorkerBy};
use sm_account::Account;
use sm_disk::Disk;
use sm_io::{Clock, Edge, Words};
use sm_lock::{BuildRefused, Gate, Pass, Storied};
use sm_model::List;
use sm_principal::People;
use sm_rotator::Rotator;
use std::alloc::Global;
use std::sync::Wait;
use std::thread::Threads;

/// Gives each worker the pass of its place, runs all workers in as many threads, and takes the passes back.
pub fn run_workers<
    E: Edge<ConnEnd> + Send,
    C: Clock + Send,
    W: Words + Send,
    D: Disk + Send,
    R: Rotator + Send,
    H: Threads + Wait + Sync,
>(
    rt: &H,
    alloc: Global,
    gate: &Gate<Account<D, R>>,
    passes: List<Pass<Account<D, R>>>,
    workers: &mut [WorkerBy<E, C, W, R, Account<D, R>>],
    people: &People,
) -> List<Pass<Account<D, R>>>
where
    E::C: Send,
    requires some { 0 < length workers.old }
    requires many { length passes ≡ length workers.old }
    requires gate { All (IsIn gate.now) passes }
    requires fresh { All IsFresh workers.old }
    ensures many { (length result ≡ length workers.old) × (length workers.new ≡ length workers.old) }
    ensures worked { AllWorked (views_by E.Edge E.C.Source E.C.Sink C.Clock W.Words R.Rotator) people.now
        (base (built_with gate.now)) gate.now passes result workers.old workers.new }
    ensures left { All HasNoPass workers.new }
{
    let room = give(passes, workers);
    run_all(rt, alloc, gate, people, workers);
    take_back(room, workers)
}

/// Runs workers at an account behind a lock that is built for them, with a seat for each, and gives the account back.
/// Without memory for the lock no worker runs.
pub fn run_at<
    E: Edge<ConnEnd> + Send,
    C: Clock + Send,
    W: Words + Send,
    D: Disk + Send,
    R: Rotator + Send,
    H: Threads + Wait + Sync,
>(
    rt: &H,
    alloc: Global,
    account: Account<D, R>,
    workers: &mut [WorkerBy<E, C, W, R, Account<D, R>>],
    people: &People,
) -> Result<Account<D, R>, BuildRefused<Account<D, R>>>
where
    E::C: Send,
    requires many { (1 ≤ length workers.old) × (length workers.old ≤ SEATS_LIMIT) }
    requires fresh { All IsFresh workers.old }

    // All that stands in the last history behind that of the account before was done by the workers.
    ensures ran { IfOk result (λ last.
        RanAt (views_by E.Edge E.C.Source E.C.Sink C.Clock W.Words R.Rotator) people.now account last
        workers.old workers.new) }
    ensures err { IfErr result (λ refused. (refused ≡ Memory account) × (workers.new ≡ workers.old)) }
{
    match Gate::build(alloc, account, workers.len() as u32) {
        Ok((gate, passes)) => {
            let passes = run_workers(rt, alloc, &gate, passes, workers, people);
            Ok(gate.close(passes))
        }
        Err(refused) => Err(refused),
    }
}

/// Whether the edge of some connection worker failed. It takes no memory.
pub fn any_failed<E, C, W, R, A: Storied>(workers: &[WorkerBy<E, C, W, R, A>]) -> bool
    ensures { MatchBool result (SomeFailed workers.now) (NoneFailed workers.now) }
{
    for worker in workers {
        if worker.failed {
            return true;
        }
    }
    false
}
