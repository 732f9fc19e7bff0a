//! Jobs, each of which is done in a thread.
ghost use Rattle.std.specs.Prelude.{◌≡◌, ◌<◌, ℕ, All, length, get_or};

use crate::worker::{ConnEnd, WorkerBy};
use crate::working::work;
use sm_account::Account;
use sm_disk::Disk;
use sm_io::{Clock, Edge, Words};
use sm_lock::Gate;
use sm_principal::People;
use sm_rotator::Rotator;
use std::alloc::Global;
use std::sync::Wait;
use std::thread;
use std::thread::Threads;

/// What can be done in a thread of its own, beside others, behind one lock and for the same people.
pub(crate) trait Job {
    /// The lock that all share.
    type Gate;

    /// Who may ask.
    type People;

    /// What it needs before it is run.
    ghost ready: { Self.Gate → Self → Type 0 };

    /// What a run makes of it.
    ghost worked: { Self.Gate → Self.People → Self → Self → Type 0 };

    /// Runs it.
    fn run<H: Wait>(&mut self, rt: &H, alloc: Global, gate: &Self::Gate, people: &Self::People)
        requires { ready gate.now self.old }
        ensures { worked gate.now people.now self.old self.new };
}

impl<E: Edge<ConnEnd>, C: Clock, W: Words, D: Disk, R: Rotator> Job
    for WorkerBy<E, C, W, R, Account<D, R>> {
    ghost use Rattle.sm_account.specs.Accounts.{base};
    ghost use Rattle.sm_lock.specs.Handles.{built_with};
    ghost use Rattle.sm_workers.specs.Views.{views_by};
    ghost use Rattle.sm_workers.specs.Workers.{IsReady, WorksWithItsPass};

    type Gate = Gate<Account<D, R>>;

    type People = People;

    ghost ready = { λ gate worker. IsReady gate worker };

    ghost worked = { λ gate people old new.
        WorksWithItsPass (views_by E.Edge E.C.Source E.C.Sink C.Clock W.Words R.Rotator) people (base (built_with gate))
        gate old new };

    fn run<H: Wait>(&mut self, rt: &H, alloc: Global, gate: &Gate<Account<D, R>>, people: &People) {
        work(rt, alloc, gate, self, people);
    }
}

/// Runs all jobs, with as many threads as there are jobs.
pub(crate) fn run_all<J: Job + Send, H: Threads + Wait + Sync>(
    rt: &H,
    alloc: Global,
    gate: &J::Gate,
    people: &J::People,
    jobs: &mut [J],
)
where
    J::Gate: Sync,
    J::People: Sync,
    requires some { 0 < length jobs.old }
    requires ready { All (J.ready gate.now) jobs.old }
    ensures many { length jobs.new ≡ length jobs.old }
    ensures worked { (k : ℕ) (job : J) → k < length jobs.old
        → J.worked gate.now people.now (get_or jobs.old k job) (get_or jobs.new k job) }
{
    let threads = jobs.len();
    let run = |_: usize, job: &mut J|
        requires { J.ready gate.now job.now }
        ensures { J.worked gate.entry.now people.entry.now job.entry.now job.exit.now }
    { job.run(rt, alloc, gate, people) };
    thread::for_each_mut(rt, jobs, threads, &run);
}
