//! What a worker does with its pass.
ghost use Rattle.std.specs.Prelude.{◌≡◌, Some};
ghost use Rattle.sm_account.specs.Accounts.{base};
ghost use Rattle.sm_lock.specs.Handles.{built_with, number, seen, IsIn};
ghost use Rattle.sm_session.specs.Views.{local_state_by};
ghost use Rattle.sm_workers.specs.Views.{views_by};
ghost use Rattle.sm_workers.specs.Workers.{Did, EndsAs, IsReady, WorksWithItsPass};

use crate::connection_workers::{Left, serve_connections};
use crate::rotation_workers::take_turns;
use crate::worker::{ConnEnd, Task, WorkerBy};
use sm_account::Account;
use sm_disk::Disk;
use sm_io::{Clock, Edge, Words};
use sm_lock::{Gate, Pass, Storied};
use sm_principal::People;
use sm_rotator::Rotator;
use std::alloc::Global;
use std::sync::Wait;

/// Does a task under the seat of a pass.
fn do_task<E: Edge<ConnEnd>, C: Clock, W: Words, D: Disk, R: Rotator, H: Wait>(
    rt: &H,
    alloc: Global,
    gate: &Gate<Account<D, R>>,
    pass: Pass<Account<D, R>>,
    task: &mut Task<E, R>,
    clock: &mut C,
    words: &mut W,
    people: &People,
) -> Left<Account<D, R>>
    requires { IsIn gate.now pass }
    ensures gate { IsIn gate.now result.pass }
    ensures number { number result.pass ≡ number pass }
    ensures did { Did (views_by E.Edge E.C.Source E.C.Sink C.Clock W.Words R.Rotator) people.now
        (record { base = base (built_with gate.now); seat = number pass }) task.old task.new
        (local_state_by C.Clock W.Words (seen pass) clock.old words.old)
        (local_state_by C.Clock W.Words (seen result.pass) clock.new words.new) }
    ensures ends { EndsAs (views_by E.Edge E.C.Source E.C.Sink C.Clock W.Words R.Rotator) result.failed task.old
        task.new }
{
    match task {
        Task::Door(edge) => serve_connections(rt, alloc, gate, pass, edge, clock, words, people),
        Task::Turner(rotator) => Left {
            pass: take_turns(rt, gate, pass, rotator, clock, words),
            failed: false,
        },
    }
}

/// Takes a worker's pass out, does its task, and puts the pass back.
pub(crate) fn work<E: Edge<ConnEnd>, C: Clock, W: Words, D: Disk, R: Rotator, H: Wait>(
    rt: &H,
    alloc: Global,
    gate: &Gate<Account<D, R>>,
    worker: &mut WorkerBy<E, C, W, R, Account<D, R>>,
    people: &People,
)
    requires { IsReady gate.now worker.old }
    ensures { WorksWithItsPass (views_by E.Edge E.C.Source E.C.Sink C.Clock W.Words R.Rotator) people.now
        (base (built_with gate.now)) gate.now worker.old worker.new }
{
    let pass = worker.take_out();
    let Left { pass, failed } = do_task(
        rt,
        alloc,
        gate,
        pass,
        &mut worker.task,
        &mut worker.clock,
        &mut worker.words,
        people,
    );
    worker.failed = failed;
    worker.put_in(pass);
}
