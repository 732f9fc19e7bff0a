//! The top call of a server: workers in threads over one account.
ghost use Rattle.std.specs.Prelude.{◌≡◌, ◌≤◌, All, [], None, length, map, string_bytes};
ghost use Rattle.sm_base.specs.declared.limits.TheConstants.{JOURNAL_LIMIT, SEATS_LIMIT};
ghost use Rattle.sm_account.specs.Accounts.{base, began, doors, failed, history, taken};
ghost use Rattle.sm_account.specs.States.{base_of};
ghost use Rattle.sm_principal.specs.Callers.{people_of};
ghost use Rattle.sm_command_line.specs.Reading.{settings_of};
ghost use Rattle.sm_workers.specs.Views.{views_by};
ghost use Rattle.sm_workers.specs.Workers.{IsFresh};
ghost use Rattle.sm_server.specs.Served.{EndsServer, EndsWorkers, FollowsOrders, LeavesAt, LeavesOver, RanAs, connection_workers_in, end_of_serving, is_connection_worker};

use crate::asked::people_of;
use crate::run::end_unopened;
use crate::status::Status;
use crate::witness::Witness;
use sm_account::Account;
use sm_base::limits::JOURNAL_LIMIT;
use sm_command_line::{Mode, WordsRefused, read_words};
use sm_disk::Disk;
use sm_io::{Clock, Edge, Words};
use sm_lock::BuildRefused;
use sm_principal::People;
use sm_rotator::Rotator;
use sm_workers::{ConnEnd, Task, WorkerBy, any_failed, run_at};
use std::alloc::Global;
use std::sync::Wait;
use std::thread::Threads;

/// What a server leaves: the account that it opened, or the disk where it opened none, and how it ended.
#[derive(Drop)]
pub enum RanBy<A, D> {
    Opened(Status, A),
    Unopened(Status, D),
}

/// What a server leaves of an account.
pub type Ran<D: Disk, R: Rotator> = RanBy<Account<D, R>, D>;

/// Follows the words of a command line: reads the text of the people who may ask, opens the account of the disk, and
/// runs all workers in threads of their own, until no connection worker has a connection left and no rotation worker
/// anything to do. The witness is told what was opened.
pub fn run_server<
    E: Edge<ConnEnd> + Send,
    C: Clock + Send,
    W: Words + Send,
    D: Disk + Send,
    R: Rotator + Send,
    H: Threads + Wait + Sync,
    O: Witness,
>(
    rt: &H,
    alloc: Global,
    words: &[String],
    workers: &mut [WorkerBy<E, C, W, R, Account<D, R>>],
    disk: D,
    people: &[u8],
    witness: &O,
) -> RanBy<Account<D, R>, D>
where
    E::C: Send,
    requires many { (1 ≤ length workers.old) × (length workers.old ≤ SEATS_LIMIT) }
    requires fresh { All IsFresh workers.old }
    ensures ran { RanAs (views_by E.Edge E.C.Source E.C.Sink C.Clock W.Words R.Rotator) D.Disk
        (settings_of (map string_bytes words.now)) (people_of people.now) disk result workers.old workers.new }
{
    match may_ask(alloc, words, people) {
        Ok(people) => serve_over(rt, alloc, workers, disk, &people, witness),
        Err(status) => RanBy::Unopened(status, disk),
    }
}

/// Who may ask, or how a server ends that does not follow its words, or whose text of the people is refused.
fn may_ask(alloc: Global, words: &[String], people: &[u8]) -> Result<People, Status>
    ensures { FollowsOrders result (settings_of (map string_bytes words.now)) (people_of people.now) }
{
    match end_of_words(alloc, words) {
        Some(status) => Err(status),
        None => people_of(alloc, people),
    }
}

/// How a server ends that is not asked to serve, and nothing where it is.
fn end_of_words(alloc: Global, words: &[String]) -> Option<Status>
    ensures { EndsServer result (settings_of (map string_bytes words.now)) }
{
    match read_words(alloc, words) {
        Ok(settings) => end_of_serving(settings.mode),
        Err(WordsRefused::Refused) => Some(Status::Words),
        Err(WordsRefused::Memory) => Some(Status::Memory),
    }
}

/// The other modes are another top call's.
fn end_of_serving(mode: Mode) -> Option<Status>
    ensures { result ≡ end_of_serving mode }
{
    match mode {
        Mode::Exec => Some(Status::Words),
        Mode::Serve => None,
        Mode::Check => Some(Status::Words),
        Mode::Drill => Some(Status::Words),
        Mode::Agent => Some(Status::Words),
        Mode::Ship => Some(Status::Words),
        Mode::Follow => Some(Status::Words),
    }
}

/// Opens the account of the disk, and serves.
fn serve_over<
    E: Edge<ConnEnd> + Send,
    C: Clock + Send,
    W: Words + Send,
    D: Disk + Send,
    R: Rotator + Send,
    H: Threads + Wait + Sync,
    O: Witness,
>(
    rt: &H,
    alloc: Global,
    workers: &mut [WorkerBy<E, C, W, R, Account<D, R>>],
    disk: D,
    people: &People,
    witness: &O,
) -> RanBy<Account<D, R>, D>
where
    E::C: Send,
    requires many { (1 ≤ length workers.old) × (length workers.old ≤ SEATS_LIMIT) }
    requires fresh { All IsFresh workers.old }
    ensures ran { LeavesOver (views_by E.Edge E.C.Source E.C.Sink C.Clock W.Words R.Rotator) D.Disk people.now disk
        result workers.old workers.new }
{
    match Account::open(alloc, disk, connection_workers_of(workers), JOURNAL_LIMIT) {
        Ok(account) => {
            witness.opened(account.table(), account.entries());
            let (status, account) = serve_at(rt, alloc, account, workers, people);
            RanBy::Opened(status, account)
        }
        Err(refused) => {
            let (status, disk) = end_unopened(refused);
            RanBy::Unopened(status, disk)
        }
    }
}

/// How many of the workers are connection workers.
fn connection_workers_of<E, D: Disk, C, W, R: Rotator>(
    workers: &[WorkerBy<E, C, W, R, Account<D, R>>],
) -> u32
    requires { length workers.now ≤ SEATS_LIMIT }
    ensures { result ≡ connection_workers_in workers.now }
{
    workers
        .iter()
        .filter(|worker| is_connection_worker(&worker.task))
        .count() as u32
}

/// Whether it is the task of a connection worker.
fn is_connection_worker<E, R>(task: &Task<E, R>) -> bool
    ensures { result ≡ is_connection_worker task.now }
{
    match task {
        Task::Door(_) => true,
        Task::Turner(_) => false,
    }
}

/// Runs the workers at an account that was just opened, with as many open doors as there are connection workers among
/// them.
fn serve_at<
    E: Edge<ConnEnd> + Send,
    C: Clock + Send,
    W: Words + Send,
    D: Disk + Send,
    R: Rotator + Send,
    H: Threads + Wait + Sync,
>(
    rt: &H,
    alloc: Global,
    account: Account<D, R>,
    workers: &mut [WorkerBy<E, C, W, R, Account<D, R>>],
    people: &People,
) -> (Status, Account<D, R>)
where
    E::C: Send,
    requires many { (1 ≤ length workers.old) × (length workers.old ≤ SEATS_LIMIT) }
    requires fresh { All IsFresh workers.old }
    requires empty { history account ≡ [] }
    requires open { doors account ≡ connection_workers_in workers.old }
    ensures ran { LeavesAt (views_by E.Edge E.C.Source E.C.Sink C.Clock W.Words R.Rotator) D.Disk people.now account
        result.1 result.0 workers.old workers.new }
{
    match run_at(rt, alloc, account, workers, people) {
        Ok(account) => {
            account.invariants();
            (end_of_workers(workers), account)
        }
        Err(BuildRefused::Memory(account)) => {
            account.invariants();
            (Status::Memory, account)
        }
    }
}

/// How a server ends whose workers ended.
fn end_of_workers<E, D: Disk, C, W, R: Rotator>(
    workers: &[WorkerBy<E, C, W, R, Account<D, R>>],
) -> Status
    ensures { EndsWorkers result workers.now }
{
    if any_failed(workers) {
        Status::EdgeFault
    } else {
        Status::Done
    }
}
