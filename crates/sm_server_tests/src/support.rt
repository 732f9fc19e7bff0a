//! Connections and workers over memory, and a server that runs them.
ghost use Rattle.std.specs.Prelude.{◌≡◌, ◌≤◌, ◌+◌, All, IfOk, OnOk, length, vec_len};
ghost use Rattle.sm_workers.specs.Workers.{IsFresh};

use sm_disk::MemoryDisk;
use sm_io::{CountWords, Edge, FixedClock, MemoryConn, MemoryEdge};
use sm_memory_fixtures::connections;
use sm_memory_fixtures::connections::WELL;
use sm_memory_fixtures::disks::disk_of;
use sm_memory_fixtures::messages::add_message;
use sm_model::{Fails, List, Moment};
use sm_rotator::Rotator;
use sm_server::{Nobody, RanBy, Status, run_server};
use sm_session::Ended;
use sm_workers::{ConnEnd, Worker};
use std::alloc::Global;
use std::sync::Wait;
use std::test::Fail;
use std::thread::Threads;

/// A worker over memory, with an edge and a rotator of these kinds.
pub type MemoryWorker<E, R: Rotator> = Worker<E, MemoryDisk, FixedClock, CountWords, R>;

/// The clock of each worker.
fn clock() -> FixedClock {
    FixedClock::new(Moment(1_700_000_000))
}

/// A connection with these messages, each an operation and a body.
pub fn connection(alloc: Global, messages: &[(&str, &str)]) -> Result<MemoryConn, Fail> {
    let mut input = Vec::new(alloc);
    for (operation, body) in messages {
        add_message(alloc, &mut input, operation, body.as_bytes())?;
    }
    Ok(connections::connection(alloc, input.as_slice(), &WELL)?)
}

/// An edge that hands out these connections.
pub fn edge(alloc: Global, conns: Vec<MemoryConn>) -> MemoryEdge<ConnEnd> {
    MemoryEdge::new(alloc, List::new(conns), Fails::never(alloc))
}

/// A worker for an edge.
pub fn connection_worker<E, R: Rotator>(alloc: Global, edge: E) -> MemoryWorker<E, R>
    ensures { IsFresh result }
{
    Worker::door(
        edge,
        clock(),
        CountWords::new(alloc, 0, Fails::never(alloc)),
    )
}

/// A worker that takes rotation turns.
pub fn rotation_worker<E, R: Rotator>(alloc: Global, rotator: R) -> MemoryWorker<E, R>
    ensures { IsFresh result }
{
    Worker::turner(
        rotator,
        clock(),
        CountWords::new(alloc, 0, Fails::never(alloc)),
    )
}

/// The same a day later than all others. The tokens that it draws end in `5e5f`, `6e6f` and so on, so that a rotator of
/// scripts says yes to each of their steps.
pub fn late_rotation_worker<E, R: Rotator>(alloc: Global, rotator: R) -> MemoryWorker<E, R>
    ensures { IsFresh result }
{
    Worker::turner(
        rotator,
        FixedClock::new(Moment(1_700_086_400)),
        CountWords::new(alloc, 80, Fails::never(alloc)),
    )
}

/// Adds a worker.
fn add<E: Drop, R: Rotator + Drop>(
    workers: &mut Vec<MemoryWorker<E, R>>,
    worker: MemoryWorker<E, R>,
) -> Result<(), Fail>
    requires fresh { IsFresh worker }
    requires all { All IsFresh workers.old.items }
    ensures all { All IsFresh workers.new.items }
    ensures long { OnOk result (vec_len workers.new ≡ vec_len workers.old + 1) }
{
    workers.push(worker)?;
    Ok(())
}

/// These three workers.
pub fn three<E: Drop, R: Rotator + Drop>(
    alloc: Global,
    first: MemoryWorker<E, R>,
    second: MemoryWorker<E, R>,
    third: MemoryWorker<E, R>,
) -> Result<Vec<MemoryWorker<E, R>>, Fail>
    requires first { IsFresh first }
    requires second { IsFresh second }
    requires third { IsFresh third }
    ensures fresh { IfOk result (λ workers. All IsFresh workers.items) }
    ensures many { IfOk result (λ workers. vec_len workers ≡ 3) }
{
    let mut workers = Vec::new(alloc);
    add(&mut workers, first)?;
    add(&mut workers, second)?;
    add(&mut workers, third)?;
    Ok(workers)
}

/// The words of a server's command line.
fn serving_words(alloc: Global) -> Result<Vec<String>, Fail> {
    let mut words = Vec::new(alloc);
    for word in ["--mode", "serve"] {
        words.push(String::from_str(alloc, word)?)?;
    }
    Ok(words)
}

/// How a server ends that runs these workers for everybody, over an empty disk of which these calls fail, and how many
/// entries its account has then.
pub fn ran_over<E: Edge<ConnEnd> + Send, R: Rotator + Drop + Send, H: Threads + Wait + Sync>(
    rt: &H,
    alloc: Global,
    workers: &mut [MemoryWorker<E, R>],
    disk_fails: Fails,
) -> Result<(Status, u64), Fail>
where
    E::C: Send,
    requires many { (1 ≤ length workers.old) × (length workers.old ≤ 128) }
    requires fresh { All IsFresh workers.old }
{
    let words = serving_words(alloc)?;
    let disk = disk_of(alloc, b"", disk_fails)?;
    match run_server(rt, alloc, words.as_slice(), workers, disk, b"", &Nobody) {
        RanBy::Opened(status, account) => Ok((status, account.entries())),
        RanBy::Unopened(status, _disk) => Ok((status, 0)),
    }
}

/// How many connections came back, and whether each was answered 200 at first and ended well.
pub fn outcome(edge: &MemoryEdge<ConnEnd>) -> (usize, bool) {
    let back = edge.back();
    let well = back.iter().all(|pair| {
        let taken = pair.0.sink().taken().as_slice();
        taken.starts_with(b"HTTP/1.1 200 OK\r\n") && pair.1.ended == Ended::Closed
    });
    (back.len(), well)
}
