//! The workers of a server: connection workers over one listener, and rotation workers.
ghost use Rattle.std.specs.Prelude.{◌≡◌, ◌+◌, ◌≤◌, All, OnOk, vec_len};
ghost use Rattle.sm_workers.specs.Workers.{IsFresh};

use crate::connections::Connections;
use crate::entropy::SaidRandom;
use crate::event_loop::EventLoop;
use crate::loop_edge::LoopEdge;
use crate::reports::Reports;
use crate::rotators::MakeRotator;
use sm_account::Account;
use sm_disk::Disk;
use sm_io::{SystemClock, SystemRandom};
use sm_model::NoMemory;
use sm_rotator::Rotator;
use sm_workers::WorkerBy;
use std::io;
use std::io::ErrorKind;
use std::net::TcpListener;
use std::sync::Wait;

/// A worker of the server, with the system's clock and random source.
pub type Hand<'a, H, D: Disk, R: Rotator> = WorkerBy<
    LoopEdge<'a, H>,
    SystemClock<&'a HostRuntime>,
    SystemRandom<SaidRandom<'a>>,
    R,
    Account<D, R>,
>;

/// What the entrance of a server is made of.
#[derive(Drop)]
pub struct Ground<'a, H> {
    pub rt: &'a HostRuntime,
    pub threads: &'a H,
    pub connections: &'a Connections<'a>,
    pub listener: &'a TcpListener,
    pub reports: &'a Reports<'a>,
    /// Whether each request gets a line.
    pub log: bool,
}

/// What lacks where a worker can't be made.
#[derive(Drop)]
pub enum Lack {
    Memory,
    /// The system makes no event loop.
    System(io::Error),
}

impl From<NoMemory> for Lack {
    fn from(_: NoMemory) -> Lack {
        Lack::Memory
    }
}

impl From<io::Error> for Lack {
    fn from(error: io::Error) -> Lack {
        if error.kind() == ErrorKind::OutOfMemory {
            Lack::Memory
        } else {
            Lack::System(error)
        }
    }
}

/// A random source of a worker's own.
fn words_of<'a>(rt: &'a HostRuntime, reports: &'a Reports<'a>) -> SystemRandom<SaidRandom<'a>> {
    SystemRandom::new(rt.alloc(), SaidRandom { rt, reports })
}

/// Adds a worker.
fn add<'a, H, D: Disk + Drop, R: Rotator + Drop>(
    workers: &mut Vec<Hand<'a, H, D, R>>,
    worker: Hand<'a, H, D, R>,
) -> Result<(), NoMemory>
    requires fresh { IsFresh worker }
    requires all { All IsFresh workers.old.items }
    ensures all { All IsFresh workers.new.items }
    ensures long { OnOk result (vec_len workers.new ≡ vec_len workers.old + 1) }
{
    workers.push(worker)?;
    Ok(())
}

/// Adds a connection worker with an event loop of its own.
fn add_connection_worker<'a, H: Wait, D: Disk + Drop, R: Rotator + Drop>(
    ground: &Ground<'a, H>,
    workers: &mut Vec<Hand<'a, H, D, R>>,
) -> Result<(), Lack>
    requires all { All IsFresh workers.old.items }
    ensures all { All IsFresh workers.new.items }
    ensures long { OnOk result (vec_len workers.new ≡ vec_len workers.old + 1) }
{
    let connections = EventLoop::new(
        ground.rt,
        ground.threads,
        ground.connections,
        ground.listener,
        ground.log,
    )?;
    let worker = WorkerBy::door(
        LoopEdge::new(connections),
        SystemClock::new(ground.rt),
        words_of(ground.rt, ground.reports),
    );
    add(workers, worker)?;
    Ok(())
}

/// Adds so many connection workers.
pub fn add_connection_workers<'a, H: Wait, D: Disk + Drop, R: Rotator + Drop>(
    ground: &Ground<'a, H>,
    workers: &mut Vec<Hand<'a, H, D, R>>,
    count: u32,
) -> Result<(), Lack>
    requires all { All IsFresh workers.old.items }
    ensures all { OnOk result (All IsFresh workers.new.items) }
    ensures long { OnOk result (vec_len workers.new ≡ vec_len workers.old + count) }
{
    for number in 0..count {
        add_connection_worker(ground, workers)?;
    }
    Ok(())
}

/// Adds a rotation worker with this rotator.
fn add_rotation_worker<'a, H, D: Disk + Drop, R: Rotator + Drop>(
    ground: &Ground<'a, H>,
    workers: &mut Vec<Hand<'a, H, D, R>>,
    rotator: R,
) -> Result<(), NoMemory>
    requires all { All IsFresh workers.old.items }
    ensures all { All IsFresh workers.new.items }
    ensures long { OnOk result (vec_len workers.new ≡ vec_len workers.old + 1) }
{
    let worker: Hand<'a, H, D, R> = WorkerBy::turner(
        rotator,
        SystemClock::new(ground.rt),
        words_of(ground.rt, ground.reports),
    );
    add(workers, worker)?;
    Ok(())
}

/// Adds so many rotation workers, each with a rotator of its own.
pub fn add_rotation_workers<'a, H, D: Disk + Drop, M: MakeRotator>(
    ground: &Ground<'a, H>,
    workers: &mut Vec<Hand<'a, H, D, M::Made>>,
    rotators: &M,
    count: u32,
) -> Result<(), NoMemory>
    requires all { All IsFresh workers.old.items }
    ensures all { OnOk result (All IsFresh workers.new.items) }
    ensures long { OnOk result (vec_len workers.new ≡ vec_len workers.old + count) }
{
    for number in 0..count {
        add_rotation_worker(ground, workers, rotators.make()?)?;
    }
    Ok(())
}
