//! The frames that bring a replica to the end of an account.
ghost use Rattle.std.specs.Prelude.{◌≡◌, ◌≤◌, List, ℕ};
ghost use Rattle.std.specs.Io.KnownBytes.{append_known};
ghost use Rattle.sm_base.specs.Faults.{Rose};
ghost use Rattle.sm_account.specs.Accounts.{all_of};
ghost use Rattle.sm_replica.specs.Shipped.{AreShippable, IsShippable};
ghost use Rattle.sm_server.specs.Ships.{PutsFrames, ShipsBy, shipped_bytes};
ghost use Rattle.sm_server.specs.Shipping.{PutsBytes, PutsFrame};

use crate::status::Status;
use sm_account::Account;
use sm_base::NoMemory;
use sm_disk::Disk;
use sm_io::{Sink, Wrote, put_all};
use sm_replica::ship;
use sm_replication::{Frame, encode};
use sm_rotator::Rotator;
use std::alloc::Global;

/// Writes the frames that bring a replica from a position to the end of an account.
pub fn ship_frames<K: Sink, D: Disk, R: Rotator>(
    alloc: Global,
    account: &Account<D, R>,
    position: u64,
    sink: &mut K,
) -> Status
    ensures ships { (written : List ℕ) × (K.taken sink.new ≡ append_known (K.taken sink.old) written)
        × ShipsBy (Rose (K.sink_faults sink.old) (K.sink_faults sink.new)) (all_of account.now) position result
        written }
    ensures later { K.sink_faults sink.old ≤ K.sink_faults sink.new }
{
    match ship(alloc, account, position) {
        Ok(frames) => put_frames(alloc, frames.as_slice(), sink),
        Err(NoMemory) => Status::Memory,
    }
}

/// Writes frames, one after the other.
fn put_frames<K: Sink>(alloc: Global, frames: &[Frame], sink: &mut K) -> Status
    requires { AreShippable frames.now }
    ensures puts { (written : List ℕ) × (K.taken sink.new ≡ append_known (K.taken sink.old) written)
        × PutsFrames (Rose (K.sink_faults sink.old) (K.sink_faults sink.new)) result (shipped_bytes frames.now)
        written }
    ensures later { K.sink_faults sink.old ≤ K.sink_faults sink.new }
{
    let mut count: u64 = 0;
    for frame in frames {
        match put_frame(alloc, frame, sink, &mut count) {
            None => {}
            Some(status) => return status,
        }
    }
    Status::Done
}

/// Writes a frame, and counts its bytes. Where it is not written it says how the run ends. A frame that is too long to
/// be one ends it as out of memory does.
fn put_frame<K: Sink>(alloc: Global, frame: &Frame, sink: &mut K, count: &mut u64) -> Option<Status>
    requires { IsShippable frame.now }
    ensures puts { PutsFrame result frame.now count.old count.new (K.taken sink.old) (K.taken sink.new)
        (K.sink_faults sink.old) (K.sink_faults sink.new) }
    ensures later { K.sink_faults sink.old ≤ K.sink_faults sink.new }
{
    match encode(alloc, frame) {
        Ok(bytes) => put_bytes(sink, count, bytes.as_slice()),
        Err(_) => Some(Status::Memory),
    }
}

/// Writes bytes, and counts them. Where the sink fails it says how the run ends.
fn put_bytes<K: Sink>(sink: &mut K, count: &mut u64, bytes: &[u8]) -> Option<Status>
    ensures puts { PutsBytes result bytes.now count.old count.new (K.taken sink.old) (K.taken sink.new)
        (K.sink_faults sink.old) (K.sink_faults sink.new) }
    ensures later { K.sink_faults sink.old ≤ K.sink_faults sink.new }
{
    match put_all(sink, bytes) {
        Wrote::Ok => {
            *count = count.saturating_add(bytes.len() as u64);
            None
        }
        Wrote::Fault(taken) => Some(Status::SinkFault(count.saturating_add(taken))),
    }
}
