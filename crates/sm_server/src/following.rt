//! A run that follows a primary.
ghost use Rattle.std.specs.Prelude.{◌≡◌, ◌≤◌, Ok, Option, List, ℕ};
ghost use Rattle.sm_principal.specs.Callers.{people_of};
ghost use Rattle.sm_server.specs.Follows.{FollowRan, status_of_end};
ghost use Rattle.sm_server.specs.Outside.{outside_reading};

use crate::asked::people_of;
use crate::run::end_unopened;
use crate::status::Status;
use sm_disk::Disk;
use sm_follow::{End, follow};
use sm_io::{Clock, Sink, Source};
use sm_model::Text;
use sm_principal::People;
use std::alloc::Global;

/// Reads the text of the people, and follows the frames of a source as the replica in a region.
pub fn follow_primary<Q: Source, K: Sink, D: Disk, C: Clock>(
    alloc: Global,
    region: Text,
    people: &[u8],
    disk: D,
    source: &mut Q,
    sink: &mut K,
    clock: &mut C,
) -> (Status, D)
    ensures ran { (drawn : Option (List ℕ)) → (random : ℕ) → (rotator : ℕ) → FollowRan D.Disk (people_of people.now)
        region result.0
        (outside_reading drawn random rotator Q.Source K.Sink C.Clock source.old sink.old (D.faults disk) clock.old)
        (outside_reading drawn random rotator Q.Source K.Sink C.Clock source.new sink.new (D.faults result.1) clock.new)
        disk result.1 }
    ensures source_later { Q.source_faults source.old ≤ Q.source_faults source.new }
    ensures sink_later { K.sink_faults sink.old ≤ K.sink_faults sink.new }
    ensures disk_later { D.faults disk ≤ D.faults result.1 }
{
    match people_of(alloc, people) {
        Ok(people) => follow_with(alloc, region, &people, disk, source, sink, clock),
        Err(status) => (status, disk),
    }
}

/// Follows the frames of a source as the replica in a region, which these people may ask.
fn follow_with<Q: Source, K: Sink, D: Disk, C: Clock>(
    alloc: Global,
    region: Text,
    people: &People,
    disk: D,
    source: &mut Q,
    sink: &mut K,
    clock: &mut C,
) -> (Status, D)
    ensures ran { (drawn : Option (List ℕ)) → (random : ℕ) → (rotator : ℕ) → FollowRan D.Disk (Ok people.now)
        region result.0
        (outside_reading drawn random rotator Q.Source K.Sink C.Clock source.old sink.old (D.faults disk) clock.old)
        (outside_reading drawn random rotator Q.Source K.Sink C.Clock source.new sink.new (D.faults result.1) clock.new)
        disk result.1 }
    ensures source_later { Q.source_faults source.old ≤ Q.source_faults source.new }
    ensures sink_later { K.sink_faults sink.old ≤ K.sink_faults sink.new }
    ensures disk_later { D.faults disk ≤ D.faults result.1 }
{
    match follow(alloc, region, people, disk, source, sink, clock) {
        Ok((end, disk)) => (status_of_end(end), disk),
        Err(refused) => end_unopened(refused),
    }
}

/// How a run ends whose replica's stream ended so.
fn status_of_end(end: End) -> Status
    ensures { result ≡ status_of_end end }
{
    match end {
        End::Closed => Status::Done,
        End::Cut(count) => Status::Cut(count),
        End::Bad(at) => Status::BadMessage(at),
        End::Enough => Status::Enough,
        End::ReadFault => Status::SourceFault,
        End::WriteFault(count) => Status::SinkFault(count),
        End::DiskFault => Status::OpenFault,
        End::Memory => Status::Memory,
    }
}
