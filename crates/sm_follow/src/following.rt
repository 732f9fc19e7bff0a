//! A replica over one stream and a disk.
ghost use Rattle.std.specs.Prelude.{◌≡◌, ◌≤◌, IfOk, IfErr, IfNone, None, ℕ};
ghost use Rattle.std.specs.Io.KnownBytes.{append_known, IsAtEnd};
ghost use Rattle.sm_base.specs.Faults.{Rose};
ghost use Rattle.sm_replication.specs.Frames.{IsFrame};
ghost use Rattle.sm_replication.specs.Reading.{Reads};
ghost use Rattle.sm_store.specs.Openings.{IsOpenRefused};
ghost use Rattle.sm_follow.specs.Disks.{FollowsOver, IsSure, KeepsOnDisk, Stands, IfFails, disk_in};
ghost use Rattle.sm_follow.specs.Streams.{Followed, around_by};
ghost use Rattle.sm_follow.specs.Steps.{OnInputEnd, OnInputFault, Steps, next_of};
ghost use Rattle.sm_follow.specs.InputTurns.{Onward, State, kept_of};

use crate::end::End;
use crate::follower::{Follower, Turned};
use crate::turns::turn;
use crate::writing::put_output;
use sm_base::limits::JOURNAL_LIMIT;
use sm_disk::Disk;
use sm_io::{Clock, Sink, Source};
use sm_journal::OpenRefused;
use sm_json::Scratch;
use sm_model::Text;
use sm_principal::People;
use sm_replica::Replica;
use sm_replication::{FrameReader, Input, NextFrame};
use sm_store::Store;
use std::alloc::Global;

/// How many frames of a stream are read at most.
pub const FRAME_LIMIT: usize = 100_000;

/// Opens the store of a disk, and follows the frames of a source as the replica in a region, 100,000 at most: takes
/// entries and rows, and answers messages of these people. What is written for each is written before the next one is
/// read. What the disk has stays as it is until the replica is promoted. An opening that is refused hands the disk
/// back, and nothing was read.
pub fn follow<Q: Source, K: Sink, D: Disk, C: Clock>(
    alloc: Global,
    region: Text,
    people: &People,
    disk: D,
    source: &mut Q,
    sink: &mut K,
    clock: &mut C,
) -> Result<(End, D), OpenRefused<D>>
    ensures followed { IfOk result (λ followed. FollowsOver D.Disk people.now region followed.0
        (around_by Q.Source K.Sink C.Clock source.old sink.old clock.old)
        (around_by Q.Source K.Sink C.Clock source.new sink.new clock.new) disk followed.1) }
    ensures refused { IfErr result (IsOpenRefused D.Disk disk) }
    ensures unread { IfErr result (λ refused. source.new ≡ source.old) }
    ensures unwritten { IfErr result (λ refused. sink.new ≡ sink.old) }
    ensures untold { IfErr result (λ refused. clock.new ≡ clock.old) }
    ensures source_later { Q.source_faults source.old ≤ Q.source_faults source.new }
    ensures sink_later { K.sink_faults sink.old ≤ K.sink_faults sink.new }
{
    match Store::open(alloc, disk, JOURNAL_LIMIT) {
        Ok((store, loaded)) => {
            // What the disk holds is not asked for.
            drop(loaded);
            let replica = Replica::new(alloc, region);
            let follower = Follower { replica, store };
            Ok(follow_source(alloc, people, follower, source, sink, clock))
        }
        Err(unopened) => Err(unopened.told()),
    }
}

/// Follows the frames of a source, as far as they come.
fn follow_source<Q: Source, K: Sink, D: Disk, C: Clock>(
    alloc: Global,
    people: &People,
    start: Follower<D>,
    source: &mut Q,
    sink: &mut K,
    clock: &mut C,
) -> (End, D)
    requires { IsSure start }
    ensures followed { (state : State) → Stands state start → (onward : Onward)
        × Followed people.now state result.0
        (around_by Q.Source K.Sink C.Clock source.old sink.old clock.old)
        (around_by Q.Source K.Sink C.Clock source.new sink.new clock.new) onward
        × KeepsOnDisk (kept_of onward) (D.sight result.1)
        × IfFails onward (Rose (D.faults (disk_in start)) (D.faults result.1)) }
    ensures source_later { Q.source_faults source.old ≤ Q.source_faults source.new }
    ensures sink_later { K.sink_faults sink.old ≤ K.sink_faults sink.new }
    ensures disk_later { D.faults (disk_in start) ≤ D.faults result.1 }
{
    let mut reader = FrameReader::new(alloc);
    let mut scratch = Scratch::new(alloc);
    let mut follower = start;
    let mut count: u64 = 0;
    for number in 0..FRAME_LIMIT {
        let input = match next_input(&mut reader, source) {
            Ok(input) => input,
            Err(end) => return (end, follower.close()),
        };
        match step(
            &mut scratch,
            alloc,
            people,
            follower,
            &input,
            sink,
            &mut count,
            clock,
        ) {
            Ok(next) => follower = next,
            Err(ended) => return ended,
        }
    }
    (End::Enough, follower.close())
}

/// The next frame of a source, or how the stream ends.
fn next_input<Q: Source>(reader: &mut FrameReader, source: &mut Q) -> Result<Input, End>
    requires { reader.old.ended ≡ None }
    ensures reads { (answer : NextFrame) × next_of result answer
        × Reads reader.old answer reader.new (Q.left source.old) (Q.left source.new) }
    ensures end { OnInputEnd result (IsAtEnd (Q.left source.new)) }
    ensures failed { OnInputFault result (Rose (Q.source_faults source.old) (Q.source_faults source.new)) }
    ensures later { Q.source_faults source.old ≤ Q.source_faults source.new }
{
    match reader.next(source) {
        NextFrame::Input(input) => Ok(input),
        NextFrame::Bad(at) => Err(End::Bad(at)),
        NextFrame::End => Err(End::Closed),
        NextFrame::Cut(count) => Err(End::Cut(count)),
        NextFrame::ReadFault => Err(End::ReadFault),
        NextFrame::Memory => Err(End::Memory),
    }
}

/// Does what an input asks for, and writes what is to be written of it.
fn step<K: Sink, D: Disk, C: Clock>(
    scratch: &mut Scratch,
    alloc: Global,
    people: &People,
    follower: Follower<D>,
    input: &Input,
    sink: &mut K,
    count: &mut u64,
    clock: &mut C,
) -> Result<Follower<D>, (End, D)>
    requires frame { IsFrame input.now }
    requires sure { IsSure follower }
    ensures steps { (state : State) → Stands state follower → Steps people.now state input.now result
        (D.faults (disk_in follower)) (C.readings clock.old) (C.readings clock.new)
        (record { count = count.old; taken = K.taken sink.old; faults = K.sink_faults sink.old })
        (record { count = count.new; taken = K.taken sink.new; faults = K.sink_faults sink.new }) }
    ensures sure { IfOk result (λ next. IsSure next) }
    ensures sink_later { K.sink_faults sink.old ≤ K.sink_faults sink.new }
    ensures on_later { IfOk result (λ next. D.faults (disk_in follower) ≤ D.faults (disk_in next)) }
    ensures end_later { IfErr result (λ ended. D.faults (disk_in follower) ≤ D.faults ended.1) }
{
    match turn(scratch, alloc, people, follower, input, clock) {
        Turned::On(next, output) => match put_output(alloc, sink, count, &output) {
            None => Ok(next),
            Some(end) => Err((end, next.close())),
        },
        Turned::Ends(end, disk, output) => match put_output(alloc, sink, count, &output) {
            None => Err((end, disk)),
            Some(end) => Err((end, disk)),
        },
        Turned::Lacks(disk) => Err((End::Memory, disk)),
    }
}
