//! The answers of a replica to messages.
ghost use Rattle.std.specs.Prelude.{◌≡◌, ◌≤◌, [], IfOk, List, ℕ};
ghost use Rattle.std.specs.Io.KnownBytes.{append_known};
ghost use Rattle.sm_base.specs.declared.moment.TheConstants.{LAST_READING};
ghost use Rattle.sm_replication.specs.Frames.{IsOneMessage};
ghost use Rattle.sm_replication.specs.declared.input.Input.TheVariants as inputs;
ghost use Rattle.sm_http.specs.Messages as http;
ghost use Rattle.sm_http.specs.Messages.{IsMessage};
ghost use Rattle.sm_http.specs.Reading.{content};
ghost use Rattle.sm_session.specs.Answer.{heard};
ghost use Rattle.sm_session.specs.Hearing.{Hears};
ghost use Rattle.sm_session.specs.Replies.{Says};
ghost use Rattle.sm_follow.specs.Disks.{ComesBy, ComesTo, IfOn, IsLater, IsSure, Stands, disk_in};
ghost use Rattle.sm_follow.specs.InputTurns.{Asks, State, judged_answer, moment_at};

use crate::follower::{Follower, Turned};
use crate::output::Output;
use crate::promoting::stop_replication;
use sm_base::{Bytes, Fails, NoMemory};
use sm_disk::Disk;
use sm_http::{Message, Next, Reader};
use sm_io::{Clock, MemorySource};
use sm_json::Scratch;
use sm_judge_common::Judged;
use sm_model::{Moment, Person, Request};
use sm_principal::People;
use sm_session::{Handled, Heard, Said, read, say_handled, say_refusal};
use std::alloc::Global;

/// How many bytes a source in memory gives at a time.
const STEP: usize = 65_536;

/// Answers the one message that the bytes are, of these people.
pub fn answer_message<D: Disk, C: Clock>(
    scratch: &mut Scratch,
    alloc: Global,
    people: &People,
    follower: Follower<D>,
    bytes: &[u8],
    clock: &mut C,
) -> Turned<D>
    requires message { IsOneMessage bytes.now }
    requires sure { IsSure follower }
    ensures comes { (readings : List ℕ) × (C.readings clock.new ≡ append_known (C.readings clock.old) readings)
        × ((state : State) → Stands state follower
        → ComesTo people.now state (inputs.Message bytes.now) readings (D.faults (disk_in follower)) result) }
    ensures sure { IfOn result IsSure }
    ensures later { IsLater (D.faults (disk_in follower)) result }
{
    match hear(scratch, alloc, people, bytes) {
        Heard::Ask(person, request) => {
            let now = clock.now();
            answer_request(alloc, follower, &person, now, &request)
        }
        Heard::Refused(why) => {
            let said = say_refusal(alloc, &why);
            Turned::On(follower, Output::Reply(said))
        }
        Heard::Memory => Turned::On(follower, Output::Reply(Said::Memory)),
    }
}

/// Who asks for what by the one message that the bytes are.
fn hear(scratch: &mut Scratch, alloc: Global, people: &People, bytes: &[u8]) -> Heard
    requires { IsOneMessage bytes.now }
    ensures hears { (message : http.Message) → IsMessage bytes.now message []
        → Hears result (heard people.now message) }
{
    match message_in(alloc, bytes) {
        Ok(message) => read(scratch, alloc, people, &message),
        Err(NoMemory) => Heard::Memory,
    }
}

/// The one message that the bytes are, as one that owns its parts: a reader finds it in a copy of them.
fn message_in(alloc: Global, bytes: &[u8]) -> Result<Message, NoMemory>
    requires { IsOneMessage bytes.now }
    ensures { IfOk result (λ found. (message : http.Message) → IsMessage bytes.now message []
        → content found ≡ message) }
{
    let copy = Bytes::from_slice(alloc, bytes)?;
    let mut source = MemorySource::new(copy, STEP, Fails::never(alloc));
    let mut reader = Reader::new(alloc);
    match reader.next(&mut source) {
        Next::Message(message) => Ok(message),
        // A source in memory fails only where it is told to, and this one is not.
        Next::ReadFault => Err(NoMemory),
        Next::Memory => Err(NoMemory),
        Next::Bad(_, _) => unreachable!(),
        Next::End => unreachable!(),
        Next::Cut(_) => unreachable!(),
    }
}

/// Answers a request of a person at a reading of the clock.
fn answer_request<D: Disk>(
    alloc: Global,
    follower: Follower<D>,
    person: &Person,
    now: Moment,
    request: &Request,
) -> Turned<D>
    requires bound { now.0 ≤ LAST_READING }
    requires sure { IsSure follower }
    ensures comes { (state : State) → Stands state follower → ComesBy (Asks state (moment_at state now.0)
        (record { person = person.now; request = request.now })) (D.faults (disk_in follower)) result }
    ensures sure { IfOn result IsSure }
    ensures later { IsLater (D.faults (disk_in follower)) result }
{
    let moment = Moment(follower.replica.last().0.max(now.0));
    match request {
        Request::StopReplicationToReplica(stop) => {
            stop_replication(alloc, follower, person, moment, request, &stop.secret_id)
        }
        _ => {
            let said = say_judged(alloc, follower.replica.answer(person, moment, request));
            Turned::On(follower, Output::Reply(said))
        }
    }
}

/// The reply to a request that was judged so.
fn say_judged(alloc: Global, judged: Judged) -> Said
    ensures { Says result (judged_answer judged) }
{
    match judged {
        Judged::Accept(reply, _) => say_handled(alloc, Handled::Answered(reply)),
        Judged::Refuse(why) => say_refusal(alloc, &why),
        Judged::Memory => Said::Memory,
    }
}
