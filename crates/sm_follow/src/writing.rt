//! The writing of outputs.
ghost use Rattle.std.specs.Prelude.{◌≡◌, ◌≤◌, ◌<◌, ◌^◌, IfOk, length, List, ℕ};
ghost use Rattle.std.specs.Io.KnownBytes.{append_known};
ghost use Rattle.sm_base.specs.Faults.{Rose};
ghost use Rattle.sm_replication.specs.Outputs.{position_bytes, reply_bytes};
ghost use Rattle.sm_replication.specs.declared.input.TheConstants as limits;
ghost use Rattle.sm_session.specs.Replies.{framed_answer, reply_of};
ghost use Rattle.sm_follow.specs.Outputs.{IsWritten, Outgoing, Puts, output_bytes};
ghost use Rattle.sm_follow.specs.declared.output.Output.{Output as outputs};

use crate::end::End;
use crate::output::Output;
use sm_base::{Bytes, NoMemory};
use sm_http::Piece;
use sm_io::{MemorySink, Sink, Wrote, put_all};
use sm_model::Fails;
use sm_replication::{LIST_LIMIT, encode_position, encode_reply};
use sm_session::{Said, send};
use std::alloc::Global;

/// How many bytes a sink in memory takes at a time.
const STEP: usize = 65_536;

/// Writes an output, and counts its bytes. Where it is not written, it says how the stream ends.
pub fn put_output<K: Sink>(
    alloc: Global,
    sink: &mut K,
    count: &mut u64,
    output: &Output,
) -> Option<End>
    ensures puts { Puts result output.now count.old count.new (K.taken sink.old) (K.taken sink.new)
        (K.sink_faults sink.old) (K.sink_faults sink.new) }
    ensures later { K.sink_faults sink.old ≤ K.sink_faults sink.new }
{
    match encode_output(alloc, output) {
        Ok(bytes) => put_bytes(sink, count, bytes.as_slice()),
        Err(NoMemory) => Some(End::Memory),
    }
}

/// Writes bytes, and counts them. Where the sink fails, it says how the stream ends.
fn put_bytes<K: Sink>(sink: &mut K, count: &mut u64, bytes: &[u8]) -> Option<End>
    ensures puts { (said : outputs) → (output : Outgoing) → IsWritten said output
        → bytes.now ≡ output_bytes output
        → Puts result said count.old count.new (K.taken sink.old) (K.taken sink.new)
        (K.sink_faults sink.old) (K.sink_faults sink.new) }
    ensures later { K.sink_faults sink.old ≤ K.sink_faults sink.new }
{
    match put_all(sink, bytes) {
        Wrote::Ok => {
            *count = count.saturating_add(bytes.len() as u64);
            None
        }
        Wrote::Fault(taken) => Some(End::WriteFault(count.saturating_add(taken))),
    }
}

/// The bytes of an output.
fn encode_output(alloc: Global, output: &Output) -> Result<Bytes, NoMemory>
    ensures { IfOk result (λ bytes. (written : Outgoing) × IsWritten output.now written
        × (bytes ≡ output_bytes written)) }
{
    match output {
        Output::Position(at) => encode_position(alloc, *at),
        Output::Reply(said) => encode_said(alloc, said),
    }
}

/// The bytes of a reply. One that is too long for an output, which none comes near, is told as out of memory.
fn encode_said(alloc: Global, said: &Said) -> Result<Bytes, NoMemory>
    ensures { IfOk result (λ bytes. bytes ≡ reply_bytes (framed_answer (reply_of said.now))) }
{
    let framed = framed(alloc, said)?;
    if framed.len() > LIST_LIMIT as usize {
        return Err(NoMemory);
    }
    encode_reply(alloc, framed.as_slice())
}

/// The HTTP message of a reply.
fn framed(alloc: Global, said: &Said) -> Result<Bytes, NoMemory>
    ensures { IfOk result (λ bytes. bytes ≡ framed_answer (reply_of said.now)) }
{
    let mut sink = MemorySink::new(alloc, STEP, Fails::never(alloc));
    let mut piece = Piece::new();
    let sent = send(&mut sink, &mut piece, said);
    if !sent.whole {
        return Err(NoMemory);
    }
    Bytes::from_slice(alloc, sink.taken().as_slice())
}
