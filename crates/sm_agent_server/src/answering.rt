//! The messages of a source, answered one after the other by a caching reader.
ghost use Rattle.std.specs.Prelude.{◌≡◌, ◌≤◌, Option};
ghost use Rattle.sm_agent.specs.declared.answer.Answer.{Answer};
ghost use Rattle.sm_agent.specs.Runs.{Call};
ghost use Rattle.sm_agent.specs.Exchanges.{Came, Passes};
ghost use Rattle.sm_http.specs.Framed.{Sends};
ghost use Rattle.sm_session.specs.Replies.{reply_of, framed_answer};
ghost use Rattle.sm_agent_server.specs.Streams.{answered, around_by, StreamOf};

use sm_agent::{Agent, Upstream, turn};
use sm_base::NoMemory;
use sm_http::{Message, Piece, Reader, Sent};
use sm_io::{Clock, Sink, Source};
use sm_session::{Ended, MESSAGE_LIMIT, Said, finish, next_message, send};
use std::alloc::Global;

/// Answers the messages of a source, 1,000 at most, and says how their stream ended. The reply to each is written
/// before the next one is read.
pub fn answer_stream<Q: Source, K: Sink, U: Upstream, C: Clock>(
    alloc: Global,
    agent: &mut Agent,
    source: &mut Q,
    sink: &mut K,
    upstream: &mut U,
    clock: &mut C,
) -> Ended
    ensures stream { StreamOf result agent.old agent.new
        (around_by Q.Source K.Sink U.Upstream C.Clock source.old sink.old upstream.old clock.old)
        (around_by Q.Source K.Sink U.Upstream C.Clock source.new sink.new upstream.new clock.new) }
    ensures source_later { Q.source_faults source.old ≤ Q.source_faults source.new }
    ensures sink_later { K.sink_faults sink.old ≤ K.sink_faults sink.new }
    ensures upstream_later { U.faults upstream.old ≤ U.faults upstream.new }
{
    let mut reader = Reader::new(alloc);
    let mut piece = Piece::new();
    let mut count: u64 = 0;
    for number in 0..MESSAGE_LIMIT {
        let message = match next_message(&mut reader, source) {
            Ok(message) => message,
            Err(stop) => return finish(alloc, sink, &mut piece, count, stop),
        };
        let sent = answer_message(alloc, agent, &message, sink, &mut piece, upstream, clock);
        count = count.saturating_add(sent.taken);
        if !sent.whole {
            return Ended::WriteFault(count);
        }
    }
    Ended::Enough
}

/// What is said to a message.
fn said<U: Upstream, C: Clock>(
    alloc: Global,
    agent: &mut Agent,
    message: &Message,
    upstream: &mut U,
    clock: &mut C,
) -> Said
    ensures { (call : Option Call) × (answer : Option Answer)
        × Came message.now.method message.now.path call answer agent.old agent.new
        × Passes call (U.told upstream.old) (U.told upstream.new) (C.readings clock.old) (C.readings clock.new)
        (U.faults upstream.old) (U.faults upstream.new)
        × (reply_of result ≡ answered answer) }
{
    match turn(
        alloc,
        agent,
        upstream,
        clock,
        message.method.as_slice(),
        message.path.as_slice(),
    ) {
        Ok(answer) => Said::Reply(answer.status, answer.body),
        Err(NoMemory) => Said::Memory,
    }
}

/// Answers a message, and says how much of the reply the sink took.
fn answer_message<K: Sink, U: Upstream, C: Clock>(
    alloc: Global,
    agent: &mut Agent,
    message: &Message,
    sink: &mut K,
    piece: &mut Piece,
    upstream: &mut U,
    clock: &mut C,
) -> Sent
    ensures turn { (call : Option Call) × (answer : Option Answer)
        × Came message.now.method message.now.path call answer agent.old agent.new
        × Passes call (U.told upstream.old) (U.told upstream.new) (C.readings clock.old) (C.readings clock.new)
        (U.faults upstream.old) (U.faults upstream.new)
        × Sends result (framed_answer (answered answer)) (K.taken sink.old) (K.taken sink.new)
        (K.sink_faults sink.old) (K.sink_faults sink.new) }
    ensures sink_later { K.sink_faults sink.old ≤ K.sink_faults sink.new }
{
    let said = said(alloc, agent, message, upstream, clock);
    send(sink, piece, &said)
}
