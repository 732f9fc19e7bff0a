//! The messages of a stream as they come, and its end.
ghost use Rattle.std.specs.Prelude.{◌≡◌, ◌≤◌, IfErr};
ghost use Rattle.sm_base.specs.Faults.{Rose};
ghost use Rattle.sm_http.specs.Reading.{Reads};
ghost use Rattle.sm_session.specs.Endings.{next_of, StopsBy, Refuses, Finishes};

use crate::ended::Ended;
use crate::saying::say_refusal;
use crate::sending::send;
use sm_http::{Message, Next, Piece, Reader, Stop};
use sm_io::{Sink, Source};
use sm_model::{BadKind, Why};
use std::alloc::Global;

/// How many messages of a stream are answered at most.
pub const MESSAGE_LIMIT: usize = 1_000;

/// The next message of a stream, or why there is none.
pub fn next_message<Q: Source>(reader: &mut Reader, source: &mut Q) -> Result<Message, Stop>
    ensures reads { Reads reader.old (next_of result) reader.new (Q.left source.old) (Q.left source.new) }
    ensures stops { IfErr result (λ why. StopsBy reader.old.ended why (Q.left source.old) (Q.left source.new)
        (Rose (Q.source_faults source.old) (Q.source_faults source.new))) }
    ensures later { Q.source_faults source.old ≤ Q.source_faults source.new }
    ensures beside { Q.beside_source source.new ≡ Q.beside_source source.old }
{
    match reader.next(source) {
        Next::Message(message) => Ok(message),
        Next::Bad(kind, at) => Err(Stop::Bad(kind, at)),
        Next::End => Err(Stop::End),
        Next::Cut(count) => Err(Stop::Cut(count)),
        Next::ReadFault => Err(Stop::ReadFault),
        Next::Memory => Err(Stop::Memory),
    }
}

/// Ends a stream whose reader stopped, of whose replies the sink took so many bytes until now: a bad message gets its
/// reply first.
pub fn finish<K: Sink>(
    alloc: Global,
    sink: &mut K,
    piece: &mut Piece,
    counted: u64,
    stop: Stop,
) -> Ended
    ensures finishes { Finishes stop counted result (K.taken sink.old) (K.taken sink.new)
        (K.sink_faults sink.old) (K.sink_faults sink.new) }
    ensures later { K.sink_faults sink.old ≤ K.sink_faults sink.new }
    ensures beside { K.beside_sink sink.new ≡ K.beside_sink sink.old }
{
    match stop {
        Stop::Bad(kind, at) => refuse(alloc, sink, piece, counted, kind, at),
        Stop::End => Ended::Closed,
        Stop::Cut(count) => Ended::Cut(count),
        Stop::ReadFault => Ended::ReadFault,
        Stop::Memory => Ended::Memory,
    }
}

/// Writes the reply to a bad message, whose first byte has this number, and says how the stream ends. The sink took so
/// many bytes until now.
fn refuse<K: Sink>(
    alloc: Global,
    sink: &mut K,
    piece: &mut Piece,
    counted: u64,
    kind: BadKind,
    at: u64,
) -> Ended
    ensures refuses { Refuses kind at counted result (K.taken sink.old) (K.taken sink.new)
        (K.sink_faults sink.old) (K.sink_faults sink.new) }
    ensures later { K.sink_faults sink.old ≤ K.sink_faults sink.new }
    ensures beside { K.beside_sink sink.new ≡ K.beside_sink sink.old }
{
    let said = say_refusal(alloc, &Why::Http(kind));
    let sent = send(sink, piece, &said);
    if sent.whole {
        Ended::Bad(kind, at)
    } else {
        Ended::WriteFault(counted.saturating_add(sent.taken))
    }
}
