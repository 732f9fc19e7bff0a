//! The writing of replies.
ghost use Rattle.std.specs.Prelude.{◌≡◌, ◌≤◌};
ghost use Rattle.sm_http.specs.Framed.{Sends};
ghost use Rattle.sm_session.specs.Replies.{reply_of, framed_answer, unavailable};

use crate::said::Said;
use sm_http::{Piece, Sent, write_through};
use sm_io::Sink;

/// The body of the reply where memory ran out.
const UNAVAILABLE: &[u8] = b"{\"Message\":\"out of memory\",\"__type\":\"ServiceUnavailable\"}";

/// Writes a reply, or the one that stands where memory ran out. It takes none.
pub fn send<K: Sink>(sink: &mut K, piece: &mut Piece, said: &Said) -> Sent
    ensures sent { Sends result (framed_answer (reply_of said.now)) (K.taken sink.old) (K.taken sink.new)
        (K.sink_faults sink.old) (K.sink_faults sink.new) }
    ensures later { K.sink_faults sink.old ≤ K.sink_faults sink.new }
    ensures beside { K.beside_sink sink.new ≡ K.beside_sink sink.old }
{
    match said {
        Said::Reply(status, body) => write_through(sink, piece, *status, body.as_slice()),
        Said::Memory => send_unavailable(sink, piece),
    }
}

/// Writes the reply where memory ran out.
fn send_unavailable<K: Sink>(sink: &mut K, piece: &mut Piece) -> Sent
    ensures sent { Sends result (framed_answer unavailable) (K.taken sink.old) (K.taken sink.new)
        (K.sink_faults sink.old) (K.sink_faults sink.new) }
    ensures later { K.sink_faults sink.old ≤ K.sink_faults sink.new }
    ensures beside { K.beside_sink sink.new ≡ K.beside_sink sink.old }
{
    write_through(sink, piece, 503, UNAVAILABLE)
}
