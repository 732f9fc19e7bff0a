//! Writing replies (RFC 9112): head and body in one piece where they fit, and without memory.
ghost use Rattle.std.specs.Prelude.{◌≡◌, ◌<◌, ◌≤◌, ◌+◌, ◌++◌, [], length, decimal};
ghost use Rattle.arrayvec.specs.ArrayVec.{array_vec_len};
ghost use Rattle.sm_base.specs.Faults.{Rose};
ghost use Rattle.sm_io.specs.Transfer.{IfFault, StaysUnlessFault, Writes};
ghost use Rattle.sm_http.specs.Framed.{reason_of, head_text, framed, Sends};

use arrayvec::ArrayVec;
use itoa::Buffer;
use sm_io::{Sink, Wrote, put_all};

/// How long the first piece of a reply is at most. Most replies fit, and it costs little to make.
const PIECE_LIMIT: usize = 8_192;

/// Room for the first piece of a reply: its head, and as much of the body as fits. It is made once, and used for any
/// number of replies.
pub type Piece = ArrayVec<u8, PIECE_LIMIT>;

/// How much of a reply the sink took.
#[derive(Clone, Copy, Debug, PartialEq, Eq)]
pub struct Sent {
    /// So many of its bytes.
    pub taken: u64,
    /// All of them. Otherwise the sink failed.
    pub whole: bool,
}

/// Writes a reply. It takes no memory.
pub fn write<K: Sink>(sink: &mut K, status: u16, body: &[u8]) -> Sent
    ensures sent { Sends result (framed status body.now) (K.taken sink.old) (K.taken sink.new) (K.sink_faults sink.old)
        (K.sink_faults sink.new) }
    ensures later { K.sink_faults sink.old ≤ K.sink_faults sink.new }
    ensures beside { K.beside_sink sink.new ≡ K.beside_sink sink.old }
{
    write_through(sink, &mut Piece::new(), status, body)
}

/// Writes a reply, whose first piece is put together in the room that is given. It takes no memory.
pub fn write_through<K: Sink>(sink: &mut K, piece: &mut Piece, status: u16, body: &[u8]) -> Sent
    ensures sent { Sends result (framed status body.now) (K.taken sink.old) (K.taken sink.new) (K.sink_faults sink.old)
        (K.sink_faults sink.new) }
    ensures later { K.sink_faults sink.old ≤ K.sink_faults sink.new }
    ensures beside { K.beside_sink sink.new ≡ K.beside_sink sink.old }
{
    set_head(piece, status, body.len());
    let (front, back) = body.split_at(body.len().min(piece.remaining_capacity()));
    extend(piece, front);
    let size = piece.len() as u64 + back.len() as u64;
    match put_both(sink, piece.as_slice(), back) {
        Wrote::Ok => Sent {
            taken: size,
            whole: true,
        },
        Wrote::Fault(taken) => Sent {
            taken,
            whole: false,
        },
    }
}

/// Puts two pieces, one after the other.
fn put_both<K: Sink>(sink: &mut K, front: &[u8], back: &[u8]) -> Wrote
    ensures bytes { Writes result (front.now ++ back.now) (K.taken sink.old) (K.taken sink.new) }
    ensures short { IfFault result (λ n. n < length front.now + length back.now) }
    ensures failed { IfFault result (λ _. Rose (K.sink_faults sink.old) (K.sink_faults sink.new)) }
    ensures later { K.sink_faults sink.old ≤ K.sink_faults sink.new }
    ensures no_other { StaysUnlessFault result (K.sink_faults sink.old) (K.sink_faults sink.new) }
    ensures beside { K.beside_sink sink.new ≡ K.beside_sink sink.old }
{
    match put_all(sink, front) {
        Wrote::Ok => match put_all(sink, back) {
            Wrote::Ok => Wrote::Ok,
            Wrote::Fault(taken) => Wrote::Fault(front.len() as u64 + taken),
        },
        Wrote::Fault(taken) => Wrote::Fault(taken),
    }
}

/// Adds bytes to a piece that has room for them.
fn extend(piece: &mut Piece, bytes: &[u8])
    requires { array_vec_len piece.old + length bytes.now ≤ 8192 }
    ensures items { piece.new.items ≡ piece.old.items ++ bytes.now }
    ensures len { array_vec_len piece.new ≡ array_vec_len piece.old + length bytes.now }
{
    let _ = piece.try_extend_from_slice(bytes);
}

/// Adds a number in decimal.
fn extend_decimal(piece: &mut Piece, number: u64)
    requires { array_vec_len piece.old + 20 ≤ 8192 }
    ensures items { piece.new.items ≡ piece.old.items ++ decimal number }
    ensures len { array_vec_len piece.new ≤ array_vec_len piece.old + 20 }
{
    let mut buffer = Buffer::new();
    extend(piece, buffer.format(number).as_bytes());
}

/// The reason of a status.
fn reason(status: u16) -> &'static str
    ensures value { result.now ≡ reason_of status }
    ensures short { length result.now ≤ 21 }
{
    match status {
        200 => "OK",
        413 => "Content Too Large",
        500 => "Internal Server Error",
        503 => "Service Unavailable",
        _ => "Bad Request",
    }
}

/// Makes the piece what stands before a body of this length.
fn set_head(piece: &mut Piece, status: u16, size: usize)
    ensures items { piece.new.items ≡ head_text status size }
{
    piece.clear();
    extend(piece, b"HTTP/1.1 ");
    extend_decimal(piece, u64::from(status));
    extend(piece, b" ");
    extend(piece, reason(status).as_bytes());
    extend(
        piece,
        b"\r\nContent-Type: application/x-amz-json-1.1\r\nContent-Length: ",
    );
    extend_decimal(piece, size as u64);
    extend(piece, b"\r\n\r\n");
}
