//! The session of one connection.
ghost use Rattle.std.specs.Prelude.{◌≡◌, ◌≤◌, ◌++◌, [], IfErr};
ghost use Rattle.sm_base.specs.Faults.{Rose};
ghost use Rattle.sm_account.specs.Accounts.{base};
ghost use Rattle.sm_http.specs.Framed.{Sends};
ghost use Rattle.sm_http.specs.Reading.{Reads};
ghost use Rattle.sm_lock.specs.Handles.{built_with, number, seen, mine, IsIn};
ghost use Rattle.sm_account.specs.SeatTraces.{marks_in};
ghost use Rattle.sm_session.specs.Complete.{Completes};
ghost use Rattle.sm_session.specs.Endings.{next_of, StopsBy, Finishes};
ghost use Rattle.sm_session.specs.Replies.{reply_of, framed_answer};
ghost use Rattle.sm_session.specs.Sessions.{Serves, turn_shape};
ghost use Rattle.sm_session.specs.Views.{around_by};

use crate::ended::Ended;
use crate::said::Said;
use crate::sending::send;
use crate::streams::{MESSAGE_LIMIT, finish, next_message};
use crate::taking::{Taken, take_turn};
use crate::trace::{ServedBy, Trace, TraceItem};
use sm_account::Account;
use sm_disk::Disk;
use sm_http::{Message, Piece, Reader, Sent, Stop};
use sm_io::{Clock, Conn, Words};
use sm_json::Scratch;
use sm_lock::{Gate, Pass, Storied};
use sm_model::List;
use sm_principal::People;
use sm_rotator::Rotator;
use std::alloc::Global;
use std::sync::Wait;

/// Answers the messages of a connection one after the other, at most 1,000, at an account behind a lock, for whom may
/// ask. The reply to each is written before the next one is read.
pub fn serve<K: Conn, C: Clock, W: Words, D: Disk, R: Rotator, H: Wait>(
    rt: &H,
    alloc: Global,
    gate: &Gate<Account<D, R>>,
    pass: Pass<Account<D, R>>,
    conn: &mut K,
    clock: &mut C,
    words: &mut W,
    people: &People,
) -> ServedBy<Account<D, R>>
    requires { IsIn gate.now pass }
    ensures gate { IsIn gate.now result.pass }
    ensures number { number result.pass ≡ number pass }

    // What the session did; the seat's own marks are those of its turns; where nothing failed, no message went without
    // the model's reply.
    ensures served { (session : Serves people.now (record { base = base (built_with gate.now); seat = number pass })
        (around_by K.Source K.Sink C.Clock W.Words (seen pass) conn.old clock.old words.old)
        (around_by K.Source K.Sink C.Clock W.Words (seen result.pass) conn.new clock.new words.new)
        result.ended result.trace.items)
        × (mine result.pass ≡ mine pass ++ marks_in turn_shape session.turns)
        × Completes session }
    ensures source_later { K.source_faults conn.old ≤ K.source_faults conn.new }
    ensures sink_later { K.sink_faults conn.old ≤ K.sink_faults conn.new }
    ensures random_later { W.faults words.old ≤ W.faults words.new }
{
    let mut items = Vec::new(alloc);
    let Left { pass, ended } = answer_stream(
        rt, alloc, gate, pass, conn, clock, words, people, &mut items,
    );
    ServedBy {
        pass,
        trace: Trace {
            items: List::new(items),
        },
        ended,
    }
}

/// What the messages of a connection leave: the pass again, and how they ended.
struct Left<A: Storied> {
    pass: Pass<A>,
    ended: Ended,
}

/// Answers the messages of a connection, and keeps an item of each. Its place is there before a message is read.
fn answer_stream<K: Conn, C: Clock, W: Words, D: Disk, R: Rotator, H: Wait>(
    rt: &H,
    alloc: Global,
    gate: &Gate<Account<D, R>>,
    pass: Pass<Account<D, R>>,
    conn: &mut K,
    clock: &mut C,
    words: &mut W,
    people: &People,
    items: &mut Vec<TraceItem>,
) -> Left<Account<D, R>>
    requires gate { IsIn gate.now pass }
    requires fresh { items.old.items ≡ [] }
    ensures gate { IsIn gate.now result.pass }
    ensures number { number result.pass ≡ number pass }
    ensures served { Serves people.now (record { base = base (built_with gate.now); seat = number pass })
        (around_by K.Source K.Sink C.Clock W.Words (seen pass) conn.old clock.old words.old)
        (around_by K.Source K.Sink C.Clock W.Words (seen result.pass) conn.new clock.new words.new)
        result.ended items.new.items }
    ensures source_later { K.source_faults conn.old ≤ K.source_faults conn.new }
    ensures sink_later { K.sink_faults conn.old ≤ K.sink_faults conn.new }
    ensures random_later { W.faults words.old ≤ W.faults words.new }
{
    let mut pass = pass;
    let mut reader = Reader::new(alloc);
    let mut piece = Piece::new();
    let mut scratch = Scratch::new(alloc);
    let mut count: u64 = 0;
    for number in 0..MESSAGE_LIMIT {
        let Ok(()) = items.reserve(1) else {
            return Left {
                pass,
                ended: Ended::Memory,
            };
        };
        let message = match receive(&mut reader, conn) {
            Ok(message) => message,
            Err(stop) => {
                let ended = conclude(alloc, conn, &mut piece, count, stop);
                return Left { pass, ended };
            }
        };
        let Taken {
            pass: after,
            said,
            item,
        } = take_turn(
            rt,
            &mut scratch,
            alloc,
            gate,
            pass,
            clock,
            words,
            people,
            &message,
        );
        pass = after;
        items.push_reserved(item);
        let sent = reply(conn, &mut piece, &said);
        count = count.saturating_add(sent.taken);
        if !sent.whole {
            return Left {
                pass,
                ended: Ended::WriteFault(count),
            };
        }
    }
    Left {
        pass,
        ended: Ended::Enough,
    }
}

/// The next message of a connection, or why there is none. The other side stays.
fn receive<K: Conn>(reader: &mut Reader, conn: &mut K) -> Result<Message, Stop>
    ensures reads { Reads reader.old (next_of result) reader.new (K.left conn.old) (K.left conn.new) }
    ensures stops { IfErr result (λ why. StopsBy reader.old.ended why (K.left conn.old) (K.left conn.new)
        (Rose (K.source_faults conn.old) (K.source_faults conn.new))) }
    ensures later { K.source_faults conn.old ≤ K.source_faults conn.new }
    ensures taken { K.taken conn.new ≡ K.taken conn.old }
    ensures sink { K.sink_faults conn.new ≡ K.sink_faults conn.old }
{
    next_message(reader, conn)
}

/// Writes a reply to a connection. The other side stays.
fn reply<K: Conn>(conn: &mut K, piece: &mut Piece, said: &Said) -> Sent
    ensures sent { Sends result (framed_answer (reply_of said.now)) (K.taken conn.old) (K.taken conn.new)
        (K.sink_faults conn.old) (K.sink_faults conn.new) }
    ensures later { K.sink_faults conn.old ≤ K.sink_faults conn.new }
    ensures left { K.left conn.new ≡ K.left conn.old }
    ensures source { K.source_faults conn.new ≡ K.source_faults conn.old }
{
    send(conn, piece, said)
}

/// Ends a connection whose reader stopped, of whose replies so many bytes were taken until now. The other side stays.
fn conclude<K: Conn>(
    alloc: Global,
    conn: &mut K,
    piece: &mut Piece,
    counted: u64,
    stop: Stop,
) -> Ended
    ensures finishes { Finishes stop counted result (K.taken conn.old) (K.taken conn.new)
        (K.sink_faults conn.old) (K.sink_faults conn.new) }
    ensures later { K.sink_faults conn.old ≤ K.sink_faults conn.new }
    ensures left { K.left conn.new ≡ K.left conn.old }
    ensures source { K.source_faults conn.new ≡ K.source_faults conn.old }
{
    finish(alloc, conn, piece, counted, stop)
}
