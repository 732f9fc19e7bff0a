//! The messages of a source, answered one after the other on an account.
ghost use Rattle.std.specs.Prelude.{◌≡◌, ◌≤◌, ◌⊎◌, [], IsSome};
ghost use Rattle.sm_base.specs.Faults.{Rose};
ghost use Rattle.sm_account.specs.Accounts.{history, base, disk, failed, SameOrigin};
ghost use Rattle.sm_http.specs.Framed.{Sends};
ghost use Rattle.sm_http.specs.Reading.{content};
ghost use Rattle.sm_reply.specs.Shown.{Answered};
ghost use Rattle.sm_session.specs.Answer.{heard};
ghost use Rattle.sm_session.specs.Replies.{framed_answer};
ghost use Rattle.sm_session.specs.Views.{local_state_by};
ghost use Rattle.sm_store.specs.Held.{Held};
ghost use Rattle.sm_server.specs.declared.asked.RunTask.TheVariants.{Answer};
ghost use Rattle.sm_server.specs.Outside.{outside_by};
ghost use Rattle.sm_server.specs.Ran.{Runs};
ghost use Rattle.sm_server.specs.Status.{status_of};
ghost use Rattle.sm_server.specs.MessageRounds.{TakesMessageRound};

use crate::turn::{SEAT, take_turn};
use sm_account::Account;
use sm_disk::Disk;
use sm_http::{Message, Piece, Reader, Sent};
use sm_io::{Clock, Sink, Source, Words};
use sm_json::Scratch;
use sm_pool::turns;
use sm_principal::People;
use sm_rotator::Rotator;
use sm_session::{Ended, MESSAGE_LIMIT, finish, next_message, send};
use std::alloc::Global;

/// Answers the messages of the source on an account without a history, of whom may ask. The reply to each is written,
/// and then rotation turns are taken, before the next one is read.
pub fn answer_source<Q: Source, K: Sink, D: Disk, C: Clock, W: Words, R: Rotator>(
    alloc: Global,
    people: &People,
    account: &mut Account<D, R>,
    source: &mut Q,
    sink: &mut K,
    clock: &mut C,
    random: &mut W,
    rotator: &mut R,
) -> Ended
    requires { history account.old ≡ [] }
    ensures runs { (held : Held) → Runs (record {
      task = Answer;
      replies = R.replies;
      people = people.now;
      base = base account.old;
      held = held;
      history = history account.new;
    }) (status_of result)
        (outside_by Q.Source K.Sink C.Clock W.Words R.Rotator source.old sink.old
        (D.faults (disk account.old)) clock.old random.old rotator.old)
        (outside_by Q.Source K.Sink C.Clock W.Words R.Rotator source.new sink.new
        (D.faults (disk account.new)) clock.new random.new rotator.new) }
    ensures origin { SameOrigin account.old account.new }
    ensures unsure { IsSome (failed account.new) → IsSome (failed account.old)
        ⊎ Rose (D.faults (disk account.old)) (D.faults (disk account.new)) }
    ensures source_later { Q.source_faults source.old ≤ Q.source_faults source.new }
    ensures sink_later { K.sink_faults sink.old ≤ K.sink_faults sink.new }
    ensures disk_later { D.faults (disk account.old) ≤ D.faults (disk account.new) }
    ensures random_later { W.faults random.old ≤ W.faults random.new }
    ensures rotator_later { R.faults rotator.old ≤ R.faults rotator.new }
{
    let mut reader = Reader::new(alloc);
    let mut piece = Piece::new();
    let mut scratch = Scratch::new(alloc);
    let mut count: u64 = 0;
    for number in 0..MESSAGE_LIMIT {
        let message = match next_message(&mut reader, source) {
            Ok(message) => message,
            Err(stop) => return finish(alloc, sink, &mut piece, count, stop),
        };
        let sent = answer_message(
            &mut scratch,
            alloc,
            people,
            account,
            &message,
            sink,
            &mut piece,
            clock,
            random,
            rotator,
        );
        account.invariants();
        count = count.saturating_add(sent.taken);
        if !sent.whole {
            return Ended::WriteFault(count);
        }
    }
    Ended::Enough
}

/// Answers a message, and then takes rotation turns.
fn answer_message<K: Sink, D: Disk, C: Clock, W: Words, R: Rotator>(
    scratch: &mut Scratch,
    alloc: Global,
    people: &People,
    account: &mut Account<D, R>,
    message: &Message,
    sink: &mut K,
    piece: &mut Piece,
    clock: &mut C,
    random: &mut W,
    rotator: &mut R,
) -> Sent
    ensures turn { (reply : Answered)
        × TakesMessageRound R.replies (base account.old) (heard people.now (content message.now))
        (local_state_by C.Clock W.Words (history account.old) clock.old random.old)
        (local_state_by C.Clock W.Words (history account.new) clock.new random.new)
        (record { before = D.faults (disk account.old); after = D.faults (disk account.new) })
        (record { before = R.faults rotator.old; after = R.faults rotator.new }) reply
        × Sends result (framed_answer reply) (K.taken sink.old) (K.taken sink.new)
        (K.sink_faults sink.old) (K.sink_faults sink.new) }
    ensures origin { SameOrigin account.old account.new }
    ensures unsure { IsSome (failed account.new) → IsSome (failed account.old)
        ⊎ Rose (D.faults (disk account.old)) (D.faults (disk account.new)) }
    ensures sink_later { K.sink_faults sink.old ≤ K.sink_faults sink.new }
    ensures disk_later { D.faults (disk account.old) ≤ D.faults (disk account.new) }
    ensures random_later { W.faults random.old ≤ W.faults random.new }
    ensures rotator_later { R.faults rotator.old ≤ R.faults rotator.new }
{
    let said = take_turn(scratch, alloc, people, account, message, clock, random);
    let sent = send(sink, piece, &said);
    turns(account, SEAT, rotator, clock, random);
    sent
}
