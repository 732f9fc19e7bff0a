//! One message's turn at an account behind its lock.
ghost use Rattle.std.specs.Prelude.{◌≡◌, ◌≤◌, [], length, Ok};
ghost use Rattle.sm_account.specs.Handling.{HasShortTexts};
ghost use Rattle.sm_account.specs.Accounts.{base};
ghost use Rattle.sm_http.specs.Reading.{content};
ghost use Rattle.sm_lock.specs.Handles.{built_with, number, seen, IsIn};
ghost use Rattle.sm_session.specs.Answer.{heard};
ghost use Rattle.sm_session.specs.Replies.{reply_of};
ghost use Rattle.sm_session.specs.Sessions.{TakesTurn};
ghost use Rattle.sm_session.specs.Views.{local_state_by};

use crate::drawing::draw;
use crate::heard::Heard;
use crate::hearing::read;
use crate::holding::{Hold, hold_once};
use crate::said::Said;
use crate::saying::{say_handled, say_refusal};
use crate::trace::TraceItem;
use sm_account::{Account, TestedRequest};
use sm_disk::Disk;
use sm_http::Message;
use sm_io::{Clock, Drew, Words};
use sm_json::Scratch;
use sm_lock::{Gate, Pass, Storied};
use sm_model::{Bytes, Moment, Person, Request, Why, need};
use sm_principal::People;
use sm_rotator::Rotator;
use std::alloc::Global;
use std::sync::Wait;

/// What a turn leaves: the pass again, the reply, and what a trace has of it.
pub(crate) struct Taken<A: Storied> {
    pub pass: Pass<A>,
    pub said: Said,
    pub item: TraceItem,
}

/// Takes a message's turn. It reaches the account exactly where somebody asks for something and, where random bytes are
/// needed, they are drawn.
pub(crate) fn take_turn<D: Disk, R: Rotator, C: Clock, W: Words, H: Wait>(
    rt: &H,
    scratch: &mut Scratch,
    alloc: Global,
    gate: &Gate<Account<D, R>>,
    pass: Pass<Account<D, R>>,
    clock: &mut C,
    words: &mut W,
    people: &People,
    message: &Message,
) -> Taken<Account<D, R>>
    requires { IsIn gate.now pass }
    ensures gate { IsIn gate.now result.pass }
    ensures number { number result.pass ≡ number pass }
    ensures turn { TakesTurn (record { base = base (built_with gate.now); seat = number pass })
        (heard people.now (content message.now))
        (local_state_by C.Clock W.Words (seen pass) clock.old words.old)
        (local_state_by C.Clock W.Words (seen result.pass) clock.new words.new) (reply_of result.said) result.item }
    ensures later { W.faults words.old ≤ W.faults words.new }
{
    match read(scratch, alloc, people, message) {
        Heard::Ask(person, request) => {
            ask(rt, alloc, gate, pass, clock, words, &person, &request)
        }
        Heard::Refused(why) => pass_by(alloc, pass, say_refusal(alloc, &why)),
        Heard::Memory => pass_by(alloc, pass, Said::Memory),
    }
}

/// Asks the account for a person: the random bytes that the request needs are drawn and its forms are tested before the
/// lock is entered, and the reply is made after it was left.
fn ask<D: Disk, R: Rotator, C: Clock, W: Words, H: Wait>(
    rt: &H,
    alloc: Global,
    gate: &Gate<Account<D, R>>,
    pass: Pass<Account<D, R>>,
    clock: &mut C,
    words: &mut W,
    person: &Person,
    request: &Request,
) -> Taken<Account<D, R>>
    requires gate { IsIn gate.now pass }
    requires person { HasShortTexts person.now }
    ensures gate { IsIn gate.now result.pass }
    ensures number { number result.pass ≡ number pass }
    ensures turn { TakesTurn (record { base = base (built_with gate.now); seat = number pass })
        (Ok (record { person = person.now; request = request.now }))
        (local_state_by C.Clock W.Words (seen pass) clock.old words.old)
        (local_state_by C.Clock W.Words (seen result.pass) clock.new words.new) (reply_of result.said) result.item }
    ensures later { W.faults words.old ≤ W.faults words.new }
{
    match draw(alloc, words, need(request)) {
        Drew::Bytes(drawn) => {
            let tested = TestedRequest::new(alloc, request);
            let Hold {
                pass,
                handled,
                now,
                position,
            } = hold_once(rt, gate, pass, clock, person, drawn.as_slice(), tested);
            let said = say_handled(alloc, handled);
            let status = status_of(&said);
            Taken {
                pass,
                said,
                item: TraceItem {
                    position,
                    moment: now,
                    drawn,
                    status,
                },
            }
        }
        Drew::Failed => pass_by(alloc, pass, say_refusal(alloc, &Why::RandomFault)),
        Drew::Memory => pass_by(alloc, pass, Said::Memory),
    }
}

/// A turn that does not reach the account stands at the history that the pass has seen.
fn pass_by<A: Storied>(alloc: Global, pass: Pass<A>, said: Said) -> Taken<A>
    ensures pass { result.pass ≡ pass }
    ensures said { result.said ≡ said }
    ensures item { result.item ≡ record {
      position = length (seen pass);
      moment = record { 0 = 0 };
      drawn = [];
      status = (reply_of result.said).status;
    } }
{
    let position = pass.length();
    let status = status_of(&said);
    Taken {
        pass,
        said,
        item: TraceItem {
            position,
            moment: Moment(0),
            drawn: Bytes::empty(alloc),
            status,
        },
    }
}

/// The status of what is said.
fn status_of(said: &Said) -> u16
    ensures { result ≡ (reply_of said.now).status }
{
    match said {
        Said::Reply(status, _) => *status,
        Said::Memory => 503,
    }
}
