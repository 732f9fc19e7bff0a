//! One message's turn at the account.
ghost use Rattle.std.specs.Prelude.{◌≤◌, ◌⊎◌, Ok, IsSome};
ghost use Rattle.sm_account.specs.Handling.{HasShortTexts};
ghost use Rattle.sm_base.specs.Faults.{Rose};
ghost use Rattle.sm_account.specs.Accounts.{history, base, disk, failed, SameOrigin};
ghost use Rattle.sm_http.specs.Reading.{content};
ghost use Rattle.sm_session.specs.Answer.{heard};
ghost use Rattle.sm_session.specs.Replies.{reply_of};
ghost use Rattle.sm_session.specs.Sessions.{TakesTurnAlone};
ghost use Rattle.sm_session.specs.Views.{local_state_by};
ghost use Rattle.sm_server.specs.MessageRounds.{seat};

use sm_account::Account;
use sm_disk::Disk;
use sm_http::Message;
use sm_io::{Clock, Drew, Words};
use sm_json::Scratch;
use sm_model::{Person, Request, Why, need};
use sm_principal::People;
use sm_rotator::Rotator;
use sm_session::{Heard, Said, draw, read, say_refusal, turn};
use std::alloc::Global;

/// The seat of a run's only caller.
pub const SEAT: u32 = 1;

/// The reply to a message.
pub fn take_turn<D: Disk, C: Clock, W: Words, R: Rotator>(
    scratch: &mut Scratch,
    alloc: Global,
    people: &People,
    account: &mut Account<D, R>,
    message: &Message,
    clock: &mut C,
    random: &mut W,
) -> Said
    ensures turn { TakesTurnAlone (Rose (D.faults (disk account.old)) (D.faults (disk account.new)))
        (record { base = base account.old; seat = seat }) (heard people.now (content message.now))
        (local_state_by C.Clock W.Words (history account.old) clock.old random.old)
        (local_state_by C.Clock W.Words (history account.new) clock.new random.new) (reply_of result) }
    ensures origin { SameOrigin account.old account.new }
    ensures unsure { IsSome (failed account.new) → IsSome (failed account.old)
        ⊎ Rose (D.faults (disk account.old)) (D.faults (disk account.new)) }
    ensures disk_later { D.faults (disk account.old) ≤ D.faults (disk account.new) }
    ensures random_later { W.faults random.old ≤ W.faults random.new }
{
    match read(scratch, alloc, people, message) {
        Heard::Ask(person, request) => {
            draw_and_answer(alloc, account, &person, &request, clock, random)
        }
        Heard::Refused(why) => say_refusal(alloc, &why),
        Heard::Memory => Said::Memory,
    }
}

/// The reply to a person's request: the random bytes that it needs are drawn, and then the clock is read.
fn draw_and_answer<D: Disk, C: Clock, W: Words, R: Rotator>(
    alloc: Global,
    account: &mut Account<D, R>,
    person: &Person,
    request: &Request,
    clock: &mut C,
    random: &mut W,
) -> Said
    requires { HasShortTexts person.now }
    ensures turn { TakesTurnAlone (Rose (D.faults (disk account.old)) (D.faults (disk account.new)))
        (record { base = base account.old; seat = seat }) (Ok (record { person = person.now; request = request.now }))
        (local_state_by C.Clock W.Words (history account.old) clock.old random.old)
        (local_state_by C.Clock W.Words (history account.new) clock.new random.new) (reply_of result) }
    ensures origin { SameOrigin account.old account.new }
    ensures unsure { IsSome (failed account.new) → IsSome (failed account.old)
        ⊎ Rose (D.faults (disk account.old)) (D.faults (disk account.new)) }
    ensures disk_later { D.faults (disk account.old) ≤ D.faults (disk account.new) }
    ensures random_later { W.faults random.old ≤ W.faults random.new }
{
    match draw(alloc, random, need(request)) {
        Drew::Bytes(bytes) => {
            let now = clock.now();
            turn(alloc, account, SEAT, person, now, bytes.as_slice(), request)
        }
        Drew::Failed => say_refusal(alloc, &Why::RandomFault),
        Drew::Memory => Said::Memory,
    }
}
