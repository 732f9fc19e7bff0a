//! The messages that a number makes, answered one after the other on an account, and what is said of their replies.
ghost use Rattle.std.specs.Prelude.{◌≡◌, ◌≤◌, ◌⊎◌, ◌∷◌, [], List, Option, Some, None, ℕ, IfOk, IsSome, if◌then◌else◌, ◌==◌, option_map, string_bytes};
ghost use Rattle.std.specs.Io.KnownBytes.{append_known};
ghost use Rattle.sm_base.specs.Faults.{Rose};
ghost use Rattle.sm_base.specs.declared.moment.Moment.{Moment as moments};
ghost use Rattle.sm_account.specs.Accounts.{base, disk, failed, history, taken, SameOrigin};
ghost use Rattle.sm_drill.specs.Lines.{lines, shown_by};
ghost use Rattle.sm_http.specs.Reading.{content};
ghost use Rattle.sm_session.specs.Answer.{heard};
ghost use Rattle.sm_session.specs.Replies.{reply_of};
ghost use Rattle.sm_session.specs.Views.{local_state_by};
ghost use Rattle.sm_recovery.specs.Lawful.{made_of};
ghost use Rattle.sm_server.specs.declared.asked.RunTask.TheVariants.{Practise};
ghost use Rattle.sm_server.specs.Drills.{AnswersMade, Says, totals_after};
ghost use Rattle.sm_server.specs.Outside.{outside_beside, outside_inside};
ghost use Rattle.sm_server.specs.Ran.{Runs};
ghost use Rattle.sm_server.specs.Status.{WasOpened};
ghost use Rattle.sm_server.specs.MessageRounds.{TakesMessageRound};

use crate::checking::show;
use crate::status::Status;
use crate::turn::{SEAT, take_turn};
use sm_account::Account;
use sm_disk::Disk;
use sm_drill::{Drill, MESSAGES, lines, shown_string};
use sm_http::Message;
use sm_io::{Clock, Sink, Words};
use sm_json::Scratch;
use sm_model::{Moment, NoMemory};
use sm_pool::turns;
use sm_principal::People;
use sm_rotator::Rotator;
use sm_session::Said;
use sm_summary::totals;
use std::alloc::Global;

/// What came of the messages of a number: how many were refused, and the last reply.
#[derive(Drop)]
pub struct Drilled {
    pub refused: u64,
    pub last: Option<Said>,
}

/// Answers the messages that a number makes on an account without a history, and writes three lines: how many were
/// refused, the account's totals, and the SecretString of the last reply.
pub fn practise<K: Sink, D: Disk, C: Clock, W: Words, R: Rotator>(
    alloc: Global,
    number: u64,
    people: &People,
    account: &mut Account<D, R>,
    sink: &mut K,
    clock: &mut C,
    random: &mut W,
    rotator: &mut R,
) -> Status
    requires { history account.old ≡ [] }
    ensures runs { (left : Option (List ℕ)) → (source : ℕ) → Runs (record {
      task = Practise number;
      replies = R.replies;
      people = people.now;
      base = base account.old;
      held = taken account.old;
      history = history account.new;
    }) result
        (outside_beside left source K.Sink C.Clock W.Words R.Rotator sink.old (D.faults (disk account.old)) clock.old
        random.old rotator.old)
        (outside_beside left source K.Sink C.Clock W.Words R.Rotator sink.new (D.faults (disk account.new)) clock.new
        random.new rotator.new) }
    ensures opened { WasOpened result }
    ensures origin { SameOrigin account.old account.new }
    ensures unsure { IsSome (failed account.new) → IsSome (failed account.old)
        ⊎ Rose (D.faults (disk account.old)) (D.faults (disk account.new)) }
    ensures sink_later { K.sink_faults sink.old ≤ K.sink_faults sink.new }
    ensures disk_later { D.faults (disk account.old) ≤ D.faults (disk account.new) }
    ensures random_later { W.faults random.old ≤ W.faults random.new }
    ensures rotator_later { R.faults rotator.old ≤ R.faults rotator.new }
{
    match answer_made(alloc, number, people, account, clock, random, rotator) {
        Ok(drilled) => say(alloc, account, &drilled, sink, clock),
        Err(NoMemory) => Status::Memory,
    }
}

/// Answers the messages that a number makes on an account without a history, with rotation turns behind each.
fn answer_made<D: Disk, C: Clock, W: Words, R: Rotator>(
    alloc: Global,
    number: u64,
    people: &People,
    account: &mut Account<D, R>,
    clock: &mut C,
    random: &mut W,
    rotator: &mut R,
) -> Result<Drilled, NoMemory>
    requires { history account.old ≡ [] }
    ensures answered { (left taken : Option (List ℕ)) → (source sink : ℕ) → AnswersMade R.replies people.now
        (base account.old) number result
        (outside_inside left taken source sink C.Clock W.Words R.Rotator (D.faults (disk account.old)) clock.old
        random.old rotator.old)
        (outside_inside left taken source sink C.Clock W.Words R.Rotator (D.faults (disk account.new)) clock.new
        random.new rotator.new) (history account.new) }
    ensures origin { SameOrigin account.old account.new }
    ensures unsure { IsSome (failed account.new) → IsSome (failed account.old)
        ⊎ Rose (D.faults (disk account.old)) (D.faults (disk account.new)) }
    ensures disk_later { D.faults (disk account.old) ≤ D.faults (disk account.new) }
    ensures random_later { W.faults random.old ≤ W.faults random.new }
    ensures rotator_later { R.faults rotator.old ≤ R.faults rotator.new }
{
    let mut drill = Drill::new(number);
    let mut scratch = Scratch::new(alloc);
    let mut refused: u64 = 0;
    let mut last = None;
    for index in 0..MESSAGES {
        let message = drill.next(alloc)?;
        let said = answer_one(
            &mut scratch,
            alloc,
            people,
            account,
            &message,
            clock,
            random,
            rotator,
        );
        account.invariants();
        refused += refusals_in(&said);
        last = Some(said);
    }
    Ok(Drilled { refused, last })
}

/// Answers a message, and then takes rotation turns.
fn answer_one<D: Disk, C: Clock, W: Words, R: Rotator>(
    scratch: &mut Scratch,
    alloc: Global,
    people: &People,
    account: &mut Account<D, R>,
    message: &Message,
    clock: &mut C,
    random: &mut W,
    rotator: &mut R,
) -> Said
    ensures turn { TakesMessageRound R.replies (base account.old) (heard people.now (content message.now))
        (local_state_by C.Clock W.Words (history account.old) clock.old random.old)
        (local_state_by C.Clock W.Words (history account.new) clock.new random.new)
        (record { before = D.faults (disk account.old); after = D.faults (disk account.new) })
        (record { before = R.faults rotator.old; after = R.faults rotator.new }) (reply_of result) }
    ensures origin { SameOrigin account.old account.new }
    ensures unsure { IsSome (failed account.new) → IsSome (failed account.old)
        ⊎ Rose (D.faults (disk account.old)) (D.faults (disk account.new)) }
    ensures disk_later { D.faults (disk account.old) ≤ D.faults (disk account.new) }
    ensures random_later { W.faults random.old ≤ W.faults random.new }
    ensures rotator_later { R.faults rotator.old ≤ R.faults rotator.new }
{
    let said = take_turn(scratch, alloc, people, account, message, clock, random);
    turns(account, SEAT, rotator, clock, random);
    said
}

/// 1 for a reply that refuses, and else 0.
fn refusals_in(said: &Said) -> u64
    ensures counted { result ≡ (if (reply_of said.now).status == 200 then 0 else 1) }
    ensures few { result ≤ 1 }
{
    match said {
        Said::Reply(status, _) => { if *status == 200 { 0 } else { 1 } }
        Said::Memory => 1,
    }
}

/// Writes the three lines of a drill, with the totals at a reading of the clock.
fn say<K: Sink, D: Disk, C: Clock, R: Rotator>(
    alloc: Global,
    account: &Account<D, R>,
    drilled: &Drilled,
    sink: &mut K,
    clock: &mut C,
) -> Status
    ensures says { (now : moments) × (written : List ℕ)
        × (C.readings clock.new ≡ append_known (C.readings clock.old) (now.0 ∷ []))
        × (K.taken sink.new ≡ append_known (K.taken sink.old) written)
        × Says (Rose (K.sink_faults sink.old) (K.sink_faults sink.new))
        (lines drilled.now.refused
        (totals_after (base account.now) (made_of (taken account.now)).entries (history account.now) now)
        (shown_by (option_map reply_of drilled.now.last))) result written }
    ensures later { K.sink_faults sink.old ≤ K.sink_faults sink.new }
{
    let now = clock.now();
    match lines_at(alloc, account, drilled, now) {
        Ok(text) => show(sink, text.as_str().as_bytes()),
        Err(NoMemory) => Status::Memory,
    }
}

/// The three lines of a drill, with the totals of an account at a moment.
fn lines_at<D: Disk, R: Rotator>(
    alloc: Global,
    account: &Account<D, R>,
    drilled: &Drilled,
    now: Moment,
) -> Result<String, NoMemory>
    ensures { IfOk result (λ text. string_bytes text
        ≡ lines drilled.now.refused
        (totals_after (base account.now) (made_of (taken account.now)).entries (history account.now) now)
        (shown_by (option_map reply_of drilled.now.last))) }
{
    account.invariants();
    let totals = totals(alloc, account.table(), now, account.entries())?;
    let shown = shown_by(alloc, &drilled.last)?;
    lines(alloc, drilled.refused, totals.as_str(), &shown)
}

/// What a reply shows, where there is one.
fn shown_by(alloc: Global, said: &Option<Said>) -> Result<Option<String>, NoMemory>
    ensures { IfOk result (λ shown. option_map string_bytes shown ≡ shown_by (option_map reply_of said.now)) }
{
    match said {
        Some(Said::Reply(status, body)) => shown_string(alloc, *status, body.as_slice()),
        Some(Said::Memory) => Ok(None),
        None => Ok(None),
    }
}
