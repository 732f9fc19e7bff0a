//! Judging an entry of a history again.
ghost use Rattle.std.specs.Prelude.{◌≡◌, ◌≤◌, None, length};
ghost use Rattle.sm_base.specs.Outcomes.{OrMemory};
ghost use Rattle.sm_base.specs.declared.moment.TheConstants.{LAST_READING};
ghost use Rattle.sm_core.specs.Effects.{Makes, when_of};
ghost use Rattle.sm_core.specs.Histories.{LegalEntry, may_be_by, may_stand};
ghost use Rattle.sm_core.specs.Replaying.{again_told, IfReplayed, AsLegal, change_asked, change_kept, is_deletion, or_nothing, replayed_request, replayed_act, replayed};
ghost use Rattle.sm_forms.specs.Forms.{forms_of};
ghost use Rattle.sm_model.specs.Needed.{needed};
ghost use Rattle.sm_judge_rotations.specs.Begun.{begun_change};
ghost use Rattle.sm_judge_rotations.specs.Reported.{reported_change};
ghost use Rattle.sm_table.specs.Changes.{CanMake, StandsAt};
ghost use Rattle.sm_table.specs.Sound.{ChangeSound, Sound};
ghost use Rattle.sm_table.specs.Sweep.{sweep};

use crate::judging::{is_batch, judge_alone};
use sm_forms::forms;
use sm_judge_common::Judged;
use sm_judge_rotations::begun::judge_begun;
use sm_judge_rotations::reported::judge_reported;
use sm_model::{Act, Answer, Arn, At, Change, Entry, NoMemory, Request, Why, need};
use sm_table::{Block, Table};
use sm_versions::When;
use std::alloc::Global;

/// What an entry does to the rows that stand before it.
#[derive(Drop)]
pub enum Replayed {
    /// It is legal there, and makes this change.
    Accept(Change),
    Refuse,
    Memory,
}

/// Judges an entry again, on the rows that stand before it. Who asked was admitted when the entry was made.
pub fn again(alloc: Global, table: &Table, entry: &Entry) -> Replayed
    requires sound { Sound table.now }
    requires moment { entry.now.moment.0 ≤ LAST_READING }

    // It is accepted exactly where it is legal.
    ensures replayed { OrMemory (again_told result) (replayed table.now entry.now) }
    ensures legal { AsLegal result (LegalEntry table.now entry.now) }

    // The change makes the rows of the entry, meets what the table asks of a change, and leaves the rows sound.
    ensures makes { IfReplayed result (Makes table.now entry.now) }
    ensures can { IfReplayed result (CanMake table.now) }
    ensures stands { IfReplayed result (StandsAt table.now entry.now.moment) }
    ensures change_sound { IfReplayed result (ChangeSound (sweep table.now entry.now.moment)) }
{
    replay_entry(alloc, table, entry)
}

/// The same as `again`.
fn replay_entry(alloc: Global, table: &Table, entry: &Entry) -> Replayed
    requires sound { Sound table.now }
    requires moment { entry.now.moment.0 ≤ LAST_READING }
    ensures { OrMemory (again_told result) (replayed table.now entry.now) }
{
    if may_be_by(entry) {
        replay_act(alloc, table, entry)
    } else {
        Replayed::Refuse
    }
}

/// Whether the entry's act may be by who stands with it: nobody starts a due rotation or answers to a step.
fn may_be_by(entry: &Entry) -> bool
    ensures { result ≡ may_be_by entry.now.caller entry.now.by entry.now.act }
{
    match &entry.act {
        Act::Asked(_) => true,
        Act::Begun(_) | Act::Reported(_, _, _) => entry.caller.len() == 0 && entry.by.len() == 0,
    }
}

/// When the entry was made, and whether it prunes.
fn when_of(entry: &Entry) -> When
    ensures { result ≡ when_of entry.now }
{
    When {
        moment: entry.moment,
        prunes: entry.prunes,
    }
}

/// Judges the act of an entry again.
fn replay_act(alloc: Global, table: &Table, entry: &Entry) -> Replayed
    requires sound { Sound table.now }
    requires moment { entry.now.moment.0 ≤ LAST_READING }
    ensures { OrMemory (again_told result)
        (replayed_act table.now (when_of entry.now) entry.now.drawn entry.now.act) }
{
    let when = when_of(entry);
    match &entry.act {
        Act::Asked(request) => {
            replay_request(alloc, table, when, entry.drawn.as_slice(), request)
        }
        Act::Begun(arn) => replay_begun(alloc, table, when, entry.drawn.as_slice(), arn),
        Act::Reported(arn, at, answer) => {
            if entry.drawn.len() != 0 {
                return Replayed::Refuse;
            }
            replay_reported(alloc, table, when, arn, at, answer)
        }
    }
}

/// Judges an entry of a request again.
#[tactic(auto, using(sm_forms::proofs::PolicyLemmas::none_formed))]
fn replay_request(
    alloc: Global,
    table: &Table,
    when: When,
    drawn: &[u8],
    request: &Request,
) -> Replayed
    requires { when.moment.0 ≤ LAST_READING }
    ensures { OrMemory (again_told result) (replayed_request table.now when drawn.now request.now) }
{
    if drawn.len() != need(request) {
        return Replayed::Refuse;
    }
    match forms(alloc, request) {
        Some(Why::Memory { .. }) => Replayed::Memory,
        Some(_) => Replayed::Refuse,
        None => replay_formed(alloc, table, when, drawn, request),
    }
}

/// Judges an entry of a request again whose forms pass. A batch makes no entry.
#[tactic(auto, using(crate::proofs::ReplayLemmas::batch_unchanged, crate::proofs::NobodyLemmas::kept_is_asked))]
fn replay_formed(
    alloc: Global,
    table: &Table,
    when: When,
    drawn: &[u8],
    request: &Request,
) -> Replayed
    requires moment { when.moment.0 ≤ LAST_READING }
    requires forms { forms_of request.now ≡ None }
    requires drawn { length drawn.now ≡ needed request.now }
    ensures { OrMemory (again_told result) (change_asked table.now when drawn.now request.now) }
{
    if is_batch(request) {
        return Replayed::Refuse;
    }
    match judge_alone(alloc, table, when, drawn, request) {
        Ok(judged) => replay_judged(judged, is_deletion(request)),
        Err(NoMemory) => Replayed::Memory,
    }
}

/// Judges the start of a due rotation again.
fn replay_begun(alloc: Global, table: &Table, when: When, drawn: &[u8], arn: &Arn) -> Replayed
    requires { when.moment.0 ≤ LAST_READING }
    ensures { OrMemory (again_told result) (begun_change table.now when drawn.now arn.now) }
{
    match judge_begun(alloc, table, when, drawn, arn) {
        Ok(change) => replay_change(change),
        Err(NoMemory) => Replayed::Memory,
    }
}

/// Judges an answer to a step of a rotation again.
fn replay_reported(
    alloc: Global,
    table: &Table,
    when: When,
    arn: &Arn,
    at: &At,
    answer: &Answer,
) -> Replayed
    requires sound { Sound table.now }
    requires moment { when.moment.0 ≤ LAST_READING }
    ensures { OrMemory (again_told result) (reported_change table.now when arn.now at.now answer.now) }
{
    match judge_reported(alloc, table, when, arn, at, answer) {
        Ok(change) => replay_change(change),
        Err(NoMemory) => Replayed::Memory,
    }
}

/// Whether a request is a deletion: one that is accepted without a change is forced, of a secret that is not there.
fn is_deletion(request: &Request) -> bool
    ensures { result ≡ is_deletion request.now }
{
    match request {
        Request::DeleteSecret(_) => true,
        _ => false,
    }
}

/// The change that was judged, where there is one. A deletion that is accepted without one changes nothing.
fn replay_judged(judged: Judged, deletes: bool) -> Replayed
    ensures { OrMemory (again_told result) (change_kept deletes judged) }
{
    match judged {
        Judged::Accept(_, change) => replay_change(or_nothing(change, deletes)),
        Judged::Refuse(_) => Replayed::Refuse,
        Judged::Memory => Replayed::Memory,
    }
}

fn or_nothing(change: Option<Block<Change>>, deletes: bool) -> Option<Change>
    ensures { result ≡ or_nothing deletes change }
{
    match change {
        Some(change) => Some(change.into_value()),
        None => { if deletes { Some(Change::Nothing) } else { None } }
    }
}

fn replay_change(change: Option<Change>) -> Replayed
    ensures { OrMemory (again_told result) change }
{
    match change {
        Some(change) => Replayed::Accept(change),
        None => Replayed::Refuse,
    }
}
