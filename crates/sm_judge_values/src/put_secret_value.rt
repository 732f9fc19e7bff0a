//! Judging PutSecretValue (AWS Secrets Manager API Reference, PutSecretValue).
ghost use Rattle.std.specs.Prelude.{◌≡◌, IfOk, IfSome, IsTrue, None, Some, is_some, length};
ghost use Rattle.std.specs.List.{list_all};
ghost use Rattle.sm_base.specs.Spelling.{is_label};
ghost use Rattle.sm_forms.specs.PutSecretValue.{put_forms};
ghost use Rattle.sm_judge_common.specs.Secrets.{finished_row};
ghost use Rattle.sm_model.specs.Needed.{token_bytes};
ghost use Rattle.sm_judge_values.specs.PutSecretValue.{labels_asked, labels_placed, put_value, put_call, put_reply, put_accepted, put_repeated, put_on, put_judged, put_judgement};
ghost use Rattle.sm_model.specs.Labels.{holder, aws_current};

use crate::new_value::{NewValue, Placed, new_value, place};
use sm_judge_common::Judged;
use sm_judge_common::labels_shown::labels_shown;
use sm_judge_common::members::{labels_of, secret_id};
use sm_judge_common::row_change::finish;
use sm_judge_common::standing::standing;
use sm_model::{
    Change, Copied, Label, List, NoMemory, PutSecretValue, PutValue, Reply, SecretId, SecretRow,
    Text, Token,
};
use sm_table::Table;
use sm_versions::When;
use sm_versions::labels::{current, holder};
use std::alloc::Global;

/// A PutSecretValue whose forms pass.
#[derive(Drop)]
pub struct PutCall {
    pub id: SecretId,
    pub labels: List<Label>,
    pub value: NewValue,
}

/// Judges a PutSecretValue.
#[tactic(auto, using(crate::proofs::PutSecretValueLemmas::judged_of_call))]
pub fn judge_put(
    alloc: Global,
    table: &Table,
    when: When,
    drawn: &[u8],
    put: &PutSecretValue,
) -> Result<Judged, NoMemory>
    requires forms { put_forms put.now ≡ None }
    requires drawn { length drawn.now ≡ token_bytes put.now.client_request_token }
    ensures { IfOk result (λ judged. judged ≡ put_judgement table.now when drawn.now put.now) }
{
    let call = put_call(alloc, drawn, put)?;
    judge_call(alloc, table, when, &call)
}

// ---- the members

/// The members of a PutSecretValue, a token that is drawn too.
#[tactic(auto, using(sm_forms::proofs::PutSecretValueLemmas::put_id, sm_forms::proofs::PutSecretValueLemmas::put_labels, crate::proofs::PutSecretValueLemmas::call_of_value))]
fn put_call(alloc: Global, drawn: &[u8], put: &PutSecretValue) -> Result<PutCall, NoMemory>
    requires forms { put_forms put.now ≡ None }
    requires drawn { length drawn.now ≡ token_bytes put.now.client_request_token }
    ensures { IfOk result (λ call. Some call ≡ put_call drawn.now put.now) }
{
    let id = secret_id(alloc, &put.secret_id)?;
    let labels = labels_asked(alloc, &put.version_stages)?;
    let value = value_given(alloc, drawn, put)?;
    Ok(PutCall { id, labels, value })
}

/// The value that is given.
#[tactic(auto, using(sm_forms::proofs::PutSecretValueLemmas::put_token, sm_forms::proofs::PutSecretValueLemmas::put_given, crate::proofs::PutSecretValueLemmas::room_for_put, crate::proofs::PutSecretValueLemmas::some_value))]
fn value_given(alloc: Global, drawn: &[u8], put: &PutSecretValue) -> Result<NewValue, NoMemory>
    requires forms { put_forms put.now ≡ None }
    requires drawn { length drawn.now ≡ token_bytes put.now.client_request_token }
    ensures { IfOk result (λ value. Some value ≡ put_value drawn.now put.now) }
{
    match new_value(
        alloc,
        &put.client_request_token,
        drawn,
        &put.secret_string,
        &put.secret_binary,
    )? {
        Some(value) => Ok(value),
        None => unreachable!(),
    }
}

/// The labels that are asked for, or AWSCURRENT alone.
fn labels_asked(alloc: Global, asked: &Option<List<Text>>) -> Result<List<Label>, NoMemory>
    requires { IfSome asked.now (λ labels. IsTrue (list_all is_label labels)) }
    ensures { IfOk result (λ labels. labels ≡ labels_asked asked.now) }
{
    match asked {
        Some(labels) => labels_of(alloc, labels.as_slice()),
        None => only_current(alloc),
    }
}

/// AWSCURRENT alone.
fn only_current(alloc: Global) -> Result<List<Label>, NoMemory>
    ensures { IfOk result (λ labels. labels ≡ labels_asked None) }
{
    let mut labels = List::empty(alloc);
    labels.push(current())?;
    Ok(labels)
}

// ---- the tests

/// Judges a PutSecretValue by the secret that it names.
#[tactic(auto, using(sm_judge_common::proofs::JudgedLemmas::judged_of_standing, sm_judge_common::proofs::JudgedLemmas::refused_unless_standing))]
fn judge_call(alloc: Global, table: &Table, when: When, call: &PutCall) -> Result<Judged, NoMemory>
    ensures { IfOk result (λ judged. judged ≡ put_judged table.now when call.now) }
{
    match standing(table, &call.id, when.moment) {
        Ok(row) => put_on(alloc, row, when, call),
        Err(why) => Ok(Judged::Refuse(why)),
    }
}

/// Whether a version holds AWSCURRENT.
fn has_current(row: &SecretRow) -> bool
    ensures { result ≡ is_some (holder row.now.labels aws_current) }
{
    holder(row.labels.as_slice(), &current()).is_some()
}

/// The labels to place: those that are asked for, and AWSCURRENT too where no version holds it.
fn labels_placed(
    alloc: Global,
    row: &SecretRow,
    asked: &List<Label>,
) -> Result<List<Label>, NoMemory>
    ensures { IfOk result (λ labels. labels ≡ labels_placed row.now asked.now) }
{
    let mut labels = asked.copy(alloc)?;
    if !has_current(row) {
        labels.push(current())?;
    }
    Ok(labels)
}

/// Puts the value into a copy of the row.
fn put_on(alloc: Global, row: &SecretRow, when: When, call: &PutCall) -> Result<Judged, NoMemory>
    ensures { IfOk result (λ judged. judged ≡ put_on row.now when call.now) }
{
    let labels = labels_placed(alloc, row, &call.labels)?;
    match place(alloc, row, &call.value, labels.as_slice(), when)? {
        Placed::Added(after) => accept(alloc, after, when, &call.value.token),
        Placed::Repeat => repeat(alloc, row, &call.value.token),
        Placed::Refused(why) => Ok(Judged::Refuse(why)),
    }
}

/// The reply that names the version and shows its labels.
fn put_reply(alloc: Global, row: &SecretRow, token: &Token) -> Result<PutValue, NoMemory>
    ensures { IfOk result (λ reply. reply ≡ put_reply row.now token.now) }
{
    Ok(PutValue {
        arn: row.arn.as_text().copy(alloc)?,
        name: row.name.as_text().copy(alloc)?,
        version_id: token.copy(alloc)?,
        version_stages: labels_shown(alloc, row, token)?,
    })
}

/// The row with the value, to take the place of the old one.
fn accept(alloc: Global, after: SecretRow, when: When, token: &Token) -> Result<Judged, NoMemory>
    ensures { IfOk result (λ judged. judged ≡ put_accepted (finished_row after when) token.now) }
{
    let mut after = after;
    finish(&mut after, when);
    let reply = put_reply(alloc, &after, token)?;
    Judged::changes(alloc, Reply::PutSecretValue(reply), Change::Replace(after))
}

/// The answer to a repeat.
fn repeat(alloc: Global, row: &SecretRow, token: &Token) -> Result<Judged, NoMemory>
    ensures { IfOk result (λ judged. judged ≡ put_repeated row.now token.now) }
{
    let reply = put_reply(alloc, row, token)?;
    Judged::reads(alloc, Reply::PutSecretValue(reply))
}
