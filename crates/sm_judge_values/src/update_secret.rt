//! Judging UpdateSecret (AWS Secrets Manager API Reference, UpdateSecret).
ghost use Rattle.std.specs.Prelude.{◌≡◌, ◌||◌, ◌≤◌, ◌∷◌, [], IfOk, None, is_some, length};
ghost use Rattle.sm_forms.specs.UpdateSecret.{update_forms};
ghost use Rattle.sm_judge_common.specs.Secrets.{finished_row};
ghost use Rattle.sm_model.specs.Needed.{token_bytes_if};
ghost use Rattle.sm_judge_values.specs.NewValue.{new_value, token_of};
ghost use Rattle.sm_judge_values.specs.UpdateSecret.{update_call, given_or, redescribed, update_placed, update_accepted, update_repeated, update_on, update_judged, update_judgement};

use crate::new_value::{NewValue, Placed, new_value, place, token_of, versioned_secret};
use sm_judge_common::Judged;
use sm_judge_common::members::secret_id;
use sm_judge_common::row_change::finish;
use sm_judge_common::standing::standing;
use sm_model::{Change, Copied, NoMemory, Reply, SecretId, SecretRow, Text, UpdateSecret};
use sm_table::Table;
use sm_versions::When;
use sm_versions::labels::current;
use std::alloc::Global;

/// An UpdateSecret whose forms pass.
#[derive(Drop)]
pub struct UpdateCall {
    pub id: SecretId,
    pub description: Option<Text>,
    pub kms: Option<Text>,
    pub value: Option<NewValue>,
}

/// Judges an UpdateSecret.
pub fn judge_update(
    alloc: Global,
    table: &Table,
    when: When,
    drawn: &[u8],
    update: &UpdateSecret,
) -> Result<Judged, NoMemory>
    requires forms { update_forms update.now ≡ None }
    requires drawn { token_bytes_if (is_some update.now.secret_string || is_some update.now.secret_binary)
        update.now.client_request_token ≤ length drawn.now }
    ensures { IfOk result (λ judged. judged ≡ update_judgement table.now when drawn.now update.now) }
{
    let call = update_call(alloc, drawn, update)?;
    judge_call(alloc, table, when, call)
}

// ---- the members

/// The members of an UpdateSecret, a token that is drawn too.
#[tactic(auto, using(sm_forms::proofs::UpdateSecretLemmas::update_id, sm_forms::proofs::UpdateSecretLemmas::update_token))]
fn update_call(alloc: Global, drawn: &[u8], update: &UpdateSecret) -> Result<UpdateCall, NoMemory>
    requires forms { update_forms update.now ≡ None }
    requires drawn { token_bytes_if (is_some update.now.secret_string || is_some update.now.secret_binary)
        update.now.client_request_token ≤ length drawn.now }
    ensures { IfOk result (λ call. call ≡ update_call drawn.now update.now) }
{
    Ok(UpdateCall {
        id: secret_id(alloc, &update.secret_id)?,
        description: update.description.copy(alloc)?,
        kms: update.kms_key_id.copy(alloc)?,
        value: new_value(
            alloc,
            &update.client_request_token,
            drawn,
            &update.secret_string,
            &update.secret_binary,
        )?,
    })
}

// ---- the tests

/// Judges an UpdateSecret by the secret that it names.
#[tactic(auto, using(sm_judge_common::proofs::JudgedLemmas::judged_of_standing, sm_judge_common::proofs::JudgedLemmas::refused_unless_standing))]
fn judge_call(
    alloc: Global,
    table: &Table,
    when: When,
    call: UpdateCall,
) -> Result<Judged, NoMemory>
    ensures { IfOk result (λ judged. judged ≡ update_judged table.now when call) }
{
    match standing(table, &call.id, when.moment) {
        Ok(row) => update_on(alloc, row, when, call),
        Err(why) => Ok(Judged::Refuse(why)),
    }
}

/// Judges an UpdateSecret of this row, which is not scheduled for deletion.
fn update_on(
    alloc: Global,
    row: &SecretRow,
    when: When,
    call: UpdateCall,
) -> Result<Judged, NoMemory>
    ensures { IfOk result (λ judged. judged ≡ update_on row.now when call) }
{
    match place_value(alloc, row, when, &call.value)? {
        Placed::Added(after) => accept(alloc, after, when, call),
        Placed::Repeat => repeat(alloc, row, &call.value),
        Placed::Refused(why) => Ok(Judged::Refuse(why)),
    }
}

/// Puts the value, where one is given, into a copy of the row: its version becomes the current one.
fn place_value(
    alloc: Global,
    row: &SecretRow,
    when: When,
    value: &Option<NewValue>,
) -> Result<Placed, NoMemory>
    ensures { IfOk result (λ done. done ≡ update_placed value.now row.now when) }
{
    match value {
        Some(new) => place(alloc, row, new, &[current()], when),
        None => Ok(Placed::Added(row.copy(alloc)?)),
    }
}

/// A text that is given takes the place of the one that is kept.
fn replace(kept: &mut Option<Text>, given: Option<Text>)
    ensures { kept.new ≡ given_or given kept.old }
{
    match given {
        Some(text) => *kept = Some(text),
        None => (),
    }
}

/// The row with what is given, to take the place of the old one.
fn accept(alloc: Global, after: SecretRow, when: When, call: UpdateCall) -> Result<Judged, NoMemory>
    ensures { IfOk result
        (λ judged. judged ≡ update_accepted (finished_row (redescribed call after) when) (token_of call.value)) }
{
    let version_id = token_of(alloc, &call.value)?;
    let mut after = after;
    replace(&mut after.description, call.description);
    replace(&mut after.kms, call.kms);
    finish(&mut after, when);
    let reply = versioned_secret(alloc, &after, version_id)?;
    Judged::changes(alloc, Reply::UpdateSecret(reply), Change::Replace(after))
}

/// The answer to a repeat.
fn repeat(alloc: Global, row: &SecretRow, value: &Option<NewValue>) -> Result<Judged, NoMemory>
    ensures { IfOk result (λ judged. judged ≡ update_repeated row.now (token_of value.now)) }
{
    let version_id = token_of(alloc, value)?;
    let reply = versioned_secret(alloc, row, version_id)?;
    Judged::reads(alloc, Reply::UpdateSecret(reply))
}
