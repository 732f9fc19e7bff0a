//! Judging UpdateSecretVersionStage (AWS Secrets Manager API Reference, UpdateSecretVersionStage).
ghost use Rattle.std.specs.Prelude.{◌≡◌, ◌⊎◌, IfOk, IsSome, None};
ghost use Rattle.sm_forms.specs.UpdateSecretVersionStage.{move_forms};
ghost use Rattle.sm_judge_common.specs.Secrets.{finished_row};
ghost use Rattle.sm_judge_labels_and_regions.specs.UpdateSecretVersionStage.{move_call, move_reply, move_outcome, move_on, move_judged, move_judgement};

use sm_judge_common::Judged;
use sm_judge_common::members::{label_of, secret_id, token_given};
use sm_judge_common::row_change::finish;
use sm_judge_common::standing::standing;
use sm_model::{
    Change, Copied, Label, NamedSecret, NoMemory, Reply, SecretId, SecretRow, Token,
    UpdateSecretVersionStage, What, Why,
};
use sm_table::Table;
use sm_versions::{Moved, When, move_label};
use std::alloc::Global;

/// An UpdateSecretVersionStage whose forms pass, and so has a target or a source.
#[derive(Drop)]
pub struct MoveCall {
    pub from: Option<Token>,
    pub id: SecretId,
    pub label: Label,
    pub to: Option<Token>,
}

/// Judges an UpdateSecretVersionStage.
#[tactic(auto, using(crate::proofs::UpdateSecretVersionStageLemmas::call_one))]
pub fn judge_move(
    alloc: Global,
    table: &Table,
    when: When,
    update: &UpdateSecretVersionStage,
) -> Result<Judged, NoMemory>
    requires { move_forms update.now ≡ None }
    ensures { IfOk result (λ judged. judged ≡ move_judgement table.now when update.now) }
{
    let call = move_call(alloc, update)?;
    judge_call(alloc, table, when, &call)
}

/// The members of an UpdateSecretVersionStage.
#[tactic(auto, using(sm_forms::proofs::UpdateSecretVersionStageLemmas::move_id, sm_forms::proofs::UpdateSecretVersionStageLemmas::move_label, sm_forms::proofs::UpdateSecretVersionStageLemmas::move_to, sm_forms::proofs::UpdateSecretVersionStageLemmas::move_from))]
fn move_call(alloc: Global, update: &UpdateSecretVersionStage) -> Result<MoveCall, NoMemory>
    requires { move_forms update.now ≡ None }
    ensures { IfOk result (λ call. call ≡ move_call update.now) }
{
    Ok(MoveCall {
        from: token_given(alloc, &update.remove_from_version_id)?,
        id: secret_id(alloc, &update.secret_id)?,
        label: label_of(alloc, &update.version_stage)?,
        to: token_given(alloc, &update.move_to_version_id)?,
    })
}

/// Judges an UpdateSecretVersionStage by the secret that it names.
#[tactic(auto, using(sm_judge_common::proofs::JudgedLemmas::judged_of_standing, sm_judge_common::proofs::JudgedLemmas::refused_unless_standing))]
fn judge_call(alloc: Global, table: &Table, when: When, call: &MoveCall) -> Result<Judged, NoMemory>
    requires { IsSome call.now.to ⊎ IsSome call.now.from }
    ensures { IfOk result (λ judged. judged ≡ move_judged table.now when call.now) }
{
    match standing(table, &call.id, when.moment) {
        Ok(row) => move_on(alloc, row, when, call),
        Err(why) => Ok(Judged::Refuse(why)),
    }
}

/// Moves the label in a copy of the row.
fn move_on(alloc: Global, row: &SecretRow, when: When, call: &MoveCall) -> Result<Judged, NoMemory>
    requires { IsSome call.now.to ⊎ IsSome call.now.from }
    ensures { IfOk result (λ judged. judged ≡ move_on row.now when call.now) }
{
    let mut after = row.copy(alloc)?;
    match move_label(
        alloc,
        &mut after,
        &call.label,
        call.to.as_ref(),
        call.from.as_ref(),
    ) {
        Moved::Ok => accept(alloc, after, when),
        Moved::NotThere(id) => Ok(Judged::Refuse(Why::NotThere(id))),
        Moved::HeldBy(held) => Ok(Judged::Refuse(Why::HeldBy(held))),
        Moved::KeepsCurrent => Ok(Judged::Refuse(Why::KeepsCurrent)),
        Moved::Empty(id) => Ok(Judged::Refuse(Why::Empty(id))),
        Moved::TooManyLabels(limit) => Ok(Judged::Refuse(Why::Limit(limit, What::Labels))),
        Moved::Memory => Err(NoMemory),
    }
}

/// The reply that names the secret.
fn move_reply(alloc: Global, row: &SecretRow) -> Result<NamedSecret, NoMemory>
    ensures { IfOk result (λ reply. reply ≡ move_reply row.now) }
{
    Ok(NamedSecret {
        arn: row.arn.as_text().copy(alloc)?,
        name: row.name.as_text().copy(alloc)?,
    })
}

/// The row with the label moved, to take the place of the old one.
fn accept(alloc: Global, after: SecretRow, when: When) -> Result<Judged, NoMemory>
    ensures { IfOk result (λ judged. judged ≡ move_outcome Moved.Ok (finished_row after when)) }
{
    let mut after = after;
    finish(&mut after, when);
    let reply = move_reply(alloc, &after)?;
    Judged::changes(
        alloc,
        Reply::UpdateSecretVersionStage(reply),
        Change::Replace(after),
    )
}
