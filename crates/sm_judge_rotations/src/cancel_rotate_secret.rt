//! Judging CancelRotateSecret (AWS Secrets Manager API Reference, CancelRotateSecret).
ghost use Rattle.std.specs.Prelude.{◌≡◌, IfOk, None};
ghost use Rattle.sm_forms.specs.OfSecret.{of_secret_forms};
ghost use Rattle.sm_judge_rotations.specs.CancelRotateSecret.{cancelled, job_token, cancel_reply, cancel_on, cancel_judgement};

use sm_base::copy_two;
use sm_judge_common::Judged;
use sm_judge_common::members::secret_id;
use sm_judge_common::row_change::finish;
use sm_judge_common::standing::standing;
use sm_model::{Change, Copied, Job, NoMemory, OfSecret, Reply, SecretRow, Token, VersionedSecret};
use sm_table::Table;
use sm_versions::When;
use std::alloc::Global;

/// Judges a CancelRotateSecret.
#[tactic(auto, using(sm_forms::proofs::OfSecretLemmas::named_id, sm_judge_common::proofs::JudgedLemmas::judged_of_standing, sm_judge_common::proofs::JudgedLemmas::refused_unless_standing))]
pub fn judge_cancel(
    alloc: Global,
    table: &Table,
    when: When,
    cancel: &OfSecret,
) -> Result<Judged, NoMemory>
    requires { of_secret_forms cancel.now ≡ None }
    ensures { IfOk result (λ judged. judged ≡ cancel_judgement table.now when cancel.now) }
{
    let id = secret_id(alloc, &cancel.secret_id)?;
    match standing(table, &id, when.moment) {
        Ok(row) => cancel_on(alloc, row, when),
        Err(why) => Ok(Judged::Refuse(why)),
    }
}

/// Turns rotation off in a copy of the row, and drops its job.
fn cancel_on(alloc: Global, row: &SecretRow, when: When) -> Result<Judged, NoMemory>
    ensures { IfOk result (λ judged. judged ≡ cancel_on row.now when) }
{
    let reply = cancel_reply(alloc, row)?;
    let mut after = row.copy(alloc)?;
    cancel(&mut after);
    finish(&mut after, when);
    Judged::changes(
        alloc,
        Reply::CancelRotateSecret(reply),
        Change::Replace(after),
    )
}

/// Turns rotation off, and drops the job. The labels stay.
fn cancel(row: &mut SecretRow)
    ensures { row.new ≡ cancelled row.old }
{
    row.rotation.enabled = false;
    row.rotation.next = None;
    row.job = None;
}

/// The version that the secret was rotated to, where it was.
fn job_token(alloc: Global, job: &Option<Job>) -> Result<Option<Token>, NoMemory>
    ensures { IfOk result (λ token. token ≡ job_token job.now) }
{
    match job {
        Some(job) => Ok(Some(job.token.copy(alloc)?)),
        None => Ok(None),
    }
}

/// The reply that names the secret, and the version of the job that is dropped.
fn cancel_reply(alloc: Global, row: &SecretRow) -> Result<VersionedSecret, NoMemory>
    ensures { IfOk result (λ reply. reply ≡ cancel_reply row.now) }
{
    let version_id = job_token(alloc, &row.job)?;
    let (arn, name) = copy_two(alloc, row.arn.as_text(), row.name.as_text())?;
    Ok(VersionedSecret {
        arn,
        name,
        version_id,
    })
}
