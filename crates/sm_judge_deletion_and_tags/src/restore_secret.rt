//! Judging RestoreSecret (AWS Secrets Manager API Reference, RestoreSecret).
ghost use Rattle.std.specs.Prelude.{◌≡◌, IfOk, None};
ghost use Rattle.sm_forms.specs.OfSecret.{of_secret_forms};
ghost use Rattle.sm_judge_deletion_and_tags.specs.RestoreSecret.{restored, restore_on, restore_judgement};

use sm_base::copy_two;
use sm_judge_common::Judged;
use sm_judge_common::members::secret_id;
use sm_judge_common::row_change::finish;
use sm_model::{Change, Copied, NamedSecret, NoMemory, OfSecret, Reply, SecretRow, Why};
use sm_table::Table;
use sm_versions::When;
use std::alloc::Global;

/// Judges a RestoreSecret.
#[tactic(auto, using(sm_forms::proofs::OfSecretLemmas::named_id))]
pub fn judge_restore(
    alloc: Global,
    table: &Table,
    when: When,
    restore: &OfSecret,
) -> Result<Judged, NoMemory>
    requires { of_secret_forms restore.now ≡ None }
    ensures { IfOk result (λ judged. judged ≡ restore_judgement table.now when restore.now) }
{
    let id = secret_id(alloc, &restore.secret_id)?;
    match table.find(&id, when.moment) {
        Some(row) => restore_on(alloc, row, when),
        None => Ok(Judged::Refuse(Why::NoSecret)),
    }
}

/// Takes the deletion date off a copy of the row, whether it has one or not.
fn restore_on(alloc: Global, row: &SecretRow, when: When) -> Result<Judged, NoMemory>
    ensures { IfOk result (λ judged. judged ≡ restore_on row.now when) }
{
    let reply = restored(alloc, row)?;
    let mut after = row.copy(alloc)?;
    after.deletion = None;
    finish(&mut after, when);
    Judged::changes(alloc, Reply::RestoreSecret(reply), Change::Replace(after))
}

/// The reply that names the secret.
fn restored(alloc: Global, row: &SecretRow) -> Result<NamedSecret, NoMemory>
    ensures { IfOk result (λ reply. reply ≡ restored row.now) }
{
    let (arn, name) = copy_two(alloc, row.arn.as_text(), row.name.as_text())?;
    Ok(NamedSecret { arn, name })
}
