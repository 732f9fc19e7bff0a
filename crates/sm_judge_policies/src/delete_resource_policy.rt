//! Judging DeleteResourcePolicy (AWS Secrets Manager API Reference, DeleteResourcePolicy).
ghost use Rattle.std.specs.Prelude.{◌≡◌, IfOk, None};
ghost use Rattle.sm_forms.specs.OfSecret.{of_secret_forms};
ghost use Rattle.sm_judge_policies.specs.DeleteResourcePolicy.{delete_policy_on, delete_policy_judgement};

use crate::kept::{keep, named};
use sm_judge_common::Judged;
use sm_judge_common::members::secret_id;
use sm_judge_common::standing::standing;
use sm_model::{Change, NoMemory, OfSecret, Reply, SecretRow};
use sm_table::Table;
use sm_versions::When;
use std::alloc::Global;

/// Judges a DeleteResourcePolicy.
#[tactic(auto, using(sm_forms::proofs::OfSecretLemmas::named_id, sm_judge_common::proofs::JudgedLemmas::judged_of_standing, sm_judge_common::proofs::JudgedLemmas::refused_unless_standing))]
pub fn judge_delete_policy(
    alloc: Global,
    table: &Table,
    when: When,
    delete: &OfSecret,
) -> Result<Judged, NoMemory>
    requires { of_secret_forms delete.now ≡ None }
    ensures { IfOk result (λ judged. judged ≡ delete_policy_judgement table.now when delete.now) }
{
    let id = secret_id(alloc, &delete.secret_id)?;
    match standing(table, &id, when.moment) {
        Ok(row) => delete_policy_on(alloc, row, when),
        Err(why) => Ok(Judged::Refuse(why)),
    }
}

/// Takes the policy off a copy of the row, whether it has one or not.
fn delete_policy_on(alloc: Global, row: &SecretRow, when: When) -> Result<Judged, NoMemory>
    ensures { IfOk result (λ judged. judged ≡ delete_policy_on row.now when) }
{
    let reply = named(alloc, row)?;
    let after = keep(alloc, row, when, None)?;
    Judged::changes(
        alloc,
        Reply::DeleteResourcePolicy(reply),
        Change::Replace(after),
    )
}
