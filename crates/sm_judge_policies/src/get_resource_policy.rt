//! Judging GetResourcePolicy (AWS Secrets Manager API Reference, GetResourcePolicy).
ghost use Rattle.std.specs.Prelude.{◌≡◌, IfOk, None};
ghost use Rattle.sm_forms.specs.OfSecret.{of_secret_forms};
ghost use Rattle.sm_judge_policies.specs.GetResourcePolicy.{policy_shown, get_policy_on, get_policy_judgement};

use sm_base::copy_two;
use sm_judge_common::Judged;
use sm_judge_common::members::secret_id;
use sm_model::{
    Copied, KeptPolicy, Moment, NoMemory, OfSecret, PolicyOfSecret, Reply, SecretRow, Text, Why,
};
use sm_table::Table;
use std::alloc::Global;

/// Judges a GetResourcePolicy.
#[tactic(auto, using(sm_forms::proofs::OfSecretLemmas::named_id))]
pub fn judge_get_policy(
    alloc: Global,
    table: &Table,
    moment: Moment,
    get: &OfSecret,
) -> Result<Judged, NoMemory>
    requires { of_secret_forms get.now ≡ None }
    ensures { IfOk result (λ judged. judged ≡ get_policy_judgement table.now moment get.now) }
{
    let id = secret_id(alloc, &get.secret_id)?;
    match table.find(&id, moment) {
        Some(row) => get_policy_on(alloc, row),
        None => Ok(Judged::Refuse(Why::NoSecret)),
    }
}

/// Shows the policy of this row, also of a secret that is scheduled for deletion.
fn get_policy_on(alloc: Global, row: &SecretRow) -> Result<Judged, NoMemory>
    ensures { IfOk result (λ judged. judged ≡ get_policy_on row.now) }
{
    let reply = policy_shown(alloc, row)?;
    Judged::reads(alloc, Reply::GetResourcePolicy(reply))
}

/// The reply that shows the policy as it was given, where there is one.
fn policy_shown(alloc: Global, row: &SecretRow) -> Result<PolicyOfSecret, NoMemory>
    ensures { IfOk result (λ reply. reply ≡ policy_shown row.now) }
{
    let (arn, name) = copy_two(alloc, row.arn.as_text(), row.name.as_text())?;
    Ok(PolicyOfSecret {
        arn,
        name,
        resource_policy: text_of(alloc, &row.policy)?,
    })
}

/// The text of a policy, where there is one.
fn text_of(alloc: Global, policy: &Option<KeptPolicy>) -> Result<Option<Text>, NoMemory>
    ensures { IfOk result (λ text. text ≡ policy.now) }
{
    match policy {
        Some(policy) => Ok(Some(policy.text().copy(alloc)?)),
        None => Ok(None),
    }
}
