//! The policy that a secret keeps, and the reply that names the secret.
ghost use Rattle.std.specs.Prelude.{◌≡◌, IfOk};
ghost use Rattle.sm_judge_common.specs.Secrets.{finished_row};
ghost use Rattle.sm_judge_policies.specs.Kept.{named, with_policy};

use sm_base::copy_two;
use sm_judge_common::row_change::finish;
use sm_model::{Copied, KeptPolicy, NamedSecret, NoMemory, SecretRow};
use sm_versions::When;
use std::alloc::Global;

/// A copy of the row that keeps this policy, or none.
pub(crate) fn keep(
    alloc: Global,
    row: &SecretRow,
    when: When,
    policy: Option<KeptPolicy>,
) -> Result<SecretRow, NoMemory>
    ensures { IfOk result (λ after. after ≡ finished_row (with_policy policy row.now) when) }
{
    let mut after = row.copy(alloc)?;
    after.policy = policy;
    finish(&mut after, when);
    Ok(after)
}

/// The reply that names the secret.
pub(crate) fn named(alloc: Global, row: &SecretRow) -> Result<NamedSecret, NoMemory>
    ensures { IfOk result (λ reply. reply ≡ named row.now) }
{
    let (arn, name) = copy_two(alloc, row.arn.as_text(), row.name.as_text())?;
    Ok(NamedSecret { arn, name })
}
