//! Judging PutResourcePolicy (AWS Secrets Manager API Reference, PutResourcePolicy).
ghost use Rattle.std.specs.Prelude.{◌≡◌, IfOk, None, Some};
ghost use Rattle.sm_forms.specs.PutResourcePolicy.{put_policy_forms};
ghost use Rattle.sm_judge_policies.specs.PutResourcePolicy.{public_statement, blocked, put_policy_kept, put_policy_on, put_policy_judgement};

use crate::kept::{keep, named};
use sm_judge_common::Judged;
use sm_judge_common::members::secret_id;
use sm_judge_common::standing::standing;
use sm_model::{Change, Copied, KeptPolicy, NoMemory, PutResourcePolicy, Reply, SecretRow, Why};
use sm_policy::is_public;
use sm_table::Table;
use sm_versions::When;
use std::alloc::Global;

/// Judges a PutResourcePolicy.
#[tactic(auto, using(sm_forms::proofs::PutResourcePolicyLemmas::put_policy_id, sm_judge_common::proofs::JudgedLemmas::judged_of_standing, sm_judge_common::proofs::JudgedLemmas::refused_unless_standing))]
pub fn judge_put_policy(
    alloc: Global,
    table: &Table,
    when: When,
    put: &PutResourcePolicy,
) -> Result<Judged, NoMemory>
    requires { put_policy_forms put.now ≡ None }
    ensures { IfOk result (λ judged. judged ≡ put_policy_judgement table.now when put.now) }
{
    let id = secret_id(alloc, &put.secret_id)?;
    match standing(table, &id, when.moment) {
        Ok(row) => put_policy_on(alloc, row, when, put),
        Err(why) => Ok(Judged::Refuse(why)),
    }
}

/// Gives this row the policy, unless that is public and public ones are not wanted.
fn put_policy_on(
    alloc: Global,
    row: &SecretRow,
    when: When,
    put: &PutResourcePolicy,
) -> Result<Judged, NoMemory>
    ensures { IfOk result (λ judged. judged ≡ put_policy_on row.now when put.now) }
{
    let policy = KeptPolicy::of(alloc, put.resource_policy.copy(alloc)?)?;
    match blocked(put, &policy) {
        Some(statement) => Ok(Judged::Refuse(Why::Public(statement))),
        None => put_policy_kept(alloc, row, when, policy),
    }
}

/// The number of the first public statement, where public ones are not wanted.
fn blocked(put: &PutResourcePolicy, policy: &KeptPolicy) -> Option<u32>
    requires { policy.now ≡ put.now.resource_policy }
    ensures { result ≡ blocked put.now }
{
    if put.block_public_policy {
        public_statement(policy)
    } else {
        None
    }
}

/// The number of the first public statement of a text. One that is no policy, which the forms leave none, has none.
fn public_statement(policy: &KeptPolicy) -> Option<u32>
    ensures { result ≡ public_statement policy.now }
{
    match policy.policy() {
        Some(policy) => is_public(policy),
        None => None,
    }
}

/// Gives a copy of the row the policy, as it was given and read.
fn put_policy_kept(
    alloc: Global,
    row: &SecretRow,
    when: When,
    policy: KeptPolicy,
) -> Result<Judged, NoMemory>
    ensures { IfOk result (λ judged. judged ≡ put_policy_kept row.now when policy) }
{
    let reply = named(alloc, row)?;
    let after = keep(alloc, row, when, Some(policy))?;
    Judged::changes(
        alloc,
        Reply::PutResourcePolicy(reply),
        Change::Replace(after),
    )
}
