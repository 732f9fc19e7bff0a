//! The members of the operations on resource policies (AWS Secrets Manager API Reference).
ghost use Rattle.serde_json.specs.View.{view};
ghost use Rattle.sm_json.specs.Fields.{first_fault};
ghost use Rattle.sm_json.specs.Reads.{Reads};
ghost use Rattle.sm_json.specs.Tables.{put_resource_policy_members, put_resource_policy_in, validate_resource_policy_members, validate_resource_policy_in};

use crate::fields::{Fault, optional, required};
use crate::name::MemberName;
use serde_json::Value;
use sm_model::{PutResourcePolicy, ValidateResourcePolicy};
use std::alloc::Global;

/// The members of PutResourcePolicy.
#[tactic(auto, unfolding(crate::specs::Tables::put_resource_policy_members, crate::specs::Tables::put_resource_policy_in))]
pub fn put_resource_policy_in(alloc: Global, object: &Value) -> Result<PutResourcePolicy, Fault>
    ensures { Reads result (first_fault put_resource_policy_members (view object.now))
        (put_resource_policy_in (view object.now)) }
{
    Ok(PutResourcePolicy {
        block_public_policy: optional::<bool>(
            alloc,
            object,
            MemberName::BlockPublicPolicy,
        )?.unwrap_or(false),
        resource_policy: required(alloc, object, MemberName::ResourcePolicy)?,
        secret_id: required(alloc, object, MemberName::SecretId)?,
    })
}

/// The members of ValidateResourcePolicy.
#[tactic(auto, unfolding(crate::specs::Tables::validate_resource_policy_members, crate::specs::Tables::validate_resource_policy_in))]
pub fn validate_resource_policy_in(
    alloc: Global,
    object: &Value,
) -> Result<ValidateResourcePolicy, Fault>
    ensures { Reads result (first_fault validate_resource_policy_members (view object.now))
        (validate_resource_policy_in (view object.now)) }
{
    Ok(ValidateResourcePolicy {
        resource_policy: required(alloc, object, MemberName::ResourcePolicy)?,
        secret_id: optional(alloc, object, MemberName::SecretId)?,
    })
}
