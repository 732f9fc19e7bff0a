//! The members of the operations on secrets, their tags and their lists (AWS Secrets Manager API Reference).
ghost use Rattle.serde_json.specs.View.{view};
ghost use Rattle.sm_json.specs.Fields.{first_fault};
ghost use Rattle.sm_json.specs.Reads.{Reads};
ghost use Rattle.sm_json.specs.Tables.{of_secret_members, of_secret_in, delete_secret_members, delete_secret_in, list_secret_version_ids_members, list_secret_version_ids_in, list_secrets_members, list_secrets_in, tag_resource_members, tag_resource_in, untag_resource_members, untag_resource_in};

use crate::fields::{Fault, optional, required};
use crate::name::MemberName;
use serde_json::Value;
use sm_model::{
    DeleteSecret, ListSecretVersionIds, ListSecrets, OfSecret, TagResource, UntagResource,
};
use std::alloc::Global;

/// The members of CancelRotateSecret, DeleteResourcePolicy, DescribeSecret, GetResourcePolicy, RestoreSecret and
/// StopReplicationToReplica.
#[tactic(auto, unfolding(crate::specs::Tables::of_secret_members, crate::specs::Tables::of_secret_in))]
pub fn of_secret_in(alloc: Global, object: &Value) -> Result<OfSecret, Fault>
    ensures { Reads result (first_fault of_secret_members (view object.now)) (of_secret_in (view object.now)) }
{
    Ok(OfSecret {
        secret_id: required(alloc, object, MemberName::SecretId)?,
    })
}

/// The members of DeleteSecret.
#[tactic(auto, unfolding(crate::specs::Tables::delete_secret_members, crate::specs::Tables::delete_secret_in))]
pub fn delete_secret_in(alloc: Global, object: &Value) -> Result<DeleteSecret, Fault>
    ensures { Reads result (first_fault delete_secret_members (view object.now)) (delete_secret_in (view object.now)) }
{
    Ok(DeleteSecret {
        force_delete_without_recovery: optional::<bool>(
            alloc,
            object,
            MemberName::ForceDeleteWithoutRecovery,
        )?.unwrap_or(false),
        recovery_window_in_days: optional(alloc, object, MemberName::RecoveryWindowInDays)?,
        secret_id: required(alloc, object, MemberName::SecretId)?,
    })
}

/// The members of ListSecretVersionIds.
#[tactic(auto, unfolding(crate::specs::Tables::list_secret_version_ids_members, crate::specs::Tables::list_secret_version_ids_in))]
pub fn list_secret_version_ids_in(
    alloc: Global,
    object: &Value,
) -> Result<ListSecretVersionIds, Fault>
    ensures { Reads result (first_fault list_secret_version_ids_members (view object.now))
        (list_secret_version_ids_in (view object.now)) }
{
    Ok(ListSecretVersionIds {
        include_deprecated: optional::<bool>(
            alloc,
            object,
            MemberName::IncludeDeprecated,
        )?.unwrap_or(false),
        max_results: optional(alloc, object, MemberName::MaxResults)?,
        next_token: optional(alloc, object, MemberName::NextToken)?,
        secret_id: required(alloc, object, MemberName::SecretId)?,
    })
}

/// The members of ListSecrets.
#[tactic(auto, unfolding(crate::specs::Tables::list_secrets_members, crate::specs::Tables::list_secrets_in))]
pub fn list_secrets_in(alloc: Global, object: &Value) -> Result<ListSecrets, Fault>
    ensures { Reads result (first_fault list_secrets_members (view object.now)) (list_secrets_in (view object.now)) }
{
    Ok(ListSecrets {
        filters: optional(alloc, object, MemberName::Filters)?,
        include_planned_deletion: optional::<bool>(
            alloc,
            object,
            MemberName::IncludePlannedDeletion,
        )?.unwrap_or(false),
        max_results: optional(alloc, object, MemberName::MaxResults)?,
        next_token: optional(alloc, object, MemberName::NextToken)?,
        sort_order: optional(alloc, object, MemberName::SortOrder)?,
    })
}

/// The members of TagResource.
#[tactic(auto, unfolding(crate::specs::Tables::tag_resource_members, crate::specs::Tables::tag_resource_in))]
pub fn tag_resource_in(alloc: Global, object: &Value) -> Result<TagResource, Fault>
    ensures { Reads result (first_fault tag_resource_members (view object.now)) (tag_resource_in (view object.now)) }
{
    Ok(TagResource {
        secret_id: required(alloc, object, MemberName::SecretId)?,
        tags: required(alloc, object, MemberName::Tags)?,
    })
}

/// The members of UntagResource.
#[tactic(auto, unfolding(crate::specs::Tables::untag_resource_members, crate::specs::Tables::untag_resource_in))]
pub fn untag_resource_in(alloc: Global, object: &Value) -> Result<UntagResource, Fault>
    ensures { Reads result (first_fault untag_resource_members (view object.now))
        (untag_resource_in (view object.now)) }
{
    Ok(UntagResource {
        secret_id: required(alloc, object, MemberName::SecretId)?,
        tag_keys: required(alloc, object, MemberName::TagKeys)?,
    })
}
