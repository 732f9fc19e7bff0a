//! The members of the operations on values and labels (AWS Secrets Manager API Reference).
ghost use Rattle.serde_json.specs.View.{view};
ghost use Rattle.sm_json.specs.Fields.{first_fault};
ghost use Rattle.sm_json.specs.Reads.{Reads};
ghost use Rattle.sm_json.specs.Tables.{batch_get_secret_value_members, batch_get_secret_value_in, create_secret_members, create_secret_in, get_secret_value_members, get_secret_value_in, put_secret_value_members, put_secret_value_in, update_secret_members, update_secret_in, update_secret_version_stage_members, update_secret_version_stage_in};

use crate::fields::{Fault, optional, required};
use crate::name::MemberName;
use crate::regions::regions_given;
use serde_json::Value;
use sm_model::{
    BatchGetSecretValue, CreateSecret, GetSecretValue, PutSecretValue, UpdateSecret,
    UpdateSecretVersionStage,
};
use std::alloc::Global;

/// The members of BatchGetSecretValue.
#[tactic(auto, unfolding(crate::specs::Tables::batch_get_secret_value_members, crate::specs::Tables::batch_get_secret_value_in))]
pub fn batch_get_secret_value_in(
    alloc: Global,
    object: &Value,
) -> Result<BatchGetSecretValue, Fault>
    ensures { Reads result (first_fault batch_get_secret_value_members (view object.now))
        (batch_get_secret_value_in (view object.now)) }
{
    Ok(BatchGetSecretValue {
        filters: optional(alloc, object, MemberName::Filters)?,
        max_results: optional(alloc, object, MemberName::MaxResults)?,
        next_token: optional(alloc, object, MemberName::NextToken)?,
        secret_id_list: optional(alloc, object, MemberName::SecretIdList)?,
    })
}

/// The members of CreateSecret.
#[tactic(auto, unfolding(crate::specs::Tables::create_secret_members, crate::specs::Tables::create_secret_in))]
pub fn create_secret_in(alloc: Global, object: &Value) -> Result<CreateSecret, Fault>
    ensures { Reads result (first_fault create_secret_members (view object.now)) (create_secret_in (view object.now)) }
{
    Ok(CreateSecret {
        regions: regions_given(alloc, object, MemberName::AddReplicaRegions)?,
        client_request_token: optional(alloc, object, MemberName::ClientRequestToken)?,
        description: optional(alloc, object, MemberName::Description)?,
        kms_key_id: optional(alloc, object, MemberName::KmsKeyId)?,
        name: required(alloc, object, MemberName::Name)?,
        secret_binary: optional(alloc, object, MemberName::SecretBinary)?,
        secret_string: optional(alloc, object, MemberName::SecretString)?,
        tags: optional(alloc, object, MemberName::Tags)?,
    })
}

/// The members of GetSecretValue.
#[tactic(auto, unfolding(crate::specs::Tables::get_secret_value_members, crate::specs::Tables::get_secret_value_in))]
pub fn get_secret_value_in(alloc: Global, object: &Value) -> Result<GetSecretValue, Fault>
    ensures { Reads result (first_fault get_secret_value_members (view object.now))
        (get_secret_value_in (view object.now)) }
{
    Ok(GetSecretValue {
        secret_id: required(alloc, object, MemberName::SecretId)?,
        version_id: optional(alloc, object, MemberName::VersionId)?,
        version_stage: optional(alloc, object, MemberName::VersionStage)?,
    })
}

/// The members of PutSecretValue.
#[tactic(auto, unfolding(crate::specs::Tables::put_secret_value_members, crate::specs::Tables::put_secret_value_in))]
pub fn put_secret_value_in(alloc: Global, object: &Value) -> Result<PutSecretValue, Fault>
    ensures { Reads result (first_fault put_secret_value_members (view object.now))
        (put_secret_value_in (view object.now)) }
{
    Ok(PutSecretValue {
        client_request_token: optional(alloc, object, MemberName::ClientRequestToken)?,
        secret_binary: optional(alloc, object, MemberName::SecretBinary)?,
        secret_id: required(alloc, object, MemberName::SecretId)?,
        secret_string: optional(alloc, object, MemberName::SecretString)?,
        version_stages: optional(alloc, object, MemberName::VersionStages)?,
    })
}

/// The members of UpdateSecret.
#[tactic(auto, unfolding(crate::specs::Tables::update_secret_members, crate::specs::Tables::update_secret_in))]
pub fn update_secret_in(alloc: Global, object: &Value) -> Result<UpdateSecret, Fault>
    ensures { Reads result (first_fault update_secret_members (view object.now)) (update_secret_in (view object.now)) }
{
    Ok(UpdateSecret {
        client_request_token: optional(alloc, object, MemberName::ClientRequestToken)?,
        description: optional(alloc, object, MemberName::Description)?,
        kms_key_id: optional(alloc, object, MemberName::KmsKeyId)?,
        secret_binary: optional(alloc, object, MemberName::SecretBinary)?,
        secret_id: required(alloc, object, MemberName::SecretId)?,
        secret_string: optional(alloc, object, MemberName::SecretString)?,
    })
}

/// The members of UpdateSecretVersionStage.
#[tactic(auto, unfolding(crate::specs::Tables::update_secret_version_stage_members, crate::specs::Tables::update_secret_version_stage_in))]
pub fn update_secret_version_stage_in(
    alloc: Global,
    object: &Value,
) -> Result<UpdateSecretVersionStage, Fault>
    ensures { Reads result (first_fault update_secret_version_stage_members (view object.now))
        (update_secret_version_stage_in (view object.now)) }
{
    Ok(UpdateSecretVersionStage {
        move_to_version_id: optional(alloc, object, MemberName::MoveToVersionId)?,
        remove_from_version_id: optional(alloc, object, MemberName::RemoveFromVersionId)?,
        secret_id: required(alloc, object, MemberName::SecretId)?,
        version_stage: required(alloc, object, MemberName::VersionStage)?,
    })
}
