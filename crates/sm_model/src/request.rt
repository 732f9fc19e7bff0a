//! Requests: one variant for each operation, with the members of its JSON body in snake case. A member that need not be
//! there is
//! optional, save that a truth value is the one that counts.
ghost use Rattle.std.specs.Prelude.{◌≡◌};
ghost use Rattle.sm_model.specs.Needed.{needed, token_bytes, bytes_of_length, password_bytes};

use crate::value::Tag;
use sm_base::limits::{PASSWORD_LENGTH, PASSWORD_LIMIT};
use sm_base::{Bytes, List, Text};

/// A filter of BatchGetSecretValue and ListSecrets (AWS Secrets Manager API Reference, Filter).
#[derive(Drop)]
pub struct Filter {
    pub key: Text,
    pub values: List<Text>,
}

/// The rotation rules of a request (AWS Secrets Manager API Reference, RotationRulesType).
#[derive(Drop)]
pub struct Rules {
    /// AutomaticallyAfterDays.
    pub days: Option<i64>,
    /// ScheduleExpression.
    pub schedule: Option<Text>,
}

/// The request of an operation that names a secret and nothing else: CancelRotateSecret, DeleteResourcePolicy,
/// DescribeSecret,
/// GetResourcePolicy, RestoreSecret and StopReplicationToReplica.
#[derive(Drop)]
pub struct OfSecret {
    pub secret_id: Text,
}

/// The request of an operation that names a secret and regions: RemoveRegionsFromReplication and
/// ReplicateSecretToRegions.
#[derive(Drop)]
pub struct RegionsOfSecret {
    pub regions: List<Text>,
    pub secret_id: Text,
}

/// BatchGetSecretValue (AWS Secrets Manager API Reference, BatchGetSecretValue).
#[derive(Drop)]
pub struct BatchGetSecretValue {
    pub filters: Option<List<Filter>>,
    pub max_results: Option<i64>,
    pub next_token: Option<Text>,
    pub secret_id_list: Option<List<Text>>,
}

/// CreateSecret (AWS Secrets Manager API Reference, CreateSecret).
#[derive(Drop)]
pub struct CreateSecret {
    /// The regions of AddReplicaRegions.
    pub regions: List<Text>,
    pub client_request_token: Option<Text>,
    pub description: Option<Text>,
    pub kms_key_id: Option<Text>,
    pub name: Text,
    pub secret_binary: Option<Bytes>,
    pub secret_string: Option<Text>,
    pub tags: Option<List<Tag>>,
}

/// DeleteSecret (AWS Secrets Manager API Reference, DeleteSecret).
#[derive(Drop)]
pub struct DeleteSecret {
    pub force_delete_without_recovery: bool,
    /// Whole days.
    pub recovery_window_in_days: Option<i64>,
    pub secret_id: Text,
}

/// GetRandomPassword (AWS Secrets Manager API Reference, GetRandomPassword).
#[derive(Drop)]
pub struct GetRandomPassword {
    pub exclude_characters: Option<Text>,
    pub exclude_lowercase: bool,
    pub exclude_numbers: bool,
    pub exclude_punctuation: bool,
    pub exclude_uppercase: bool,
    pub include_space: bool,
    pub password_length: Option<i64>,
    /// True where the member is absent.
    pub require_each_included_type: bool,
}

/// GetSecretValue (AWS Secrets Manager API Reference, GetSecretValue).
#[derive(Drop)]
pub struct GetSecretValue {
    pub secret_id: Text,
    pub version_id: Option<Text>,
    pub version_stage: Option<Text>,
}

/// ListSecretVersionIds (AWS Secrets Manager API Reference, ListSecretVersionIds).
#[derive(Drop)]
pub struct ListSecretVersionIds {
    pub include_deprecated: bool,
    pub max_results: Option<i64>,
    pub next_token: Option<Text>,
    pub secret_id: Text,
}

/// ListSecrets (AWS Secrets Manager API Reference, ListSecrets).
#[derive(Drop)]
pub struct ListSecrets {
    pub filters: Option<List<Filter>>,
    pub include_planned_deletion: bool,
    pub max_results: Option<i64>,
    pub next_token: Option<Text>,
    pub sort_order: Option<Text>,
}

/// PutResourcePolicy (AWS Secrets Manager API Reference, PutResourcePolicy).
#[derive(Drop)]
pub struct PutResourcePolicy {
    pub block_public_policy: bool,
    pub resource_policy: Text,
    pub secret_id: Text,
}

/// PutSecretValue (AWS Secrets Manager API Reference, PutSecretValue).
#[derive(Drop)]
pub struct PutSecretValue {
    pub client_request_token: Option<Text>,
    pub secret_binary: Option<Bytes>,
    pub secret_id: Text,
    pub secret_string: Option<Text>,
    pub version_stages: Option<List<Text>>,
}

/// RotateSecret (AWS Secrets Manager API Reference, RotateSecret).
#[derive(Drop)]
pub struct RotateSecret {
    pub client_request_token: Option<Text>,
    /// True where the member is absent.
    pub rotate_immediately: bool,
    pub rotation_lambda_arn: Option<Text>,
    pub rotation_rules: Option<Rules>,
    pub secret_id: Text,
}

/// TagResource (AWS Secrets Manager API Reference, TagResource).
#[derive(Drop)]
pub struct TagResource {
    pub secret_id: Text,
    pub tags: List<Tag>,
}

/// UntagResource (AWS Secrets Manager API Reference, UntagResource).
#[derive(Drop)]
pub struct UntagResource {
    pub secret_id: Text,
    pub tag_keys: List<Text>,
}

/// UpdateSecret (AWS Secrets Manager API Reference, UpdateSecret).
#[derive(Drop)]
pub struct UpdateSecret {
    pub client_request_token: Option<Text>,
    pub description: Option<Text>,
    pub kms_key_id: Option<Text>,
    pub secret_binary: Option<Bytes>,
    pub secret_id: Text,
    pub secret_string: Option<Text>,
}

/// UpdateSecretVersionStage (AWS Secrets Manager API Reference, UpdateSecretVersionStage).
#[derive(Drop)]
pub struct UpdateSecretVersionStage {
    pub move_to_version_id: Option<Text>,
    pub remove_from_version_id: Option<Text>,
    pub secret_id: Text,
    pub version_stage: Text,
}

/// ValidateResourcePolicy (AWS Secrets Manager API Reference, ValidateResourcePolicy).
#[derive(Drop)]
pub struct ValidateResourcePolicy {
    pub resource_policy: Text,
    pub secret_id: Option<Text>,
}

/// A request as its body was read. Whether its members are in their forms is not yet known.
pub enum Request {
    BatchGetSecretValue(BatchGetSecretValue),
    CancelRotateSecret(OfSecret),
    CreateSecret(CreateSecret),
    DeleteResourcePolicy(OfSecret),
    DeleteSecret(DeleteSecret),
    DescribeSecret(OfSecret),
    GetRandomPassword(GetRandomPassword),
    GetResourcePolicy(OfSecret),
    GetSecretValue(GetSecretValue),
    ListSecretVersionIds(ListSecretVersionIds),
    ListSecrets(ListSecrets),
    PutResourcePolicy(PutResourcePolicy),
    PutSecretValue(PutSecretValue),
    RemoveRegionsFromReplication(RegionsOfSecret),
    ReplicateSecretToRegions(RegionsOfSecret),
    RestoreSecret(OfSecret),
    RotateSecret(RotateSecret),
    StopReplicationToReplica(OfSecret),
    TagResource(TagResource),
    UntagResource(UntagResource),
    UpdateSecret(UpdateSecret),
    UpdateSecretVersionStage(UpdateSecretVersionStage),
    ValidateResourcePolicy(ValidateResourcePolicy),
}

/// Who lets a request go makes one call, whatever its operation.
impl Drop for Request {
    fn drop(self) {
        match self {
            Request::BatchGetSecretValue(_)
            | Request::CancelRotateSecret(_)
            | Request::CreateSecret(_)
            | Request::DeleteResourcePolicy(_)
            | Request::DeleteSecret(_)
            | Request::DescribeSecret(_)
            | Request::GetRandomPassword(_)
            | Request::GetResourcePolicy(_)
            | Request::GetSecretValue(_)
            | Request::ListSecretVersionIds(_)
            | Request::ListSecrets(_)
            | Request::PutResourcePolicy(_)
            | Request::PutSecretValue(_)
            | Request::RemoveRegionsFromReplication(_)
            | Request::ReplicateSecretToRegions(_)
            | Request::RestoreSecret(_)
            | Request::RotateSecret(_)
            | Request::StopReplicationToReplica(_)
            | Request::TagResource(_)
            | Request::UntagResource(_)
            | Request::UpdateSecret(_)
            | Request::UpdateSecretVersionStage(_)
            | Request::ValidateResourcePolicy(_) => {}
        }
    }
}

/// How many random bytes are drawn for a request, as its body was read: 6 for the end of a new secret's ARN, 16 for a
/// token that is
/// wanted and not given, and 4 for each character of a password.
pub fn need(request: &Request) -> usize
    ensures { result ≡ needed request.now }
{
    match request {
        Request::CreateSecret(create) => need_for_secret(create),
        Request::GetRandomPassword(password) => need_for_password(password.password_length),
        Request::PutSecretValue(put) => need_for_token(&put.client_request_token),
        Request::RotateSecret(rotate) => need_for_rotation(rotate),
        Request::UpdateSecret(update) => need_for_update(update),
        Request::BatchGetSecretValue(_)
        | Request::CancelRotateSecret(_)
        | Request::DeleteResourcePolicy(_)
        | Request::DeleteSecret(_)
        | Request::DescribeSecret(_)
        | Request::GetResourcePolicy(_)
        | Request::GetSecretValue(_)
        | Request::ListSecretVersionIds(_)
        | Request::ListSecrets(_)
        | Request::PutResourcePolicy(_)
        | Request::RemoveRegionsFromReplication(_)
        | Request::ReplicateSecretToRegions(_)
        | Request::RestoreSecret(_)
        | Request::StopReplicationToReplica(_)
        | Request::TagResource(_)
        | Request::UntagResource(_)
        | Request::UpdateSecretVersionStage(_)
        | Request::ValidateResourcePolicy(_) => 0,
    }
}

fn need_for_token(token: &Option<Text>) -> usize
    ensures { result ≡ token_bytes token.now }
{
    if token.is_some() { 0 } else { 16 }
}

fn need_for_secret(create: &CreateSecret) -> usize
    ensures { result ≡ needed (Request.CreateSecret create.now) }
{
    if create.secret_string.is_some() || create.secret_binary.is_some() {
        6 + need_for_token(&create.client_request_token)
    } else {
        6
    }
}

fn need_for_update(update: &UpdateSecret) -> usize
    ensures { result ≡ needed (Request.UpdateSecret update.now) }
{
    if update.secret_string.is_some() || update.secret_binary.is_some() {
        need_for_token(&update.client_request_token)
    } else {
        0
    }
}

fn need_for_rotation(rotate: &RotateSecret) -> usize
    ensures { result ≡ needed (Request.RotateSecret rotate.now) }
{
    if rotate.rotate_immediately {
        need_for_token(&rotate.client_request_token)
    } else {
        0
    }
}

/// Four bytes for each character, where the length is one that a password may have.
fn need_for_password(length: Option<i64>) -> usize
    ensures { result ≡ password_bytes length }
{
    match length {
        Some(length) => bytes_of_length(length),
        None => bytes_of_length(i64::from(PASSWORD_LENGTH)),
    }
}

fn bytes_of_length(length: i64) -> usize
    ensures { result ≡ bytes_of_length length }
{
    if 1 <= length && length <= i64::from(PASSWORD_LIMIT) {
        4 * length as usize
    } else {
        0
    }
}
