//! Replies to accepted requests: one variant for each operation, with the members of its JSON body in snake case.
ghost use Rattle.std.specs.Prelude.{◌≡◌};
ghost use Rattle.sm_model.specs.Replies.{shown_value};

use crate::value::Tag;
use sm_base::{Bytes, Label, List, Moment, Text, Token};

/// A replica region of a secret, and how far its replication is (API Reference, ReplicationStatusType).
#[derive(Drop)]
pub struct ReplicationStatus {
    pub region: Text,
    pub status: Text,
}

/// The reply to CreateSecret.
#[derive(Drop)]
pub struct CreatedSecret {
    pub arn: Text,
    pub name: Text,
    /// None where it has no replica region.
    pub replication_status: Option<List<ReplicationStatus>>,
    /// The version that the value has.
    pub version_id: Option<Token>,
}

/// The reply to RemoveRegionsFromReplication and ReplicateSecretToRegions.
#[derive(Drop)]
pub struct ReplicatedSecret {
    pub arn: Text,
    pub replication_status: List<ReplicationStatus>,
}

/// The reply to StopReplicationToReplica.
#[derive(Drop)]
pub struct PromotedSecret {
    pub arn: Text,
}

/// The reply to CancelRotateSecret, RotateSecret and UpdateSecret: it names the secret, and the version where there is
/// one.
#[derive(Drop)]
pub struct VersionedSecret {
    pub arn: Text,
    pub name: Text,
    /// The version that the value, the rotation or the dropped job has.
    pub version_id: Option<Token>,
}

/// A reply that names the secret and says nothing else.
#[derive(Drop)]
pub struct NamedSecret {
    pub arn: Text,
    pub name: Text,
}

/// A secret of a batch that was refused, with the error's name and message (API Reference, APIErrorType).
#[derive(Drop)]
pub struct BatchError {
    pub error_code: Text,
    pub message: Text,
    pub secret_id: Text,
}

/// The reply to GetSecretValue, and an item of a batch.
pub struct GotSecret {
    pub arn: Text,
    /// When the version was made.
    pub created_date: Moment,
    pub name: Text,
    pub secret_binary: Option<Bytes>,
    pub secret_string: Option<Text>,
    pub version_id: Token,
    pub version_stages: List<Label>,
}

/// Who lets it go makes one call.
impl Drop for GotSecret {
    fn drop(self) {
        let GotSecret {
            arn: _,
            created_date: _,
            name: _,
            secret_binary: _,
            secret_string: _,
            version_id: _,
            version_stages: _,
        } = self;
    }
}

/// The reply to BatchGetSecretValue.
#[derive(Drop)]
pub struct SecretBatch {
    pub errors: List<BatchError>,
    pub next_token: Option<Text>,
    pub secret_values: List<GotSecret>,
}

/// The reply to DeleteSecret.
#[derive(Drop)]
pub struct DeletedSecret {
    /// None where no secret was there.
    pub arn: Option<Text>,
    pub deletion_date: Moment,
    /// The SecretId where no secret was there.
    pub name: Text,
}

/// The rotation rules that a secret keeps (API Reference, RotationRulesType).
#[derive(Drop)]
pub struct RulesShown {
    /// AutomaticallyAfterDays.
    pub days: Option<u32>,
    /// ScheduleExpression.
    pub schedule: Option<Text>,
}

/// A version and the labels on it, in ascending byte order.
#[derive(Drop)]
pub struct Staged {
    pub id: Token,
    pub labels: List<Label>,
}

/// The reply to DescribeSecret, and an item of ListSecrets (API Reference, SecretListEntry).
pub struct Described {
    pub arn: Text,
    pub created_date: Moment,
    /// From when on the secret is gone, where its deletion is scheduled.
    pub deleted_date: Option<Moment>,
    pub description: Option<Text>,
    pub kms_key_id: Option<Text>,
    pub last_changed_date: Moment,
    pub last_rotated_date: Option<Moment>,
    pub name: Text,
    pub next_rotation_date: Option<Moment>,
    /// None where it has no replica region.
    pub replication_status: Option<List<ReplicationStatus>>,
    pub rotation_enabled: bool,
    pub rotation_lambda_arn: Option<Text>,
    pub rotation_rules: Option<RulesShown>,
    pub tags: List<Tag>,
    /// The versions with a label.
    pub version_ids_to_stages: List<Staged>,
}

/// Who lets it go makes one call.
impl Drop for Described {
    fn drop(self) {
        let Described {
            arn: _,
            created_date: _,
            deleted_date: _,
            description: _,
            kms_key_id: _,
            last_changed_date: _,
            last_rotated_date: _,
            name: _,
            next_rotation_date: _,
            replication_status: _,
            rotation_enabled: _,
            rotation_lambda_arn: _,
            rotation_rules: _,
            tags: _,
            version_ids_to_stages: _,
        } = self;
    }
}

/// The reply to GetRandomPassword.
#[derive(Drop)]
pub struct RandomPassword {
    pub random_password: Text,
}

/// The reply to GetResourcePolicy.
#[derive(Drop)]
pub struct PolicyOfSecret {
    pub arn: Text,
    pub name: Text,
    pub resource_policy: Option<Text>,
}

/// The reply to ListSecrets.
#[derive(Drop)]
pub struct SecretPage {
    pub next_token: Option<Text>,
    pub secret_list: List<Described>,
}

/// A version of ListSecretVersionIds (API Reference, SecretVersionsListEntry).
#[derive(Drop)]
pub struct VersionItem {
    pub created_date: Moment,
    pub version_id: Token,
    /// None where it has no label.
    pub version_stages: Option<List<Label>>,
}

/// The reply to ListSecretVersionIds.
#[derive(Drop)]
pub struct VersionPage {
    pub arn: Text,
    pub name: Text,
    pub next_token: Option<Text>,
    pub versions: List<VersionItem>,
}

/// The reply to PutSecretValue.
#[derive(Drop)]
pub struct PutValue {
    pub arn: Text,
    pub name: Text,
    pub version_id: Token,
    pub version_stages: List<Label>,
}

/// A fault of a resource policy (API Reference, ValidationErrorsEntry).
#[derive(Drop)]
pub struct ValidationError {
    pub check_name: Text,
    pub error_message: Text,
}

/// The reply to ValidateResourcePolicy.
#[derive(Drop)]
pub struct PolicyValidation {
    pub policy_validation_passed: bool,
    pub validation_errors: List<ValidationError>,
}

/// A reply to an accepted request.
pub enum Reply {
    BatchGetSecretValue(SecretBatch),
    CancelRotateSecret(VersionedSecret),
    CreateSecret(CreatedSecret),
    DeleteResourcePolicy(NamedSecret),
    DeleteSecret(DeletedSecret),
    DescribeSecret(Described),
    GetRandomPassword(RandomPassword),
    GetResourcePolicy(PolicyOfSecret),
    GetSecretValue(GotSecret),
    ListSecretVersionIds(VersionPage),
    ListSecrets(SecretPage),
    PutResourcePolicy(NamedSecret),
    PutSecretValue(PutValue),
    RemoveRegionsFromReplication(ReplicatedSecret),
    ReplicateSecretToRegions(ReplicatedSecret),
    RestoreSecret(NamedSecret),
    RotateSecret(VersionedSecret),
    StopReplicationToReplica(PromotedSecret),
    TagResource,
    UntagResource,
    UpdateSecret(VersionedSecret),
    UpdateSecretVersionStage(NamedSecret),
    ValidateResourcePolicy(PolicyValidation),
}

impl Reply {
    /// The value that a reply to GetSecretValue shows, or None of another operation.
    pub fn into_value(self) -> Option<GotSecret>
        ensures { result ≡ shown_value self }
    {
        match self {
            Reply::GetSecretValue(got) => Some(got),
            _ => None,
        }
    }
}

/// Who lets a reply go makes one call, whatever its operation.
impl Drop for Reply {
    fn drop(self) {
        match self {
            Reply::BatchGetSecretValue(_)
            | Reply::CancelRotateSecret(_)
            | Reply::CreateSecret(_)
            | Reply::DeleteResourcePolicy(_)
            | Reply::DeleteSecret(_)
            | Reply::DescribeSecret(_)
            | Reply::GetRandomPassword(_)
            | Reply::GetResourcePolicy(_)
            | Reply::GetSecretValue(_)
            | Reply::ListSecretVersionIds(_)
            | Reply::ListSecrets(_)
            | Reply::PutResourcePolicy(_)
            | Reply::PutSecretValue(_)
            | Reply::RemoveRegionsFromReplication(_)
            | Reply::ReplicateSecretToRegions(_)
            | Reply::RestoreSecret(_)
            | Reply::RotateSecret(_)
            | Reply::StopReplicationToReplica(_)
            | Reply::TagResource
            | Reply::UntagResource
            | Reply::UpdateSecret(_)
            | Reply::UpdateSecretVersionStage(_)
            | Reply::ValidateResourcePolicy(_) => {}
        }
    }
}
