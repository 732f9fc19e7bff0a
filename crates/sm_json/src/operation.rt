//! The operations of the API, and the field that names one (AWS JSON 1.1, X-Amz-Target).
ghost use Rattle.std.specs.Prelude.{◌≡◌, option_copied};
ghost use Rattle.sm_json.specs.Operations.{name_of, find_named, operation_named, after_service, operation_of};

/// An operation of the API (AWS Secrets Manager API Reference, Actions).
#[derive(Clone, Copy, Debug, PartialEq, Eq)]
pub enum Operation {
    BatchGetSecretValue,
    CancelRotateSecret,
    CreateSecret,
    DeleteResourcePolicy,
    DeleteSecret,
    DescribeSecret,
    GetRandomPassword,
    GetResourcePolicy,
    GetSecretValue,
    ListSecretVersionIds,
    ListSecrets,
    PutResourcePolicy,
    PutSecretValue,
    RemoveRegionsFromReplication,
    ReplicateSecretToRegions,
    RestoreSecret,
    RotateSecret,
    StopReplicationToReplica,
    TagResource,
    UntagResource,
    UpdateSecret,
    UpdateSecretVersionStage,
    ValidateResourcePolicy,
}

/// All operations, in ascending byte order of their names.
const OPERATIONS: [Operation; 23] = [
    Operation::BatchGetSecretValue,
    Operation::CancelRotateSecret,
    Operation::CreateSecret,
    Operation::DeleteResourcePolicy,
    Operation::DeleteSecret,
    Operation::DescribeSecret,
    Operation::GetRandomPassword,
    Operation::GetResourcePolicy,
    Operation::GetSecretValue,
    Operation::ListSecretVersionIds,
    Operation::ListSecrets,
    Operation::PutResourcePolicy,
    Operation::PutSecretValue,
    Operation::RemoveRegionsFromReplication,
    Operation::ReplicateSecretToRegions,
    Operation::RestoreSecret,
    Operation::RotateSecret,
    Operation::StopReplicationToReplica,
    Operation::TagResource,
    Operation::UntagResource,
    Operation::UpdateSecret,
    Operation::UpdateSecretVersionStage,
    Operation::ValidateResourcePolicy,
];

impl Operation {
    /// The operation's name, as a target and the API Reference write it.
    pub fn name(self) -> &'static str
        ensures { result.now ≡ name_of self }
    {
        match self {
            Operation::BatchGetSecretValue => "BatchGetSecretValue",
            Operation::CancelRotateSecret => "CancelRotateSecret",
            Operation::CreateSecret => "CreateSecret",
            Operation::DeleteResourcePolicy => "DeleteResourcePolicy",
            Operation::DeleteSecret => "DeleteSecret",
            Operation::DescribeSecret => "DescribeSecret",
            Operation::GetRandomPassword => "GetRandomPassword",
            Operation::GetResourcePolicy => "GetResourcePolicy",
            Operation::GetSecretValue => "GetSecretValue",
            Operation::ListSecretVersionIds => "ListSecretVersionIds",
            Operation::ListSecrets => "ListSecrets",
            Operation::PutResourcePolicy => "PutResourcePolicy",
            Operation::PutSecretValue => "PutSecretValue",
            Operation::RemoveRegionsFromReplication => "RemoveRegionsFromReplication",
            Operation::ReplicateSecretToRegions => "ReplicateSecretToRegions",
            Operation::RestoreSecret => "RestoreSecret",
            Operation::RotateSecret => "RotateSecret",
            Operation::StopReplicationToReplica => "StopReplicationToReplica",
            Operation::TagResource => "TagResource",
            Operation::UntagResource => "UntagResource",
            Operation::UpdateSecret => "UpdateSecret",
            Operation::UpdateSecretVersionStage => "UpdateSecretVersionStage",
            Operation::ValidateResourcePolicy => "ValidateResourcePolicy",
        }
    }

    /// The operation of this name, or None where no operation has it. Case counts.
    #[tactic(auto, unfolding(crate::specs::Operations::operation_named))]
    pub fn from_name(name: &[u8]) -> Option<Operation>
        ensures { result ≡ operation_named name.now }
    {
        find_named(&OPERATIONS, name)
    }

    /// The operation that an X-Amz-Target names: the service, a full stop, and the operation's name.
    pub fn of_target(target: &[u8]) -> Option<Operation>
        ensures { result ≡ operation_of target.now }
    {
        match after_service(target) {
            Some(name) => Operation::from_name(name),
            None => None,
        }
    }
}

/// What stands behind the service's name.
fn after_service(target: &[u8]) -> Option<&[u8]>
    ensures { option_copied result ≡ after_service target.now }
{
    if target.starts_with(b"secretsmanager.") {
        Some(&target[15..])
    } else {
        None
    }
}

/// The first of the operations that has the name.
#[tactic(auto, using(crate::proofs::NameLemmas::named_here, crate::proofs::NameLemmas::named_further))]
fn find_named(operations: &[Operation], name: &[u8]) -> Option<Operation>
    ensures { result ≡ find_named name.now operations.now }
{
    for operation in operations {
        if operation.name().as_bytes() == name {
            return Some(*operation);
        }
    }
    None
}
