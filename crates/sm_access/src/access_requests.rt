//! What a request asks of the policy of a secret (Service Authorization Reference, "Actions, resources, and condition
//! keys for AWS Secrets Manager").
ghost use Rattle.std.specs.Prelude.{◌≡◌, option_map};
ghost use Rattle.sm_access.specs.AccessRequests.{plain_access_request, access_request_on, label_asked, get_access_request, move_access_request, validation_access_request, access_request_of, asks_nothing};

use sm_model::{GetSecretValue, Request, Text, UpdateSecretVersionStage, ValidateResourcePolicy};

/// What a request asks of the policy of the secret that it names.
#[derive(Clone, Copy)]
pub(crate) struct AccessRequest<'a> {
    /// The action's whole name, as `secretsmanager:GetSecretValue`.
    pub action: &'static str,
    /// The SecretId as it was given.
    pub secret_id: &'a Text,
    pub version_id: Option<&'a [u8]>,
    /// The label that is asked for.
    pub version_stage: Option<&'a [u8]>,
}

/// What a request asks of the policy of the secret that it names, or none where it names no secret.
pub(crate) fn access_request_of(request: &Request) -> Option<AccessRequest<'_>>
    ensures { option_map plain_access_request result ≡ access_request_of request.now }
{
    match request {
        Request::CancelRotateSecret(cancel) => {
            Some(access_request_on("secretsmanager:CancelRotateSecret", &cancel.secret_id))
        }
        Request::DeleteResourcePolicy(delete) => {
            Some(access_request_on("secretsmanager:DeleteResourcePolicy", &delete.secret_id))
        }
        Request::DeleteSecret(delete) => {
            Some(access_request_on("secretsmanager:DeleteSecret", &delete.secret_id))
        }
        Request::DescribeSecret(describe) => {
            Some(access_request_on("secretsmanager:DescribeSecret", &describe.secret_id))
        }
        Request::GetResourcePolicy(get) => {
            Some(access_request_on("secretsmanager:GetResourcePolicy", &get.secret_id))
        }
        Request::GetSecretValue(get) => Some(get_access_request(get)),
        Request::ListSecretVersionIds(list) => {
            Some(access_request_on("secretsmanager:ListSecretVersionIds", &list.secret_id))
        }
        Request::PutResourcePolicy(put) => {
            Some(access_request_on("secretsmanager:PutResourcePolicy", &put.secret_id))
        }
        Request::PutSecretValue(put) => {
            Some(access_request_on("secretsmanager:PutSecretValue", &put.secret_id))
        }
        Request::RemoveRegionsFromReplication(remove) => Some(access_request_on(
            "secretsmanager:RemoveRegionsFromReplication",
            &remove.secret_id,
        )),
        Request::ReplicateSecretToRegions(replicate) => Some(access_request_on(
            "secretsmanager:ReplicateSecretToRegions",
            &replicate.secret_id,
        )),
        Request::RestoreSecret(restore) => {
            Some(access_request_on("secretsmanager:RestoreSecret", &restore.secret_id))
        }
        Request::RotateSecret(rotate) => {
            Some(access_request_on("secretsmanager:RotateSecret", &rotate.secret_id))
        }
        Request::StopReplicationToReplica(stop) => Some(access_request_on(
            "secretsmanager:StopReplicationToReplica",
            &stop.secret_id,
        )),
        Request::TagResource(tag) => Some(access_request_on(
            "secretsmanager:TagResource",
            &tag.secret_id,
        )),
        Request::UntagResource(untag) => {
            Some(access_request_on("secretsmanager:UntagResource", &untag.secret_id))
        }
        Request::UpdateSecret(update) => {
            Some(access_request_on("secretsmanager:UpdateSecret", &update.secret_id))
        }
        Request::UpdateSecretVersionStage(update) => Some(move_access_request(update)),
        Request::ValidateResourcePolicy(validate) => validation_access_request(validate),
        Request::BatchGetSecretValue(_)
        | Request::CreateSecret(_)
        | Request::GetRandomPassword(_)
        | Request::ListSecrets(_) => None,
    }
}

/// An action on the secret with this SecretId, of which no version and no label is named.
fn access_request_on<'a>(action: &'static str, secret_id: &'a Text) -> AccessRequest<'a>
    ensures { plain_access_request result ≡ access_request_on action.now secret_id.now }
{
    AccessRequest {
        action,
        secret_id,
        version_id: None,
        version_stage: None,
    }
}

/// What a GetSecretValue asks.
pub(crate) fn get_access_request(get: &GetSecretValue) -> AccessRequest<'_>
    ensures { plain_access_request result ≡ get_access_request get.now }
{
    AccessRequest {
        action: "secretsmanager:GetSecretValue",
        secret_id: &get.secret_id,
        version_id: bytes_of(&get.version_id),
        version_stage: label_asked(get),
    }
}

/// The bytes of a text, if there is one.
fn bytes_of(text: &Option<Text>) -> Option<&[u8]>
    ensures { option_map (λ t. t.now) result ≡ text.now }
{
    match text {
        Some(text) => Some(text.as_bytes()),
        None => None,
    }
}

/// The label that a GetSecretValue asks for: AWSCURRENT where it names neither a version nor a label.
#[tactic(auto, unfolding(sm_model::specs::Labels::aws_current))]
fn label_asked(get: &GetSecretValue) -> Option<&[u8]>
    ensures { option_map (λ t. t.now) result ≡ label_asked get.now.version_id get.now.version_stage }
{
    match &get.version_stage {
        Some(label) => Some(label.as_bytes()),
        None => match &get.version_id {
            Some(_) => None,
            None => Some(b"AWSCURRENT"),
        },
    }
}

/// What an UpdateSecretVersionStage asks: it names its label.
fn move_access_request(update: &UpdateSecretVersionStage) -> AccessRequest<'_>
    ensures { plain_access_request result ≡ move_access_request update.now }
{
    AccessRequest {
        action: "secretsmanager:UpdateSecretVersionStage",
        secret_id: &update.secret_id,
        version_id: None,
        version_stage: Some(update.version_stage.as_bytes()),
    }
}

/// What a ValidateResourcePolicy asks, where it names a secret.
fn validation_access_request(validate: &ValidateResourcePolicy) -> Option<AccessRequest<'_>>
    ensures { option_map plain_access_request result ≡ validation_access_request validate.now }
{
    match &validate.secret_id {
        Some(id) => Some(access_request_on("secretsmanager:ValidateResourcePolicy", id)),
        None => None,
    }
}

/// Whether nothing is asked for a request itself: so it is of a batch by SecretIds, each of which is asked for alone.
pub(crate) fn asks_nothing(request: &Request) -> bool
    ensures { result ≡ asks_nothing request.now }
{
    match request {
        Request::BatchGetSecretValue(batch) => batch.secret_id_list.is_some(),
        _ => false,
    }
}
