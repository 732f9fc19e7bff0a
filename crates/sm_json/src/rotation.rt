//! The members of RotateSecret (AWS Secrets Manager API Reference).
ghost use Rattle.serde_json.specs.View.{view};
ghost use Rattle.sm_json.specs.Fields.{first_fault};
ghost use Rattle.sm_json.specs.Reads.{Reads};
ghost use Rattle.sm_json.specs.Tables.{rotate_secret_members, rotate_secret_in};

use crate::fields::{Fault, optional, required};
use crate::name::MemberName;
use serde_json::Value;
use sm_model::RotateSecret;
use std::alloc::Global;

/// The members of RotateSecret.
#[tactic(auto, unfolding(crate::specs::Tables::rotate_secret_members, crate::specs::Tables::rotate_secret_in))]
pub fn rotate_secret_in(alloc: Global, object: &Value) -> Result<RotateSecret, Fault>
    ensures { Reads result (first_fault rotate_secret_members (view object.now)) (rotate_secret_in (view object.now)) }
{
    Ok(RotateSecret {
        client_request_token: optional(alloc, object, MemberName::ClientRequestToken)?,
        rotate_immediately: optional::<bool>(
            alloc,
            object,
            MemberName::RotateImmediately,
        )?.unwrap_or(true),
        rotation_lambda_arn: optional(alloc, object, MemberName::RotationLambdaARN)?,
        rotation_rules: optional(alloc, object, MemberName::RotationRules)?,
        secret_id: required(alloc, object, MemberName::SecretId)?,
    })
}
