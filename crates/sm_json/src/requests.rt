//! The request that a message asks for (AWS JSON 1.1).
ghost use Rattle.std.specs.Prelude.{◌≡◌, Option};
ghost use Rattle.serde_json.specs.View.{view};
ghost use Rattle.sm_base.specs.Outcomes.{OrMemory};
ghost use Rattle.sm_json.specs.Asks.{members_of, request_in, refused_or, asked, asks_of, asks, told};
ghost use Rattle.sm_json.specs.Fields.{Flaw, first_fault};
ghost use Rattle.sm_model.specs.declared.request.Request.{Request};
ghost use Rattle.sm_json.specs.Reads.{Reads, Flawed};

use crate::body::{Body, object_of};
use crate::fields::{Fault, Mark};
use crate::operation::Operation;
use crate::{passwords, policies, regions, rotation, secrets, values};
use json::Scratch;
use serde_json::Value;
use sm_model::{Request, Text};
use std::alloc::Global;

/// The request that a message asks for, or its first refusal.
#[derive(Drop)]
pub enum ReadRequest {
    Ok(Request),
    /// The target names no operation.
    Unknown,
    /// The body is no JSON object.
    NotJson,
    /// The member is missing, or of another type.
    BadMember(Text),
    /// The member is left out by name.
    Left(Text),
    /// Memory was wanted and there was none.
    Memory,
}

/// The request of an operation by an object's members.
fn request_in(alloc: Global, operation: Operation, object: &Value) -> Result<Request, Fault>
    ensures { Reads result (first_fault (members_of operation) (view object.now))
        (request_in operation (view object.now)) }
{
    match operation {
        Operation::BatchGetSecretValue => Ok(Request::BatchGetSecretValue(
            values::batch_get_secret_value_in(alloc, object)?,
        )),
        Operation::CancelRotateSecret => Ok(Request::CancelRotateSecret(secrets::of_secret_in(
            alloc, object,
        )?)),
        Operation::CreateSecret => Ok(Request::CreateSecret(values::create_secret_in(
            alloc, object,
        )?)),
        Operation::DeleteResourcePolicy => Ok(Request::DeleteResourcePolicy(secrets::of_secret_in(
            alloc, object,
        )?)),
        Operation::DeleteSecret => Ok(Request::DeleteSecret(secrets::delete_secret_in(
            alloc, object,
        )?)),
        Operation::DescribeSecret => Ok(Request::DescribeSecret(secrets::of_secret_in(
            alloc, object,
        )?)),
        Operation::GetRandomPassword => Ok(Request::GetRandomPassword(
            passwords::get_random_password_in(alloc, object)?,
        )),
        Operation::GetResourcePolicy => Ok(Request::GetResourcePolicy(secrets::of_secret_in(
            alloc, object,
        )?)),
        Operation::GetSecretValue => Ok(Request::GetSecretValue(values::get_secret_value_in(
            alloc, object,
        )?)),
        Operation::ListSecretVersionIds => Ok(Request::ListSecretVersionIds(
            secrets::list_secret_version_ids_in(alloc, object)?,
        )),
        Operation::ListSecrets => Ok(Request::ListSecrets(secrets::list_secrets_in(
            alloc, object,
        )?)),
        Operation::PutResourcePolicy => Ok(Request::PutResourcePolicy(
            policies::put_resource_policy_in(alloc, object)?,
        )),
        Operation::PutSecretValue => Ok(Request::PutSecretValue(values::put_secret_value_in(
            alloc, object,
        )?)),
        Operation::RemoveRegionsFromReplication => Ok(Request::RemoveRegionsFromReplication(
            regions::remove_regions_in(alloc, object)?,
        )),
        Operation::ReplicateSecretToRegions => Ok(Request::ReplicateSecretToRegions(
            regions::replicate_secret_in(alloc, object)?,
        )),
        Operation::RestoreSecret => Ok(Request::RestoreSecret(secrets::of_secret_in(
            alloc, object,
        )?)),
        Operation::RotateSecret => Ok(Request::RotateSecret(rotation::rotate_secret_in(
            alloc, object,
        )?)),
        Operation::StopReplicationToReplica => Ok(Request::StopReplicationToReplica(
            secrets::of_secret_in(alloc, object)?,
        )),
        Operation::TagResource => Ok(Request::TagResource(secrets::tag_resource_in(
            alloc, object,
        )?)),
        Operation::UntagResource => Ok(Request::UntagResource(secrets::untag_resource_in(
            alloc, object,
        )?)),
        Operation::UpdateSecret => Ok(Request::UpdateSecret(values::update_secret_in(
            alloc, object,
        )?)),
        Operation::UpdateSecretVersionStage => Ok(Request::UpdateSecretVersionStage(
            values::update_secret_version_stage_in(alloc, object)?,
        )),
        Operation::ValidateResourcePolicy => Ok(Request::ValidateResourcePolicy(
            policies::validate_resource_policy_in(alloc, object)?,
        )),
    }
}

/// The refusal of a member.
fn refused(fault: Fault) -> ReadRequest
    ensures { (flaw : Option Flaw) → (request : Request) → Flawed fault flaw
        → OrMemory (told result) (refused_or flaw request) }
{
    match fault {
        Fault::At(name, Mark::Bad) => ReadRequest::BadMember(Text::fixed(name.spelled())),
        Fault::At(name, Mark::LeftOut) => ReadRequest::Left(Text::fixed(name.spelled())),
        Fault::Memory => ReadRequest::Memory,
    }
}

/// The request of an operation by an object, or the first of its members that is missing, of another type or left out
/// by name, in ascending byte order of their names.
fn asked(alloc: Global, operation: Operation, object: &Value) -> ReadRequest
    ensures { OrMemory (told result) (asked operation (view object.now)) }
{
    match request_in(alloc, operation, object) {
        Ok(request) => ReadRequest::Ok(request),
        Err(fault) => refused(fault),
    }
}

/// The request of an operation by a message's body, or the first refusal of its JSON and its members. An empty body is
/// an object without members.
pub fn request_of(alloc: Global, operation: Operation, body: &[u8]) -> ReadRequest
    ensures { OrMemory (told result) (asks_of operation body.now) }
{
    request_of_with(&mut Scratch::new(alloc), alloc, operation, body)
}

/// `request_of` over memory that is kept from body to body. It grows to the longest of them.
pub fn request_of_with(
    scratch: &mut Scratch,
    alloc: Global,
    operation: Operation,
    body: &[u8],
) -> ReadRequest
    ensures { OrMemory (told result) (asks_of operation body.now) }
{
    match object_of(alloc, scratch, body) {
        Body::Object(object) => asked(alloc, operation, &object),
        Body::NotJson => ReadRequest::NotJson,
        Body::Memory => ReadRequest::Memory,
    }
}

/// The request of a message by its X-Amz-Target and its body, or the first refusal: Unknown where the target names no
/// operation, then those of the body.
pub fn request(alloc: Global, target: &[u8], body: &[u8]) -> ReadRequest
    ensures { OrMemory (told result) (asks target.now body.now) }
{
    request_with(&mut Scratch::new(alloc), alloc, target, body)
}

/// `request` over memory that is kept from message to message. It grows to the longest body.
pub fn request_with(scratch: &mut Scratch, alloc: Global, target: &[u8], body: &[u8]) -> ReadRequest
    ensures { OrMemory (told result) (asks target.now body.now) }
{
    match Operation::of_target(target) {
        Some(operation) => request_of_with(scratch, alloc, operation, body),
        None => ReadRequest::Unknown,
    }
}
