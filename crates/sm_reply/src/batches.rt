//! The replies with the faults of many secrets, or of a policy.
ghost use Rattle.std.specs.Prelude.{◌≡◌, OnOk};
ghost use Rattle.sm_reply.specs.Tokens.{members_behind};
ghost use Rattle.sm_reply.specs.Shown.{batch_error_members, fault_members, batch_members, validation_members};

use crate::members::{put, put_if};
use crate::out::Out;
use crate::render::Render;
use sm_model::{BatchError, NoMemory, PolicyValidation, SecretBatch, ValidationError};
use std::alloc::Global;

/// The members of the error of one secret.
fn batch_error_members(alloc: Global, out: &mut Out, error: &BatchError) -> Result<(), NoMemory>
    ensures { OnOk result (out.new ≡ members_behind (batch_error_members error.now) out.old) }
{
    put(alloc, out, "ErrorCode", &error.error_code)?;
    put(alloc, out, "Message", &error.message)?;
    put(alloc, out, "SecretId", &error.secret_id)?;
    Ok(())
}

impl Render for BatchError {
    ghost use Rattle.sm_reply.specs.Shown.{batch_error_object};

    ghost shows = { batch_error_object };

    #[tactic(auto, using(crate::proofs::TokenLemmas::object_written))]
    fn render(&self, alloc: Global, out: &mut Out) -> Result<(), NoMemory> {
        out.begin_object()?;
        batch_error_members(alloc, out, self)?;
        out.end_object()?;
        Ok(())
    }
}

/// The members of the reply to BatchGetSecretValue.
pub fn batch_members(alloc: Global, out: &mut Out, reply: &SecretBatch) -> Result<(), NoMemory>
    ensures { OnOk result (out.new ≡ members_behind (batch_members reply.now) out.old) }
{
    put(alloc, out, "Errors", &reply.errors)?;
    put_if(alloc, out, "NextToken", &reply.next_token)?;
    put(alloc, out, "SecretValues", &reply.secret_values)?;
    Ok(())
}

/// The members of a fault of a policy.
fn fault_members(alloc: Global, out: &mut Out, error: &ValidationError) -> Result<(), NoMemory>
    ensures { OnOk result (out.new ≡ members_behind (fault_members error.now) out.old) }
{
    put(alloc, out, "CheckName", &error.check_name)?;
    put(alloc, out, "ErrorMessage", &error.error_message)?;
    Ok(())
}

impl Render for ValidationError {
    ghost use Rattle.sm_reply.specs.Shown.{fault_object};

    ghost shows = { fault_object };

    #[tactic(auto, using(crate::proofs::TokenLemmas::object_written))]
    fn render(&self, alloc: Global, out: &mut Out) -> Result<(), NoMemory> {
        out.begin_object()?;
        fault_members(alloc, out, self)?;
        out.end_object()?;
        Ok(())
    }
}

/// The members of the reply to ValidateResourcePolicy.
pub fn validation_members(
    alloc: Global,
    out: &mut Out,
    reply: &PolicyValidation,
) -> Result<(), NoMemory>
    ensures { OnOk result (out.new ≡ members_behind (validation_members reply.now) out.old) }
{
    put(
        alloc,
        out,
        "PolicyValidationPassed",
        &reply.policy_validation_passed,
    )?;
    put(alloc, out, "ValidationErrors", &reply.validation_errors)?;
    Ok(())
}
