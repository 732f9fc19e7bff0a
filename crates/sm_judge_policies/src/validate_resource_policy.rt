//! Judging ValidateResourcePolicy (AWS Secrets Manager API Reference, ValidateResourcePolicy).
ghost use Rattle.std.specs.Prelude.{◌≡◌, codes, IfOk, IsTrue, Some, None};
ghost use Rattle.sm_base.specs.Spelling.{is_secret_id};
ghost use Rattle.sm_forms.specs.ValidateResourcePolicy.{validate_forms};
ghost use Rattle.sm_judge_policies.specs.ValidateResourcePolicy.{check_fault, public_fault, fault_of, validation_of, validated, validate_for, validate_judgement};

use sm_judge_common::Judged;
use sm_judge_common::members::secret_id;
use sm_model::{
    List, Moment, NoMemory, PolicyValidation, Reply, Text, ValidateResourcePolicy, ValidationError,
    Why,
};
use sm_policy::is_public;
use sm_policy_text::{Policy, PolicyRefused};
use sm_table::Table;
use std::alloc::Global;

/// Judges a ValidateResourcePolicy.
#[tactic(auto, using(sm_forms::proofs::ValidateResourcePolicyLemmas::validate_id))]
pub fn judge_validate(
    alloc: Global,
    table: &Table,
    moment: Moment,
    validate: &ValidateResourcePolicy,
) -> Result<Judged, NoMemory>
    requires { validate_forms validate.now ≡ None }
    ensures { IfOk result (λ judged. judged ≡ validate_judgement table.now moment validate.now) }
{
    match &validate.secret_id {
        Some(id) => validate_for(alloc, table, moment, id, &validate.resource_policy),
        None => validated(alloc, &validate.resource_policy),
    }
}

/// Says what is wrong with a policy for a secret, which has to be there.
fn validate_for(
    alloc: Global,
    table: &Table,
    moment: Moment,
    id: &Text,
    text: &Text,
) -> Result<Judged, NoMemory>
    requires { IsTrue (is_secret_id id.now) }
    ensures { IfOk result
        (λ judged. judged ≡ validate_for table.now moment (Some id.now) text.now) }
{
    let id = secret_id(alloc, id)?;
    match table.find(&id, moment) {
        Some(_) => validated(alloc, text),
        None => Ok(Judged::Refuse(Why::NoSecret)),
    }
}

/// Says what is wrong with a policy.
fn validated(alloc: Global, text: &Text) -> Result<Judged, NoMemory>
    ensures { IfOk result (λ judged. judged ≡ validated text.now) }
{
    let fault = fault_of(alloc, text)?;
    let reply = validation_of(alloc, fault)?;
    Judged::reads(alloc, Reply::ValidateResourcePolicy(reply))
}

/// The reply that lists a fault, or none.
fn validation_of(
    alloc: Global,
    fault: Option<ValidationError>,
) -> Result<PolicyValidation, NoMemory>
    ensures { IfOk result (λ reply. reply ≡ validation_of fault) }
{
    let mut validation_errors = List::empty(alloc);
    match fault {
        Some(fault) => {
            validation_errors.push(fault)?;
            Ok(PolicyValidation {
                policy_validation_passed: false,
                validation_errors,
            })
        }
        None => Ok(PolicyValidation {
            policy_validation_passed: true,
            validation_errors,
        }),
    }
}

/// What is wrong with a text as a policy: its first fault, or else its first public statement.
fn fault_of(alloc: Global, text: &Text) -> Result<Option<ValidationError>, NoMemory>
    ensures { IfOk result (λ fault. fault ≡ fault_of text.now) }
{
    match Policy::read(alloc, text.as_bytes()) {
        Ok(policy) => public_fault(alloc, is_public(&policy)),
        Err(PolicyRefused::Malformed(number, member)) => syntax_fault(alloc, number, member),
        Err(PolicyRefused::Memory) => Err(NoMemory),
    }
}

/// The fault of a text that is no policy, by the number of its statement and the member.
fn syntax_fault(
    alloc: Global,
    number: u32,
    member: Text,
) -> Result<Option<ValidationError>, NoMemory>
    ensures { IfOk result
        (λ fault. fault ≡ Some (check_fault (codes "Syntax") (Why.Malformed number member))) }
{
    Ok(Some(check_fault(alloc, "Syntax", &Why::Malformed(number, member))?))
}

/// The fault of a policy with this public statement, or none.
fn public_fault(alloc: Global, statement: Option<u32>) -> Result<Option<ValidationError>, NoMemory>
    ensures { IfOk result (λ fault. fault ≡ public_fault statement) }
{
    match statement {
        Some(statement) => Ok(Some(check_fault(alloc, "PublicAccess", &Why::Public(statement))?)),
        None => Ok(None),
    }
}

/// What a check found, with the message that a refusal for it would have.
fn check_fault(alloc: Global, check: &'static str, why: &Why) -> Result<ValidationError, NoMemory>
    ensures { IfOk result (λ fault. fault ≡ check_fault check.now why.now) }
{
    Ok(ValidationError {
        check_name: Text::fixed(check),
        error_message: why.message(alloc)?,
    })
}
