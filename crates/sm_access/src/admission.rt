//! Whether a person may make a request (AWS Secrets Manager User Guide, "Resource-based policies"; IAM User Guide,
//! "Policy evaluation logic").
ghost use Rattle.std.specs.Prelude.{◌≡◌, IfOk, Some, option_copied};
ghost use Rattle.sm_base.specs.Outcomes.{OrMemory};
ghost use Rattle.sm_policy.specs.Decisions.{plain_question};
ghost use Rattle.sm_policy_text.specs.Documents.{policy_of};
ghost use Rattle.sm_access.specs.Admission.{admitted_told, by_person, by_decision, by_reading, by_policy, question_of, on_row, secret_named, admission_of_access_request, admission};
ghost use Rattle.sm_access.specs.AccessRequests.{plain_access_request, get_access_request};

use crate::access_requests::{AccessRequest, access_request_of, asks_nothing, get_access_request};
use sm_model::{
    GetSecretValue, Moment, NoMemory, Person, ReadRefused, Request, SecretId, SecretRow, Text,
};
use sm_policy::{Decision, Question, decide};
use sm_policy_text::KeptPolicy;
use sm_table::Table;
use std::alloc::Global;

/// Whether a person may make a request.
#[derive(Drop)]
pub enum Admitted {
    Ok,
    /// This statement of the secret's policy denies it, counted from 1, or none allows it.
    Denied(Option<u32>),
    Memory,
}

/// Whether the person may make the request at the moment, by the policy of the secret that it names.
pub fn admit(
    alloc: Global,
    table: &Table,
    person: &Person,
    moment: Moment,
    request: &Request,
) -> Admitted
    ensures { OrMemory (admitted_told result) (admission table.now person.now moment request.now) }
{
    if asks_nothing(request) {
        return Admitted::Ok;
    }
    match access_request_of(request) {
        Some(access_request) => admit_access_request(alloc, table, person, moment, &access_request),
        None => by_person(person),
    }
}

/// The same of a GetSecretValue.
pub fn admit_get(
    alloc: Global,
    table: &Table,
    person: &Person,
    moment: Moment,
    get: &GetSecretValue,
) -> Admitted
    ensures { OrMemory (admitted_told result)
        (admission table.now person.now moment (Request.GetSecretValue get.now)) }
{
    admit_access_request(alloc, table, person, moment, &get_access_request(get))
}

/// Whether the person may do what is asked of the secret that is named. One that is not there has no statements.
fn admit_access_request(
    alloc: Global,
    table: &Table,
    person: &Person,
    moment: Moment,
    access_request: &AccessRequest<'_>,
) -> Admitted
    ensures { OrMemory (admitted_told result)
        (admission_of_access_request table.now person.now moment (plain_access_request access_request.now)) }
{
    match secret_named(alloc, table, moment, access_request.secret_id) {
        Ok(Some(row)) => on_row(person, row, access_request),
        Ok(None) => by_person(person),
        Err(NoMemory) => Admitted::Memory,
    }
}

/// The row of the secret that a text names. One that is no SecretId names none.
fn secret_named<'a>(
    alloc: Global,
    table: &'a Table,
    moment: Moment,
    text: &Text,
) -> Result<Option<&'a SecretRow>, NoMemory>
    ensures { IfOk result (λ row. option_copied row ≡ secret_named table.now moment text.now) }
{
    match SecretId::read(alloc, text.as_bytes()) {
        Ok(id) => Ok(table.find(&id, moment)),
        Err(ReadRefused::Spelling(_)) => Ok(None),
        Err(ReadRefused::Memory) => Err(NoMemory),
    }
}

/// Whether the person may do what is asked of the secret of this row.
fn on_row<'a>(
    person: &'a Person,
    row: &'a SecretRow,
    access_request: &'a AccessRequest<'a>,
) -> Admitted
    ensures { admitted_told result
        ≡ Some (by_policy row.now.policy (question_of person.now row.now (plain_access_request access_request.now))) }
{
    let question = Question {
        person,
        action: access_request.action.as_bytes(),
        row,
        secret_id: access_request.secret_id.as_bytes(),
        version_id: access_request.version_id,
        version_stage: access_request.version_stage,
    };
    by_policy(&row.policy, &question)
}

/// What a policy says. A secret without one has no statements.
fn by_policy(policy: &Option<KeptPolicy>, question: &Question<'_>) -> Admitted
    ensures { admitted_told result ≡ Some (by_policy policy.now (plain_question question.now)) }
{
    match policy {
        Some(kept) => by_kept(kept, question),
        None => by_person(question.person),
    }
}

/// What a kept policy says. A text that is no policy, which no secret keeps, would allow nobody anything. It was read
/// before: this takes no memory.
fn by_kept(kept: &KeptPolicy, question: &Question<'_>) -> Admitted
    ensures { admitted_told result ≡ Some (by_reading (policy_of kept.now) (plain_question question.now)) }
{
    match kept.policy() {
        Some(policy) => by_decision(decide(policy, question), question.person),
        None => Admitted::Denied(None),
    }
}

/// What a decision comes to for a person.
fn by_decision(decision: Decision, person: &Person) -> Admitted
    ensures { admitted_told result ≡ Some (by_decision decision person.now) }
{
    match decision {
        Decision::Allow(_) => Admitted::Ok,
        Decision::Deny(statement) => Admitted::Denied(Some(statement)),
        Decision::Silent => by_person(person),
    }
}

/// Where no statement says anything a person who is full may do all, and a guest nothing.
fn by_person(person: &Person) -> Admitted
    ensures { admitted_told result ≡ Some (by_person person.now) }
{
    if person.full {
        Admitted::Ok
    } else {
        Admitted::Denied(None)
    }
}
