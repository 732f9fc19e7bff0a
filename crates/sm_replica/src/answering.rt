//! Requests that a replica answers.
ghost use Rattle.std.specs.Prelude.{◌≡◌, ◌≤◌, [], None, Some};
ghost use Rattle.sm_base.specs.Outcomes.{OrMemory};
ghost use Rattle.sm_base.specs.SecretId.{secret_id};
ghost use Rattle.sm_base.specs.Texts.{same_text};
ghost use Rattle.sm_base.specs.declared.moment.TheConstants.{LAST_READING};
ghost use Rattle.sm_access.specs.Admission.{admission};
ghost use Rattle.sm_core.specs.Judging.{judgement_for};
ghost use Rattle.sm_forms.specs.Forms.{forms_of};
ghost use Rattle.sm_judge_common.specs.Judged.{judged_told, IfAccepted};
ghost use Rattle.sm_table.specs.Found.{found};
ghost use Rattle.sm_table.specs.Sound.{Sound};
ghost use Rattle.sm_versions.specs.Prune.{pruning};
ghost use Rattle.sm_replica.specs.Answering.{read_by, is_in, is_shown, in_region, unless_denied, reading, answer};

use sm_base::text::same_text;
use sm_core::{Admitted, admit, forms, judge};
use sm_judge_common::Judged;
use sm_judge_common::members::secret_id;
use sm_model::{Moment, NoMemory, Person, Request, SecretId, SecretRow, Text, Why};
use sm_table::Table;
use sm_versions::When;
use std::alloc::Global;

/// Whether both texts have the same bytes.
fn is_same(text: &Text, other: &Text) -> bool
    ensures { result ≡ same_text text.now other.now }
{
    same_text(text.as_bytes(), other.as_bytes())
}

/// Whether the secret is replicated to the region.
fn is_in(region: &Text, row: &SecretRow) -> bool
    ensures { result ≡ is_in region.now row.now }
{
    row.regions
        .as_slice()
        .iter()
        .any(|other| is_same(other, region))
}

/// Whether the secret is there at the moment, and in the region.
pub fn shows(region: &Text, table: &Table, id: &SecretId, moment: Moment) -> bool
    ensures { result ≡ is_shown region.now (found table.now moment id.now) }
{
    match table.find(id, moment) {
        Some(row) => is_in(region, row),
        None => false,
    }
}

/// Judges a request that reads this secret, of a person who may make it.
#[tactic(auto, using(crate::proofs::AnswerLemmas::secret_spelled, crate::proofs::AnswerLemmas::nothing_needed, crate::proofs::AnswerLemmas::nothing_changed))]
fn judge_shown(
    alloc: Global,
    region: &Text,
    table: &Table,
    person: &Person,
    moment: Moment,
    request: &Request,
    text: &Text,
) -> Judged
    requires sound { Sound table.now }
    requires moment { moment.0 ≤ LAST_READING }
    requires forms { forms_of request.now ≡ None }
    requires reads { read_by request.now ≡ Some text.now }
    ensures shown { OrMemory (judged_told result) (in_region region.now
        (found table.now moment (secret_id text.now))
        (judgement_for table.now person.now (pruning moment) [] request.now)) }
    ensures no_change { IfAccepted result (λ change. change ≡ None) }
{
    let id = match secret_id(alloc, text) {
        Ok(id) => id,
        Err(NoMemory) => return Judged::Memory,
    };
    if shows(region, table, &id, moment) {
        judge(alloc, table, person, When::pruning(moment), &[], request)
    } else {
        Judged::Refuse(Why::NoSecret)
    }
}

/// Judges a request that reads this secret and whose members are in their forms.
fn judge_admitted(
    alloc: Global,
    region: &Text,
    table: &Table,
    person: &Person,
    moment: Moment,
    request: &Request,
    text: &Text,
) -> Judged
    requires sound { Sound table.now }
    requires moment { moment.0 ≤ LAST_READING }
    requires forms { forms_of request.now ≡ None }
    requires reads { read_by request.now ≡ Some text.now }
    ensures admitted { OrMemory (judged_told result) (unless_denied
        (admission table.now person.now moment request.now)
        (in_region region.now (found table.now moment (secret_id text.now))
        (judgement_for table.now person.now (pruning moment) [] request.now))) }
    ensures no_change { IfAccepted result (λ change. change ≡ None) }
{
    match admit(alloc, table, person, moment, request) {
        Admitted::Ok => judge_shown(alloc, region, table, person, moment, request, text),
        Admitted::Denied(statement) => Judged::Refuse(Why::Denied(statement)),
        Admitted::Memory => Judged::Memory,
    }
}

/// Judges a request that reads this secret: the forms of its members, whether the person may make it, whether the
/// secret is in the region, and the tests on the rows.
fn judge_reading(
    alloc: Global,
    region: &Text,
    table: &Table,
    person: &Person,
    moment: Moment,
    request: &Request,
    text: &Text,
) -> Judged
    requires sound { Sound table.now }
    requires moment { moment.0 ≤ LAST_READING }
    requires reads { read_by request.now ≡ Some text.now }
    ensures reading { OrMemory (judged_told result)
        (reading region.now table.now person.now moment request.now text.now) }
    ensures no_change { IfAccepted result (λ change. change ≡ None) }
{
    match forms(alloc, request) {
        Some(Why::Memory { .. }) => Judged::Memory,
        Some(why) => Judged::Refuse(why),
        None => judge_admitted(alloc, region, table, person, moment, request, text),
    }
}

/// Answers a request of a person at a moment, by these secrets, for a region.
pub fn answer_request(
    alloc: Global,
    region: &Text,
    table: &Table,
    person: &Person,
    moment: Moment,
    request: &Request,
) -> Judged
    requires sound { Sound table.now }
    requires moment { moment.0 ≤ LAST_READING }
    ensures answer { OrMemory (judged_told result)
        (answer region.now table.now person.now moment request.now) }
    ensures no_change { IfAccepted result (λ change. change ≡ None) }
{
    match request {
        Request::GetSecretValue(get) => judge_reading(
            alloc,
            region,
            table,
            person,
            moment,
            request,
            &get.secret_id,
        ),
        Request::DescribeSecret(describe) => judge_reading(
            alloc,
            region,
            table,
            person,
            moment,
            request,
            &describe.secret_id,
        ),
        _ => Judged::Refuse(Why::ReadOnly),
    }
}
