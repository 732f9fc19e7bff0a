//! Acts: a tag byte, and what the act has.
ghost use Rattle.std.specs.Prelude.{◌≡◌, ◌++◌, ◌∷◌, ◌<◌, IsTrue};
ghost use Rattle.sm_record.specs.Codec.{flag_of, tag_of, flagged_tag, with_flag};
ghost use Rattle.sm_record.specs.Editions.{is_second};
ghost use Rattle.sm_record.specs.Entries.{done, act_arms, asked_arms, before_of, spell_request, spell_act, fits_request, fits_act, may_begin, may_report, report};
ghost use Rattle.sm_record.specs.Reading.{Gives};

use crate::edition::Edition;
use crate::field::{Field, made_at, made_of};
use crate::head::{Before, before_act};
use crate::out::Out;
use crate::single::byte_at;
use crate::unread::Unread;
use sm_model::{Act, Answer, Arn, At, Entry, Request};
use std::alloc::Global;

/// What stands behind the head of an entry: whether it prunes, and its act.
#[tactic(auto, unfolding(crate::specs::Entries::done, crate::specs::Entries::act))]
pub fn done_at(
    alloc: Global,
    edition: Edition,
    before: Before,
    bytes: &[u8],
) -> Result<((bool, Act), &[u8]), Unread>
    ensures { Gives (λ x. (x.0, x.1.now)) result ((done edition before).read bytes.now) }
{
    let (byte, rest) = byte_at(bytes)?;
    let (act, behind) = act_at(alloc, edition, before, tag_of(byte), rest)?;
    Ok(((flag_of(byte), act), behind))
}

/// Whether a tag byte is that of an entry that prunes.
fn flag_of(byte: u8) -> bool
    ensures { result ≡ flag_of byte }
{
    128 <= byte
}

/// The tag of a tag byte.
fn tag_of(byte: u8) -> u8
    ensures { result ≡ tag_of byte }
{
    if 128 <= byte { byte - 128 } else { byte }
}

/// The tag byte of a tag, and of an entry that prunes or does not.
fn flagged_tag(prunes: bool, tag: u8) -> u8
    requires { tag < 128 }
    ensures { result ≡ flagged_tag prunes tag }
{
    if prunes { tag + 128 } else { tag }
}

/// The act of a tag.
#[tactic(auto, unfolding(crate::specs::Entries::act_arms))]
fn act_at(
    alloc: Global,
    edition: Edition,
    before: Before,
    tag: u8,
    bytes: &[u8],
) -> Result<(Act, &[u8]), Unread>
    ensures { Gives (λ x. (x.0, x.1.now)) result (act_arms edition before tag bytes.now) }
{
    match tag {
        13 => begun_at(alloc, edition, before, bytes),
        14 => reported_at(alloc, edition, before, bytes),
        _ => made_of(request_at(alloc, edition, tag, bytes), Act::Asked),
    }
}

/// The start of a rotation.
#[tactic(auto, unfolding(crate::specs::Entries::act_arms))]
fn begun_at(
    alloc: Global,
    edition: Edition,
    before: Before,
    bytes: &[u8],
) -> Result<(Act, &[u8]), Unread>
    ensures { Gives (λ x. (x.0, x.1.now)) result (act_arms edition before 13 bytes.now) }
{
    if may_begin(before) {
        made_at(alloc, edition, bytes, Act::Begun)
    } else {
        Err(Unread::Left(bytes.len() + 1))
    }
}

/// The report of a rotation.
#[tactic(auto, unfolding(crate::specs::Entries::act_arms, crate::specs::Entries::report))]
fn reported_at(
    alloc: Global,
    edition: Edition,
    before: Before,
    bytes: &[u8],
) -> Result<(Act, &[u8]), Unread>
    ensures { Gives (λ x. (x.0, x.1.now)) result (act_arms edition before 14 bytes.now) }
{
    if may_report(before) {
        made_at(alloc, edition, bytes, reported)
    } else {
        Err(Unread::Left(bytes.len() + 1))
    }
}

/// Whether the start of a rotation may follow.
fn may_begin(before: Before) -> bool
    ensures { result ≡ may_begin before }
{
    before.unasked && before.drawn == 16
}

/// Whether a report may follow.
fn may_report(before: Before) -> bool
    ensures { result ≡ may_report before }
{
    before.unasked && before.drawn == 0
}

/// The request of a tag.
#[tactic(auto, unfolding(crate::specs::Entries::asked_arms))]
fn request_at(
    alloc: Global,
    edition: Edition,
    tag: u8,
    bytes: &[u8],
) -> Result<(Request, &[u8]), Unread>
    ensures { Gives (λ x. (Act.Asked x.0, x.1.now)) result (asked_arms edition tag bytes.now) }
{
    match tag {
        1 => made_at(alloc, edition, bytes, Request::CreateSecret),
        2 => made_at(alloc, edition, bytes, Request::PutSecretValue),
        3 => made_at(alloc, edition, bytes, Request::UpdateSecret),
        4 => made_at(alloc, edition, bytes, Request::DeleteSecret),
        5 => made_at(alloc, edition, bytes, Request::RestoreSecret),
        6 => made_at(alloc, edition, bytes, Request::UpdateSecretVersionStage),
        7 => made_at(alloc, edition, bytes, Request::TagResource),
        8 => made_at(alloc, edition, bytes, Request::UntagResource),
        9 => made_at(alloc, edition, bytes, Request::PutResourcePolicy),
        10 => made_at(alloc, edition, bytes, Request::DeleteResourcePolicy),
        11 => made_at(alloc, edition, bytes, Request::RotateSecret),
        12 => made_at(alloc, edition, bytes, Request::CancelRotateSecret),
        15 => replicated_at(alloc, edition, bytes),
        16 => removed_at(alloc, edition, bytes),
        _ => Err(Unread::Left(bytes.len() + 1)),
    }
}

/// The request to replicate a secret, in the second format.
#[tactic(auto, unfolding(crate::specs::Entries::asked_arms))]
fn replicated_at(alloc: Global, edition: Edition, bytes: &[u8]) -> Result<(Request, &[u8]), Unread>
    ensures { Gives (λ x. (Act.Asked x.0, x.1.now)) result (asked_arms edition 15 bytes.now) }
{
    match edition {
        Edition::First => Err(Unread::Left(bytes.len() + 1)),
        Edition::Second => made_at(alloc, edition, bytes, Request::ReplicateSecretToRegions),
    }
}

/// The request to remove regions from a secret's replication, in the second format.
#[tactic(auto, unfolding(crate::specs::Entries::asked_arms))]
fn removed_at(alloc: Global, edition: Edition, bytes: &[u8]) -> Result<(Request, &[u8]), Unread>
    ensures { Gives (λ x. (Act.Asked x.0, x.1.now)) result (asked_arms edition 16 bytes.now) }
{
    match edition {
        Edition::First => Err(Unread::Left(bytes.len() + 1)),
        Edition::Second => made_at(alloc, edition, bytes, Request::RemoveRegionsFromReplication),
    }
}

/// The report that has these parts.
fn reported(parts: Reported) -> Act
    ensures { result ≡ Act.Reported parts.0 parts.1.0 parts.1.1 }
{
    let (arn, (at, answer)) = parts;
    Act::Reported(arn, at, answer)
}

/// What was reported of a rotation, one thing behind another.
type Reported = (Arn, (At, Answer));

/// Whether a format is the second.
fn is_second(edition: Edition) -> bool
    ensures { result ≡ is_second edition }
{
    match edition {
        Edition::First => false,
        Edition::Second => true,
    }
}

/// Whether the act of a request has a spelling.
fn request_fits(edition: Edition, request: &Request) -> bool
    ensures { result ≡ fits_request edition request.now }
{
    match request {
        Request::CreateSecret(request) => request.fits(edition),
        Request::PutSecretValue(request) => request.fits(edition),
        Request::UpdateSecret(request) => request.fits(edition),
        Request::DeleteSecret(request) => request.fits(edition),
        Request::RestoreSecret(request) => request.fits(edition),
        Request::UpdateSecretVersionStage(request) => request.fits(edition),
        Request::TagResource(request) => request.fits(edition),
        Request::UntagResource(request) => request.fits(edition),
        Request::PutResourcePolicy(request) => request.fits(edition),
        Request::DeleteResourcePolicy(request) => request.fits(edition),
        Request::RotateSecret(request) => request.fits(edition),
        Request::CancelRotateSecret(request) => request.fits(edition),
        Request::ReplicateSecretToRegions(request) => is_second(edition) && request.fits(edition),
        Request::RemoveRegionsFromReplication(request) => is_second(edition)
            && request.fits(edition),
        Request::BatchGetSecretValue(_)
        | Request::DescribeSecret(_)
        | Request::GetRandomPassword(_)
        | Request::GetResourcePolicy(_)
        | Request::GetSecretValue(_)
        | Request::ListSecretVersionIds(_)
        | Request::ListSecrets(_)
        | Request::StopReplicationToReplica(_)
        | Request::ValidateResourcePolicy(_) => false,
    }
}

/// Writes the act of a request that changes something.
#[tactic(auto, using(std::proofs::lemmas::List::append_assoc))]
fn put_request(edition: Edition, out: &mut Out, prunes: bool, request: &Request)
    requires { IsTrue (fits_request edition request.now) }
    ensures { out.new ≡ out.old ++ with_flag prunes (spell_request edition request.now) }
{
    match request {
        Request::CreateSecret(request) => put_arm(edition, out, prunes, 1, request),
        Request::PutSecretValue(request) => put_arm(edition, out, prunes, 2, request),
        Request::UpdateSecret(request) => put_arm(edition, out, prunes, 3, request),
        Request::DeleteSecret(request) => put_arm(edition, out, prunes, 4, request),
        Request::RestoreSecret(request) => put_arm(edition, out, prunes, 5, request),
        Request::UpdateSecretVersionStage(request) => put_arm(edition, out, prunes, 6, request),
        Request::TagResource(request) => put_arm(edition, out, prunes, 7, request),
        Request::UntagResource(request) => put_arm(edition, out, prunes, 8, request),
        Request::PutResourcePolicy(request) => put_arm(edition, out, prunes, 9, request),
        Request::DeleteResourcePolicy(request) => put_arm(edition, out, prunes, 10, request),
        Request::RotateSecret(request) => put_arm(edition, out, prunes, 11, request),
        Request::CancelRotateSecret(request) => put_arm(edition, out, prunes, 12, request),
        Request::ReplicateSecretToRegions(request) => put_arm(edition, out, prunes, 15, request),
        Request::RemoveRegionsFromReplication(request) => put_arm(
            edition, out, prunes, 16, request,
        ),
        Request::BatchGetSecretValue(_)
        | Request::DescribeSecret(_)
        | Request::GetRandomPassword(_)
        | Request::GetResourcePolicy(_)
        | Request::GetSecretValue(_)
        | Request::ListSecretVersionIds(_)
        | Request::ListSecrets(_)
        | Request::StopReplicationToReplica(_)
        | Request::ValidateResourcePolicy(_) => unreachable!(),
    }
}

/// Writes a tag and what stands behind it.
#[tactic(auto, using(std::proofs::lemmas::List::append_assoc))]
fn put_arm<A: Field>(edition: Edition, out: &mut Out, prunes: bool, tag: u8, thing: &A)
    requires tag { tag < 128 }
    requires fits { IsTrue ((A.codec edition).fits thing.now) }
    ensures { out.new ≡ out.old ++ (flagged_tag prunes tag ∷ (A.codec edition).spell thing.now) }
{
    out.push(flagged_tag(prunes, tag));
    thing.put(edition, out);
}

/// Whether the act of an entry has a spelling behind its head.
#[tactic(auto, unfolding(crate::specs::Entries::report))]
pub fn act_fits(edition: Edition, entry: &Entry) -> bool
    ensures { result
        ≡ fits_act edition (before_of entry.now.caller entry.now.by entry.now.drawn) entry.now.act }
{
    let before = before_act(&entry.caller, &entry.by, &entry.drawn);
    match &entry.act {
        Act::Asked(request) => request_fits(edition, request),
        Act::Begun(arn) => may_begin(before) && arn.fits(edition),
        Act::Reported(arn, at, answer) => {
            may_report(before) && (arn.fits(edition) && (at.fits(edition) && answer.fits(edition)))
        }
    }
}

/// Writes the act of an entry, and whether the entry prunes.
#[tactic(auto, using(std::proofs::lemmas::Bool::and_parts))]
pub fn put_act(edition: Edition, out: &mut Out, entry: &Entry)
    requires { IsTrue (fits_act edition (before_of entry.now.caller entry.now.by entry.now.drawn) entry.now.act) }
    ensures { out.new ≡ out.old ++ with_flag entry.now.prunes (spell_act edition entry.now.act) }
{
    match &entry.act {
        Act::Asked(request) => put_request(edition, out, entry.prunes, request),
        Act::Begun(arn) => put_arm(edition, out, entry.prunes, 13, arn),
        Act::Reported(arn, at, answer) => {
            out.push(flagged_tag(entry.prunes, 14));
            put_report(edition, out, arn, at, answer);
        }
    }
}

/// Writes what was reported of a rotation.
#[tactic(auto, using(std::proofs::lemmas::List::append_assoc, std::proofs::lemmas::Bool::and_parts), unfolding(crate::specs::Entries::report))]
fn put_report(edition: Edition, out: &mut Out, arn: &Arn, at: &At, answer: &Answer)
    requires { IsTrue (report.fits (arn.now, (at.now, answer.now))) }
    ensures { out.new ≡ out.old ++ report.spell (arn.now, (at.now, answer.now)) }
{
    arn.put(edition, out);
    at.put(edition, out);
    answer.put(edition, out);
}
