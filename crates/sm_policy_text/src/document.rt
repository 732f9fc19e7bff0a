//! What text is a policy (IAM User Guide, "Grammar of the IAM JSON policy language").
ghost use Rattle.std.specs.Prelude.{◌≡◌, [], option_map, unwrap_or};
ghost use Rattle.serde_json.specs.Find.{as_object};
ghost use Rattle.serde_json.specs.View.{view, items_view};
ghost use Rattle.sm_base.specs.Outcomes.{OrMemory};
ghost use Rattle.sm_policy_text.specs.Bodies.{IsBody, IsDocument};
ghost use Rattle.sm_policy_text.specs.Documents.{counted, json_of, statement_names, statement_fault, statement_in, item_fault, statements_from, items, document_fault, policy_with, policy_in, policy_of, told};
ghost use Rattle.sm_policy_text.specs.Kinds.{is_text, is_version, condition, condition_with};
ghost use Rattle.sm_policy_text.specs.Members.{may, must, is_read, first, unknown_of, fault_of, given};
ghost use Rattle.sm_policy_text.specs.Reads.{Passes, Reads};

use crate::condition::ConditionReader;
use crate::kinds::{EffectReader, ListReader, PatternReader, PrincipalsReader, is_version};
use crate::member::Member;
use crate::policy::{Condition, Policy, Statement};
use crate::read::{Fault, at, member_of, only, optional, optional_text, required};
use serde_json::Value;
use sm_base::{List, Text};
use std::alloc::Global;
use std::slice;

/// Why a text is no policy.
#[derive(Drop)]
pub enum PolicyRefused {
    /// The number of the statement, counted from 1, or 0 for the document, and the member that is at fault first.
    Malformed(u32, Text),
    Memory,
}

/// The number of a statement by its place. Past the last number it stays there.
pub fn counted(place: usize) -> u32
    ensures { result ≡ counted place }
{
    if place < u32::MAX as usize {
        place as u32 + 1
    } else {
        u32::MAX
    }
}

/// What the bytes are as JSON.
#[derive(Drop)]
pub(crate) enum Body {
    Json(Value),
    NotJson,
    Memory,
}

/// What the bytes are as JSON.
#[tactic(auto, using(crate::proofs::BodyLemmas::is_json, crate::proofs::BodyLemmas::is_no_json))]
fn read_json(alloc: Global, bytes: &[u8]) -> Body
    ensures { IsBody result (json_of bytes.now) }
{
    match Value::from_slice(alloc, bytes) {
        Ok(value) => Body::Json(value),
        Err(error) => {
            if error.is_memory() {
                Body::Memory
            } else {
                Body::NotJson
            }
        }
    }
}

/// That a statement has no members but its own, and that its Sid is a text where it is there.
fn statement_form(alloc: Global, object: &Value) -> Result<(), Fault>
    ensures { Passes result (first (unknown_of statement_names (as_object (view object.now)))
        (fault_of (may Member.Sid is_text) (view object.now))) }
{
    only(
        alloc,
        object,
        &[
            Member::Action,
            Member::Condition,
            Member::Effect,
            Member::Principal,
            Member::Resource,
            Member::Sid,
        ],
    )?;
    optional_text(object, Member::Sid)
}

/// The condition of a statement. Without one it always holds.
fn condition_in(alloc: Global, object: &Value) -> Result<Condition, Fault>
    ensures { Reads result (fault_of (may Member.Condition (is_read condition)) (view object.now))
        (unwrap_or (given condition Member.Condition (view object.now)) (condition_with [])) }
{
    let condition = optional::<ConditionReader>(alloc, object, Member::Condition)?;
    Ok(condition.unwrap_or(Condition(List::empty(alloc))))
}

/// The parts of a statement.
#[tactic(auto, unfolding(crate::specs::Documents::statement_fields))]
fn statement_in(alloc: Global, object: &Value) -> Result<Statement, Fault>
    ensures { Reads result (statement_fault (view object.now)) (statement_in (view object.now)) }
{
    statement_form(alloc, object)?;
    Ok(Statement {
        effect: required::<EffectReader>(alloc, object, Member::Effect)?,
        principals: required::<PrincipalsReader>(alloc, object, Member::Principal)?,
        actions: required::<ListReader<PatternReader>>(alloc, object, Member::Action)?,
        resources: required::<ListReader<PatternReader>>(alloc, object, Member::Resource)?,
        condition: condition_in(alloc, object)?,
    })
}

/// A statement, which has to be an object.
fn statement_of(alloc: Global, item: &Value) -> Result<Statement, Fault>
    ensures { Reads result (item_fault (view item.now)) (statement_in (view item.now)) }
{
    if item.is_object() {
        statement_in(alloc, item)
    } else {
        Err(at(Member::Statement))
    }
}

/// The policy of these statements, or the first that is at fault.
#[tactic(auto, using(crate::proofs::StatementLemmas::statements_more, crate::proofs::StatementLemmas::statements_bad, crate::proofs::StatementLemmas::statements_all))]
fn statements_in(alloc: Global, items: &[Value]) -> Result<Policy, PolicyRefused>
    ensures { OrMemory (told result) (policy_with (statements_from 0 (items_view items.now))) }
{
    let mut statements = List::empty(alloc);
    for (place, item) in items.iter().enumerate() {
        match statement_of(alloc, item) {
            Ok(statement) => match statements.push(statement) {
                Ok(_) => {}
                Err(_) => return Err(PolicyRefused::Memory),
            },
            Err(Fault::At(name)) => return Err(PolicyRefused::Malformed(counted(place), name)),
            Err(Fault::Memory) => return Err(PolicyRefused::Memory),
        }
    }
    Ok(Policy { statements })
}

/// The statements of a document: an object, or a list of at least one.
#[tactic(auto, unfolding(crate::specs::Documents::items), using(crate::proofs::StatementLemmas::no_statements, crate::proofs::StatementLemmas::some_statements))]
fn items(value: &Value) -> Option<&[Value]>
    ensures { option_map (λ s. items_view s.now) result ≡ items (view value.now) }
{
    if value.is_object() {
        return Some(slice::from_ref(value));
    }
    match value.as_array() {
        Some(listed) => {
            if listed.is_empty() {
                None
            } else {
                Some(listed.as_slice())
            }
        }
        None => None,
    }
}

/// That the version is that of the policy language.
#[tactic(auto, unfolding(crate::specs::Members::must, crate::specs::Members::fault_of))]
fn right_version(object: &Value) -> Result<(), Fault>
    ensures { Passes result (fault_of (must Member.Version is_version) (view object.now)) }
{
    match member_of(object, Member::Version) {
        Some(value) => {
            if is_version(value) {
                Ok(())
            } else {
                Err(at(Member::Version))
            }
        }
        None => Err(at(Member::Version)),
    }
}

/// The statements of a document of which no member is at fault.
#[tactic(auto, unfolding(crate::specs::Documents::document_fields, crate::specs::Members::must, crate::specs::Members::given, crate::specs::Members::fault_of))]
fn document_in(alloc: Global, object: &Value) -> Result<&[Value], Fault>
    ensures { IsDocument (λ s. items_view s.now) result (document_fault (view object.now))
        (given items Member.Statement (view object.now)) }
{
    only(
        alloc,
        object,
        &[Member::Id, Member::Statement, Member::Version],
    )?;
    right_version(object)?;
    optional_text(object, Member::Id)?;
    let Some(value) = member_of(object, Member::Statement) else {
        return Err(at(Member::Statement));
    };
    match items(value) {
        Some(items) => Ok(items),
        None => Err(at(Member::Statement)),
    }
}

/// The policy of an object.
fn policy_in(alloc: Global, object: &Value) -> Result<Policy, PolicyRefused>
    ensures { OrMemory (told result) (policy_in (view object.now)) }
{
    match document_in(alloc, object) {
        Ok(items) => statements_in(alloc, items),
        Err(Fault::At(name)) => Err(PolicyRefused::Malformed(0, name)),
        Err(Fault::Memory) => Err(PolicyRefused::Memory),
    }
}

impl Policy {
    /// Reads a policy, or names the first fault: the document's members first, then statement by statement.
    pub fn read(alloc: Global, text: &[u8]) -> Result<Policy, PolicyRefused>
        ensures { OrMemory (told result) (policy_of text.now) }
    {
        match read_json(alloc, text) {
            Body::Json(value) => {
                if value.is_object() {
                    policy_in(alloc, &value)
                } else {
                    Err(PolicyRefused::Malformed(0, Text::fixed("policy")))
                }
            }
            Body::NotJson => Err(PolicyRefused::Malformed(0, Text::fixed("policy"))),
            Body::Memory => Err(PolicyRefused::Memory),
        }
    }
}
