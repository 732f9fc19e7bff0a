//! The condition of a statement (IAM User Guide, "IAM JSON policy elements: Condition").
ghost use Rattle.std.specs.Prelude.{◌≡◌, ℕ, List, Option};
ghost use Rattle.serde_json.specs.Data.{Data};
ghost use Rattle.serde_json.specs.Find.{as_object};
ghost use Rattle.serde_json.specs.View.{view, members_view};
ghost use Rattle.sm_policy_text.specs.Kinds.{all_members, operator_named, tag_key_named, key_named, members_if};
ghost use Rattle.sm_policy_text.specs.Reads.{IsRead};

use crate::kinds::{ListReader, TextReader};
use crate::policy::{Block, Condition, Key, Operator, Test};
use crate::read::{Read, Reader};
use serde_json::{Map, Value};
use sm_base::text::same_text;
use sm_base::{List, Text};
use std::alloc::Global;

/// How a part of a policy that is a member of an object is read, by its name and its value.
trait MemberReader {
    /// What is read.
    type Part: Drop;

    /// The part that a member is.
    ghost reads: { List ℕ → Data → Option Self.Part };

    /// Reads the member.
    fn read(alloc: Global, name: &str, value: &Value) -> Read<Self::Part>
        ensures { IsRead result (reads name.now (view value.now)) };
}

/// The members of an object, if each is such a part.
#[tactic(auto, using(crate::proofs::MemberLemmas::members_more, crate::proofs::MemberLemmas::members_bad, crate::proofs::MemberLemmas::members_all))]
fn all_members<R: MemberReader>(alloc: Global, members: &Map<String, Value>) -> Read<List<R::Part>>
    ensures { IsRead result (all_members R.reads (members_view members.now.entries)) }
{
    let mut parts = List::empty(alloc);
    for (key, value) in members.iter() {
        match R::read(alloc, key.as_str(), value) {
            Read::Is(part) => match parts.push(part) {
                Ok(_) => {}
                Err(_) => return Read::Memory,
            },
            Read::Not => return Read::Not,
            Read::Memory => return Read::Memory,
        }
    }
    Read::Is(parts)
}

/// The key of a tag by its name as a key of conditions.
#[tactic(auto, using(crate::proofs::TextLemmas::tag_key_is, crate::proofs::TextLemmas::no_tag_key))]
fn tag_key_named(alloc: Global, name: &str) -> Read<Key>
    ensures { IsRead result (tag_key_named name.now) }
{
    let Some(key) = name.strip_prefix("secretsmanager:ResourceTag/") else {
        return Read::Not;
    };
    if key.is_empty() {
        return Read::Not;
    }
    match Text::from_str(alloc, key) {
        Ok(key) => Read::Is(Key::ResourceTag(key)),
        Err(_) => Read::Memory,
    }
}

/// The key of conditions with the name.
#[tactic(auto, unfolding(crate::specs::Kinds::key_named))]
fn key_named(alloc: Global, name: &str) -> Read<Key>
    ensures { IsRead result (key_named name.now) }
{
    let bytes = name.as_bytes();
    if same_text(bytes, b"secretsmanager:VersionStage") {
        Read::Is(Key::VersionStage)
    } else if same_text(bytes, b"secretsmanager:VersionId") {
        Read::Is(Key::VersionId)
    } else if same_text(bytes, b"secretsmanager:Name") {
        Read::Is(Key::Name)
    } else if same_text(bytes, b"secretsmanager:SecretId") {
        Read::Is(Key::SecretId)
    } else {
        tag_key_named(alloc, name)
    }
}

#[tactic(auto, unfolding(crate::specs::Kinds::operator_named))]
fn operator_named(name: &[u8]) -> Option<Operator>
    ensures { result ≡ operator_named name.now }
{
    if same_text(name, b"StringEquals") {
        Some(Operator::StringEquals)
    } else if same_text(name, b"StringNotEquals") {
        Some(Operator::StringNotEquals)
    } else if same_text(name, b"StringLike") {
        Some(Operator::StringLike)
    } else {
        None
    }
}

/// Reads a key with its values.
struct TestReader;

impl MemberReader for TestReader {
    type Part = Test;

    ghost use Rattle.sm_policy_text.specs.Kinds.{key_test};

    ghost reads = { key_test };

    #[tactic(auto, unfolding(crate::specs::Kinds::key_test))]
    fn read(alloc: Global, name: &str, value: &Value) -> Read<Test> {
        let key = match key_named(alloc, name) {
            Read::Is(key) => key,
            Read::Not => return Read::Not,
            Read::Memory => return Read::Memory,
        };
        match ListReader::<TextReader>::read(alloc, value) {
            Read::Is(values) => Read::Is(Test { key, values }),
            Read::Not => Read::Not,
            Read::Memory => Read::Memory,
        }
    }
}

/// The parts that an object's members are.
fn members_if<R: MemberReader>(alloc: Global, value: &Value) -> Read<List<R::Part>>
    ensures { IsRead result (members_if R.reads (as_object (view value.now))) }
{
    match value.as_object() {
        Some(members) => all_members::<R>(alloc, members),
        None => Read::Not,
    }
}

/// Reads an operator with its tests.
struct BlockReader;

impl MemberReader for BlockReader {
    type Part = Block;

    ghost use Rattle.sm_policy_text.specs.Kinds.{block};

    ghost reads = { block };

    #[tactic(auto, unfolding(crate::specs::Kinds::block))]
    fn read(alloc: Global, name: &str, value: &Value) -> Read<Block> {
        let Some(operator) = operator_named(name.as_bytes()) else {
            return Read::Not;
        };
        match members_if::<TestReader>(alloc, value) {
            Read::Is(tests) => Read::Is(Block { operator, tests }),
            Read::Not => Read::Not,
            Read::Memory => Read::Memory,
        }
    }
}

/// Reads a condition.
pub(crate) struct ConditionReader;

impl Reader for ConditionReader {
    type Part = Condition;

    ghost use Rattle.sm_policy_text.specs.Kinds.{condition};

    ghost reads = { condition };

    #[tactic(auto, unfolding(crate::specs::Kinds::condition))]
    fn read(alloc: Global, value: &Value) -> Read<Condition> {
        match members_if::<BlockReader>(alloc, value) {
            Read::Is(blocks) => Read::Is(Condition(blocks)),
            Read::Not => Read::Not,
            Read::Memory => Read::Memory,
        }
    }
}
