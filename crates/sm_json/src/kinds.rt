//! The types of members: texts, truth values, integers, bytes, lists, tags, filters and rotation rules.
ghost use Rattle.std.specs.Prelude.{◌≡◌, Option};
ghost use Rattle.base64.specs.Engines.{standard};
ghost use Rattle.base64.specs.GeneralPurpose.{decoded_of};
ghost use Rattle.serde_json.specs.View.{view, items_view};
ghost use Rattle.sm_json.specs.Fields.{Flaw, first_fault};
ghost use Rattle.sm_json.specs.Kinds.{or_bad, all_items, tag_members, tag_in, filter_members, filter_in, rules_members, rules_in, or_flaw};
ghost use Rattle.sm_json.specs.Reads.{IsRead, Reads};

use crate::fields::{Fault, Mark, Member, Read, left_out, optional, required};
use crate::name::MemberName;
use base64::DecodeAllocError;
use base64::engine::general_purpose::STANDARD;
use serde_json::Value;
use sm_model::{Bytes, Filter, List, Rules, Tag, Text};
use std::alloc::Global;

impl Member for Text {
    ghost use Rattle.sm_json.specs.Kinds.{text};

    ghost reads = { text };

    #[tactic(auto, unfolding(crate::specs::Kinds::text))]
    fn read(alloc: Global, value: &Value) -> Read<Text> {
        match value.as_str() {
            Some(text) => match Text::brought(alloc, text) {
                Ok(text) => Read::Is(text),
                Err(_) => Read::Memory,
            },
            None => Read::Not(Mark::Bad),
        }
    }
}

impl Member for bool {
    ghost use Rattle.sm_json.specs.Kinds.{truth};

    ghost reads = { truth };

    #[tactic(auto, unfolding(crate::specs::Kinds::truth))]
    fn read(_alloc: Global, value: &Value) -> Read<bool> {
        match value.as_bool() {
            Some(value) => Read::Is(value),
            None => Read::Not(Mark::Bad),
        }
    }
}

impl Member for i64 {
    ghost use Rattle.sm_json.specs.Kinds.{integer};

    ghost reads = { integer };

    #[tactic(auto, unfolding(crate::specs::Kinds::integer))]
    fn read(_alloc: Global, value: &Value) -> Read<i64> {
        match value.as_i64() {
            Some(value) => Read::Is(value),
            None => Read::Not(Mark::Bad),
        }
    }
}

impl Member for Bytes {
    ghost use Rattle.sm_json.specs.Kinds.{binary};

    ghost reads = { binary };

    #[tactic(auto, unfolding(crate::specs::Kinds::binary))]
    fn read(alloc: Global, value: &Value) -> Read<Bytes> {
        match value.as_str() {
            Some(text) => decoded(alloc, text.as_bytes()),
            None => Read::Not(Mark::Bad),
        }
    }
}

/// The bytes that a text in base64 stands for.
#[tactic(auto, unfolding(base64::specs::GeneralPurpose::decoded_of))]
fn decoded(alloc: Global, text: &[u8]) -> Read<Bytes>
    ensures { IsRead result (or_bad (decoded_of standard text.now)) }
{
    match STANDARD.decode(alloc, text) {
        Ok(bytes) => Read::Is(Bytes::new(bytes)),
        Err(error) => match error {
            DecodeAllocError::DecodeError(_) => Read::Not(Mark::Bad),
            DecodeAllocError::OutOfMemory => Read::Memory,
        },
    }
}

impl<T: Member> Member for List<T> {
    ghost use Rattle.sm_json.specs.Kinds.{list_of};

    ghost reads = { list_of T.reads };

    #[tactic(auto, unfolding(crate::specs::Kinds::list_of))]
    fn read(alloc: Global, value: &Value) -> Read<List<T>> {
        match value.as_array() {
            Some(items) => all_items(alloc, items.as_slice()),
            None => Read::Not(Mark::Bad),
        }
    }
}

/// The items of a list, if each is of the type.
#[tactic(auto, using(crate::proofs::ItemLemmas::items_more, crate::proofs::ItemLemmas::items_bad, crate::proofs::ItemLemmas::items_all))]
fn all_items<T: Member>(alloc: Global, items: &[Value]) -> Read<List<T>>
    ensures { IsRead result (all_items T.reads (items_view items.now)) }
{
    let mut parts = List::empty(alloc);
    for item in items {
        match T::read(alloc, item) {
            Read::Is(part) => match parts.push(part) {
                Ok(_) => {}
                Err(_) => return Read::Memory,
            },
            Read::Not(mark) => return Read::Not(mark),
            Read::Memory => return Read::Memory,
        }
    }
    Read::Is(parts)
}

/// The object that was read by its members; what is wrong with one of them is wrong with the object.
pub fn object_read<T: Drop>(read: Result<T, Fault>) -> Read<T>
    ensures { (flaw : Option Flaw) → (value : T) → Reads read flaw value → IsRead result (or_flaw flaw value) }
{
    match read {
        Ok(value) => Read::Is(value),
        Err(fault) => match fault {
            Fault::At(_, mark) => Read::Not(mark),
            Fault::Memory => Read::Memory,
        },
    }
}

/// The members of a tag.
#[tactic(auto, unfolding(crate::specs::Kinds::tag_members, crate::specs::Kinds::tag_in))]
fn tag_in(alloc: Global, object: &Value) -> Result<Tag, Fault>
    ensures { Reads result (first_fault tag_members (view object.now)) (tag_in (view object.now)) }
{
    Ok(Tag {
        key: required(alloc, object, MemberName::Key)?,
        value: optional::<Text>(alloc, object, MemberName::Value)?.unwrap_or(Text::fixed("")),
    })
}

impl Member for Tag {
    ghost use Rattle.sm_json.specs.Kinds.{tag};

    ghost reads = { tag };

    #[tactic(auto, unfolding(crate::specs::Kinds::tag))]
    fn read(alloc: Global, value: &Value) -> Read<Tag> {
        match value.as_object() {
            Some(_) => object_read(tag_in(alloc, value)),
            None => Read::Not(Mark::Bad),
        }
    }
}

/// The members of a filter.
#[tactic(auto, unfolding(crate::specs::Kinds::filter_members, crate::specs::Kinds::filter_in))]
fn filter_in(alloc: Global, object: &Value) -> Result<Filter, Fault>
    ensures { Reads result (first_fault filter_members (view object.now)) (filter_in (view object.now)) }
{
    Ok(Filter {
        key: required(alloc, object, MemberName::Key)?,
        values: required(alloc, object, MemberName::Values)?,
    })
}

impl Member for Filter {
    ghost use Rattle.sm_json.specs.Kinds.{filter};

    ghost reads = { filter };

    #[tactic(auto, unfolding(crate::specs::Kinds::filter))]
    fn read(alloc: Global, value: &Value) -> Read<Filter> {
        match value.as_object() {
            Some(_) => object_read(filter_in(alloc, value)),
            None => Read::Not(Mark::Bad),
        }
    }
}

/// The members of rotation rules.
#[tactic(auto, unfolding(crate::specs::Kinds::rules_members, crate::specs::Kinds::rules_in))]
fn rules_in(alloc: Global, object: &Value) -> Result<Rules, Fault>
    ensures { Reads result (first_fault rules_members (view object.now)) (rules_in (view object.now)) }
{
    let days = optional(alloc, object, MemberName::AutomaticallyAfterDays)?;
    left_out(object, MemberName::Duration)?;
    let schedule = optional(alloc, object, MemberName::ScheduleExpression)?;
    Ok(Rules { days, schedule })
}

impl Member for Rules {
    ghost use Rattle.sm_json.specs.Kinds.{rules};

    ghost reads = { rules };

    #[tactic(auto, unfolding(crate::specs::Kinds::rules))]
    fn read(alloc: Global, value: &Value) -> Read<Rules> {
        match value.as_object() {
            Some(_) => object_read(rules_in(alloc, value)),
            None => Read::Not(Mark::Bad),
        }
    }
}
