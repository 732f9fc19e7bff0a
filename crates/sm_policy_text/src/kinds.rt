//! The parts of a policy: texts, patterns, principals and effects.
ghost use Rattle.std.specs.Prelude.{◌≡◌, Some, option_map};
ghost use Rattle.std.specs.Char.{is_ascii_digit};
ghost use Rattle.std.specs.List.{list_all};
ghost use Rattle.serde_json.specs.Find.{as_object};
ghost use Rattle.serde_json.specs.View.{view, items_view};
ghost use Rattle.sm_base.specs.Spelling.{is_run};
ghost use Rattle.sm_policy_text.specs.Kinds.{is_version_text, is_version, effect_named, is_principal, alone, all_items, some_items, everybody, aws_of};
ghost use Rattle.sm_policy_text.specs.Reads.{IsRead};

use crate::policy::{Effect, Pattern, Principal, Principals};
use crate::read::{Read, Reader};
use serde_json::Value;
use sm_base::person_arn::is_person_arn;
use sm_base::text::same_text;
use sm_base::{List, Text};
use std::alloc::Global;
use std::marker::PhantomData;

#[tactic(auto, unfolding(crate::specs::Kinds::is_version_text))]
fn is_version_text(text: &[u8]) -> bool
    ensures { result ≡ is_version_text text.now }
{
    same_text(text, b"2012-10-17")
}

/// Whether the value is the version of the policy language.
#[tactic(auto, unfolding(crate::specs::Kinds::is_version))]
pub(crate) fn is_version(value: &Value) -> bool
    ensures { result ≡ is_version (view value.now) }
{
    match value.as_str() {
        Some(text) => is_version_text(text.as_bytes()),
        None => false,
    }
}

#[tactic(auto, unfolding(crate::specs::Kinds::effect_named))]
fn effect_named(text: &[u8]) -> Option<Effect>
    ensures { result ≡ effect_named text.now }
{
    if same_text(text, b"Allow") {
        Some(Effect::Allow)
    } else if same_text(text, b"Deny") {
        Some(Effect::Deny)
    } else {
        None
    }
}

/// Reads an effect.
pub(crate) struct EffectReader;

impl Reader for EffectReader {
    type Part = Effect;

    ghost use Rattle.sm_policy_text.specs.Kinds.{effect};

    ghost reads = { effect };

    #[tactic(auto, unfolding(crate::specs::Kinds::effect))]
    fn read(_alloc: Global, value: &Value) -> Read<Effect> {
        match value.as_str() {
            Some(text) => match effect_named(text.as_bytes()) {
                Some(effect) => Read::Is(effect),
                None => Read::Not,
            },
            None => Read::Not,
        }
    }
}

fn are_digits(text: &[u8]) -> bool
    ensures { result ≡ list_all is_ascii_digit text.now }
{
    text.iter().all(|byte| byte.is_ascii_digit())
}

fn is_account(text: &[u8]) -> bool
    ensures { result ≡ is_run is_ascii_digit 12 12 text.now }
{
    12 <= text.len() && text.len() <= 12 && are_digits(text)
}

#[tactic(auto, unfolding(crate::specs::Kinds::is_principal))]
fn is_principal(text: &[u8]) -> bool
    ensures { result ≡ is_principal text.now }
{
    same_text(text, b"*") || is_account(text) || is_person_arn(text)
}

/// The text, which passed.
fn kept(alloc: Global, text: &str) -> Read<Text>
    ensures { IsRead result (Some text.now) }
{
    match Text::from_str(alloc, text) {
        Ok(text) => Read::Is(text),
        Err(_) => Read::Memory,
    }
}

/// Reads a text.
pub(crate) struct TextReader;

impl Reader for TextReader {
    type Part = Text;

    ghost use Rattle.sm_policy_text.specs.Kinds.{text};

    ghost reads = { text };

    #[tactic(auto, unfolding(crate::specs::Kinds::text))]
    fn read(alloc: Global, value: &Value) -> Read<Text> {
        match value.as_str() {
            Some(text) => kept(alloc, text),
            None => Read::Not,
        }
    }
}

/// Reads a principal.
pub(crate) struct PrincipalReader;

impl Reader for PrincipalReader {
    type Part = Principal;

    ghost use Rattle.sm_policy_text.specs.Kinds.{principal};

    ghost reads = { principal };

    #[tactic(auto, unfolding(crate::specs::Kinds::principal))]
    fn read(alloc: Global, value: &Value) -> Read<Principal> {
        let Some(text) = value.as_str() else {
            return Read::Not;
        };
        if !is_principal(text.as_bytes()) {
            return Read::Not;
        }
        match kept(alloc, text) {
            Read::Is(text) => Read::Is(Principal(text)),
            Read::Not => Read::Not,
            Read::Memory => Read::Memory,
        }
    }
}

/// Reads a pattern.
pub(crate) struct PatternReader;

impl Reader for PatternReader {
    type Part = Pattern;

    ghost use Rattle.sm_policy_text.specs.Kinds.{pattern};

    ghost reads = { pattern };

    #[tactic(auto, unfolding(crate::specs::Kinds::pattern))]
    fn read(alloc: Global, value: &Value) -> Read<Pattern> {
        let Some(text) = value.as_str() else {
            return Read::Not;
        };
        if text.len() < 1 {
            return Read::Not;
        }
        match kept(alloc, text) {
            Read::Is(text) => Read::Is(Pattern(text)),
            Read::Not => Read::Not,
            Read::Memory => Read::Memory,
        }
    }
}

/// A list of one thing.
pub(crate) fn alone<T: Drop>(alloc: Global, part: T) -> Read<List<T>>
    ensures { IsRead result (Some (alone part)) }
{
    let mut parts = List::empty(alloc);
    match parts.push(part) {
        Ok(_) => Read::Is(parts),
        Err(_) => Read::Memory,
    }
}

/// The items of a list, if each is such a part.
#[tactic(auto, using(crate::proofs::ItemLemmas::items_more, crate::proofs::ItemLemmas::items_bad, crate::proofs::ItemLemmas::items_all))]
fn all_items<R: Reader>(alloc: Global, items: &[Value]) -> Read<List<R::Part>>
    ensures { IsRead result (all_items R.reads (items_view items.now)) }
{
    let mut parts = List::empty(alloc);
    for item in items {
        match R::read(alloc, item) {
            Read::Is(part) => match parts.push(part) {
                Ok(_) => {}
                Err(_) => return Read::Memory,
            },
            Read::Not => return Read::Not,
            Read::Memory => return Read::Memory,
        }
    }
    Read::Is(parts)
}

/// The items of a list of at least one.
#[tactic(auto, using(crate::proofs::ItemLemmas::no_item, crate::proofs::ItemLemmas::item_there))]
fn some_items<R: Reader>(alloc: Global, items: &[Value]) -> Read<List<R::Part>>
    ensures { IsRead result (some_items R.reads (items_view items.now)) }
{
    if items.is_empty() {
        Read::Not
    } else {
        all_items::<R>(alloc, items)
    }
}

/// Reads one part, or a list of at least one.
pub(crate) struct ListReader<R> {
    of: PhantomData<R>,
}

impl<R: Reader> Reader for ListReader<R> {
    type Part = List<R::Part>;

    ghost use Rattle.sm_policy_text.specs.Kinds.{one_or_more};

    ghost reads = { one_or_more R.reads };

    #[tactic(auto, unfolding(crate::specs::Kinds::one_or_more))]
    fn read(alloc: Global, value: &Value) -> Read<List<R::Part>> {
        match value.as_array() {
            Some(items) => some_items::<R>(alloc, items.as_slice()),
            None => match R::read(alloc, value) {
                Read::Is(part) => alone(alloc, part),
                Read::Not => Read::Not,
                Read::Memory => Read::Memory,
            },
        }
    }
}

/// The principal that is everybody.
fn everybody(alloc: Global) -> Read<Principals>
    ensures { IsRead result (Some everybody) }
{
    match alone(alloc, Principal(Text::fixed("*"))) {
        Read::Is(list) => Read::Is(Principals(list)),
        Read::Not => Read::Not,
        Read::Memory => Read::Memory,
    }
}

/// The value of the member AWS, where it is the only one.
#[tactic(auto, using(crate::proofs::MemberLemmas::single_is, crate::proofs::MemberLemmas::not_single_is))]
fn aws_of(value: &Value) -> Option<&Value>
    ensures { option_map (λ v. view v.now) result ≡ aws_of (view value.now) (as_object (view value.now)) }
{
    let Some(members) = value.as_object() else {
        return None;
    };
    if members.len() == 1 {
        value.get("AWS")
    } else {
        None
    }
}

/// Reads whom a statement is about.
pub(crate) struct PrincipalsReader;

impl Reader for PrincipalsReader {
    type Part = Principals;

    ghost use Rattle.sm_policy_text.specs.Kinds.{principals};

    ghost reads = { principals };

    #[tactic(auto, unfolding(crate::specs::Kinds::principals))]
    fn read(alloc: Global, value: &Value) -> Read<Principals> {
        match value.as_str() {
            Some(text) => {
                if same_text(text.as_bytes(), b"*") {
                    everybody(alloc)
                } else {
                    Read::Not
                }
            }
            None => match aws_of(value) {
                Some(listed) => match ListReader::<PrincipalReader>::read(alloc, listed) {
                    Read::Is(list) => Read::Is(Principals(list)),
                    Read::Not => Read::Not,
                    Read::Memory => Read::Memory,
                },
                None => Read::Not,
            },
        }
    }
}
