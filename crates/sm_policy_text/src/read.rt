//! Members of an object by their form, and which is at fault.
ghost use Rattle.std.specs.Prelude.{◌≡◌, Option, Some, option_map};
ghost use Rattle.serde_json.specs.Data.{Data};
ghost use Rattle.serde_json.specs.Find.{as_object};
ghost use Rattle.serde_json.specs.View.{view, members_view};
ghost use Rattle.sm_policy_text.specs.Members.{is_among, first_unknown, unknown_of, member_of, may, must, is_read, fault_of, given, spelled};
ghost use Rattle.sm_policy_text.specs.Reads.{IsRead, Flawed, Passes, Reads, Needs};
ghost use Rattle.sm_policy_text.specs.Kinds.{is_text};

use crate::member::Member;
use serde_json::{Map, Value};
use sm_base::Text;
use sm_base::text::same_text;
use std::alloc::Global;

/// The first member at fault, or out of memory.
#[derive(Drop)]
pub enum Fault {
    At(Text),
    Memory,
}

/// What a JSON value is in a form.
#[derive(Drop)]
pub enum Read<T> {
    Is(T),
    Not,
    Memory,
}

/// How a part of a policy that is one JSON value is read.
///
/// Types private to this crate implement it, and not the parts themselves: an implementation for a public type would be
/// in this crate's interface, and each crate above would load serde_json with it.
pub(crate) trait Reader {
    /// What is read.
    type Part: Drop;

    /// The part that a value is.
    ghost reads: { Data → Option Self.Part };

    /// Reads the value.
    fn read(alloc: Global, value: &Value) -> Read<Self::Part>
        ensures { IsRead result (reads (view value.now)) };
}

/// The fault of a member.
pub(crate) fn at(name: Member) -> Fault
    ensures { Flawed result (Some (spelled name)) }
{
    Fault::At(Text::fixed(name.spelled()))
}

/// A member of an object. Null is a value.
#[tactic(auto, unfolding(crate::specs::Members::member_of))]
pub(crate) fn member_of(json: &Value, name: Member) -> Option<&Value>
    ensures { option_map (λ v. view v.now) result ≡ member_of name (view json.now) }
{
    json.get(name.spelled())
}

/// A member that must be there.
#[tactic(auto, unfolding(crate::specs::Members::must, crate::specs::Members::given, crate::specs::Members::fault_of))]
pub(crate) fn required<R: Reader>(
    alloc: Global,
    json: &Value,
    name: Member,
) -> Result<R::Part, Fault>
    ensures { Needs result (fault_of (must name (is_read R.reads)) (view json.now))
        (given R.reads name (view json.now)) }
{
    match member_of(json, name) {
        Some(value) => match R::read(alloc, value) {
            Read::Is(part) => Ok(part),
            Read::Not => Err(at(name)),
            Read::Memory => Err(Fault::Memory),
        },
        None => Err(at(name)),
    }
}

/// A member that need not be there.
#[tactic(auto, unfolding(crate::specs::Members::may, crate::specs::Members::given, crate::specs::Members::fault_of))]
pub(crate) fn optional<R: Reader>(
    alloc: Global,
    json: &Value,
    name: Member,
) -> Result<Option<R::Part>, Fault>
    ensures { Reads result (fault_of (may name (is_read R.reads)) (view json.now))
        (given R.reads name (view json.now)) }
{
    match member_of(json, name) {
        Some(value) => match R::read(alloc, value) {
            Read::Is(part) => Ok(Some(part)),
            Read::Not => Err(at(name)),
            Read::Memory => Err(Fault::Memory),
        },
        None => Ok(None),
    }
}

/// A text that need not be there. It is not kept.
#[tactic(auto, unfolding(crate::specs::Members::may, crate::specs::Members::fault_of))]
pub(crate) fn optional_text(json: &Value, name: Member) -> Result<(), Fault>
    ensures { Passes result (fault_of (may name is_text) (view json.now)) }
{
    match member_of(json, name) {
        Some(value) => {
            if value.is_string() {
                Ok(())
            } else {
                Err(at(name))
            }
        }
        None => Ok(()),
    }
}

fn is_among(known: &[Member], name: &[u8]) -> bool
    ensures { result ≡ is_among known.now name.now }
{
    known
        .iter()
        .any(|member| same_text(member.spelled().as_bytes(), name))
}

/// The first member that is none of these.
#[tactic(auto, using(crate::proofs::MemberLemmas::unknown_here, crate::proofs::MemberLemmas::unknown_later, crate::proofs::MemberLemmas::unknown_none))]
fn first_unknown<'a>(members: &'a Map<String, Value>, known: &[Member]) -> Option<&'a str>
    ensures { option_map (λ k. k.now) result ≡ first_unknown known.now (members_view members.now.entries) }
{
    for (key, _) in members.iter() {
        if !is_among(known, key.as_bytes()) {
            return Some(key.as_str());
        }
    }
    None
}

/// That an object has no other members than these.
pub(crate) fn only(alloc: Global, json: &Value, known: &[Member]) -> Result<(), Fault>
    ensures { Passes result (unknown_of known.now (as_object (view json.now))) }
{
    let Some(members) = json.as_object() else {
        return Ok(());
    };
    match first_unknown(members, known) {
        Some(name) => match Text::from_str(alloc, name) {
            Ok(name) => Err(Fault::At(name)),
            Err(_) => Err(Fault::Memory),
        },
        None => Ok(()),
    }
}
