//! A member of an object by its type, and what may be wrong with it.
ghost use Rattle.std.specs.Prelude.{◌≡◌, Result, option_map};
ghost use Rattle.serde_json.specs.Data.{Data};
ghost use Rattle.serde_json.specs.View.{view};
ghost use Rattle.sm_json.specs.Fields.{may, must, left, unless_null, member_of, given, fault_of};
ghost use Rattle.sm_json.specs.Reads.{IsRead, Reads, Needs, Passes};
ghost use Rattle.sm_json.specs.Names.{spelled};

use crate::name::MemberName;
use serde_json::Value;
use std::alloc::Global;

/// What is wrong with a member.
#[derive(Clone, Copy, Debug, PartialEq, Eq)]
pub enum Mark {
    /// It is missing, or of another type.
    Bad,
    /// It is left out by name.
    LeftOut,
}

/// The first member with which something is wrong, or out of memory.
#[derive(Drop)]
pub enum Fault {
    At(MemberName, Mark),
    Memory,
}

/// What a JSON value is as a value of a type.
#[derive(Drop)]
pub enum Read<T> {
    Is(T),
    Not(Mark),
    Memory,
}

/// A type of members.
pub trait Member: Drop {
    ghost use Rattle.sm_json.specs.declared.fields.Mark.{Mark};

    /// The value that JSON is, or what is wrong with it.
    ghost reads: { Data → Result Self Mark };

    /// Reads the value.
    fn read(alloc: Global, value: &Value) -> Read<Self>
        ensures { IsRead result (reads (view value.now)) };
}

/// The value, unless it is null.
pub fn unless_null(value: &Value) -> Option<&Value>
    ensures { option_map (λ v. view v.now) result ≡ unless_null (view value.now) }
{
    if value.is_null() { None } else { Some(value) }
}

/// A member of an object. Null is as good as absent.
#[tactic(auto, unfolding(crate::specs::Fields::member_of))]
pub fn member_of(json: &Value, name: MemberName) -> Option<&Value>
    ensures { option_map (λ v. view v.now) result ≡ member_of name (view json.now) }
{
    match json.get(name.spelled()) {
        Some(value) => unless_null(value),
        None => None,
    }
}

/// A member that need not be there.
#[tactic(auto, unfolding(crate::specs::Fields::may, crate::specs::Fields::given, crate::specs::Fields::fault_of))]
pub fn optional<T: Member>(
    alloc: Global,
    json: &Value,
    name: MemberName,
) -> Result<Option<T>, Fault>
    ensures { Reads result (fault_of (may name T.reads) (view json.now)) (given T.reads name (view json.now)) }
{
    match member_of(json, name) {
        Some(value) => match T::read(alloc, value) {
            Read::Is(part) => Ok(Some(part)),
            Read::Not(mark) => Err(Fault::At(name, mark)),
            Read::Memory => Err(Fault::Memory),
        },
        None => Ok(None),
    }
}

/// A member that must be there.
#[tactic(auto, unfolding(crate::specs::Fields::must, crate::specs::Fields::given, crate::specs::Fields::fault_of))]
pub fn required<T: Member>(alloc: Global, json: &Value, name: MemberName) -> Result<T, Fault>
    ensures { Needs result (fault_of (must name T.reads) (view json.now)) (given T.reads name (view json.now)) }
{
    match member_of(json, name) {
        Some(value) => match T::read(alloc, value) {
            Read::Is(part) => Ok(part),
            Read::Not(mark) => Err(Fault::At(name, mark)),
            Read::Memory => Err(Fault::Memory),
        },
        None => Err(Fault::At(name, Mark::Bad)),
    }
}

/// A member that is left out by name, whatever it is.
#[tactic(auto, unfolding(crate::specs::Fields::left, crate::specs::Fields::fault_of))]
pub fn left_out(json: &Value, name: MemberName) -> Result<(), Fault>
    ensures { Passes result (fault_of (left name) (view json.now)) }
{
    match member_of(json, name) {
        Some(_) => Err(Fault::At(name, Mark::LeftOut)),
        None => Ok(()),
    }
}
