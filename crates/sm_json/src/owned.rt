//! serde_json's value of what stands in a text.
ghost use Rattle.std.specs.Prelude.{◌≡◌, Some, None, Err, IfOk};
ghost use Rattle.json.specs.Value.{value_view, items_view as tree_items, members_view as tree_members};
ghost use Rattle.serde_json.specs.Data.{no_members};
ghost use Rattle.serde_json.specs.Read.{of_json, of_items, of_members};
ghost use Rattle.serde_json.specs.View.{view, items_view, members_view};

use crate::number::number_of;
use json::{Error, Value as Tree};
use serde_json::{Map, Value, push, put};
use std::alloc::Global;

/// The value that owns its texts. Errors: Invalid where a number is out of range.
#[cycle(owned)]
pub fn owned(alloc: Global, tree: &Tree<'_>) -> Result<Value, Error>
    ensures ok { IfOk result (λ value. of_json (value_view tree.now) ≡ Some (view value)) }
    ensures invalid { result ≡ Err Error.Invalid → of_json (value_view tree.now) ≡ None }
{
    match tree {
        Tree::Null => Ok(Value::Null),
        Tree::Bool(truth) => Ok(Value::from(*truth)),
        Tree::Number(digits) => match number_of(*digits) {
            Some(number) => Ok(Value::from(number)),
            None => Err(Error::Invalid),
        },
        Tree::String(text) => Ok(Value::try_from_str(alloc, *text)?),
        Tree::Array(items) => Ok(Value::from(owned_items(alloc, items.as_slice())?)),
        Tree::Object(members) => Ok(Value::from(owned_members(alloc, members.as_slice())?)),
    }
}

/// The same of the items of a list.
#[cycle(owned)]
#[tactic(auto, using(crate::proofs::OwnedLemmas::items_start, crate::proofs::OwnedLemmas::items_more, crate::proofs::OwnedLemmas::items_bad, crate::proofs::OwnedLemmas::items_all))]
fn owned_items(alloc: Global, items: &[Tree<'_>]) -> Result<Vec<Value>, Error>
    ensures ok { IfOk result (λ values. of_items (tree_items items.now) ≡ Some (items_view values.items)) }
    ensures invalid { result ≡ Err Error.Invalid → of_items (tree_items items.now) ≡ None }
{
    let mut values = Vec::new(alloc);
    for item in items {
        let value = owned(alloc, item)?;
        push(&mut values, value)?;
    }
    Ok(values)
}

/// The same of the members of an object. Of a name the last value stays.
#[cycle(owned)]
#[tactic(auto, using(crate::proofs::OwnedLemmas::members_more, crate::proofs::OwnedLemmas::members_bad, crate::proofs::OwnedLemmas::members_all))]
fn owned_members<'a>(
    alloc: Global,
    members: &[(&'a str, Tree<'a>)],
) -> Result<Map<String, Value>, Error>
    ensures ok { IfOk result
        (λ values. of_members (tree_members members.now) no_members ≡ Some (members_view values.entries)) }
    ensures invalid { result ≡ Err Error.Invalid → of_members (tree_members members.now) no_members ≡ None }
{
    let mut values = Map::new(alloc);
    for member in members {
        let value = owned(alloc, &member.1)?;
        put(&mut values, alloc, member.0, value)?;
    }
    Ok(values)
}
