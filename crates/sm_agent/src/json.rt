//! JSON texts.
ghost use Rattle.std.specs.Prelude.{◌≡◌, false, IfOk, string_bytes};
ghost use Rattle.serde_json.specs.Data.{string, object};
ghost use Rattle.serde_json.specs.View.{view, members_view};
ghost use Rattle.serde_json.specs.Written.{members_have_float, compact_text};

use serde_json::{Map, Value};
use sm_base::NoMemory;
use std::alloc::Global;

/// A text as JSON.
pub(crate) fn text_json(alloc: Global, text: &str) -> Result<Value, NoMemory>
    ensures { IfOk result (λ json. view json ≡ string text.now) }
{
    Ok(Value::String(String::from_str(alloc, text)?))
}

/// The text of an object with these members, none of which has a number that is not whole.
pub(crate) fn object_text(alloc: Global, members: Map<String, Value>) -> Result<String, NoMemory>
    requires { members_have_float (members_view members.entries) ≡ false }
    ensures { IfOk result (λ text. string_bytes text ≡ compact_text (object (members_view members.entries))) }
{
    Ok(Value::Object(members).to_string(alloc)?)
}
