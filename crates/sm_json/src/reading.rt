//! What a text is as JSON, read over memory that is kept from text to text.
ghost use Rattle.std.specs.Prelude.{◌≡◌, Some, None, Err, IfOk};
ghost use Rattle.json.specs.Value.{value_view};
ghost use Rattle.serde_json.specs.Read.{read};
ghost use Rattle.serde_json.specs.View.{view};
ghost use Rattle.sm_json.specs.Laws.{tree_of};

use crate::owned::owned;
use json::{Error, Reader, Scratch};
use serde_json::Value;
use std::alloc::Global;

/// As many lists and objects may be open at one place, as in serde_json.
const MAX_DEPTH: usize = 127;

/// The value of a text. Errors: Invalid where it is no JSON.
pub fn value_of(alloc: Global, scratch: &mut Scratch, text: &str) -> Result<Value, Error>
    ensures ok { IfOk result (λ value. read text.now ≡ Some (view value)) }
    ensures invalid { result ≡ Err Error.Invalid → read text.now ≡ None }
{
    owned(alloc, &tree_of(alloc, scratch, text)?)
}

/// What stands in a text. It borrows the text, and what it had to unescape from the scratch.
fn tree_of<'a>(
    alloc: Global,
    scratch: &'a mut Scratch,
    text: &'a str,
) -> Result<json::Value<'a>, Error>
    ensures ok { IfOk result (λ tree. tree_of text.now ≡ Some (value_view tree)) }
    ensures invalid { result ≡ Err Error.Invalid → tree_of text.now ≡ None }
{
    let mut reader = Reader::new(text, scratch)?;
    let tree = json::Value::read(alloc, &mut reader, MAX_DEPTH)?;
    if reader.next().is_some() {
        return Err(Error::Invalid);
    }
    Ok(tree)
}
