//! The JSON object of a body.
ghost use Rattle.std.specs.Prelude.{◌≡◌, Some, None, Option};
ghost use Rattle.serde_json.specs.View.{view};
ghost use Rattle.sm_json.specs.Bodies.{IsBody};
ghost use Rattle.sm_json.specs.Asks.{json_of, object_only, object_of};
ghost use Rattle.serde_json.specs.Read.{read};

use crate::reading::value_of;
use json::{Error, Scratch};
use serde_json::{Value, json};
use std::alloc::Global;
use std::str;

/// What a body is.
#[derive(Drop)]
pub enum Body {
    Object(Value),
    /// It is no JSON object.
    NotJson,
    Memory,
}

/// The object of a body; an empty body is one without members.
pub fn object_of(alloc: Global, scratch: &mut Scratch, body: &[u8]) -> Body
    ensures { IsBody result (object_of body.now) }
{
    if body.is_empty() {
        match json!(in alloc; {}) {
            Ok(object) => Body::Object(object),
            Err(_) => Body::Memory,
        }
    } else {
        match read_json(alloc, scratch, body) {
            Body::Object(value) => object_only(value),
            Body::NotJson => Body::NotJson,
            Body::Memory => Body::Memory,
        }
    }
}

/// What the bytes are as JSON.
#[tactic(auto, using(crate::proofs::BodyLemmas::is_as_text, crate::proofs::BodyLemmas::is_no_text))]
fn read_json(alloc: Global, scratch: &mut Scratch, bytes: &[u8]) -> Body
    ensures { IsBody result (json_of bytes.now) }
{
    match str::from_utf8(bytes) {
        Ok(text) => read_text(alloc, scratch, text),
        Err(_) => Body::NotJson,
    }
}

/// What a text is as JSON.
fn read_text(alloc: Global, scratch: &mut Scratch, text: &str) -> Body
    ensures { IsBody result (read text.now) }
{
    match value_of(alloc, scratch, text) {
        Ok(value) => Body::Object(value),
        Err(error) => match error {
            Error::Invalid => Body::NotJson,
            Error::OutOfMemory | Error::TooLong | Error::DuplicateKey => Body::Memory,
        },
    }
}

/// The value, if it is an object.
fn object_only(value: Value) -> Body
    ensures { IsBody result (object_only (view value)) }
{
    match value.as_object() {
        Some(_) => Body::Object(value),
        None => Body::NotJson,
    }
}
