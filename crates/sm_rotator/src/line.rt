//! The lines of a rotator behind an address: the step that is asked for, and the answer.
ghost use Rattle.std.specs.Prelude.{◌≡◌, false, IfOk, IfSome, OnOk, option_map};
ghost use Rattle.sm_rotator.specs.Absent.{is_failed};
ghost use Rattle.serde_json.specs.Data.{string, object, no_members, put};
ghost use Rattle.serde_json.specs.View.{view, members_view};
ghost use Rattle.serde_json.specs.Written.{members_have_float, compact_text};
ghost use Rattle.sm_rotator.specs.Line.{step_name, value_json, put_if, asked_members, line_of};

use crate::work::Work;
use base64::DecodeAllocError;
use base64::engine::general_purpose::STANDARD;
use serde_json::{Map, Value as Json, put};
use sm_model::{Answer, Bytes, NoMemory, Stage, Text, Value};
use std::alloc::Global;

/// The name of a step, as in a Lambda rotation function's event.
#[tactic(auto, unfolding(crate::specs::Line::step_name))]
fn step_name(stage: Stage) -> &'static str
    ensures { result.now ≡ step_name stage }
{
    match stage {
        Stage::Create => "createSecret",
        Stage::Set => "setSecret",
        Stage::Test => "testSecret",
        Stage::Finish => "finishSecret",
    }
}

/// A text as JSON.
fn text_json(alloc: Global, text: &str) -> Result<Json, NoMemory>
    ensures { IfOk result (λ json. view json ≡ string text.now) }
{
    Ok(Json::String(String::from_str(alloc, text)?))
}

/// An object with one member.
fn one_member(alloc: Global, name: &str, value: Json) -> Result<Json, NoMemory>
    ensures { IfOk result (λ json. view json ≡ object (put name.now (view value) no_members)) }
{
    let mut members = Map::new(alloc);
    put(&mut members, alloc, name, value)?;
    Ok(Json::Object(members))
}

/// A value as an object with SecretString or SecretBinary.
#[tactic(auto, unfolding(crate::specs::Line::value_json))]
fn value_json(alloc: Global, value: &Value) -> Result<Json, NoMemory>
    ensures { IfOk result (λ json. view json ≡ value_json value.now) }
{
    match value {
        Value::Text(text) => {
            let text = text_json(alloc, text.as_str())?;
            one_member(alloc, "SecretString", text)
        }
        Value::Bytes(bytes) => {
            let text = Json::String(STANDARD.encode(alloc, bytes.as_slice())?);
            one_member(alloc, "SecretBinary", text)
        }
    }
}

/// Puts a value as a member, where there is one.
fn put_value(
    alloc: Global,
    members: &mut Map<String, Json>,
    name: &str,
    value: &Option<Value>,
) -> Result<(), NoMemory>
    ensures { OnOk result (members_view members.new.entries
        ≡ put_if name.now (option_map value_json value.now) (members_view members.old.entries)) }
{
    match value {
        Some(value) => {
            let value = value_json(alloc, value)?;
            put(members, alloc, name, value)?;
            Ok(())
        }
        None => Ok(()),
    }
}

/// The members that ask for a step.
#[tactic(auto, unfolding(crate::specs::Line::asked_members))]
fn asked_members(alloc: Global, work: &Work) -> Result<Map<String, Json>, NoMemory>
    ensures { IfOk result (λ members. members_view members.entries ≡ asked_members work.now) }
{
    let mut members = Map::new(alloc);
    let token = text_json(alloc, work.at.token.as_text().as_str())?;
    put(&mut members, alloc, "ClientRequestToken", token)?;
    put_value(alloc, &mut members, "Current", &work.current)?;
    put_value(alloc, &mut members, "Pending", &work.pending)?;
    let arn = text_json(alloc, work.arn.as_text().as_str())?;
    put(&mut members, alloc, "SecretId", arn)?;
    let step = text_json(alloc, step_name(work.at.stage))?;
    put(&mut members, alloc, "Step", step)?;
    Ok(members)
}

/// The text of an object with these members, in which all numbers are whole.
fn object_text(alloc: Global, members: Map<String, Json>) -> Result<Vec<u8>, NoMemory>
    requires { members_have_float (members_view members.entries) ≡ false }
    ensures { IfOk result (λ text. text.items ≡ compact_text (object (members_view members.entries))) }
{
    Ok(Json::Object(members).to_vec(alloc)?)
}

/// The line that asks for a step, with its end.
#[tactic(auto, using(crate::proofs::LineLemmas::asked_plain))]
pub(crate) fn line_of(alloc: Global, work: &Work) -> Result<Vec<u8>, NoMemory>
    ensures { IfOk result (λ line. line.items ≡ line_of work.now) }
{
    let members = asked_members(alloc, work)?;
    let mut line = object_text(alloc, members)?;
    line.push(b'\n')?;
    Ok(line)
}

/// The bytes that a text in base64 stands for.
fn decoded(alloc: Global, text: &str) -> Result<Option<Value>, NoMemory> {
    match STANDARD.decode(alloc, text.as_bytes()) {
        Ok(bytes) => Ok(Some(Value::Bytes(Bytes::new(bytes)))),
        Err(DecodeAllocError::DecodeError(_)) => Ok(None),
        Err(DecodeAllocError::OutOfMemory) => Err(NoMemory),
    }
}

/// The one of SecretString and SecretBinary that an object has.
fn value_in(alloc: Global, json: &Json) -> Result<Option<Value>, NoMemory> {
    match (json.get("SecretString"), json.get("SecretBinary")) {
        (Some(text), None) => match text.as_str() {
            Some(text) => Ok(Some(Value::Text(Text::from_str(alloc, text)?))),
            None => Ok(None),
        },
        (None, Some(bytes)) => match bytes.as_str() {
            Some(text) => decoded(alloc, text),
            None => Ok(None),
        },
        _ => Ok(None),
    }
}

/// The answer that a line is, if it is one.
pub(crate) fn answer_in(alloc: Global, line: &[u8]) -> Result<Option<Answer>, NoMemory>
    ensures { IfOk result (λ answer. IfSome answer (λ a. is_failed a ≡ false)) }
{
    let json = match Json::from_slice(alloc, line) {
        Ok(json) => json,
        Err(error) if error.is_memory() => return Err(NoMemory),
        Err(_) => return Ok(None),
    };
    match json.get("Answer").and_then(Json::as_str) {
        Some("Yes") => Ok(Some(Answer::Yes)),
        Some("No") => Ok(Some(Answer::No)),
        Some("Value") => match value_in(alloc, &json)? {
            Some(value) => Ok(Some(Answer::Value(value))),
            None => Ok(None),
        },
        _ => Ok(None),
    }
}
