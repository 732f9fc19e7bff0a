//! The message by which a question is put to a server: AWS Secrets Manager API Reference, GetSecretValue.
ghost use Rattle.std.specs.Prelude.{◌≡◌, false, IfOk, OnOk, string_bytes};
ghost use Rattle.serde_json.specs.View.{members_view};
ghost use Rattle.sm_agent.specs.Messages.{put_text, question_members, question_body, asking_head, asking};

use crate::json::{object_text, text_json};
use crate::question::Question;
use serde_json::{Map, Value, put};
use sm_base::{NoMemory, Text};
use std::alloc::Global;

/// Puts a text as a member, where there is one.
fn put_text(
    alloc: Global,
    members: &mut Map<String, Value>,
    name: &str,
    text: &Option<Text>,
) -> Result<(), NoMemory>
    ensures { OnOk result (members_view members.new.entries
        ≡ put_text name.now text.now (members_view members.old.entries)) }
{
    match text {
        Some(text) => {
            put(members, alloc, name, text_json(alloc, text.as_str())?)?;
            Ok(())
        }
        None => Ok(()),
    }
}

/// The members of the body.
#[tactic(auto, unfolding(crate::specs::Messages::question_members))]
fn question_members(alloc: Global, question: &Question) -> Result<Map<String, Value>, NoMemory>
    ensures { IfOk result (λ members. members_view members.entries ≡ question_members question.now) }
{
    let mut members = Map::new(alloc);
    let secret_id = text_json(alloc, question.secret_id.as_str())?;
    put(&mut members, alloc, "SecretId", secret_id)?;
    put_text(alloc, &mut members, "VersionId", &question.version_id)?;
    put_text(alloc, &mut members, "VersionStage", &question.version_stage)?;
    Ok(members)
}

/// The body of the message that asks a question.
#[tactic(auto, using(crate::proofs::JsonLemmas::question_plain))]
fn question_body(alloc: Global, question: &Question) -> Result<String, NoMemory>
    ensures { IfOk result (λ body. string_bytes body ≡ question_body question.now) }
{
    let members = question_members(alloc, question)?;
    object_text(alloc, members)
}

/// What stands before a body of this size in a message to a host.
#[tactic(auto, unfolding(crate::specs::Messages::asking_head))]
fn asking_head(alloc: Global, host: &str, size: usize) -> Result<String, NoMemory>
    ensures { IfOk result (λ head. string_bytes head ≡ asking_head host.now size) }
{
    let mut head = String::from_str(alloc, "POST / HTTP/1.1\r\nHost: ")?;
    head.push_str(host)?;
    head.push_str(
        "\r\nX-Amz-Target: secretsmanager.GetSecretValue\r\nContent-Type: application/x-amz-json-1.1\r\n",
    )?;
    let length = format!(in alloc; "{size}")?;
    head.push_str("Connection: close\r\nContent-Length: ")?;
    head.push_str(length.as_str())?;
    head.push_str("\r\n\r\n")?;
    Ok(head)
}

/// The message that puts a question to a host.
pub(crate) fn asking(alloc: Global, host: &str, question: &Question) -> Result<String, NoMemory>
    ensures { IfOk result (λ message. string_bytes message ≡ asking host.now question.now) }
{
    let body = question_body(alloc, question)?;
    let mut message = asking_head(alloc, host, body.len())?;
    message.push_str(body.as_str())?;
    Ok(message)
}
