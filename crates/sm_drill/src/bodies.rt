//! The bodies of a drill's messages.
ghost use Rattle.std.specs.Prelude.{◌≡◌, ◌≤◌, IfOk, IsUtf8, Some, false};
ghost use Rattle.serde_json.specs.Data.{depth, object};
ghost use Rattle.serde_json.specs.Read.{max_depth, read};
ghost use Rattle.serde_json.specs.View.{members_view};
ghost use Rattle.serde_json.specs.Written.{compact_text, members_have_float};
ghost use Rattle.sm_json.specs.Asks.{asks};
ghost use Rattle.sm_json.specs.declared.requests.ReadRequest.TheVariants.{Ok};
ghost use Rattle.sm_drill.specs.Asked.{request_by};
ghost use Rattle.sm_drill.specs.Messages.{body_of, members_of, shown_members, target_of, valued_members};

use crate::step::Step;
use crate::texts::{name_of, token_of, value_of};
use serde_json::{Map, Value, put};
use sm_base::{Bytes, NoMemory};
use std::alloc::Global;

/// The members of a request that gives the value and the token of a message to a secret, which this member names.
#[tactic(auto, unfolding(crate::specs::Messages::valued_members))]
fn valued_members(
    alloc: Global,
    key: &str,
    secret: u64,
    index: u64,
    word: u32,
) -> Result<Map<String, Value>, NoMemory>
    ensures { IfOk result (λ members. members_view members.entries ≡ valued_members key.now secret index word) }
{
    let mut members = Map::new(alloc);
    let token = Value::String(token_of(alloc, index)?);
    put(&mut members, alloc, "ClientRequestToken", token)?;
    put(
        &mut members,
        alloc,
        key,
        Value::String(name_of(alloc, secret)?),
    )?;
    let value = Value::String(value_of(alloc, word)?);
    put(&mut members, alloc, "SecretString", value)?;
    Ok(members)
}

/// The members of a request for the value of a secret.
#[tactic(auto, unfolding(crate::specs::Messages::shown_members))]
fn shown_members(alloc: Global, secret: u64) -> Result<Map<String, Value>, NoMemory>
    ensures { IfOk result (λ members. members_view members.entries ≡ shown_members secret) }
{
    let mut members = Map::new(alloc);
    let name = Value::String(name_of(alloc, secret)?);
    put(&mut members, alloc, "SecretId", name)?;
    Ok(members)
}

/// The members of what a message asks for.
fn members_of(
    alloc: Global,
    step: Step,
    index: u64,
    word: u32,
) -> Result<Map<String, Value>, NoMemory>
    ensures { IfOk result (λ members. members_view members.entries ≡ members_of step index word) }
{
    match step {
        Step::Create(secret) => valued_members(alloc, "Name", secret, index, word),
        Step::Put(secret) => valued_members(alloc, "SecretId", secret, index, word),
        Step::Get(secret) => shown_members(alloc, secret),
    }
}

/// The text of an object with these members, none of which has a number that is not whole.
fn object_text(alloc: Global, members: Map<String, Value>) -> Result<Vec<u8>, NoMemory>
    requires { members_have_float (members_view members.entries) ≡ false }
    ensures text { IfOk result (λ text. text.items ≡ compact_text (object (members_view members.entries))) }
    ensures utf8 { IfOk result (λ text. IsUtf8 text.items) }
    ensures reads { IfOk result (λ text. depth (object (members_view members.entries)) ≤ max_depth
        → read text.items ≡ Some (object (members_view members.entries))) }
{
    Ok(Value::Object(members).to_vec(alloc)?)
}

/// The body of the message of this number that asks for this, by its word.
#[tactic(auto, using(crate::proofs::BodyLemmas::members_whole, crate::proofs::AskedLemmas::text_asks))]
pub(crate) fn body_of(alloc: Global, step: Step, index: u64, word: u32) -> Result<Bytes, NoMemory>
    ensures body { IfOk result (λ body. body ≡ body_of step index word) }
    ensures asks { IfOk result (λ body. asks (target_of step) body ≡ Ok (request_by step index word)) }
{
    let members = members_of(alloc, step, index, word)?;
    let text = object_text(alloc, members)?;
    Ok(Bytes::new(text))
}
