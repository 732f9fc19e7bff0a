//! The replies of a caching reader.
ghost use Rattle.std.specs.Prelude.{◌≡◌, ◌++◌, IfOk, Some, string_bytes, codes};
ghost use Rattle.serde_json.specs.View.{members_view};
ghost use Rattle.sm_base.specs.Outcomes.{OrMemory};
ghost use Rattle.sm_agent.specs.Messages.{refusal_members, refusal_body};
ghost use Rattle.sm_agent.specs.Queries.{read_told};
ghost use Rattle.sm_agent.specs.Replies.{bad_request, upstream_fault, path_word, refused_reply, given_reply, is_get_method, request_of};

use crate::agent::Given;
use crate::answer::Answer;
use crate::json::{object_text, text_json};
use crate::path::{QueryRefused, query};
use crate::question::Question;
use serde_json::{Map, Value, put};
use sm_base::text::same_text;
use sm_base::{Bytes, NoMemory};
use std::alloc::Global;

/// The members of a refusal.
#[tactic(auto, unfolding(crate::specs::Messages::refusal_members))]
fn refusal_members(
    alloc: Global,
    message: &str,
    error: &str,
) -> Result<Map<String, Value>, NoMemory>
    ensures { IfOk result (λ members. members_view members.entries ≡ refusal_members message.now error.now) }
{
    let mut members = Map::new(alloc);
    put(&mut members, alloc, "Message", text_json(alloc, message)?)?;
    put(&mut members, alloc, "__type", text_json(alloc, error)?)?;
    Ok(members)
}

/// The body of a refusal.
#[tactic(auto, using(crate::proofs::JsonLemmas::refusal_plain))]
fn refusal_body(alloc: Global, message: &str, error: &str) -> Result<Bytes, NoMemory>
    ensures { IfOk result (λ body. body ≡ refusal_body message.now error.now) }
{
    let members = refusal_members(alloc, message, error)?;
    Ok(Bytes::new(object_text(alloc, members)?.into_bytes()))
}

/// The reply to a request that asks for nothing: what is wrong with it is a key, or its path.
#[tactic(auto, unfolding(crate::specs::Replies::bad_request))]
fn bad_request(alloc: Global, what: &str) -> Result<Answer, NoMemory>
    ensures { IfOk result (λ reply. reply ≡ bad_request what.now) }
{
    let message = format!(in alloc; "agent: {what}")?;
    Ok(Answer {
        status: 400,
        body: refusal_body(alloc, message.as_str(), "InvalidParameterException")?,
    })
}

/// The reply where the upstream failed.
#[tactic(auto, unfolding(crate::specs::Replies::upstream_fault))]
fn upstream_fault(alloc: Global) -> Result<Answer, NoMemory>
    ensures { IfOk result (λ reply. reply ≡ upstream_fault) }
{
    Ok(Answer {
        status: 500,
        body: refusal_body(alloc, "upstream fault", "InternalServiceError")?,
    })
}

/// The word for a path that answers no questions.
#[tactic(auto, unfolding(crate::specs::Replies::path_word))]
fn path_word() -> &'static str
    ensures { result.now ≡ path_word }
{
    "path"
}

/// The reply to a request that was refused.
pub fn refused_reply(alloc: Global, refused: QueryRefused) -> Result<Answer, NoMemory>
    ensures { IfOk result (λ reply. refused_reply refused ≡ Some reply) }
{
    match refused {
        QueryRefused::Path => bad_request(alloc, path_word()),
        QueryRefused::Key(key) => bad_request(alloc, key.as_str()),
        QueryRefused::Memory => Err(NoMemory),
    }
}

/// The reply to a question, by what was given.
pub fn given_reply(alloc: Global, given: Given) -> Result<Answer, NoMemory>
    ensures { IfOk result (λ reply. given_reply given ≡ Some reply) }
{
    match given {
        Given::Kept(status, body, _) => Ok(Answer { status, body }),
        Given::Asked(status, body) => Ok(Answer { status, body }),
        Given::Failed => upstream_fault(alloc),
        Given::Memory => Err(NoMemory),
    }
}

/// Whether a method is that of a question.
#[tactic(auto, unfolding(crate::specs::Replies::is_get_method))]
fn is_get_method(method: &[u8]) -> bool
    ensures { result ≡ is_get_method method.now }
{
    same_text(method, b"GET")
}

/// The question that a request asks, by its method and its path, and whether a fresh answer is wanted.
pub fn request(alloc: Global, method: &[u8], path: &[u8]) -> Result<(Question, bool), QueryRefused>
    ensures { OrMemory (read_told result) (request_of method.now path.now) }
{
    if is_get_method(method) {
        query(alloc, path)
    } else {
        Err(QueryRefused::Path)
    }
}
