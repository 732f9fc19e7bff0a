//! The bodies of replies.
ghost use Rattle.std.specs.Prelude.{◌≡◌, IfOk, OnOk, Some, unwrap_or, []};
ghost use Rattle.sm_reply.specs.Shown.{reply_members, refusal_members, text_of, body_of, refused};
ghost use Rattle.sm_reply.specs.Tokens.{members_behind};

use crate::members::put;
use crate::out::Out;
use crate::{batches, pages, secrets};
use sm_model::{Bytes, NoMemory, Reply, Text, Why};
use std::alloc::Global;

/// The status and the body of the reply to a refused request.
#[derive(Drop)]
pub struct Refused {
    /// 400, 413, 500 or 503.
    pub status: u16,
    pub body: Bytes,
}

/// The body of the reply to an accepted request: a JSON object, or nothing for TagResource and UntagResource.
pub fn body(alloc: Global, reply: &Reply) -> Result<Bytes, NoMemory>
    ensures { IfOk result (λ body. body ≡ body_of reply.now) }
{
    match reply {
        Reply::TagResource | Reply::UntagResource => Ok(Bytes::empty(alloc)),
        _ => object_text(alloc, reply),
    }
}

/// The reply to a refused request: an object with the message and the error's name.
pub fn refusal(alloc: Global, why: &Why) -> Result<Refused, NoMemory>
    ensures status { IfOk result (λ refusal. refusal.status ≡ (refused why.now).status) }
    ensures body { IfOk result (λ refusal. refusal.body ≡ (refused why.now).body) }
{
    let message = why.message(alloc)?;
    let body = refusal_text(alloc, &message, why.error_name())?;
    Ok(Refused {
        status: why.status(),
        body,
    })
}

/// The text of a reply's object.
#[tactic(auto, using(crate::proofs::TokenLemmas::text_written))]
fn object_text(alloc: Global, reply: &Reply) -> Result<Bytes, NoMemory>
    ensures { IfOk result (λ text. text ≡ text_of (Some (unwrap_or (reply_members reply.now) []))) }
{
    let mut out = Out::new(alloc)?;
    out.begin_object()?;
    object_members(alloc, &mut out, reply)?;
    out.end_object()?;
    Ok(out.into_bytes())
}

/// The text of a refusal.
#[tactic(auto, using(crate::proofs::TokenLemmas::text_written))]
fn refusal_text(alloc: Global, message: &Text, error: &str) -> Result<Bytes, NoMemory>
    ensures { IfOk result (λ text. text ≡ text_of (Some (refusal_members message.now error.now))) }
{
    let mut out = Out::new(alloc)?;
    out.begin_object()?;
    refusal_members(alloc, &mut out, message, error)?;
    out.end_object()?;
    Ok(out.into_bytes())
}

/// The members of a refusal.
fn refusal_members(
    alloc: Global,
    out: &mut Out,
    message: &Text,
    error: &str,
) -> Result<(), NoMemory>
    ensures { OnOk result (out.new ≡ members_behind (refusal_members message.now error.now) out.old) }
{
    put(alloc, out, "Message", message)?;
    out.name("__type")?;
    out.text(error)?;
    Ok(())
}

/// The members of a reply's object, and none where it has no object.
fn object_members(alloc: Global, out: &mut Out, reply: &Reply) -> Result<(), NoMemory>
    ensures { OnOk result (out.new ≡ members_behind (unwrap_or (reply_members reply.now) []) out.old) }
{
    match reply {
        Reply::BatchGetSecretValue(reply) => batches::batch_members(alloc, out, reply),
        Reply::CancelRotateSecret(reply) => secrets::versioned_members(alloc, out, reply),
        Reply::CreateSecret(reply) => secrets::created_members(alloc, out, reply),
        Reply::DeleteResourcePolicy(reply) => secrets::named_members(alloc, out, reply),
        Reply::DeleteSecret(reply) => secrets::deleted_members(alloc, out, reply),
        Reply::DescribeSecret(reply) => pages::described_members(alloc, out, reply),
        Reply::GetRandomPassword(reply) => secrets::password_members(alloc, out, reply),
        Reply::GetResourcePolicy(reply) => secrets::policy_members(alloc, out, reply),
        Reply::GetSecretValue(reply) => secrets::got_members(alloc, out, reply),
        Reply::ListSecretVersionIds(reply) => pages::versions_members(alloc, out, reply),
        Reply::ListSecrets(reply) => pages::page_members(alloc, out, reply),
        Reply::PutResourcePolicy(reply) => secrets::named_members(alloc, out, reply),
        Reply::PutSecretValue(reply) => secrets::put_members(alloc, out, reply),
        Reply::RemoveRegionsFromReplication(reply) => secrets::replicated_members(
            alloc, out, reply,
        ),
        Reply::ReplicateSecretToRegions(reply) => secrets::replicated_members(alloc, out, reply),
        Reply::RestoreSecret(reply) => secrets::named_members(alloc, out, reply),
        Reply::RotateSecret(reply) => secrets::versioned_members(alloc, out, reply),
        Reply::StopReplicationToReplica(reply) => secrets::promoted_members(alloc, out, reply),
        Reply::UpdateSecret(reply) => secrets::versioned_members(alloc, out, reply),
        Reply::UpdateSecretVersionStage(reply) => secrets::named_members(alloc, out, reply),
        Reply::ValidateResourcePolicy(reply) => batches::validation_members(alloc, out, reply),
        Reply::TagResource | Reply::UntagResource => Ok(()),
    }
}
