//! The replies to messages: a status and a body.
ghost use Rattle.sm_reply.specs.Shown.{shown, refused};
ghost use Rattle.sm_session.specs.Replies.{Says, SaysHandled};

use crate::said::Said;
use sm_account::Handled;
use sm_model::{Reply, Why};
use sm_reply::{body, refusal};
use std::alloc::Global;

/// The reply to a refused request.
pub fn say_refusal(alloc: Global, why: &Why) -> Said
    ensures { Says result (refused why.now) }
{
    match refusal(alloc, why) {
        Ok(refused) => Said::Reply(refused.status, refused.body),
        Err(_) => Said::Memory,
    }
}

/// The reply to an accepted request.
pub fn say_reply(alloc: Global, reply: &Reply) -> Said
    ensures { Says result (shown reply.now) }
{
    match body(alloc, reply) {
        Ok(body) => Said::Reply(200, body),
        Err(_) => Said::Memory,
    }
}

/// The reply to a request that an account handled so.
pub fn say_handled(alloc: Global, handled: Handled) -> Said
    ensures { SaysHandled handled result }
{
    match handled {
        Handled::Answered(reply) => say_reply(alloc, reply.value()),
        Handled::Refused(why) => say_refusal(alloc, &why),
        Handled::DiskFault => say_refusal(alloc, &Why::DiskFault),
        Handled::Memory => Said::Memory,
    }
}
