//! The message that asks for a step of a drill.
ghost use Rattle.std.specs.Prelude.{◌≡◌, ◌<◌, ◌∷◌, [], IfOk, map};
ghost use Rattle.sm_drill.specs.Asked.{AsksFor, request_by};
ghost use Rattle.sm_drill.specs.Messages.{message_by, target_field, target_of};
ghost use Rattle.sm_drill.specs.Steps.{step_of};
ghost use Rattle.sm_drill.specs.declared.step.TheConstants.{MESSAGES};
ghost use Rattle.sm_http.specs.Reading.{content, pair_of};

use crate::bodies::body_of;
use crate::step::{Step, step_of};
use sm_base::{List, NoMemory};
use sm_http::{Excerpt, Field, Message};
use std::alloc::Global;

/// The operation that a step asks for, as messages name it.
fn target_of(step: Step) -> &'static str
    ensures { result.now ≡ target_of step }
{
    match step {
        Step::Create(_) => "secretsmanager.CreateSecret",
        Step::Put(_) => "secretsmanager.PutSecretValue",
        Step::Get(_) => "secretsmanager.GetSecretValue",
    }
}

/// The one field of a message, which names an operation.
fn fields_of(alloc: Global, target: &str) -> Result<List<Field>, NoMemory>
    ensures { IfOk result (λ fields. map pair_of fields ≡ target_field target.now ∷ []) }
{
    let name = Excerpt::from_slice(alloc, b"X-Amz-Target")?;
    let value = Excerpt::from_slice(alloc, target.as_bytes())?;
    let mut fields = List::empty(alloc);
    fields.push(Field { name, value })?;
    Ok(fields)
}

/// The message of this number, by its word.
pub(crate) fn message_of(alloc: Global, index: u64, word: u32) -> Result<Message, NoMemory>
    requires { index < MESSAGES }
    ensures message { IfOk result (λ message. content message ≡ message_by index word) }
    ensures asks { IfOk result (λ message. AsksFor (content message) (request_by (step_of index word) index word)) }
{
    let step = step_of(index, word);
    let method = Excerpt::from_slice(alloc, b"POST")?;
    let path = Excerpt::from_slice(alloc, b"/")?;
    let fields = fields_of(alloc, target_of(step))?;
    let body = body_of(alloc, step, index, word)?;
    Ok(Message {
        method,
        path,
        fields,
        closing: false,
        body,
        at: 0,
    })
}
