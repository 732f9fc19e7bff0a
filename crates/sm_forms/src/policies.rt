//! The form of a policy's text, and its first fault (AWS Secrets Manager API Reference, PutResourcePolicy).
ghost use Rattle.std.specs.Prelude.{◌≡◌};
ghost use Rattle.sm_policy_text.specs.Documents.{has_policy_length};
ghost use Rattle.sm_forms.specs.Policies.{policy_form, policy_flaw, OrNoMemory};

use crate::members::form_unless;
use sm_base::limits::POLICY_LIMIT;
use sm_base::text::characters;
use sm_model::{Text, Why};
use sm_policy_text::{Policy, PolicyRefused};
use std::alloc::Global;

/// Whether a policy's text has 1 to 20,480 characters.
fn has_policy_length(text: &Text) -> bool
    ensures { result ≡ has_policy_length text.now }
{
    let count = characters(text);
    1 <= count && count <= POLICY_LIMIT
}

/// The form of a policy's text.
pub fn policy_form(text: &Text) -> Option<Why>
    ensures { result ≡ policy_form text.now }
{
    form_unless(has_policy_length(text), "ResourcePolicy")
}

/// The first fault of a text that is no policy, or `Why::Memory` where there is no memory to read it.
pub fn policy_flaw(alloc: Global, text: &Text) -> Option<Why>
    ensures { OrNoMemory result (policy_flaw text.now) }
{
    match Policy::read(alloc, text.as_bytes()) {
        Ok(_) => None,
        Err(PolicyRefused::Malformed(number, member)) => Some(Why::Malformed(number, member)),
        Err(PolicyRefused::Memory) => Some(Why::Memory),
    }
}
