//! The forms of PutResourcePolicy (AWS Secrets Manager API Reference, PutResourcePolicy).
ghost use Rattle.std.specs.Prelude.{◌≡◌};
ghost use Rattle.sm_forms.specs.Policies.{OrNoMemory};
ghost use Rattle.sm_forms.specs.PutResourcePolicy.{put_policy_members, put_policy_forms};

use crate::members::{first_refusal, form_unless};
use crate::policies::{policy_flaw, policy_form};
use sm_base::spelled::is_secret_id;
use sm_model::{PutResourcePolicy, Why};
use std::alloc::Global;

/// The first form that fails, or the first fault of a text that is no policy, or `Why::Memory` where there is no memory
/// to read it.
pub fn put_policy_forms(alloc: Global, put: &PutResourcePolicy) -> Option<Why>
    ensures { OrNoMemory result (put_policy_forms put.now) }
{
    match put_policy_members(put) {
        Some(why) => Some(why),
        None => policy_flaw(alloc, &put.resource_policy),
    }
}

/// The first member that is not in its form.
fn put_policy_members(put: &PutResourcePolicy) -> Option<Why>
    ensures { result ≡ put_policy_members put.now }
{
    first_refusal!(
        policy_form(&put.resource_policy),
        form_unless(is_secret_id(put.secret_id.as_bytes()), "SecretId"),
    )
}
