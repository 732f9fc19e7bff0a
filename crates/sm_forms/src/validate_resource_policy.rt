//! The forms of ValidateResourcePolicy (AWS Secrets Manager API Reference, ValidateResourcePolicy).
ghost use Rattle.std.specs.Prelude.{◌≡◌, codes};
ghost use Rattle.sm_base.specs.Spelling.{is_secret_id};
ghost use Rattle.sm_forms.specs.Members.{form_of};
ghost use Rattle.sm_forms.specs.ValidateResourcePolicy.{validate_forms};

use crate::members::{first_refusal, form_unless};
use crate::policies::policy_form;
use sm_base::spelled::is_secret_id;
use sm_model::{Text, ValidateResourcePolicy, Why};

/// The first form that fails.
pub fn validate_forms(validate: &ValidateResourcePolicy) -> Option<Why>
    ensures { result ≡ validate_forms validate.now }
{
    first_refusal!(
        policy_form(&validate.resource_policy),
        id_form(&validate.secret_id),
    )
}

/// The form of a SecretId that need not be there.
fn id_form(id: &Option<Text>) -> Option<Why>
    ensures { result ≡ form_of is_secret_id (codes "SecretId") id.now }
{
    match id {
        Some(id) => form_unless(is_secret_id(id.as_bytes()), "SecretId"),
        None => None,
    }
}
