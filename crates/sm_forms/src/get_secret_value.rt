//! The forms of GetSecretValue (AWS Secrets Manager API Reference, GetSecretValue).
ghost use Rattle.std.specs.Prelude.{◌≡◌};
ghost use Rattle.sm_forms.specs.GetSecretValue.{get_forms};

use crate::members::{first_refusal, form_unless, label_form, token_form};
use sm_base::spelled::is_secret_id;
use sm_model::{GetSecretValue, Why};

/// The first form that fails.
pub fn get_forms(get: &GetSecretValue) -> Option<Why>
    ensures { result ≡ get_forms get.now }
{
    first_refusal!(
        form_unless(is_secret_id(get.secret_id.as_bytes()), "SecretId"),
        token_form(&get.version_id, "VersionId"),
        label_form(&get.version_stage, "VersionStage"),
    )
}
