//! The forms of PutSecretValue (AWS Secrets Manager API Reference, PutSecretValue).
ghost use Rattle.std.specs.Prelude.{◌≡◌};
ghost use Rattle.sm_forms.specs.PutSecretValue.{put_forms};

use crate::members::{
    bytes_form, first_refusal, form_unless, has_one, labels_form, token_form, value_form,
};
use sm_base::spelled::is_secret_id;
use sm_model::{PutSecretValue, Why};

/// The first form or joint test that fails.
pub fn put_forms(put: &PutSecretValue) -> Option<Why>
    ensures { result ≡ put_forms put.now }
{
    first_refusal!(
        token_form(&put.client_request_token, "ClientRequestToken"),
        bytes_form(&put.secret_binary, "SecretBinary"),
        form_unless(is_secret_id(put.secret_id.as_bytes()), "SecretId"),
        value_form(&put.secret_string, "SecretString"),
        labels_form(&put.version_stages),
        form_unless(
            has_one(&put.secret_string, &put.secret_binary),
            "SecretString"
        ),
    )
}
