//! The forms of UpdateSecret (AWS Secrets Manager API Reference, UpdateSecret).
ghost use Rattle.std.specs.Prelude.{◌≡◌};
ghost use Rattle.sm_forms.specs.UpdateSecret.{update_value, update_forms};

use crate::members::{
    bytes_form, description_form, first_refusal, form_unless, has_both, token_form, value_form,
};
use sm_base::spelled::is_secret_id;
use sm_model::{UpdateSecret, Why};

/// The first form or joint test that fails.
pub fn update_forms(update: &UpdateSecret) -> Option<Why>
    ensures { result ≡ update_forms update.now }
{
    first_refusal!(
        token_form(&update.client_request_token, "ClientRequestToken"),
        description_form(&update.description, "Description"),
        description_form(&update.kms_key_id, "KmsKeyId"),
        update_value(update),
    )
}

/// The forms of the value and of the secret, and then that a text and bytes are not both given.
fn update_value(update: &UpdateSecret) -> Option<Why>
    ensures { result ≡ update_value update.now }
{
    first_refusal!(
        bytes_form(&update.secret_binary, "SecretBinary"),
        form_unless(is_secret_id(update.secret_id.as_bytes()), "SecretId"),
        value_form(&update.secret_string, "SecretString"),
        form_unless(
            !has_both(&update.secret_string, &update.secret_binary),
            "SecretString"
        ),
    )
}
