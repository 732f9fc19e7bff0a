//! The forms of CreateSecret (AWS Secrets Manager API Reference, CreateSecret).
ghost use Rattle.std.specs.Prelude.{◌≡◌};
ghost use Rattle.sm_forms.specs.CreateSecret.{create_value, create_texts, create_forms};

use crate::members::{
    bytes_form, description_form, first_refusal, form_unless, has_both, token_form, value_form,
};
use crate::tags::tags_form;
use sm_base::spelled::is_name;
use sm_model::{CreateSecret, Why};
use sm_versions::regions::are_regions;

/// The first form or joint test that fails.
pub fn create_forms(create: &CreateSecret) -> Option<Why>
    ensures { result ≡ create_forms create.now }
{
    first_refusal!(
        form_unless(are_regions(create.regions.as_slice()), "AddReplicaRegions"),
        create_texts(create),
    )
}

/// The forms of the token, the descriptions and the name, and then those of the value.
fn create_texts(create: &CreateSecret) -> Option<Why>
    ensures { result ≡ create_texts create.now }
{
    first_refusal!(
        token_form(&create.client_request_token, "ClientRequestToken"),
        description_form(&create.description, "Description"),
        description_form(&create.kms_key_id, "KmsKeyId"),
        form_unless(is_name(create.name.as_bytes()), "Name"),
        create_value(create),
    )
}

/// The forms of the value and of the tags, and then that a text and bytes are not both given.
fn create_value(create: &CreateSecret) -> Option<Why>
    ensures { result ≡ create_value create.now }
{
    first_refusal!(
        bytes_form(&create.secret_binary, "SecretBinary"),
        value_form(&create.secret_string, "SecretString"),
        tags_form(&create.tags),
        form_unless(
            !has_both(&create.secret_string, &create.secret_binary),
            "SecretString"
        ),
    )
}
