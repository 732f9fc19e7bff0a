//! The forms of TagResource (AWS Secrets Manager API Reference, TagResource).
ghost use Rattle.std.specs.Prelude.{◌≡◌};
ghost use Rattle.sm_forms.specs.TagResource.{tag_forms};

use crate::members::{first_refusal, form_unless};
use crate::tags::are_tags;
use sm_base::spelled::is_secret_id;
use sm_model::{TagResource, Why};

/// The first form that fails.
pub fn tag_forms(tag: &TagResource) -> Option<Why>
    ensures { result ≡ tag_forms tag.now }
{
    first_refusal!(
        form_unless(is_secret_id(tag.secret_id.as_bytes()), "SecretId"),
        form_unless(are_tags(tag.tags.as_slice()), "Tags"),
    )
}
