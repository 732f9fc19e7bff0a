//! The forms of UntagResource (AWS Secrets Manager API Reference, UntagResource).
ghost use Rattle.std.specs.Prelude.{◌≡◌};
ghost use Rattle.std.specs.List.{list_all};
ghost use Rattle.sm_forms.specs.UntagResource.{is_untag_key, are_untag_keys, untag_forms};

use crate::members::{first_refusal, form_unless};
use sm_base::limits::{TAG_KEY_LIMIT, TAGS_LIMIT};
use sm_base::spelled::is_secret_id;
use sm_base::text::{characters, has_at_most};
use sm_model::{Text, UntagResource, Why};

/// The first form that fails.
pub fn untag_forms(untag: &UntagResource) -> Option<Why>
    ensures { result ≡ untag_forms untag.now }
{
    first_refusal!(
        form_unless(is_secret_id(untag.secret_id.as_bytes()), "SecretId"),
        form_unless(are_untag_keys(untag.tag_keys.as_slice()), "TagKeys"),
    )
}

/// Whether a text is as long as the key of a tag may be.
fn is_untag_key(key: &Text) -> bool
    ensures { result ≡ is_untag_key key.now }
{
    1 <= characters(key) && has_at_most(key, TAG_KEY_LIMIT)
}

/// Whether each of the texts is as long as the key of a tag may be.
fn each_is_untag_key(keys: &[Text]) -> bool
    ensures { result ≡ list_all is_untag_key keys.now }
{
    keys.iter().all(|key| is_untag_key(key))
}

/// Whether there are at most 50 keys, each in its form.
fn are_untag_keys(keys: &[Text]) -> bool
    ensures { result ≡ are_untag_keys keys.now }
{
    keys.len() <= TAGS_LIMIT as usize && each_is_untag_key(keys)
}
