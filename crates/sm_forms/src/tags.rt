//! The form of tags (AWS Secrets Manager API Reference, Tag).
ghost use Rattle.std.specs.Prelude.{◌≡◌};
ghost use Rattle.std.specs.List.{list_all};
ghost use Rattle.sm_model.specs.Bounds.{is_tag_key, is_tag};
ghost use Rattle.sm_forms.specs.Members.{are_tags, tags_form};

use crate::key_order::each_key_once;
use crate::members::form_unless;
use sm_base::limits::{TAG_KEY_LIMIT, TAG_VALUE_LIMIT};
use sm_base::text::{characters, has_at_most};
use sm_model::{List, Tag, Text, Why};

/// Whether a text may be a tag's key: it is not empty, not too long, and not one of AWS's own.
#[tactic(auto, unfolding(sm_model::specs::Bounds::reserved_beginning))]
fn is_tag_key(key: &Text) -> bool
    ensures { result ≡ is_tag_key key.now }
{
    1 <= characters(key) && has_at_most(key, TAG_KEY_LIMIT) && !key.as_bytes().starts_with(b"aws:")
}

fn is_tag(tag: &Tag) -> bool
    ensures { result ≡ is_tag tag.now }
{
    is_tag_key(&tag.key) && has_at_most(&tag.value, TAG_VALUE_LIMIT)
}

/// Whether each of the tags is in its form.
fn each_is_tag(tags: &[Tag]) -> bool
    ensures { result ≡ list_all is_tag tags.now }
{
    tags.iter().all(|tag| is_tag(tag))
}

/// Whether the tags are in their form, all of them together.
#[tactic(auto, using(crate::proofs::TagLemmas::each_tag_is))]
pub fn are_tags(tags: &[Tag]) -> bool
    ensures { result ≡ are_tags tags.now }
{
    each_is_tag(tags) && each_key_once(tags)
}

/// The form of the tags that a secret is to have.
pub fn tags_form(tags: &Option<List<Tag>>) -> Option<Why>
    ensures { result ≡ tags_form tags.now }
{
    match tags {
        Some(tags) => form_unless(are_tags(tags.as_slice()), "Tags"),
        None => None,
    }
}
