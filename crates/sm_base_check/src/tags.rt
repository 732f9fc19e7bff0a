//! Whether tags are in their form (AWS Secrets Manager API Reference, Tag).
ghost use Rattle.std.specs.Prelude.{◌≡◌, IfOk};
ghost use Rattle.std.specs.List.{list_all};
ghost use Rattle.sm_model.specs.Bounds.{is_tag_key, is_tag};
ghost use Rattle.sm_base_check.specs.Tests.{tags_fit};

use crate::differ::all_differ;
use sm_base::limits::{TAG_KEY_LIMIT, TAG_VALUE_LIMIT, TAGS_LIMIT};
use sm_base::text::{characters, has_at_most};
use sm_model::{List, NoMemory, Tag, Text};
use std::alloc::Global;

/// Whether a text may be a tag's key: it is not empty, not too long, and not one of AWS's own.
#[tactic(auto, unfolding(sm_model::specs::Bounds::reserved_beginning))]
fn is_tag_key(key: &Text) -> bool
    ensures { result ≡ is_tag_key key.now }
{
    1 <= characters(key) && has_at_most(key, TAG_KEY_LIMIT) && !key.as_bytes().starts_with(b"aws:")
}

fn is_tag(tag: &Tag) -> bool
    ensures { result ≡ is_tag tag.now }
{
    is_tag_key(&tag.key) && has_at_most(&tag.value, TAG_VALUE_LIMIT)
}

/// Whether each of the tags is in its form.
fn each_tag(tags: &[Tag]) -> bool
    ensures { result ≡ list_all is_tag tags.now }
{
    tags.iter().all(|tag| is_tag(tag))
}

/// Whether a secret may have these tags: they are not too many, each is in its form, and no key stands twice.
#[tactic(auto, using(crate::proofs::FieldLemmas::each_tag_is))]
pub fn tags_fit(alloc: Global, tags: &List<Tag>) -> Result<bool, NoMemory>
    ensures { IfOk result (λ fit. fit ≡ tags_fit tags.now) }
{
    if tags.len() > TAGS_LIMIT as usize {
        return Ok(false);
    }
    let differ = all_differ(alloc, tags)?;
    Ok(each_tag(tags.as_slice()) && differ)
}
