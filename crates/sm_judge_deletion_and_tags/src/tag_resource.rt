//! Judging TagResource (AWS Secrets Manager API Reference, TagResource).
ghost use Rattle.std.specs.Prelude.{◌≡◌, IfOk, IsTrue, OnOk, None};
ghost use Rattle.std.specs.List.{position};
ghost use Rattle.sm_forms.specs.TagResource.{tag_forms};
ghost use Rattle.sm_versions.specs.Sound.{tag_keys};
ghost use Rattle.sm_versions.specs.Texts.{once};
ghost use Rattle.sm_base.specs.Texts.{same_text};
ghost use Rattle.sm_judge_deletion_and_tags.specs.TagResource.{with_tag, with_tags, has_too_many_tags, tag_on, tag_within_limit, tag_judgement};

use sm_base::limits::TAGS_LIMIT;
use sm_base::list::copies;
use sm_judge_common::Judged;
use sm_judge_common::members::secret_id;
use sm_judge_common::row_change::finish;
use sm_judge_common::standing::standing;
use sm_model::{
    Change, Copied, List, NoMemory, Reply, SecretRow, Tag, TagResource, Text, What, Why,
};
use sm_table::Table;
use sm_versions::When;
use std::alloc::Global;

/// Judges a TagResource.
#[tactic(auto, using(sm_forms::proofs::TagResourceLemmas::tag_id, crate::proofs::TagResourceLemmas::given_once, sm_judge_common::proofs::JudgedLemmas::judged_of_standing, sm_judge_common::proofs::JudgedLemmas::refused_unless_standing))]
pub fn judge_tag(
    alloc: Global,
    table: &Table,
    when: When,
    tag: &TagResource,
) -> Result<Judged, NoMemory>
    requires { tag_forms tag.now ≡ None }
    ensures { IfOk result (λ judged. judged ≡ tag_judgement table.now when tag.now) }
{
    let id = secret_id(alloc, &tag.secret_id)?;
    match standing(table, &id, when.moment) {
        Ok(row) => tag_on(alloc, row, when, tag.tags.as_slice()),
        Err(why) => Ok(Judged::Refuse(why)),
    }
}

// ---- the tests

/// Tags the secret of this row, where it has few enough tags then. As no key is given twice, more tags than a secret
/// may have are refused before any is copied.
#[tactic(auto, using(crate::proofs::TagResourceLemmas::many_refuse))]
fn tag_on(alloc: Global, row: &SecretRow, when: When, given: &[Tag]) -> Result<Judged, NoMemory>
    requires { IsTrue (once (tag_keys given.now)) }
    ensures { IfOk result (λ judged. judged ≡ tag_on row.now when given.now) }
{
    if given.len() > TAGS_LIMIT as usize {
        return Ok(Judged::Refuse(Why::Limit(TAGS_LIMIT, What::Tags)));
    }
    tag_with(alloc, row, when, given)
}

/// Puts the tags beside those that the secret has, where it has few enough tags then.
fn tag_with(alloc: Global, row: &SecretRow, when: When, given: &[Tag]) -> Result<Judged, NoMemory>
    ensures { IfOk result (λ judged. judged ≡ tag_on row.now when given.now) }
{
    let tags = with_tags(alloc, row.tags.as_slice(), given)?;
    if has_too_many_tags(&tags) {
        return Ok(Judged::Refuse(Why::Limit(TAGS_LIMIT, What::Tags)));
    }
    tag_within_limit(alloc, row, when, tags)
}

/// Whether there are more tags than a secret may have.
fn has_too_many_tags(tags: &List<Tag>) -> bool
    ensures { result ≡ has_too_many_tags tags.now }
{
    tags.len() > TAGS_LIMIT as usize
}

/// Puts the tags into a copy of the row.
fn tag_within_limit(
    alloc: Global,
    row: &SecretRow,
    when: When,
    tags: List<Tag>,
) -> Result<Judged, NoMemory>
    ensures { IfOk result (λ judged. judged ≡ tag_within_limit row.now when tags) }
{
    let mut after = row.copy(alloc)?;
    after.tags = tags;
    finish(&mut after, when);
    Judged::changes(alloc, Reply::TagResource, Change::Replace(after))
}

// ---- the tags

/// Whether both texts are the same key.
pub fn is_same_key(key: &Text, other: &Text) -> bool
    ensures { result ≡ same_text key.now other.now }
{
    key.equals(other)
}

/// The place of the tag with this key.
fn place_of(tags: &[Tag], key: &Text) -> Option<usize>
    ensures { result ≡ position (λ tag. same_text tag.key key.now) tags.now }
{
    tags.iter().position(|tag| is_same_key(&tag.key, key))
}

/// Gives a tag: its value to the one with its key, or itself behind the others.
fn put_tag(alloc: Global, tags: &mut Vec<Tag>, tag: &Tag) -> Result<(), NoMemory>
    ensures { OnOk result (tags.new.items ≡ with_tag tags.old.items tag.now) }
{
    match place_of(tags.as_slice(), &tag.key) {
        Some(place) => {
            let value = tag.value.copy(alloc)?;
            tags[place].value = value;
            Ok(())
        }
        None => {
            tags.push(tag.copy(alloc)?)?;
            Ok(())
        }
    }
}

/// The tags of a secret with those that are given.
fn with_tags(alloc: Global, kept: &[Tag], given: &[Tag]) -> Result<List<Tag>, NoMemory>
    ensures { IfOk result (λ tags. tags ≡ with_tags kept.now given.now) }
{
    let mut tags = copies(alloc, kept)?;
    for tag in given {
        put_tag(alloc, &mut tags, tag)?;
    }
    Ok(List::new(tags))
}
