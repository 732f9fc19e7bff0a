//! Judging UntagResource (AWS Secrets Manager API Reference, UntagResource).
ghost use Rattle.std.specs.Prelude.{◌≡◌, IfOk, None};
ghost use Rattle.sm_forms.specs.UntagResource.{untag_forms};
ghost use Rattle.sm_versions.specs.Texts.{is_among};
ghost use Rattle.sm_judge_deletion_and_tags.specs.UntagResource.{without_tags, untag_on, untag_judgement};

use crate::tag_resource::is_same_key;
use sm_base::list::copies;
use sm_judge_common::Judged;
use sm_judge_common::members::secret_id;
use sm_judge_common::row_change::finish;
use sm_judge_common::standing::standing;
use sm_model::{Change, Copied, List, NoMemory, Reply, SecretRow, Tag, Text, UntagResource};
use sm_table::Table;
use sm_versions::When;
use std::alloc::Global;

/// Judges an UntagResource.
#[tactic(auto, using(sm_forms::proofs::UntagResourceLemmas::untag_id, sm_judge_common::proofs::JudgedLemmas::judged_of_standing, sm_judge_common::proofs::JudgedLemmas::refused_unless_standing))]
pub fn judge_untag(
    alloc: Global,
    table: &Table,
    when: When,
    untag: &UntagResource,
) -> Result<Judged, NoMemory>
    requires { untag_forms untag.now ≡ None }
    ensures { IfOk result (λ judged. judged ≡ untag_judgement table.now when untag.now) }
{
    let id = secret_id(alloc, &untag.secret_id)?;
    match standing(table, &id, when.moment) {
        Ok(row) => untag_on(alloc, row, when, untag.tag_keys.as_slice()),
        Err(why) => Ok(Judged::Refuse(why)),
    }
}

/// Takes tags off a copy of the row.
fn untag_on(alloc: Global, row: &SecretRow, when: When, keys: &[Text]) -> Result<Judged, NoMemory>
    ensures { IfOk result (λ judged. judged ≡ untag_on row.now when keys.now) }
{
    let tags = without_tags(alloc, row.tags.as_slice(), keys)?;
    let mut after = row.copy(alloc)?;
    after.tags = tags;
    finish(&mut after, when);
    Judged::changes(alloc, Reply::UntagResource, Change::Replace(after))
}

/// Whether the key is one of these.
fn is_among(keys: &[Text], key: &Text) -> bool
    ensures { result ≡ is_among keys.now key.now }
{
    keys.iter().any(|other| is_same_key(other, key))
}

/// Drops the tags whose keys are among these.
fn drop_tags(tags: &mut Vec<Tag>, keys: &[Text])
    ensures { tags.new.items ≡ without_tags tags.old.items keys.now }
{
    tags.retain(|tag| !is_among(keys, &tag.key));
}

/// A copy of the tags whose keys are none of these.
fn without_tags(alloc: Global, tags: &[Tag], keys: &[Text]) -> Result<List<Tag>, NoMemory>
    ensures { IfOk result (λ left. left ≡ without_tags tags.now keys.now) }
{
    let mut left = copies(alloc, tags)?;
    drop_tags(&mut left, keys);
    Ok(List::new(left))
}
