//! Whether the labels of a secret are on its versions (AWS Secrets Manager User Guide, "Secret versions").
ghost use Rattle.std.specs.Prelude.{◌≡◌, ◌||◌, IfOk};
ghost use Rattle.std.specs.List.{list_all};
ghost use Rattle.sm_model.specs.Labels.{aws_current, holder};
ghost use Rattle.sm_model.specs.Versions.{has_version};
ghost use Rattle.sm_versions.specs.Kept.{has_none, has_current_value, pairs_named};
ghost use Rattle.sm_base_check.specs.Tests.{labels_fit};

use crate::differ::all_differ;
use sm_base::limits::LABELS_LIMIT;
use sm_model::{List, NoMemory, Pair, SecretRow, SharedList, VersionRow};
use sm_versions::labels::{current, holder, own_count};
use sm_versions::versions::{has_value, has_version};
use std::alloc::Global;

/// Whether a secret may have these labels: they are not too many, and no label stands twice.
#[tactic(auto, using(crate::proofs::LabelLemmas::labels_once_is))]
pub fn labels_fit(alloc: Global, pairs: &List<Pair>) -> Result<bool, NoMemory>
    ensures { IfOk result (λ fit. fit ≡ labels_fit pairs.now) }
{
    if own_count(pairs.as_slice()) > LABELS_LIMIT as usize {
        return Ok(false);
    }
    all_differ(alloc, pairs)
}

/// Whether each of the pairs names one of the versions.
fn each_named(versions: &SharedList<VersionRow>, pairs: &[Pair]) -> bool
    ensures { result ≡ list_all (λ p. has_version versions.now p.id) pairs.now }
{
    pairs.iter().all(|pair| has_version(versions, &pair.id))
}

/// Whether each label of the secret is on one of its versions.
#[tactic(auto, using(crate::proofs::LabelLemmas::pairs_named_is))]
pub fn are_named(row: &SecretRow) -> bool
    ensures { result ≡ pairs_named row.now.versions row.now.labels }
{
    each_named(&row.versions, row.labels.as_slice())
}

/// Whether AWSCURRENT has a holder that has a value.
fn has_current_value(row: &SecretRow) -> bool
    ensures { result ≡ has_current_value row.now }
{
    match holder(row.labels.as_slice(), &current()) {
        Some(id) => has_value(&row.versions, id),
        None => false,
    }
}

/// Whether there is no version, or one that is current and has a value.
pub fn is_current_kept(row: &SecretRow) -> bool
    ensures { result ≡ (has_none row.now.versions || has_current_value row.now) }
{
    row.versions.len() == 0 || has_current_value(row)
}
