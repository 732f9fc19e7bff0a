//! Labels as they are shown: in ascending byte order.
ghost use Rattle.std.specs.Prelude.{◌≡◌, ◌+◌, ◌<◌, ◌≤◌, IfOk, OnOk, length, vec_len};
ghost use Rattle.std.specs.List.{position, position_or_len};
ghost use Rattle.sm_judge_common.specs.LabelsShown.{text_le, inserted, sorted, labels_shown, Ascending, SameCounts};
ghost use Rattle.sm_versions.specs.Labels.{labels_on};

use sm_model::{Copied, Label, List, NoMemory, SecretRow, Token};
use sm_versions::labels::labels_on;
use std::alloc::Global;

/// Whether the first label may stand before the second.
fn is_before(label: &Label, other: &Label) -> bool
    ensures { result ≡ text_le label.now other.now }
{
    label
        .as_text()
        .as_str()
        .cmp(other.as_text().as_str())
        .is_le()
}

/// The place of the first label that this one may stand before.
fn first_after(labels: &[Label], label: &Label) -> Option<usize>
    ensures { result ≡ position (λ other. text_le label.now other) labels.now }
{
    labels.iter().position(|other| is_before(label, other))
}

/// The place of the first label that this one may stand before, or the end.
#[tactic(auto, using(crate::proofs::SortingLemmas::place_found))]
fn place_of(labels: &[Label], label: &Label) -> usize
    ensures { result ≡ position_or_len (λ other. text_le label.now other) labels.now }
{
    match first_after(labels, label) {
        Some(place) => place,
        None => labels.len(),
    }
}

/// Puts a label into its place.
fn insert(labels: &mut Vec<Label>, label: Label) -> Result<(), NoMemory>
    ensures { OnOk result (labels.new.items ≡ inserted label labels.old.items) }
{
    let place = place_of(labels.as_slice(), &label);
    labels.insert(place, label)?;
    Ok(())
}

/// The labels in ascending byte order.
fn sorted(alloc: Global, labels: &[Label]) -> Result<Vec<Label>, NoMemory>
    ensures { IfOk result (λ list. list.items ≡ sorted labels.now) }
{
    match labels {
        [] => Ok(Vec::new(alloc)),
        [first, rest @ ..] => {
            let mut list = sorted(alloc, rest)?;
            insert(&mut list, first.copy(alloc)?)?;
            Ok(list)
        }
    }
}

/// The labels on a version in ascending byte order, each as often as it stands there.
#[tactic(auto, using(crate::proofs::SortingLaws::shown_ascend, crate::proofs::SortingLaws::shown_counts))]
pub fn labels_shown(alloc: Global, row: &SecretRow, id: &Token) -> Result<List<Label>, NoMemory>
    ensures shown { IfOk result (λ labels. labels ≡ labels_shown row.now id.now) }
    ensures ascend { IfOk result (λ labels. Ascending labels) }
    ensures counts { IfOk result (λ labels. SameCounts labels (labels_on row.now.labels id.now)) }
{
    sorted_on(alloc, row, id)
}

/// The labels on a version, sorted.
fn sorted_on(alloc: Global, row: &SecretRow, id: &Token) -> Result<List<Label>, NoMemory>
    ensures { IfOk result (λ labels. labels ≡ labels_shown row.now id.now) }
{
    let labels = labels_on(alloc, row.labels.as_slice(), id)?;
    Ok(List::new(sorted(alloc, labels.as_slice())?))
}
