//! Labels and the versions that they are on.
ghost use Rattle.std.specs.Prelude.{◌≡◌, IfOk, option_copied};
ghost use Rattle.std.specs.List.{find};
ghost use Rattle.sm_versions.specs.Texts.{is_among, is_aws};
ghost use Rattle.sm_base.specs.Texts.{same_text};
ghost use Rattle.sm_model.specs.Labels.{aws_current, aws_previous, aws_pending, holder, is_held_by};
ghost use Rattle.sm_versions.specs.Labels.{labels_on, own_count};

use sm_model::{Copied, Label, List, NoMemory, Pair, Text, Token};
use std::alloc::Global;

/// AWSCURRENT. It takes no memory.
#[tactic(auto, unfolding(sm_model::specs::Labels::aws_current))]
pub fn current() -> Label
    ensures { result ≡ aws_current }
{
    Label::new(Text::fixed("AWSCURRENT"))
}

/// AWSPREVIOUS. It takes no memory.
#[tactic(auto, unfolding(sm_model::specs::Labels::aws_previous))]
pub fn previous() -> Label
    ensures { result ≡ aws_previous }
{
    Label::new(Text::fixed("AWSPREVIOUS"))
}

/// AWSPENDING. It takes no memory.
#[tactic(auto, unfolding(sm_model::specs::Labels::aws_pending))]
pub fn pending() -> Label
    ensures { result ≡ aws_pending }
{
    Label::new(Text::fixed("AWSPENDING"))
}

/// Whether both texts are the same label.
pub fn is_same(label: &Label, other: &Label) -> bool
    ensures { result ≡ same_text label.now other.now }
{
    label.equals(other)
}

/// Whether the label is AWSCURRENT.
pub fn is_current(label: &Label) -> bool
    ensures { result ≡ same_text label.now aws_current }
{
    is_same(label, &current())
}

/// Whether the label is AWSPREVIOUS.
pub fn is_previous(label: &Label) -> bool
    ensures { result ≡ same_text label.now aws_previous }
{
    is_same(label, &previous())
}

/// Whether the label is AWSPENDING.
pub fn is_pending(label: &Label) -> bool
    ensures { result ≡ same_text label.now aws_pending }
{
    is_same(label, &pending())
}

/// Whether the label is AWSCURRENT, AWSPREVIOUS or AWSPENDING.
#[tactic(auto, unfolding(crate::specs::Texts::is_aws))]
fn is_aws(label: &Label) -> bool
    ensures { result ≡ is_aws label.now }
{
    is_current(label) || is_previous(label) || is_pending(label)
}

/// Whether the label is one of these.
pub fn is_among(labels: &[Label], label: &Label) -> bool
    ensures { result ≡ is_among labels.now label.now }
{
    labels.iter().any(|other| is_same(other, label))
}

/// The first pair with the label.
fn pair_of<'a>(pairs: &'a [Pair], label: &Label) -> Option<&'a Pair>
    ensures { option_copied result ≡ find (λ p. same_text p.label label.now) pairs.now }
{
    pairs.iter().find(|pair| is_same(&pair.label, label))
}

/// The version that has the label.
#[tactic(auto, using(crate::proofs::LabelLemmas::holder_is_find))]
pub fn holder<'a>(pairs: &'a [Pair], label: &Label) -> Option<&'a Token>
    ensures { option_copied result ≡ holder pairs.now label.now }
{
    match pair_of(pairs, label) {
        Some(pair) => Some(&pair.id),
        None => None,
    }
}

/// Whether both are the same version's id.
pub fn is_same_id(id: &Token, other: &Token) -> bool
    ensures { result ≡ same_text id.now other.now }
{
    id.equals(other)
}

/// Whether this version has the label.
pub fn is_held_by(pairs: &[Pair], label: &Label, id: &Token) -> bool
    ensures { result ≡ is_held_by (holder pairs.now label.now) id.now }
{
    match holder(pairs, label) {
        Some(held) => is_same_id(held, id),
        None => false,
    }
}

/// The labels on a version, in the order of the pairs.
pub fn labels_on(alloc: Global, pairs: &[Pair], id: &Token) -> Result<List<Label>, NoMemory>
    ensures { IfOk result (λ labels. labels ≡ labels_on pairs.now id.now) }
{
    let mut labels = Vec::new(alloc);
    for pair in pairs {
        if is_same_id(&pair.id, id) {
            labels.push(pair.label.copy(alloc)?)?;
        }
    }
    Ok(List::new(labels))
}

/// How many labels besides AWSCURRENT, AWSPREVIOUS and AWSPENDING there are.
#[tactic(auto, using(crate::proofs::LabelLemmas::own_count_is_count))]
pub fn own_count(pairs: &[Pair]) -> usize
    ensures { result ≡ own_count pairs.now }
{
    pairs.iter().filter(|pair| !is_aws(&pair.label)).count()
}
