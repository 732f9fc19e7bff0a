//! Placing labels on versions.
ghost use Rattle.std.specs.Prelude.{◌≡◌, IfOk, OnOk};
ghost use Rattle.sm_versions.specs.Texts.{is_among};
ghost use Rattle.sm_model.specs.Labels.{aws_current, holder};
ghost use Rattle.sm_versions.specs.Labels.{without, moved, with_previous, with_current, place, place_each, others, firsts, place_all};

use crate::labels::{current, holder, is_among, is_current, is_same, is_same_id, previous};
use sm_model::{Copied, Label, NoMemory, Pair, Token};
use std::alloc::Global;

/// Drops the label's pairs.
pub fn remove(pairs: &mut Vec<Pair>, label: &Label)
    ensures { pairs.new.items ≡ without pairs.old.items label.now }
{
    pairs.retain(|pair| !is_same(&pair.label, label));
}

/// Drops the label's pairs, and adds the label with the version at the end.
fn move_to(alloc: Global, pairs: &mut Vec<Pair>, label: &Label, id: &Token) -> Result<(), NoMemory>
    ensures { OnOk result (pairs.new.items ≡ moved pairs.old.items label.now id.now) }
{
    let pair = Pair {
        label: label.copy(alloc)?,
        id: id.copy(alloc)?,
    };
    remove(pairs, label);
    pairs.push(pair)?;
    Ok(())
}

/// A copy of the id of the version that has AWSCURRENT.
fn holder_of_current(alloc: Global, pairs: &[Pair]) -> Result<Option<Token>, NoMemory>
    ensures { IfOk result (λ held. held ≡ holder pairs.now aws_current) }
{
    match holder(pairs, &current()) {
        Some(held) => Ok(Some(held.copy(alloc)?)),
        None => Ok(None),
    }
}

/// Whether AWSCURRENT is one of these.
fn has_current(labels: &[Label]) -> bool
    ensures { result ≡ is_among labels.now aws_current }
{
    is_among(labels, &current())
}

/// Places AWSCURRENT on a version, and AWSPREVIOUS on another one that held it.
fn place_current(alloc: Global, pairs: &mut Vec<Pair>, id: &Token) -> Result<(), NoMemory>
    ensures { OnOk result (pairs.new.items ≡ with_current pairs.old.items id.now) }
{
    let held = holder_of_current(alloc, pairs.as_slice())?;
    move_to(alloc, pairs, &current(), id)?;
    place_previous(alloc, pairs, &held, id)
}

/// Places AWSPREVIOUS on the version that held AWSCURRENT, where it is another than `id`.
fn place_previous(
    alloc: Global,
    pairs: &mut Vec<Pair>,
    held: &Option<Token>,
    id: &Token,
) -> Result<(), NoMemory>
    ensures { OnOk result (pairs.new.items ≡ with_previous pairs.old.items held.now id.now) }
{
    match held {
        Some(held) => {
            if is_same_id(held, id) {
                Ok(())
            } else {
                move_to(alloc, pairs, &previous(), held)
            }
        }
        None => Ok(()),
    }
}

/// Places a label on a version. Without memory some of it may be done.
pub fn place(
    alloc: Global,
    pairs: &mut Vec<Pair>,
    label: &Label,
    id: &Token,
) -> Result<(), NoMemory>
    ensures { OnOk result (pairs.new.items ≡ place pairs.old.items label.now id.now) }
{
    if is_current(label) {
        place_current(alloc, pairs, id)
    } else {
        move_to(alloc, pairs, label, id)
    }
}

/// Places the labels but AWSCURRENT on a version, in the order of their first occurrence.
fn place_others(
    alloc: Global,
    pairs: &mut Vec<Pair>,
    labels: &[Label],
    id: &Token,
) -> Result<(), NoMemory>
    ensures { OnOk result
        (pairs.new.items ≡ place_each pairs.old.items (others (firsts labels.now) aws_current) id.now) }
{
    for (i, label) in labels.iter().enumerate() {
        if !is_current(label) && !is_among(&labels[..i], label) {
            place(alloc, pairs, label, id)?;
        }
    }
    Ok(())
}

/// Places labels on a version, AWSCURRENT last. Without memory some of it may be done.
#[tactic(auto, using(crate::proofs::LabelLemmas::place_all_is))]
pub fn place_all(
    alloc: Global,
    pairs: &mut Vec<Pair>,
    labels: &[Label],
    id: &Token,
) -> Result<(), NoMemory>
    ensures { OnOk result (pairs.new.items ≡ place_all pairs.old.items labels.now id.now) }
{
    place_others(alloc, pairs, labels, id)?;
    if has_current(labels) {
        place_current(alloc, pairs, id)
    } else {
        Ok(())
    }
}
