//! Labels moved from version to version (AWS Secrets Manager API Reference, UpdateSecretVersionStage).
ghost use Rattle.std.specs.Prelude.{◌≡◌, ◌⊎◌, IfOk, IsSome, option_copied, if◌then◌else◌};
ghost use Rattle.sm_base.specs.Outcomes.{OrMemory};
ghost use Rattle.sm_model.specs.Labels.{aws_current, holder};
ghost use Rattle.sm_versions.specs.Move.{missing, may_move, move_placed, move_onto, move_to, move_held, move_answer, move_pairs, move_row, is_moved, is_done, move_told};
ghost use Rattle.sm_versions.specs.Kept.{KeptUnsettled};

use crate::labels::{holder, is_current, is_same_id};
use crate::placing::{place, remove};
use crate::values::has_too_many;
use crate::versions::{has_value, has_version};
use sm_base::limits::LABELS_LIMIT;
use sm_model::{Copied, Label, List, NoMemory, Pair, SecretRow, SharedList, Token, VersionRow};
use std::alloc::Global;

/// What a move of a label did.
#[derive(Drop)]
pub enum Moved {
    Ok,
    /// No version has this id.
    NotThere(Token),
    /// The label is held by this version, or by none.
    HeldBy(Option<Token>),
    /// AWSCURRENT can be moved but not removed.
    KeepsCurrent,
    /// The version has no value, and can't be current.
    Empty(Token),
    /// The secret would have more labels than this many besides AWSCURRENT, AWSPREVIOUS and AWSPENDING.
    TooManyLabels(u64),
    Memory,
}

/// The id, where it is given and names no version.
fn missing_id<'a>(versions: &SharedList<VersionRow>, id: Option<&'a Token>) -> Option<&'a Token>
    ensures { option_copied result ≡ missing versions.now (option_copied id.entry) }
{
    match id {
        Some(id) => {
            if has_version(versions, id) {
                None
            } else {
                Some(id)
            }
        }
        None => None,
    }
}

/// Whether the source is the holder, or without a source no other version than the target holds the label.
fn may_move(held: Option<&Token>, to: Option<&Token>, from: Option<&Token>) -> bool
    ensures { result ≡ may_move (option_copied held.entry) (option_copied to.entry) (option_copied from.entry) }
{
    match (held, from) {
        (Some(held), Some(from)) => is_same_id(held, from),
        (None, Some(_)) => false,
        (Some(held), None) => match to {
            Some(to) => is_same_id(held, to),
            None => false,
        },
        (None, None) => true,
    }
}

/// The pairs with the label placed on the target, or without it.
fn moved_pairs(
    alloc: Global,
    pairs: &List<Pair>,
    label: &Label,
    to: Option<&Token>,
) -> Result<List<Pair>, NoMemory>
    ensures { IfOk result (λ moved. moved ≡ move_pairs pairs.now label.now (option_copied to.entry)) }
{
    let mut moved = pairs.copy(alloc)?.into_vec();
    match to {
        Some(to) => place(alloc, &mut moved, label, to)?,
        None => remove(&mut moved, label),
    }
    Ok(List::new(moved))
}

/// The last test, on the pairs after placing.
fn accept_within_limit(pairs: &List<Pair>) -> Moved
    ensures { result ≡ move_placed pairs.now }
{
    if has_too_many(pairs.as_slice()) {
        Moved::TooManyLabels(LABELS_LIMIT)
    } else {
        Moved::Ok
    }
}

/// Places the label on the target, where the target may have it.
fn move_onto(
    alloc: Global,
    row: &mut SecretRow,
    label: &Label,
    to: &Token,
) -> Result<Moved, NoMemory>
    ensures answer { IfOk result (λ moved. moved ≡ move_onto row.old label.now to.now) }
    ensures row { row.new ≡ (if is_done result then move_row row.old label.now (Some to.now) else row.old) }
{
    if is_current(label) && !has_value(&row.versions, to) {
        return Ok(Moved::Empty(to.copy(alloc)?));
    }
    let pairs = moved_pairs(alloc, &row.labels, label, Some(to))?;
    let moved = accept_within_limit(&pairs);
    if let Moved::Ok = moved {
        row.labels = pairs;
    }
    Ok(moved)
}

/// Takes the label off, where it may be taken off.
fn take_off(alloc: Global, row: &mut SecretRow, label: &Label) -> Result<Moved, NoMemory>
    ensures answer { IfOk result (λ moved. moved ≡ move_to row.old label.now None) }
    ensures row { row.new ≡ (if is_done result then move_row row.old label.now None else row.old) }
{
    if is_current(label) {
        return Ok(Moved::KeepsCurrent);
    }
    row.labels = moved_pairs(alloc, &row.labels, label, None)?;
    Ok(Moved::Ok)
}

/// Whether the label may move, by the version that has it.
fn may_leave(row: &SecretRow, label: &Label, to: Option<&Token>, from: Option<&Token>) -> bool
    ensures { result ≡ may_move (holder row.now.labels label.now) (option_copied to.entry) (option_copied from.entry) }
{
    may_move(holder(row.labels.as_slice(), label), to, from)
}

/// The answer that names the version that has the label.
fn held_by(alloc: Global, pairs: &List<Pair>, label: &Label) -> Result<Moved, NoMemory>
    ensures { IfOk result (λ moved. moved ≡ Moved.HeldBy (holder pairs.now label.now)) }
{
    match holder(pairs.as_slice(), label) {
        Some(held) => Ok(Moved::HeldBy(Some(held.copy(alloc)?))),
        None => Ok(Moved::HeldBy(None)),
    }
}

/// Moves the label between versions that are there.
fn move_between(
    alloc: Global,
    row: &mut SecretRow,
    label: &Label,
    to: Option<&Token>,
    from: Option<&Token>,
) -> Result<Moved, NoMemory>
    ensures answer { IfOk result
        (λ moved. moved ≡ move_held row.old label.now (option_copied to.entry) (option_copied from.entry)) }
    ensures row { row.new ≡ (if is_done result then move_row row.old label.now (option_copied to.entry) else row.old) }
{
    if !may_leave(row, label, to, from) {
        return held_by(alloc, &row.labels, label);
    }
    match to {
        Some(to) => move_onto(alloc, row, label, to),
        None => take_off(alloc, row, label),
    }
}

/// The same as `move_label`.
fn try_move(
    alloc: Global,
    row: &mut SecretRow,
    label: &Label,
    to: Option<&Token>,
    from: Option<&Token>,
) -> Result<Moved, NoMemory>
    ensures answer { IfOk result
        (λ moved. moved ≡ move_answer row.old label.now (option_copied to.entry) (option_copied from.entry)) }
    ensures row { row.new ≡ (if is_done result then move_row row.old label.now (option_copied to.entry) else row.old) }
{
    if let Some(id) = missing_id(&row.versions, from) {
        return Ok(Moved::NotThere(id.copy(alloc)?));
    }
    if let Some(id) = missing_id(&row.versions, to) {
        return Ok(Moved::NotThere(id.copy(alloc)?));
    }
    move_between(alloc, row, label, to, from)
}

/// Moves a label to the version `to`, or takes it off, from the version `from`, or without one from nobody or from
/// `to` itself.
pub fn move_label(
    alloc: Global,
    row: &mut SecretRow,
    label: &Label,
    to: Option<&Token>,
    from: Option<&Token>,
) -> Moved
    requires { IsSome to ⊎ IsSome from }
    ensures answer { OrMemory (move_told result)
        (move_answer row.old label.now (option_copied to.entry) (option_copied from.entry)) }
    ensures row { row.new ≡ (if is_moved result then move_row row.old label.now (option_copied to.entry) else row.old) }
    ensures kept { KeptUnsettled row.old → KeptUnsettled row.new }
{
    match try_move(alloc, row, label, to, from) {
        Ok(moved) => moved,
        Err(NoMemory) => Moved::Memory,
    }
}
