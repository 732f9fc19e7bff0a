//! A new value for a secret (AWS Secrets Manager API Reference, PutSecretValue).
ghost use Rattle.std.specs.Prelude.{◌≡◌, IsTrue, IfOk, if◌then◌else◌};
ghost use Rattle.sm_base.specs.Outcomes.{OrMemory};
ghost use Rattle.sm_versions.specs.Labels.{place_all, labels_on};
ghost use Rattle.sm_versions.specs.Put.{has_too_many, put_placed, put_new, put_answer, new_version, added_row, filled_row, put_row, is_added, is_done, put_told};
ghost use Rattle.sm_versions.specs.Kept.{KeptUnsettled, will_have_current};

use crate::labels::{labels_on, own_count};
use crate::placing::place_all;
use crate::pruning::is_full;
use crate::versions::{filled, is_same_value, version_of};
use crate::when::When;
use sm_base::limits::{LABELS_LIMIT, VERSIONS_LIMIT};
use sm_model::{Copied, Label, List, Moment, NoMemory, Pair, SecretRow, Token, Value, VersionRow};
use std::alloc::Global;

/// What a put did.
#[derive(Drop)]
pub enum PutDone {
    /// The value is in the version of the token, and the labels are on it.
    Added,
    /// The version of the token has this value already, and these labels.
    Same(List<Label>),
    /// The version of the token has another value.
    Exists,
    /// So many versions of the secret count, and no more may be added.
    TooMany(u64),
    /// The secret would have more labels than this many besides AWSCURRENT, AWSPREVIOUS and AWSPENDING.
    TooManyLabels(u64),
    Memory,
}

/// Whether there are more labels than a secret may have.
pub fn has_too_many(pairs: &[Pair]) -> bool
    ensures { result ≡ has_too_many pairs.now }
{
    own_count(pairs) > LABELS_LIMIT as usize
}

/// The pairs with all labels placed on the version.
fn place_on_copy(
    alloc: Global,
    pairs: &List<Pair>,
    labels: &[Label],
    id: &Token,
) -> Result<List<Pair>, NoMemory>
    ensures { IfOk result (λ placed. placed ≡ place_all pairs.now labels.now id.now) }
{
    let mut placed = pairs.copy(alloc)?.into_vec();
    place_all(alloc, &mut placed, labels, id)?;
    Ok(List::new(placed))
}

/// Gives the value to the empty version of the token.
fn fill_version(
    alloc: Global,
    row: &mut SecretRow,
    token: &Token,
    value: &Value,
    labels: &[Label],
) -> Result<PutDone, NoMemory>
    ensures answer { IfOk result (λ done. done ≡ put_placed (place_all row.old.labels labels.now token.now)) }
    ensures row { row.new ≡ (if is_done result then filled_row row.old token.now value.now labels.now else row.old) }
{
    let placed = place_on_copy(alloc, &row.labels, labels, token)?;
    if has_too_many(placed.as_slice()) {
        return Ok(PutDone::TooManyLabels(LABELS_LIMIT));
    }
    let value = value.copy(alloc)?;
    row.versions = filled(alloc, &row.versions, token, value)?;
    row.labels = placed;
    Ok(PutDone::Added)
}

/// A version with the value, to be added to the row.
fn new_version(
    alloc: Global,
    row: &SecretRow,
    token: &Token,
    value: &Value,
    moment: Moment,
) -> Result<VersionRow, NoMemory>
    ensures { IfOk result (λ version. version ≡ new_version row.now token.now value.now moment) }
{
    Ok(VersionRow {
        id: token.copy(alloc)?,
        serial: row.next_version,
        made: moment,
        value: Some(value.copy(alloc)?),
        rotated: None,
        by_rotation: false,
    })
}

/// Adds a version with the token as its id and the value.
fn add_version(
    alloc: Global,
    row: &mut SecretRow,
    token: &Token,
    value: &Value,
    labels: &[Label],
    when: When,
) -> Result<PutDone, NoMemory>
    ensures answer { IfOk result (λ done. done ≡ put_new row.old token.now labels.now when) }
    ensures row { row.new ≡
        (if is_done result then added_row row.old token.now value.now labels.now when.moment else row.old) }
{
    if is_full(row, when) {
        return Ok(PutDone::TooMany(VERSIONS_LIMIT));
    }
    let placed = place_on_copy(alloc, &row.labels, labels, token)?;
    if has_too_many(placed.as_slice()) {
        return Ok(PutDone::TooManyLabels(LABELS_LIMIT));
    }
    let version = new_version(alloc, row, token, value, when.moment)?;
    row.versions.push(alloc, version)?;
    row.next_version += 1;
    row.labels = placed;
    Ok(PutDone::Added)
}

/// The answer where the version of the token has a value already.
fn repeat(alloc: Global, row: &SecretRow, token: &Token, is_same: bool) -> Result<PutDone, NoMemory>
    ensures { IfOk result
        (λ done. done ≡ (if is_same then PutDone.Same (labels_on row.now.labels token.now) else PutDone.Exists)) }
{
    if is_same {
        Ok(PutDone::Same(labels_on(alloc, row.labels.as_slice(), token)?))
    } else {
        Ok(PutDone::Exists)
    }
}

/// The same as `put`.
fn try_put(
    alloc: Global,
    row: &mut SecretRow,
    token: &Token,
    value: &Value,
    labels: &[Label],
    when: When,
) -> Result<PutDone, NoMemory>
    ensures answer { IfOk result (λ done. done ≡ put_answer row.old token.now value.now labels.now when) }
    ensures row { row.new ≡
        (if is_done result then put_row row.old token.now value.now labels.now when.moment else row.old) }
{
    match version_of(&row.versions, token) {
        Some(version) => match &version.value {
            Some(kept) => {
                let is_same = is_same_value(kept, value);
                repeat(alloc, row, token, is_same)
            }
            None => fill_version(alloc, row, token, value, labels),
        },
        None => add_version(alloc, row, token, value, labels, when),
    }
}

/// Puts a value into the version whose id is the token, which is filled or made at the moment, and places the
/// labels on it. A version that is made may be one more than a secret may have, until those are dropped that did not
/// count.
pub fn put(
    alloc: Global,
    row: &mut SecretRow,
    token: &Token,
    value: &Value,
    labels: &[Label],
    when: When,
) -> PutDone
    ensures answer { OrMemory (put_told result) (put_answer row.old token.now value.now labels.now when) }
    ensures row { row.new ≡
        (if is_added result then put_row row.old token.now value.now labels.now when.moment else row.old) }
    ensures kept { KeptUnsettled row.old → IsTrue (will_have_current row.old labels.now) → KeptUnsettled row.new }
{
    match try_put(alloc, row, token, value, labels, when) {
        Ok(done) => done,
        Err(NoMemory) => PutDone::Memory,
    }
}
