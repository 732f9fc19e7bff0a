//! The versions of a secret.
ghost use Rattle.std.specs.Prelude.{◌≡◌, IfOk, Some, option_copied};
ghost use Rattle.std.specs.List.{position};
ghost use Rattle.sm_base.specs.Texts.{same_text};
ghost use Rattle.sm_versions.specs.Versions.{same_value, version_of, has_value, is_value, same, filled};
ghost use Rattle.sm_model.specs.Versions.{has_version};

use sm_model::{Copied, NoMemory, SecretRow, SharedList, Token, Value, VersionRow};
use std::alloc::Global;

/// Whether both are the same text, or the same bytes.
pub fn is_same_value(value: &Value, other: &Value) -> bool
    ensures { result ≡ same_value value.now other.now }
{
    value.equals(other)
}

/// The version with this id.
#[tactic(auto, using(crate::proofs::VersionLemmas::version_of_is_find))]
pub fn version_of<'a>(versions: &'a SharedList<VersionRow>, id: &Token) -> Option<&'a VersionRow>
    ensures { option_copied result ≡ version_of versions.now id.now }
{
    versions.find(id.as_text().as_bytes())
}

/// Whether a version has this id.
#[tactic(auto, using(crate::proofs::VersionLemmas::has_version_is_some))]
pub fn has_version(versions: &SharedList<VersionRow>, id: &Token) -> bool
    ensures { result ≡ has_version versions.now id.now }
{
    version_of(versions, id).is_some()
}

/// Whether the version with this id has a value.
#[tactic(auto, using(crate::proofs::VersionLemmas::value_of_is))]
pub fn has_value(versions: &SharedList<VersionRow>, id: &Token) -> bool
    ensures { result ≡ has_value versions.now id.now }
{
    match version_of(versions, id) {
        Some(version) => version.value.is_some(),
        None => false,
    }
}

/// Whether the version with this id has exactly this value.
#[tactic(auto, using(crate::proofs::VersionLemmas::value_of_is))]
pub fn same(row: &SecretRow, token: &Token, value: &Value) -> bool
    ensures { result ≡ same row.now token.now value.now }
{
    match version_of(&row.versions, token) {
        Some(version) => is_value(&version.value, value),
        None => false,
    }
}

/// Whether the value is there, and is this one.
fn is_value(kept: &Option<Value>, value: &Value) -> bool
    ensures { result ≡ is_value kept.now value.now }
{
    match kept {
        Some(kept) => is_same_value(kept, value),
        None => false,
    }
}

/// The place of the version with this id.
#[tactic(auto, unfolding(sm_base::specs::Texts::same_text))]
pub fn position_of(versions: &SharedList<VersionRow>, id: &Token) -> Option<usize>
    ensures { result ≡ position (λ v. same_text v.id id.now) versions.now }
{
    versions.position(id.as_text().as_bytes())
}

/// A copy of the version, with a value.
fn with_value(alloc: Global, version: &VersionRow, value: Value) -> Result<VersionRow, NoMemory>
    ensures { IfOk result (λ v. v ≡ record version.now { value = Some value }) }
{
    Ok(VersionRow {
        id: version.id.copy(alloc)?,
        serial: version.serial,
        made: version.made,
        value: Some(value),
        rotated: version.rotated,
        by_rotation: version.by_rotation,
    })
}

/// The versions, with a value in the one with this id. All others are shared with those that were.
pub fn filled(
    alloc: Global,
    versions: &SharedList<VersionRow>,
    id: &Token,
    value: Value,
) -> Result<SharedList<VersionRow>, NoMemory>
    ensures { IfOk result (λ all. all ≡ filled versions.now id.now value) }
{
    let mut all = versions.copy(alloc)?;
    if let Some(place) = position_of(versions, id) {
        if let Some(version) = versions.get(place) {
            all.replace(alloc, place, with_value(alloc, version, value)?)?;
        }
    }
    Ok(all)
}
