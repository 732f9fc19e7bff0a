//! Whether the versions of a secret fit.
ghost use Rattle.std.specs.Prelude.{◌≡◌, ◌<◌, IfOk, IfSome, length, slice_get};
ghost use Rattle.sm_versions.specs.Sound.{is_version, each_version};
ghost use Rattle.sm_base_check.specs.Tests.{versions_fit};

use crate::differ::all_differ;
use crate::fields::{attempt_fits, is_date, value_fits};
use crate::rising::all_rise;
use sm_base::limits::VERSIONS_LIMIT;
use sm_model::{NoMemory, SecretRow, SharedList, VersionRow};
use std::alloc::Global;

/// Whether each part of a version fits.
fn is_version(version: &VersionRow) -> bool
    ensures { result ≡ is_version version.now }
{
    value_fits(&version.value) && attempt_fits(version.rotated) && is_date(version.made)
}

/// Whether the version at a place fits.
fn is_version_at(versions: &SharedList<VersionRow>, at: usize) -> bool
    requires { at < length versions.now }
    ensures { IfSome (slice_get versions.now at) (λ version. result ≡ is_version version) }
{
    match versions.get(at) {
        Some(version) => is_version(version),
        None => true,
    }
}

/// Whether each of the versions fits.
#[tactic(auto, using(crate::proofs::VersionLemmas::each_more, crate::proofs::VersionLemmas::each_not))]
fn each_version(versions: &SharedList<VersionRow>) -> bool
    ensures { result ≡ each_version versions.now }
{
    for at in 0..versions.len() {
        if !is_version_at(versions, at) {
            return false;
        }
    }
    true
}

/// Whether a secret may have its versions: they are not too many, their serials rise, each of them fits, and no id
/// stands twice.
#[tactic(auto, using(crate::proofs::VersionLemmas::ids_once_is))]
pub fn versions_fit(alloc: Global, row: &SecretRow) -> Result<bool, NoMemory>
    ensures { IfOk result (λ fit. fit ≡ versions_fit row.now) }
{
    if row.versions.len() > VERSIONS_LIMIT as usize {
        return Ok(false);
    }
    let differ = all_differ(alloc, &row.versions)?;
    Ok(all_rise(&row.versions, row.next_version) && each_version(&row.versions) && differ)
}
