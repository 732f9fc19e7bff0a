//! How long the file of a base is that no entries stand behind.
ghost use Rattle.std.specs.Prelude.{◌≡◌, ◌<◌, ◌^◌, IfOk, IfSome, IsTrue, flat_map, length, slice_get};
ghost use Rattle.std.specs.List.{list_all};
ghost use Rattle.sm_journal.specs.Records.{size};
ghost use Rattle.sm_record.specs.Rows as rows;
ghost use Rattle.sm_record.specs.Snapshots.{one_version, secret_bodies};
ghost use Rattle.sm_record.specs.declared.edition.Edition.TheVariants.{Second};
ghost use Rattle.sm_base_check.specs.Bases.{IsSound};
ghost use Rattle.sm_encoded_size.specs.Files.{file_size};

use crate::spelled::note_spelled;
use sm_journal::record_size;
use sm_model::{NoMemory, SecretRow, SharedList, VersionRow};
use sm_record::{Base, Edition, encode_row, encode_start, encode_version};
use std::alloc::Global;

/// How many bytes the record of a version has.
fn version_size(alloc: Global, version: &VersionRow) -> Result<u64, NoMemory>
    requires { IsTrue (rows.version.fits version.now) }
    ensures { IfOk result (λ n. n ≡ size (one_version version.now)) }
{
    let body = encode_version(alloc, Edition::Second, version)?;
    Ok(record_size(body.as_slice()))
}

/// The same of the version at a place.
#[tactic(auto, using(crate::proofs::MeasureLemmas::fits_at))]
fn version_size_at(
    alloc: Global,
    versions: &SharedList<VersionRow>,
    at: usize,
) -> Result<u64, NoMemory>
    requires { IsTrue (list_all rows.version.fits versions.now) }
    ensures { IfOk result (λ n. IfSome (slice_get versions.now at) (λ v. n ≡ size (one_version v))) }
{
    match versions.get(at) {
        Some(version) => version_size(alloc, version),
        None => Ok(0),
    }
}

/// How many bytes the records of versions have.
fn versions_size(alloc: Global, versions: &SharedList<VersionRow>) -> Result<u64, NoMemory>
    requires spelled { IsTrue (list_all rows.version.fits versions.now) }
    requires short { size (flat_map one_version versions.now) < 2 ^ 62 }
    ensures { IfOk result (λ n. n ≡ size (flat_map one_version versions.now)) }
{
    let mut sum = 0;
    for at in 0..versions.len() {
        let size = version_size_at(alloc, versions, at)?;
        sum += size;
    }
    Ok(sum)
}

/// How many bytes the records of a secret and of its versions have.
fn secret_size(alloc: Global, row: &SecretRow) -> Result<u64, NoMemory>
    requires spelled { IsTrue ((rows.secret Second).fits row.now) }
    requires short { size (secret_bodies Second row.now) < 2 ^ 62 }
    ensures { IfOk result (λ n. n ≡ size (secret_bodies Second row.now)) }
{
    let body = encode_row(alloc, Edition::Second, row)?;
    let size = versions_size(alloc, &row.versions)?;
    Ok(record_size(body.as_slice()) + size)
}

/// How many bytes the records of secrets and of their versions have.
fn secrets_size(alloc: Global, secrets: &[SecretRow]) -> Result<u64, NoMemory>
    requires spelled { IsTrue (list_all (rows.secret Second).fits secrets.now) }
    requires short { size (flat_map (secret_bodies Second) secrets.now) < 2 ^ 62 }
    ensures { IfOk result (λ n. n ≡ size (flat_map (secret_bodies Second) secrets.now)) }
{
    let mut sum = 0;
    for row in secrets {
        let size = secret_size(alloc, row)?;
        sum += size;
    }
    Ok(sum)
}

/// How many bytes the file of a sound base has that no entries stand behind: each of its bodies is spelled once and let
/// go again.
pub fn file_size(alloc: Global, base: &Base) -> Result<u64, NoMemory>
    requires { IsSound base.now }
    ensures { IfOk result (λ n. n ≡ file_size base.now) }
{
    note_spelled(base);
    let body = encode_start(alloc, Edition::Second, base)?;
    let size = secrets_size(alloc, base.rows.secrets.as_slice())?;
    Ok(9 + record_size(body.as_slice()) + size)
}
