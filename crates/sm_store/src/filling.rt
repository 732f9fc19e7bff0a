//! Filling a file with the bodies of rows, each as it is encoded.
ghost use Rattle.std.specs.Prelude.{◌≡◌, IsTrue, ◌∷◌, [], flat_map};
ghost use Rattle.std.specs.List.{list_all};
ghost use Rattle.sm_record.specs.Rows as rows;
ghost use Rattle.sm_record.specs.Snapshots.{snapshot, HasSnapshot, start_body, row_body, version_body, one_version, secret_bodies};
ghost use Rattle.sm_record.specs.declared.edition.Edition.TheVariants as editions;
ghost use Rattle.sm_store.specs.Filling.{MayBeAdded, GoesOn, Fills};
ghost use Rattle.sm_store.specs.declared.filling.FillRefused.TheVariants as refusals;

use sm_base::{Bytes, NoMemory};
use sm_disk::{Disk, DiskFailed};
use sm_journal::Fresh;
use sm_model::{SecretRow, SharedList, VersionRow};
use sm_record::{Base, Edition, encode_row, encode_start, encode_version};
use std::alloc::Global;

/// Why a file was not filled.
#[derive(Clone, Copy, Debug, PartialEq, Eq)]
pub enum FillRefused {
    Failed,
    Memory,
}

impl From<DiskFailed> for FillRefused {
    ghost from_gives = { λ _ refused. refused ≡ refusals.Failed };

    fn from(_error: DiskFailed) -> FillRefused {
        FillRefused::Failed
    }
}

impl From<NoMemory> for FillRefused {
    ghost from_gives = { λ _ refused. refused ≡ refusals.Memory };

    fn from(_error: NoMemory) -> FillRefused {
        FillRefused::Memory
    }
}

/// Adds one body.
fn put_body<D: Disk>(fresh: &mut Fresh<D>, body: &Bytes) -> Result<(), FillRefused>
    requires { MayBeAdded (body.now ∷ []) fresh.old }
    ensures filled { Fills (body.now ∷ []) fresh.old fresh.new result }
    ensures goes_on { GoesOn fresh.old fresh.new }
{
    fresh.add(body.as_slice())?;
    Ok(())
}

/// Adds the body of a version.
fn put_version<D: Disk>(
    alloc: Global,
    fresh: &mut Fresh<D>,
    version: &VersionRow,
) -> Result<(), FillRefused>
    requires spelled { IsTrue (rows.version.fits version.now) }
    requires room { MayBeAdded (version_body version.now ∷ []) fresh.old }
    ensures filled { Fills (version_body version.now ∷ []) fresh.old fresh.new result }
    ensures goes_on { GoesOn fresh.old fresh.new }
{
    let body = encode_version(alloc, Edition::Second, version)?;
    put_body(fresh, &body)
}

/// Adds the bodies of versions, in order.
fn put_versions<D: Disk>(
    alloc: Global,
    fresh: &mut Fresh<D>,
    versions: &SharedList<VersionRow>,
) -> Result<(), FillRefused>
    requires spelled { IsTrue (list_all rows.version.fits versions.now) }
    requires room { MayBeAdded (flat_map one_version versions.now) fresh.old }
    ensures filled { Fills (flat_map one_version versions.now) fresh.old fresh.new result }
    ensures goes_on { GoesOn fresh.old fresh.new }
{
    for place in 0..versions.len() {
        if let Some(version) = versions.get(place) {
            put_version(alloc, fresh, version)?;
        }
    }
    Ok(())
}

/// Adds the body of a secret without its versions.
fn put_row<D: Disk>(alloc: Global, fresh: &mut Fresh<D>, row: &SecretRow) -> Result<(), FillRefused>
    requires spelled { IsTrue ((rows.row_head editions.Second).fits (rows.head_of_row row.now)) }
    requires room { MayBeAdded (row_body editions.Second row.now ∷ []) fresh.old }
    ensures filled { Fills (row_body editions.Second row.now ∷ []) fresh.old fresh.new result }
    ensures goes_on { GoesOn fresh.old fresh.new }
{
    let body = encode_row(alloc, Edition::Second, row)?;
    put_body(fresh, &body)
}

/// Adds the bodies of a secret and of its versions.
fn put_secret<D: Disk>(
    alloc: Global,
    fresh: &mut Fresh<D>,
    row: &SecretRow,
) -> Result<(), FillRefused>
    requires spelled { IsTrue ((rows.secret editions.Second).fits row.now) }
    requires room { MayBeAdded (secret_bodies editions.Second row.now) fresh.old }
    ensures filled { Fills (secret_bodies editions.Second row.now) fresh.old fresh.new result }
    ensures goes_on { GoesOn fresh.old fresh.new }
{
    put_row(alloc, fresh, row)?;
    put_versions(alloc, fresh, &row.versions)?;
    Ok(())
}

/// Adds the bodies of secrets, in order.
fn put_secrets<D: Disk>(
    alloc: Global,
    fresh: &mut Fresh<D>,
    secrets: &[SecretRow],
) -> Result<(), FillRefused>
    requires spelled { IsTrue (list_all (rows.secret editions.Second).fits secrets.now) }
    requires room { MayBeAdded (flat_map (secret_bodies editions.Second) secrets.now) fresh.old }
    ensures filled { Fills (flat_map (secret_bodies editions.Second) secrets.now) fresh.old fresh.new result }
    ensures goes_on { GoesOn fresh.old fresh.new }
{
    for row in secrets {
        put_secret(alloc, fresh, row)?;
    }
    Ok(())
}

/// Adds the body that stands before all secrets.
fn put_start<D: Disk>(alloc: Global, fresh: &mut Fresh<D>, base: &Base) -> Result<(), FillRefused>
    requires spelled { IsTrue (rows.start.fits (rows.start_of_base base.now)) }
    requires room { MayBeAdded (start_body base.now ∷ []) fresh.old }
    ensures filled { Fills (start_body base.now ∷ []) fresh.old fresh.new result }
    ensures goes_on { GoesOn fresh.old fresh.new }
{
    let body = encode_start(alloc, Edition::Second, base)?;
    put_body(fresh, &body)
}

/// Adds the bodies of rows. After a refusal nothing is known of the file.
pub fn fill<D: Disk>(alloc: Global, fresh: &mut Fresh<D>, base: &Base) -> Result<(), FillRefused>
    requires spelled { HasSnapshot editions.Second base.now }
    requires room { MayBeAdded (snapshot editions.Second base.now) fresh.old }
    ensures filled { Fills (snapshot editions.Second base.now) fresh.old fresh.new result }
    ensures goes_on { GoesOn fresh.old fresh.new }
{
    put_start(alloc, fresh, base)?;
    put_secrets(alloc, fresh, base.rows.secrets.as_slice())?;
    Ok(())
}
