//! The bodies of entries and of rows, in the second format.
ghost use Rattle.std.specs.Prelude.{◌≡◌, ◌++◌, IsTrue, IfOk, OnOk, map, flat_map, take, drop};
ghost use Rattle.std.specs.List.{list_all};
ghost use Rattle.sm_record.specs.Rows as rows;
ghost use Rattle.sm_record.specs.Snapshots.{snapshot, HasSnapshot, one_version, secret_bodies};
ghost use Rattle.sm_record.specs.Spelling.{spelling};
ghost use Rattle.sm_record.specs.declared.edition.Edition.TheVariants as editions;
ghost use Rattle.sm_replication.specs.Spelled.{AreSpelled};

use sm_base::{Bytes, NoMemory};
use sm_model::{Entry, SecretRow, SharedList, VersionRow};
use sm_record::{Base, Edition, encode as encode_entry, encode_row, encode_start, encode_version};
use std::alloc::Global;

/// The bodies of entries.
#[tactic(auto, using(crate::proofs::EncodeLemmas::spelled_at, crate::proofs::EncodeLemmas::entries_more, crate::proofs::EncodeLemmas::entries_all))]
pub fn entry_bodies(alloc: Global, entries: &[Entry]) -> Result<Vec<Bytes>, NoMemory>
    requires { AreSpelled entries.now }
    ensures { IfOk result (λ bodies. bodies.items ≡ map (spelling editions.Second) entries.now) }
{
    let mut bodies = Vec::new(alloc);
    for entry in entries {
        bodies.push(encode_entry(alloc, entry)?)?;
    }
    Ok(bodies)
}

/// Adds the body of the version at a place, if there is one.
#[tactic(auto, using(crate::proofs::EncodeLemmas::fits_at, crate::proofs::EncodeLemmas::one_at))]
fn push_version_at(
    alloc: Global,
    bodies: &mut Vec<Bytes>,
    versions: &SharedList<VersionRow>,
    place: usize,
) -> Result<(), NoMemory>
    requires { IsTrue (list_all rows.version.fits versions.now) }
    ensures { OnOk result (bodies.new.items
        ≡ bodies.old.items ++ flat_map one_version (take 1 (drop place versions.now))) }
{
    match versions.get(place) {
        Some(version) => {
            bodies.push(encode_version(alloc, Edition::Second, version)?)?;
            Ok(())
        }
        None => Ok(()),
    }
}

/// Adds the bodies of versions, in order.
#[tactic(auto, using(crate::proofs::EncodeLemmas::bodies_more, crate::proofs::EncodeLemmas::bodies_all))]
fn push_versions(
    alloc: Global,
    bodies: &mut Vec<Bytes>,
    versions: &SharedList<VersionRow>,
) -> Result<(), NoMemory>
    requires { IsTrue (list_all rows.version.fits versions.now) }
    ensures { OnOk result (bodies.new.items ≡ bodies.old.items ++ flat_map one_version versions.now) }
{
    for place in 0..versions.len() {
        push_version_at(alloc, bodies, versions, place)?;
    }
    Ok(())
}

/// Adds the bodies of a secret and of its versions.
#[tactic(auto, using(std::proofs::lemmas::List::append_assoc, crate::proofs::EncodeLemmas::head_fits, crate::proofs::EncodeLemmas::versions_fit))]
fn push_secret(alloc: Global, bodies: &mut Vec<Bytes>, row: &SecretRow) -> Result<(), NoMemory>
    requires { IsTrue ((rows.secret editions.Second).fits row.now) }
    ensures { OnOk result (bodies.new.items ≡ bodies.old.items ++ secret_bodies editions.Second row.now) }
{
    bodies.push(encode_row(alloc, Edition::Second, row)?)?;
    push_versions(alloc, bodies, &row.versions)?;
    Ok(())
}

/// Adds the bodies of secrets, in order.
#[tactic(auto, using(crate::proofs::EncodeLemmas::secret_fits_at, crate::proofs::EncodeLemmas::secrets_more, crate::proofs::EncodeLemmas::bodies_all))]
fn push_secrets(
    alloc: Global,
    bodies: &mut Vec<Bytes>,
    secrets: &[SecretRow],
) -> Result<(), NoMemory>
    requires { IsTrue (list_all (rows.secret editions.Second).fits secrets.now) }
    ensures { OnOk result (bodies.new.items
        ≡ bodies.old.items ++ flat_map (secret_bodies editions.Second) secrets.now) }
{
    for row in secrets {
        push_secret(alloc, bodies, row)?;
    }
    Ok(())
}

/// The bodies of rows.
#[tactic(auto, using(crate::proofs::EncodeLemmas::rows_start, crate::proofs::EncodeLemmas::rows_secrets, crate::proofs::EncodeLemmas::rows_are))]
pub fn row_bodies(alloc: Global, base: &Base) -> Result<Vec<Bytes>, NoMemory>
    requires { HasSnapshot editions.Second base.now }
    ensures { IfOk result (λ bodies. bodies.items ≡ snapshot editions.Second base.now) }
{
    let mut bodies = Vec::new(alloc);
    bodies.push(encode_start(alloc, Edition::Second, base)?)?;
    push_secrets(alloc, &mut bodies, base.rows.secrets.as_slice())?;
    Ok(bodies)
}
