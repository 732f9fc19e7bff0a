//! The end of a rotation.
ghost use Rattle.std.specs.Prelude.{◌≡◌, ◌≤◌, IfOk, OnOk, OnErr};
ghost use Rattle.sm_base.specs.declared.moment.TheConstants.{LAST_READING};
ghost use Rattle.sm_rotation.specs.Step.{marked, finished_labels, finished};

use sm_dates::next_rotation;
use sm_model::{
    Copied, Job, List, Moment, NoMemory, Pair, SecretRow, SharedList, Token, VersionRow,
};
use sm_versions::labels::{current, pending};
use sm_versions::placing::{place, remove};
use sm_versions::versions::position_of;
use std::alloc::Global;

/// A copy of the version, which remembers the attempt at which it was tested.
fn tested_version(
    alloc: Global,
    version: &VersionRow,
    tested: Option<u32>,
) -> Result<VersionRow, NoMemory>
    ensures { IfOk result (λ v. v ≡ record version.now { rotated = tested }) }
{
    let mut version = version.copy(alloc)?;
    version.rotated = tested;
    Ok(version)
}

/// The versions, of which the one with this id remembers the attempt at which it was tested. All others are shared with
/// those that were.
fn marked(
    alloc: Global,
    versions: &SharedList<VersionRow>,
    id: &Token,
    tested: Option<u32>,
) -> Result<SharedList<VersionRow>, NoMemory>
    ensures { IfOk result (λ all. all ≡ marked versions.now id.now tested) }
{
    let mut all = versions.copy(alloc)?;
    if let Some(place) = position_of(versions, id) {
        if let Some(version) = versions.get(place) {
            all.replace(alloc, place, tested_version(alloc, version, tested)?)?;
        }
    }
    Ok(all)
}

/// The pairs with AWSCURRENT placed on the version, and without AWSPENDING.
fn finished_labels(alloc: Global, pairs: &List<Pair>, id: &Token) -> Result<List<Pair>, NoMemory>
    ensures { IfOk result (λ labels. labels ≡ finished_labels pairs.now id.now) }
{
    let mut labels = pairs.copy(alloc)?.into_vec();
    place(alloc, &mut labels, &current(), id)?;
    remove(&mut labels, &pending());
    Ok(List::new(labels))
}

/// Ends the rotation: its version is the current one.
pub fn finish(alloc: Global, row: &mut SecretRow, job: &Job, moment: Moment) -> Result<(), NoMemory>
    requires { moment.0 ≤ LAST_READING }
    ensures done { OnOk result (row.new ≡ finished row.old job.now moment) }
    ensures err { OnErr result (row.new ≡ row.old) }
{
    let labels = finished_labels(alloc, &row.labels, &job.token)?;
    row.versions = marked(alloc, &row.versions, &job.token, job.tested)?;
    row.labels = labels;
    row.rotation.next = next_rotation(&row.rotation, moment);
    row.rotation.last = Some(moment);
    row.job = None;
    Ok(())
}
