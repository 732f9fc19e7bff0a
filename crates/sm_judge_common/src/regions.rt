//! The replica regions of a secret, as they are added and shown (AWS Secrets Manager API Reference,
//! ReplicateSecretToRegions, ReplicationStatusType).
ghost use Rattle.std.specs.Prelude.{◌≡◌, IfOk, OnOk};
ghost use Rattle.sm_base.specs.Texts.{same_text};
ghost use Rattle.sm_versions.specs.Texts.{is_among};
ghost use Rattle.sm_judge_common.specs.Regions.{with_region, with_regions, region_status, region_statuses, replicas_shown};

use sm_base::list::copies;
use sm_base::text::same_text;
use sm_model::{Copied, List, NoMemory, ReplicationStatus, Text};
use std::alloc::Global;

/// Whether both texts are the same region.
fn is_same(one: &Text, other: &Text) -> bool
    ensures { result ≡ same_text one.now other.now }
{
    same_text(one.as_bytes(), other.as_bytes())
}

/// Whether the region is one of these.
pub fn is_among(regions: &[Text], region: &Text) -> bool
    ensures { result ≡ is_among regions.now region.now }
{
    regions.iter().any(|other| is_same(other, region))
}

/// Adds a region behind the others, unless it is there.
fn add_region(alloc: Global, regions: &mut Vec<Text>, region: &Text) -> Result<(), NoMemory>
    ensures { OnOk result (regions.new.items ≡ with_region regions.old.items region.now) }
{
    if is_among(regions.as_slice(), region) {
        return Ok(());
    }
    regions.push(region.copy(alloc)?)?;
    Ok(())
}

/// The regions of a secret with those that are given, in order of adding.
pub fn with_regions(alloc: Global, kept: &[Text], given: &[Text]) -> Result<List<Text>, NoMemory>
    ensures { IfOk result (λ regions. regions ≡ with_regions kept.now given.now) }
{
    let mut regions = copies(alloc, kept)?;
    for region in given {
        add_region(alloc, &mut regions, region)?;
    }
    Ok(List::new(regions))
}

/// A region, as it is shown.
fn region_status(alloc: Global, region: &Text) -> Result<ReplicationStatus, NoMemory>
    ensures { IfOk result (λ status. status ≡ region_status region.now) }
{
    Ok(ReplicationStatus {
        region: region.copy(alloc)?,
        status: Text::fixed("InProgress"),
    })
}

/// The regions, as they are shown.
pub fn region_statuses(alloc: Global, regions: &[Text]) -> Result<List<ReplicationStatus>, NoMemory>
    ensures { IfOk result (λ statuses. statuses ≡ region_statuses regions.now) }
{
    let mut statuses = Vec::new(alloc);
    for region in regions {
        statuses.push(region_status(alloc, region)?)?;
    }
    Ok(List::new(statuses))
}

/// The regions, as they are shown, where there is one.
pub fn replicas_shown(
    alloc: Global,
    regions: &[Text],
) -> Result<Option<List<ReplicationStatus>>, NoMemory>
    ensures { IfOk result (λ shown. shown ≡ replicas_shown regions.now) }
{
    match regions {
        [] => Ok(None),
        _ => Ok(Some(region_statuses(alloc, regions)?)),
    }
}
