//! A secret with other replica regions.
ghost use Rattle.std.specs.Prelude.{◌≡◌, IfOk};
ghost use Rattle.sm_judge_common.specs.Secrets.{finished_row};
ghost use Rattle.sm_judge_labels_and_regions.specs.Regional.{in_regions, replicated_secret};

use sm_judge_common::regions::region_statuses;
use sm_judge_common::row_change::finish;
use sm_model::{Copied, List, NoMemory, ReplicatedSecret, SecretRow, Text};
use sm_versions::When;
use std::alloc::Global;

/// The reply that names the secret and shows its replica regions, also where there are none.
pub fn replicated_secret(alloc: Global, row: &SecretRow) -> Result<ReplicatedSecret, NoMemory>
    ensures { IfOk result (λ reply. reply ≡ replicated_secret row.now) }
{
    Ok(ReplicatedSecret {
        arn: row.arn.as_text().copy(alloc)?,
        replication_status: region_statuses(alloc, row.regions.as_slice())?,
    })
}

/// A copy of the row, changed at a moment, with these regions in place of its own.
pub fn in_regions(
    alloc: Global,
    row: &SecretRow,
    when: When,
    regions: List<Text>,
) -> Result<SecretRow, NoMemory>
    ensures { IfOk result (λ after. after ≡ finished_row (in_regions regions row.now) when) }
{
    let mut after = row.copy(alloc)?;
    after.regions = regions;
    finish(&mut after, when);
    Ok(after)
}
