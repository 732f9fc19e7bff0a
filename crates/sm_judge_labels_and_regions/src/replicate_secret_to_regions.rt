//! Judging ReplicateSecretToRegions (AWS Secrets Manager API Reference, ReplicateSecretToRegions).
ghost use Rattle.std.specs.Prelude.{◌≡◌, IfOk, None};
ghost use Rattle.sm_forms.specs.RegionsOfSecret.{replicate_forms};
ghost use Rattle.sm_judge_labels_and_regions.specs.ReplicateSecretToRegions.{has_too_many_regions, replicate_on, replicate_within_limit, replicate_judgement};

use crate::regional::{in_regions, replicated_secret};
use sm_base::limits::REGIONS_LIMIT;
use sm_judge_common::Judged;
use sm_judge_common::members::secret_id;
use sm_judge_common::regions::with_regions;
use sm_judge_common::standing::standing;
use sm_model::{Change, List, NoMemory, RegionsOfSecret, Reply, SecretRow, Text, What, Why};
use sm_table::Table;
use sm_versions::When;
use std::alloc::Global;

/// Judges a ReplicateSecretToRegions.
#[tactic(auto, using(sm_forms::proofs::RegionsOfSecretLemmas::replicate_id, sm_judge_common::proofs::JudgedLemmas::judged_of_standing, sm_judge_common::proofs::JudgedLemmas::refused_unless_standing))]
pub fn judge_replicate(
    alloc: Global,
    table: &Table,
    when: When,
    replicate: &RegionsOfSecret,
) -> Result<Judged, NoMemory>
    requires { replicate_forms replicate.now ≡ None }
    ensures { IfOk result (λ judged. judged ≡ replicate_judgement table.now when replicate.now) }
{
    let id = secret_id(alloc, &replicate.secret_id)?;
    match standing(table, &id, when.moment) {
        Ok(row) => replicate_on(alloc, row, when, replicate.regions.as_slice()),
        Err(why) => Ok(Judged::Refuse(why)),
    }
}

/// Adds regions to the secret of this row, where it has few enough then.
fn replicate_on(
    alloc: Global,
    row: &SecretRow,
    when: When,
    given: &[Text],
) -> Result<Judged, NoMemory>
    ensures { IfOk result (λ judged. judged ≡ replicate_on row.now when given.now) }
{
    let regions = with_regions(alloc, row.regions.as_slice(), given)?;
    if has_too_many_regions(&regions) {
        return Ok(Judged::Refuse(Why::Limit(REGIONS_LIMIT, What::Regions)));
    }
    replicate_within_limit(alloc, row, when, regions)
}

/// Whether there are more regions than a secret may have.
fn has_too_many_regions(regions: &List<Text>) -> bool
    ensures { result ≡ has_too_many_regions regions.now }
{
    regions.len() > REGIONS_LIMIT as usize
}

/// Puts the regions into a copy of the row.
fn replicate_within_limit(
    alloc: Global,
    row: &SecretRow,
    when: When,
    regions: List<Text>,
) -> Result<Judged, NoMemory>
    ensures { IfOk result (λ judged. judged ≡ replicate_within_limit row.now when regions) }
{
    let after = in_regions(alloc, row, when, regions)?;
    let reply = replicated_secret(alloc, &after)?;
    Judged::changes(
        alloc,
        Reply::ReplicateSecretToRegions(reply),
        Change::Replace(after),
    )
}
