//! Judging RemoveRegionsFromReplication (AWS Secrets Manager API Reference, RemoveRegionsFromReplication).
ghost use Rattle.std.specs.Prelude.{◌≡◌, IfOk, None};
ghost use Rattle.sm_forms.specs.RegionsOfSecret.{remove_regions_forms};
ghost use Rattle.sm_judge_labels_and_regions.specs.RemoveRegionsFromReplication.{without_regions, remove_on, remove_judgement};

use crate::regional::{in_regions, replicated_secret};
use sm_base::list::copies;
use sm_judge_common::Judged;
use sm_judge_common::members::secret_id;
use sm_judge_common::regions::is_among;
use sm_judge_common::standing::standing;
use sm_model::{Change, List, NoMemory, RegionsOfSecret, Reply, SecretRow, Text};
use sm_table::Table;
use sm_versions::When;
use std::alloc::Global;

/// Judges a RemoveRegionsFromReplication.
#[tactic(auto, using(sm_forms::proofs::RegionsOfSecretLemmas::remove_id, sm_judge_common::proofs::JudgedLemmas::judged_of_standing, sm_judge_common::proofs::JudgedLemmas::refused_unless_standing))]
pub fn judge_remove(
    alloc: Global,
    table: &Table,
    when: When,
    remove: &RegionsOfSecret,
) -> Result<Judged, NoMemory>
    requires { remove_regions_forms remove.now ≡ None }
    ensures { IfOk result (λ judged. judged ≡ remove_judgement table.now when remove.now) }
{
    let id = secret_id(alloc, &remove.secret_id)?;
    match standing(table, &id, when.moment) {
        Ok(row) => remove_on(alloc, row, when, remove.regions.as_slice()),
        Err(why) => Ok(Judged::Refuse(why)),
    }
}

/// Takes regions off a copy of the row.
fn remove_on(alloc: Global, row: &SecretRow, when: When, gone: &[Text]) -> Result<Judged, NoMemory>
    ensures { IfOk result (λ judged. judged ≡ remove_on row.now when gone.now) }
{
    let regions = without_regions(alloc, row.regions.as_slice(), gone)?;
    let after = in_regions(alloc, row, when, regions)?;
    let reply = replicated_secret(alloc, &after)?;
    Judged::changes(
        alloc,
        Reply::RemoveRegionsFromReplication(reply),
        Change::Replace(after),
    )
}

/// Drops the regions that are among these.
fn drop_regions(regions: &mut Vec<Text>, gone: &[Text])
    ensures { regions.new.items ≡ without_regions regions.old.items gone.now }
{
    regions.retain(|region| !is_among(gone, region));
}

/// A copy of the regions that are none of these.
fn without_regions(alloc: Global, kept: &[Text], gone: &[Text]) -> Result<List<Text>, NoMemory>
    ensures { IfOk result (λ left. left ≡ without_regions kept.now gone.now) }
{
    let mut left = copies(alloc, kept)?;
    drop_regions(&mut left, gone);
    Ok(List::new(left))
}
