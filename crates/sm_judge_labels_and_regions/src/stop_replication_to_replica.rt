//! Judging StopReplicationToReplica (AWS Secrets Manager API Reference, StopReplicationToReplica) where the secrets are
//! the account's own, and none is a replica.
ghost use Rattle.std.specs.Prelude.{◌≡◌, IfOk, None};
ghost use Rattle.sm_forms.specs.OfSecret.{of_secret_forms};
ghost use Rattle.sm_judge_labels_and_regions.specs.StopReplicationToReplica.{stop_judgement};

use sm_judge_common::Judged;
use sm_judge_common::members::secret_id;
use sm_judge_common::standing::standing;
use sm_model::{Moment, NoMemory, OfSecret, Why};
use sm_table::Table;
use std::alloc::Global;

/// Judges a StopReplicationToReplica. It is refused, whatever secret it names.
#[tactic(auto, using(sm_forms::proofs::OfSecretLemmas::named_id, sm_judge_common::proofs::JudgedLemmas::judged_of_standing, sm_judge_common::proofs::JudgedLemmas::refused_unless_standing))]
pub fn judge_stop(
    alloc: Global,
    table: &Table,
    moment: Moment,
    stop: &OfSecret,
) -> Result<Judged, NoMemory>
    requires { of_secret_forms stop.now ≡ None }
    ensures { IfOk result (λ judged. judged ≡ stop_judgement table.now moment stop.now) }
{
    let id = secret_id(alloc, &stop.secret_id)?;
    match standing(table, &id, moment) {
        Ok(_) => Ok(Judged::Refuse(Why::NotReplica)),
        Err(why) => Ok(Judged::Refuse(why)),
    }
}
