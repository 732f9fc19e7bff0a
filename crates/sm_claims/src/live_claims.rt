//! The claims that stand: those that a later look can still meet.
ghost use Rattle.std.specs.Prelude.{◌≡◌, ◌<◌, ◌≤◌, filter, vec_len, vec_capacity};
ghost use Rattle.sm_rotation.specs.Step.{same_stage};
ghost use Rattle.sm_claims.specs.LiveClaims.{same_at, is_same_step, still_counts, live_claims_with};

use crate::claims::{Claim, is_open, is_same_arn};
use sm_model::{At, Moment, Stage};
use sm_versions::labels::is_same_id;

/// Whether both are the same stage.
#[tactic(auto, using(sm_rotation::proofs::StepLemmas::same_stage_from_equals))]
fn is_same_stage(stage: Stage, other: Stage) -> bool
    ensures { result ≡ same_stage stage other }
{
    stage == other
}

/// Whether both are the same step of a rotation.
fn is_same_at(at: &At, other: &At) -> bool
    ensures { result ≡ same_at at.now other.now }
{
    is_same_id(&at.token, &other.token)
        && is_same_stage(at.stage, other.stage)
        && at.attempt == other.attempt
}

/// Whether both are claims of the same step.
fn is_same_step(claim: &Claim, other: &Claim) -> bool
    ensures { result ≡ is_same_step claim.now other.now }
{
    is_same_arn(&claim.arn, &other.arn) && is_same_at(&claim.at, &other.at)
}

/// Whether a claim still counts beside a newer one, where no look is of an earlier moment than this.
fn still_counts(claim: &Claim, newer: &Claim, from: Moment) -> bool
    ensures { result ≡ still_counts newer.now from claim.now }
{
    is_open(claim.made, from) && !(is_same_step(claim, newer) && claim.made.0 <= newer.made.0)
}

/// Drops the claims that don't count any more beside a newer one.
fn drop_others(claims: &mut Vec<Claim>, newer: &Claim, from: Moment)
    ensures others { claims.new.items ≡ filter (still_counts newer.now from) claims.old.items }
    ensures shorter { vec_len claims.new ≤ vec_len claims.old }
    ensures room { vec_capacity claims.new ≡ vec_capacity claims.old }
{
    claims.retain(|claim| still_counts(claim, newer, from));
}

/// Adds a claim to those that stand, and drops those that don't count any more, where no look is of an earlier moment
/// than this.
pub fn add_claim(claims: &mut Vec<Claim>, claim: Claim, from: Moment)
    requires { vec_len claims.old < vec_capacity claims.old }
    ensures { claims.new.items ≡ live_claims_with claims.old.items claim from }
{
    drop_others(claims, &claim, from);
    claims.push_reserved(claim);
}
