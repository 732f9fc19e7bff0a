//! Claims of steps (AWS Secrets Manager User Guide, "Lambda rotation functions").
ghost use Rattle.std.specs.Prelude.{◌≡◌, ◌<◌};
ghost use Rattle.std.specs.List.{list_any};
ghost use Rattle.sm_base.specs.Texts.{same_text};
ghost use Rattle.sm_claims.specs.Claims.{is_open, is_claim_of, is_claimed};
ghost use Rattle.sm_claims.specs.LiveClaims.{claim_mark, claim_marks};
ghost use Rattle.sm_claims.specs.declared.claims.TheConstants.{CLAIM_SECONDS};
ghost use Rattle.sm_rotator.specs.declared.link.TheConstants.{STEP_SECONDS};

use sm_model::{Arn, At, Job, Moment};
use sm_rotation::stepping::is_at;

/// After how many seconds a claim ends.
pub const CLAIM_SECONDS: u64 = 30;

/// The number as it is stated, so that the constant stays it.
pub fn claims_end_as_stated()
    ensures { CLAIM_SECONDS ≡ 30 }
{}

/// A rotator behind an address is asked for a step no longer than the claim of the step stands.
pub fn a_step_ends_before_its_claim()
    ensures { STEP_SECONDS < CLAIM_SECONDS }
{}

/// That somebody took up a step of the rotation of the secret with this ARN, and when.
#[derive(Drop)]
pub struct Claim {
    pub arn: Arn,
    pub at: At,
    pub made: Moment,
}

/// Whether both are the same ARN.
pub(crate) fn is_same_arn(arn: &Arn, other: &Arn) -> bool
    ensures { result ≡ same_text arn.now other.now }
{
    arn.equals(other)
}

/// Whether a claim that was made at one moment has not ended at another.
pub(crate) fn is_open(made: Moment, moment: Moment) -> bool
    ensures { result ≡ is_open made moment }
{
    moment.0.saturating_sub(made.0) < CLAIM_SECONDS
}

/// Whether it is a claim of the step that the job of the secret with this ARN is at, which has not ended.
fn is_claim_of(claim: &Claim, arn: &Arn, job: &Job, moment: Moment) -> bool
    ensures { result ≡ is_claim_of (claim_mark claim.now) arn.now job.now moment }
{
    is_open(claim.made, moment) && is_at(job, &claim.at) && is_same_arn(&claim.arn, arn)
}

/// Whether one of the claims is such a one.
fn has_claim_of(claims: &[Claim], arn: &Arn, job: &Job, moment: Moment) -> bool
    ensures { result ≡ list_any (λ claim. is_claim_of (claim_mark claim) arn.now job.now moment) claims.now }
{
    claims
        .iter()
        .any(|claim| is_claim_of(claim, arn, job, moment))
}

/// Whether one of the claims is of the step that the job of the secret with this ARN is at, and has not ended.
#[tactic(auto, using(crate::proofs::LiveClaimLemmas::any_marks))]
pub fn is_claimed(claims: &[Claim], arn: &Arn, job: &Job, moment: Moment) -> bool
    ensures { result ≡ is_claimed (claim_marks claims.now) arn.now job.now moment }
{
    has_claim_of(claims, arn, job, moment)
}
