//! Whether a rotation under way is one that a secret may have (AWS Secrets Manager User Guide, "Rotation by Lambda
//! function").
ghost use Rattle.std.specs.Prelude.{◌≡◌, not};
ghost use Rattle.std.specs.Bool.{beq};
ghost use Rattle.sm_versions.specs.Kept.{is_finish};
ghost use Rattle.sm_versions.specs.Settle.{is_create};
ghost use Rattle.sm_versions.specs.Sound.{is_job};
ghost use Rattle.sm_base_check.specs.Tests.{job_fits, may_be_job};

use crate::fields::{attempt_fits, is_attempt, is_date};
use sm_model::{Job, SecretRow, Stage};
use sm_versions::is_live;
use sm_versions::versions::has_value;

/// Whether each number of the job fits.
fn is_job(job: &Job) -> bool
    ensures { result ≡ is_job job.now }
{
    attempt_fits(job.tested) && is_date(job.retry_at)
}

/// Whether both are so, or both are not.
fn is_same(one: bool, other: bool) -> bool
    ensures { result ≡ beq one other }
{
    if one { other } else { !other }
}

/// Whether the job is at finishSecret.
fn is_finish(job: &Job) -> bool
    ensures { result ≡ is_finish job.now.stage }
{
    job.stage == Stage::Finish
}

/// Whether the job is past createSecret.
fn is_past_create(job: &Job) -> bool
    ensures { result ≡ not (is_create job.now.stage) }
{
    job.stage != Stage::Create
}

/// Whether the secret may have the job: it is live, at an attempt that there is, its version has a value exactly past
/// createSecret, and it was tested exactly at finishSecret.
fn job_fits(row: &SecretRow, job: &Job) -> bool
    ensures { result ≡ job_fits row.now job.now }
{
    is_live(row, job)
        && is_attempt(job.attempt)
        && is_same(job.tested.is_some(), is_finish(job))
        && is_same(has_value(&row.versions, &job.token), is_past_create(job))
        && is_job(job)
}

/// Whether the secret may have its job, if it has one.
pub fn may_be_job(row: &SecretRow) -> bool
    ensures { result ≡ may_be_job row.now row.now.job }
{
    match &row.job {
        Some(job) => job_fits(row, job),
        None => true,
    }
}
