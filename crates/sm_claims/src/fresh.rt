//! Verdicts that still hold when they are reported.
ghost use Rattle.std.specs.Prelude.{◌≡◌, IfOk, Some, option_copied};
ghost use Rattle.sm_claims.specs.Fresh.{same_values, is_version_of, is_job_of, is_fresh, step_of};

use sm_model::{At, Job, NoMemory, SecretRow, Value, VersionRow};
use sm_rotation::stepping::{at_of, is_at};
use sm_rotator::Work;
use sm_versions::versions::{is_same_value, version_of};
use std::alloc::Global;

/// Whether neither value is there, or both are and they are the same.
fn same_values(value: &Option<Value>, other: &Option<Value>) -> bool
    ensures { result ≡ same_values value.now other.now }
{
    match value {
        Some(value) => match other {
            Some(other) => is_same_value(value, other),
            None => false,
        },
        None => other.is_none(),
    }
}

/// Whether it is the version that the work is about, with the value that the work has.
fn is_version_of(version: Option<&VersionRow>, work: &Work) -> bool
    ensures { result ≡ is_version_of (option_copied version.entry) work.now }
{
    match version {
        Some(version) => {
            version.serial == work.version && same_values(&version.value, &work.pending)
        }
        None => false,
    }
}

/// Whether the secret's job is at the work's step, and its version is the work's.
fn is_job_of(row: &SecretRow, job: &Job, work: &Work) -> bool
    ensures { result ≡ is_job_of row.now (Some job.now) work.now }
{
    is_at(job, &work.at) && is_version_of(version_of(&row.versions, &job.token), work)
}

/// Whether a verdict on the work still holds of the secret that is found by the work's ARN. It takes no memory.
pub fn is_fresh(row: Option<&SecretRow>, work: &Work) -> bool
    ensures { result ≡ is_fresh (option_copied row.entry) work.now }
{
    match row {
        Some(row) => match &row.job {
            Some(job) => row.serial == work.secret && is_job_of(row, job, work),
            None => false,
        },
        None => false,
    }
}

/// The step that the secret's job is at, where there is a secret with a job.
pub fn step_of(alloc: Global, row: Option<&SecretRow>) -> Result<Option<At>, NoMemory>
    ensures { IfOk result (λ at. at ≡ step_of (option_copied row.entry)) }
{
    match row {
        Some(row) => match &row.job {
            Some(job) => Ok(Some(at_of(alloc, job)?)),
            None => Ok(None),
        },
        None => Ok(None),
    }
}
