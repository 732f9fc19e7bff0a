//! The settling of a rotation under way.
ghost use Rattle.std.specs.Prelude.{◌≡◌, ◌&&◌};
ghost use Rattle.sm_versions.specs.Versions.{has_value};
ghost use Rattle.sm_versions.specs.Settle.{is_live, is_create, advanced_job, settled_job, settle};
ghost use Rattle.sm_versions.specs.Kept.{KeptUnsettled, CurrentKept};

use crate::labels::{current, holder, is_held_by, pending};
use crate::versions::{has_value, has_version};
use sm_model::{Job, SecretRow, Stage};

/// Whether the job is live: the secret is not scheduled for deletion, and the version of the job's token exists,
/// holds AWSPENDING and does not hold AWSCURRENT.
pub fn is_live(row: &SecretRow, job: &Job) -> bool
    ensures { result ≡ is_live row.now job.now }
{
    let pairs = row.labels.as_slice();
    row.deletion.is_none()
        && has_version(&row.versions, &job.token)
        && is_held_by(pairs, &pending(), &job.token)
        && !is_held_by(pairs, &current(), &job.token)
}

/// Whether the job waits for a value that its version has.
fn has_its_value(row: &SecretRow, job: &Job) -> bool
    ensures { result ≡ (is_create job.now.stage && has_value row.now.versions job.now.token) }
{
    job.stage == Stage::Create && has_value(&row.versions, &job.token)
}

/// The job, moved from createSecret to setSecret where its version has a value.
fn advance_job(row: &SecretRow, mut job: Job) -> Job
    ensures { result ≡ advanced_job row.now job }
{
    if has_its_value(row, &job) {
        job.stage = Stage::Set;
        job.attempt = 1;
    }
    job
}

/// The job where it is live, moved on as far as it is done.
fn settle_job(row: &SecretRow, job: Option<Job>) -> Option<Job>
    ensures { result ≡ settled_job row.now job }
{
    match job {
        Some(job) => {
            if is_live(row, &job) {
                Some(advance_job(row, job))
            } else {
                None
            }
        }
        None => None,
    }
}

/// Drops the secret's job where it is not live, and moves it from createSecret to setSecret, attempt 1, where its
/// version has a value. It takes no memory.
#[tactic(auto, using(crate::proofs::KeptLaws::settle_keeps))]
pub fn settle(row: &mut SecretRow)
    ensures row { row.new ≡ settle row.old }
    ensures kept { KeptUnsettled row.old → CurrentKept row.new }
{
    let job = row.job.take();
    row.job = settle_job(row, job);
}
