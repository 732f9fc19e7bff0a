//! The work that a step is, with the values as they stand.
ghost use Rattle.std.specs.Prelude.{◌≡◌, IfOk, Some, is_some, option_copied};
ghost use Rattle.sm_rotation.specs.Step.{at_of};
ghost use Rattle.sm_rotator.specs.Steps.{needs_current, needs_pending};
ghost use Rattle.sm_versions.specs.Sound.{RowSound};
ghost use Rattle.sm_versions.specs.Versions.{value_of};
ghost use Rattle.sm_claims.specs.Works.{current_value, value_if, IsWorkOfJob};

use sm_model::{
    Arn, At, Copied, Job, NoMemory, SecretRow, SharedList, Stage, Token, Value, VersionRow,
};
use sm_rotation::stepping::at_of;
use sm_rotator::Work;
use sm_versions::labels::{current, holder};
use sm_versions::versions::version_of;
use std::alloc::Global;

/// Whether a rotator is given the current value at the stage.
fn needs_current(stage: Stage) -> bool
    ensures { result ≡ needs_current stage }
{
    match stage {
        Stage::Create => true,
        Stage::Set => true,
        Stage::Test => false,
        Stage::Finish => false,
    }
}

/// Whether a rotator is given the pending value at the stage.
fn needs_pending(stage: Stage) -> bool
    ensures { result ≡ needs_pending stage }
{
    match stage {
        Stage::Create => false,
        Stage::Set => true,
        Stage::Test => true,
        Stage::Finish => true,
    }
}

/// The value of the version with this id.
#[tactic(auto, using(sm_versions::proofs::VersionLemmas::value_of_is))]
fn value_of<'a>(versions: &'a SharedList<VersionRow>, id: &Token) -> Option<&'a Value>
    ensures { option_copied result ≡ value_of versions.now id.now }
{
    match version_of(versions, id) {
        Some(version) => version.value.as_ref(),
        None => None,
    }
}

/// The value of the version that holds AWSCURRENT.
fn current_value(row: &SecretRow) -> Option<&Value>
    ensures { option_copied result ≡ current_value row.now }
{
    match holder(row.labels.as_slice(), &current()) {
        Some(id) => value_of(&row.versions, id),
        None => None,
    }
}

/// A copy of the value, where it is wanted.
fn value_if(alloc: Global, wanted: bool, value: Option<&Value>) -> Result<Option<Value>, NoMemory>
    ensures { IfOk result (λ copy. copy ≡ value_if wanted (option_copied value.entry)) }
{
    if !wanted {
        return Ok(None);
    }
    match value {
        Some(value) => Ok(Some(value.copy(alloc)?)),
        None => Ok(None),
    }
}

/// The values that a rotator is given at the job's step.
fn values_of(
    alloc: Global,
    row: &SecretRow,
    job: &Job,
) -> Result<(Option<Value>, Option<Value>), NoMemory>
    ensures { IfOk result (λ values.
        (values.0 ≡ value_if (needs_current job.now.stage) (current_value row.now))
        × (values.1 ≡ value_if (needs_pending job.now.stage) (value_of row.now.versions job.now.token))) }
{
    let current = value_if(alloc, needs_current(job.stage), current_value(row))?;
    let pending = value_of(&row.versions, &job.token);
    let pending = value_if(alloc, needs_pending(job.stage), pending)?;
    Ok((current, pending))
}

/// The secret's ARN, and the step that the job is at.
fn step_of(alloc: Global, row: &SecretRow, job: &Job) -> Result<(Arn, At), NoMemory>
    ensures { IfOk result (λ step. (step.0 ≡ row.now.arn) × (step.1 ≡ at_of job.now)) }
{
    let arn = row.arn.copy(alloc)?;
    Ok((arn, at_of(alloc, job)?))
}

/// The work of the step that the secret's job is at, with the values as they stand.
pub fn work_of(alloc: Global, row: &SecretRow, job: &Job) -> Result<Work, NoMemory>
    requires sound { RowSound row.now }
    requires its { row.now.job ≡ Some job.now }
    ensures { IfOk result (IsWorkOfJob row.now job.now) }
{
    match version_of(&row.versions, &job.token) {
        Some(version) => {
            let (arn, at) = step_of(alloc, row, job)?;
            let (current, pending) = values_of(alloc, row, job)?;
            Ok(Work {
                arn,
                at,
                secret: row.serial,
                version: version.serial,
                current,
                pending,
            })
        }
        None => unreachable!(),
    }
}
