//! Judging a reported step of a rotation (AWS Secrets Manager User Guide, "Lambda rotation functions").
ghost use Rattle.std.specs.Prelude.{◌≡◌, ◌≤◌, IfOk, IsTrue};
ghost use Rattle.sm_base.specs.declared.moment.TheConstants.{LAST_READING};
ghost use Rattle.sm_judge_common.specs.Secrets.{finished_row};
ghost use Rattle.sm_judge_rotations.specs.Reported.{is_at_step, answered, reported_on, reported_change};
ghost use Rattle.sm_table.specs.Sound.{Sound};
ghost use Rattle.sm_versions.specs.Kept.{CurrentKept};

use sm_judge_common::row_change::finish;
use sm_model::{Answer, Arn, At, Change, Copied, Job, NoMemory, SecretRow};
use sm_rotation::stepping::is_at;
use sm_rotation::{Applied, apply};
use sm_table::Table;
use sm_versions::When;
use std::alloc::Global;

/// The change that a rotator's answer makes in the secret with exactly this ARN, where its job is at the step that was
/// answered.
pub fn judge_reported(
    alloc: Global,
    table: &Table,
    when: When,
    arn: &Arn,
    at: &At,
    answer: &Answer,
) -> Result<Option<Change>, NoMemory>
    requires sound { Sound table.now }
    requires moment { when.moment.0 ≤ LAST_READING }
    ensures { IfOk result (λ change. change ≡ reported_change table.now when arn.now at.now answer.now) }
{
    match table.find_arn(arn, when.moment) {
        Some(row) => apply_if_at(alloc, row, when, at, answer),
        None => Ok(None),
    }
}

/// Whether there is a job, and it is at the step.
fn is_at_step(job: &Option<Job>, at: &At) -> bool
    ensures { result ≡ is_at_step job.now at.now }
{
    match job {
        Some(job) => is_at(job, at),
        None => false,
    }
}

/// Applies the answer in a copy of the row, where its job is at the step.
fn apply_if_at(
    alloc: Global,
    row: &SecretRow,
    when: When,
    at: &At,
    answer: &Answer,
) -> Result<Option<Change>, NoMemory>
    requires kept { CurrentKept row.now }
    requires moment { when.moment.0 ≤ LAST_READING }
    ensures { IfOk result (λ change. change ≡ reported_on row.now when at.now answer.now) }
{
    if !is_at_step(&row.job, at) {
        return Ok(None);
    }
    let after = answered(alloc, row, when, at, answer)?;
    Ok(Some(Change::Replace(after)))
}

/// A copy of the row, in which the answer is applied and the change finished.
fn answered(
    alloc: Global,
    row: &SecretRow,
    when: When,
    at: &At,
    answer: &Answer,
) -> Result<SecretRow, NoMemory>
    requires kept { CurrentKept row.now }
    requires moment { when.moment.0 ≤ LAST_READING }
    requires at { IsTrue (is_at_step row.now.job at.now) }
    ensures { IfOk result (λ after. after ≡ finished_row (answered answer.now when.moment row.now) when) }
{
    let mut after = row.copy(alloc)?;
    match apply(alloc, &mut after, at, answer, when.moment) {
        Applied::Done => {
            finish(&mut after, when);
            Ok(after)
        }
        Applied::Memory => Err(NoMemory),
        Applied::Stale(_) => unreachable!(),
    }
}
