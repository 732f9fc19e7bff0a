//! The steps of a rotation, by what a rotator answered (AWS Secrets Manager User Guide, "Lambda rotation functions").
ghost use Rattle.std.specs.Prelude.{◌≡◌, ◌≤◌, ◌↔◌, IsTrue, IfOk, IfSome, OnOk, OnErr, if◌then◌else◌};
ghost use Rattle.sm_base.specs.Outcomes.{OrMemory};
ghost use Rattle.sm_base.specs.declared.moment.TheConstants.{LAST_READING};
ghost use Rattle.sm_base.specs.declared.limits.TheConstants.{ATTEMPTS_LIMIT};
ghost use Rattle.sm_versions.specs.Kept.{CurrentKept};
ghost use Rattle.sm_versions.specs.Sound.{RowSound};
ghost use Rattle.sm_rotation.specs.Step.{same_stage, at_of, is_at, is_yes, made_value, onward, retried, after_create, after_set, after_test, after_finish, step, apply_answer, applied_row, is_done, has_applied, apply_told};
ghost use Rattle.sm_rotation.specs.Vouched.{Replies, RowVouched, AcceptsOnly};

use crate::finishing::finish;
use sm_base::limits::{ATTEMPTS_LIMIT, VALUE_LIMIT};
use sm_model::{Answer, At, Copied, Job, Moment, NoMemory, SecretRow, Stage, Token, Value};
use sm_versions::labels::is_same_id;
use sm_versions::settle;
use sm_versions::versions::filled;
use std::alloc::Global;

/// What became of an answer.
#[derive(Drop)]
pub enum Applied {
    Done,
    /// The secret's job is not at the step that was answered, but at this one, or there is none.
    Stale(Option<At>),
    Memory,
}

/// The step that the job is at.
pub fn at_of(alloc: Global, job: &Job) -> Result<At, NoMemory>
    ensures { IfOk result (λ at. at ≡ at_of job.now) }
{
    Ok(At {
        token: job.token.copy(alloc)?,
        stage: job.stage,
        attempt: job.attempt,
    })
}

/// Whether both are the same stage.
#[tactic(auto, using(crate::proofs::StepLemmas::same_stage_from_equals))]
fn is_same_stage(stage: Stage, other: Stage) -> bool
    ensures { result ≡ same_stage stage other }
{
    stage == other
}

/// Whether the job has the token, the stage and the attempt of this step.
fn has_each_of(job: &Job, at: &At) -> bool
    ensures { result ≡ is_at job.now at.now }
{
    is_same_id(&job.token, &at.token)
        && is_same_stage(job.stage, at.stage)
        && job.attempt == at.attempt
}

/// Whether the job is at this step.
#[tactic(auto, using(crate::proofs::StepLemmas::is_at_tells))]
pub fn is_at(job: &Job, at: &At) -> bool
    ensures exact { result ≡ is_at job.now at.now }
    ensures same { IsTrue result ↔ (at_of job.now ≡ at.now) }
{
    has_each_of(job, at)
}

/// Whether the answer is yes.
fn is_yes(answer: &Answer) -> bool
    ensures { result ≡ is_yes answer.now }
{
    match answer {
        Answer::Value(_) => false,
        Answer::Yes => true,
        Answer::No => false,
        Answer::Failed => false,
    }
}

/// A copy of the value that was made, where a version may have it.
fn made_value(alloc: Global, answer: &Answer) -> Result<Option<Value>, NoMemory>
    ensures { IfOk result (λ value. value ≡ made_value answer.now) }
{
    match answer {
        Answer::Value(value) => {
            if value.len() <= VALUE_LIMIT {
                Ok(Some(value.copy(alloc)?))
            } else {
                Ok(None)
            }
        }
        Answer::Yes => Ok(None),
        Answer::No => Ok(None),
        Answer::Failed => Ok(None),
    }
}

/// The job at the first attempt of a stage.
fn onward(mut job: Job, stage: Stage, moment: Moment) -> Job
    ensures { result ≡ onward job stage moment }
{
    job.stage = stage;
    job.attempt = 1;
    job.retry_at = moment;
    job
}

/// The job at the next attempt of its stage, or none after the last one.
fn retried(mut job: Job, moment: Moment) -> Option<Job>
    requires { moment.0 ≤ LAST_READING }
    ensures { result ≡ retried job moment }
{
    if job.attempt < ATTEMPTS_LIMIT {
        job.retry_at = Moment(moment.0 + 60 * u64::from(job.attempt));
        job.attempt += 1;
        Some(job)
    } else {
        None
    }
}

/// The job after setSecret.
fn after_set(job: Job, moment: Moment, answer: &Answer) -> Option<Job>
    requires { moment.0 ≤ LAST_READING }
    ensures { result ≡ after_set job moment answer.now }
{
    if is_yes(answer) {
        Some(onward(job, Stage::Test, moment))
    } else {
        retried(job, moment)
    }
}

/// The job after testSecret.
fn after_test(job: Job, moment: Moment, answer: &Answer) -> Option<Job>
    requires { moment.0 ≤ LAST_READING }
    ensures { result ≡ after_test job moment answer.now }
{
    if is_yes(answer) {
        let attempt = job.attempt;
        let mut job = onward(job, Stage::Finish, moment);
        job.tested = Some(attempt);
        Some(job)
    } else {
        retried(job, moment)
    }
}

/// Gives the row's version the value that createSecret made.
fn after_create(
    alloc: Global,
    row: &mut SecretRow,
    job: Job,
    moment: Moment,
    value: Option<Value>,
) -> Result<(), NoMemory>
    requires { moment.0 ≤ LAST_READING }
    ensures done { OnOk result (row.new ≡ after_create row.old job moment value) }
    ensures err { OnErr result (row.new ≡ row.old) }
{
    match value {
        Some(value) => {
            row.versions = filled(alloc, &row.versions, &job.token, value)?;
            row.job = Some(onward(job, Stage::Set, moment));
        }
        None => row.job = retried(job, moment),
    }
    Ok(())
}

/// Ends the rotation after a yes.
fn after_finish(
    alloc: Global,
    row: &mut SecretRow,
    job: Job,
    moment: Moment,
    answer: &Answer,
) -> Result<(), NoMemory>
    requires { moment.0 ≤ LAST_READING }
    ensures done { OnOk result (row.new ≡ after_finish row.old job moment answer.now) }
    ensures err { OnErr result (row.new ≡ row.old) }
{
    if is_yes(answer) {
        finish(alloc, row, &job, moment)?;
    } else {
        row.job = retried(job, moment);
    }
    Ok(())
}

/// Does what the answer to the job's step leads to.
fn step(
    alloc: Global,
    row: &mut SecretRow,
    job: Job,
    answer: &Answer,
    moment: Moment,
) -> Result<(), NoMemory>
    requires { moment.0 ≤ LAST_READING }
    ensures done { OnOk result (row.new ≡ step row.old job answer.now moment) }
    ensures err { OnErr result (row.new ≡ row.old) }
{
    match job.stage {
        Stage::Create => {
            let value = made_value(alloc, answer)?;
            after_create(alloc, row, job, moment, value)?;
        }
        Stage::Set => row.job = after_set(job, moment, answer),
        Stage::Test => row.job = after_test(job, moment, answer),
        Stage::Finish => after_finish(alloc, row, job, moment, answer)?,
    }
    Ok(())
}

/// The same as `apply`.
fn try_apply(
    alloc: Global,
    row: &mut SecretRow,
    at: &At,
    answer: &Answer,
    moment: Moment,
) -> Result<Applied, NoMemory>
    requires { moment.0 ≤ LAST_READING }
    ensures answer { IfOk result (λ applied. applied ≡ apply_answer row.old.job at.now) }
    ensures row { row.new
        ≡ (if has_applied result then applied_row row.old row.old.job answer.now moment else row.old) }
{
    match &row.job {
        Some(job) => {
            if !is_at(job, at) {
                return Ok(Applied::Stale(Some(at_of(alloc, job)?)));
            }
            let job = job.copy(alloc)?;
            step(alloc, row, job, answer, moment)?;
            settle(row);
            Ok(Applied::Done)
        }
        None => Ok(Applied::Stale(None)),
    }
}

/// Applies a rotator's answer to a step at the moment, where the secret's job is at that step.
pub fn apply(
    alloc: Global,
    row: &mut SecretRow,
    at: &At,
    answer: &Answer,
    moment: Moment,
) -> Applied
    requires moment_in { moment.0 ≤ LAST_READING }
    requires current_kept { CurrentKept row.old }
    ensures answer { OrMemory (apply_told result) (apply_answer row.old.job at.now) }
    ensures row { row.new ≡ (if is_done result then applied_row row.old row.old.job answer.now moment else row.old) }
    ensures kept { CurrentKept row.new }
    ensures sound { RowSound row.old → RowSound row.new }

    // A version remembers an attempt only where the test was accepted at it.
    ensures vouched { (replies : Replies) → RowVouched replies row.old
        → IfSome row.old.job (AcceptsOnly replies row.old answer.now) → RowVouched replies row.new }
{
    match try_apply(alloc, row, at, answer, moment) {
        Ok(applied) => applied,
        Err(NoMemory) => Applied::Memory,
    }
}
