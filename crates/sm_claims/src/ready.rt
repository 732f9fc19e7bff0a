//! Steps that are ready.
ghost use Rattle.std.specs.Prelude.{◌≡◌, IfOk, IfSome, IsTrue, option_copied};
ghost use Rattle.sm_table.specs.Changes.{row_with};
ghost use Rattle.sm_table.specs.Sound.{Sound};
ghost use Rattle.sm_versions.specs.Sound.{RowSound};
ghost use Rattle.sm_claims.specs.Ready.{is_ready, is_ready_job, ready_of, first_ready, first_ready_of};
ghost use Rattle.sm_claims.specs.LiveClaims.{claim_marks};
ghost use Rattle.sm_claims.specs.Works.{AreWorkOf};

use crate::claims::{Claim, is_claimed};
use crate::works::work_of;
use sm_model::{Job, Moment, NoMemory, SecretRow};
use sm_rotator::Work;
use sm_table::Table;
use sm_versions::is_live;
use std::alloc::Global;

/// Whether the job may be taken up: it is looked at before the claims are walked.
fn is_ready_job(claims: &[Claim], moment: Moment, row: &SecretRow, job: &Job) -> bool
    ensures { result ≡ is_ready_job (claim_marks claims.now) moment row.now job.now }
{
    job.retry_at.0 <= moment.0 && is_live(row, job) && !is_claimed(claims, &row.arn, job, moment)
}

/// Whether the secret has a job that may be taken up.
fn is_ready(claims: &[Claim], moment: Moment, row: &SecretRow) -> bool
    ensures { result ≡ is_ready (claim_marks claims.now) moment row.now }
{
    match &row.job {
        Some(job) => is_ready_job(claims, moment, row, job),
        None => false,
    }
}

/// The secret with the serial, if it has a job that may be taken up.
fn ready_with<'a>(
    table: &'a Table,
    claims: &[Claim],
    moment: Moment,
    serial: u64,
) -> Option<&'a SecretRow>
    ensures { option_copied result ≡ ready_of (claim_marks claims.now) moment (row_with table.now.secrets serial) }
{
    match table.row(serial) {
        Some(row) => {
            if is_ready(claims, moment, row) {
                Some(row)
            } else {
                None
            }
        }
        None => None,
    }
}

/// The first of the secrets with these serials that has such a job.
#[tactic(auto, using(crate::proofs::ReadyLemmas::ready_here, crate::proofs::ReadyLemmas::ready_next, crate::proofs::ReadyLemmas::ready_end))]
fn first_ready_of<'a>(
    table: &'a Table,
    claims: &[Claim],
    moment: Moment,
    serials: &[u64],
) -> Option<&'a SecretRow>
    ensures { option_copied result ≡ first_ready_of (claim_marks claims.now) moment table.now.secrets serials.now }
{
    for serial in serials {
        match ready_with(table, claims, moment, *serial) {
            Some(row) => return Some(row),
            None => {}
        }
    }
    None
}

/// The first secret that has such a job. A secret without a job is not looked at.
#[tactic(auto, using(crate::proofs::ReadyLemmas::jobs_are_rows))]
fn first_ready<'a>(table: &'a Table, claims: &[Claim], moment: Moment) -> Option<&'a SecretRow>
    requires { Sound table.now }
    ensures { option_copied result ≡ first_ready (claim_marks claims.now) moment table.now.secrets }
{
    first_ready_of(table, claims, moment, table.jobs())
}

/// The first secret that has such a job, of sound rows.
#[tactic(auto, using(crate::proofs::ReadyLemmas::ready_is_sound))]
fn ready_row<'a>(table: &'a Table, claims: &[Claim], moment: Moment) -> Option<&'a SecretRow>
    requires { Sound table.now }
    ensures first { option_copied result ≡ first_ready (claim_marks claims.now) moment table.now.secrets }
    ensures sound { IfSome (option_copied result) RowSound }
    ensures ready { IfSome (option_copied result) (λ row. IsTrue (is_ready (claim_marks claims.now) moment row)) }
{
    first_ready(table, claims, moment)
}

/// The work of the first step that is ready, in order of the secrets' creation: a step of a live job whose next attempt
/// may be made, and of which no claim is open.
pub fn ready_work(
    alloc: Global,
    table: &Table,
    claims: &[Claim],
    moment: Moment,
) -> Result<Option<Work>, NoMemory>
    requires { Sound table.now }
    ensures { IfOk result (AreWorkOf (first_ready (claim_marks claims.now) moment table.now.secrets)) }
{
    match ready_row(table, claims, moment) {
        Some(row) => match &row.job {
            Some(job) => Ok(Some(work_of(alloc, row, job)?)),
            None => unreachable!(),
        },
        None => Ok(None),
    }
}
