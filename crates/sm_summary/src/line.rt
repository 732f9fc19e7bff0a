//! The line of a secret.
ghost use Rattle.std.specs.Prelude.{◌≡◌, ◌++◌, IfOk, IsTrue, codes, decimal, string_bytes};
ghost use Rattle.sm_model.specs.Bounds.{fits, is_date};
ghost use Rattle.sm_summary.specs.Lines.{stage_name, job_text, IsState, IsLine};
ghost use Rattle.sm_versions.specs.Sound.{RowSound};

use sm_dates::show;
use sm_model::{Job, Moment, NoMemory, SecretRow, Stage};
use std::alloc::Global;

fn stage_name(stage: Stage) -> &'static str
    ensures { result.now ≡ stage_name stage }
{
    match stage {
        Stage::Create => "createSecret",
        Stage::Set => "setSecret",
        Stage::Test => "testSecret",
        Stage::Finish => "finishSecret",
    }
}

/// The step and the attempt of a rotation, or that none is under way.
fn job_text(alloc: Global, job: &Option<Job>) -> Result<String, NoMemory>
    ensures { IfOk result (λ text. string_bytes text ≡ job_text job.now) }
{
    match job {
        Some(job) => Ok(format!(in alloc; "{} {}", stage_name(job.stage), job.attempt)?),
        None => Ok(String::from_str(alloc, "idle")?),
    }
}

/// That a secret is live, or until which date it is kept.
#[tactic(auto, using(crate::proofs::LineLemmas::until_date))]
fn state_text(alloc: Global, deletion: Option<Moment>) -> Result<String, NoMemory>
    requires { IsTrue (fits is_date deletion) }
    ensures { IfOk result (λ text. IsState deletion (string_bytes text)) }
{
    match deletion {
        Some(deletion) => {
            let date = show(alloc, deletion)?;
            Ok(format!(in alloc; "until {}", date.as_str())?)
        }
        None => Ok(String::from_str(alloc, "live")?),
    }
}

/// The line of a secret.
#[tactic(auto, using(crate::proofs::LineLemmas::line_is))]
pub fn line(alloc: Global, row: &SecretRow) -> Result<String, NoMemory>
    requires { RowSound row.now }
    ensures { IfOk result (λ line. IsLine row.now (string_bytes line)) }
{
    let made = show(alloc, row.created)?;
    let state = state_text(alloc, row.deletion)?;
    let job = job_text(alloc, &row.job)?;
    Ok(format!(in alloc;
        "{} {} versions {} labels {} {state} {job}\n",
        row.name.as_text().as_str(),
        made.as_str(),
        row.versions.len(),
        row.labels.len()
    )?)
}
